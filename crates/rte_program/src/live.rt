//! The command `live C`.
//!
//! # Decisions
//!
//! **Which name has standard input?** The shelf is asked for the file `-`. So the stimuli are a file as any other: in memory they are one, and the
//! program's shelf gives its standard input for it.
//!
//! **Why is `live` no script with other lines?** Of a script each line stands in the history before the next is read. Here nothing is said of
//! where a wish of one feed stands among those of another, nor of what the cores make between them.

ghost use Rattle.std.specs.Prelude.{◌≡◌, ◌≤◌, ◌⊎◌, ◌∷◌, ℕ, List, [], length};
ghost use Rattle.rte_text.specs.Counts.{Rose};
ghost use Rattle.bus_semantics.specs.Plan.{plan_of};
ghost use Rattle.core_runtime.specs.Nodes.{IsLawfulNode};
ghost use Rattle.feed_queue.specs.Reading.{AreFeeds};
ghost use Rattle.commands.specs.declared.status.Status.TheVariants as status;
ghost use Rattle.commands.specs.Carrying.{world, CarriesOut, Ends};
ghost use Rattle.commands.specs.Commands.{live};
ghost use Rattle.commands.specs.LiveCommand.{AreLiveInputs};
ghost use Rattle.rte_program.specs.Running.{IsLiveRun};

use crate::run::new_node;
use commands::{PreparedFeeds, Status, fetch_all, judge_live, report};
use core_runtime::Node;
use live_node::{Feeds, Served, put_live, serve};
use rte_text::{Gate, Shelf, Sink};
use script_run::ScriptRun;
use std::alloc::Global;
use std::sync::Wait;
use std::thread::Threads;

/// The name of the file of stimuli.
const STIMULI: &str = "-";

/// Serves a node to which nothing has happened by the feeds, and then puts what it made and runs it to rest.
fn serve_node<R: Threads + Wait + Sync, K: Sink, G: Gate>(
    rt: &R,
    alloc: Global,
    node: Node,
    feeds: &Feeds,
    out: &mut K,
    gate: &G,
) -> Status
    requires lawful { IsLawfulNode node [] }
    requires cores { node.mapping.cores ≤ 7 }
    requires fed { (s : List ℕ) × AreFeeds (plan_of node.plan) s feeds.now }
    ensures { IsLiveRun (plan_of node.plan) node.mapping feeds.now result
        (K.told out.old) (K.told out.new) (K.faults out.old) (K.faults out.new) }
{
    let report = match serve(rt, alloc, node, feeds, gate) {
        Served::Stopped(report) => report,
        Served::Memory(node) => {
            drop(node);
            return Status::Memory;
        }
    };
    match put_live(rt, alloc, report, out, gate) {
        ScriptRun::Finished => Status::Done,
        ScriptRun::Failed => Status::NotWritten,
        ScriptRun::Memory => Status::Memory,
    }
}

/// Serves a new node of the plan by the feeds, and puts what came of it. Want of memory may come before the first line is put, when nothing has
/// happened, or within the run line.
fn serve_prepared<R: Threads + Wait + Sync, K: Sink, G: Gate>(
    rt: &R,
    alloc: Global,
    prepared: PreparedFeeds,
    out: &mut K,
    gate: &G,
) -> Status
    requires ready { (d s : List ℕ) × AreLiveInputs d s prepared.found prepared.feeds }
    ensures { IsLiveRun (plan_of prepared.found.plan) prepared.found.mapping prepared.feeds result
        (K.told out.old) (K.told out.new) (K.faults out.old) (K.faults out.new) }
{
    let PreparedFeeds { found, feeds } = prepared;
    match new_node(alloc, found) {
        Ok(node) => {
            let status = serve_node(rt, alloc, node, &feeds, out, gate);
            drop(feeds);
            status
        }
        Err(_) => {
            drop(feeds);
            Status::Memory
        }
    }
}

/// Serves a node of the description by the stimuli, from their bytes, and puts what came of it.
fn live_files<R: Threads + Wait + Sync, K: Sink, G: Gate>(
    rt: &R,
    alloc: Global,
    description: &[u8],
    stimuli: &[u8],
    out: &mut K,
    gate: &G,
) -> Status
    requires description { length description.now ≤ 8388608 }
    requires stimuli { length stimuli.now ≤ 8388608 }
    ensures { (d : List ℕ) → CarriesOut (live d) (description.now ∷ stimuli.now ∷ []) result
        (K.told out.old) (K.told out.new) (K.faults out.old) (K.faults out.new) }
{
    match judge_live(alloc, description, stimuli) {
        Ok(prepared) => serve_prepared(rt, alloc, prepared, out, gate),
        Err(stop) => report(alloc, &stop, out),
    }
}

/// Carries out `live C`: reads the description C from the shelf, and then the stimuli from the file `-`. It runs the cores of the description while
/// the stimuli arrive, and puts what they made and what a run line then makes.
pub fn live_named<R: Threads + Wait + Sync, S: Shelf, K: Sink, G: Gate>(
    rt: &R,
    alloc: Global,
    description: &str,
    shelf: &mut S,
    out: &mut K,
    gate: &G,
) -> Status
    ensures files_stay { S.files shelf.new ≡ S.files shelf.old }
    ensures ends { Ends (live description.now) result
        (world (S.files shelf.old) (S.faults shelf.old) (S.long_files shelf.old) (S.fetches shelf.old) (K.told out.old) (K.faults out.old))
        (world (S.files shelf.new) (S.faults shelf.new) (S.long_files shelf.new) (S.fetches shelf.new) (K.told out.new) (K.faults out.new)) }
{
    match fetch_all(alloc, shelf, &[description, STIMULI]) {
        Ok(files) => live_files(
            rt,
            alloc,
            files[0].as_slice(),
            files[1].as_slice(),
            out,
            gate,
        ),
        Err(stop) => report(alloc, &stop, out),
    }
}
