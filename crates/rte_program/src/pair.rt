//! The command `pair C1 C2 S`.
//!
//! # Decisions
//!
//! **Why has a link that fails no status?** The program's link is one in memory, made without failing calls, and a link says of itself that
//! it never fails (`never_fails`). `run_linked` is the same over any link, and answers that it failed; rows run it over links that do.
//!
//! **Why does the program's link give 1, 7 and 64 bytes at a time?** So that in every run frames come in pieces that are cut within a header, within a
//! word and not at all. No text depends on it.

ghost use Rattle.std.specs.Prelude.{◌≡◌, ◌≢◌, ◌≤◌, ◌<◌, ◌⊎◌, ◌∷◌, ℕ, List, [], length, true, IfOk};
ghost use Rattle.bus_semantics.specs.Plan.{plan_of};
ghost use Rattle.core_runtime.specs.Nodes.{IsLawfulNode};
ghost use Rattle.description_stages.specs.Plans.{IsPlannedOf};
ghost use Rattle.pair_run.specs.declared.pair.PairRun.TheVariants.{LinkFailed};
ghost use Rattle.pair_run.specs.Linked.{links_of};
ghost use Rattle.script_reading.specs.Reading.{IsScriptBy};
ghost use Rattle.signal_link.specs.Pipes.{never_fails};
ghost use Rattle.commands.specs.Carrying.{world, CarriesOut, Ends};
ghost use Rattle.commands.specs.Commands.{pair};
ghost use Rattle.commands.specs.PairCommand.{ArePairInputs, pair_saying};
ghost use Rattle.rte_program.specs.Running.{IsLinkedRun, IsPairRun};

use crate::run::new_node;
use commands::{LinkedScript, PlannedPair, PreparedPair, Status, fetch_all, judge_pair, report};
use core_runtime::Node;
use pair_run::{PairRun, pair_scripts_are_pair_lines, run_pair};
use rte_text::{Gate, Shelf, Sink};
use signal_link::{Link, PipeLink};
use std::alloc::{AllocError, Global};
use std::thread::Threads;

/// So many bytes are on the way between two nodes at most.
const LINK_ROOM: u32 = 4_096;

/// So many bytes the link gives at most, one after the other and then again from the first, so that frames come in pieces.
const LINK_CUTS: [u32; 3] = [1, 7, 64];

/// Two nodes to which nothing has happened.
#[derive(Drop)]
struct NewNodes {
    one: Node,
    two: Node,
}

/// Nodes of both plans. The only error is that there is no memory.
fn new_nodes(alloc: Global, nodes: PlannedPair) -> Result<NewNodes, AllocError>
    requires one { (d : List ℕ) × IsPlannedOf d nodes.one }
    requires two { (d : List ℕ) × IsPlannedOf d nodes.two }
    ensures plan_one { IfOk result (λ x. x.one.plan ≡ nodes.one.plan) }
    ensures plan_two { IfOk result (λ x. x.two.plan ≡ nodes.two.plan) }
    ensures mapping_one { IfOk result (λ x. x.one.mapping ≡ nodes.one.mapping) }
    ensures mapping_two { IfOk result (λ x. x.two.mapping ≡ nodes.two.mapping) }
    ensures lawful_one { IfOk result (λ x. IsLawfulNode x.one []) }
    ensures lawful_two { IfOk result (λ x. IsLawfulNode x.two []) }
{
    let PlannedPair { one, two } = nodes;
    match new_node(alloc, one) {
        Ok(one) => match new_node(alloc, two) {
            Ok(two) => Ok(NewNodes { one, two }),
            Err(memory) => {
                drop(one);
                Err(memory)
            }
        },
        Err(memory) => {
            drop(two);
            Err(memory)
        }
    }
}

/// Runs the script on two nodes to which nothing has happened, over this link, and puts the traces of both.
fn run_nodes<R: Threads + Sync, K: Sink, G: Gate, L: Link>(
    rt: &R,
    alloc: Global,
    nodes: NewNodes,
    linked: LinkedScript,
    link: &mut L,
    out: &mut K,
    gate: &G,
) -> PairRun
    requires lawful_one { IsLawfulNode nodes.one [] }
    requires lawful_two { IsLawfulNode nodes.two [] }
    requires links { linked.links.items ≡ links_of (plan_of nodes.one.plan) (plan_of nodes.two.plan) }
    requires some { 0 < length linked.links.items }
    requires scripted { (s : List ℕ) × IsScriptBy (pair_saying (plan_of nodes.one.plan) (plan_of nodes.two.plan)) s linked.script.lines }
    requires way { L.way link.old ≡ [] }
    ensures run { IsLinkedRun (plan_of nodes.one.plan) nodes.one.mapping
        (plan_of nodes.two.plan) nodes.two.mapping linked.script.lines result
        (K.told out.old) (K.told out.new) (K.faults out.old) (K.faults out.new) }
    ensures sound_link { L.never_fails link.old ≡ true → result ≢ LinkFailed }
{
    pair_scripts_are_pair_lines();
    let NewNodes { mut one, mut two } = nodes;
    let LinkedScript { links, script } = linked;
    let run = run_pair(
        rt, alloc, &mut one, &mut two, links, &script, link, out, gate,
    );
    drop(one);
    drop(two);
    drop(script);
    run
}

/// Runs the script on new nodes of both plans, over a link on which no byte is on the way, and puts the traces of both, in version two. Want
/// of memory may come before the first line is put or within a run line.
pub fn run_linked<R: Threads + Sync, K: Sink, G: Gate, L: Link>(
    rt: &R,
    alloc: Global,
    prepared: PreparedPair,
    link: &mut L,
    out: &mut K,
    gate: &G,
) -> PairRun
    requires ready { (c d s : List ℕ) × ArePairInputs c d s prepared.nodes.one prepared.nodes.two prepared.linked.script.lines }
    requires links { prepared.linked.links.items ≡ links_of (plan_of prepared.nodes.one.plan) (plan_of prepared.nodes.two.plan) }
    requires way { L.way link.old ≡ [] }
    ensures run { IsLinkedRun (plan_of prepared.nodes.one.plan) prepared.nodes.one.mapping
        (plan_of prepared.nodes.two.plan) prepared.nodes.two.mapping
        prepared.linked.script.lines result (K.told out.old) (K.told out.new) (K.faults out.old) (K.faults out.new) }
    ensures sound_link { L.never_fails link.old ≡ true → result ≢ LinkFailed }
{
    let PreparedPair { nodes, linked } = prepared;
    match new_nodes(alloc, nodes) {
        Ok(nodes) => run_nodes(rt, alloc, nodes, linked, link, out, gate),
        Err(_) => {
            drop(linked);
            PairRun::Memory
        }
    }
}

/// A link without a byte on the way, which never fails.
fn make_link(alloc: Global) -> Result<PipeLink, AllocError>
    ensures way { IfOk result (λ link. link.way ≡ []) }
    ensures never_fails { IfOk result (λ link. never_fails link ≡ true) }
{
    let cuts = Vec::from_slice(alloc, &LINK_CUTS)?;
    PipeLink::new(alloc, LINK_ROOM, cuts, Vec::new(alloc))
}

/// Runs the script on new nodes of both plans, over a link that never fails, and puts the traces of both, in version two.
fn run_prepared_pair<R: Threads + Sync, K: Sink, G: Gate>(
    rt: &R,
    alloc: Global,
    prepared: PreparedPair,
    out: &mut K,
    gate: &G,
) -> Status
    requires ready { (c d s : List ℕ) × ArePairInputs c d s prepared.nodes.one prepared.nodes.two prepared.linked.script.lines }
    requires links { prepared.linked.links.items ≡ links_of (plan_of prepared.nodes.one.plan) (plan_of prepared.nodes.two.plan) }
    ensures { IsPairRun (plan_of prepared.nodes.one.plan) prepared.nodes.one.mapping
        (plan_of prepared.nodes.two.plan) prepared.nodes.two.mapping
        prepared.linked.script.lines result (K.told out.old) (K.told out.new) (K.faults out.old) (K.faults out.new) }
{
    let mut link = match make_link(alloc) {
        Ok(link) => link,
        Err(_) => {
            drop(prepared);
            return Status::Memory;
        }
    };
    let run = run_linked(rt, alloc, prepared, &mut link, out, gate);
    drop(link);
    match run {
        PairRun::Finished => Status::Done,
        PairRun::Failed => Status::NotWritten,
        PairRun::Memory => Status::Memory,
        // The link never fails.
        PairRun::LinkFailed => unreachable!(),
    }
}

/// Runs the script on two nodes of these descriptions, from the bytes of the three files, and puts the traces of both.
fn pair_files<R: Threads + Sync, K: Sink, G: Gate>(
    rt: &R,
    alloc: Global,
    one: &[u8],
    two: &[u8],
    script: &[u8],
    out: &mut K,
    gate: &G,
) -> Status
    requires one { length one.now ≤ 8388608 }
    requires two { length two.now ≤ 8388608 }
    requires script { length script.now ≤ 8388608 }
    ensures { (c d s : List ℕ) → CarriesOut (pair c d s) (one.now ∷ two.now ∷ script.now ∷ []) result
        (K.told out.old) (K.told out.new) (K.faults out.old) (K.faults out.new) }
{
    match judge_pair(alloc, one, two, script) {
        Ok(prepared) => run_prepared_pair(rt, alloc, prepared, out, gate),
        Err(stop) => report(alloc, &stop, out),
    }
}

/// Carries out `pair C1 C2 S`: reads the descriptions C1 and C2 and the script S from the shelf, runs the script on two nodes of the descriptions, which a
/// link of bytes joins, and puts the traces of both, in version two, each line behind the number of its node.
pub fn pair_named<R: Threads + Sync, S: Shelf, K: Sink, G: Gate>(
    rt: &R,
    alloc: Global,
    one: &str,
    two: &str,
    script: &str,
    shelf: &mut S,
    out: &mut K,
    gate: &G,
) -> Status
    ensures files_stay { S.files shelf.new ≡ S.files shelf.old }
    ensures ends { Ends (pair one.now two.now script.now) result
        (world (S.files shelf.old) (S.faults shelf.old) (S.long_files shelf.old) (S.fetches shelf.old) (K.told out.old) (K.faults out.old))
        (world (S.files shelf.new) (S.faults shelf.new) (S.long_files shelf.new) (S.fetches shelf.new) (K.told out.new) (K.faults out.new)) }
{
    match fetch_all(alloc, shelf, &[one, two, script]) {
        Ok(files) => pair_files(
            rt,
            alloc,
            files[0].as_slice(),
            files[1].as_slice(),
            files[2].as_slice(),
            out,
            gate,
        ),
        Err(stop) => report(alloc, &stop, out),
    }
}
