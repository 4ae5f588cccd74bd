//! What is put of a node that was served by feeds.
//!
//! # Decisions
//!
//! **Why is nothing put while stimuli come?** Only when the round is closed it is known in which order its entries were made. A sink that
//! waits would hold the node.

ghost use Rattle.std.specs.Prelude.{◌≡◌, ◌≢◌, ◌++◌, true};
ghost use Rattle.bus_semantics.specs.Common.{list_all, History, plan_of, IsSound, entry_text};
ghost use Rattle.rte_text.specs.declared.sink.Put.TheVariants as put;
ghost use Rattle.rte_text.specs.Sinks.{SinkFaultsAfter, ToldAfter};
ghost use Rattle.bus_semantics.specs.declared.script.Mapping.{Mapping};
ghost use Rattle.bus_semantics.specs.declared.version.Version.TheVariants.{Two};
ghost use Rattle.core_lanes.specs.After.{after, is_outside};
ghost use Rattle.core_runtime.specs.Nodes.{IsLawfulNode};
ghost use Rattle.feed_queue.specs.Passes.{order_of};
ghost use Rattle.script_run.specs.declared.script.ScriptRun.TheVariants.{Finished};
ghost use Rattle.script_run.specs.Running.{FaultsAfter};
ghost use Rattle.script_run.specs.Sizes.{is_sized_entry, is_sized_stamped};
ghost use Rattle.live_node.specs.Printing.{feed_mark, order_behind, served_line, served_lines, served_text, PrintsBegunLive, PrintsLive};

use crate::serving::Report;
use bus_semantics::{Actor, BusPlan, Entry, Stamped, Version};
use core_runtime::Node;
use rte_text::{Gate, LineBuf, Put, Sink};
use script_run::{ScriptRun, Writing, put_entry, run_line};
use std::alloc::Global;
use std::thread::Threads;

/// Whether the environment made the entry.
fn is_outside(stamped: &Stamped) -> bool
    ensures { result ≡ is_outside stamped.now }
{
    match stamped.entry.actor {
        Actor::Env => true,
        Actor::Machine(_) | Actor::Act(_) => false,
    }
}

/// Puts the number of the feed that the order names first, and a space. `line` is only room for it.
fn put_mark<K: Sink>(order: &[u8], out: &mut K, line: &mut LineBuf) -> Put
    ensures told { ToldAfter result (K.told out.old) (K.told out.new) (feed_mark order.now) }
    ensures faults { SinkFaultsAfter result (K.faults out.old) (K.faults out.new) }
{
    match order {
        [] => Put::Done,
        [feed, ..] => {
            line.clear();
            line.number(i64::from(*feed));
            line.text(b" ");
            out.put(line.bytes())
        }
    }
}

/// Puts the line of a call behind the number of its feed and a space, in two puts.
fn put_call<K: Sink>(
    p: &BusPlan,
    call: &Entry,
    order: &[u8],
    out: &mut K,
    line: &mut LineBuf,
) -> Put
    requires { (m : Mapping) × IsSound (plan_of p.now) m }
    ensures told { ToldAfter result (K.told out.old) (K.told out.new) (feed_mark order.now ++ entry_text Two (plan_of p.now) call.now) }
    ensures faults { SinkFaultsAfter result (K.faults out.old) (K.faults out.new) }
    ensures sized { result ≡ put.Done → is_sized_entry call.now ≡ true }
{
    match put_mark(order, out, line) {
        Put::Done => put_entry(p, call, Writing::plain(Version::Two), out, line),
        Put::Failed => Put::Failed,
    }
}

/// Puts the line of an entry, which stands behind the number of its feed if the environment made it.
fn put_served_line<K: Sink>(
    p: &BusPlan,
    stamped: &Stamped,
    order: &[u8],
    out: &mut K,
    line: &mut LineBuf,
) -> Put
    requires { (m : Mapping) × IsSound (plan_of p.now) m }
    ensures told { ToldAfter result (K.told out.old) (K.told out.new) (served_line (plan_of p.now) order.now stamped.now) }
    ensures faults { SinkFaultsAfter result (K.faults out.old) (K.faults out.new) }
    ensures sized { result ≡ put.Done → is_sized_stamped stamped.now ≡ true }
{
    if is_outside(stamped) {
        put_call(p, &stamped.entry, order, out, line)
    } else {
        put_entry(p, &stamped.entry, Writing::plain(Version::Two), out, line)
    }
}

/// The order of the calls behind an entry.
fn order_behind<'a>(order: &'a [u8], stamped: &Stamped) -> &'a [u8]
    ensures { result.now ≡ order_behind order.now stamped.now }
{
    match order {
        [_, behind @ ..] if is_outside(stamped) => behind,
        _ => order,
    }
}

/// Puts the lines of entries, in order, up to the first put that fails. The order names a feed for each call of the environment.
fn put_served_lines<K: Sink>(
    p: &BusPlan,
    entries: &[Stamped],
    order: &[u8],
    out: &mut K,
    line: &mut LineBuf,
) -> Put
    requires { (m : Mapping) × IsSound (plan_of p.now) m }
    ensures told { ToldAfter result (K.told out.old) (K.told out.new) (served_lines (plan_of p.now) order.now entries.now) }
    ensures faults { SinkFaultsAfter result (K.faults out.old) (K.faults out.new) }
    ensures sized { result ≡ put.Done → list_all is_sized_stamped entries.now ≡ true }
{
    let mut left = order;
    for stamped in entries {
        match put_served_line(p, stamped, left, out, line) {
            Put::Done => {}
            Put::Failed => return Put::Failed,
        }
        left = order_behind(left, stamped);
    }
    Put::Done
}

/// Puts what a node made while stimuli came: the header, the lines of its entries, and the stop.
fn put_served<K: Sink>(n: &Node, order: &[u8], out: &mut K) -> Put
    ensures told { ToldAfter result (K.told out.old) (K.told out.new) (served_text (plan_of n.now.plan) order.now n.now.entries) }
    ensures faults { SinkFaultsAfter result (K.faults out.old) (K.faults out.new) }
    ensures sized { result ≡ put.Done → list_all is_sized_stamped n.now.entries ≡ true }
{
    let mut line = LineBuf::new();
    match out.put(b"rte-live 1\n") {
        Put::Done => {}
        Put::Failed => return Put::Failed,
    }
    match put_served_lines(n.plan(), n.entries(), order, out, &mut line) {
        Put::Done => out.put(b"stopped\n"),
        Put::Failed => Put::Failed,
    }
}

/// Puts what is left of a node when all stimuli have come: `rte-live 1`, a line for each entry in version two, that of a call of the environment behind
/// the number of its feed and a space, in two puts, and `stopped`. Then it runs the node to rest, as a run line does, and puts that.
///
/// It ends at the first put that fails, and at a round for which there is no memory. With `Finished`, what was put is the whole text; with `Failed`
/// and `Memory`, a prefix of the text up to a begun run line. The sink's count of faults rose exactly with `Failed`.
pub fn put_live<R: Threads + Sync, K: Sink, G: Gate>(
    rt: &R,
    alloc: Global,
    report: Report,
    out: &mut K,
    gate: &G,
) -> ScriptRun
    ensures finished { result ≡ Finished → (h : History) → IsLawfulNode report.node (after report.node.entries h)
        → PrintsLive (plan_of report.node.plan) report.node.mapping h (order_of report.pump) report.node.entries (K.told out.old) (K.told out.new) }
    ensures cut { result ≢ Finished → (h : History) → IsLawfulNode report.node (after report.node.entries h)
        → PrintsBegunLive (plan_of report.node.plan) report.node.mapping h (order_of report.pump) report.node.entries (K.told out.old) (K.told out.new) }
    ensures faults { FaultsAfter result (K.faults out.old) (K.faults out.new) }
{
    let Report { node, pump } = report;
    let mut node = node;
    match put_served(&node, pump.order(), out) {
        Put::Done => {
            let run = run_line(
                rt,
                alloc,
                &mut node,
                Writing::plain(Version::Two),
                out,
                gate,
            );
            drop(node);
            drop(pump);
            run
        }
        Put::Failed => {
            drop(node);
            drop(pump);
            ScriptRun::Failed
        }
    }
}
