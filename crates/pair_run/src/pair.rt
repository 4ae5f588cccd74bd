//! Running a script on two nodes.

ghost use Rattle.std.specs.Prelude.{◌≡◌, ◌≢◌, ◌<◌, [], length, true, All};
ghost use Rattle.rte_text.specs.Sinks.{SinkFaultsAfter as PutFaultsAfter, ToldAfter as PutAfter};
ghost use Rattle.bus_semantics.specs.declared.entries.Actor.TheVariants.{Env};
ghost use Rattle.bus_semantics.specs.declared.script.Line.TheVariants as script_line;
ghost use Rattle.bus_semantics.specs.Common.{wish_fits, plan_of, wanted_of};
ghost use Rattle.script_reading.specs.Meaning.{a_call};
ghost use Rattle.signal_link.specs.Unframing.{fresh};
ghost use Rattle.core_runtime.specs.Nodes.{IsLawfulNode, NodeState};
ghost use Rattle.pair_run.specs.declared.pair.PairRun.TheVariants.{Finished, LinkFailed};
ghost use Rattle.pair_run.specs.Crossing.{Follows, Makes};
ghost use Rattle.pair_run.specs.Joint.{headers, one, two};
ghost use Rattle.pair_run.specs.Linked.{links_of};
ghost use Rattle.pair_run.specs.Running.{IsPairLine, LinkFaultsAfter, PrintsBegunPair, PrintsPair, SinkFaultsAfter, keeps_limits};
ghost use Rattle.pair_run.specs.Standing.{CarryBoth, LinkAfter, Stand, Writes, came_of};

use crate::crossing::cross;
use bus_semantics::{Line, Script, Version, Wish};
use core_runtime::Node;
use no_stall::no_history_stalls;
use rte_text::{Gate, LineBuf, Put, Sink};
use script_run::{ScriptRun, Writing, make_call, put_behind, put_run, put_ticks};
use signal_link::{Link, LinkElem, Unframer};
use std::alloc::Global;
use std::thread::Threads;
use trace_text::header;

/// How the lines of the first node are written.
pub(crate) fn lines_of_one() -> Writing
    ensures { Writes one result }
{
    Writing {
        version: Version::Two,
        prefix: b"1 ",
    }
}

/// How the lines of the second node are written.
pub(crate) fn lines_of_two() -> Writing
    ensures { Writes two result }
{
    Writing {
        version: Version::Two,
        prefix: b"2 ",
    }
}

/// How far a script was carried out on two nodes.
#[derive(Clone, Copy, Debug, PartialEq, Eq)]
pub enum PairRun {
    /// To its end.
    Finished,
    /// Up to a put that failed.
    Failed,
    /// Up to a call of the link that failed.
    LinkFailed,
    /// Up to a round for which there was no memory. All that came before it is put.
    Memory,
}

/// How far two nodes came, where one of them came so far.
fn came_of(run: ScriptRun) -> PairRun
    ensures { result ≡ came_of run }
{
    match run {
        ScriptRun::Finished => PairRun::Finished,
        ScriptRun::Failed => PairRun::Failed,
        ScriptRun::Memory => PairRun::Memory,
    }
}

/// Puts the header of each trace.
fn put_headers<K: Sink>(out: &mut K) -> Put
    ensures told { PutAfter result (K.told out.old) (K.told out.new) headers }
    ensures faults { PutFaultsAfter result (K.faults out.old) (K.faults out.new) }
{
    let first = lines_of_one();
    let second = lines_of_two();
    let text = header(Version::Two);
    match put_behind(out, first.prefix, text) {
        Put::Done => put_behind(out, second.prefix, text),
        Put::Failed => Put::Failed,
    }
}

/// Runs the script on two nodes that a link joins, and puts the traces of both, each line behind `1 ` or `2 ` in two puts: the two headers,
/// then what each line of the script makes. A line of ticks makes them on the first node and then on the second. A run line runs the first
/// node; then, link by link, the environment of the first receives until no value is held, and each value goes over the link and is sent on
/// the second before the next is received; then it runs the second node. Any other line is a call on the first node.
///
/// It ends at the first put or call of the link that fails, and at a round for which there is no memory.
pub fn run_pair<R: Threads + Sync, K: Sink, G: Gate, L: Link>(
    rt: &R,
    alloc: Global,
    one: &mut Node,
    two: &mut Node,
    links: Vec<LinkElem>,
    s: &Script,
    link: &mut L,
    out: &mut K,
    gate: &G,
) -> PairRun
    requires lawful_one { IsLawfulNode one.old [] }
    requires lawful_two { IsLawfulNode two.old [] }
    requires links { links.items ≡ links_of (plan_of one.old.plan) (plan_of two.old.plan) }
    requires some { 0 < length links.items }
    requires script { All (IsPairLine (plan_of one.old.plan) links.items) s.now.lines }
    requires way { L.way link.old ≡ [] }
    ensures finished { result ≡ Finished →
        PrintsPair (plan_of one.old.plan) one.old.mapping (plan_of two.old.plan) two.old.mapping links.items s.now.lines one.new two.new (K.told out.old) (K.told out.new) }
    ensures cut { result ≢ Finished → PrintsBegunPair (plan_of one.old.plan) one.old.mapping
        (plan_of two.old.plan) two.old.mapping links.items s.now.lines (K.told out.old) (K.told out.new) }
    ensures sink { SinkFaultsAfter result (K.faults out.old) (K.faults out.new) }
    ensures link { LinkFaultsAfter result (L.faults link.old) (L.faults link.new) }
    ensures sound_link { L.never_fails link.old ≡ true → result ≢ LinkFailed }
{
    no_history_stalls();
    let _first = one.plan();
    let _second = two.plan();
    let mut unframer = Unframer::new(links);
    let mut line = LineBuf::new();
    match put_headers(out) {
        Put::Done => put_lines(
            rt,
            alloc,
            one,
            two,
            s.lines.items(),
            link,
            &mut unframer,
            out,
            &mut line,
            gate,
        ),
        Put::Failed => PairRun::Failed,
    }
}

/// Lines of the script, in order.
fn put_lines<R: Threads + Sync, K: Sink, G: Gate, L: Link>(
    rt: &R,
    alloc: Global,
    one: &mut Node,
    two: &mut Node,
    script_lines: &[Line],
    way: &mut L,
    unframer: &mut Unframer,
    out: &mut K,
    line: &mut LineBuf,
    gate: &G,
) -> PairRun
    requires stand { Stand one.old two.old }
    requires unframer { unframer.old ≡ fresh (links_of (plan_of one.old.plan) (plan_of two.old.plan)) }
    requires way { L.way way.old ≡ [] }
    requires script { All (IsPairLine (plan_of one.old.plan) unframer.old.links) script_lines.now }
    ensures sound_link { L.never_fails way.old ≡ true → result ≢ LinkFailed }
    ensures carries { CarryBoth (Follows unframer.old.links script_lines.now) result
        one.old one.new two.old two.new (K.told out.old) (K.told out.new) }
    ensures sink { SinkFaultsAfter result (K.faults out.old) (K.faults out.new) }
    ensures link { LinkFaultsAfter result (L.faults way.old) (L.faults way.new) }
{
    for script_line in script_lines {
        match put_line(
            rt,
            alloc,
            one,
            two,
            script_line,
            way,
            unframer,
            out,
            line,
            gate,
        ) {
            PairRun::Finished => {}
            stopped => return stopped,
        }
    }
    PairRun::Finished
}

/// One line of the script.
fn put_line<R: Threads + Sync, K: Sink, G: Gate, L: Link>(
    rt: &R,
    alloc: Global,
    one: &mut Node,
    two: &mut Node,
    script_line: &Line,
    way: &mut L,
    unframer: &mut Unframer,
    out: &mut K,
    line: &mut LineBuf,
    gate: &G,
) -> PairRun
    requires stand { Stand one.old two.old }
    requires unframer { unframer.old ≡ fresh (links_of (plan_of one.old.plan) (plan_of two.old.plan)) }
    requires way { L.way way.old ≡ [] }
    requires script { IsPairLine (plan_of one.old.plan) unframer.old.links script_line.now }
    ensures plan_one { one.new.plan ≡ one.old.plan }
    ensures plan_two { two.new.plan ≡ two.old.plan }
    ensures after { LinkAfter result (L.way way.new) unframer.old unframer.new }
    ensures sound_link { L.never_fails way.old ≡ true → result ≢ LinkFailed }
    ensures never_fails { L.never_fails way.new ≡ L.never_fails way.old }
    ensures carries { CarryBoth (Makes unframer.old.links script_line.now) result
        one.old one.new two.old two.new (K.told out.old) (K.told out.new) }
    ensures sink { SinkFaultsAfter result (K.faults out.old) (K.faults out.new) }
    ensures link { LinkFaultsAfter result (L.faults way.old) (L.faults way.new) }
{
    match script_line {
        Line::Tick(count) => tick_both(one, two, *count, out),
        Line::Run => run_both(rt, alloc, one, two, way, unframer, out, line, gate),
        Line::Call(wish) => call_one(one, wish, out, line),
    }
}

/// A call of the environment of the first node.
fn call_one<K: Sink>(one: &mut Node, wish: &Wish, out: &mut K, line: &mut LineBuf) -> PairRun
    requires fits { wish_fits (plan_of one.old.plan) Env (wanted_of wish.now) ≡ true }
    requires limits { keeps_limits (plan_of one.old.plan) (a_call (wanted_of wish.now)) ≡ true }
    ensures plan { one.new.plan ≡ one.old.plan }
    ensures carries { (two : NodeState) →
        CarryBoth (Makes [] (script_line.Call wish.now)) result one.old one.new two two (K.told out.old) (K.told out.new) }
    ensures sink { SinkFaultsAfter result (K.faults out.old) (K.faults out.new) }
    ensures no_link { result ≢ LinkFailed }
{
    let w = lines_of_one();
    match make_call(one, wish, w, out, line).1 {
        Put::Done => PairRun::Finished,
        Put::Failed => PairRun::Failed,
    }
}

/// So many ticks on each node.
fn tick_both<K: Sink>(one: &mut Node, two: &mut Node, count: u32, out: &mut K) -> PairRun
    ensures plan_one { one.new.plan ≡ one.old.plan }
    ensures plan_two { two.new.plan ≡ two.old.plan }
    ensures carries { CarryBoth (Makes [] (script_line.Tick count)) result
        one.old one.new two.old two.new (K.told out.old) (K.told out.new) }
    ensures sink { SinkFaultsAfter result (K.faults out.old) (K.faults out.new) }
    ensures no_link { result ≢ LinkFailed }
{
    let first = lines_of_one();
    let second = lines_of_two();
    match came_of(put_ticks(one, count, first, out)) {
        PairRun::Finished => came_of(put_ticks(two, count, second, out)),
        stopped => stopped,
    }
}

/// A run line of each node, and between them what crosses.
fn run_both<R: Threads + Sync, K: Sink, G: Gate, L: Link>(
    rt: &R,
    alloc: Global,
    one: &mut Node,
    two: &mut Node,
    way: &mut L,
    unframer: &mut Unframer,
    out: &mut K,
    line: &mut LineBuf,
    gate: &G,
) -> PairRun
    requires stand { Stand one.old two.old }
    requires unframer { unframer.old ≡ fresh (links_of (plan_of one.old.plan) (plan_of two.old.plan)) }
    requires way { L.way way.old ≡ [] }
    ensures plan_one { one.new.plan ≡ one.old.plan }
    ensures plan_two { two.new.plan ≡ two.old.plan }
    ensures after { LinkAfter result (L.way way.new) unframer.old unframer.new }
    ensures sound_link { L.never_fails way.old ≡ true → result ≢ LinkFailed }
    ensures never_fails { L.never_fails way.new ≡ L.never_fails way.old }
    ensures carries { CarryBoth (Makes unframer.old.links script_line.Run) result
        one.old one.new two.old two.new (K.told out.old) (K.told out.new) }
    ensures sink { SinkFaultsAfter result (K.faults out.old) (K.faults out.new) }
    ensures link { LinkFaultsAfter result (L.faults way.old) (L.faults way.new) }
{
    let first = lines_of_one();
    let second = lines_of_two();
    match came_of(put_run(rt, alloc, one, first, out, line, gate)) {
        PairRun::Finished => {}
        stopped => return stopped,
    }
    match cross(one, two, way, unframer, out, line) {
        PairRun::Finished => {}
        stopped => return stopped,
    }
    came_of(put_run(rt, alloc, two, second, out, line, gate))
}
