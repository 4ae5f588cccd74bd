//! Running a script on a node.

ghost use Rattle.std.specs.Prelude.{◌≡◌, ◌≢◌, [], ◌∷◌, replicate, true, All};
ghost use Rattle.rte_text.specs.Sinks.{SinkFaultsAfter};
ghost use Rattle.bus_semantics.specs.declared.entries.Actor.TheVariants.{Env};
ghost use Rattle.bus_semantics.specs.declared.script.Line.TheVariants as line;
ghost use Rattle.bus_semantics.specs.Common.{wish_fits, History, plan_of, a_call, orders_of_line, orders_of_script, to_tick, wanted_of};
ghost use Rattle.script_reading.specs.Carried.{IsCarriable};
ghost use Rattle.core_runtime.specs.Common.{IsLawfulNode, tick_of_env};
ghost use Rattle.script_run.specs.declared.script.ScriptRun.TheVariants.{Finished};
ghost use Rattle.script_run.specs.Running.{FaultsAfter, PrintsBeginning, PrintsFirstLines, PrintsLines, PrintsRun};
ghost use Rattle.script_run.specs.Standing.{Calls, Carries, outside};

use crate::laps::put_run;
use crate::lines::{came_of, put_entry};
use crate::writing::{Writing, put_behind};
use bus_semantics::{Entry, Line, Script, Version, Wish};
use core_runtime::Node;
use no_stall::no_history_stalls;
use rte_text::{Gate, LineBuf, Put, Sink};
use std::alloc::Global;
use std::thread::Threads;
use trace_text::{header, tick_line};

/// How far a script was carried out.
#[derive(Clone, Copy, Debug, PartialEq, Eq)]
pub enum ScriptRun {
    /// To its end.
    Finished,
    /// Up to a put that failed.
    Failed,
    /// Up to a round for which there was no memory. All that came before it is put.
    Memory,
}

/// Makes a call of the environment and puts its line: the entry that it makes, and what the put of its line answered. The entry goes on legally with the
/// session, and is given out whatever came of its line.
pub fn make_call<K: Sink>(
    n: &mut Node,
    wish: &Wish,
    w: Writing,
    out: &mut K,
    line: &mut LineBuf,
) -> (Entry, Put)
    requires { wish_fits (plan_of n.old.plan) Env (wanted_of wish.now) ≡ true }
    ensures plan { n.new.plan ≡ n.old.plan }
    ensures mapping { n.new.mapping ≡ n.old.mapping }
    ensures calls { Calls w result.1 (wanted_of wish.now) result.0 n.old n.new (K.told out.old) (K.told out.new) }
    ensures faults { SinkFaultsAfter result.1 (K.faults out.old) (K.faults out.new) }
{
    let entry = n.environment(wish);
    let put = put_entry(n.plan(), &entry, w, out, line);
    (entry, put)
}

/// One call of the environment.
fn put_call<K: Sink>(
    n: &mut Node,
    wish: &Wish,
    w: Writing,
    out: &mut K,
    line: &mut LineBuf,
) -> ScriptRun
    requires { wish_fits (plan_of n.old.plan) Env (wanted_of wish.now) ≡ true }
    ensures plan { n.new.plan ≡ n.old.plan }
    ensures mapping { n.new.mapping ≡ n.old.mapping }
    ensures carries { Carries w result (a_call (wanted_of wish.now) ∷ []) outside outside n.old n.new (K.told out.old) (K.told out.new) }
    ensures faults { FaultsAfter result (K.faults out.old) (K.faults out.new) }
{
    let made = make_call(n, wish, w, out, line);
    came_of(made.1)
}

/// Makes a tick and puts its line: what the put answered. The tick goes on legally with the session, whatever came of its line.
fn put_tick<K: Sink>(n: &mut Node, w: Writing, out: &mut K) -> Put
    ensures plan { n.new.plan ≡ n.old.plan }
    ensures mapping { n.new.mapping ≡ n.old.mapping }
    ensures calls { Calls w result to_tick tick_of_env n.old n.new (K.told out.old) (K.told out.new) }
    ensures faults { SinkFaultsAfter result (K.faults out.old) (K.faults out.new) }
{
    n.tick();
    put_behind(out, w.prefix, tick_line())
}

/// Makes so many ticks and puts their lines. They go on whatever session the node stands after, outside run lines: they add items to it that go on legally,
/// and put a line for each, in order, behind the prefix that was asked for. With `Failed` and `Memory`, what was put is a prefix
/// of the lines of such items that do some of the orders.
pub fn put_ticks<K: Sink>(n: &mut Node, count: u32, w: Writing, out: &mut K) -> ScriptRun
    ensures plan { n.new.plan ≡ n.old.plan }
    ensures mapping { n.new.mapping ≡ n.old.mapping }
    ensures carries { Carries w result (replicate count (a_call to_tick)) outside outside n.old n.new (K.told out.old) (K.told out.new) }
    ensures faults { FaultsAfter result (K.faults out.old) (K.faults out.new) }
{
    for i in 0..count {
        match put_tick(n, w, out) {
            Put::Done => {}
            Put::Failed => return ScriptRun::Failed,
        }
    }
    ScriptRun::Finished
}

/// One line of the script.
fn put_line<R: Threads + Sync, K: Sink, G: Gate>(
    rt: &R,
    alloc: Global,
    n: &mut Node,
    script_line: &Line,
    w: Writing,
    out: &mut K,
    line: &mut LineBuf,
    gate: &G,
) -> ScriptRun
    requires { IsCarriable (plan_of n.old.plan) script_line.now }
    ensures plan { n.new.plan ≡ n.old.plan }
    ensures mapping { n.new.mapping ≡ n.old.mapping }
    ensures carries { Carries w result (orders_of_line script_line.now) outside outside n.old n.new (K.told out.old) (K.told out.new) }
    ensures faults { FaultsAfter result (K.faults out.old) (K.faults out.new) }
{
    match script_line {
        Line::Tick(count) => put_ticks(n, *count, w, out),
        Line::Run => put_run(rt, alloc, n, w, out, line, gate),
        Line::Call(wish) => put_call(n, wish, w, out, line),
    }
}

/// Lines of the script, in order.
fn put_lines<R: Threads + Sync, K: Sink, G: Gate>(
    rt: &R,
    alloc: Global,
    n: &mut Node,
    script_lines: &[Line],
    w: Writing,
    out: &mut K,
    line: &mut LineBuf,
    gate: &G,
) -> ScriptRun
    requires { All (IsCarriable (plan_of n.old.plan)) script_lines.now }
    ensures plan { n.new.plan ≡ n.old.plan }
    ensures mapping { n.new.mapping ≡ n.old.mapping }
    ensures carries { Carries w result (orders_of_script script_lines.now) outside outside n.old n.new (K.told out.old) (K.told out.new) }
    ensures faults { FaultsAfter result (K.faults out.old) (K.faults out.new) }
{
    for script_line in script_lines {
        match put_line(rt, alloc, n, script_line, w, out, line, gate) {
            ScriptRun::Finished => {}
            ScriptRun::Failed => return ScriptRun::Failed,
            ScriptRun::Memory => return ScriptRun::Memory,
        }
    }
    ScriptRun::Finished
}

/// Runs one run line on the node, which goes on from what has happened to it, and puts its lines, from its mark to the word that closes
/// it: what `run_script` makes of a script of this one line, without the header.
///
/// It ends at the first put that fails, and at a round for which there is no memory.
pub fn run_line<R: Threads + Sync, K: Sink, G: Gate>(
    rt: &R,
    alloc: Global,
    n: &mut Node,
    w: Writing,
    out: &mut K,
    gate: &G,
) -> ScriptRun
    ensures plan { n.new.plan ≡ n.old.plan }
    ensures mapping { n.new.mapping ≡ n.old.mapping }
    ensures finished { result ≡ Finished → (h : History) → IsLawfulNode n.old h
        → PrintsLines w (plan_of n.old.plan) n.old.mapping h (line.Run ∷ []) n.new (K.told out.old) (K.told out.new) }
    ensures cut { result ≢ Finished → (h : History) → IsLawfulNode n.old h
        → PrintsFirstLines w (plan_of n.old.plan) n.old.mapping h (line.Run ∷ []) (K.told out.old) (K.told out.new) }
    ensures faults { FaultsAfter result (K.faults out.old) (K.faults out.new) }
{
    no_history_stalls();
    let _plan = n.plan();
    let mut line = LineBuf::new();
    put_run(rt, alloc, n, w, out, &mut line, gate)
}

/// Runs the script on the node, which goes on from what has happened to it, and puts the trace of the version, one put a line: the header,
/// then for each line of the script what comes of it. A line of ticks or a call makes the environment's entries. A run line
/// puts its mark, then makes rounds, each with a serial pass after it, and puts their entries; `idle` closes it after a pass
/// without an entry, and `unsettled` if at least 100,000 entries were made since the mark. Each line of the script is one
/// that the environment may carry out.
///
/// It ends at the first put that fails, and at a round for which there is no memory. For every history for which the node is
/// lawful: with `Finished`, what was put is the text of a run of the script that goes on legally from the history, with all of its
/// lines in order, and its items fit the plan; the node is lawful for the history and what the run made; and if a run line
/// closes with `idle`, all is quiet. With `Failed` and `Memory` it is a prefix of the text of a begun run. The sink's count of
/// faults rose exactly with `Failed`.
pub fn run_script<R: Threads + Sync, K: Sink, G: Gate>(
    rt: &R,
    alloc: Global,
    n: &mut Node,
    s: &Script,
    v: Version,
    out: &mut K,
    gate: &G,
) -> ScriptRun
    requires fits { All (IsCarriable (plan_of n.old.plan)) s.now.lines }
    ensures plan { n.new.plan ≡ n.old.plan }
    ensures mapping { n.new.mapping ≡ n.old.mapping }
    ensures finished { result ≡ Finished → (h : History) → IsLawfulNode n.old h
        → PrintsRun v (plan_of n.old.plan) n.old.mapping h s.now.lines n.new (K.told out.old) (K.told out.new) }
    ensures cut { result ≢ Finished → (h : History) → IsLawfulNode n.old h
        → PrintsBeginning v (plan_of n.old.plan) n.old.mapping h s.now.lines (K.told out.old) (K.told out.new) }
    ensures faults { FaultsAfter result (K.faults out.old) (K.faults out.new) }
{
    no_history_stalls();
    let _plan = n.plan();
    let w = Writing::plain(v);
    let mut line = LineBuf::new();
    match out.put(header(v)) {
        Put::Done => put_lines(rt, alloc, n, s.lines.items(), w, out, &mut line, gate),
        Put::Failed => ScriptRun::Failed,
    }
}
