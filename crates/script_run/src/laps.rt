//! Run lines: rounds of the cores, until nothing may come.

ghost use Rattle.std.specs.Prelude.{◌≡◌, ◌+◌, ◌-◌, ◌^◌, ◌<◌, ◌≤◌, min, ℕ, List, [], ◌∷◌, length};
ghost use Rattle.bus_semantics.specs.declared.entries.Stamped.{Stamped};
ghost use Rattle.bus_semantics.specs.Run.{a_run};
ghost use Rattle.script_run.specs.declared.script.ScriptRun.TheVariants.{Finished};
ghost use Rattle.core_runtime.specs.Nodes.{NodeState};
ghost use Rattle.script_run.specs.Running.{FaultsAfter};
ghost use Rattle.script_run.specs.Standing.{Carries, CarriesLap, LapCloses, LapFaults, LapRises, inside, outside};

use crate::lines::{came_of, put_entries};
use crate::script::ScriptRun;
use crate::writing::{Writing, put_behind};
use core_runtime::{Node, RoundRun, run_round, serial_pass};
use rte_text::{Gate, LineBuf, Put, Sink};
use std::alloc::Global;
use std::thread::Threads;
use trace_text::{idle_line, run_line, unsettled_line};

/// How many entries since its mark end a run line that nothing else ends.
const MOST_MADE: u64 = 100_000;

/// What came of a round and the serial pass after it.
#[derive(Clone, Copy, Debug, PartialEq, Eq)]
pub enum Lap {
    /// Entries, of which the pass made one at least: so many in all since the mark of the run line. Nothing closes the line yet.
    Made(u64),
    /// The end: the line is closed, or the whole run was cut off.
    Ended(ScriptRun),
}

/// Makes a round and puts its entries.
fn put_round<R: Threads + Sync, K: Sink, G: Gate>(
    rt: &R,
    alloc: Global,
    n: &mut Node,
    w: Writing,
    out: &mut K,
    line: &mut LineBuf,
    gate: &G,
) -> ScriptRun
    ensures plan { n.new.plan ≡ n.old.plan }
    ensures mapping { n.new.mapping ≡ n.old.mapping }
    ensures room { result ≡ Finished → n.new.mapping.cores ≤ n.new.spare }
    ensures carries { (made : ℕ) → Carries w result [] (inside made)
        (inside (min (made + length n.new.entries) (2 ^ 64 - 1))) n.old n.new (K.told out.old) (K.told out.new) }
    ensures faults { FaultsAfter result (K.faults out.old) (K.faults out.new) }
{
    match run_round(rt, alloc, n, gate) {
        RoundRun::Ran => came_of(put_entries(n.plan(), n.entries(), w, out, line)),
        RoundRun::Memory => ScriptRun::Memory,
    }
}

/// Closes the run line if it has made 100,000 entries or more.
fn close_late<K: Sink>(made: u64, w: Writing, out: &mut K) -> Lap
    ensures carries { (n : NodeState) → CarriesLap w result made n n (K.told out.old) (K.told out.new) }
    ensures rises { (before : ℕ) → (made < 100000 → before < made) → LapRises result before }
    ensures closes { (s : Stamped) (pass : List Stamped) → LapCloses w result (s ∷ pass) (K.told out.new) }
    ensures faults { LapFaults result (K.faults out.old) (K.faults out.new) }
{
    if made < MOST_MADE {
        return Lap::Made(made);
    }
    Lap::Ended(came_of(put_behind(out, w.prefix, unsettled_line())))
}

/// Makes a serial pass after so many entries, and puts its entries; or closes the run line at rest, if there are none.
fn put_pass<K: Sink>(n: &mut Node, made: u64, w: Writing, out: &mut K, line: &mut LineBuf) -> Lap
    requires { n.old.mapping.cores ≤ n.old.spare }
    ensures plan { n.new.plan ≡ n.old.plan }
    ensures mapping { n.new.mapping ≡ n.old.mapping }
    ensures carries { CarriesLap w result made n.old n.new (K.told out.old) (K.told out.new) }
    ensures rises { LapRises result made }
    ensures closes { LapCloses w result n.new.entries (K.told out.new) }
    ensures faults { LapFaults result (K.faults out.old) (K.faults out.new) }
{
    serial_pass(n);
    if n.entries().is_empty() {
        return Lap::Ended(came_of(put_behind(out, w.prefix, idle_line())));
    }
    match put_entries(n.plan(), n.entries(), w, out, line) {
        Put::Done => close_late(made.saturating_add(n.entries().len() as u64), w, out),
        Put::Failed => Lap::Ended(ScriptRun::Failed),
    }
}

/// Makes a round and a serial pass, after so many entries since the mark of the run line, and puts their entries. A pass without an entry
/// closes the line with `idle`, however many entries there were. After any other the line is closed with `unsettled` if it has made
/// 100,000 entries, and else goes on with more entries than before. So a line is closed after the first lap with 100,000 entries.
pub fn put_lap<R: Threads + Sync, K: Sink, G: Gate>(
    rt: &R,
    alloc: Global,
    n: &mut Node,
    made: u64,
    w: Writing,
    out: &mut K,
    line: &mut LineBuf,
    gate: &G,
) -> Lap
    ensures plan { n.new.plan ≡ n.old.plan }
    ensures mapping { n.new.mapping ≡ n.old.mapping }
    ensures carries { CarriesLap w result made n.old n.new (K.told out.old) (K.told out.new) }
    ensures rises { LapRises result made }
    ensures closes { LapCloses w result n.new.entries (K.told out.new) }
    ensures faults { LapFaults result (K.faults out.old) (K.faults out.new) }
{
    match put_round(rt, alloc, n, w, out, line, gate) {
        ScriptRun::Finished => {
            put_pass(
                n,
                made.saturating_add(n.entries().len() as u64),
                w,
                out,
                line,
            )
        }
        ScriptRun::Failed => Lap::Ended(ScriptRun::Failed),
        ScriptRun::Memory => Lap::Ended(ScriptRun::Memory),
    }
}

/// Makes a run line and puts it: its mark, then rounds and serial passes until a pass makes no entry, or 100,000 entries were made. It goes on from
/// a session as `put_ticks` does.
pub fn put_run<R: Threads + Sync, K: Sink, G: Gate>(
    rt: &R,
    alloc: Global,
    n: &mut Node,
    w: Writing,
    out: &mut K,
    line: &mut LineBuf,
    gate: &G,
) -> ScriptRun
    ensures plan { n.new.plan ≡ n.old.plan }
    ensures mapping { n.new.mapping ≡ n.old.mapping }
    ensures carries { Carries w result (a_run ∷ []) outside outside n.old n.new (K.told out.old) (K.told out.new) }
    ensures faults { FaultsAfter result (K.faults out.old) (K.faults out.new) }
{
    match put_behind(out, w.prefix, run_line()) {
        Put::Done => {}
        Put::Failed => return ScriptRun::Failed,
    }
    let mut made: u64 = 0;
    'laps: loop {
        match put_lap(rt, alloc, n, made, w, out, line, gate) {
            Lap::Made(more) => made = more,
            Lap::Ended(answer) => return answer,
        }
    }
}
