//! What a bench that counts its work tells of turns.

ghost use Rattle.std.specs.Prelude.{◌≡◌, ◌+◌, ◌<◌, ◌≤◌, IfOk, length};
ghost use Rattle.bus_semantics.specs.declared.script.Mapping.{Mapping};
ghost use Rattle.bus_semantics.specs.Common.{plan_of, IsSound};
ghost use Rattle.task_generator.specs.Promise.{AsksAsPlanned};
ghost use Rattle.core_turn.specs.Ready.{IsReady};

use crate::counting::CountingBench;
use crate::fault::Fault;
use crate::readings::plan_of_description;
use bus_semantics::{BusPlan, Deed, Mapping, Stamped};
use core_turn::{Core, Turned, turn};
use description_stages::PlannedDescription;
use port_objects::{make_objects, sound_plans_have_objects};
use std::alloc::{AllocError, Global};
use std::marker::Brand;
use std::sync::ledger::{Blank, Ledger};
use task_generator::generate;
use task_machine::TaskSet;

/// How many turns are made.
const COUNT: u32 = 8;

/// Appends the stamp of an entry and the kind of its deed.
fn push_entry(alloc: Global, text: &mut String, made: &Stamped) -> Result<(), AllocError> {
    let kind = match made.entry.deed {
        Deed::Start { .. } => "start",
        Deed::Write { .. } => "write",
        Deed::Read { .. } => "read",
        Deed::End => "end",
        _ => "another",
    };
    let told = format!(in alloc; "{} {kind};", made.stamp)?;
    text.push_str(told.as_str())
}

/// Makes a turn, and answers whether it made an entry.
fn step<L: Ledger>(p: &BusPlan, t: &TaskSet, c: &mut Core, b: &mut CountingBench<L>) -> bool
    requires core_room { 0 < c.old.room }
    requires bench_room { 0 < b.old.bench.room }
    requires plan { plan_of b.old.bench.plan ≡ plan_of p.now }
    requires bodies { AsksAsPlanned (plan_of p.now) t.now }
    requires ready { (m : Mapping) × IsReady (plan_of p.now) m t.now c.old }
    ensures core_room { c.old.room ≤ c.new.room + 1 }
    ensures bench_room { b.old.bench.room ≤ b.new.bench.room + 1 }
    ensures plan { plan_of b.new.bench.plan ≡ plan_of b.old.bench.plan }
    ensures ready { (m : Mapping) → IsReady (plan_of p.now) m t.now c.old → IsReady (plan_of p.now) m t.now c.new }
{
    match turn(p, t, c, b) {
        Turned::Stepped => true,
        Turned::NothingNow => false,
        Turned::Contended(_) => false,
    }
}

/// The first core, with room for the entries of all turns.
fn ready_core(alloc: Global, p: &BusPlan, m: &Mapping, t: &TaskSet) -> Result<Core, AllocError>
    requires sound { IsSound (plan_of p.now) m.now }
    ensures room { IfOk result (λ c. 8 ≤ c.room) }
    ensures ready { IfOk result (IsReady (plan_of p.now) m.now t.now) }
{
    let mut core = Core::new(alloc, p, m, t, 0)?;
    match core.make_room(alloc, COUNT) {
        Ok(()) => Ok(core),
        Err(memory) => {
            drop(core);
            Err(memory)
        }
    }
}

/// A bench of new objects, with room for the entries of all turns.
fn new_bench<'a, L: Ledger>(
    alloc: Global,
    p: &'a BusPlan,
    m: &Mapping,
    blank: Blank,
) -> Result<CountingBench<'a, L>, AllocError>
    requires sound { IsSound (plan_of p.now) m.now }
    requires name { blank.name ≡ L.name }
    requires parts { blank.parts ≡ L.parts }
    requires one_part { blank.parts ≡ 1 }
    ensures room { IfOk result (λ b. 8 ≤ b.bench.room) }
    ensures plan { IfOk result (λ b. plan_of b.bench.plan ≡ plan_of p.now) }
{
    sound_plans_have_objects();
    let objects = make_objects(alloc, p)?;
    CountingBench::<L>::new(alloc, p, objects, COUNT, blank)
}

/// Appends whether a turn made an entry, and how often the bench has answered `NotYet` by then.
fn push_turn(
    alloc: Global,
    turns: &mut String,
    stepped: bool,
    not_yet: u64,
) -> Result<(), AllocError> {
    let told = format!(in alloc; "{stepped} {not_yet};")?;
    turns.push_str(told.as_str())
}

/// Makes the turns, and tells what came of each.
fn make_turns<L: Ledger>(
    alloc: Global,
    p: &BusPlan,
    m: &Mapping,
    t: &TaskSet,
    core: &mut Core,
    bench: &mut CountingBench<L>,
) -> Result<String, AllocError>
    requires bodies { AsksAsPlanned (plan_of p.now) t.now }
    requires core_room { 8 ≤ core.old.room }
    requires bench_room { 8 ≤ bench.old.bench.room }
    requires plan { plan_of bench.old.bench.plan ≡ plan_of p.now }
    requires ready { IsReady (plan_of p.now) m.now t.now core.old }
{
    let mut turns = String::new(alloc);
    for _turn in 0..COUNT {
        let stepped = step(p, t, core, bench);
        push_turn(alloc, &mut turns, stepped, bench.not_yet())?;
    }
    Ok(turns)
}

/// What is told of the entries that were made.
fn told_of(alloc: Global, entries: &[Stamped]) -> Result<String, AllocError> {
    let mut made = String::new(alloc);
    for entry in entries {
        push_entry(alloc, &mut made, entry)?;
    }
    Ok(made)
}

/// The turns of a core over a bench: its entries, and what came of each turn.
fn run_over<L: Ledger>(
    alloc: Global,
    p: &BusPlan,
    m: &Mapping,
    t: &TaskSet,
    core: &mut Core,
    bench: &mut CountingBench<L>,
) -> Result<(String, String), AllocError>
    requires bodies { AsksAsPlanned (plan_of p.now) t.now }
    requires core_room { 8 ≤ core.old.room }
    requires bench_room { 8 ≤ bench.old.bench.room }
    requires plan { plan_of bench.old.bench.plan ≡ plan_of p.now }
    requires ready { IsReady (plan_of p.now) m.now t.now core.old }
{
    let turns = make_turns(alloc, p, m, t, core, bench)?;
    let made = told_of(alloc, bench.made())?;
    Ok((made, turns))
}

/// What is told of turns of the first core over a new bench.
fn run<L: Ledger>(
    alloc: Global,
    p: &BusPlan,
    m: &Mapping,
    t: &TaskSet,
    blank: Blank,
) -> Result<(String, String), AllocError>
    requires sound { IsSound (plan_of p.now) m.now }
    requires bodies { AsksAsPlanned (plan_of p.now) t.now }
    requires name { blank.name ≡ L.name }
    requires parts { blank.parts ≡ L.parts }
    requires one_part { blank.parts ≡ 1 }
{
    let mut core = ready_core(alloc, p, m, t)?;
    let told = match new_bench::<L>(alloc, p, m, blank) {
        Ok(made) => {
            let mut bench = made;
            let told = run_over(alloc, p, m, t, &mut core, &mut bench);
            drop(bench);
            told
        }
        Err(memory) => Err(memory),
    };
    drop(core);
    told
}

/// What is told over a plan, with its bodies.
fn run_bodies(
    alloc: Global,
    p: &BusPlan,
    m: &Mapping,
    blank: Blank,
) -> Result<(String, String), AllocError>
    requires sound { IsSound (plan_of p.now) m.now }
    requires one_part { blank.parts ≡ 1 }
{
    let bodies = generate(alloc, p, m)?;
    let told = run::<Brand>(alloc, p, m, &bodies, blank);
    drop(bodies);
    told
}

/// What is told over a plan, by a ledger of its own.
fn run_planned(
    alloc: Global,
    found: PlannedDescription,
    blank: Blank,
) -> Result<(String, String), AllocError>
    requires sound { IsSound (plan_of found.plan) found.mapping }
    requires one_part { blank.parts ≡ 1 }
{
    let told = run_bodies(alloc, &found.plan, &found.mapping, blank);
    drop(found);
    told
}

/// The entries that eight turns of the first core make over the plan of the description, in the order of their stamps, and in a line of its own
/// for each turn whether it made an entry, and how often the bench had answered `NotYet` by then.
pub fn turns_told(alloc: Global, description: &[u8]) -> Result<Vec<u8>, Fault>
    requires { length description.now ≤ 8388608 }
{
    let found = plan_of_description(alloc, description)?;
    let (made, turns) = run_planned(alloc, found, Blank::new(1))?;
    let text = format!(in alloc; "{made}\n{turns}\n")?;
    Ok(Vec::from_slice(alloc, text.as_bytes())?)
}
