//! Two seats of one round, on one thread.

ghost use Rattle.std.specs.Prelude.{◌≡◌, ◌<◌, ◌≤◌, [], length, true, IfOk};
ghost use Rattle.bus_semantics.specs.Common.{asks_its_own, wish_fits, plan_of, IsSound, wanted_of};
ghost use Rattle.cross_core_table.specs.Common.{plan_in, IsSeatOf, view_of};
ghost use Rattle.cross_core_table.specs.Opened.{IsOpened};

use crate::fault::Fault;
use crate::readings::plan_of_description;
use bus_semantics::{Actor, BusPlan, Deed, Mapping, Stamped, Wish};
use cross_core_table::{CoreSeat, Opened, Round, SeatBench, Spare};
use description_stages::PlannedDescription;
use port_objects::{Benched, make_objects, object_of, sound_plans_have_objects};
use rte_value::Step;
use std::alloc::{AllocError, Global};
use trace_reading::wish_fits;

/// The stamp of an entry, its actor and its deed.
fn told(alloc: Global, made: &Stamped) -> Result<String, AllocError> {
    let stamp = made.stamp;
    match (made.entry.actor, made.entry.deed) {
        (
            Actor::Env,
            Deed::Switch {
                machine,
                mode,
                code,
            },
        ) => format!(in alloc; "{stamp} env switch {machine} {mode} code {code};"),
        (Actor::Machine(machine), Deed::Phase(Step::Stable)) => {
            format!(in alloc; "{stamp} machine {machine} stable;")
        }
        _ => format!(in alloc; "{stamp} another;"),
    }
}

/// Asks for the entry of a wish, which fits its actor, on the object that it touches, and tells what the seat was answered.
fn ask_what_fits(
    alloc: Global,
    p: &BusPlan,
    m: &Mapping,
    bench: &mut SeatBench<'_>,
    who: Actor,
    wish: &Wish,
) -> Result<String, AllocError>
    requires sound { IsSound (plan_of p.now) m.now }
    requires plan { plan_of p.now ≡ plan_in bench.old.round.opening }
    requires fits { wish_fits (plan_of p.now) who (wanted_of wish.now) ≡ true }
    requires own { asks_its_own (plan_of p.now) who (wanted_of wish.now) ≡ true }
    requires room { length bench.old.view.made < bench.old.round.opening.room }
    ensures round { bench.new.round ≡ bench.old.round }
    ensures core { bench.new.core ≡ bench.old.core }
{
    sound_plans_have_objects();
    let Some(object) = object_of(p, &who, wish) else {
        return String::from_str(alloc, "touches nothing;");
    };
    match bench.act_once(object, &who, wish) {
        Benched::Done(stamped) => told(alloc, &stamped),
        Benched::NotYet(_) => String::from_str(alloc, "not yet;"),
        Benched::Contended => String::from_str(alloc, "contended;"),
    }
}

/// The same of a wish that may not fit.
fn ask(
    alloc: Global,
    p: &BusPlan,
    m: &Mapping,
    bench: &mut SeatBench<'_>,
    who: Actor,
    wish: &Wish,
) -> Result<String, AllocError>
    requires sound { IsSound (plan_of p.now) m.now }
    requires plan { plan_of p.now ≡ plan_in bench.old.round.opening }
    requires own { asks_its_own (plan_of p.now) who (wanted_of wish.now) ≡ true }
    requires room { length bench.old.view.made < bench.old.round.opening.room }
    ensures round { bench.new.round ≡ bench.old.round }
    ensures core { bench.new.core ≡ bench.old.core }
{
    if wish_fits(p, who, wish) {
        ask_what_fits(alloc, p, m, bench, who, wish)
    } else {
        String::from_str(alloc, "does not fit;")
    }
}

/// What two seats were answered, and the seats.
#[derive(Drop)]
struct Turns {
    first_told: String,
    second_told: String,
    first: CoreSeat,
    second: CoreSeat,
}

/// The seats of cores 0 and 1 act through one round, one after the other: the environment switches machine 0 to mode 1, and then
/// the machine makes its first phase.
fn take_turns(
    alloc: Global,
    p: &BusPlan,
    m: &Mapping,
    round: &Round,
    first: CoreSeat,
    second: CoreSeat,
) -> Result<Turns, AllocError>
    requires sound { IsSound (plan_of p.now) m.now }
    requires plan { plan_of p.now ≡ plan_in round.now.opening }
    requires first { IsSeatOf round.now 0 first × ((view_of first).made ≡ []) }
    requires second { IsSeatOf round.now 1 second × ((view_of second).made ≡ []) }
    requires room { 0 < round.now.opening.room }
    ensures { IfOk result (λ t. IsSeatOf round.now 0 t.first × IsSeatOf round.now 1 t.second) }
{
    let switch = Wish::Switch {
        machine: 0,
        mode: 1,
    };
    let mut left = round.bench(p, first);
    let mut right = round.bench(p, second);
    let first_told = ask(alloc, p, m, &mut left, Actor::Env, &switch)?;
    let second_told = ask(alloc, p, m, &mut right, Actor::Machine(0), &Wish::Phase)?;
    Ok(Turns {
        first_told,
        second_told,
        first: left.leave(),
        second: right.leave(),
    })
}

/// What the two seats of a round are answered, and what its close gives.
fn share(
    alloc: Global,
    p: &BusPlan,
    m: &Mapping,
    round: Round,
    seats: Vec<CoreSeat>,
) -> Result<(String, String, String), AllocError>
    requires sound { IsSound (plan_of p.now) m.now }
    requires opened { IsOpened (plan_of p.now) round.opening.objects.value.items 2 4 round seats.items }
{
    let mut seats = seats;
    let Some(second) = seats.pop() else {
        unreachable!()
    };
    let Some(first) = seats.pop() else {
        unreachable!()
    };
    let turns = take_turns(alloc, p, m, &round, first, second)?;
    seats.push(turns.first)?;
    seats.push(turns.second)?;
    let closed = round.close(seats);
    let mut all = String::new(alloc);
    for made in closed.entries.as_slice() {
        all.push_str(told(alloc, made)?.as_str())?;
    }
    Ok((turns.first_told, turns.second_told, all))
}

/// What is told of a round of two cores over new objects of the plan.
fn run(alloc: Global, p: &BusPlan, m: &Mapping) -> Result<(String, String, String), AllocError>
    requires sound { IsSound (plan_of p.now) m.now }
{
    sound_plans_have_objects();
    let objects = make_objects(alloc, p)?;
    match Round::open(alloc, p, objects, 2, 4, Spare::none(alloc)) {
        Opened::Ready(round, seats) => share(alloc, p, m, round, seats),
        Opened::Memory(_) => Err(AllocError),
    }
}

/// What is told over a plan.
fn run_planned(
    alloc: Global,
    found: PlannedDescription,
) -> Result<(String, String, String), AllocError>
    requires sound { IsSound (plan_of found.plan) found.mapping }
{
    let told = run(alloc, &found.plan, &found.mapping);
    drop(found);
    told
}

/// What two seats of one round are answered over the plan of the description, a line each, and then what the close gives, in order of stamps:
/// the environment switches machine 0 to its mode 1, and then the machine makes its first phase.
pub fn seats_told(alloc: Global, description: &[u8]) -> Result<Vec<u8>, Fault>
    requires { length description.now ≤ 8388608 }
{
    let found = plan_of_description(alloc, description)?;
    let (first, second, all) = run_planned(alloc, found)?;
    let text = format!(in alloc; "{first}\n{second}\n{all}\n")?;
    Ok(Vec::from_slice(alloc, text.as_bytes())?)
}
