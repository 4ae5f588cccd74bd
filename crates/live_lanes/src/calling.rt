//! A call of the environment, by a seat of its own.

ghost use Rattle.std.specs.Prelude.{◌≡◌, ◌<◌, length, true, None, Some};
ghost use Rattle.bus_laws.specs.Common.{Env, Mapping};
ghost use Rattle.bus_semantics.specs.Common.{wish_fits, object_of, plan_of, IsSound, wanted_of};
ghost use Rattle.port_objects.specs.Freed.{Frees};
ghost use Rattle.cross_core_table.specs.Logs.{plan_in};
ghost use Rattle.live_lanes.specs.Calls.{HasCalled, HaveStood};

use bus_semantics::{Actor, BusPlan, Deed, Entry, Wish};
use cross_core_table::SeatBench;
use history_laws::calls_come;
use port_objects::{
    Bench, Benched, free_deed, free_deeds_are_legal, leads_are_legal, leads_miss_nothing,
    object_of, sound_plans_have_objects,
};
use std::sync::Wait;
use std::thread;

/// Makes the one entry of a wish that fits the environment. It may wait while another seat holds the object that the wish touches. It
/// takes no memory.
pub(crate) fn call<R: Wait>(rt: &R, p: &BusPlan, bench: &mut SeatBench, wish: &Wish)
    requires plan { plan_in bench.old.round.opening ≡ plan_of p.now }
    requires sound { (m : Mapping) × IsSound (plan_of p.now) m }
    requires stood { HaveStood bench.old.round.opening }
    requires fits { wish_fits (plan_of p.now) Env (wanted_of wish.now) ≡ true }
    requires room { length bench.old.view.made < bench.old.round.opening.room }
    ensures round { bench.new.round ≡ bench.old.round }
    ensures number { bench.new.core ≡ bench.old.core }
    ensures called { HasCalled (plan_of p.now) (wanted_of wish.now) bench.old.view.made bench.new.view.made }
{
    sound_plans_have_objects();
    match object_of(p, &Actor::Env, wish) {
        Some(object) => call_on(rt, p, bench, object, wish),
        None => call_alone(p, bench, wish),
    }
}

/// The same of a wish that touches an object.
fn call_on<R: Wait>(rt: &R, p: &BusPlan, bench: &mut SeatBench, object: u32, wish: &Wish)
    requires plan { plan_in bench.old.round.opening ≡ plan_of p.now }
    requires sound { (m : Mapping) × IsSound (plan_of p.now) m }
    requires stood { HaveStood bench.old.round.opening }
    requires fits { wish_fits (plan_of p.now) Env (wanted_of wish.now) ≡ true }
    requires touches { object_of (plan_of p.now) Env (wanted_of wish.now) ≡ Some object }
    requires room { length bench.old.view.made < bench.old.round.opening.room }
    ensures round { bench.new.round ≡ bench.old.round }
    ensures number { bench.new.core ≡ bench.old.core }
    ensures called { HasCalled (plan_of p.now) (wanted_of wish.now) bench.old.view.made bench.new.view.made }
{
    sound_plans_have_objects();
    calls_come();
    leads_are_legal();
    leads_miss_nothing();
    for _ in rt.forever() {
        match bench.act_once(object, &Actor::Env, wish) {
            Benched::Done(_) => return,
            // Nothing that the environment wishes has to wait.
            Benched::NotYet(_) => unreachable!(),
            Benched::Contended => thread::yield_now(),
        }
    }
    unreachable!()
}

/// The same of a wish that touches no object.
fn call_alone(p: &BusPlan, bench: &mut SeatBench, wish: &Wish)
    requires plan { plan_in bench.old.round.opening ≡ plan_of p.now }
    requires sound { (m : Mapping) × IsSound (plan_of p.now) m }
    requires fits { wish_fits (plan_of p.now) Env (wanted_of wish.now) ≡ true }
    requires alone { object_of (plan_of p.now) Env (wanted_of wish.now) ≡ None }
    requires room { length bench.old.view.made < bench.old.round.opening.room }
    ensures round { bench.new.round ≡ bench.old.round }
    ensures number { bench.new.core ≡ bench.old.core }
    ensures called { HasCalled (plan_of p.now) (wanted_of wish.now) bench.old.view.made bench.new.view.made }
{
    free_deeds_are_legal();
    let entry = Entry {
        actor: Actor::Env,
        deed: deed_of(p, wish),
    };
    bench.stamp(&entry);
}

/// What is answered to a wish of the environment that touches no object.
fn deed_of(p: &BusPlan, wish: &Wish) -> Deed
    requires sound { (m : Mapping) × IsSound (plan_of p.now) m }
    requires fits { wish_fits (plan_of p.now) Env (wanted_of wish.now) ≡ true }
    requires alone { object_of (plan_of p.now) Env (wanted_of wish.now) ≡ None }
    ensures { Frees (wanted_of wish.now) (Some result) }
{
    match free_deed(wish) {
        Some(deed) => deed,
        None => unreachable!(),
    }
}
