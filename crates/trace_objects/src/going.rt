//! What an actor asks for, made.

ghost use Rattle.std.specs.Prelude.{◌≡◌, List, Some, true, slice_get, set};
ghost use Rattle.bus_laws.specs.Common.{Mapping, Env};
ghost use Rattle.bus_semantics.specs.Common.{plan_of, to_tick, wanted_of, History, Past, touched};
ghost use Rattle.port_objects.specs.declared.object.Object.{Object};
ghost use Rattle.port_objects.specs.Common.{IsTheOne, MayAsk, ArePlans, IsOfPlan, kept_of, tick_of_env};
ghost use Rattle.trace_objects.specs.Going.{CanGoOn, IsAlone, IsNext, MakesNext};
ghost use Rattle.trace_objects.specs.Standing.{ObjectsStand};
ghost use Rattle.trace_objects.specs.Unrest.{AreAmong};

use crate::unrest::Unrest;
use bus_semantics::{Actor, BusPlan, Deed, Entry, Wish};
use history_laws::{activations_ask_what_fits, running_activations_go_on, what_comes_may_follow};
use port_objects::{
    Filled, Object, act_in_place, free_deed, free_deeds_are_legal, object_of,
    sound_plans_have_objects, tick as tick_clock,
};

/// The entry of a wish that touches no object. No if it may not come: then nothing is filled in.
fn go_on_alone(actor: Actor, wish: &Wish, out: &mut Entry) -> bool
    ensures { result ≡ true → IsAlone actor (wanted_of wish.now) out.new }
{
    match free_deed(wish) {
        Some(deed) => {
            *out = Entry { actor, deed };
            true
        }
        None => false,
    }
}

/// Makes what an actor asks for, on the object that it touches, if it touches one, and fills in its entry. No if no entry of the wish may
/// come yet: then what the objects keep is of no use, and what is filled in is no entry. Whatever it answers, what may come of its own then
/// is among `unrest`, if it was before. It takes no memory.
pub fn go_on(
    p: &BusPlan,
    objects: &mut Vec<Object>,
    unrest: &mut Unrest,
    actor: Actor,
    wish: &Wish,
    out: &mut Entry,
) -> bool
    requires planned { ArePlans (plan_of p.now) objects.old.items }
    requires among { AreAmong (plan_of p.now) objects.old.items unrest.old }
    requires next { CanGoOn (plan_of p.now) objects.old.items actor (wanted_of wish.now) }
    ensures planned { ArePlans (plan_of p.now) objects.new.items }
    ensures among { AreAmong (plan_of p.now) objects.new.items unrest.new }
    ensures made { (m : Mapping) (h : History) → IsNext (plan_of p.now) m h actor (wanted_of wish.now) → ObjectsStand (plan_of p.now) h objects.old.items →
        result ≡ true → MakesNext (plan_of p.now) h actor (wanted_of wish.now) objects.new.items out.new }
{
    sound_plans_have_objects();
    running_activations_go_on();
    what_comes_may_follow();
    activations_ask_what_fits();
    free_deeds_are_legal();
    match object_of(p, &actor, wish) {
        Some(number) => {
            let object = &mut objects[number as usize];
            match act_in_place(p, object, &actor, wish, out) {
                Filled::Done => {
                    unrest.note(p, number, object, &out.deed);
                    true
                }
                Filled::NotYet(_) => false,
            }
        }
        None => go_on_alone(actor, wish, out),
    }
}

/// Makes a tick on the object of this number, and notes what may come then. No if the object is not the clock.
fn tick_at(p: &BusPlan, number: u32, object: &mut Object, unrest: &mut Unrest) -> bool
    requires planned { IsOfPlan (plan_of p.now) (touched (plan_of p.now) Env to_tick) object.old }
    requires number { number ≡ touched (plan_of p.now) Env to_tick }
    requires among { (objects : List Object) × AreAmong (plan_of p.now) objects unrest.old }
    ensures planned { IsOfPlan (plan_of p.now) (touched (plan_of p.now) Env to_tick) object.new }
    ensures among { (objects : List Object) → slice_get objects number ≡ Some object.old → AreAmong (plan_of p.now) objects unrest.old →
        AreAmong (plan_of p.now) (set objects number object.new) unrest.new }
    ensures made { (m : Mapping) (l : Past) → MayAsk (plan_of p.now) m Env to_tick (kept_of object.old) l → result ≡ true →
        IsTheOne (plan_of p.now) Env to_tick (kept_of object.new) l tick_of_env }
{
    if tick_clock(p, object) {
        unrest.note(p, number, object, &Deed::Tick);
        true
    } else {
        false
    }
}

/// Makes a tick, for which the environment asks, as `go_on` makes what an actor asks for, without its entry. No if none may come: then what
/// the objects keep is of no use. Whatever it answers, what may come of its own then is among `unrest`, if it was before. It takes no memory.
pub fn tick(p: &BusPlan, objects: &mut Vec<Object>, unrest: &mut Unrest) -> bool
    requires planned { ArePlans (plan_of p.now) objects.old.items }
    requires among { AreAmong (plan_of p.now) objects.old.items unrest.old }
    requires next { CanGoOn (plan_of p.now) objects.old.items Env to_tick }
    ensures planned { ArePlans (plan_of p.now) objects.new.items }
    ensures among { AreAmong (plan_of p.now) objects.new.items unrest.new }
    ensures made { (m : Mapping) (h : History) → IsNext (plan_of p.now) m h Env to_tick → ObjectsStand (plan_of p.now) h objects.old.items →
        result ≡ true → MakesNext (plan_of p.now) h Env to_tick objects.new.items tick_of_env }
{
    sound_plans_have_objects();
    running_activations_go_on();
    what_comes_may_follow();
    match object_of(p, &Actor::Env, &Wish::Tick) {
        Some(number) => tick_at(p, number, &mut objects[number as usize], unrest),
        None => false,
    }
}
