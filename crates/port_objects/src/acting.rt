//! One entry on an object.

ghost use Rattle.std.specs.Prelude.{◌≡◌, false, true, Some};
ghost use Rattle.bus_semantics.specs.declared.entries.Actor.TheVariants.{Env};
ghost use Rattle.bus_semantics.specs.Common.{plan_of, groups_fit, wanted_of, to_tick, wish_fits, object_of, touched, Past, asks_its_own, NoneMayCome};
ghost use Rattle.bus_laws.specs.Common.{Mapping, Entry};
ghost use Rattle.object_kinds.specs.declared.acted.Shown.{Shown};
ghost use Rattle.object_kinds.specs.declared.acted.Acted.TheVariants.{Done, NotYet};
ghost use Rattle.object_kinds.specs.declared.acted.Filled.TheVariants as filled;
ghost use Rattle.object_kinds.specs.Common.{acted};
ghost use Rattle.port_objects.specs.Objects.{IsOfPlan, kept_of};
ghost use Rattle.port_objects.specs.Coming.{MayAsk, IsTheOne};
ghost use Rattle.port_objects.specs.Answers.{IsAnswer, tick_of_env};

use crate::laws::answers_are_what_may_come;
use crate::object::Object;
use bus_semantics::{Actor, BusPlan, Deed, Entry, Wish};
use object_kinds::{Acted, Filled};

/// Makes the entry of a wish on the object that it touches, if one may come. It takes no memory. The wish fits its actor, and a
/// start, an admission and an end are by an event of the actor's runnable.
///
/// Done answers the one entry of the wish that may come after the entries for which the object stands, and the object then
/// stands for them and that entry. NotYet comes exactly if there is none; it says why, and nothing changes.
pub fn act(p: &BusPlan, object: &mut Object, who: &Actor, wish: &Wish) -> Acted
    requires groups { groups_fit (plan_of p.now) ≡ true }
    requires touching { object_of (plan_of p.now) who.now (wanted_of wish.now) ≡ Some (touched (plan_of p.now) who.now (wanted_of wish.now)) }
    requires fits { wish_fits (plan_of p.now) who.now (wanted_of wish.now) ≡ true }
    requires own { asks_its_own (plan_of p.now) who.now (wanted_of wish.now) ≡ true }
    requires planned { IsOfPlan (plan_of p.now) (touched (plan_of p.now) who.now (wanted_of wish.now)) object.old }
    ensures lead { IsAnswer (plan_of p.now) (touched (plan_of p.now) who.now (wanted_of wish.now)) who.now (wanted_of wish.now) object.old object.new result }
    ensures planned { IsOfPlan (plan_of p.now) (touched (plan_of p.now) who.now (wanted_of wish.now)) object.new }
    ensures done { (m : Mapping) (l : Past) (e : Entry) → MayAsk (plan_of p.now) m who.now (wanted_of wish.now) (kept_of object.old) l →
        result ≡ Done e → IsTheOne (plan_of p.now) who.now (wanted_of wish.now) (kept_of object.new) l e }
    ensures not_yet { (m : Mapping) (l : Past) (shown : Shown) → MayAsk (plan_of p.now) m who.now (wanted_of wish.now) (kept_of object.old) l →
        result ≡ NotYet shown → NoneMayCome (plan_of p.now) who.now (wanted_of wish.now) l }
{
    let mut out = Entry {
        actor: *who,
        deed: Deed::Tick,
    };
    match act_in_place(p, object, who, wish, &mut out) {
        Filled::Done => Acted::Done(out),
        Filled::NotYet(shown) => Acted::NotYet(shown),
    }
}

/// As `act`, and fills in the entry where it is to lie: an entry is large, and an answer that holds it is copied by each function that
/// it passes through. If the answer is NotYet, what was filled in is no entry.
pub fn act_in_place(
    p: &BusPlan,
    object: &mut Object,
    who: &Actor,
    wish: &Wish,
    out: &mut Entry,
) -> Filled
    requires groups { groups_fit (plan_of p.now) ≡ true }
    requires touching { object_of (plan_of p.now) who.now (wanted_of wish.now) ≡ Some (touched (plan_of p.now) who.now (wanted_of wish.now)) }
    requires fits { wish_fits (plan_of p.now) who.now (wanted_of wish.now) ≡ true }
    requires own { asks_its_own (plan_of p.now) who.now (wanted_of wish.now) ≡ true }
    requires planned { IsOfPlan (plan_of p.now) (touched (plan_of p.now) who.now (wanted_of wish.now)) object.old }
    ensures lead { IsAnswer (plan_of p.now) (touched (plan_of p.now) who.now (wanted_of wish.now)) who.now (wanted_of wish.now) object.old object.new (acted result out.new) }
    ensures planned { IsOfPlan (plan_of p.now) (touched (plan_of p.now) who.now (wanted_of wish.now)) object.new }
    ensures done { (m : Mapping) (l : Past) → MayAsk (plan_of p.now) m who.now (wanted_of wish.now) (kept_of object.old) l →
        result ≡ filled.Done → IsTheOne (plan_of p.now) who.now (wanted_of wish.now) (kept_of object.new) l out.new }
    ensures not_yet { (m : Mapping) (l : Past) (shown : Shown) → MayAsk (plan_of p.now) m who.now (wanted_of wish.now) (kept_of object.old) l →
        result ≡ filled.NotYet shown → NoneMayCome (plan_of p.now) who.now (wanted_of wish.now) l }
{
    answers_are_what_may_come();
    act_by_kind(p, object, who, wish, out)
}

/// The entry of a wish on an object, by the kind of the object.
fn act_by_kind(
    p: &BusPlan,
    object: &mut Object,
    who: &Actor,
    wish: &Wish,
    out: &mut Entry,
) -> Filled
    requires groups { groups_fit (plan_of p.now) ≡ true }
    requires touching { object_of (plan_of p.now) who.now (wanted_of wish.now) ≡ Some (touched (plan_of p.now) who.now (wanted_of wish.now)) }
    requires fits { wish_fits (plan_of p.now) who.now (wanted_of wish.now) ≡ true }
    requires own { asks_its_own (plan_of p.now) who.now (wanted_of wish.now) ≡ true }
    requires planned { IsOfPlan (plan_of p.now) (touched (plan_of p.now) who.now (wanted_of wish.now)) object.old }
    ensures lead { IsAnswer (plan_of p.now) (touched (plan_of p.now) who.now (wanted_of wish.now)) who.now (wanted_of wish.now) object.old object.new (acted result out.new) }
    ensures planned { IsOfPlan (plan_of p.now) (touched (plan_of p.now) who.now (wanted_of wish.now)) object.new }
{
    // Each arm returns: what the arms give to a match is copied once more behind it.
    match object {
        Object::Unqueued(group) => return group.act(p, who, wish, out),
        Object::Bundle(bundle) => return bundle.act(p, who, wish, out),
        Object::Queued(group) => return group.act(p, who, wish, out),
        Object::Server(server) => return server.act(who, wish, out),
        Object::Area(area) => return area.act(who, wish, out),
        Object::Machine(machine) => return machine.act(who, wish, out),
        Object::Clock(ticks) => return ticks.act(who, wish, out),
    }
}

/// A tick of the clock (SWS_RTE: TimingEvent), if this object is the clock: what `act` makes of the environment's wish for one, without its
/// entry. If it is another object nothing changes, and the answer is no. It takes no memory.
pub fn tick(p: &BusPlan, object: &mut Object) -> bool
    requires planned { IsOfPlan (plan_of p.now) (touched (plan_of p.now) Env to_tick) object.old }
    ensures lead { result ≡ true → IsAnswer (plan_of p.now) (touched (plan_of p.now) Env to_tick) Env to_tick object.old object.new (Done tick_of_env) }
    ensures planned { IsOfPlan (plan_of p.now) (touched (plan_of p.now) Env to_tick) object.new }
    ensures same { result ≡ false → object.new ≡ object.old }
    ensures done { (m : Mapping) (l : Past) → MayAsk (plan_of p.now) m Env to_tick (kept_of object.old) l → result ≡ true →
        IsTheOne (plan_of p.now) Env to_tick (kept_of object.new) l tick_of_env }
{
    answers_are_what_may_come();
    let _plan = p;
    match object {
        Object::Clock(ticks) => {
            ticks.tick();
            true
        }
        _ => false,
    }
}
