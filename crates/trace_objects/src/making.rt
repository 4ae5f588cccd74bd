//! An entry of a trace, made on its object.

ghost use Rattle.std.specs.Prelude.{◌≡◌, ◌∷◌, List, true, slice_get, set, None, Some};
ghost use Rattle.bus_semantics.specs.declared.script.Mapping.{Mapping};
ghost use Rattle.bus_semantics.specs.Common.{plan_of, groups_fit, wanted_of, History, Past, wish_fits, object_of, touched, broken_clause, asks_its_own};
ghost use Rattle.port_objects.specs.declared.object.Object.{Object};
ghost use Rattle.port_objects.specs.Common.{MayAsk, ArePlans, IsOfPlan, kept_of};
ghost use Rattle.trace_objects.specs.Standing.{CanTry, IsCompared, IsMadeAlone, IsMadeOn, IsTried, ObjectsStand, Tries};
ghost use Rattle.trace_objects.specs.Unrest.{AreAmong};

use crate::came::Came;
use crate::clauses::broken_by;
use crate::unrest::Unrest;
use bus_laws::answers_look_at_one_object;
use bus_semantics::{BusPlan, Deed, Entry, Wish, wish_of};
use history_laws::{
    calls_come, hearers_have_asked, legal_histories_part_into_objects, running_activations_go_on,
    unjoined_points_return_nothing, what_comes_may_follow, what_touches_nothing, wishes_match,
};
use port_objects::{
    Filled, Object, act_in_place, free_deed, free_deeds_are_legal, object_of,
    sound_plans_have_objects,
};
use same_entries::same_entry;

/// Makes the entry on the object of its wish, which has this number, notes what may come then, and answers what may come of that wish. If
/// not the entry itself, what the object keeps then is of no use.
fn make_on(
    p: &BusPlan,
    number: u32,
    object: &mut Object,
    unrest: &mut Unrest,
    entry: &Entry,
    wish: &Wish,
) -> Came
    requires groups { groups_fit (plan_of p.now) ≡ true }
    requires touching { object_of (plan_of p.now) entry.now.actor (wanted_of wish.now) ≡ Some (touched (plan_of p.now) entry.now.actor (wanted_of wish.now)) }
    requires fits { wish_fits (plan_of p.now) entry.now.actor (wanted_of wish.now) ≡ true }
    requires own { asks_its_own (plan_of p.now) entry.now.actor (wanted_of wish.now) ≡ true }
    requires planned { IsOfPlan (plan_of p.now) (touched (plan_of p.now) entry.now.actor (wanted_of wish.now)) object.old }
    requires number { number ≡ touched (plan_of p.now) entry.now.actor (wanted_of wish.now) }
    requires among { (objects : List Object) × AreAmong (plan_of p.now) objects unrest.old }
    ensures planned { IsOfPlan (plan_of p.now) (touched (plan_of p.now) entry.now.actor (wanted_of wish.now)) object.new }
    ensures among { (objects : List Object) → slice_get objects number ≡ Some object.old → AreAmong (plan_of p.now) objects unrest.old →
        AreAmong (plan_of p.now) (set objects number object.new) unrest.new }
    ensures made { (m : Mapping) (l : Past) → MayAsk (plan_of p.now) m entry.now.actor (wanted_of wish.now) (kept_of object.old) l →
        IsMadeOn (plan_of p.now) (wanted_of wish.now) (kept_of object.new) l entry.now result }
{
    let mut made = Entry {
        actor: entry.actor,
        deed: Deed::Tick,
    };
    match act_in_place(p, object, &entry.actor, wish, &mut made) {
        Filled::Done => {
            unrest.note(p, number, object, &made.deed);
            compare(&made, entry)
        }
        Filled::NotYet(_) => Came::Nothing,
    }
}

/// What may come of a wish of which this is made.
fn compare(made: &Entry, entry: &Entry) -> Came
    ensures { IsCompared made.now entry.now result }
{
    if same_entry(made, entry) {
        Came::Itself
    } else {
        Came::Another
    }
}

/// What is answered to a wish that touches no object.
fn make_alone(entry: &Entry, wish: &Wish) -> Came
    ensures { IsMadeAlone (wanted_of wish.now) entry.now result }
{
    match free_deed(wish) {
        Some(deed) => compare(
            &Entry {
                actor: entry.actor,
                deed,
            },
            entry,
        ),
        None => Came::Nothing,
    }
}

/// Makes an entry on the object that it touches, if it touches one, and answers what may come of its wish.
fn try_entry(
    p: &BusPlan,
    objects: &mut Vec<Object>,
    unrest: &mut Unrest,
    entry: &Entry,
    event: Option<u32>,
) -> Came
    requires planned { ArePlans (plan_of p.now) objects.old.items }
    requires among { AreAmong (plan_of p.now) objects.old.items unrest.old }
    requires tried { CanTry (plan_of p.now) objects.old.items entry.now event }
    ensures planned { ArePlans (plan_of p.now) objects.new.items }
    ensures among { AreAmong (plan_of p.now) objects.new.items unrest.new }
    ensures tried { (m : Mapping) (h : History) → IsTried (plan_of p.now) m h entry.now event → ObjectsStand (plan_of p.now) h objects.old.items →
        Tries (plan_of p.now) h objects.new.items entry.now result }
{
    sound_plans_have_objects();
    running_activations_go_on();
    legal_histories_part_into_objects();
    what_comes_may_follow();
    free_deeds_are_legal();
    unjoined_points_return_nothing();
    hearers_have_asked();
    what_touches_nothing();
    calls_come();
    wishes_match();
    answers_look_at_one_object();
    let wish = wish_of(entry, event);
    match object_of(p, &entry.actor, &wish) {
        Some(object) => make_on(
            p,
            object,
            &mut objects[object as usize],
            unrest,
            entry,
            &wish,
        ),
        None => make_alone(entry, &wish),
    }
}

/// Makes an entry on the object that it touches, if it touches one, and answers the clause that it breaks, by the number that `check`
/// prints. None: it is what the bus answers after the entries for which the objects stand, and then they stand for these and it. If it
/// breaks one, what the objects keep then is of no use. The entry fits, and its actor's program asks for it; `event` is the one that
/// started the activation, for an admission and an end. Whatever it answers, what may come of its own then is among `unrest`, if it was
/// before. It takes no memory. The objects stay the plan's.
pub fn make(
    p: &BusPlan,
    objects: &mut Vec<Object>,
    unrest: &mut Unrest,
    entry: &Entry,
    event: Option<u32>,
) -> Option<u8>
    requires planned { ArePlans (plan_of p.now) objects.old.items }
    requires among { AreAmong (plan_of p.now) objects.old.items unrest.old }
    requires tried { CanTry (plan_of p.now) objects.old.items entry.now event }
    ensures planned { ArePlans (plan_of p.now) objects.new.items }
    ensures among { AreAmong (plan_of p.now) objects.new.items unrest.new }
    ensures broken { (m : Mapping) (h : History) → IsTried (plan_of p.now) m h entry.now event → ObjectsStand (plan_of p.now) h objects.old.items →
        result ≡ broken_clause (plan_of p.now) h entry.now }
    ensures made { (m : Mapping) (h : History) → IsTried (plan_of p.now) m h entry.now event → ObjectsStand (plan_of p.now) h objects.old.items →
        result ≡ None → ObjectsStand (plan_of p.now) (entry.now ∷ h) objects.new.items }
{
    broken_by(entry, try_entry(p, objects, unrest, entry, event))
}
