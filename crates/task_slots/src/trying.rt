//! One wish, tried over a bench.

ghost use Rattle.std.specs.Prelude.{◌≡◌, ◌<◌, ◌∷◌, [], None, length};
ghost use Rattle.bus_semantics.specs.Common.{vec_capacity, plan_of, wanted_of, object_of};
ghost use Rattle.task_slots.specs.Look.{IsWrittenLook, look_of};
ghost use Rattle.task_slots.specs.Looking.{IsTried, EntryOf, Looked, looks_at};

use crate::look::Looks;
use bus_semantics::{Actor, BusPlan, Stamped, Wish};
use port_objects::{Answered, Bench, free_deed, last_entries_are_last, object_of};

/// Makes the entry of a wish that touches no object, by a stamp. A start without an object may never come, so the bench is not
/// asked for it.
fn answer_alone<B: Bench>(who: &Actor, wish: &Wish, bench: &mut B, made: &mut Vec<Stamped>) -> Looks
    requires room { 0 < (B.told bench.old).room }
    requires space { length made.old.items < vec_capacity made.old }
    requires tried { IsTried (B.plan bench.old) who.now (wanted_of wish.now) }
    requires alone { object_of (B.plan bench.old) who.now (wanted_of wish.now) ≡ None }
    ensures home { B.home bench.new ≡ B.home bench.old }
    ensures plan { B.plan bench.new ≡ B.plan bench.old }
    ensures capacity { vec_capacity made.new ≡ vec_capacity made.old }
    ensures written { IsWrittenLook made.old.items made.new.items result }
    ensures entry { EntryOf (B.plan bench.old) who.now (wanted_of wish.now) (look_of result made.new.items) }
    ensures looked { Looked (B.plan bench.old) ((who.now, wanted_of wish.now) ∷ []) (looks_at None (wanted_of wish.now)) (B.told bench.old) (B.told bench.new) (look_of result made.new.items) }
{
    last_entries_are_last();
    match free_deed(wish) {
        Some(deed) => {
            bench.stamp_into(who, &deed, made);
            Looks::Made
        }
        None => Looks::Nothing,
    }
}

/// Makes the entry of a wish, if one may come: on the object that it touches, else by a stamp.
pub(crate) fn try_wish<B: Bench>(
    p: &BusPlan,
    who: &Actor,
    wish: &Wish,
    bench: &mut B,
    made: &mut Vec<Stamped>,
) -> Looks
    requires room { 0 < (B.told bench.old).room }
    requires space { length made.old.items < vec_capacity made.old }
    requires plan { B.plan bench.old ≡ plan_of p.now }
    requires tried { IsTried (plan_of p.now) who.now (wanted_of wish.now) }
    ensures home { B.home bench.new ≡ B.home bench.old }
    ensures plan { B.plan bench.new ≡ B.plan bench.old }
    ensures capacity { vec_capacity made.new ≡ vec_capacity made.old }
    ensures written { IsWrittenLook made.old.items made.new.items result }
    ensures entry { EntryOf (plan_of p.now) who.now (wanted_of wish.now) (look_of result made.new.items) }
    ensures looked { Looked (plan_of p.now) ((who.now, wanted_of wish.now) ∷ []) (looks_at (object_of (plan_of p.now) who.now (wanted_of wish.now)) (wanted_of wish.now))
        (B.told bench.old) (B.told bench.new) (look_of result made.new.items) }
{
    last_entries_are_last();
    match object_of(p, who, wish) {
        Some(object) => match bench.act_into(object, who, wish, made) {
            Answered::Made => Looks::Made,
            Answered::NotYet(_) => Looks::Nothing,
            Answered::Contended => Looks::Contended(object),
        },
        None => answer_alone(who, wish, bench, made),
    }
}
