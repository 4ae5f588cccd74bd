//! A wish on an object that cores share.

ghost use Rattle.std.specs.Prelude.{◌≡◌, ◌<◌, ◌++◌, List, [], ◌∷◌, length, true, vec_len, Some, None};
ghost use Rattle.bus_semantics.specs.declared.entries.Stamped.{Stamped};
ghost use Rattle.bus_semantics.specs.Common.{vec_capacity, plan_of, groups_fit, wanted_of, event_of, touched_by};
ghost use Rattle.port_objects.specs.declared.object.Object.{Object};
ghost use Rattle.port_objects.specs.Common.{IsOfPlan};
ghost use Rattle.port_objects.specs.Benches.{IsAsked, stamped_alone, benched, IsWritten};
ghost use Rattle.cross_core_table.specs.Logs.{plan_in};
ghost use Rattle.cross_core_table.specs.Rules.{place_of};
ghost use Rattle.cross_core_table.specs.Plays.{making, letting_go, as_stamped};
ghost use Rattle.cross_core_table.specs.Places.{KnowsAfter, IsSamePlace, IsToKeep, HasFilled};
ghost use Rattle.cross_core_table.specs.Seats.{IsSeatAt, view_of};

use crate::seats::CoreSeat;
use crate::steps::{Top, look, stamp_off, stamp_on, try_lock, unlock};
use bus_semantics::{Actor, BusPlan, Deed, Entry, Stamped, Wish};
use port_objects::{Answered, Filled, act_in_place, last_entries_are_last};

/// Makes the entry of a wish on the object of this number, if no other core holds it and one may come, and keeps it. It tries once.
pub(crate) fn act_at(
    top: &Top,
    p: &BusPlan,
    seat: &mut CoreSeat,
    object: u32,
    who: &Actor,
    wish: &Wish,
) -> Answered
    requires seat { IsSeatAt top.now.table_id top.now.key seat.old.core seat.old }
    requires plan { plan_of p.now ≡ plan_in top.now.key }
    requires groups { groups_fit (plan_of p.now) ≡ true }
    requires words { top.now.table_id.words ≡ place_of top.now.table_id.slots }
    requires within { object < top.now.table_id.slots }
    requires asked { IsAsked (plan_of p.now) object who.now (wanted_of wish.now) }
    requires room { length (view_of seat.old).made < top.now.key.room }
    ensures seat { IsSeatAt top.now.table_id top.now.key seat.old.core seat.new }
    ensures written { IsWritten seat.old.made.items seat.new.made.items result }
    ensures knows { KnowsAfter top.now.key seat.old.core object who.now (wanted_of wish.now) (view_of seat.old) (view_of seat.new) (benched result seat.new.made.items) }
{
    last_entries_are_last();
    if try_lock(top, &mut seat.place, seat.core, object) != 0 {
        return Answered::Contended;
    }
    let before = seat.made.len();
    match act_on(top, p, seat, object, who, wish) {
        Filled::Done => {
            keep_entry(top, seat, object);
            Answered::Made
        }
        Filled::NotYet(shown) => {
            seat.made.truncate(before);
            look(top, &mut seat.place, object);
            Answered::NotYet(shown)
        }
    }
}

/// Makes the entry of a wish on the object that the seat holds, if one may come, behind the entries that the seat made; it has no stamp
/// yet. If none may come, what is written there is no entry.
fn act_on(
    top: &Top,
    p: &BusPlan,
    seat: &mut CoreSeat,
    object: u32,
    who: &Actor,
    wish: &Wish,
) -> Filled
    requires table { seat.old.place.table_id ≡ top.now.table_id }
    requires groups { groups_fit (plan_of p.now) ≡ true }
    requires asked { IsAsked (plan_of p.now) object who.now (wanted_of wish.now) }
    requires holds { (held : Object) × (seat.old.place.me.1 ≡ (object, held) ∷ []) × IsOfPlan (plan_of p.now) object held }
    requires space { vec_len seat.old.made < vec_capacity seat.old.made }
    ensures same { IsSamePlace seat.old.place seat.new.place }
    ensures core { seat.new.core ≡ seat.old.core }
    ensures view { view_of seat.new ≡ view_of seat.old }
    ensures capacity { vec_capacity seat.new.made ≡ vec_capacity seat.old.made }
    ensures filled { (held : Object) → seat.old.place.me.1 ≡ (object, held) ∷ [] →
        HasFilled (plan_of p.now) object who.now (wanted_of wish.now) held seat.old seat.new result }
{
    let at = seat.made.len();
    seat.made.push_reserved(Stamped {
        stamp: 0,
        entry: Entry {
            actor: Actor::Env,
            deed: Deed::Tick,
        },
        event: event_of(wish),
    });
    let held = seat.place.slot_mut(top, object as usize);
    let stamped = &mut seat.made[at];
    act_in_place(p, held, who, wish, &mut stamped.entry)
}

/// Stamps the entry that was made on the object in hand and lies behind the others, and gives the object back. It answers the stamp.
fn keep_entry(top: &Top, seat: &mut CoreSeat, object: u32) -> u64
    requires table { seat.old.place.table_id ≡ top.now.table_id }
    requires words { top.now.table_id.words ≡ place_of top.now.table_id.slots }
    requires within { object < top.now.table_id.slots }
    requires opening { (view_of seat.old).opening ≡ Some top.now.key }
    requires keeps { (before : List Stamped) × (last : Stamped) × (seat.old.made.items ≡ before ++ last ∷ [])
        × IsToKeep top.now.key seat.old.place.me object last.entry last.event }
    requires room { length (view_of seat.old).made < top.now.key.room }
    ensures table { seat.new.place.table_id ≡ seat.old.place.table_id }
    ensures core { seat.new.core ≡ seat.old.core }
    ensures seat { (before : List Stamped) (last : Stamped) → seat.old.made.items ≡ before ++ last ∷ [] →
        seat.new.place.me ≡ (making (letting_go seat.old.place.me.0) (as_stamped result last.entry last.event), []) }
    ensures made { (before : List Stamped) (last : Stamped) → seat.old.made.items ≡ before ++ last ∷ [] →
        seat.new.made.items ≡ before ++ as_stamped result last.entry last.event ∷ [] }
    ensures capacity { vec_capacity seat.new.made ≡ vec_capacity seat.old.made }
{
    let at = seat.made.len() - 1;
    let last = &mut seat.made[at];
    let stamp = stamp_on(top, &mut seat.place, object, &last.entry, last.event);
    unlock(top, &mut seat.place, object);
    last.stamp = stamp;
    stamp
}

/// The event that a wish names for its entry: of an Admit or End.
fn event_of(wish: &Wish) -> Option<u32>
    ensures { result ≡ event_of (wanted_of wish.now) }
{
    match wish {
        Wish::Admit { event } | Wish::End { event } => Some(*event),
        _ => None,
    }
}

/// Stamps an entry that touches no object, and keeps it.
pub(crate) fn stamp_at(top: &Top, seat: &mut CoreSeat, entry: &Entry) -> u64
    requires seat { IsSeatAt top.now.table_id top.now.key seat.old.core seat.old }
    requires words { top.now.table_id.words ≡ place_of top.now.table_id.slots }
    requires alone { touched_by (plan_in top.now.key) (record { entry = entry.now; event = None }) ≡ None }
    requires room { length (view_of seat.old).made < top.now.key.room }
    ensures seat { IsSeatAt top.now.table_id top.now.key seat.old.core seat.new }
    ensures knows { view_of seat.new ≡ making (view_of seat.old) (stamped_alone result entry.now) }
{
    let stamp = stamp_off(top, &mut seat.place, entry);
    seat.made.push_reserved(Stamped {
        stamp,
        entry: *entry,
        event: None,
    });
    stamp
}
