//! The atomic steps of a seat.

ghost use Rattle.std.specs.Prelude.{◌≡◌, ◌<◌, ◌^◌, [], length, Some, None};
ghost use Rattle.bus_semantics.specs.Common.{touched_by};
ghost use Rattle.cross_core_table.specs.declared.views.Held.{Held};
ghost use Rattle.cross_core_table.specs.Logs.{plan_in};
ghost use Rattle.cross_core_table.specs.Rules.{place_of};
ghost use Rattle.cross_core_table.specs.Plays.{as_stamped, held_after, making, letting_go, having_looked};
ghost use Rattle.cross_core_table.specs.Places.{IsSamePlace, IsIdle, IsHolding, HasTried};

use crate::plays::{Lock, Look, Names, Ruled, StampOff, StampOn, Unlock};
use crate::views::{Opening, View};
use atomic_table::{Seat, Shared};
use bus_semantics::Entry;
use port_objects::Object;
use std::marker::Brand;

/// The table as its seats see it.
pub(crate) type Top = Shared<Object, View, Opening, Ruled>;

/// A seat of it.
pub(crate) type Place = Seat<Object, View>;

/// How many words a line of the cache has.
const LINE: usize = 8;

/// The words of so many objects have a line each.
const MOST_LINES: usize = 1_024;

/// Where the word of the object of this number stands. Each of the first 1,024 has a line of the cache to itself, as the word of the stamps has,
/// so that cores at several objects do not slow each other. By the number of objects it is the number of words.
pub(crate) fn place_of(object: usize) -> usize
    requires { object < 2 ^ 32 }
    ensures { result ≡ place_of object }
{
    object + (LINE - 1) * object.min(MOST_LINES) + LINE
}

/// A single try for an object: the word that was found, which is 0 exactly if the seat then holds the object.
pub(crate) fn try_lock(top: &Top, place: &mut Place, core: u32, object: u32) -> u64
    requires table { place.old.table_id ≡ top.now.table_id }
    requires words { top.now.table_id.words ≡ place_of top.now.table_id.slots }
    requires idle { IsIdle top.now.key core place.old.me }
    requires within { object < top.now.table_id.slots }
    ensures same { IsSamePlace place.old place.new }
    ensures tried { HasTried top.now.key core object result place.old.me place.new.me }
{
    top.compare_exchange::<Lock>(place, place_of(object as usize), 0, core as u64 + 1)
}

/// Stamps an entry of the object that the seat holds, and answers its stamp.
pub(crate) fn stamp_on(
    top: &Top,
    place: &mut Place,
    object: u32,
    entry: &Entry,
    event: Option<u32>,
) -> u64
    requires table { place.old.table_id ≡ top.now.table_id }
    requires words { 0 < top.now.table_id.words }
    requires opening { place.old.me.0.opening ≡ Some top.now.key }
    requires holds { (h : Held) × (place.old.me.0.held ≡ Some h) × (h.object ≡ object) }
    requires touching { touched_by (plan_in top.now.key) (record { entry = entry.now; event = event }) ≡ Some object }
    requires room { length place.old.me.0.made < top.now.key.room }
    ensures same { IsSamePlace place.old place.new }
    ensures stamped { place.new.me ≡ (record (making place.old.me.0 (as_stamped result entry.now event)) { held = held_after place.old.me.0.held (as_stamped result entry.now event) }, place.old.me.1) }
{
    stamp_on_as::<Brand>(top, place, object, entry, event)
}

/// The same, if the entry is named.
fn stamp_on_as<N: Names>(
    top: &Top,
    place: &mut Place,
    object: u32,
    entry: &Entry,
    event: Option<u32>,
) -> u64
    requires named { (N.entry ≡ entry.now) × (N.event ≡ event) }
    requires table { place.old.table_id ≡ top.now.table_id }
    requires words { 0 < top.now.table_id.words }
    requires opening { place.old.me.0.opening ≡ Some top.now.key }
    requires holds { (h : Held) × (place.old.me.0.held ≡ Some h) × (h.object ≡ object) }
    requires touching { touched_by (plan_in top.now.key) (record { entry = entry.now; event = event }) ≡ Some object }
    requires room { length place.old.me.0.made < top.now.key.room }
    ensures same { IsSamePlace place.old place.new }
    ensures stamped { place.new.me ≡ (record (making place.old.me.0 (as_stamped result entry.now event)) { held = held_after place.old.me.0.held (as_stamped result entry.now event) }, place.old.me.1) }
{
    let (_object, _entry, _event) = (object, entry, event);
    top.fetch_add::<StampOn<N>>(place, 0, 1)
}

/// Stamps an entry that touches no object, and answers its stamp.
pub(crate) fn stamp_off(top: &Top, place: &mut Place, entry: &Entry) -> u64
    requires table { place.old.table_id ≡ top.now.table_id }
    requires words { 0 < top.now.table_id.words }
    requires opening { place.old.me.0.opening ≡ Some top.now.key }
    requires alone { touched_by (plan_in top.now.key) (record { entry = entry.now; event = None }) ≡ None }
    requires room { length place.old.me.0.made < top.now.key.room }
    ensures same { IsSamePlace place.old place.new }
    ensures stamped { place.new.me ≡ (making place.old.me.0 (as_stamped result entry.now None), place.old.me.1) }
{
    stamp_off_as::<Brand>(top, place, entry)
}

/// The same, if the entry is named.
fn stamp_off_as<N: Names>(top: &Top, place: &mut Place, entry: &Entry) -> u64
    requires named { N.entry ≡ entry.now }
    requires table { place.old.table_id ≡ top.now.table_id }
    requires words { 0 < top.now.table_id.words }
    requires opening { place.old.me.0.opening ≡ Some top.now.key }
    requires alone { touched_by (plan_in top.now.key) (record { entry = entry.now; event = None }) ≡ None }
    requires room { length place.old.me.0.made < top.now.key.room }
    ensures same { IsSamePlace place.old place.new }
    ensures stamped { place.new.me ≡ (making place.old.me.0 (as_stamped result entry.now None), place.old.me.1) }
{
    let _entry = entry;
    top.fetch_add::<StampOff<N>>(place, 0, 1)
}

/// Gives back the object that the seat holds, after an entry.
pub(crate) fn unlock(top: &Top, place: &mut Place, object: u32)
    requires table { place.old.table_id ≡ top.now.table_id }
    requires words { top.now.table_id.words ≡ place_of top.now.table_id.slots }
    requires within { object < top.now.table_id.slots }
    requires holds { IsHolding top.now.key place.old.me object }
    ensures same { IsSamePlace place.old place.new }
    ensures idle { place.new.me ≡ (letting_go place.old.me.0, []) }
{
    top.store::<Unlock>(place, place_of(object as usize), 0);
}

/// Gives back the object that the seat holds, without an entry: it has looked.
pub(crate) fn look(top: &Top, place: &mut Place, object: u32)
    requires table { place.old.table_id ≡ top.now.table_id }
    requires words { top.now.table_id.words ≡ place_of top.now.table_id.slots }
    requires within { object < top.now.table_id.slots }
    requires holds { IsHolding top.now.key place.old.me object }
    ensures same { IsSamePlace place.old place.new }
    ensures idle { place.new.me ≡ (having_looked place.old.me.0, []) }
{
    top.store::<Look>(place, place_of(object as usize), 0);
}
