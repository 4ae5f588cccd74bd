//! Laws of objects.

ghost use Rattle.std.specs.Prelude.{◌≡◌, ◌<◌, ◌^◌, ℕ, true, ◌∷◌, None, Some, is_some, length, unwrap_or, IfSome};
ghost use Rattle.bus_laws.specs.Common.{Mapping, Actor, Deed, Entry};
ghost use Rattle.bus_semantics.specs.Common.{Plan, Wanted, wanted_by, Noted, Past, object_of, touched_by, touched, IsObject, wish_fits, fits, Answers, IsSound, NoneMayCome, Follows};
ghost use Rattle.object_kinds.specs.declared.acted.Shown.{Shown};
ghost use Rattle.port_objects.specs.declared.object.Object.{Object};
ghost use Rattle.port_objects.specs.Kept.{Kept};
ghost use Rattle.port_objects.specs.Leading.{lead};
ghost use Rattle.port_objects.specs.Objects.{kept_of};
ghost use Rattle.port_objects.specs.Answers.{IsMade, IsHeld};
ghost use Rattle.port_objects.specs.Coming.{MayAsk, IsTheOne};
ghost use Rattle.port_objects.specs.Freed.{IsFree, is_free};
ghost use Rattle.port_objects.specs.Plans.{HasObjects};
ghost use Rattle.port_objects.specs.Standing.{Stands};

use history_laws::one_entry_of_a_wish;

/// If an object stands for a list of entries, and the lead of a further entry gives something, that entry is what the bus
/// answers after the list and matches it, and what the lead gives stands for the list and the entry.
pub fn leads_are_legal()
    ensures follows { (p : Plan) (object : ℕ) (before after : Kept) (l : Past) (n : Noted) →
        Stands p object before l → lead p object before n ≡ Some after → Follows p object l n }
    ensures stands { (p : Plan) (object : ℕ) (before after : Kept) (l : Past) (n : Noted) →
        Stands p object before l → lead p object before n ≡ Some after → Stands p object after (n ∷ l) }
{
    data_objects::leads_are_legal();
    queue_objects::leads_are_legal();
    server_objects::leads_are_legal();
    area_objects::leads_are_legal();
    machine_objects::leads_are_legal();
    clock_objects::leads_are_legal();
    bundle_objects::leads_are_legal();
}

/// The lead misses no entry that may come: if an object of a sound plan stands for a list of entries, and a further entry may
/// follow them, the lead of that entry gives something.
pub fn leads_miss_nothing()
    ensures { (p : Plan) (m : Mapping) (object : ℕ) (before : Kept) (l : Past) (n : Noted) → IsSound p m →
        Stands p object before l → Follows p object l n → is_some (lead p object before n) ≡ true }
{
    data_objects::leads_miss_nothing();
    queue_objects::leads_miss_nothing();
    server_objects::leads_miss_nothing();
    area_objects::leads_miss_nothing();
    machine_objects::leads_miss_nothing();
    clock_objects::leads_miss_nothing();
    bundle_objects::leads_miss_nothing();
}

/// A sound plan has what `make_objects` asks of a plan, and what a wish that fits its actor touches is an
/// object of the plan; so is what an entry that fits touches.
pub fn sound_plans_have_objects()
    ensures asked { (p : Plan) (m : Mapping) → IsSound p m → HasObjects p }
    ensures touched { (p : Plan) (m : Mapping) (a : Actor) (w : Wanted) → IsSound p m → wish_fits p a w ≡ true →
        IfSome (object_of p a w) (IsObject p) }
    ensures entered { (p : Plan) (m : Mapping) (n : Noted) → IsSound p m → fits p n.entry ≡ true → IfSome (touched_by p n) (IsObject p) }
{
    queue_objects::queued_groups_of_sound_plans();
    server_objects::servers_of_sound_plans();
    machine_objects::machines_of_sound_plans();
}

/// What is answered on an object by the lead, as benches that tell their objects answer, is the one entry of the wish that may
/// come after the entries for which the object stands, or that none may.
pub fn answers_are_what_may_come()
    ensures made { (p : Plan) (m : Mapping) (a : Actor) (w : Wanted) (old new : Object) (l : Past) (e : Entry) →
        object_of p a w ≡ Some (touched p a w) → MayAsk p m a w (kept_of old) l →
        IsMade p (touched p a w) a w old new e → IsTheOne p a w (kept_of new) l e }
    ensures held { (p : Plan) (m : Mapping) (a : Actor) (w : Wanted) (old new : Object) (l : Past) (shown : Shown) →
        object_of p a w ≡ Some (touched p a w) → MayAsk p m a w (kept_of old) l →
        IsHeld p (touched p a w) a w old new shown → NoneMayCome p a w l }
{
    one_entry_of_a_wish();
    leads_are_legal();
    leads_miss_nothing();
}

/// What is answered to a wish that touches no object is what the bus answers, and nothing else is.
pub fn free_deeds_are_legal()
    ensures answers { (p : Plan) (m : Mapping) (a : Actor) (w : Wanted) (d : Deed) (h : Past) → IsSound p m → wish_fits p a w ≡ true →
        object_of p a w ≡ None → IsFree w d → is_free w ≡ true → Answers p h (record { entry = record { actor = a; deed = d }; event = None }) }
    ensures only { (p : Plan) (m : Mapping) (a : Actor) (w : Wanted) (d : Deed) (h : Past) (n : Noted) → IsSound p m → wish_fits p a w ≡ true →
        object_of p a w ≡ None → IsFree w d → is_free w ≡ true → n.entry.actor ≡ a → wanted_by (unwrap_or n.event 0) n.entry.deed ≡ w →
        Answers p h n → n.entry ≡ record { actor = a; deed = d } }
{}
