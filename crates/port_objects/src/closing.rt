//! When nobody may enter an area, and what opens it again.

ghost use Rattle.std.specs.Prelude.{◌≡◌, ℕ, true, false, None, Some, unwrap_or};
ghost use Rattle.bus_semantics.specs.Common.{ActKey, Plan, to_enter, wanted_by, Noted, object_of, wish_fits};
ghost use Rattle.bus_semantics.specs.declared.entries.Actor.TheVariants.{Act};
ghost use Rattle.port_objects.specs.Kept.{Kept};
ghost use Rattle.port_objects.specs.Leading.{lead};
ghost use Rattle.port_objects.specs.Waking.{is_leave, IsClosed};

/// If an activation that may want to enter an area cannot, no other can (SWS_RTE: Rte_Enter).
pub fn areas_are_closed_alike()
    ensures { (p : Plan) (object area : ℕ) (k : Kept) (a : ActKey) →
        wish_fits p (Act a) (to_enter area) ≡ true → object_of p (Act a) (to_enter area) ≡ Some object →
        ((n : Noted) → n.entry.actor ≡ Act a → wanted_by (unwrap_or n.event 0) n.entry.deed ≡ to_enter area → lead p object k n ≡ None) →
        IsClosed p object k }
{}

/// After an entry on an object nobody may enter an area there, unless the entry was a Leave (SWS_RTE: Rte_Enter, Rte_Exit).
pub fn only_a_leave_opens()
    ensures { (p : Plan) (object : ℕ) (before after : Kept) (n : Noted) →
        lead p object before n ≡ Some after → is_leave n.entry.deed ≡ false → IsClosed p object after }
{}
