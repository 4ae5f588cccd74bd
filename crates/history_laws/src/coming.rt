//! Laws of what may come after the past of an object.

ghost use Rattle.std.specs.Prelude.{◌≡◌, ℕ, false, None};
ghost use Rattle.bus_laws.specs.Common.{Mapping, Actor, Returns};
ghost use Rattle.bus_semantics.specs.Common.{Plan, kind_of, server_of, Wanted, History, Noted, Past, noted, is_due, IsLegal, MayCome, IsSound};

/// Of one wish of an actor at most one entry may come after the past of an object. (An admission and an end are wished with
/// the event that started the activation.)
pub fn one_entry_of_a_wish()
    ensures { (p : Plan) (m : Mapping) (a : Actor) (w : Wanted) (l : Past) (one other : Noted) → IsSound p m →
        MayCome p a w l one → MayCome p a w l other → other.entry ≡ one.entry }
{}

/// A return event of a point without a server is never due. This holds of every plan, sound or not.
pub fn unjoined_points_return_nothing()
    ensures { (p : Plan) (h : History) (a : Actor) (event point : ℕ) → IsLegal p h →
        kind_of p event ≡ Returns point → server_of p point ≡ None → is_due p a event (noted h) ≡ false }
{}
