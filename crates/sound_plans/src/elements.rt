//! Laws of the data elements of plans and of their groups.

ghost use Rattle.std.specs.Prelude.{◌≡◌, true};
ghost use Rattle.bus_semantics.specs.Common.{list_all, plan_of, groups_fit, elem_sound, joins_fit};
ghost use Rattle.plan_definitions.specs.Common.{Description, Flat, IsWhole};
ghost use Rattle.bus_laws.specs.Common.{BusPlan, Mapping};
ghost use Rattle.sound_plans.specs.Connected.{GroupsAreConnected};

/// A data element has 1 to 16 words within limits that a base type holds, its initial words fit, its queue has room for 1 to
/// 1,024 values, and a key that its side does not use is as if it were missing. A variable is of an instance, and joined with none.
pub fn elements_of_plans_are_sound()
    ensures { (d : Description) (f : Flat) (p : BusPlan) (m : Mapping) → IsWhole d f p m → list_all elem_sound p.elements ≡ true }
{}

/// Each group lists exactly its elements, at least one, in rising order, and the groups stand in order of their first elements.
pub fn groups_of_plans_fit()
    ensures { (d : Description) (f : Flat) (p : BusPlan) (m : Mapping) → IsWhole d f p m → groups_fit (plan_of p) ≡ true }
{}

/// The elements of a group agree in kind, limits and words. An element is joined exactly if its group has both sides, and one
/// of the sides has one element.
pub fn joined_elements_of_plans_agree()
    ensures { (d : Description) (f : Flat) (p : BusPlan) (m : Mapping) → IsWhole d f p m → joins_fit (plan_of p) ≡ true }
{}

/// Two data elements of a plan are in one group exactly if a chain of joins connects them. An element of the plan is that of the
/// site at its number; a variable is connected with none but itself (SWS_RTE: sender-receiver communication 1:n and n:1).
pub fn groups_are_what_joins_connect()
    ensures { (d : Description) (f : Flat) (p : BusPlan) (m : Mapping) → IsWhole d f p m → GroupsAreConnected d f p }
{}
