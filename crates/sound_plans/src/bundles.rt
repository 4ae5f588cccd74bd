//! Laws of the bundles that coherent lists make of groups.

ghost use Rattle.std.specs.Prelude.{◌≡◌, true};
ghost use Rattle.plan_definitions.specs.Common.{Description, Flat, IsWhole};
ghost use Rattle.bus_laws.specs.Common.{BusPlan, Mapping};
ghost use Rattle.bus_semantics.specs.Common.{plan_of, bundles_fit};

/// Each bundle lists exactly the groups that lists connect, at least one, in rising order, and the bundles stand in order of their
/// first groups.
pub fn bundles_of_plans_fit()
    ensures { (d : Description) (f : Flat) (p : BusPlan) (m : Mapping) → IsWhole d f p m → bundles_fit (plan_of p) ≡ true }
{}
