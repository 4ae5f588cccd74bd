//! What rule 15 forbids.

ghost use Rattle.std.specs.Prelude.{◌≡◌, ◌↔◌, List, true};
ghost use Rattle.plan_definitions.specs.Common.{End, Join, IsManyToMany, is_many_to_many};

/// What rule 15 sees from the ends nearby is what it says of whole groups: chains of joins lead from the required end to several
/// required and several provided ends (SWS_RTE: sender-receiver communication 1:n and n:1).
pub fn crowded_groups_are_many_to_many()
    ensures { (joins : List Join) (e : End) → is_many_to_many joins e ≡ true ↔ IsManyToMany joins e }
{}
