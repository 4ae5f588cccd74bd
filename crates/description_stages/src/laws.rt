//! The law of descriptions that are read, of the bytes of a slice, which are fewer than 2 ^ 64.

ghost use Rattle.std.specs.Prelude.{ℕ, ◌^◌, ◌<◌, List, length};
ghost use Rattle.plan_definitions.specs.Common.{Description, IsWellFormed};
ghost use Rattle.component_model.specs.Descriptions.{description_of};
ghost use Rattle.component_model.specs.Refusals.{IsRead};

use description_places::unbroken_descriptions;

/// A description that is read is well formed: it breaks none of rules 1 to 8, so its names are names, and distinct in the
/// list that declares them; its numbers lie in their ranges; what refers to something has a position in the list that
/// declares it; and its types and initial values fit.
pub fn read_descriptions_are_well_formed()
    ensures { (bytes : List ℕ) (d : Description) → length bytes < 2 ^ 64 → IsRead bytes (description_of d) → IsWellFormed d }
{
    unbroken_descriptions();
}
