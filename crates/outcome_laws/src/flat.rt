//! The law.

ghost use Rattle.std.specs.Prelude.{◌⊎◌};
ghost use Rattle.description_types.specs.declared.description.Description.{Description};
ghost use Rattle.outcome_laws.specs.Flattened.{HasFlat, HasRefusal};

/// A description is made flat, or is refused by rule 9, 10 or 11, whether it is well formed or not.
pub fn descriptions_are_made_flat_or_refused()
    ensures { (d : Description) → HasFlat d ⊎ HasRefusal d }
{}
