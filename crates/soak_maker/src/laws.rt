//! The law.

ghost use Rattle.std.specs.Prelude.{◌≤◌, ℕ, List};
ghost use Rattle.rte_text.specs.declared.refusal.Refusal.{Refusal};
ghost use Rattle.rte_text.specs.declared.refusal.Refused.TheVariants.{Rule};
ghost use Rattle.description_places.specs.Rules.{Reads};
ghost use Rattle.description_stages.specs.Plans.{IsPlanRefusalOf};
ghost use Rattle.soak_maker.specs.Soak.{soak_value};

/// The description of `soak N` breaks none of the rules. It is so for each N from 1 to 64, of all bytes that are read as that
/// description.
pub fn soaks_break_no_rule()
    ensures { (n : ℕ) → 1 ≤ n → n ≤ 64 → (d : List ℕ) → Reads d (soak_value n) → (r : Refusal) → ¬ IsPlanRefusalOf d (Rule r) }
{}
