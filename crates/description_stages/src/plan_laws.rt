//! The laws.

ghost use Rattle.std.specs.Prelude.{◌≡◌, ℕ, List};
ghost use Rattle.plan_definitions.specs.Common.{Flat, Description, plan_of, is_too_large};
ghost use Rattle.rte_text.specs.declared.refusal.Refusal.{Refusal};
ghost use Rattle.rte_text.specs.declared.refusal.Refused.TheVariants.{Rule};
ghost use Rattle.plan_text.specs.Headers.{header_of};
ghost use Rattle.description_stages.specs.declared.planning.PlannedDescription.{PlannedDescription};
ghost use Rattle.description_stages.specs.Plans.{IsPlanRefusalOf, IsPlannedOf};
ghost use Rattle.description_stages.specs.Same.{IsSamePlan};
ghost use Rattle.description_stages.specs.Sizes.{is_past};

/// Bytes that have a plan have one plan, with one mapping and one text. They are made flat in one way.
pub fn plans_are_one()
    ensures { (bytes : List ℕ) (x y : PlannedDescription) → IsPlannedOf bytes x → IsPlannedOf bytes y → IsSamePlan x y }
{}

/// Bytes that have a plan have one header for each name of a component, or one reason why there is none.
pub fn headers_are_one()
    ensures { (bytes : List ℕ) (x y : PlannedDescription) (name : List ℕ) → IsPlannedOf bytes x → IsPlannedOf bytes y → header_of x.description name ≡ header_of y.description name }
{}

/// Bytes that are refused are refused by one rule, at one place.
pub fn refusals_are_one()
    ensures { (bytes : List ℕ) (r s : Refusal) → IsPlanRefusalOf bytes (Rule r) → IsPlanRefusalOf bytes (Rule s) → r ≡ s }
{}

/// Bytes that are refused have no plan.
pub fn no_refused_description_has_a_plan()
    ensures { (bytes : List ℕ) (r : Refusal) (x : PlannedDescription) → IsPlanRefusalOf bytes (Rule r) → ¬ IsPlannedOf bytes x }
{}

/// Rule 30 counts what is listed: the plan has as many groups, servers, areas and machines, events, places in queues and points.
pub fn plans_count_what_is_listed()
    ensures { (d : Description) (f : Flat) → is_too_large (plan_of d f) ≡ is_past d f }
{}
