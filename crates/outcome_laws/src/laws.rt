//! The laws.

ghost use Rattle.std.specs.Prelude.{◌≤◌, ◌⊎◌, ℕ, List, Bool, length};
ghost use Rattle.bus_semantics.specs.declared.script.Line.{Line};
ghost use Rattle.bus_semantics.specs.declared.script.Mapping.{Mapping};
ghost use Rattle.bus_semantics.specs.Plan.{Plan};
ghost use Rattle.script_reading.specs.Common.{saying, saying_around};
ghost use Rattle.outcome_laws.specs.Outcomes.{HasBadLine, HasPlan, HasRefusal, HasScript, HasVerdict};

use crate::flat::descriptions_are_made_flat_or_refused;
use description_stages::{plans_are_sound, read_descriptions_are_well_formed};
use trace_reading::accepted_items_go_on;

/// The bytes of a file have a plan or are refused by a rule. A file has at most 8 MiB. With the laws of `description_stages` they have exactly one of
/// these.
pub fn bytes_have_a_plan_or_a_refusal()
    ensures { (bytes : List ℕ) → length bytes ≤ 8388608 → HasPlan bytes ⊎ HasRefusal bytes }
{
    read_descriptions_are_well_formed();
    descriptions_are_made_flat_or_refused();
    plans_are_sound();
}

/// Over any plan, bytes are a script or have a first bad line, with its cause; and so are they if elements are reserved.
pub fn bytes_are_a_script_or_have_a_bad_line()
    ensures over_plans { (p : Plan) (bytes : List ℕ) → HasScript (saying p) bytes ⊎ HasBadLine (saying p) bytes }
    ensures around { (p : Plan) (reserved : List Bool) (bytes : List ℕ)
        → HasScript (saying_around p reserved) bytes ⊎ HasBadLine (saying_around p reserved) bytes }
{}

/// No trace is without a verdict, whatever the plan and the script. That one is missing is refuted; which one it is the check
/// finds. No verdict is constructed, since no law decides whether `idle` holds.
pub fn no_trace_is_without_a_verdict()
    ensures { (p : Plan) (m : Mapping) (script : List Line) (trace : List ℕ) → ¬ (¬ HasVerdict p m script trace) }
{
    accepted_items_go_on();
}
