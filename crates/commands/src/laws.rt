//! A law of verdicts.

ghost use Rattle.std.specs.Prelude.{◌≡◌, ℕ, List};
ghost use Rattle.commands.specs.Commands.{Command};
ghost use Rattle.commands.specs.Verdicts.{IsVerdictOn, Verdict};

use description_stages::{
    headers_are_one, no_refused_description_has_a_plan, plans_are_one, refusals_are_one,
};
use trace_reading::traces_have_one_verdict;

/// Of a command there is at most one verdict on the same files. So the clauses of `rte_top` may speak of any verdict that someone
/// finds: it is the one that the program finds.
pub fn verdicts_are_one()
    ensures { (command : Command) (files : List (List ℕ)) (v w : Verdict) → IsVerdictOn command files v →
        IsVerdictOn command files w → v ≡ w }
{
    plans_are_one();
    headers_are_one();
    refusals_are_one();
    no_refused_description_has_a_plan();
    traces_have_one_verdict();
}
