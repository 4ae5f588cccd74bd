//! A law of what a run puts.

ghost use Rattle.std.specs.Prelude.{◌≡◌, ℕ, List};
ghost use Rattle.bus_semantics.specs.declared.script.Line.{Line};
ghost use Rattle.bus_semantics.specs.declared.script.Mapping.{Mapping};
ghost use Rattle.bus_semantics.specs.Common.{Plan, IsSound};
ghost use Rattle.trace_reading.specs.declared.checked.Checked.{Checked};
ghost use Rattle.trace_reading.specs.declared.checked.Checked.TheVariants.{Legal};
ghost use Rattle.trace_reading.specs.Verdicts.{IsLegalTrace, IsVerdict};
ghost use Rattle.commands.specs.RunCommand.{IsTextOfRun};

use trace_reading::traces_have_one_verdict;

/// What a run puts is a legal trace of its script, and no other verdict on it is right.
pub fn runs_are_legal_traces()
    ensures legal { (p : Plan) (m : Mapping) (script : List Line) (text : List ℕ) → IsTextOfRun p m script text →
        IsLegalTrace p m script text }
    ensures only { (p : Plan) (m : Mapping) (script : List Line) (text : List ℕ) → IsSound p m
        → IsTextOfRun p m script text → (verdict : Checked) → IsVerdict p m script text verdict → verdict ≡ Legal }
{
    traces_have_one_verdict();
}
