//! What is read before a run: the description and the script.

ghost use Rattle.std.specs.Prelude.{ℕ, List, IfErr, IfOk};
ghost use Rattle.bus_semantics.specs.Plan.{plan_of};
ghost use Rattle.declared_names.specs.Sizes.{AreFew};
ghost use Rattle.description_stages.specs.Plans.{IsPlannedOf};
ghost use Rattle.script_reading.specs.Reading.{IsScript};
ghost use Rattle.commands.specs.Inputs.{AreInputs};
ghost use Rattle.commands.specs.Judging.{IsBadScript, IsNotPlanned, IsNotRun};

use crate::stop::{Finding, Stop};
use bus_semantics::Script;
use description_stages::{PlannedDescription, plan_description};
use rte_text::Refused;
use script_run::{ScriptRead, read_script};
use std::alloc::Global;

/// A description with its plan, and a script over it.
#[derive(Drop)]
pub struct Prepared {
    pub found: PlannedDescription,
    pub script: Script,
}

/// The plan that the bytes of a description stand for: it breaks none of the rules.
pub fn plan_bytes(alloc: Global, bytes: &[u8]) -> Result<PlannedDescription, Stop>
    requires { AreFew bytes.now }
    ensures planned { IfOk result (IsPlannedOf bytes.now) }
    ensures stopped { IfErr result (IsNotPlanned bytes.now) }
{
    match plan_description(alloc, bytes) {
        Ok(found) => Ok(found),
        Err(Refused::Rule(refusal)) => Err(Stop::Found(Finding::Refused(refusal))),
        Err(Refused::Memory) => Err(Stop::Memory),
    }
}

/// The script that the bytes are over the plan.
fn script_over(alloc: Global, found: &PlannedDescription, script: &[u8]) -> Result<Script, Stop>
    requires { (d : List ℕ) × IsPlannedOf d found.now }
    ensures scripted { IfOk result (λ x. IsScript (plan_of found.now.plan) script.now x.lines) }
    ensures stopped { IfErr result (IsBadScript (plan_of found.now.plan) script.now) }
{
    match read_script(alloc, &found.plan, script) {
        ScriptRead::Read(script) => Ok(script),
        ScriptRead::BadLine { line, cause } => Err(Stop::Found(Finding::Script { line, cause })),
        ScriptRead::Memory => Err(Stop::Memory),
    }
}

/// Reads the description and then the script.
pub fn judge(alloc: Global, description: &[u8], script: &[u8]) -> Result<Prepared, Stop>
    requires { AreFew description.now }
    ensures ready { IfOk result (λ x. AreInputs description.now script.now x.found x.script.lines) }
    ensures stopped { IfErr result (IsNotRun description.now script.now) }
{
    let found = match plan_bytes(alloc, description) {
        Ok(found) => found,
        Err(stop) => return Err(stop),
    };
    match script_over(alloc, &found, script) {
        Ok(script) => Ok(Prepared { found, script }),
        Err(stop) => {
            drop(found);
            Err(stop)
        }
    }
}
