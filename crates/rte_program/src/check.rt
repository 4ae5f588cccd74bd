//! The command `check C T S`.

ghost use Rattle.std.specs.Prelude.{◌≡◌, ◌≤◌, ◌∷◌, ℕ, List, [], length, IfErr, OnOk};
ghost use Rattle.trace_reading.specs.declared.checked.Checked.TheVariants.{Legal};
ghost use Rattle.bus_semantics.specs.Plan.{plan_of};
ghost use Rattle.trace_reading.specs.Verdicts.{IsVerdict};
ghost use Rattle.commands.specs.Carrying.{world, CarriesOut, Ends};
ghost use Rattle.commands.specs.Inputs.{AreInputs};
ghost use Rattle.commands.specs.CheckCommand.{IsCheckedAs};
ghost use Rattle.commands.specs.Commands.{check};
ghost use Rattle.commands.specs.Judging.{IsNotLegal, IsRefusedTrace};

use commands::{Finding, Prepared, Status, Stop, fetch_all, judge, put_text, report};
use rte_text::{Shelf, Sink};
use std::alloc::Global;
use trace_check::check_trace;
use trace_reading::{Checked, items_have_one_line};

/// Checks the trace as that of a run of the script. Ok if it is legal.
fn check_over(alloc: Global, prepared: &Prepared, trace: &[u8]) -> Result<(), Stop>
    requires { (d s : List ℕ) × AreInputs d s prepared.now.found prepared.now.script.lines }
    ensures legal { OnOk result (IsVerdict
        (plan_of prepared.now.found.plan) prepared.now.found.mapping prepared.now.script.lines trace.now Legal) }
    ensures stopped { IfErr result (IsRefusedTrace
        (plan_of prepared.now.found.plan) prepared.now.found.mapping prepared.now.script.lines trace.now) }
{
    let found = &prepared.found;
    match check_trace(alloc, &found.plan, &found.mapping, &prepared.script, trace) {
        Ok(Checked::Legal) => Ok(()),
        Ok(checked) => Err(Stop::Found(Finding::Trace(checked))),
        Err(_) => Err(Stop::Memory),
    }
}

/// Judges the description, the script, and then the trace as that of a run of the script on the bus of the description. Ok if it is legal.
fn judge_trace(alloc: Global, description: &[u8], trace: &[u8], script: &[u8]) -> Result<(), Stop>
    requires { length description.now ≤ 8388608 }
    ensures legal { OnOk result (IsCheckedAs description.now trace.now script.now Legal) }
    ensures stopped { IfErr result (IsNotLegal description.now trace.now script.now) }
{
    match judge(alloc, description, script) {
        Ok(prepared) => {
            let answer = check_over(alloc, &prepared, trace);
            drop(prepared);
            answer
        }
        Err(stop) => Err(stop),
    }
}

/// Checks the trace, from the bytes of the three files, and puts the verdict.
fn check_files<K: Sink>(
    alloc: Global,
    description: &[u8],
    trace: &[u8],
    script: &[u8],
    out: &mut K,
) -> Status
    requires description { length description.now ≤ 8388608 }
    requires trace { length trace.now ≤ 8388608 }
    requires script { length script.now ≤ 8388608 }
    ensures { (d t s : List ℕ) → CarriesOut (check d t s) (description.now ∷ trace.now ∷ script.now ∷ []) result
        (K.told out.old) (K.told out.new) (K.faults out.old) (K.faults out.new) }
{
    items_have_one_line();
    match judge_trace(alloc, description, trace, script) {
        Ok(()) => put_text(b"legal\n", Status::Done, out),
        Err(stop) => report(alloc, &stop, out),
    }
}

/// Carries out `check C T S`: reads the description C, the trace T and the script S from the shelf, and puts the verdict on the trace.
pub fn check_named<S: Shelf, K: Sink>(
    alloc: Global,
    description: &str,
    trace: &str,
    script: &str,
    shelf: &mut S,
    out: &mut K,
) -> Status
    ensures files_stay { S.files shelf.new ≡ S.files shelf.old }
    ensures ends { Ends (check description.now trace.now script.now) result
        (world (S.files shelf.old) (S.faults shelf.old) (S.long_files shelf.old) (S.fetches shelf.old) (K.told out.old) (K.faults out.old))
        (world (S.files shelf.new) (S.faults shelf.new) (S.long_files shelf.new) (S.fetches shelf.new) (K.told out.new) (K.faults out.new)) }
{
    match fetch_all(alloc, shelf, &[description, trace, script]) {
        Ok(files) => check_files(
            alloc,
            files[0].as_slice(),
            files[1].as_slice(),
            files[2].as_slice(),
            out,
        ),
        Err(stop) => report(alloc, &stop, out),
    }
}
