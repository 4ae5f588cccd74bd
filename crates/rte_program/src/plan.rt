//! The command `plan C`.

ghost use Rattle.std.specs.Prelude.{◌≡◌, ◌≤◌, ◌⊎◌, ◌∷◌, ℕ, List, [], length};
ghost use Rattle.plan_text.specs.Lines.{plan_text};
ghost use Rattle.commands.specs.Carrying.{world, CarriesOut, Ends};
ghost use Rattle.commands.specs.Commands.{plan};
ghost use Rattle.commands.specs.Texts.{IsPut, IsUnsaid};

use commands::{Status, fetch_all, plan_bytes, report};
use description_stages::PlannedDescription;
use plan_text::put_plan;
use rte_text::{Put, Shelf, Sink};
use std::alloc::Global;

/// Puts the plan. If memory runs out, nothing is put.
fn print_plan<K: Sink>(alloc: Global, found: &PlannedDescription, out: &mut K) -> Status
    ensures { IsPut (plan_text found.now.description found.now.flat found.now.plan) Status.Done result
        (K.told out.old) (K.told out.new) (K.faults out.old) (K.faults out.new)
        ⊎ IsUnsaid result (K.told out.old) (K.told out.new) (K.faults out.old) (K.faults out.new) }
{
    match put_plan(alloc, &found.description, &found.flat, &found.plan, out) {
        Ok(Put::Done) => Status::Done,
        Ok(Put::Failed) => Status::NotWritten,
        Err(_) => Status::Memory,
    }
}

/// Puts the plan of the description, from its bytes.
fn plan_file<K: Sink>(alloc: Global, description: &[u8], out: &mut K) -> Status
    requires { length description.now ≤ 8388608 }
    ensures { (d : List ℕ) → CarriesOut (plan d) (description.now ∷ []) result
        (K.told out.old) (K.told out.new) (K.faults out.old) (K.faults out.new) }
{
    match plan_bytes(alloc, description) {
        Ok(found) => {
            let status = print_plan(alloc, &found, out);
            drop(found);
            status
        }
        Err(stop) => report(alloc, &stop, out),
    }
}

/// Carries out `plan C`: reads the description C from the shelf, and puts its plan.
pub fn plan_named<S: Shelf, K: Sink>(
    alloc: Global,
    description: &str,
    shelf: &mut S,
    out: &mut K,
) -> Status
    ensures files_stay { S.files shelf.new ≡ S.files shelf.old }
    ensures ends { Ends (plan description.now) result
        (world (S.files shelf.old) (S.faults shelf.old) (S.long_files shelf.old) (S.fetches shelf.old) (K.told out.old) (K.faults out.old))
        (world (S.files shelf.new) (S.faults shelf.new) (S.long_files shelf.new) (S.fetches shelf.new) (K.told out.new) (K.faults out.new)) }
{
    match fetch_all(alloc, shelf, &[description]) {
        Ok(files) => plan_file(alloc, files[0].as_slice(), out),
        Err(stop) => report(alloc, &stop, out),
    }
}
