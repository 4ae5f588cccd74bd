//! The command `header C name`.

ghost use Rattle.std.specs.Prelude.{◌≡◌, ◌≤◌, ◌∷◌, ℕ, List, [], length, IfErr, IfOk};
ghost use Rattle.description_stages.specs.Plans.{IsPlannedOf};
ghost use Rattle.commands.specs.Carrying.{world, CarriesOut, Ends};
ghost use Rattle.commands.specs.Commands.{header};
ghost use Rattle.commands.specs.HeaderCommand.{IsHeaderFinding, SaysHeader};
ghost use Rattle.commands.specs.Judging.{IsFound};

use commands::{Finding, Status, Stop, fetch_all, plan_bytes, put_text, report};
use description_stages::PlannedDescription;
use plan_text::{HeaderMade, header};
use rte_text::{Shelf, Sink};
use std::alloc::Global;

/// The header of the component of this name of the description.
fn header_over(alloc: Global, found: &PlannedDescription, name: &str) -> Result<Vec<u8>, Stop>
    ensures made { IfOk result (λ text. (d : List ℕ) → IsPlannedOf d found.now → SaysHeader d name.now text.items) }
    ensures stopped { IfErr result (λ why. (d : List ℕ) → IsPlannedOf d found.now → IsFound (IsHeaderFinding d name.now) why) }
{
    match header(alloc, &found.description, name) {
        HeaderMade::Made(text) => Ok(text),
        HeaderMade::NoComponent => Err(Stop::Found(Finding::NoComponent)),
        HeaderMade::Clash(name) => Err(Stop::Found(Finding::Clash(name))),
        HeaderMade::Memory => Err(Stop::Memory),
    }
}

/// Judges the description, and makes the header.
fn judge_header(alloc: Global, description: &[u8], name: &str) -> Result<Vec<u8>, Stop>
    requires { length description.now ≤ 8388608 }
    ensures made { IfOk result (λ text. SaysHeader description.now name.now text.items) }
    ensures stopped { IfErr result (IsFound (IsHeaderFinding description.now name.now)) }
{
    match plan_bytes(alloc, description) {
        Ok(found) => {
            let answer = header_over(alloc, &found, name);
            drop(found);
            answer
        }
        Err(stop) => Err(stop),
    }
}

/// Puts the header of the component of this name, from the bytes of the description.
fn header_file<K: Sink>(alloc: Global, description: &[u8], name: &str, out: &mut K) -> Status
    requires { length description.now ≤ 8388608 }
    ensures { (d : List ℕ) → CarriesOut (header d name.now) (description.now ∷ []) result
        (K.told out.old) (K.told out.new) (K.faults out.old) (K.faults out.new) }
{
    match judge_header(alloc, description, name) {
        Ok(text) => put_text(text.as_slice(), Status::Done, out),
        Err(stop) => report(alloc, &stop, out),
    }
}

/// Carries out `header C name`: reads the description C from the shelf, and puts the header of its component of this name.
pub fn header_named<S: Shelf, K: Sink>(
    alloc: Global,
    description: &str,
    name: &str,
    shelf: &mut S,
    out: &mut K,
) -> Status
    ensures files_stay { S.files shelf.new ≡ S.files shelf.old }
    ensures ends { Ends (header description.now name.now) result
        (world (S.files shelf.old) (S.faults shelf.old) (S.long_files shelf.old) (S.fetches shelf.old) (K.told out.old) (K.faults out.old))
        (world (S.files shelf.new) (S.faults shelf.new) (S.long_files shelf.new) (S.fetches shelf.new) (K.told out.new) (K.faults out.new)) }
{
    match fetch_all(alloc, shelf, &[description]) {
        Ok(files) => header_file(alloc, files[0].as_slice(), name, out),
        Err(stop) => report(alloc, &stop, out),
    }
}
