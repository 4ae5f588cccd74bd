//! The command `soak N`.

ghost use Rattle.std.specs.Prelude.{◌≡◌, ◌⊎◌, ◌++◌, ◌+◌, ◌≤◌, ℕ, [], decimal, length, IfErr, IfOk};
ghost use Rattle.bus_semantics.specs.Plan.{plan_of};
ghost use Rattle.commands.specs.Carrying.{CarriesOut};
ghost use Rattle.commands.specs.Commands.{soak};
ghost use Rattle.commands.specs.SoakCommand.{summary_text, IsSoaked};

use crate::run::run_prepared;
use commands::{Prepared, Status, Stop, judge, put_text};
use rte_text::{Gate, LineBuf, Sink};
use soak_maker::{make_soak, soaks_break_no_rule};
use std::alloc::Global;
use std::thread::Threads;
use trace_counts::{CountingSink, Numbers, texts_have_the_numbers_of_their_session};

/// The description of so many pairs with its plan, and the script over it. Nothing but want of memory stops it: the description breaks no
/// rule, and the script is one.
fn prepare_soak(alloc: Global, pairs: u32) -> Result<Prepared, Stop>
    requires least { 1 ≤ pairs }
    requires most { pairs ≤ 64 }
    ensures ready { IfOk result (λ x. IsSoaked pairs x.found x.script.lines) }
    ensures memory { IfErr result (λ why. why ≡ Stop.Memory) }
{
    soaks_break_no_rule();
    match make_soak(alloc, pairs) {
        Ok(soak) => judge(alloc, soak.description.as_slice(), soak.script.as_slice()),
        Err(_) => Err(Stop::Memory),
    }
}

/// Writes a number behind its name.
fn write_number(line: &mut LineBuf, name: &[u8], number: u32)
    requires room { length line.old + length name.now ≤ 2000 }
    ensures line { line.new ≡ line.old ++ name.now ++ decimal number }
    ensures longer { length line.new ≤ length line.old + length name.now + 20 }
{
    line.text(name);
    line.number(i64::from(number));
}

/// Writes the numbers of a run into an empty line: a line for each.
fn write_summary(pairs: u32, numbers: &Numbers, line: &mut LineBuf)
    requires empty { line.old ≡ [] }
    requires pairs { pairs ≤ 64 }
    ensures { line.new ≡ summary_text pairs numbers.now }
{
    write_number(line, b"soak ", pairs);
    write_number(line, b"\ninstances ", 2 * pairs + 1);
    write_number(line, b"\nruns ", numbers.runs);
    write_number(line, b"\nidle ", numbers.idle);
    write_number(line, b"\nsends ", numbers.sends);
    write_number(line, b"\ntaken ", numbers.taken);
    write_number(line, b"\nlimits ", numbers.limits);
    write_number(line, b"\nasks ", numbers.asks);
    write_number(line, b"\nanswers ", numbers.answers);
    line.text(b"\n");
}

/// Carries out `soak N`: runs the script of so many pairs on the bus of their description, and puts the numbers of the run alone, in one
/// put. If there is no memory, nothing is put.
pub fn soak_named<R: Threads + Sync, K: Sink, G: Gate>(
    rt: &R,
    alloc: Global,
    pairs: u32,
    out: &mut K,
    gate: &G,
) -> Status
    requires least { 1 ≤ pairs }
    requires most { pairs ≤ 64 }
    ensures { CarriesOut (soak pairs) [] result (K.told out.old) (K.told out.new) (K.faults out.old) (K.faults out.new) }
{
    texts_have_the_numbers_of_their_session();
    let prepared = match prepare_soak(alloc, pairs) {
        Ok(prepared) => prepared,
        Err(_) => return Status::Memory,
    };
    let mut counting = CountingSink::new();
    match run_prepared(rt, alloc, prepared, &mut counting, gate) {
        Status::Done => {
            let mut line = LineBuf::new();
            write_summary(pairs, &counting.numbers(), &mut line);
            put_text(line.bytes(), Status::Done, out)
        }
        Status::Memory => Status::Memory,
        // The counting sink never fails.
        _ => unreachable!(),
    }
}
