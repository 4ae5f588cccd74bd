//! A command whose output is gathered.

ghost use Rattle.std.specs.Prelude.{◌≡◌, ◌≢◌, []};
ghost use Rattle.rte_text.specs.Counts.{Rose};

use gathered_output::GatheringSink;
use rte_program::{Status, rte_top};
use rte_text::{Gate, Put, Shelf};
use std::alloc::Global;
use std::io::Write;
use std::sync::Wait;
use std::thread::Threads;

/// Carries out the command, and writes all that it put. What could not be written at the end was not written: then, as when a put
/// fails, the status is `NotWritten`. That status comes only if the writer had a fault, any other only if nothing is left to be
/// written and it had none.
pub fn run_gathered<R: Threads + Wait + Sync, S: Shelf, W: Write + Drop, G: Gate>(
    rt: &R,
    alloc: Global,
    words: &[String],
    shelf: &mut S,
    out: &mut GatheringSink<W>,
    gate: &G,
) -> Status
    ensures whole { result ≢ Status.NotWritten → out.new.left ≡ [] }
    ensures no_fault { result ≢ Status.NotWritten → out.new.faults ≡ out.old.faults }
    ensures fault { result ≡ Status.NotWritten → Rose out.old.faults out.new.faults }
{
    let status = rte_top(rt, alloc, words, shelf, out, gate);
    match out.finish() {
        Put::Done => status,
        Put::Failed => Status::NotWritten,
    }
}
