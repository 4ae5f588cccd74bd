//! Carrying out a command.

ghost use Rattle.std.specs.Prelude.{◌≡◌, ◌↔◌, true, IfSome, None};
ghost use Rattle.commands.specs.Carrying.{world, Ends};
ghost use Rattle.commands.specs.Commands.{meant, runs, IsWell};

use crate::check::check_named;
use crate::header::header_named;
use crate::live::live_named;
use crate::pair::pair_named;
use crate::plan::plan_named;
use crate::run::run_named;
use crate::soak::soak_named;
use commands::{Command, Status};
use rte_text::{Gate, Shelf, Sink};
use std::alloc::Global;
use std::sync::Wait;
use std::thread::Threads;

/// Carries out the command: reads its files from the shelf, and puts what they come to.
pub fn carry_out<R: Threads + Wait + Sync, S: Shelf, K: Sink, G: Gate>(
    rt: &R,
    alloc: Global,
    command: Command<'_>,
    shelf: &mut S,
    out: &mut K,
    gate: &G,
) -> Status
    requires { IsWell (meant command) }
    ensures files_stay { S.files shelf.new ≡ S.files shelf.old }
    ensures ends { Ends (meant command.entry) result
        (world (S.files shelf.old) (S.faults shelf.old) (S.long_files shelf.old) (S.fetches shelf.old) (K.told out.old) (K.faults out.old))
        (world (S.files shelf.new) (S.faults shelf.new) (S.long_files shelf.new) (S.fetches shelf.new) (K.told out.new) (K.faults out.new)) }
{
    match command {
        Command::Run {
            description,
            script,
        } => run_named(rt, alloc, description, script, shelf, out, gate),
        Command::Plan { description } => plan_named(alloc, description, shelf, out),
        Command::Header { description, name } => header_named(alloc, description, name, shelf, out),
        Command::Soak { pairs } => soak_named(rt, alloc, pairs, out, gate),
        Command::Check {
            description,
            trace,
            script,
        } => check_named(alloc, description, trace, script, shelf, out),
        Command::Pair { one, two, script } => {
            pair_named(rt, alloc, one, two, script, shelf, out, gate)
        }
        Command::Live { description } => live_named(rt, alloc, description, shelf, out, gate),
    }
}

/// Carries out the command if no node runs for it. None if one does: then nothing was fetched and nothing put.
pub fn carry_out_quietly<S: Shelf, K: Sink>(
    alloc: Global,
    command: Command<'_>,
    shelf: &mut S,
    out: &mut K,
) -> Option<Status>
    ensures other { (result ≡ None) ↔ (runs (meant command.entry) ≡ true) }
    ensures unread { result ≡ None → shelf.new ≡ shelf.old }
    ensures unwritten { result ≡ None → out.new ≡ out.old }
    ensures files_stay { S.files shelf.new ≡ S.files shelf.old }
    ensures ends { IfSome result (λ status. Ends (meant command.entry) status
        (world (S.files shelf.old) (S.faults shelf.old) (S.long_files shelf.old) (S.fetches shelf.old) (K.told out.old) (K.faults out.old))
        (world (S.files shelf.new) (S.faults shelf.new) (S.long_files shelf.new) (S.fetches shelf.new) (K.told out.new) (K.faults out.new))) }
{
    match command {
        Command::Run { .. } => None,
        Command::Plan { description } => Some(plan_named(alloc, description, shelf, out)),
        Command::Header { description, name } => {
            Some(header_named(alloc, description, name, shelf, out))
        }
        Command::Soak { .. } => None,
        Command::Check {
            description,
            trace,
            script,
        } => Some(check_named(alloc, description, trace, script, shelf, out)),
        Command::Pair { .. } => None,
        Command::Live { .. } => None,
    }
}
