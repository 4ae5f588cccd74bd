//! The commands for which no node runs.

ghost use Rattle.std.specs.Prelude.{◌≡◌, ◌≢◌, ◌↔◌, List, ℕ, map, string_bytes, true, IfSome, Some, None};
ghost use Rattle.rte_text.specs.Counts.{Rose};
ghost use Rattle.rte_program.specs.Answers.{AnswersUnlessFault, Answers, AreHeld, CutsText, IsOfVerdict, RefusesWords, SaysUnread};
ghost use Rattle.commands.specs.Commands.{ask_to_run, command_of, files_of, Command};
ghost use Rattle.commands.specs.Fetching.{counts_of};
ghost use Rattle.commands.specs.Verdicts.{IsVerdictOn, Verdict};

use crate::carry::carry_out_quietly;
use commands::{Status, command_in, put_text, verdicts_are_one};
use rte_text::{Shelf, Sink};
use std::alloc::Global;

/// Carries out the command that the words give if no node runs for it, and answers words that are no command. `plan C` reads the
/// description C from the shelf and puts its plan; `header C name` puts the header of its component of this name.
/// `check C T S` reads the description C, the trace T and the script S and puts the verdict on the trace. None if the words are another command, `run C S`,
/// `soak N`, `pair C1 C2 S` or `live C`: then nothing was fetched and nothing put.
///
/// Refusals come in this order: the words, the files in the order of the words, the description, by its rules, the script, the trace. Each
/// line is one put.
pub fn rte_quiet<S: Shelf, K: Sink>(
    alloc: Global,
    words: &[String],
    shelf: &mut S,
    out: &mut K,
) -> Option<Status>
    // Another command.
    ensures other { (result ≡ None) ↔ (ask_to_run (map string_bytes words.now) ≡ true) }
    ensures unread { result ≡ None → shelf.new ≡ shelf.old }
    ensures unwritten { result ≡ None → out.new ≡ out.old }

    // What each answer says.
    ensures answers { IfSome result (λ status. IsOfVerdict status
        → Answers (map string_bytes words.now) (S.files shelf.old) status (K.told out.old) (K.told out.new)) }
    ensures words { IfSome result (λ status. status ≡ Status.Words
        → RefusesWords (map string_bytes words.now) (K.told out.old) (K.told out.new)) }
    ensures not_read { IfSome result (λ status. status ≡ Status.NotRead
        → SaysUnread (map string_bytes words.now) (S.files shelf.old) (counts_of (S.faults shelf.old) (S.long_files shelf.old))
        (counts_of (S.faults shelf.new) (S.long_files shelf.new)) (S.fetches shelf.old) (S.fetches shelf.new) (K.told out.old) (K.told out.new)) }
    ensures not_written { IfSome result (λ status. status ≡ Status.NotWritten → Rose (K.faults out.old) (K.faults out.new)) }
    ensures cut { IfSome result (λ status. status ≡ Status.NotWritten
        → CutsText (map string_bytes words.now) (S.files shelf.old) (counts_of (S.faults shelf.old) (S.long_files shelf.old))
        (counts_of (S.faults shelf.new) (S.long_files shelf.new)) (K.told out.old) (K.told out.new)) }
    ensures memory { IfSome result (λ status. status ≡ Status.Memory → K.told out.new ≡ K.told out.old) }

    // Faults have their answers.
    ensures no_write_fault { IfSome result (λ status. status ≢ Status.NotWritten → K.faults out.new ≡ K.faults out.old) }
    ensures no_read_fault { IfSome result (λ status. status ≢ Status.NotRead → status ≢ Status.NotWritten
        → counts_of (S.faults shelf.new) (S.long_files shelf.new) ≡ counts_of (S.faults shelf.old) (S.long_files shelf.old)) }
    ensures files_stay { S.files shelf.new ≡ S.files shelf.old }

    // When the answers come.
    ensures always_words { IfSome result (λ status. command_of (map string_bytes words.now) ≡ None →
        ¬ Rose (K.faults out.old) (K.faults out.new)
        → status ≡ Status.Words) }
    ensures comes { IfSome result (λ status. (command : Command) (files : List (List ℕ)) (verdict : Verdict)
        → command_of (map string_bytes words.now) ≡ Some command → AreHeld (S.files shelf.old) (files_of command) files → IsVerdictOn command files verdict
        → AnswersUnlessFault command files verdict status (K.told out.old) (K.told out.new)
        (S.faults shelf.old) (S.faults shelf.new) (K.faults out.old) (K.faults out.new)) }
{
    verdicts_are_one();
    match command_in(words) {
        Some(command) => carry_out_quietly(alloc, command, shelf, out),
        None => Some(put_text(b"words refused\n", Status::Words, out)),
    }
}
