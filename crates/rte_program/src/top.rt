//! The top call.

ghost use Rattle.std.specs.Prelude.{◌≡◌, ◌≢◌, ℕ, List, map, string_bytes, Some, None};
ghost use Rattle.rte_text.specs.Counts.{Rose};
ghost use Rattle.rte_program.specs.Answers.{Answers, AnswersUnlessFault, AreHeld, CutsText, EndsForMemory, IsOfVerdict, RefusesWords, SaysUnread};
ghost use Rattle.commands.specs.Commands.{command_of, files_of, Command};
ghost use Rattle.commands.specs.Fetching.{counts_of};
ghost use Rattle.commands.specs.Verdicts.{IsVerdictOn, Verdict};

use crate::carry::carry_out;
use commands::{Status, command_in, put_text, verdicts_are_one};
use rte_text::{Gate, Shelf, Sink};
use std::alloc::Global;
use std::sync::Wait;
use std::thread::Threads;

/// Carries out the command that the words give. `run C S` reads the description C and the script S from the shelf,
/// runs the script on the bus of the description, and puts the trace, in version two. `plan C` reads the
/// description C and puts its plan. `soak N`, with N from 1 to 64, makes a description of N pairs of a producer and a consumer, which all
/// call one server, and a script that ticks and runs twenty times; it runs this script and puts the numbers of the run alone.
///
/// `header C name` reads the description C and puts the header of its component of this name: the calls that its code may use.
///
/// `check C T S` reads the description C, the trace T and the script S, and puts the verdict on the trace: `legal`, or the first line that
/// is refused, with the clause that it breaks.
///
/// `pair C1 C2 S` reads the descriptions C1 and C2 and the script S, runs the script on a node of each, and puts the traces of both. What the first
/// node sends on its outer queued ports goes over a link of bytes into the outer ports of the second.
///
/// `live C` reads the description C, of at most 7 cores, and then the stimuli, which are the file `-`. It runs the cores of a node while the
/// stimuli of up to four feeds arrive, each in its order. When all have come it puts what was made, and then runs the node to rest and puts that.
///
/// Refusals come in this order: the words, the files in the order of the words, the description, by its rules, the script, the trace. Of two
/// descriptions the first is judged first; without an element that is linked the script is not judged, and with 8 cores no stimuli are.
/// Every description that breaks none of the rules is run. Before the run nothing is put but a refusal's text. Each line is
/// one put, but for the numbers of `soak N`, which are one put in all, for the lines of `pair C1 C2 S`, which are two each, and for the calls of
/// the environment in what `live C` puts, which are two. Only `live C` may wait for what is outside the call, its threads for each other.
pub fn rte_top<R: Threads + Wait + Sync, S: Shelf, K: Sink, G: Gate>(
    rt: &R,
    alloc: Global,
    words: &[String],
    shelf: &mut S,
    out: &mut K,
    gate: &G,
) -> Status
    // What each answer says. The headline is `answers`, of `run C S` with status 0.
    ensures answers { IsOfVerdict result
        → Answers (map string_bytes words.now) (S.files shelf.old) result (K.told out.old) (K.told out.new) }
    ensures words { result ≡ Status.Words → RefusesWords (map string_bytes words.now) (K.told out.old) (K.told out.new) }
    ensures not_read { result ≡ Status.NotRead
        → SaysUnread (map string_bytes words.now) (S.files shelf.old) (counts_of (S.faults shelf.old) (S.long_files shelf.old))
        (counts_of (S.faults shelf.new) (S.long_files shelf.new)) (S.fetches shelf.old) (S.fetches shelf.new) (K.told out.old) (K.told out.new) }
    ensures not_written { result ≡ Status.NotWritten → Rose (K.faults out.old) (K.faults out.new) }
    ensures cut { result ≡ Status.NotWritten
        → CutsText (map string_bytes words.now) (S.files shelf.old) (counts_of (S.faults shelf.old) (S.long_files shelf.old))
        (counts_of (S.faults shelf.new) (S.long_files shelf.new)) (K.told out.old) (K.told out.new) }
    ensures memory { result ≡ Status.Memory
        → EndsForMemory (map string_bytes words.now) (S.files shelf.old) (K.told out.old) (K.told out.new) }

    // Faults have their answers.
    ensures no_write_fault { result ≢ Status.NotWritten → K.faults out.new ≡ K.faults out.old }
    ensures no_read_fault { result ≢ Status.NotRead → result ≢ Status.NotWritten
        → counts_of (S.faults shelf.new) (S.long_files shelf.new) ≡ counts_of (S.faults shelf.old) (S.long_files shelf.old) }
    ensures files_stay { S.files shelf.new ≡ S.files shelf.old }

    // When the answers come.
    ensures always_words { command_of (map string_bytes words.now) ≡ None → ¬ Rose (K.faults out.old) (K.faults out.new) →
        result ≡ Status.Words }
    ensures comes { (command : Command) (files : List (List ℕ)) (verdict : Verdict)
        → command_of (map string_bytes words.now) ≡ Some command → AreHeld (S.files shelf.old) (files_of command) files → IsVerdictOn command files verdict
        → AnswersUnlessFault command files verdict result (K.told out.old) (K.told out.new)
        (S.faults shelf.old) (S.faults shelf.new) (K.faults out.old) (K.faults out.new) }
{
    verdicts_are_one();
    match command_in(words) {
        Some(command) => carry_out(rt, alloc, command, shelf, out, gate),
        None => put_text(b"words refused\n", Status::Words, out),
    }
}
