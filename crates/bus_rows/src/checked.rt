//! Worked rows of the check.

ghost use Rattle.std.specs.Prelude.{List, ℕ, []};
ghost use Rattle.trace_reading.specs.declared.checked.Checked.TheVariants.{Legal, BadLine, Illegal};
ghost use Rattle.trace_reading.specs.Verdicts.{IsVerdict};
ghost use Rattle.bus_rows.specs.OneWriter.{one_writer, one_task, ten_ticks_and_run, written_then_read_text};
ghost use Rattle.bus_rows.specs.ModeSwitch.{one_machine, three_cores, switch_and_run, switched_text, switched_text_by_names};
ghost use Rattle.bus_rows.specs.Traces.{by_names, cut_before_look, cut_in_word, eight_written, eleven_ticks, idle_before_look, idle_first, run_first, six_read_text, no_such_version};
ghost use Rattle.bus_rows.specs.Traces.{phases_exchanged, phases_exchanged_by_names, cut_in_phase};

use crate::rows::{mode_switch_on_three_cores, ten_ticks_write_then_read};
use trace_reading::items_have_one_line;

/// Ten ticks, then a write and a read: the trace is legal, in both versions. Refused are another value written (the program), another
/// value read (unqueued data), `idle` before the reader has started, the end of the trace there, and a line that is cut.
pub fn ten_ticks_checked()
    ensures legal { IsVerdict one_writer one_task ten_ticks_and_run written_then_read_text Legal }
    ensures named { IsVerdict one_writer one_task ten_ticks_and_run by_names Legal }
    ensures program { (more : List ℕ) → IsVerdict one_writer one_task ten_ticks_and_run (eight_written more) (Illegal 14 6) }
    ensures answer { (more : List ℕ) → IsVerdict one_writer one_task ten_ticks_and_run (six_read_text more) (Illegal 17 7) }
    ensures early { (more : List ℕ) → IsVerdict one_writer one_task ten_ticks_and_run (idle_before_look more) (Illegal 16 15) }
    ensures ended { IsVerdict one_writer one_task ten_ticks_and_run cut_before_look (Illegal 16 16) }
    ensures cut { IsVerdict one_writer one_task ten_ticks_and_run cut_in_word (BadLine 16) }
{
    ten_ticks_write_then_read();
    items_have_one_line();
}

/// An empty trace has no header, and another first line than a header is bad. A closing word stands inside run lines alone, and a tick
/// or a run mark is the script's next.
pub fn traces_of_nothing()
    ensures empty { IsVerdict one_writer one_task ten_ticks_and_run [] (Illegal 1 16) }
    ensures version { (more : List ℕ) → IsVerdict one_writer one_task ten_ticks_and_run (no_such_version more) (BadLine 1) }
    ensures outside { (more : List ℕ) → IsVerdict one_writer one_task ten_ticks_and_run (idle_first more) (Illegal 2 15) }
    ensures run { (more : List ℕ) → IsVerdict one_writer one_task ten_ticks_and_run (run_first more) (Illegal 2 16) }
    ensures tick { (more : List ℕ) → IsVerdict one_writer one_task ten_ticks_and_run (eleven_ticks more) (Illegal 12 16) }
{
    ten_ticks_write_then_read();
}

/// A mode switch on three cores: the trace is legal, in both versions. Two phases that are exchanged are refused at the first of them
/// (modes), and so is a line that is cut.
pub fn mode_switch_checked()
    ensures legal { IsVerdict one_machine three_cores switch_and_run switched_text Legal }
    ensures named { IsVerdict one_machine three_cores switch_and_run switched_text_by_names Legal }
    ensures exchanged { (more : List ℕ) → IsVerdict one_machine three_cores switch_and_run (phases_exchanged more) (Illegal 23 11) }
    ensures exchanged_by_names { (more : List ℕ) → IsVerdict one_machine three_cores switch_and_run (phases_exchanged_by_names more) (Illegal 23 11) }
    ensures cut { IsVerdict one_machine three_cores switch_and_run cut_in_phase (BadLine 20) }
{
    mode_switch_on_three_cores();
    items_have_one_line();
}
