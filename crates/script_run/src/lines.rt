//! Lines of the trace, each put at once.

ghost use Rattle.std.specs.Prelude.{◌≡◌, true};
ghost use Rattle.bus_semantics.specs.Common.{list_all, plan_of, IsSound, entry_text};
ghost use Rattle.rte_text.specs.Sinks.{SinkFaultsAfter, ToldAfter};
ghost use Rattle.bus_semantics.specs.declared.script.Mapping.{Mapping};
ghost use Rattle.script_run.specs.Sizes.{is_sized_entry, is_sized_stamped};
ghost use Rattle.script_run.specs.Standing.{came_of};
ghost use Rattle.script_run.specs.Texts.{behind, entries_text};

use crate::script::ScriptRun;
use crate::sizes::{entries_are_sized, entry_is_sized};
use crate::writing::{Writing, put_behind};
use bus_semantics::{BusPlan, Entry, Stamped};
use rte_text::{LineBuf, Put, Sink};
use trace_text::write_entry;

/// What came of a run whose last put answered so.
pub(crate) fn came_of(put: Put) -> ScriptRun
    ensures { result ≡ came_of put }
{
    match put {
        Put::Done => ScriptRun::Finished,
        Put::Failed => ScriptRun::Failed,
    }
}

/// Puts the line of an entry. `line` is only room for it.
pub fn put_entry<K: Sink>(
    p: &BusPlan,
    e: &Entry,
    w: Writing,
    out: &mut K,
    line: &mut LineBuf,
) -> Put
    requires { (m : Mapping) × IsSound (plan_of p.now) m }
    ensures told { ToldAfter result (K.told out.old) (K.told out.new) (behind w (entry_text w.version (plan_of p.now) e.now)) }
    ensures faults { SinkFaultsAfter result (K.faults out.old) (K.faults out.new) }
    ensures sized { is_sized_entry e.now ≡ true }
{
    entry_is_sized(e);
    line.clear();
    write_entry(p, e, w.version, line);
    put_behind(out, w.prefix, line.bytes())
}

/// Puts the lines of entries, in order, up to the first put that fails.
pub(crate) fn put_entries<K: Sink>(
    p: &BusPlan,
    entries: &[Stamped],
    w: Writing,
    out: &mut K,
    line: &mut LineBuf,
) -> Put
    requires { (m : Mapping) × IsSound (plan_of p.now) m }
    ensures told { ToldAfter result (K.told out.old) (K.told out.new) (entries_text w (plan_of p.now) entries.now) }
    ensures faults { SinkFaultsAfter result (K.faults out.old) (K.faults out.new) }
    ensures sized { list_all is_sized_stamped entries.now ≡ true }
{
    entries_are_sized(entries);
    for stamped in entries {
        match put_entry(p, &stamped.entry, w, out, line) {
            Put::Done => {}
            Put::Failed => return Put::Failed,
        }
    }
    Put::Done
}
