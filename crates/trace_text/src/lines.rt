//! The lines of a trace.

ghost use Rattle.std.specs.Prelude.{◌≡◌, [], true};
ghost use Rattle.bus_semantics.specs.declared.version.Version.{Version};
ghost use Rattle.bus_semantics.specs.declared.entries.Actor.TheVariants.{Env};
ghost use Rattle.bus_semantics.specs.declared.entries.Deed.TheVariants.{Tick};
ghost use Rattle.bus_semantics.specs.Common.{Plan, plan_of, idle, run_begins, unsettled, lists_sound, names_fit, closing_text, entry_text, header, item_text};
ghost use Rattle.trace_text.specs.Appending.{Appends};
ghost use Rattle.trace_text.specs.Short.{IsShort};

use crate::actors::write_actor;
use crate::deeds::write_deed;
use crate::fields::write_text;
use bus_semantics::{BusPlan, Entry, Version};
use rte_text::LineBuf;

/// The first line of a trace of the version.
pub fn header(v: Version) -> &'static [u8]
    ensures { result.now ≡ header v }
{
    match v {
        Version::One => b"rte-trace 1\n",
        Version::Two => b"rte-trace 2\n",
    }
}

/// The line of a tick, which is the same in every version and over every plan.
pub fn tick_line() -> &'static [u8]
    ensures { (v : Version) (p : Plan) → result.now ≡ entry_text v p (record { actor = Env; deed = Tick }) }
{
    b"env tick\n"
}

/// The line with which a run line begins.
pub fn run_line() -> &'static [u8]
    ensures { (v : Version) (p : Plan) → result.now ≡ item_text v p run_begins }
{
    b"run\n"
}

/// The line that closes a run line at rest, with no activation running.
pub fn idle_line() -> &'static [u8]
    ensures { result.now ≡ closing_text idle }
{
    b"idle\n"
}

/// The line that closes a run line within which the entries that may be made were made.
pub fn unsettled_line() -> &'static [u8]
    ensures { result.now ≡ closing_text unsettled }
{
    b"unsettled\n"
}

/// Writes the line of the entry.
fn write_line(p: &BusPlan, e: &Entry, v: Version, out: &mut LineBuf)
    requires { lists_sound (plan_of p.now) ≡ true }
    ensures text { Appends out.old out.new (entry_text v (plan_of p.now) e.now) }
    ensures short { IsShort v (plan_of p.now) e.now.deed }
{
    write_actor(p, e.actor, out);
    write_deed(p, e.actor, &e.deed, v, out);
    write_text(b"\n", out);
}

/// Writes the line of the entry in a trace of the version, its newline included, into an empty line. It takes no memory. The
/// names of the plan have to be short and its coherent lists sound, as a sound plan's are: then every line fits.
pub fn write_entry(p: &BusPlan, e: &Entry, v: Version, out: &mut LineBuf)
    requires names { names_fit (plan_of p.now) ≡ true }
    requires lists { lists_sound (plan_of p.now) ≡ true }
    requires empty { out.old ≡ [] }
    ensures { out.new ≡ entry_text v (plan_of p.now) e.now }
{
    write_line(p, e, v, out);
}
