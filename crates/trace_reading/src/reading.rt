//! A line, read back.

ghost use Rattle.std.specs.Prelude.{◌≡◌, ◌&&◌, ◌-◌, ◌++◌, IfOk, IfSome, bytes_eq, length, take, true};
ghost use Rattle.bus_semantics.specs.Common.{fits, plan_of, item_fits, made, entry_text};
ghost use Rattle.trace_reading.specs.Readable.{IsReadable};
ghost use Rattle.trace_reading.specs.Reads.{BeginsWith, Reads, ReadsEntry};

use crate::comparing::same_bytes;
use crate::entries::fits;
use crate::guess::guess;
use crate::names::Names;
use crate::sizes::{actor_is_sized, is_sized};
use crate::tables::Tables;
use bus_semantics::{BusPlan, Entry, Version};
use rte_text::{LineBuf, Memory};
use std::alloc::Global;
use trace_text::{idle_line, run_line, unsettled_line, write_entry};

/// What a line of a trace is read as.
#[derive(Clone, Copy)]
pub enum LineRead {
    /// The line of this entry, which fits the plan.
    Entry(Entry),
    /// The line with which a run line begins.
    Run,
    /// The line that closes a run line at rest.
    Idle,
    /// The line that closes a run line within which the entries that may be made were made.
    Unsettled,
    /// No line that an item of a trace of this version has.
    BadLine,
}

/// All but the last byte.
fn without_last(line: &[u8]) -> &[u8]
    ensures { result.now ≡ take (length line.now - 1) line.now }
{
    if line.is_empty() {
        line
    } else {
        &line[..line.len() - 1]
    }
}

/// Whether the line is the entry's. `out` is for its text.
fn is_line_of(p: &BusPlan, v: Version, e: &Entry, line: &[u8], out: &mut LineBuf) -> bool
    requires { IsReadable (plan_of p.now) }
    ensures { result ≡ bytes_eq (entry_text v (plan_of p.now) e.now) line.now }
{
    out.clear();
    write_entry(p, e, v, out);
    out.bytes() == line
}

/// Whether the entry fits the plan and has this line. `out` is for its text.
fn is_read_as(p: &BusPlan, v: Version, e: &Entry, line: &[u8], out: &mut LineBuf) -> bool
    requires { IsReadable (plan_of p.now) }
    ensures { result ≡ (item_fits (plan_of p.now) (made e.now) && bytes_eq (entry_text v (plan_of p.now) e.now) line.now) }
{
    actor_is_sized(e.actor);
    fits(p, e) && is_sized(&e.deed) && is_line_of(p, v, e, line, out)
}

/// What stands behind this start of the text, if it has it.
pub fn behind<'t>(text: &'t [u8], start: &[u8]) -> Option<&'t [u8]>
    ensures { IfSome result (λ more. text.now ≡ start.now ++ more.now) }
{
    let long = start.len();
    if text.len() < long {
        return None;
    }
    if same_bytes(&text[..long], start) {
        Some(&text[long..])
    } else {
        None
    }
}

/// What stands behind the line of the entry, if the text begins with it. The entry fits the plan, which is readable, as every sound plan
/// is. `out` holds the text that is compared, and what stands in it before and after means nothing. It takes no memory.
pub fn behind_line_of<'t>(
    p: &BusPlan,
    v: Version,
    e: &Entry,
    text: &'t [u8],
    out: &mut LineBuf,
) -> Option<&'t [u8]>
    requires readable { IsReadable (plan_of p.now) }
    requires fits { fits (plan_of p.now) e.now ≡ true }
    ensures begins { IfSome result (λ more. BeginsWith v (plan_of p.now) text.now e.now more.now) }
{
    actor_is_sized(e.actor);
    if !is_sized(&e.deed) {
        return None;
    }
    out.clear();
    write_entry(p, e, v, out);
    behind(text, out.bytes())
}

/// The entry whose line it is, if there is one. `out` is for its text.
fn read_made(names: &Names, v: Version, line: &[u8], out: &mut LineBuf) -> Option<Entry>
    requires { IsReadable (plan_of names.now.plan.now) }
    ensures { ReadsEntry v (plan_of names.now.plan.now) line.now result }
{
    match guess(names, v, without_last(line)) {
        Some(e) => {
            if is_read_as(names.plan, v, &e, line, out) {
                Some(e)
            } else {
                None
            }
        }
        None => None,
    }
}

/// What the line is read as. `out` is for the text of an entry.
fn read_by(names: &Names, v: Version, line: &[u8], out: &mut LineBuf) -> LineRead
    requires { IsReadable (plan_of names.now.plan.now) }
    ensures { Reads v (plan_of names.now.plan.now) line.now result }
{
    if line == run_line() {
        return LineRead::Run;
    }
    if line == idle_line() {
        return LineRead::Idle;
    }
    if line == unsettled_line() {
        return LineRead::Unsettled;
    }
    match read_made(names, v, line, out) {
        Some(e) => LineRead::Entry(e),
        None => LineRead::BadLine,
    }
}

/// Reads a line of a trace of the version: the item of a run that fits the plan and has this line. The line is given with its
/// newline, which ends it; a line without it is bad. It takes no memory, and goes over the lists of the plan for each name. The
/// plan has to be readable, as every sound plan is. If it is read as bad, no item has it.
pub fn read_entry(p: &BusPlan, v: Version, line: &[u8]) -> LineRead
    requires readable { IsReadable (plan_of p.now) }
    ensures reads { Reads v (plan_of p.now) line.now result }
{
    read_by(
        &Names {
            plan: p,
            tables: None,
        },
        v,
        line,
        &mut LineBuf::new(),
    )
}

/// A reader of traces over one plan, made once: names are found by hash, so lines are read in a time that grows with their
/// length alone.
#[derive(Drop)]
pub struct Reader<'p> {
    /// The plan of the traces.
    pub plan: &'p BusPlan,
    tables: Tables<'p>,
    ghost of_plan: { tables.plan.now ≡ plan.now },
    pub ghost readable: { IsReadable (plan_of plan.now) },
}

impl<'p> Reader<'p> {
    /// A reader over the plan, which has to be readable, as every sound plan is. The only error is that there is no memory for
    /// its tables.
    pub fn new(alloc: Global, plan: &'p BusPlan) -> Result<Reader<'p>, Memory>
        requires readable { IsReadable (plan_of plan.now) }
        ensures of_plan { IfOk result (λ reader. reader.plan.now ≡ plan.now) }
    {
        let tables = Tables::new(alloc, plan)?;
        Ok(Reader { plan, tables })
    }

    /// Reads a line of a trace of the version, given with its newline, as `read_entry` does. It takes no memory.
    pub fn read(&self, v: Version, line: &[u8]) -> LineRead
        ensures reads { Reads v (plan_of self.now.plan.now) line.now result }
    {
        self.read_expecting(v, line, None, &mut LineBuf::new())
    }

    /// Reads a line of a trace of the version, given with its newline, as `read` does. The expected entry is a guess, and may be any: if
    /// the line is its line, no names are looked up. `out` holds the texts that are compared, and what stands in it before and
    /// after means nothing. It takes no memory.
    pub fn read_expecting(
        &self,
        v: Version,
        line: &[u8],
        expected: Option<&Entry>,
        out: &mut LineBuf,
    ) -> LineRead
        ensures reads { Reads v (plan_of self.now.plan.now) line.now result }
    {
        if let Some(e) = expected {
            if is_read_as(self.plan, v, e, line, out) {
                return LineRead::Entry(*e);
            }
        }
        read_by(
            &Names {
                plan: self.plan,
                tables: Some(&self.tables),
            },
            v,
            line,
            out,
        )
    }
}
