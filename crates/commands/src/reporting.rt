//! What is said if nothing is carried out.

ghost use Rattle.std.specs.Prelude.{◌≡◌, ◌<◌, ◌^◌, ◌++◌, [], codes, decimal, IfOk};
ghost use Rattle.commands.specs.declared.stop.Stop.TheVariants as stop;
ghost use Rattle.commands.specs.Texts.{checked_text, clash_text, refusal_of_text, refusal_text, script_refusal_text, unread_text, IsPut, IsShort, IsShortVerdict, Says};

use crate::status::Status;
use crate::stop::{Finding, Stop};
use rte_text::{LineBuf, Put, Refusal, Sink, Text};
use std::alloc::{AllocError, Global};
use trace_reading::Checked;

/// The text of a refusal up to its place, however long that is.
fn begin_refusal(alloc: Global, refusal: &Refusal) -> Result<Vec<u8>, AllocError>
    ensures { IfOk result (λ text. text.items ≡ codes "refused rule " ++ decimal refusal.now.rule ++ codes " at " ++ refusal.now.place) }
{
    let mut start = LineBuf::new();
    start.text(b"refused rule ");
    start.number(i64::from(refusal.rule));
    start.text(b" at ");
    let mut text = Vec::from_slice(alloc, start.bytes())?;
    text.extend_from_slice(refusal.place.bytes())?;
    Ok(text)
}

/// The text of a refusal.
fn write_refusal(alloc: Global, refusal: &Refusal) -> Result<Vec<u8>, AllocError>
    ensures { IfOk result (λ text. text.items ≡ refusal_text refusal.now.rule refusal.now.place) }
{
    let mut text = begin_refusal(alloc, refusal)?;
    text.push(b'\n')?;
    Ok(text)
}

/// The text of a refusal of one of two descriptions.
fn write_refusal_of(alloc: Global, refusal: &Refusal, which: u8) -> Result<Vec<u8>, AllocError>
    ensures { IfOk result (λ text. text.items ≡ refusal_of_text refusal.now.rule refusal.now.place which) }
{
    let mut end = LineBuf::new();
    end.text(b" of ");
    end.number(i64::from(which));
    end.text(b"\n");
    let mut text = begin_refusal(alloc, refusal)?;
    text.extend_from_slice(end.bytes())?;
    Ok(text)
}

/// Writes the text of the refusal of a script into an empty line.
fn write_script_refusal(number: u64, cause: u8, line: &mut LineBuf)
    requires empty { line.old ≡ [] }
    requires short { number < 2 ^ 63 }
    ensures { line.new ≡ script_refusal_text number cause }
{
    line.text(b"script refused line ");
    line.number(number as i64);
    line.text(b" cause ");
    line.number(i64::from(cause));
    line.text(b"\n");
}

/// Writes the text of a verdict on a trace into an empty line.
fn write_checked(checked: Checked, line: &mut LineBuf)
    requires empty { line.old ≡ [] }
    requires short { IsShortVerdict checked }
    ensures { line.new ≡ checked_text checked }
{
    match checked {
        Checked::Legal => {
            line.text(b"legal\n");
        }
        Checked::BadLine(number) => {
            line.text(b"bad line ");
            line.number(number as i64);
            line.text(b"\n");
        }
        Checked::Illegal {
            line: number,
            clause,
        } => {
            line.text(b"illegal ");
            line.number(number as i64);
            line.text(b" D");
            line.number(i64::from(clause));
            line.text(b"\n");
        }
    }
}

/// Writes the text of a file that was not read into an empty line.
fn write_unread(place: u8, line: &mut LineBuf)
    requires empty { line.old ≡ [] }
    ensures { line.new ≡ unread_text place }
{
    line.text(b"not read ");
    line.number(i64::from(place));
    line.text(b"\n");
}

/// Puts a text, and answers its status, or that of a fault.
pub fn put_text<K: Sink>(text: &[u8], status: Status, out: &mut K) -> Status
    ensures { IsPut text.now status result (K.told out.old) (K.told out.new) (K.faults out.old) (K.faults out.new) }
{
    match out.put(text) {
        Put::Done => status,
        Put::Failed => Status::NotWritten,
    }
}

/// The text of names that clash.
fn write_clash(alloc: Global, name: &Text) -> Result<Vec<u8>, AllocError>
    ensures { IfOk result (λ text. text.items ≡ clash_text name.now) }
{
    let mut text = Vec::from_slice(alloc, b"clash ")?;
    text.extend_from_slice(name.bytes())?;
    text.push(b'\n')?;
    Ok(text)
}

/// Puts what is found of files that are refused, and answers its status. If there is no memory for the text, nothing is put.
fn report_finding<K: Sink>(alloc: Global, found: &Finding, out: &mut K) -> Status
    requires { IsShort (stop.Found found.now) }
    ensures { Says (stop.Found found.now) result (K.told out.old) (K.told out.new) (K.faults out.old) (K.faults out.new) }
{
    let mut line = LineBuf::new();
    match found {
        Finding::Refused(refusal) => match write_refusal(alloc, refusal) {
            Ok(text) => put_text(text.as_slice(), Status::Refused, out),
            Err(_) => Status::Memory,
        },
        Finding::Script {
            line: number,
            cause,
        } => {
            write_script_refusal(*number, *cause, &mut line);
            put_text(line.bytes(), Status::Script, out)
        }
        Finding::Trace(checked) => {
            write_checked(*checked, &mut line);
            put_text(line.bytes(), Status::Trace, out)
        }
        Finding::NoComponent => put_text(b"no component\n", Status::NoComponent, out),
        Finding::Clash(name) => match write_clash(alloc, name) {
            Ok(text) => put_text(text.as_slice(), Status::Clash, out),
            Err(_) => Status::Memory,
        },
        Finding::RefusedOf { refusal, which } => match write_refusal_of(alloc, refusal, *which) {
            Ok(text) => put_text(text.as_slice(), Status::Refused, out),
            Err(_) => Status::Memory,
        },
        Finding::NoLink => put_text(b"no link\n", Status::NoLink, out),
        Finding::TooManyCores => put_text(b"too many cores\n", Status::TooManyCores, out),
    }
}

/// Puts the text of a stop, and answers its status. If there is no memory for the text, nothing is put.
pub fn report<K: Sink>(alloc: Global, stop: &Stop, out: &mut K) -> Status
    requires { IsShort stop.now }
    ensures { Says stop.now result (K.told out.old) (K.told out.new) (K.faults out.old) (K.faults out.new) }
{
    match stop {
        Stop::Words => put_text(b"words refused\n", Status::Words, out),
        Stop::NotRead { place } => {
            let mut line = LineBuf::new();
            write_unread(*place, &mut line);
            put_text(line.bytes(), Status::NotRead, out)
        }
        Stop::Found(found) => report_finding(alloc, found, out),
        Stop::Memory => Status::Memory,
    }
}
