//! Reading a script.

ghost use Rattle.std.specs.Prelude.{◌≡◌, ℕ, List, [], ◌++◌, IfSome, Some, map, OnOk};
ghost use Rattle.bus_semantics.specs.declared.script.Mapping.{Mapping};
ghost use Rattle.bus_semantics.specs.Common.{plan_of, IsSound};
ghost use Rattle.script_reading.specs.Numbers.{HasFewNumbers};
ghost use Rattle.script_reading.specs.Meaning.{asked_of, saying};
ghost use Rattle.script_reading.specs.Pieces.{saying_of};
ghost use Rattle.script_reading.specs.Reading.{IfBadLine, IfRead, IsScript, IsScriptBy, asked_by, first_bad};
ghost use Rattle.script_reading.specs.Reserved.{saying_around};
ghost use Rattle.line_fields.specs.Texts.{lines_of};

use crate::counts::Counts;
use crate::environment::Environment;
use crate::grammar::{Grammar, Reserving};
use crate::line::Said;
use bus_semantics::{BusPlan, Line, Script};
use line_fields::split_line;
use rte_text::{Memory, Seq};
use std::alloc::Global;

/// What a script's bytes are.
#[derive(Drop)]
pub enum ScriptRead {
    /// A script.
    Read(Script),
    /// No script. `line` is the number of its first bad line, counted from 1 with empty lines and comments, and `cause`
    /// the least of those that it has: 1, it has none of the forms; 2, there is no such port, element, operation, mode or
    /// kind; 3, the value has another word count or a word outside the limits; 4, it passes 100,000 lines, 1,000,000
    /// ticks in all or 1,000 run lines.
    BadLine { line: u64, cause: u8 },
    /// Memory ran out.
    Memory,
}

/// Reads a script over a plan. Empty lines and lines that begin with `#` give no `Line`; all others give one each, in
/// order: `tick N`, `run`, `write P.E V`, `send P.E V`, `read P.E`, `receive P.E`, `ask P.O V`, `result P.O`,
/// `switch P.O MODE` and `mode P.O`. The plan is sound with some mapping, and 32 bits number its elements and mode elements. What
/// is read is a script: no line is bad, and it asks, in order, for what the lines of the text ask for. Else the first bad line is
/// named, with its least cause.
pub fn read_script(alloc: Global, p: &BusPlan, bytes: &[u8]) -> ScriptRead
    requires sound { (m : Mapping) × IsSound (plan_of p.now) m }
    requires few { HasFewNumbers (plan_of p.now) }
    ensures read { IfRead result (λ lines. IsScript (plan_of p.now) bytes.now lines) }
    ensures bad_line { IfBadLine result (λ line cause. first_bad (saying (plan_of p.now)) [] (lines_of bytes.now) ≡ Some (line, cause)) }
{
    match Environment::of(alloc, p) {
        Ok(environment) => {
            let read = read_by(alloc, &environment, bytes);
            drop(environment);
            read
        }
        Err(_) => ScriptRead::Memory,
    }
}

/// Reads a script as `read_script` does, but a line that receives from a reserved element has cause 2. `reserved` says of each element
/// of the plan whether it is.
pub fn read_script_around(alloc: Global, p: &BusPlan, reserved: &[bool], bytes: &[u8]) -> ScriptRead
    requires sound { (m : Mapping) × IsSound (plan_of p.now) m }
    requires few { HasFewNumbers (plan_of p.now) }
    ensures read { IfRead result (λ lines. IsScriptBy (saying_around (plan_of p.now) reserved.now) bytes.now lines) }
    ensures bad_line { IfBadLine result (λ line cause. first_bad (saying_around (plan_of p.now) reserved.now) [] (lines_of bytes.now) ≡ Some (line, cause)) }
{
    match Environment::of(alloc, p) {
        Ok(environment) => {
            let grammar = Reserving {
                environment: &environment,
                reserved,
            };
            let read = read_by(alloc, &grammar, bytes);
            drop(environment);
            read
        }
        Err(_) => ScriptRead::Memory,
    }
}

/// Appends what a line asks for.
fn push_line(lines: &mut Vec<Line>, said: &Said) -> Result<(), Memory>
    ensures { OnOk result (map asked_of lines.new.items ≡ map asked_of lines.old.items ++ asked_by (saying_of said.now)) }
{
    if let Said::Line(line) = said {
        lines.push(*line)?;
    }
    Ok(())
}

/// Reads a script whose lines say what the grammar reads in them.
fn read_by<G: Grammar>(alloc: Global, grammar: &G, bytes: &[u8]) -> ScriptRead
    ensures read { IfRead result (λ lines. IsScriptBy (G.say grammar.now) bytes.now lines) }
    ensures bad_line { IfBadLine result (λ line cause. first_bad (G.say grammar.now) [] (lines_of bytes.now) ≡ Some (line, cause)) }
{
    let mut lines = Vec::new(alloc);
    let mut counts = Counts::none();
    let mut rest = bytes;
    while !rest.is_empty() {
        let (text, after) = split_line(rest);
        let said = grammar.read_line(text);
        let more = match counts.judge(&said) {
            Ok(more) => more,
            Err(cause) => {
                return ScriptRead::BadLine {
                    line: counts.lines + 1,
                    cause,
                };
            }
        };
        if push_line(&mut lines, &said).is_err() {
            return ScriptRead::Memory;
        }
        counts = more;
        rest = after;
    }
    ScriptRead::Read(Script {
        lines: Seq::of(lines),
    })
}
