//! Goes through a table of commands and prints each with what it answers, as a shell does.
//!
//! The table is read from standard input. A blank line, or one that begins with `#`, is printed as it is. Each other
//! line is a row: it is printed after `$ `, then what was told, then the status. See `Row` for the kinds of rows.
#![tactic(auto)]

mod beside;
mod carry;
mod gates;
mod pairs;
mod runs;

use carry::carry_out;
use row_texts::{Fault, Row};
use runs::Answer;
use std::io::{self, BufRead, BufReader, Write};
use std::rt::Files;
use std::sync::Wait;
use std::thread::Threads;

/// Reads the row of a line, and carries it out.
fn answer_line<R: Files + Print + AllocGlobal + Clone + Drop + Threads + Wait + Sync>(
    rt: &R,
    line: &str,
) -> Result<Answer, Fault> {
    match Row::read(line) {
        Some(row) => carry_out(rt, row),
        None => Err(Fault::NoRow),
    }
}

/// Prints what a row tells and its status.
fn print_answer<R: Print>(rt: &R, answer: &Answer) -> io::Result<()> {
    io::writer(rt).write_all(answer.text.as_slice())?;
    println!(rt; "status {}", answer.status as u8)
}

/// Prints a row, what it tells and its status, or why it was not carried out.
fn print_row<R: Files + Print + AllocGlobal + Clone + Drop + Threads + Wait + Sync>(
    rt: &R,
    line: &str,
) -> io::Result<()> {
    println!(rt; "$ {line}")?;
    match answer_line(rt, line) {
        Ok(answer) => {
            let printed = print_answer(rt, &answer);
            drop(answer);
            printed
        }
        Err(fault) => println!(rt; "{fault}"),
    }
}

fn main(rt: HostRuntime) -> io::Result<()> {
    for line in BufReader::new(rt.alloc(), rt.reader())?.lines(rt.alloc()) {
        let line = line?;
        if line.is_empty() || line.starts_with('#') {
            println!(rt; "{line}")?;
        } else {
            print_row(&rt, line.as_str())?;
        }
    }
    Ok(())
}
