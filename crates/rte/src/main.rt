//! The program: it makes the shelf of real files, the sink and the gate, and carries out the command that its words give.
#![tactic(auto)]

mod shelf;

use gathered_output::GatheringSink;
use gathered_run::run_gathered;
use rte_program::{Status, rte_top};
use rte_text::{OpenGate, StdSink};
use shelf::InputShelf;
use std::env;
use std::io::{self, ErrorKind, IsTerminal};
use std::process::ExitCode;
use std::rt::{Env, Files};
use std::sync::Wait;
use std::thread::Threads;

/// The words after the program's name.
fn words_of<R: Env + AllocGlobal>(rt: &R) -> io::Result<Vec<String>> {
    let mut words = Vec::new(rt.alloc());
    for word in env::args(rt)?.skip(1) {
        words.push(word)?;
    }
    Ok(words)
}

/// Carries out the command over real files. Who reads at a terminal sees each line as it comes.
fn run<R: Files + Print + AllocGlobal + Clone + Drop + Threads + Wait + Sync>(
    rt: &R,
    words: &[String],
    at_terminal: bool,
) -> io::Result<Status> {
    let mut shelf = InputShelf::new(rt.clone()?);
    if at_terminal {
        let mut out = StdSink::new(rt.clone()?);
        return Ok(rte_top(rt, rt.alloc(), words, &mut shelf, &mut out, &OpenGate));
    }
    let mut out = GatheringSink::new(rt.alloc(), io::writer(rt))?;
    Ok(run_gathered(rt, rt.alloc(), words, &mut shelf, &mut out, &OpenGate))
}

fn main(rt: HostRuntime) -> ExitCode {
    let at_terminal = rt.stdout().is_terminal();
    let answer = match words_of(&rt) {
        Ok(words) => run(&rt, words.as_slice(), at_terminal),
        // Words that are no text are no command.
        Err(error) if error.kind() == ErrorKind::InvalidData => run(&rt, &[], at_terminal),
        Err(_) => Ok(Status::Memory),
    };
    ExitCode::from(answer.unwrap_or(Status::Memory) as u8)
}
