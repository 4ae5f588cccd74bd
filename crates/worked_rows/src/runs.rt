//! Commands that are carried out in memory.

use crate::gates::{Passes, RandomHolds, Staggered};
use row_texts::{Fault, Shown, summarized};
use rte_program::{Status, rte_top};
use rte_text::{Gate, MemoryShelf, MemorySink, OpenGate};
use std::alloc::{AllocError, Global};
use std::sync::Wait;
use std::thread::Threads;

/// How many bytes may be told in memory: 16 MiB.
pub const ROOM: u64 = 16_777_216;

/// How often a core looks at most in one hold of `Staggered`, while another one runs, and if none does.
const MOST_LOOKS: u32 = 100_000_000;

const FEW_LOOKS: u32 = 1_000;

/// A core without work makes so many turns and leaves the round.
const QUIET_TURNS: u32 = 64;

pub const DESCRIPTION: &str = "description.json";

pub const SCRIPT: &str = "script.txt";

/// The description of the second of two nodes.
pub const SECOND: &str = "second.json";

const TRACE: &str = "trace.txt";

/// The file of stimuli.
pub const STIMULI: &str = "-";

/// What a row shows, and the status of its command.
#[derive(Drop)]
pub struct Answer {
    pub text: Vec<u8>,
    pub status: Status,
}

impl Answer {
    /// The answer with what is shown of its text in place of it.
    pub fn shown(self, alloc: Global, shown: &Shown) -> Result<Answer, Fault> {
        let status = self.status;
        let text = summarized(alloc, self.text.as_slice(), shown);
        drop(self);
        match text {
            Ok(text) => Ok(Answer { text, status }),
            Err(memory) => Err(Fault::Memory(memory)),
        }
    }

    /// The answer with this line before its own text.
    fn behind(self, alloc: Global, line: &str) -> Result<Answer, Fault> {
        let status = self.status;
        let text = joined(alloc, line.as_bytes(), self.text.as_slice());
        drop(self);
        match text {
            Ok(text) => Ok(Answer { text, status }),
            Err(memory) => Err(Fault::Memory(memory)),
        }
    }

    /// The answer with a bar behind its text.
    fn barred(self, alloc: Global) -> Result<Answer, Fault> {
        let status = self.status;
        let text = joined(alloc, self.text.as_slice(), b"|\n");
        drop(self);
        match text {
            Ok(text) => Ok(Answer { text, status }),
            Err(memory) => Err(Fault::Memory(memory)),
        }
    }
}

/// A description and a script.
#[derive(Drop)]
pub struct Case {
    pub description: Vec<u8>,
    pub script: Vec<u8>,
}

/// A file of this name with these bytes.
pub type Named = (String, Vec<u8>);

fn joined(alloc: Global, first: &[u8], second: &[u8]) -> Result<Vec<u8>, AllocError> {
    let mut all = Vec::from_slice(alloc, first)?;
    all.extend_from_slice(second)?;
    Ok(all)
}

/// The words between the blanks of a text.
pub fn words_of(alloc: Global, text: &str) -> Result<Vec<String>, AllocError> {
    text.split_ascii_whitespace()
        .map(|word| String::from_str(alloc, word))
        .try_collect(alloc)
}

/// Adds a file of this name with a copy of these bytes.
pub fn add_file(
    alloc: Global,
    files: &mut Vec<Named>,
    name: &str,
    bytes: &[u8],
) -> Result<(), AllocError> {
    let name = String::from_str(alloc, name)?;
    let bytes = Vec::from_slice(alloc, bytes)?;
    files.push((name, bytes))?;
    Ok(())
}

/// Adds the two files of a case.
pub fn add_case(alloc: Global, files: &mut Vec<Named>, case: &Case) -> Result<(), AllocError> {
    add_file(alloc, files, DESCRIPTION, case.description.as_slice())?;
    add_file(alloc, files, SCRIPT, case.script.as_slice())
}

/// Carries out the words over files and output in memory, and shows all that is told.
fn tell<R: AllocGlobal + Threads + Wait + Sync, G: Gate>(
    rt: &R,
    words: &str,
    shelf: MemoryShelf,
    out: MemorySink,
    gate: &G,
) -> Result<Answer, Fault> {
    let alloc = rt.alloc();
    let (mut shelf, mut out) = (shelf, out);
    let words = words_of(alloc, words)?;
    let status = rte_top(rt, alloc, words.as_slice(), &mut shelf, &mut out, gate);
    let text = Vec::from_slice(alloc, out.told())?;
    Ok(Answer { text, status })
}

/// Carries out the words over files and output that do not fail, and shows all that is told.
pub fn tell_of<R: AllocGlobal + Threads + Wait + Sync, G: Gate>(
    rt: &R,
    words: &str,
    files: Vec<Named>,
    gate: &G,
) -> Result<Answer, Fault> {
    let alloc = rt.alloc();
    let out = MemorySink::new(alloc, ROOM, Vec::new(alloc))?;
    tell(
        rt,
        words,
        MemoryShelf::new(files, Vec::new(alloc)),
        out,
        gate,
    )
}

/// Prints the plan of the description.
pub fn plan<R: AllocGlobal + Threads + Wait + Sync>(
    rt: &R,
    description: &[u8],
) -> Result<Answer, Fault> {
    let alloc = rt.alloc();
    let mut files = Vec::new(alloc);
    add_file(alloc, &mut files, DESCRIPTION, description)?;
    tell_of(rt, "plan description.json", files, &OpenGate)
}

/// Runs the script on the description; its cores pass this gate.
fn run_through<R: AllocGlobal + Threads + Wait + Sync, G: Gate>(
    rt: &R,
    case: &Case,
    gate: &G,
) -> Result<Answer, Fault> {
    let alloc = rt.alloc();
    let mut files = Vec::new(alloc);
    add_case(alloc, &mut files, case)?;
    tell_of(rt, "run description.json script.txt", files, gate)
}

/// Runs the script on the description.
pub fn run<R: AllocGlobal + Threads + Wait + Sync>(rt: &R, case: &Case) -> Result<Answer, Fault> {
    run_through(rt, case, &OpenGate)
}

/// Runs a node of the description while these stimuli come; cores, pump and feeders pass this gate.
pub fn serve_through<R: AllocGlobal + Threads + Wait + Sync, G: Gate>(
    rt: &R,
    description: &[u8],
    stimuli: &[u8],
    gate: &G,
) -> Result<Answer, Fault> {
    let alloc = rt.alloc();
    let mut files = Vec::new(alloc);
    add_file(alloc, &mut files, DESCRIPTION, description)?;
    add_file(alloc, &mut files, STIMULI, stimuli)?;
    tell_of(rt, "live description.json", files, gate)
}

/// Checks the trace.
pub fn check<R: AllocGlobal + Threads + Wait + Sync>(
    rt: &R,
    case: &Case,
    trace: &[u8],
) -> Result<Answer, Fault> {
    let alloc = rt.alloc();
    let mut files = Vec::new(alloc);
    add_case(alloc, &mut files, case)?;
    add_file(alloc, &mut files, TRACE, trace)?;
    tell_of(
        rt,
        "check description.json trace.txt script.txt",
        files,
        &OpenGate,
    )
}

/// What the check says of the trace of a run; what is told, if the run ends with another status than 0.
fn run_and_check<R: AllocGlobal + Threads + Wait + Sync, G: Gate>(
    rt: &R,
    case: &Case,
    gate: &G,
) -> Result<Answer, Fault> {
    let told = run_through(rt, case, gate)?;
    match told.status {
        Status::Done => check(rt, case, told.text.as_slice()),
        _ => Ok(told),
    }
}

/// After a run with this answer more of them, with cores that are held at random, so that there are so many in all: up to the first that
/// does not end with status 0.
fn run_and_check_held<R: AllocGlobal + Threads + Wait + Sync>(
    rt: &R,
    case: &Case,
    answer: Answer,
    runs: u32,
) -> Result<Answer, Fault> {
    let mut answer = answer;
    for seed in 1..runs {
        if answer.status != Status::Done {
            return Ok(answer);
        }
        answer = run_and_check(rt, case, &RandomHolds::new(seed))?;
    }
    Ok(answer)
}

/// The same so many times, once at least, up to the first that does not end with status 0. No core is held in the first run, and in each
/// other one they are held at random.
pub fn run_and_check_often<R: AllocGlobal + Threads + Wait + Sync>(
    rt: &R,
    case: &Case,
    runs: u32,
) -> Result<Answer, Fault> {
    let answer = run_and_check(rt, case, &OpenGate)?;
    run_and_check_held(rt, case, answer, runs)
}

/// A script so many times over.
fn repeated(alloc: Global, script: &[u8], times: u32) -> Result<Vec<u8>, AllocError> {
    let mut all = Vec::new(alloc);
    for _time in 0..times {
        all.extend_from_slice(script)?;
        all.push(b'\n')?;
    }
    Ok(all)
}

/// As `run_and_check_often`, with the script so many times over in each run, and with cores that are held at random in the first run too.
pub fn run_and_check_repeated<R: AllocGlobal + Threads + Wait + Sync>(
    rt: &R,
    case: Case,
    runs: u32,
    times: u32,
) -> Result<Answer, Fault> {
    let script = repeated(rt.alloc(), case.script.as_slice(), times)?;
    let case = Case { script, ..case };
    let answer = run_and_check(rt, &case, &RandomHolds::new(0))?;
    run_and_check_held(rt, &case, answer, runs)
}

/// How often each of two cores passed.
fn times_passed(alloc: Global, counts: (u64, u64)) -> Result<String, AllocError> {
    let (first, second) = counts;
    format!(in alloc; "core 0 passes {first} times, core 1 {second} times\n")
}

/// Runs the script on the description. Behind how often each of two cores passed the gate come the first lines and the last.
pub fn run_counted<R: AllocGlobal + Threads + Wait + Sync>(
    rt: &R,
    case: &Case,
) -> Result<Answer, Fault> {
    let alloc = rt.alloc();
    let gate = Passes::none();
    let told = run_through(rt, case, &gate)?;
    let ends = told.shown(alloc, &Shown::Ends)?;
    let line = times_passed(alloc, gate.counts())?;
    ends.behind(alloc, line.as_str())
}

/// Runs the script on the description; each of two cores is held until the other has begun its eighth pass. What is told comes behind how
/// many holds ended otherwise, and how often each core passed.
pub fn run_together<R: AllocGlobal + Threads + Wait + Sync>(
    rt: &R,
    case: &Case,
) -> Result<Answer, Fault> {
    let alloc = rt.alloc();
    let gate = Staggered::new(MOST_LOOKS);
    let told = run_through(rt, case, &gate)?;
    let passed = times_passed(alloc, gate.counts())?;
    let counted = told.behind(alloc, passed.as_str())?;
    let line = spent_text(alloc, gate.spent())?;
    counted.behind(alloc, line.as_str())
}

fn spent_text(alloc: Global, spent: u64) -> Result<String, AllocError> {
    format!(in alloc; "{spent} holds end without the other core\n")
}

/// One thread passes the gate of `run_together` for two cores, by turns or for one after the other. How many holds end otherwise.
pub fn pass_alone(alloc: Global, by_turns: bool) -> Result<Answer, Fault> {
    let gate = Staggered::new(FEW_LOOKS);
    for pass in 0..2 * QUIET_TURNS {
        let core = if by_turns {
            pass % 2
        } else {
            pass / QUIET_TURNS
        };
        gate.pass(core);
    }
    let line = spent_text(alloc, gate.spent())?;
    let text = Vec::from_slice(alloc, line.as_bytes())?;
    let status = Status::Done;
    Ok(Answer { text, status })
}

/// What fails: fetches and puts by number, from 0 on, puts after so many bytes, and what goes beyond the room.
#[derive(Drop)]
pub struct Failing {
    pub fetches: Vec<u64>,
    pub puts: Vec<(u64, u64)>,
    pub room: u64,
}

/// Carries out the words over these files. A bar stands behind what is told.
pub fn tell_failing<R: AllocGlobal + Threads + Wait + Sync>(
    rt: &R,
    words: &str,
    files: Vec<Named>,
    failing: Failing,
) -> Result<Answer, Fault> {
    let alloc = rt.alloc();
    let out = MemorySink::new(alloc, failing.room, failing.puts)?;
    let shelf = MemoryShelf::new(files, failing.fetches);
    let told = tell(rt, words, shelf, out, &OpenGate)?;
    told.barred(alloc)
}
