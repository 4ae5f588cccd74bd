//! Runs of two nodes in memory.

ghost use Rattle.std.specs.Prelude.{◌≤◌, length};
ghost use Rattle.signal_link.specs.Pipes.{AreCuts};

use crate::runs::{Answer, DESCRIPTION, ROOM, SCRIPT, SECOND, add_file, tell_of};
use commands::judge_pair;
use pair_run::PairRun;
use row_texts::{Fault, pipe_of};
use rte_program::{Status, run_linked};
use rte_text::{MemorySink, OpenGate};
use std::alloc::Global;
use std::sync::Wait;
use std::thread::Threads;

/// So many bytes are on the way at most, as in the program.
const LINK_ROOM: u32 = 4_096;

/// Two descriptions and a script.
#[derive(Drop)]
pub struct PairCase {
    pub one: Vec<u8>,
    pub two: Vec<u8>,
    pub script: Vec<u8>,
}

/// Runs the script on nodes of both descriptions.
pub fn run_pair_case<R: AllocGlobal + Threads + Wait + Sync>(
    rt: &R,
    case: &PairCase,
) -> Result<Answer, Fault> {
    let alloc = rt.alloc();
    let mut files = Vec::new(alloc);
    add_file(alloc, &mut files, DESCRIPTION, case.one.as_slice())?;
    add_file(alloc, &mut files, SECOND, case.two.as_slice())?;
    add_file(alloc, &mut files, SCRIPT, case.script.as_slice())?;
    tell_of(
        rt,
        "pair description.json second.json script.txt",
        files,
        &OpenGate,
    )
}

/// How a run over a link ended.
fn end_of(run: PairRun) -> &'static [u8] {
    match run {
        PairRun::Finished => b"finished\n",
        PairRun::Failed => b"failed\n",
        PairRun::LinkFailed => b"link failed\n",
        PairRun::Memory => b"memory\n",
    }
}

/// What is told, with how the run ended behind it.
fn shown(alloc: Global, told: &[u8], run: PairRun) -> Result<Answer, Fault> {
    let mut text = Vec::from_slice(alloc, told)?;
    text.extend_from_slice(end_of(run))?;
    let status = Status::Done;
    Ok(Answer { text, status })
}

/// Runs the script on nodes of both descriptions over a link that gives at most so many bytes, one number after the other, and whose calls of
/// these numbers fail. How the run ended stands behind what is told.
pub fn run_wired<R: AllocGlobal + Threads + Wait + Sync>(
    rt: &R,
    one: &[u8],
    two: &[u8],
    script: &[u8],
    cuts: Vec<u32>,
    fails: Vec<u64>,
) -> Result<Answer, Fault>
    requires one { length one.now ≤ 8388608 }
    requires two { length two.now ≤ 8388608 }
    requires cuts { AreCuts cuts.items }
{
    let alloc = rt.alloc();
    let mut link = pipe_of(alloc, LINK_ROOM, cuts, fails)?;
    let mut out = MemorySink::new(alloc, ROOM, Vec::new(alloc))?;
    let run = match judge_pair(alloc, one, two, script) {
        Ok(prepared) => run_linked(rt, alloc, prepared, &mut link, &mut out, &OpenGate),
        Err(_) => return Err(Fault::NoPlan),
    };
    shown(alloc, out.told(), run)
}
