//! A node of two cores to which two feeds bring ticks, at a gate that only those get through who go on at the same time.

use crate::gates::HELD;
use crate::runs::{Answer, serve_through};
use row_texts::Fault;
use rte_program::Status;
use rte_text::Gate;
use std::alloc::{AllocError, Global};
use std::sync::Wait;
use std::sync::atomic::{AtomicU64, Ordering};
use std::thread::{self, Threads};

/// So many ticks a feed brings, and so many passes its feeder makes.
const TICKS: u64 = 1_000;

/// The pass at which the pump is held, and up to which it goes on before core 0 makes a turn.
const POPS: u64 = 1_500;

/// How often somebody looks at most in one hold, while others run, and if none does.
const MOST_LOOKS: u32 = 100_000_000;

const FEW_LOOKS: u32 = 1_000;

/// A core without work makes so many turns and parks.
const QUIET_TURNS: u32 = 64;

/// The numbers by which the gate of a node with two cores is passed: the cores, the pump, and a feeder for each feed.
const CORE_0: u32 = 0;

const CORE_1: u32 = 1;

const PUMP: u32 = 2;

const FEEDER_0: u32 = 3;

const FEEDER_1: u32 = 4;

/// What is waited for.
#[derive(Clone, Copy)]
enum Awaited {
    /// Both cores, the pump and both feeders have begun their first pass.
    All,
    /// Both feeders have begun their last pass.
    Feeders,
    /// The pump has begun its 1,500th.
    Pump,
    /// Core 0 has begun its 8th.
    Core,
}

/// Holds each of two cores, the pump and two feeders at its first pass until all have begun theirs. Then it holds the pump until the feeders have
/// begun their last passes, core 0 until the pump has begun its 1,500th, and there the pump, and core 1, until core 0 has begun its 8th. So core 0
/// makes seven turns with nobody beside it, after 1,499 ticks and before the last: if feeders, pump and cores came one after the other, in any order,
/// a hold would use up its looks.
#[derive(Drop)]
pub struct Beside {
    core_0: AtomicU64,
    core_1: AtomicU64,
    pump: AtomicU64,
    feeder_0: AtomicU64,
    feeder_1: AtomicU64,
    /// How often somebody looks at most whether it may go on, in one hold.
    most_looks: u32,
    /// How many holds ended since their looks were used up.
    spent: AtomicU64,
}

fn begun(passes: &AtomicU64) -> u64 {
    passes.load(Ordering::SeqCst)
}

impl Beside {
    pub fn new(most_looks: u32) -> Beside {
        Beside {
            core_0: AtomicU64::new(0),
            core_1: AtomicU64::new(0),
            pump: AtomicU64::new(0),
            feeder_0: AtomicU64::new(0),
            feeder_1: AtomicU64::new(0),
            most_looks,
            spent: AtomicU64::new(0),
        }
    }

    /// The passes of this number.
    fn passes(&self, number: u32) -> &AtomicU64 {
        match number {
            CORE_0 => &self.core_0,
            CORE_1 => &self.core_1,
            PUMP => &self.pump,
            FEEDER_0 => &self.feeder_0,
            _ => &self.feeder_1,
        }
    }

    /// How many passes of both feeders have begun.
    fn fed(&self) -> (u64, u64) {
        (begun(&self.feeder_0), begun(&self.feeder_1))
    }

    /// Whether all have begun their first pass.
    fn have_all_begun(&self) -> bool {
        let (first, second) = self.fed();
        begun(&self.core_0) > 0
            && begun(&self.core_1) > 0
            && begun(&self.pump) > 0
            && first > 0
            && second > 0
    }

    fn has_come(&self, awaited: Awaited) -> bool {
        match awaited {
            Awaited::All => self.have_all_begun(),
            Awaited::Feeders => {
                let (first, second) = self.fed();
                first >= TICKS && second >= TICKS
            }
            Awaited::Pump => begun(&self.pump) >= POPS,
            Awaited::Core => begun(&self.core_0) >= HELD,
        }
    }

    /// Looks until that has come, or the looks are used up. The threads that it needs may not have begun yet for want of a processor, so
    /// the one that is held gives way to them.
    fn hold(&self, awaited: Awaited) {
        for _look in 0..self.most_looks {
            if self.has_come(awaited) {
                return;
            }
            thread::yield_now();
        }
        self.spent.fetch_add(1, Ordering::SeqCst);
    }
}

impl Gate for Beside {
    fn pass(&self, number: u32) {
        let pass = self
            .passes(number)
            .fetch_add(1, Ordering::SeqCst)
            .saturating_add(1);
        if pass == 1 {
            self.hold(Awaited::All);
        }
        match (number, pass) {
            (PUMP, 1) => self.hold(Awaited::Feeders),
            (PUMP, POPS) => self.hold(Awaited::Core),
            (CORE_0, 1) => self.hold(Awaited::Pump),
            (CORE_1, 1) => self.hold(Awaited::Core),
            _ => {}
        }
    }
}

/// How many lines before the stop are this one.
fn lines_before_stop(told: &[u8], wanted: &[u8]) -> u64 {
    let mut count: u64 = 0;
    for line in told.split(|byte| *byte == b'\n') {
        if line == b"stopped".as_slice() {
            return count;
        }
        if line == wanted {
            count = count.saturating_add(1);
        }
    }
    count
}

/// What the gate and the output show.
fn shown(alloc: Global, gate: &Beside, told: &[u8]) -> Result<String, AllocError> {
    let spent = begun(&gate.spent);
    let (first, second) = gate.fed();
    let ticks = lines_before_stop(told, b"0 env tick");
    let others = lines_before_stop(told, b"1 env tick");
    let end = if lines_before_stop(told, b"w:Step end") > 0 {
        "an"
    } else {
        "no"
    };
    format!(in alloc;
        "{spent} holds end without the others\nfeed 0 passes {first} times, feed 1 {second} times\nbefore the stop {ticks} ticks of feed 0, {others} of feed 1, and {end} end of w:Step\n"
    )
}

/// Runs a node of the description while each of two feeds brings 1,000 ticks.
pub fn run_beside<R: AllocGlobal + Threads + Wait + Sync>(
    rt: &R,
    description: &[u8],
) -> Result<Answer, Fault> {
    let alloc = rt.alloc();
    let gate = Beside::new(MOST_LOOKS);
    let told = serve_through(rt, description, b"0 tick 1000\n1 tick 1000\nstop\n", &gate)?;
    let line = shown(alloc, &gate, told.text.as_slice())?;
    let text = Vec::from_slice(alloc, line.as_bytes())?;
    let status = told.status;
    Ok(Answer { text, status })
}

/// So many passes of this number.
fn pass_often(gate: &Beside, number: u32, times: u64) {
    for _pass in 0..times {
        gate.pass(number);
    }
}

/// One thread passes the gate for the feeders, the pump and the cores, one after the other. How many holds use up their looks.
pub fn pass_beside_alone(alloc: Global) -> Result<Answer, Fault> {
    let gate = Beside::new(FEW_LOOKS);
    pass_often(&gate, FEEDER_0, TICKS);
    pass_often(&gate, FEEDER_1, TICKS);
    pass_often(&gate, PUMP, 2 * TICKS);
    pass_often(&gate, CORE_0, u64::from(QUIET_TURNS));
    pass_often(&gate, CORE_1, u64::from(QUIET_TURNS));
    let line = shown(alloc, &gate, b"")?;
    let text = Vec::from_slice(alloc, line.as_bytes())?;
    let status = Status::Done;
    Ok(Answer { text, status })
}
