//! Gates that hold cores, and that count their passes.

use rte_text::Gate;
use std::sync::atomic::{AtomicU64, Ordering};
use std::thread;

/// The pass at which core 0 is held, and up to which each core goes on before the other does.
pub const HELD: u64 = 8;

/// Mostly it holds no core, one time in eight a core for up to 1,023 looks, and seldom for up to 16,383: then others may leave the round
/// meanwhile. How long is drawn from the number of the pass and the seed.
#[derive(Drop)]
pub struct RandomHolds {
    seed: u64,
    passes: AtomicU64,
}

/// Bits that look as if they were drawn at random, another 64 for each number (splitmix64, of Vigna).
fn drawn(number: u64) -> u64 {
    let mut bits = number.wrapping_mul(0x9E37_79B9_7F4A_7C15);
    bits = (bits ^ (bits >> 30)).wrapping_mul(0xBF58_476D_1CE4_E5B9);
    bits = (bits ^ (bits >> 27)).wrapping_mul(0x94D0_49BB_1331_11EB);
    bits ^ (bits >> 31)
}

impl RandomHolds {
    /// A gate that holds otherwise for each seed.
    pub fn new(seed: u32) -> RandomHolds {
        RandomHolds {
            seed: u64::from(seed),
            passes: AtomicU64::new(0),
        }
    }
}

impl Gate for RandomHolds {
    fn pass(&self, _core: u32) {
        let pass = self.passes.fetch_add(1, Ordering::SeqCst);
        let bits = drawn((self.seed << 32) ^ pass);
        let looks = match bits & 1023 {
            0 => bits >> 50,
            1..=127 => bits >> 54,
            _ => 0,
        };
        for _look in 0..looks {
            self.passes.load(Ordering::SeqCst);
        }
    }
}

/// Counts the passes of two cores, each as it begins, and holds no core.
#[derive(Drop)]
pub struct Passes {
    first: AtomicU64,
    second: AtomicU64,
}

impl Passes {
    pub fn none() -> Passes {
        Passes {
            first: AtomicU64::new(0),
            second: AtomicU64::new(0),
        }
    }

    /// The number of the core's pass that begins now, from 1 on.
    fn begin(&self, core: u32) -> u64 {
        let own = if core == 0 { &self.first } else { &self.second };
        own.fetch_add(1, Ordering::SeqCst).saturating_add(1)
    }

    /// How many passes of core 0 and of core 1 have begun.
    pub fn counts(&self) -> (u64, u64) {
        let first = self.first.load(Ordering::SeqCst);
        let second = self.second.load(Ordering::SeqCst);
        (first, second)
    }
}

impl Gate for Passes {
    fn pass(&self, core: u32) {
        self.begin(core);
    }
}

/// Holds core 1 at its first pass until core 0 has begun its 8th, and core 0 at its 8th until core 1 has begun its 8th. Cores that go one
/// after the other or by turns can't get through it.
#[derive(Drop)]
pub struct Staggered {
    passes: Passes,
    /// How often a core looks at most whether it may go on, in one hold.
    most_looks: u32,
    /// How many holds ended since their looks were used up.
    spent: AtomicU64,
}

impl Staggered {
    pub fn new(most_looks: u32) -> Staggered {
        Staggered {
            passes: Passes::none(),
            most_looks,
            spent: AtomicU64::new(0),
        }
    }

    /// Looks until 8 passes of a core have begun, or the looks are used up. The thread of that core may not have begun yet for want of a
    /// processor, so the one that is held gives way to it.
    fn hold(&self, passes: &AtomicU64) {
        for _look in 0..self.most_looks {
            if passes.load(Ordering::SeqCst) >= HELD {
                return;
            }
            thread::yield_now();
        }
        self.spent.fetch_add(1, Ordering::SeqCst);
    }

    /// How many holds used up their looks.
    pub fn spent(&self) -> u64 {
        self.spent.load(Ordering::SeqCst)
    }

    /// How many passes of core 0 and of core 1 have begun.
    pub fn counts(&self) -> (u64, u64) {
        self.passes.counts()
    }
}

impl Gate for Staggered {
    fn pass(&self, core: u32) {
        let begun = self.passes.begin(core);
        if core == 0 && begun == HELD {
            self.hold(&self.passes.second);
        }
        if core == 1 && begun == 1 {
            self.hold(&self.passes.first);
        }
    }
}
