//! What cores of a round tell one another.

use std::alloc::{AllocError, Global};
use std::sync::atomic::{AtomicU64, Ordering};
use std::{hint, thread};

/// A core has no news.
const NONE: u64 = 0;

/// A core has news.
const SOME: u64 = 1;

/// A core has left the round, and hears of nothing.
const GONE: u64 = 2;

/// How often a core that waits for news looks for them before it gives way to other threads.
const LOOKS: u32 = 256;

/// How often a core that waits for news gives way in a turn.
const MOST_YIELDS: u32 = 16;

/// Objects in which other cores made entries that a core has not heard of yet.
#[derive(Drop)]
struct Inbox {
    state: AtomicU64,
    /// A bit for each object, 64 in a word.
    objects: Vec<AtomicU64>,
}

/// Room for news of so many objects.
fn empty_inbox(alloc: Global, objects: usize) -> Result<Inbox, AllocError> {
    let mut words = Vec::new(alloc);
    for _word in 0..objects.div_ceil(64) {
        words.push(AtomicU64::new(0))?;
    }
    Ok(Inbox {
        state: AtomicU64::new(NONE),
        objects: words,
    })
}

impl Inbox {
    /// Puts an object in. The answer is whether there was no news before.
    fn put(&self, object: u32) -> bool {
        let Some(word) = self.objects.get(object as usize / 64) else {
            return false;
        };
        word.fetch_or(1 << (object % 64), Ordering::SeqCst);
        self.state.load(Ordering::SeqCst) == NONE
            && self
                .state
                .compare_exchange(NONE, SOME, Ordering::SeqCst, Ordering::SeqCst)
                .is_ok()
    }
}

/// For each core of a round the news of other cores, and how many cores may still make an entry: those that are not idle, and those
/// that have news. News are guesses, as all that tells a core where to look: no entry rests on them.
#[derive(Drop)]
pub(crate) struct News {
    inboxes: Vec<Inbox>,
    busy: AtomicU64,
}

impl News {
    /// No news for so many cores, of so many objects. The only error is that there is no memory.
    pub(crate) fn none(alloc: Global, cores: usize, objects: usize) -> Result<News, AllocError> {
        let mut inboxes = Vec::new(alloc);
        for _core in 0..cores {
            inboxes.push(empty_inbox(alloc, objects)?)?;
        }
        Ok(News {
            inboxes,
            busy: AtomicU64::new(0),
        })
    }

    /// A round of so many cores begins, and none of them is idle.
    pub(crate) fn begin(&self, cores: usize) {
        for inbox in &self.inboxes {
            inbox.state.store(NONE, Ordering::SeqCst);
        }
        self.busy.store(cores as u64, Ordering::SeqCst);
    }

    /// Tells a core of an entry in an object.
    pub(crate) fn tell(&self, core: usize, object: u32) {
        if let Some(inbox) = self.inboxes.get(core) {
            if inbox.put(object) {
                self.stir();
            }
        }
    }

    /// A core that was idle is not any more.
    pub(crate) fn stir(&self) {
        self.busy.fetch_add(1, Ordering::SeqCst);
    }

    /// A core has become idle.
    pub(crate) fn rest(&self) {
        self.busy.fetch_sub(1, Ordering::SeqCst);
    }

    /// Looks for news for a while. The answer is whether a core need not wait for any: some are there, or no core may still make an entry.
    fn is_over(&self, inbox: &Inbox) -> bool {
        for _look in 0..LOOKS {
            if inbox.state.load(Ordering::SeqCst) != NONE || self.busy.load(Ordering::SeqCst) == 0 {
                return true;
            }
            hint::spin_loop();
        }
        false
    }

    /// Waits for news of a core, for a while and only if another core may still make an entry. The thread of that core may not have begun
    /// yet for want of a processor, so the one that waits gives way to it.
    pub(crate) fn wait(&self, core: u32) {
        let Some(inbox) = self.inboxes.get(core as usize) else {
            return;
        };
        for _yield in 0..MOST_YIELDS {
            if self.is_over(inbox) {
                return;
            }
            thread::yield_now();
        }
    }

    /// Takes the news of a core. The answer is whether there were any.
    pub(crate) fn take(&self, core: u32) -> bool {
        match self.inboxes.get(core as usize) {
            Some(inbox) => {
                inbox.state.load(Ordering::SeqCst) != NONE
                    && inbox.state.swap(NONE, Ordering::SeqCst) != NONE
            }
            None => false,
        }
    }

    /// A core leaves the round. Who tells it of an entry from now on counts on nothing.
    pub(crate) fn leave(&self, core: u32) {
        if let Some(inbox) = self.inboxes.get(core as usize) {
            if inbox.state.swap(GONE, Ordering::SeqCst) == SOME {
                self.rest();
            }
        }
    }

    /// How many words the news of a core have.
    pub(crate) fn words(&self, core: u32) -> usize {
        match self.inboxes.get(core as usize) {
            Some(inbox) => inbox.objects.len(),
            None => 0,
        }
    }

    /// Takes the objects of a word of a core, each as a bit.
    pub(crate) fn objects_in(&self, core: u32, word: usize) -> u64 {
        match self.inboxes.get(core as usize) {
            Some(inbox) => match inbox.objects.get(word) {
                Some(objects) if objects.load(Ordering::SeqCst) != 0 => {
                    objects.swap(0, Ordering::SeqCst)
                }
                _ => 0,
            },
            None => 0,
        }
    }
}
