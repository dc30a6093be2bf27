//! A gate for tests: it counts who passes, and holds workers until others have come.

use seq_search::Gate;
use std::sync::atomic::{AtomicBool, AtomicU32, Ordering};
use std::thread;

/// How often a worker that is held looks whether the others have come, before it gives up.
const MOST_LOOKS: u32 = 10_000_000;

/// A gate that counts how often each of the numbers 0, 1 and 2 passed, and at which the first of
/// them wait for one another. It is for tests: it shows which workers came, and that they ran side
/// by side. Other numbers pass, and are not counted.
#[derive(Debug, Drop)]
pub struct CountingGate {
    first: AtomicU32,
    second: AtomicU32,
    third: AtomicU32,
    missed: AtomicBool,
    meeting: u32,
}

impl CountingGate {
    /// A gate that nobody passed, at which the numbers below `meeting` wait for one another. That
    /// is at most 3, and with 0 nobody waits.
    pub fn new(meeting: u32) -> CountingGate {
        CountingGate {
            first: AtomicU32::new(0),
            second: AtomicU32::new(0),
            third: AtomicU32::new(0),
            missed: AtomicBool::new(false),
            meeting,
        }
    }

    /// How often each of the numbers 0, 1 and 2 passed.
    pub fn counts(&self) -> [u32; 3] {
        [
            self.first.load(Ordering::SeqCst),
            self.second.load(Ordering::SeqCst),
            self.third.load(Ordering::SeqCst),
        ]
    }

    /// Whether somebody gave up waiting, for the others didn't come.
    pub fn was_missed(&self) -> bool {
        self.missed.load(Ordering::SeqCst)
    }

    // Whether all who are to meet have come.
    fn have_met(&self) -> bool {
        let [first, second, third] = self.counts();
        (self.meeting < 1 || first != 0)
            && (self.meeting < 2 || second != 0)
            && (self.meeting < 3 || third != 0)
    }
}

impl Gate for CountingGate {
    fn pass(&self, worker: u32) {
        let mine = match worker {
            0 => &self.first,
            1 => &self.second,
            2 => &self.third,
            _ => return,
        };
        mine.fetch_add(1, Ordering::SeqCst);
        if self.meeting <= worker {
            return;
        }
        for _ in 0..MOST_LOOKS {
            if self.have_met() {
                return;
            }
            thread::yield_now();
        }
        self.missed.store(true, Ordering::SeqCst);
    }
}
