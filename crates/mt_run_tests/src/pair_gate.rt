//! A gate at which two tasks meet.

use mt_shelf::Gate;
use std::sync::atomic::{AtomicU64, Ordering};
use std::thread::yield_now;

/// How often a task looks for the other, at most.
const TURNS: u64 = 100_000_000;

/// How many looks pass before the thread lets others run.
const LOOKS: u64 = 1000;

/// Holds the tasks 0 and 1 of the first round until the other has entered too, for so many turns at most, and
/// counts those that saw the other.
#[derive(Drop)]
pub struct PairGate {
    entered: [AtomicU64; 2],
    met: AtomicU64,
    calls: AtomicU64,
}

impl PairGate {
    /// A gate that no task has entered.
    pub fn new() -> PairGate {
        PairGate {
            entered: [AtomicU64::new(0), AtomicU64::new(0)],
            met: AtomicU64::new(0),
            calls: AtomicU64::new(0),
        }
    }

    /// How many of the two saw the other enter.
    pub fn met(&self) -> u64 {
        self.met.load(Ordering::SeqCst)
    }

    /// How many tasks have entered.
    pub fn calls(&self) -> u64 {
        self.calls.load(Ordering::SeqCst)
    }

    /// Enters, and looks whether the other has, again and again.
    fn meet(&self, mine: &AtomicU64, other: &AtomicU64) {
        mine.store(1, Ordering::SeqCst);
        for turn in 0..TURNS {
            if other.load(Ordering::SeqCst) != 0 {
                self.met.fetch_add(1, Ordering::SeqCst);
                return;
            }
            if turn % LOOKS == 0 {
                yield_now();
            }
        }
    }
}

impl Gate for PairGate {
    fn enter(&self, task: u64) {
        self.calls.fetch_add(1, Ordering::SeqCst);
        let [first, second] = &self.entered;
        match task {
            0 => self.meet(first, second),
            1 => self.meet(second, first),
            _ => {}
        }
    }
}
