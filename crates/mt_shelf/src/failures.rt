//! The calls that are to fail, of an object in memory.
ghost use Rattle.std.specs.Prelude.{◌≡◌, ◌≤◌, ◌↔◌, IsTrue, Contains};
ghost use Rattle.std.specs.Bool.{OnTrue, OnFalse};
ghost use Rattle.mt_shelf.specs.Causes.{Rose};

use mt_types::List;

/// Which calls fail, by number from 1, and how many did.
#[derive(Drop)]
pub struct Failures {
    failing: List<u64>,
    calls: u64,
    pub faults: u64,
}

impl Failures {
    /// No call was made yet.
    pub fn new(failing: List<u64>) -> Failures
        ensures { result.faults ≡ 0 }
    {
        Failures {
            failing,
            calls: 0,
            faults: 0,
        }
    }

    /// Counts a call, and returns whether it is to fail.
    pub fn fails_next(&mut self) -> bool
        ensures numbered { IsTrue result ↔ Contains self.old.failing self.new.calls }
        ensures later { self.old.faults ≤ self.new.faults }
        ensures failed { OnTrue result (Rose self.old.faults self.new.faults) }
        ensures kept { OnFalse result (self.new.faults ≡ self.old.faults) }
    {
        self.calls = self.calls.saturating_add(1);
        let fails = self.failing.as_slice().contains(&self.calls);
        if fails {
            self.faults = self.faults.saturating_add(1);
        }
        fails
    }
}
