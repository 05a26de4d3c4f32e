//! How often an object outside failed.
ghost use Rattle.std.specs.Prelude.{◌≡◌, ◌≤◌};
ghost use Rattle.mt_shelf.specs.Causes.{Rose};
ghost use Rattle.mt_shelf.specs.declared.causes.CallError.TheVariants.{Failed, NoMemory};

use mt_shelf::CallError;
use std::io;
use std::io::ErrorKind;

/// A count of faults, which stands still at its last value.
#[derive(Drop)]
pub struct FaultCount {
    pub faults: u64,
}

impl FaultCount {
    /// No fault yet.
    pub fn new() -> FaultCount
        ensures { result.faults ≡ 0 }
    {
        FaultCount { faults: 0 }
    }

    /// Counts a fault.
    pub fn rise(&mut self)
        ensures later { self.old.faults ≤ self.new.faults }
        ensures rose { Rose self.old.faults self.new.faults }
    {
        self.faults = self.faults.saturating_add(1);
    }

    /// Counts an error as a fault, out of memory aside.
    pub fn cause_of(&mut self, error: &io::Error) -> CallError
        ensures later { self.old.faults ≤ self.new.faults }
        ensures failed { result ≡ Failed → Rose self.old.faults self.new.faults }
        ensures memory { result ≡ NoMemory → self.new.faults ≡ self.old.faults }
    {
        if error.kind() == ErrorKind::OutOfMemory {
            return CallError::NoMemory;
        }
        self.rise();
        CallError::Failed
    }
}
