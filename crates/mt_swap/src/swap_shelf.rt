//! A shelf that becomes another.
ghost use Rattle.std.specs.Prelude.{◌≡◌, ◌≤◌, ◌-◌, Some, None, true, false, is_some, IsTrue, OnOk, OnErr, IfOk, IfSome, length};
ghost use Rattle.mt_shelf.specs.State.{State, files_of};
ghost use Rattle.mt_shelf.specs.Causes.{Rose};
ghost use Rattle.mt_shelf.specs.declared.causes.CallError.TheVariants.{Failed};
ghost use Rattle.mt_swap.specs.Swaps.{serving_of};

use mt_shelf::{CallError, Entry, Shelf, SureShelf};
use mt_types::List;

/// Files in memory in whose place others come: calls up to a number go to one shelf, later ones to another.
///
/// What a caller learned of the first may be wrong of the second, so its content isn't told, as that of real folders.
#[derive(Drop)]
pub struct SwapShelf {
    serving: SureShelf,
    next: Option<SureShelf>,
    // How many calls come before the turn.
    left: u64,
    // Whether a draft was begun, and whether the serving shelf has it.
    begun: bool,
    drafting: bool,
    taken: u64,
    faults: u64,
    ghost draft: { drafting ≡ true → (⟦<SureShelf as Shelf>⟧.state serving).begun ≡ true },
}

impl SwapShelf {
    /// Calls up to number `turn`, from 1, go to the first shelf and later ones to the second. No draft is open in either.
    pub fn new(first: SureShelf, second: SureShelf, turn: u64) -> SwapShelf
        ensures state { ⟦<SwapShelf as Shelf>⟧.state result ≡ record { content = None; begun = false; taken = 0 } }
        ensures faults { ⟦<SwapShelf as Shelf>⟧.faults result ≡ 0 }
    {
        SwapShelf {
            serving: first,
            next: Some(second),
            left: turn,
            begun: false,
            drafting: false,
            taken: 0,
            faults: 0,
        }
    }

    /// How often it failed: the second shelf lacks what a caller knew of the first.
    pub fn fault_count(&self) -> u64
        ensures { result ≡ ⟦<SwapShelf as Shelf>⟧.faults self.now }
    {
        self.faults
    }

    // Counts a call; from the turn on the other shelf serves, which has no draft.
    fn count_call(&mut self)
        ensures serving { self.new.serving ≡ serving_of self.old.left self.old.next self.old.serving }
        ensures left { self.new.left ≡ self.old.left - 1 }
        ensures begun { self.new.begun ≡ self.old.begun }
        ensures taken { self.new.taken ≡ self.old.taken }
        ensures faults { self.new.faults ≡ self.old.faults }
    {
        if self.left > 0 {
            self.left -= 1;
            return;
        }
        if let Some(next) = self.next.take() {
            self.drafting = false;
            self.serving = next;
        }
    }

    // Counts a fault.
    fn fail(&mut self) -> CallError
        ensures error { result ≡ Failed }
        ensures later { self.old.faults ≤ self.new.faults }
        ensures rose { Rose self.old.faults self.new.faults }
        ensures begun { self.new.begun ≡ self.old.begun }
        ensures taken { self.new.taken ≡ self.old.taken }
    {
        self.faults = self.faults.saturating_add(1);
        CallError::Failed
    }
}

impl Shelf for SwapShelf {
    ghost use Rattle.std.specs.Prelude.{None};
    ghost use Rattle.mt_shelf.specs.State.{State};

    ghost state = { λ s. record { content = None; begun = s.begun; taken = s.taken } };

    ghost faults = { λ s. s.faults };

    ghost paths = { λ _. tt };

    ghost bytes = { λ _. tt };

    fn size(&mut self, path: &str) -> Result<Option<u64>, CallError> {
        self.count_call();
        self.serving.size(path)
    }

    fn list(&mut self, part: &str) -> Result<Option<List<Entry>>, CallError> {
        self.count_call();
        self.serving.list(part)
    }

    fn exists(&mut self, part: &str) -> Result<bool, CallError> {
        self.count_call();
        self.serving.exists(part)
    }

    fn read(&mut self, path: &str, at: u64, into: &mut [u8]) -> Result<usize, CallError> {
        self.count_call();
        match self.serving.size(path)? {
            Some(size) if at < size => {
                let count = self.serving.read(path, at, into)?;
                self.taken = self.taken.saturating_add(count as u64);
                Ok(count)
            }
            _ => Err(self.fail()),
        }
    }

    fn begin(&mut self, part: &str) -> Result<(), CallError> {
        self.count_call();
        self.begun = false;
        self.drafting = false;
        self.serving.begin(part)?;
        self.begun = true;
        self.drafting = true;
        Ok(())
    }

    fn put(&mut self, name: &str, bytes: &[u8]) -> Result<(), CallError> {
        self.count_call();
        self.begun = false;
        if !self.drafting {
            return Err(self.fail());
        }
        self.drafting = false;
        self.serving.put(name, bytes)?;
        self.begun = true;
        self.drafting = true;
        Ok(())
    }

    fn publish(&mut self) -> Result<(), CallError> {
        self.count_call();
        self.begun = false;
        if !self.drafting {
            return Err(self.fail());
        }
        self.drafting = false;
        self.serving.publish()
    }
}
