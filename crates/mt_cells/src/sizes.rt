//! Sizes of pieces that stand one after another: of texts in their bytes, of arrays in their elements.

ghost use Rattle.std.specs.Prelude.{◌≡◌, ◌++◌, ◌∷◌, [], ◌+◌, ◌-◌, drop, slice_index_or, ◌<◌, ◌≤◌, ◌^◌, length, take, sum};
ghost use Rattle.std.specs.Prelude.{OnOk, OnErr, slice_index};

use mt_types::{List, NoMemory};
use std::alloc::Global;
use std::marker::Model;

/// Sizes, each kept as the end of its piece: the sum of the sizes up to it.
#[derive(Drop)]
pub struct Sizes {
    ends: List<u64>,
}

impl Model for Sizes {
    ghost use Rattle.std.specs.Prelude.{ℕ, List};
    ghost use Rattle.std.specs.Coded.{coded_list, coded_ℕ};
    ghost use Rattle.mt_cells.specs.Pieces.{Rises, steps};

    ghost Value = { List ℕ };

    ghost coded = { coded_list coded_ℕ };

    ghost view = { λ s. steps 0 s.ends };

    ghost invariant = { λ s. Rises 0 s.ends };
}

impl Sizes {
    /// No sizes. It takes no memory.
    pub fn new(alloc: Global) -> Sizes
        ensures { result ≡ [] }
    {
        Sizes {
            ends: List::new(alloc),
        }
    }

    /// How many there are.
    pub fn len(&self) -> usize
        ensures { result ≡ length self.now }
    {
        self.ends.len()
    }

    /// Where a piece begins: the sum of the sizes before it.
    pub fn start(&self, index: usize) -> u64
        requires { index ≤ length self.now }
        ensures { result ≡ sum (take index self.now) }
    {
        end_before(self.ends.as_slice(), index)
    }

    /// Where a piece ends: the sum of the sizes up to its own.
    pub fn end(&self, index: usize) -> u64
        requires { index < length self.now }
        ensures { result ≡ sum (take (index + 1) self.now) }
    {
        end_at(self.ends.as_slice(), index)
    }

    /// The sum of all sizes.
    pub fn total(&self) -> u64
        ensures { result ≡ sum self.now }
    {
        self.start(self.len())
    }

    /// Appends a size.
    pub fn push(&mut self, size: u64) -> Result<(), NoMemory>
        ensures ok { OnOk result (self.new ≡ self.old ++ size ∷ []) }
        ensures err { OnErr result (self.new ≡ self.old) }
    {
        let Some(end) = self.total().checked_add(size) else {
            return Err(NoMemory);
        };
        self.ends.push(end)?;
        Ok(())
    }

    /// The size of a piece.
    pub fn get(&self, index: usize) -> u64
        requires { index < length self.now }
        ensures { result ≡ slice_index_or self.now index 0 }
    {
        self.end(index) - self.start(index)
    }

    /// Appends sizes of other pieces, those from an index on and before another. On `NoMemory` some of
    /// them may be appended.
    pub fn append(&mut self, other: &Sizes, from: usize, to: usize) -> Result<(), NoMemory>
        requires order { from ≤ to }
        requires within { to ≤ length other.now }
        ensures { OnOk result (self.new ≡ self.old ++ take (to - from) (drop from other.now)) }
    {
        for index in from..to {
            self.push(other.get(index))?;
        }
        Ok(())
    }
}

/// The end of the piece before an index; the first piece begins at 0.
fn end_before(ends: &[u64], index: usize) -> u64
    requires { index ≤ length ends.now }
    ensures { result ≡ slice_index (0 ∷ ends.now) index }
{
    if index == 0 { 0 } else { ends[index - 1] }
}

/// The end of a piece.
fn end_at(ends: &[u64], index: usize) -> u64
    requires { index < length ends.now }
    ensures { result ≡ slice_index ends.now index }
{
    ends[index]
}
