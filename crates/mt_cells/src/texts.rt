//! Texts, one after another.

ghost use Rattle.std.specs.Prelude.{◌≡◌, ◌++◌, ◌∷◌, [], ◌-◌, ◌<◌, ◌≤◌, ◌↔◌, length, map, take, drop};
ghost use Rattle.std.specs.Prelude.{slice_index_or, All, IfOk, IsTrue, OnOk, OnErr};
ghost use Rattle.std.specs.List.{flat_map};
ghost use Rattle.std.specs.Ordering.{nat_cmp};
ghost use Rattle.std.specs.Cmp.Lexicographic.{slice_cmp};
ghost use Rattle.mt_cells.specs.Pieces.{text_item};

use crate::sizes::Sizes;
use mt_types::{List, NoMemory, varint_put};
use std::alloc::Global;
use std::cmp::Ordering;
use std::marker::Model;

/// Texts, one after another: their bytes without their lengths, and their sizes beside them (ClickHouse:
/// `ColumnString`).
#[derive(Drop)]
pub struct Texts {
    sizes: Sizes,
    bytes: Vec<u8>,
}

impl Model for Texts {
    ghost use Rattle.std.specs.Prelude.{◌≡◌, ℕ, List, length, sum};
    ghost use Rattle.std.specs.Coded.{coded_list, coded_ℕ};
    ghost use Rattle.mt_cells.specs.Pieces.{cut};

    ghost Value = { List (List ℕ) };

    ghost coded = { coded_list (coded_list coded_ℕ) };

    ghost view = { λ t. cut t.sizes t.bytes.items };

    ghost invariant = { λ t. length t.bytes.items ≡ sum t.sizes };
}

impl Texts {
    /// No texts. It takes no memory.
    pub fn new(alloc: Global) -> Texts
        ensures { result ≡ [] }
    {
        Texts {
            sizes: Sizes::new(alloc),
            bytes: Vec::new(alloc),
        }
    }

    /// How many there are.
    pub fn len(&self) -> usize
        ensures { result ≡ length self.now }
    {
        self.sizes.len()
    }

    /// A text. It takes no memory.
    pub fn get(&self, index: usize) -> &[u8]
        requires { index < length self.now }
        ensures { result.now ≡ slice_index_or self.now index [] }
    {
        let start = self.sizes.start(index) as usize;
        let end = self.sizes.end(index) as usize;
        piece(self.bytes.as_slice(), start, end)
    }

    /// Whether a text has no bytes.
    pub fn is_empty_at(&self, index: usize) -> bool
        requires { index < length self.now }
        ensures { IsTrue result ↔ (slice_index_or self.now index [] ≡ []) }
    {
        self.get(index).is_empty()
    }

    /// Appends a text.
    pub fn push(&mut self, text: &[u8]) -> Result<(), NoMemory>
        ensures ok { OnOk result (self.new ≡ self.old ++ text.now ∷ []) }
        ensures err { OnErr result (self.new ≡ self.old) }
    {
        let size = text.len() as u64;
        let before = self.bytes.len();
        self.bytes.extend_from_slice(text)?;
        match self.sizes.push(size) {
            Ok(()) => Ok(()),
            Err(error) => {
                self.bytes.truncate(before);
                Err(error)
            }
        }
    }

    /// With texts of another list behind, those from an index on and before another. On `NoMemory` the
    /// list is dropped.
    pub fn append(self, other: &Texts, from: usize, to: usize) -> Result<Texts, NoMemory>
        requires order { from ≤ to }
        requires within { to ≤ length other.now }
        ensures { IfOk result (λ texts. texts ≡ self ++ take (to - from) (drop from other.now)) }
    {
        let Texts {
            mut sizes,
            mut bytes,
        } = self;
        let start = other.sizes.start(from) as usize;
        let end = other.sizes.start(to) as usize;
        sizes.append(&other.sizes, from, to)?;
        bytes.extend_from_slice(piece(other.bytes.as_slice(), start, end))?;
        Ok(Texts { sizes, bytes })
    }

    /// The texts of these indexes, in their order.
    pub fn gather(&self, alloc: Global, order: &[usize]) -> Result<Texts, NoMemory>
        requires { All (λ index. index < length self.now) order.now }
        ensures { IfOk result (λ gathered. gathered
            ≡ map (λ index. slice_index_or self.now index []) order.now) }
    {
        let mut gathered = Texts::new(alloc);
        for index in order {
            gathered.push(self.get(*index))?;
        }
        Ok(gathered)
    }

    /// How two texts compare: by their bytes.
    pub fn compare(&self, a: usize, b: usize) -> Ordering
        requires a { a < length self.now }
        requires b { b < length self.now }
        ensures { result ≡ slice_cmp nat_cmp (slice_index_or self.now a [])
            (slice_index_or self.now b []) }
    {
        self.get(a).cmp(self.get(b))
    }

    /// Appends the items of texts, those from an index on and before another: each after its length.
    pub fn put_items(&self, from: usize, to: usize, out: &mut List<u8>) -> Result<(), NoMemory>
        requires order { from ≤ to }
        requires within { to ≤ length self.now }
        ensures { OnOk result (out.new
            ≡ out.old ++ flat_map text_item (take (to - from) (drop from self.now))) }
    {
        for index in from..to {
            put_text(self.get(index), out)?;
        }
        Ok(())
    }
}

/// The bytes between two places.
fn piece(bytes: &[u8], start: usize, end: usize) -> &[u8]
    requires order { start ≤ end }
    requires within { end ≤ length bytes.now }
    ensures { result.now ≡ take (end - start) (drop start bytes.now) }
{
    &bytes[start..end]
}

/// Appends a text after its length.
fn put_text(text: &[u8], out: &mut List<u8>) -> Result<(), NoMemory>
    ensures { OnOk result (out.new ≡ out.old ++ text_item text.now) }
{
    let mut encoding = [0; 10];
    let size = varint_put(text.len() as u64, &mut encoding);
    out.append(&encoding[..size])?;
    out.append(text)
}
