//! Lists of different names, in which a name is found at once.

ghost use Rattle.std.specs.Prelude.{◌≡◌, length, IfOk, MatchOption, false};
ghost use Rattle.mt_table.specs.Names.{are_among, is_among, names_differ};
ghost use Rattle.mt_table_names.specs.NameSets.{AreListed, listed};
ghost use Rattle.mt_table_names.specs.Sentence.{place_in};

use indexmap::IndexSet;
use mt_types::{List, NoMemory};
use std::alloc::Global;

/// Different names in their order.
#[derive(Drop)]
pub struct Names<'a> {
    set: IndexSet<&'a [u8]>,
}

/// The names, if they differ.
pub fn distinct<'a>(alloc: Global, names: &'a [List<u8>]) -> Result<Option<Names<'a>>, NoMemory>
    ensures { IfOk result (λ found. MatchOption found (names_differ names.now ≡ false)
        (λ set. AreListed set names.now)) }
{
    let mut set = IndexSet::with_capacity(alloc, names.len())?;
    for name in names {
        let (_, is_new) = set.insert_full(name.as_slice())?;
        if !is_new {
            return Ok(None);
        }
    }
    Ok(Some(Names { set }))
}

impl<'a> Names<'a> {
    /// Whether the name is one of them.
    pub fn contains(&self, name: &[u8]) -> bool
        ensures { result ≡ is_among (listed self.now) name.now }
    {
        self.set.contains(name)
    }

    /// How many there are.
    pub fn len(&self) -> usize
        ensures { result ≡ length (listed self.now) }
    {
        self.set.len()
    }

    /// Where the name stands, or how many there are.
    pub fn place(&self, name: &[u8]) -> usize
        ensures { result ≡ place_in (listed self.now) name.now }
    {
        match self.set.get_index_of(name) {
            Some(place) => place,
            None => self.set.len(),
        }
    }
}

impl<'a> Names<'a> {
    /// Whether each of some names is one of them.
    pub fn contains_all(&self, some: &[List<u8>]) -> bool
        ensures { result ≡ are_among (listed self.now) some.now }
    {
        some.iter().all(|name| self.contains(name.as_slice()))
    }
}

/// Whether no name stands twice.
pub fn differ(alloc: Global, names: &[List<u8>]) -> Result<bool, NoMemory>
    ensures { IfOk result (λ they_do. they_do ≡ names_differ names.now) }
{
    Ok(distinct(alloc, names)?.is_some())
}
