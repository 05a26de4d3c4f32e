//! Sets of names, in which a name is found at once.

ghost use Rattle.std.specs.Prelude.{◌≡◌, IfOk};
ghost use Rattle.mt_strays.specs.NameSets.{HasNames, is_in_set};

use indexmap::IndexSet;
use mt_types::{List, NoMemory};
use std::alloc::Global;

/// A set of names.
#[derive(Drop)]
pub(crate) struct NameSet<'a> {
    set: IndexSet<&'a [u8]>,
}

impl<'a> NameSet<'a> {
    /// The set of some names, of which some may stand there twice.
    pub(crate) fn of(alloc: Global, names: &'a [List<u8>]) -> Result<NameSet<'a>, NoMemory>
        ensures { IfOk result (λ set. HasNames set names.now) }
    {
        let mut set = IndexSet::with_capacity(alloc, names.len())?;
        for name in names {
            set.insert(name.as_slice())?;
        }
        Ok(NameSet { set })
    }

    /// Whether the name is one of them.
    pub(crate) fn contains(&self, name: &[u8]) -> bool
        ensures { result ≡ is_in_set self.now name.now }
    {
        self.set.contains(name)
    }
}
