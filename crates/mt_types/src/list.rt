//! Lists: a `Vec` that a contract sees as the list of its elements.

ghost use Rattle.std.specs.Prelude.{◌≡◌, ◌↔◌, [], ◌∷◌, ◌++◌, length};
ghost use Rattle.std.specs.Prelude.{IfOk, IsTrue, OnOk, OnErr};

use crate::memory::NoMemory;
use std::alloc::Global;
use std::marker::Model;

/// A `Vec` that contracts see as the list of its elements, so that a copy equals its source.
#[derive(Debug, Drop)]
pub struct List<T> {
    items: Vec<T>,
}

impl<T> Model for List<T> {
    ghost use Rattle.std.specs.Prelude.{List};
    ghost use Rattle.std.specs.Coded.{coded_list};

    ghost Value = { List T };

    ghost coded = { coded_list T.code };

    ghost view = { λ list. list.items.items };
}

impl<T> List<T> {
    /// The empty list. It takes no memory.
    pub fn new(alloc: Global) -> List<T>
        ensures { result ≡ [] }
    {
        List {
            items: Vec::new(alloc),
        }
    }

    /// The list of a `Vec`'s elements. It takes no memory.
    pub fn of(items: Vec<T>) -> List<T>
        ensures { result ≡ items.items }
    {
        List { items }
    }

    /// Its elements, in order.
    pub fn as_slice(&self) -> &[T]
        ensures { result.now ≡ self.now }
    {
        self.items.as_slice()
    }

    /// Gives the `Vec` back.
    pub fn into_vec(self) -> Vec<T>
        ensures { result.items ≡ self }
    {
        let List { items } = self;
        items
    }

    /// The number of its elements.
    pub fn len(&self) -> usize
        ensures { result ≡ length self.now }
    {
        self.items.len()
    }

    /// Whether it has no element.
    pub fn is_empty(&self) -> bool
        ensures { IsTrue result ↔ (self.now ≡ []) }
    {
        self.items.is_empty()
    }
}

impl<T: Drop> List<T> {
    /// The empty list, with room for so many elements.
    pub fn with_capacity(alloc: Global, count: usize) -> Result<List<T>, NoMemory>
        ensures { IfOk result (λ list. list ≡ []) }
    {
        Ok(List {
            items: Vec::with_capacity(alloc, count)?,
        })
    }

    /// Appends an element. On `NoMemory` the list is unchanged and the element is dropped.
    pub fn push(&mut self, item: T) -> Result<(), NoMemory>
        ensures ok { OnOk result (self.new ≡ self.old ++ item ∷ []) }
        ensures err { OnErr result (self.new ≡ self.old) }
    {
        self.items.push(item)?;
        Ok(())
    }
}

impl List<u8> {
    /// A list of the same bytes.
    pub fn of_bytes(alloc: Global, bytes: &[u8]) -> Result<List<u8>, NoMemory>
        ensures { IfOk result (λ list. list ≡ bytes.now) }
    {
        Ok(List::of(Vec::from_slice(alloc, bytes)?))
    }

    /// Appends bytes. On `NoMemory` the list is unchanged.
    pub fn append(&mut self, bytes: &[u8]) -> Result<(), NoMemory>
        ensures ok { OnOk result (self.new ≡ self.old ++ bytes.now) }
        ensures err { OnErr result (self.new ≡ self.old) }
    {
        self.items.extend_from_slice(bytes)?;
        Ok(())
    }
}
