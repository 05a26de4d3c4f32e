//! Lists of one element or of none.

ghost use Rattle.std.specs.Prelude.{◌≡◌, ◌∷◌, [], IfOk, unwrap_or};

use mt_types::{List, NoMemory};
use std::alloc::Global;

/// The list of one element.
pub fn singleton<T: Drop>(alloc: Global, item: T) -> Result<List<T>, NoMemory>
    ensures { IfOk result (λ list. list ≡ item ∷ []) }
{
    let mut list = List::new(alloc);
    list.push(item)?;
    Ok(list)
}

/// The list, or the empty one.
pub fn or_empty<T: Drop>(alloc: Global, list: Option<List<T>>) -> List<T>
    ensures { result ≡ unwrap_or list [] }
{
    match list {
        Some(list) => list,
        None => List::new(alloc),
    }
}
