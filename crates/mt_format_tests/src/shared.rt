//! Values and types may be shared by threads, and passed to them.

use mt_types::{Boxed, List, NoMemory, Row, Ty, TyError, Value, varint_get};
use std::test::Fail;

fn share<T: Send + Sync>(_shared: &T) {}

#[test]
fn threads_may_share_and_pass_all_of_it(rt: HostRuntime) -> Result<(), Fail> {
    let row: Row = List::new(rt.alloc());
    let ty = Ty::Array(Boxed::new(rt.alloc(), Ty::Str)?);
    share(&row);
    share(&ty);
    share(&Value::Null);
    share(&NoMemory);
    share(&TyError::NotAType);
    share(&varint_get(b""));
    Ok(())
}
