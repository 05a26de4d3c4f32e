//! The empty column of a type.

ghost use Rattle.std.specs.Prelude.{◌≡◌, [], false, IfOk};
ghost use Rattle.mt_cells.specs.Items.{OfCells, items_in, kind_in};
ghost use Rattle.mt_columns.specs.Shapes.{IsOfType};

use crate::column::Column;
use crate::leaf::Leaf;
use mt_cells::{Cells, Items, Kind, Texts};
use mt_types::{List, NoMemory, Ty, Width};
use std::alloc::Global;

/// The empty column of a type.
pub fn column_of(alloc: Global, ty: &Ty) -> Result<Column, NoMemory>
    ensures shape { IfOk result (λ column. IsOfType ty.now column) }
    ensures values { IfOk result (λ column. column.values ≡ []) }
{
    match ty {
        Ty::UInt(width) => of_cells(alloc, Kind::Unsigned(*width)),
        Ty::Int(width) => of_cells(alloc, Kind::Signed(*width)),
        Ty::FixedString(size) => of_cells(alloc, Kind::Text(*size)),
        Ty::Date => of_cells(alloc, Kind::Unsigned(Width::W16)),
        Ty::Moment => of_cells(alloc, Kind::Unsigned(Width::W32)),
        Ty::Str => of_items(alloc, Items::Texts(Texts::new(alloc))),
        Ty::Nullable(inner) => Ok(column_of(alloc, inner.get())?.optional(alloc)),
        Ty::Array(inner) => column_of(alloc, inner.get())?.array(alloc),
        Ty::State(_, _) | Ty::CountState => of_items(alloc, Items::States(List::new(alloc))),
    }
}

fn of_cells(alloc: Global, kind: Kind) -> Result<Column, NoMemory>
    ensures depth { IfOk result (λ column. column.depth ≡ 0) }
    ensures nullable { IfOk result (λ column. column.nullable ≡ false) }
    ensures kind { IfOk result (λ column. column.kind ≡ OfCells kind) }
    ensures values { IfOk result (λ column. column.values ≡ []) }
{
    of_items(alloc, Items::Cells(Cells::new(alloc, kind)))
}

fn of_items(alloc: Global, items: Items) -> Result<Column, NoMemory>
    requires { items_in items ≡ [] }
    ensures depth { IfOk result (λ column. column.depth ≡ 0) }
    ensures nullable { IfOk result (λ column. column.nullable ≡ false) }
    ensures kind { IfOk result (λ column. column.kind ≡ kind_in items) }
    ensures values { IfOk result (λ column. column.values ≡ []) }
{
    Column::empty(alloc, 0, Leaf::plain(items))
}
