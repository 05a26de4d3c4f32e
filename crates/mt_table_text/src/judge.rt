//! The rules behind the grammar, in order, and the table of a sentence that keeps them.

ghost use Rattle.std.specs.Prelude.{◌≡◌, ◌≤◌, length, IfOk, IsTrue};
ghost use Rattle.mt_syntax.specs.Formed.{is_formed};
ghost use Rattle.mt_table.specs.Kept.{keeps_rules, names_of};
ghost use Rattle.mt_table_text.specs.Judging.{fields_judged, fields_of, from_codecs, from_keys};
ghost use Rattle.mt_table_names.specs.NameSets.{listed};
ghost use Rattle.mt_table_names.specs.Sentence.{column_element_names};
ghost use Rattle.mt_table_names.specs.SentenceNames.{AreOfElements};
ghost use Rattle.mt_table.specs.Tables.{fields_of_table};
ghost use Rattle.mt_table_text.specs.Tables.{GivesFields};

use crate::why::{TableError, TableWhy};
use mt_syntax::TableText;
use mt_table::{Column, MAX_COLUMNS, Settings, Table};
use mt_table_names::{ElementNames, Names, element_names, own_names};
use mt_table_rules::{
    Columns, are_few, are_uncompressed, primary_names, read_columns, read_settings,
};
use mt_types::{List, NoMemory};
use std::alloc::Global;

/// The table of a sentence that keeps the rules.
fn table_of(
    alloc: Global,
    text: &TableText,
    names: &Names,
    columns: List<Column>,
    settings: Settings,
) -> Result<Table, NoMemory>
    requires named { listed names.now ≡ column_element_names text.now.elements }
    requires few { length (listed names.now) ≤ MAX_COLUMNS }
    requires rules { IsTrue (keeps_rules (fields_of columns settings text.now)) }
    ensures { IfOk result (λ table. fields_of_table table ≡ fields_of columns settings text.now) }
{
    let name = List::of_bytes(alloc, text.name.as_slice())?;
    let partition = names.expressions(alloc, text.partition.as_slice())?;
    let sort = names.places(alloc, text.order.as_slice())?;
    let skips = names.skips(alloc, text.elements.as_slice())?;
    let projections = names.projections(alloc, text.elements.as_slice())?;
    Ok(Table {
        name,
        columns,
        partition,
        sort,
        primary: primary_names(text).len() as u32,
        skips,
        projections,
        settings,
    })
}

/// The table of a sentence whose columns are used as they may be, or the first rule behind those that it breaks.
fn judge_rest(
    alloc: Global,
    text: &TableText,
    names: &ElementNames,
    set: &Names,
    columns: List<Column>,
) -> Result<Table, TableError>
    requires formed { IsTrue (is_formed text.now) }
    requires names { AreOfElements names.now text.now.elements }
    requires named { listed set.now ≡ column_element_names text.now.elements }
    requires so_far { fields_judged text.now ≡ from_codecs columns text.now }
    ensures { GivesFields result (fields_judged text.now) }
{
    if !are_uncompressed(text.elements.as_slice()) {
        return Err(TableError::Bad(TableWhy::Codec));
    }
    let Some(settings) = read_settings(text.settings.as_slice()) else {
        return Err(TableError::Bad(TableWhy::Setting));
    };
    if !are_few(text, names) {
        return Err(TableError::Bad(TableWhy::TooMany));
    }
    Ok(table_of(alloc, text, set, columns, settings)?)
}

/// The table of a sentence of these columns, or the first rule that it breaks in their use or behind it.
fn judge_uses(
    alloc: Global,
    text: &TableText,
    names: &ElementNames,
    set: Names,
    columns: List<Column>,
) -> Result<Table, TableError>
    requires formed { IsTrue (is_formed text.now) }
    requires names { AreOfElements names.now text.now.elements }
    requires named { listed set ≡ column_element_names text.now.elements }
    requires same { listed set ≡ names_of columns }
    requires so_far { fields_judged text.now ≡ from_keys columns text.now }
    ensures { GivesFields result (fields_judged text.now) }
{
    let elements = text.elements.as_slice();
    let known = Columns {
        names: set,
        columns: columns.as_slice(),
    };
    if !known.has_keys(alloc, text)? {
        return Err(TableError::Bad(TableWhy::BadKey));
    }
    if !known.has_partition(alloc, text.partition.as_slice())? {
        return Err(TableError::Bad(TableWhy::BadPartition));
    }
    if !known.has_indexes(elements) {
        return Err(TableError::Bad(TableWhy::BadSkip));
    }
    if !known.has_forms(alloc, elements)? {
        return Err(TableError::Bad(TableWhy::BadProjection));
    }
    let Columns { names: set, .. } = known;
    judge_rest(alloc, text, names, &set, columns)
}

/// The table of a sentence, or the first rule that it breaks.
pub(crate) fn judge(alloc: Global, text: &TableText) -> Result<Table, TableError>
    requires { IsTrue (is_formed text.now) }
    ensures { GivesFields result (fields_judged text.now) }
{
    let elements = text.elements.as_slice();
    let names = element_names(alloc, elements)?;
    let Some(columns) = read_columns(alloc, elements)? else {
        return Err(TableError::Bad(TableWhy::NotAType));
    };
    let Some(set) = own_names(alloc, &names)? else {
        return Err(TableError::Bad(TableWhy::TwoNames));
    };
    if !set.has_all(text) {
        return Err(TableError::Bad(TableWhy::NoSuchColumn));
    }
    judge_uses(alloc, text, &names, set, columns)
}
