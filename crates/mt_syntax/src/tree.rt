//! The sentence of a table text as a tree. Names are without their backquotes, and numbers are values.

use mt_element_syntax::Element;
use mt_types::List;

/// What a table text says (ClickHouse: `ASTCreateQuery`).
#[derive(Drop)]
pub struct TableText {
    /// The table's name, without its database.
    pub name: List<u8>,
    /// Columns, indexes and projections in the text's order.
    pub elements: List<Element>,
    /// The expressions of PARTITION BY; none where it isn't given.
    pub partition: List<PartitionText>,
    /// The names of PRIMARY KEY, if it is given.
    pub primary: Option<List<List<u8>>>,
    /// The names of ORDER BY.
    pub order: List<List<u8>>,
    /// The settings in the text's order; none where SETTINGS isn't given.
    pub settings: List<SettingText>,
}

/// One expression of a partition key.
#[derive(Drop)]
pub enum PartitionText {
    /// A column.
    Plain(List<u8>),
    /// `toYYYYMM` of a column.
    Month(List<u8>),
}

/// One setting.
#[derive(Drop)]
pub struct SettingText {
    /// Its name, as written.
    pub name: List<u8>,
    /// Its value.
    pub value: SettingValue,
}

/// The value of a setting. Of a text or a word no more is kept, since no rule speaks of it.
#[derive(Clone, Copy)]
pub enum SettingValue {
    /// A number.
    Number(u64),
    /// A text in quotes.
    Text,
    /// A word.
    Word,
}
