//! The elements of a table as trees. Names are without their backquotes, and numbers are values.

use mt_phrases::Selected;
use mt_types::List;

/// One of the things between the parentheses of a table.
#[derive(Drop)]
pub enum Element {
    /// A column.
    Column {
        /// Its name.
        name: List<u8>,
        /// Its type, as written.
        ty: TypeText,
        /// The codecs of CODEC, if it is given.
        codecs: Option<List<CodecText>>,
    },
    /// A skip index.
    Index {
        /// Its name.
        name: List<u8>,
        /// The name of its column.
        column: List<u8>,
        /// What its entries hold.
        kind: IndexKind,
        /// How many granules an entry covers; 1 where it isn't given.
        granularity: u64,
    },
    /// A projection.
    Projection {
        /// Its name.
        name: List<u8>,
        /// What it selects.
        items: Selected,
        /// The names of GROUP BY, if it is given.
        group: Option<List<List<u8>>>,
        /// The names of ORDER BY, if it is given.
        order: Option<List<List<u8>>>,
    },
}

/// The kind of a skip index.
#[derive(Clone, Copy)]
pub enum IndexKind {
    /// `minmax`.
    Minmax,
    /// `set(N)`, with N as written.
    Set(u64),
}

/// One codec of CODEC.
#[derive(Drop)]
pub struct CodecText {
    /// Its word.
    pub word: List<u8>,
    /// Whether a number in parentheses follows the word.
    pub has_number: bool,
}

/// A type as it is written.
#[cycle(type_text)]
#[derive(Drop)]
pub struct TypeText {
    /// Its word.
    pub word: List<u8>,
    /// What stands in its parentheses; none where it has none.
    pub args: List<TypeArg>,
}

/// An argument of a type.
#[cycle(type_text)]
#[derive(Drop)]
pub enum TypeArg {
    /// A number.
    Number(u64),
    /// A type.
    Type(TypeText),
    /// A text in quotes: the bytes that it stands for.
    Text(List<u8>),
}
