//! Codec: no column has a codec but NONE.

ghost use Rattle.std.specs.Prelude.{◌≡◌};
ghost use Rattle.std.specs.List.{list_all};
ghost use Rattle.mt_table_rules.specs.Rules as defined;

use mt_element_syntax::{CodecText, Element};

/// Whether the codecs are the one word NONE.
fn are_none(codecs: &[CodecText]) -> bool
    ensures { result ≡ defined.are_none codecs.now }
{
    match codecs {
        [codec] => codec.word.as_slice() == b"NONE".as_slice() && !codec.has_number,
        _ => false,
    }
}

fn is_uncompressed(element: &Element) -> bool
    ensures { result ≡ defined.is_uncompressed element.now }
{
    match element {
        Element::Column {
            codecs: Some(codecs),
            ..
        } => are_none(codecs.as_slice()),
        _ => true,
    }
}

/// Whether no column has a codec but NONE.
pub fn are_uncompressed(elements: &[Element]) -> bool
    ensures { result ≡ list_all defined.is_uncompressed elements.now }
{
    elements.iter().all(is_uncompressed)
}
