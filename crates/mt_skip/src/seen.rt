//! Values as keys of sets. No value is copied.

ghost use Rattle.std.specs.Prelude.{◌≡◌, fold, refl};
ghost use Rattle.std.specs.Cmp.{partial_equiv_from_equiv};
ghost use Rattle.std.proofs.lemmas.Cmp.{eq_by_cmp_equiv, on_total};
ghost use Rattle.mt_types.specs.Hashed.{value_writes};
ghost use Rattle.mt_skip.specs.Seen.{is_same_seen, seen_equiv, seen_writes, seen_writes_respects_eq};

use mt_types::{Value, compare, hash_value};
use std::hash::{Hash, Hasher};

/// A value that a set refers to.
#[derive(Clone, Copy)]
pub struct Seen<'a> {
    pub value: &'a Value,
}

impl PartialEq for Seen<'_> {
    ghost eq = { is_same_seen };

    ghost laws = { partial_equiv_from_equiv seen_equiv };

    fn eq(&self, other: &Self) -> bool {
        compare(self.value, other.value).is_eq()
    }
}

impl Eq for Seen<'_> {
    ghost laws = { seen_equiv };
}

impl Hash for Seen<'_> {
    ghost hash_input = { seen_writes };

    ghost respects_eq = { seen_writes_respects_eq };

    fn hash<H: Hasher>(&self, state: &mut H) {
        hash_value(self.value, state);
    }
}
