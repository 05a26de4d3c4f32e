//! What a state does: gathers numbers, merges with others, is printed.

ghost use Rattle.std.specs.Prelude.{◌≡◌, ◌++◌, ◌∷◌, [], ℤ, List, is_some, unwrap_or};
ghost use Rattle.std.specs.Option.{option_copied};
ghost use Rattle.mt_types.specs.declared.value.AggState.{AggState};
ghost use Rattle.mt_table.specs.declared.projection.Aggregate.{Aggregate};
ghost use Rattle.mt_defs.specs.Folds.{state_of, states_join};
ghost use Rattle.mt_agg.specs.States.{finished, state_with};

use mt_table::Aggregate;
use mt_types::Ty;

/// A state that gathers numbers (docs/FORMAT.md, "States"; ClickHouse: `IAggregateFunction`).
pub trait Folding {
    /// The state that contracts see.
    ghost state: { Self → AggState };

    /// The state of no rows.
    fn empty(a: &Aggregate) -> Self
        ensures { state result ≡ state_of a.now [] };

    /// Adds one row's number; a count ignores it.
    fn add(&mut self, v: i128)
        ensures with { state self.new ≡ state_with (state self.old) v }
        ensures fold { (a : Aggregate) (ns : List ℤ) → state self.old ≡ state_of a ns
            → state self.new ≡ state_of a (ns ++ v ∷ []) };

    /// Merges another state into this one. Returns false, with nothing changed, exactly where the
    /// two are of different variants.
    fn merge(&mut self, other: &Self) -> bool
        ensures same { result ≡ is_some (states_join (state self.old) (state other.now)) }
        ensures joined { state self.new ≡ unwrap_or
            (states_join (state self.old) (state other.now)) (state self.old) }
        ensures fold { (a : Aggregate) (ms ns : List ℤ) → state self.old ≡ state_of a ms
            → state other.now ≡ state_of a ns → state self.new ≡ state_of a (ms ++ ns) };

    /// The number that is printed, where the argument has this type: a sum over a signed type is
    /// signed, and 0 stands for the least and the greatest of no rows.
    fn finish(&self, arg: Option<&Ty>) -> i128
        ensures { result ≡ finished (option_copied arg.entry) (state self.now) };
}
