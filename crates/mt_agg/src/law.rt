//! The law of states, the contract of a function that does nothing.

ghost use Rattle.std.specs.Prelude.{◌≡◌, ◌++◌, ℤ, List, Some};
ghost use Rattle.mt_table.specs.declared.projection.Aggregate.{Aggregate};
ghost use Rattle.mt_defs.specs.Folds.{state_of, states_join};

/// The states of two lists of numbers, merged, are the state of the two lists together.
pub fn merged_states_are_folds()
    ensures { (a : Aggregate) (ms ns : List ℤ)
        → states_join (state_of a ms) (state_of a ns) ≡ Some (state_of a (ms ++ ns)) }
{}
