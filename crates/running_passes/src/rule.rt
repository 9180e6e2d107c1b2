//! What all passes of an object together say of its words.
ghost use Rattle.std.specs.Prelude.{ℕ, List};
ghost use mathlib.Core.Option as maybe;
ghost use Rattle.running_passes.specs.Views.{IsCounted, first_view};

use crate::tally::Tally;
use crate::view::View;
use atomic_table::TableRule;
use std::marker::PhantomData;

/// What the sum of all tallies says of the words and of the slots at home, under a key that is fixed when the object is made.
pub trait Rule<S, K>: Tally {
    // The tally of the pass that is made with the object.
    ghost first: { K → Self };

    ghost agrees: { K → List ℕ → List (maybe.Option S) → Self → Type 0 };
}

/// The rule of a table whose seats are passes.
pub struct SumRule<T> {
    of: PhantomData<T>,
}

impl<S, K, T: Rule<S, K>> TableRule<S, View<T>, K> for SumRule<T> {
    ghost holds = { λ key. IsCounted T.none T.add (T.agrees key) };

    ghost first = { λ key. first_view (T.first key) };
}
