//! What is kept of a closure, and so is known of the value that it gives.
use std::marker::Brand;

/// What is kept of a closure until it is called, and so known of the value that it gives. It has no function: a caller that is generic
/// in it is called with `Brand`, and its proof picks the two. With no pick nothing is kept and nothing is known.
pub trait Gives<T, F> {
    // The closures that may lie in the lock.
    ghost may: { F → Type 0 };

    // The values that such a closure gives.
    ghost gives: { F → T → Type 0 };
}

impl<T, F> Gives<T, F> for Brand {
    ghost may = { λ _. Unit {0} };

    ghost gives = { λ _ _. Unit {0} };
}
