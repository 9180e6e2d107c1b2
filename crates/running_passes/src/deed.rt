//! What a step tells.
ghost use Rattle.std.specs.Prelude.{ℕ};
ghost use Rattle.running_passes.specs.declared.view.View.{View};

use crate::view::View;

/// What a step on a word tells, and so what it changes in the pass: of the key, the step's two operands, the view before, the word
/// found, and the view after.
pub trait Deed<K, T> {
    ghost tells: { K → ℕ → ℕ → View T → ℕ → View T → Type 0 };
}
