//! A mutex that guards a value: who has the lock has the value.
//!
//! Its word, its steps and its closures are those of the mutex, and its passes play the mutex's model. The value lies in a slot beside the
//! word, and is out of it while a guard has it. Calls that answer a guard take the pass first, since the guard borrows it.
#![tactic(auto)]

mod guard;
mod guarded;
mod pass;
mod shares;
mod when;
mod word;

pub use guard::Guard;
pub use guarded::{Guarded, grants_are_of_a_run, one_holder_at_most};
pub use pass::GuardedPass;
pub use word::GuardedWord;
