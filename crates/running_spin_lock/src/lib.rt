//! A lock that spins and guards a value: what its holder's guard lends is the value itself.
//!
//! It does what `spin_lock` of the Rust crate does: one swap of 1 takes it, and the guard's end stores 0. Its word is 0 where it is free
//! and 1 where it is locked; the value lies in a slot beside the word, and is out of it while a guard has it. Calls that answer a guard
//! take the pass first, since the guard borrows it.
//!
//! Its passes play the spin lock's model. The rule and the slot of a lock that guards a value, whatever model its passes play, stand here too.
#![tactic(auto)]

mod guard;
mod pass;
mod poison;
mod rule;
mod script;
mod shares;
pub mod slot;
mod spin_lock;

pub use guard::SpinLockGuard;
pub use pass::SpinPass;
pub use poison::{LockResult, PoisonError};
pub use rule::{HeldValue, ValueRule};
pub use script::{PlayedSpin, SpinScript};
pub use spin_lock::{SpinLock, grants_are_of_a_run, one_holder_at_most};
