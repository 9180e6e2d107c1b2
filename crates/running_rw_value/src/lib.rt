//! A value that many read at once, or one writes: who has the lock has the value.
//!
//! In front is the writer-preferring lock, which decides who enters: its words, its steps and its closures are those of that lock, and its
//! pass plays that lock's model. Behind it the value lies in the kit's own lock, which can lend it to many. Only who holds the lock in front
//! takes it, so that it is always free for them. Calls that answer a guard take the pass first, since the guard borrows it.
#![tactic(auto)]

mod guard;
mod lock;
mod shares;

pub use guard::{ReadGuard, WriteGuard};
pub use lock::RwLock;
