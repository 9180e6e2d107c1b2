//! A lock with one holder at most.

use crate::OneWord;
pub use running_for_one::Holds;
pub use running_mutex::{MutexHold, MutexPass, grants_are_of_a_run, one_holder_at_most};
use std::alloc::Global;

/// A lock with one holder at most.
pub type Mutex<A = Global> = running_mutex::Mutex<A, OneWord>;
