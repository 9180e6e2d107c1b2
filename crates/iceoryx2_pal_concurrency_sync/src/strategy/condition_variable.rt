//! A condition variable: a call that has a mutex lets it go, waits to be notified, and locks it again.

pub use super::mutex::Mutex;
use crate::OneWord;
pub use running_condvar::{CondPass, CondResult, CountedWait, Waits, Woken, count_is_those_inside};
use std::alloc::Global;

/// A condition variable.
pub type ConditionVariable<A = Global> = running_condvar::ConditionVariable<A, OneWord>;
