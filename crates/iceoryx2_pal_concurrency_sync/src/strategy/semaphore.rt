//! A counting semaphore.

use crate::OneWord;
pub use running_semaphore::{Permits, SemPass, permits_are_of_a_run};
use std::alloc::Global;

/// A counting semaphore.
pub type Semaphore<A = Global> = running_semaphore::Semaphore<A, OneWord>;
