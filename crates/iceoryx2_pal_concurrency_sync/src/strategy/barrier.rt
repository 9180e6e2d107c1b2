//! A barrier: each call waits until as many have come as it was made for.

use crate::OneWord;
pub use running_barrier::{
    Arrivals, BarrierFull, BarrierPass, Rounds, arrivals_are_of_a_run, open_rounds_are_full,
};
use std::alloc::Global;

/// A barrier for a fixed number of waiters.
pub type Barrier<A = Global> = running_barrier::Barrier<A, OneWord>;
