//! Synchronisation primitives out of single atomic 64-bit words; the caller hands in how to wait and how to wake.
//!
//! A port of the Rust crate `iceoryx2-pal-concurrency-sync` 0.10.0, with its names of modules and items. Each object is made together
//! with a pass, the right to call it, which carries what its owner did and saw there. A call that may wait takes `rt`, the right to
//! wait, and its promises hold if it returns; every other call returns where its closures do. Each object stands in a crate of its own,
//! and here under its name; those whose calls take closures show all of them their words as one type, `WaitWord`.
#![tactic(auto)]

pub mod atomic;
pub mod cell;
pub mod lazy_lock;
pub mod once;
pub mod spin_lock;
pub mod strategy;
#[cfg(test)]
mod tests;
mod wait_word;

pub use running_closures::{Sleepers, wake_nobody, yield_and_go_on};
pub use running_passes::{WaitResult, Watched};
pub use running_sharing::{Shares, in_threads};
pub use sync_steps::{SPIN_REPETITIONS, WaitAction, steps};
pub use wait_word::{OneWord, WaitWord};
