//! The pure core of the synchronisation primitives: what each atomic step does, for every schedule.
#![tactic(auto)]

pub mod steps;

pub use model_events::{SPIN_REPETITIONS, WaitAction, atomic};
