//! What the models of all primitives share: events and the words that they change, the rows of a table of steps, holds,
//! and how a waiting call spins and asks.
#![tactic(auto)]

pub mod atomic;
pub mod event;
pub mod hold;
pub mod patience;
pub mod row;
pub mod words;

/// What a wait closure answers: whether the call goes on or may give up.
#[derive(Clone, Copy, Debug, PartialEq, Eq)]
pub enum WaitAction {
    /// The call tries again, and may ask again.
    Continue,
    /// The call looks once more, and gives up where it is still refused.
    Abort,
}

/// How often a call tries again by itself before it asks its wait closure.
pub const SPIN_REPETITIONS: u64 = 10000;
