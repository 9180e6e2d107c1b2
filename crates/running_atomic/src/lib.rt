//! A wide atomic: an integer of 64 or 128 bits in two 64-bit words, under a reader-preferring lock in the same table.
//!
//! It does what `atomic::Atomic` of the Rust crate does. A pass knows the history of the atomic as far as it has seen it, and which acts
//! in it are its own. All passes see one history, in which each answer is the one that the model's register gives: the acts of the run of
//! the model in which the passes are the parties.
#![tactic(auto)]

mod acts;
mod begins;
mod calls;
mod counted;
mod ends;
mod history;
mod locking;
mod pass;
mod script;
mod shares;
mod shown;
mod steps;

pub use calls::{Atomic, one_history};
pub use history::{AtomicAct, AtomicTally, Content, Counts, Heard, Place, Seen};
pub use pass::AtomicPass;
pub use script::{AtomicScript, PlayedAtomic};
pub use shown::AtomicShown;
