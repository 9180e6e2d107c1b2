//! What the reader-writer locks share: what their passes count, the hold that a granted lock gives, and what a reader does. And the model
//! that the reader-preferring lock plays, since its passes count holds alone.
//!
//! A lock makes a hold of the pass that is lent to a call, by `read_hold` or `write_hold`, and takes that pass out again where it is
//! unlocked, by `end_read_hold` or `end_write_hold`. These are for the locks alone: who holds one spends it by `unlock`.
#![tactic(auto)]

mod held;
mod hold;
mod reading;
mod rw_reader;

pub use held::{Held, Known};
pub use hold::{
    ReadHold, RwHold, RwPass, WriteHold, end_read_hold, end_write_hold, read_hold, write_hold,
};
pub use reading::{ReadSteps, try_to_read, wait_to_read};
pub use rw_reader::{PlayedRwReader, RwReaderScript};
