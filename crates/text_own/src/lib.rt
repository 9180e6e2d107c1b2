//! A lock of one's own as a text: its words, its calls, and its table of steps, a row a line; and whether its rows show that it has one holder at
//! most.
#![tactic(auto)]

mod judge;
mod question;
mod row;
mod table;
mod verdict;

pub use row::word_at;
pub use table::{Behind, Calls, OwnLock, read};
pub use verdict::{Judged, answer, begins_own, unmarked};
