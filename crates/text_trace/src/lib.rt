//! The trace of a schedule text: each step of its run, a row each, in columns that line up.
//!
//! [`trace::trace_text`] traces a text; `run` of `text_advice` one that a reader brings.
//!
//! A text is walked once (`sync_play::walk`): each step becomes the cells of a row ([`cells`]), steps that read the same are folded into one row
//! ([`rows`]), and the rows are laid out ([`table`]). One of several objects is walked by `text_room::walk` ([`several`]), and one
//! of a lock of one's own by `own_play::walk`.
#![tactic(auto)]

pub mod cells;
mod own;
pub mod rows;
pub mod several;
pub mod table;
pub mod trace;
