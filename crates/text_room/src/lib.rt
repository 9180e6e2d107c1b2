//! Texts of several objects, whose parties are shared.
//!
//! [`text::play_text`] plays any text: one of several objects at a room of them, and one of one object as `sync_play` does. A text of several
//! is walked as one of one object is: [`walk::open`] reads the lines that name objects, and [`walk::next_stride`] then plays one stride after
//! the other.
#![tactic(auto)]

pub mod player;
pub mod text;
pub mod walk;

pub use text::play_text;
