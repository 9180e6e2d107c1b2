//! Plays a lock of one's own: a text that begins with its table.
//!
//! [`machine::step`] plays one input of a party by the rows. [`text::play_text`] plays any text: one that begins with `object` so, and any other as
//! `text_room` does.
#![tactic(auto)]

pub mod law;
pub mod machine;
pub mod print;
pub mod streams;
pub mod text;
pub mod walk;

pub use streams::run;
pub use text::play_text;
