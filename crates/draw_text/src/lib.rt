//! Pictures of schedule texts.
//!
//! [`run::run`] draws the text that a reader brings, and writes its picture to a writer; [`picture::draw_text`] draws a text that is
//! already there. Moves that are told behind a text ([`parts`]) are drawn beside its steps. The program of the crate beside this one is the first of them over standard input and output.
//!
//! A text is played and its steps are kept (`draw_story`); each step is put in words, and all get their places (`draw_layout`); what has
//! a place is drawn (`draw_parts`); and `picture` makes one picture of it.
#![tactic(auto)]

pub mod parts;
pub mod picture;
pub mod run;

pub use draw_story::{several, story, title};
