//! What the steps of a schedule text were, as far as a picture shows them.
//!
//! [`story::play`] plays a text and keeps the rows of its trace, [`several::play`] one of several objects, each with what is told
//! beside it ([`told`]); [`title::title_of`] puts a row in words.
#![tactic(auto)]

pub mod several;
pub mod story;
pub mod title;
pub mod told;
