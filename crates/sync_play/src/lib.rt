//! Schedule texts: what they ask, and what their events print.
//!
//! [`run`] plays the text that a reader brings, and writes what it prints to a writer; [`play_text`] plays a text that is
//! already there. The program of the crate beside this one is the first of them over standard input and output.
//!
//! A text is walked once: from its lines, as `text_lines` reads them, to its events ([`player`]), and to what they print ([`print`]).
//! [`walk::open`] reads the first line, and [`walk::next_stride`] then plays one stride after the other at a machine of that object. It plays
//! no more than it tells, so whoever walks can ask the machine after each for its words and for who holds what, and keeps of the steps what it
//! likes: a program that shows a run stands on it, as [`text`] does.
#![tactic(auto)]

pub mod law;
pub mod player;
pub mod print;
pub mod streams;
pub mod text;
pub mod walk;

pub use streams::{read_all, run, write_all};
pub use text::play_text;
pub use text_lines::fault::{LineFault, RunFault, TextFault};
pub use text_lines::{call, command, fault, header, integer, lexer, value_type};
