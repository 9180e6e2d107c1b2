//! The lines of schedule texts: what the first opens, and what each other asks.
//!
//! A text is bytes, which part into lines and words ([`lexer`]). The first line names an object and how many parties it has ([`header`]); each
//! other begins a party's call ([`call`]), moves it on, or answers for its closure ([`command`]). What differs by the object is in [`objects`].
//! What is wrong with a line, and with a text that is run, is a [`fault`].
//!
//! All of it is generic in the integer type of a text's values ([`integer`]), which is that of the atomic that the first line names
//! ([`value_type`]); [`by_value_type!`] calls a function with it.
#![tactic(auto)]

pub mod call;
pub mod command;
pub mod fault;
pub mod header;
pub mod integer;
pub mod law;
pub mod lexer;
pub mod objects;
pub mod several;
pub mod value_type;
