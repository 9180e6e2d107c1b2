//! How the steps of a story are put in words, and where everything stands in its picture.
//!
//! What the values of an object's words mean, in its own terms (`terms`, and `value` of an atomic); a step in words and how it is marked
//! (`label`); what the words held (`band`), and variables (`variable`); what each party did (`lane`), with their places; and the places of all
//! (`layout`).
#![tactic(auto)]

pub mod band;
pub mod label;
pub mod lane;
pub mod layout;
pub mod terms;
pub mod value;
mod variable;
mod width;
