//! The tests of the model. They stand apart, since a crate with tests is proved twice, and its edits wait for both.
#![tactic(auto)]

#[cfg(test)]
mod tests;
