//! The tests of the mutex that guards a value. They stand apart from it, so that it is proved once.
#![tactic(auto)]

#[cfg(test)]
mod tests;
