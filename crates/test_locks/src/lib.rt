//! The tests of the mutex and the reader-writer locks.
#![tactic(auto)]

#[cfg(test)]
mod tests;
