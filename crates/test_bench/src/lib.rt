//! The tests of the benchmark. They stand apart from it, so that it is proved once.
#![tactic(auto)]

#[cfg(test)]
mod tests;
