//! The tests of the handles, apart from them, so that each is proved once.
#![tactic(auto)]

#[cfg(test)]
mod tests;
