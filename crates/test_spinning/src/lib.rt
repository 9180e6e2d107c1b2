//! The tests of the running types that wait by spinning: the once, the lazy value, the spin lock and the atomic.
#![tactic(auto)]

#[cfg(test)]
mod tests;
