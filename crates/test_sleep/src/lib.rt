//! The tests of calls that sleep: at a condition variable, on a word or at `Sleepers`. Storms of many that sleep are a program, `test_storm`.
#![tactic(auto)]

#[cfg(test)]
mod tests;
