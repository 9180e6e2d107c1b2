//! The tests of the value that many read or one writes, and of the bounded queue. They stand apart from these, so that each is proved once; and
//! from those of the guarded value, since a check of so many functions would begin anew at each floor of their calls.
#![tactic(auto)]

#[cfg(test)]
mod tests;
