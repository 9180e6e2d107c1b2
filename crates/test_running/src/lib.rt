//! The tests of the semaphore and the barrier, and of no memory for any object. Those of the other running types are in `test_locks`, `test_sleep`
//! and `test_spinning`: a check of many functions costs more for each.
#![tactic(auto)]

#[cfg(test)]
mod tests;
