//! One module for each primitive.
pub mod barrier;
pub mod condition_variable;
pub mod mutex;
pub mod rwlock;
pub mod semaphore;
