//! The condition variable and its mutex: the mutex's word, the count of those that wait, and the permits that notifies give them.

pub use model_condvar::permits_for;
