//! What no clause says: that the calls succeed with ample memory, how often they call their closures, and threads that really meet.
mod atomic;
mod lazy_lock;
mod once;
mod spin_lock;
