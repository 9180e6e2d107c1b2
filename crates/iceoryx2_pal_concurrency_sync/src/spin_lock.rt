//! A lock that spins and guards a value.

pub use running_for_one::Holds;
pub use running_spin_lock::{
    LockResult, PoisonError, SpinLock, SpinLockGuard, SpinPass, grants_are_of_a_run,
    one_holder_at_most,
};
