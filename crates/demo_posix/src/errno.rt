//! Why a call did nothing.

/// The codes that calls answer.
#[derive(Clone, Copy, Debug, PartialEq, Eq)]
pub enum Errno {
    /// EAGAIN: it is locked as often as it can be, or there is no permit.
    Again,
    /// EBUSY: it is locked.
    Busy,
    /// EDEADLK: the thread has it locked itself.
    Deadlock,
    /// EPERM: the thread does not have it locked.
    NotPermitted,
    /// ETIMEDOUT: it was not to be had before the deadline.
    TimedOut,
}
