//! Wide atomics, and those of std under their names.

pub use running_atomic::{Atomic, AtomicPass, AtomicShown, one_history};
pub use std::sync::atomic::{
    AtomicBool, AtomicI8, AtomicI16, AtomicI32, AtomicI64, AtomicIsize, AtomicU8, AtomicU16,
    AtomicU32, AtomicU64, AtomicUsize, Ordering,
};
pub use sync_steps::atomic::internal;
