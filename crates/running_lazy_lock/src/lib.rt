//! A value that is made when it is first asked for, by a closure that runs once.
//!
//! It does what `lazy_lock` of the Rust crate does, but that `force` is the only way to the value, since it may wait, and that the
//! value is dropped with the lock. The closure lies in a spin lock beside a once; the party whose exchange began takes it out.
#![tactic(auto)]

mod forcing;
mod gives;
mod init;
mod lazy_lock;
mod pass;
mod shares;

pub use gives::Gives;
pub use lazy_lock::LazyLock;
pub use pass::LazyPass;
