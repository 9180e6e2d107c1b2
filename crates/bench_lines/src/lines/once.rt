//! The lines of the once, and what they are compared with.
ghost use Rattle.running_once.specs.OnceShown.{IsOncePass};

use crate::lines::{Operation, successes};
use iceoryx2_pal_concurrency_sync::once::{Once, OncePass};
use std::alloc::{AllocError, Global};
use std::sync::{OnceLock, Wait};

/// Calls a once whose closure has ended.
pub fn after(rt: &impl Wait, alloc: Global) -> Result<u32, AllocError> {
    let (once, mut pass) = Once::new(alloc)?;
    once.call_once(rt, &mut pass, || ());
    Ok(successes(&mut CallAfter { rt, once, pass }))
}

#[derive(Drop)]
struct CallAfter<'r, R: Wait> {
    rt: &'r R,
    once: Once,
    pass: OncePass,
    ghost own: { IsOncePass once pass },
}

impl<R: Wait> Operation for CallAfter<'_, R> {
    #[inline(always)]
    fn once(&mut self) -> bool {
        let mut ran = false;
        self.once.call_once(self.rt, &mut self.pass, || ran = true);
        !ran
    }
}

/// Reads a once lock of std that was set.
pub fn std_once_lock_get() -> u32 {
    let lock = OnceLock::new();
    drop(lock.try_set(true));
    successes(&mut StdOnceLock { lock })
}

#[derive(Drop)]
struct StdOnceLock {
    lock: OnceLock<bool>,
}

impl Operation for StdOnceLock {
    #[inline(always)]
    fn once(&mut self) -> bool {
        matches!(self.lock.get(), Some(true))
    }
}
