//! The lines of the semaphore.
ghost use Rattle.running_semaphore.specs.SemaphoreShown.{IsSemPass};

use crate::lines::{Operation, successes};
use iceoryx2_pal_concurrency_sync::strategy::semaphore::{SemPass, Semaphore};
use iceoryx2_pal_concurrency_sync::{WaitResult, wake_nobody};
use std::alloc::{AllocError, Global};
use std::sync::Wait;

/// Takes a permit and posts it again, with a closure that does nothing.
pub fn try_wait_post(rt: &impl Wait, alloc: Global) -> Result<u32, AllocError> {
    let (semaphore, pass) = Semaphore::new(alloc, 1)?;
    Ok(successes(&mut TakeAndPost {
        rt,
        semaphore,
        pass,
    }))
}

#[derive(Drop)]
struct TakeAndPost<'r, R: Wait> {
    rt: &'r R,
    semaphore: Semaphore,
    pass: SemPass,
    ghost own: { IsSemPass semaphore pass },
}

impl<R: Wait> Operation for TakeAndPost<'_, R> {
    #[inline(always)]
    fn once(&mut self) -> bool {
        let answer = self.semaphore.try_wait(self.rt, &mut self.pass);
        self.semaphore.post(&mut self.pass, wake_nobody, 1);
        answer == WaitResult::Success(())
    }
}

/// Reads the value.
pub fn value(alloc: Global) -> Result<u32, AllocError> {
    let (semaphore, pass) = Semaphore::new(alloc, 1)?;
    Ok(successes(&mut ReadValue { semaphore, pass }))
}

#[derive(Drop)]
struct ReadValue {
    semaphore: Semaphore,
    pass: SemPass,
    ghost own: { IsSemPass semaphore pass },
}

impl Operation for ReadValue {
    #[inline(always)]
    fn once(&mut self) -> bool {
        self.semaphore.value(&mut self.pass) == 1
    }
}
