//! `sem_t`: what a thread has of it owns its pass.
ghost use Rattle.std.specs.Prelude.{◌≡◌, IfErr};
ghost use Rattle.demo_posix.specs.declared.errno.Errno.TheVariants as errors;

use crate::errno::Errno;
use sleeping_semaphore::SemaphoreHandle;
use std::sync::Wait;
use std::time::{Clock, Instant};

/// What one thread has of it.
#[derive(Drop)]
pub struct Sem<'s> {
    /// Its handle, of which more can be had.
    pub handle: SemaphoreHandle<'s>,
}

impl Sem<'_> {
    /// `sem_wait`.
    pub fn wait<R: Wait>(&mut self, rt: &R) {
        self.handle.wait(rt);
    }

    /// `sem_trywait`.
    pub fn try_wait<R: Wait>(&mut self, rt: &R) -> Result<(), Errno>
        ensures again { IfErr result (λ error. error ≡ errors.Again) }
    {
        if self.handle.try_wait(rt) {
            Ok(())
        } else {
            Err(Errno::Again)
        }
    }

    /// `sem_timedwait`. `None` is no deadline.
    pub fn timed_wait<R: Wait + Clock>(
        &mut self,
        rt: &R,
        deadline: Option<Instant>,
    ) -> Result<(), Errno>
        ensures timed_out { IfErr result (λ error. error ≡ errors.TimedOut) }
    {
        if self.handle.wait_until(rt, deadline) {
            Ok(())
        } else {
            Err(Errno::TimedOut)
        }
    }

    /// `sem_post`.
    pub fn post(&mut self) {
        self.handle.post(1);
    }
}
