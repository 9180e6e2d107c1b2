//! The lines of the value that many read.
ghost use Rattle.running_rw_value.specs.RwValueShown.{IsRwValuePass};

use crate::lines::{Operation, go_on, successes};
use iceoryx2_pal_concurrency_sync::strategy::rwlock::RwWriterPass;
use iceoryx2_pal_concurrency_sync::{WaitResult, wake_nobody};
use running_rw_value::RwLock;
use std::alloc::{AllocError, Global};
use std::sync::Wait;

/// Locks for reading, reads what is guarded, and unlocks, with closures that do nothing.
pub fn read_unlock(rt: &impl Wait, alloc: Global) -> Result<u32, AllocError> {
    match RwLock::new(alloc, true) {
        Ok((lock, pass)) => Ok(successes(&mut Read { rt, lock, pass })),
        Err((error, _)) => Err(error),
    }
}

#[derive(Drop)]
struct Read<'r, R: Wait> {
    rt: &'r R,
    lock: RwLock<bool>,
    pass: RwWriterPass,
    ghost own: { IsRwValuePass lock pass },
}

impl<R: Wait> Operation for Read<'_, R> {
    #[inline(always)]
    fn once(&mut self) -> bool {
        let read = self
            .lock
            .with_read(self.rt, &mut self.pass, go_on, wake_nobody, |held| *held);
        matches!(read, WaitResult::Success(true))
    }
}

/// Locks for writing, reads what is guarded, and unlocks, with closures that do nothing.
pub fn write_unlock(rt: &impl Wait, alloc: Global) -> Result<u32, AllocError> {
    match RwLock::new(alloc, true) {
        Ok((lock, pass)) => Ok(successes(&mut Write { rt, lock, pass })),
        Err((error, _)) => Err(error),
    }
}

#[derive(Drop)]
struct Write<'r, R: Wait> {
    rt: &'r R,
    lock: RwLock<bool>,
    pass: RwWriterPass,
    ghost own: { IsRwValuePass lock pass },
}

impl<R: Wait> Operation for Write<'_, R> {
    #[inline(always)]
    fn once(&mut self) -> bool {
        let written = self.lock.with_write(
            self.rt,
            &mut self.pass,
            go_on,
            wake_nobody,
            wake_nobody,
            |held| *held,
        );
        matches!(written, WaitResult::Success(true))
    }
}
