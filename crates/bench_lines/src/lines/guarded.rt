//! The lines of the guarded value, and what they are compared with.
ghost use Rattle.running_guarded.specs.GuardedShown.{IsGuardedPass};

use crate::lines::{Operation, successes};
use iceoryx2_pal_concurrency_sync::{WaitAction, WaitResult};
use running_guarded::{Guarded, GuardedPass};
use std::alloc::{AllocError, Global};
use std::sync::atomic::{AtomicU64, Ordering};
use std::sync::{Mutex, Wait};

/// Locks, adds to the number that is guarded, and unlocks, with closures that do nothing.
pub fn add_unlock(rt: &impl Wait, alloc: Global) -> Result<u32, AllocError> {
    match Guarded::new(alloc, 0u64) {
        Ok((guarded, pass)) => Ok(successes(&mut Add { rt, guarded, pass })),
        Err((error, _)) => Err(error),
    }
}

#[derive(Drop)]
struct Add<'r, R: Wait> {
    rt: &'r R,
    guarded: Guarded<u64>,
    pass: GuardedPass,
    ghost own: { IsGuardedPass guarded pass },
}

impl<R: Wait> Operation for Add<'_, R> {
    #[inline(always)]
    fn once(&mut self) -> bool {
        let added = self.guarded.with(
            self.rt,
            &mut self.pass,
            |_, _| WaitAction::Continue,
            |_| (),
            |number| {
                *number = number.wrapping_add(1);
                *number > 0
            },
        );
        matches!(added, WaitResult::Success(true))
    }
}

/// Takes a bare word, adds 1 to a number in plain memory, and frees the word: the least that an addition under a lock can do.
pub fn bare_exchange_add_store() -> u32 {
    successes(&mut BareAdd {
        word: AtomicU64::new(0),
        number: 0,
    })
}

#[derive(Drop)]
struct BareAdd {
    word: AtomicU64,
    number: u64,
}

impl Operation for BareAdd {
    #[inline(always)]
    fn once(&mut self) -> bool {
        let taken = self
            .word
            .compare_exchange(0, 1, Ordering::SeqCst, Ordering::SeqCst);
        self.number = self.number.wrapping_add(1);
        let more = self.number > 0;
        self.word.store(0, Ordering::SeqCst);
        taken.is_ok() && more
    }
}

/// Locks a mutex of std, adds to the number that it guards, and drops the guard.
pub fn std_mutex_add_unlock(rt: &impl Wait) -> u32 {
    successes(&mut StdAdd {
        rt,
        mutex: Mutex::new(0),
    })
}

#[derive(Drop)]
struct StdAdd<'r, R: Wait> {
    rt: &'r R,
    mutex: Mutex<u64>,
}

impl<R: Wait> Operation for StdAdd<'_, R> {
    #[inline(always)]
    fn once(&mut self) -> bool {
        let mut guard = self.mutex.lock(self.rt);
        *guard = guard.wrapping_add(1);
        *guard > 0
    }
}
