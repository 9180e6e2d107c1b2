//! The lines of the spin lock, and what they are compared with.
ghost use Rattle.running_spin_lock.specs.SpinShown.{IsSpinPass, HasStayed};

use crate::lines::{Operation, successes};
use iceoryx2_pal_concurrency_sync::spin_lock::{SpinLock, SpinPass};
use std::alloc::{AllocError, Global};
use std::sync::Wait;
use std::sync::atomic::{AtomicU64, Ordering};

/// Locks, adds to the number that is guarded, and drops the guard.
pub fn lock_unlock(rt: &impl Wait, alloc: Global) -> Result<u32, AllocError> {
    match SpinLock::new(alloc, 0u64) {
        Ok((lock, pass)) => Ok(successes(&mut Lock { rt, lock, pass })),
        Err((error, _)) => Err(error),
    }
}

#[derive(Drop)]
struct Lock<'r, R: Wait> {
    rt: &'r R,
    lock: SpinLock<u64>,
    pass: SpinPass,
    ghost own: { IsSpinPass lock pass },
}

impl<R: Wait> Operation for Lock<'_, R> {
    #[inline(always)]
    fn once(&mut self) -> bool {
        add_once(self.rt, &self.lock, &mut self.pass)
    }
}

#[inline(always)]
fn add_once<R: Wait>(rt: &R, lock: &SpinLock<u64>, pass: &mut SpinPass) -> bool
    requires { IsSpinPass lock.now pass.old }
    ensures { HasStayed pass.old pass.new }
{
    let mut guard = SpinLock::blocking_lock(pass, lock, rt);
    *guard = guard.wrapping_add(1);
    *guard > 0
}

/// Swaps 1 into a bare word, and 0: the least that a lock by a swap and an unlock can do.
pub fn bare_swaps() -> u32 {
    successes(&mut BareSwaps {
        word: AtomicU64::new(0),
    })
}

#[derive(Drop)]
struct BareSwaps {
    word: AtomicU64,
}

impl Operation for BareSwaps {
    #[inline(always)]
    fn once(&mut self) -> bool {
        let word = &self.word;
        let found = word.swap(1, Ordering::SeqCst);
        word.swap(0, Ordering::SeqCst);
        found == 0
    }
}
