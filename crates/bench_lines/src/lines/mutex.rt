//! The lines of the mutex, and what they are compared with.
ghost use Rattle.running_mutex.specs.MutexShown.{IsMutexPass, HasStayed};

use crate::lines::{Operation, go_on, successes};
use iceoryx2_pal_concurrency_sync::strategy::mutex::{Mutex, MutexPass};
use iceoryx2_pal_concurrency_sync::{WaitResult, wake_nobody};
use std::alloc::{AllocError, Global};
use std::sync::atomic::{AtomicU64, Ordering};
use std::sync::{self, Wait};

/// Locks and unlocks, with closures that do nothing.
pub fn lock_unlock(rt: &impl Wait, alloc: Global) -> Result<u32, AllocError> {
    let (mutex, pass) = Mutex::new(alloc)?;
    Ok(successes(&mut Lock { rt, mutex, pass }))
}

#[derive(Drop)]
struct Lock<'r, R: Wait> {
    rt: &'r R,
    mutex: Mutex,
    pass: MutexPass,
    ghost own: { IsMutexPass mutex pass },
}

impl<R: Wait> Operation for Lock<'_, R> {
    #[inline(always)]
    fn once(&mut self) -> bool {
        lock_once(self.rt, &self.mutex, &mut self.pass)
    }
}

#[inline(always)]
fn lock_once<R: Wait>(rt: &R, mutex: &Mutex, pass: &mut MutexPass) -> bool
    requires { IsMutexPass mutex.now pass.old }
    ensures { HasStayed pass.old pass.new }
{
    match Mutex::lock(pass, mutex, rt, go_on) {
        WaitResult::Success(hold) => {
            mutex.unlock(hold, wake_nobody);
            true
        }
        WaitResult::Interrupted => false,
    }
}

/// Tries to lock, and unlocks, with a closure that does nothing.
pub fn try_lock_unlock(alloc: Global) -> Result<u32, AllocError> {
    let (mutex, pass) = Mutex::new(alloc)?;
    Ok(successes(&mut TryLock { mutex, pass }))
}

#[derive(Drop)]
struct TryLock {
    mutex: Mutex,
    pass: MutexPass,
    ghost own: { IsMutexPass mutex pass },
}

impl Operation for TryLock {
    #[inline(always)]
    fn once(&mut self) -> bool {
        try_lock_once(&self.mutex, &mut self.pass)
    }
}

#[inline(always)]
fn try_lock_once(mutex: &Mutex, pass: &mut MutexPass) -> bool
    requires { IsMutexPass mutex.now pass.old }
    ensures { HasStayed pass.old pass.new }
{
    match Mutex::try_lock(pass, mutex) {
        WaitResult::Success(hold) => {
            mutex.unlock(hold, wake_nobody);
            true
        }
        WaitResult::Interrupted => false,
    }
}

/// Makes a mutex and drops it.
pub fn new_drop(alloc: Global) -> u32 {
    successes(&mut NewDrop { alloc })
}

#[derive(Drop)]
struct NewDrop {
    alloc: Global,
}

impl Operation for NewDrop {
    #[inline(always)]
    fn once(&mut self) -> bool {
        match Mutex::new(self.alloc) {
            Ok((mutex, _pass)) => is_used(&mutex),
            Err(_) => false,
        }
    }
}

/// Keeps a mutex from being optimised away.
#[inline(never)]
fn is_used(_mutex: &Mutex) -> bool {
    true
}

/// Takes and frees a bare word: the least that a lock and an unlock can do.
pub fn bare_exchange_store() -> u32 {
    successes(&mut Bare {
        word: AtomicU64::new(0),
    })
}

#[derive(Drop)]
struct Bare {
    word: AtomicU64,
}

impl Operation for Bare {
    #[inline(always)]
    fn once(&mut self) -> bool {
        let word = &self.word;
        let taken = word.compare_exchange(0, 1, Ordering::SeqCst, Ordering::SeqCst);
        word.store(0, Ordering::SeqCst);
        taken.is_ok()
    }
}

/// Locks a mutex of std, reads what it guards, and drops the guard.
pub fn std_mutex_lock_unlock(rt: &impl Wait) -> u32 {
    successes(&mut StdLock {
        rt,
        mutex: sync::Mutex::new(true),
    })
}

#[derive(Drop)]
struct StdLock<'r, R: Wait> {
    rt: &'r R,
    mutex: sync::Mutex<bool>,
}

impl<R: Wait> Operation for StdLock<'_, R> {
    #[inline(always)]
    fn once(&mut self) -> bool {
        let guard = self.mutex.lock(self.rt);
        *guard
    }
}
