//! The lines of the reader-preferring lock, and what they are compared with.
ghost use Rattle.running_rw_reader.specs.RwReaderShown.{IsRwReaderPass, HasStayed};

use crate::lines::{Operation, go_on, successes};
use iceoryx2_pal_concurrency_sync::strategy::rwlock::{RwLockReaderPreference, RwReaderPass};
use iceoryx2_pal_concurrency_sync::{WaitResult, wake_nobody};
use std::alloc::{AllocError, Global};
use std::sync::atomic::{AtomicU64, Ordering};
use std::sync::{RwLock, Wait};

/// Locks for reading and unlocks, with closures that do nothing.
pub fn read_unlock(rt: &impl Wait, alloc: Global) -> Result<u32, AllocError> {
    let (lock, pass) = RwLockReaderPreference::new(alloc)?;
    Ok(successes(&mut Read { rt, lock, pass }))
}

#[derive(Drop)]
struct Read<'r, R: Wait> {
    rt: &'r R,
    lock: RwLockReaderPreference,
    pass: RwReaderPass,
    ghost own: { IsRwReaderPass lock pass },
}

impl<R: Wait> Operation for Read<'_, R> {
    #[inline(always)]
    fn once(&mut self) -> bool {
        read_once(self.rt, &self.lock, &mut self.pass)
    }
}

#[inline(always)]
fn read_once<R: Wait>(rt: &R, lock: &RwLockReaderPreference, pass: &mut RwReaderPass) -> bool
    requires { IsRwReaderPass lock.now pass.old }
    ensures { HasStayed pass.old pass.new }
{
    match RwLockReaderPreference::read_lock(pass, lock, rt, go_on) {
        WaitResult::Success(hold) => {
            lock.unlock(hold, wake_nobody);
            true
        }
        WaitResult::Interrupted => false,
    }
}

/// Locks for writing and unlocks, with closures that do nothing.
pub fn write_unlock(rt: &impl Wait, alloc: Global) -> Result<u32, AllocError> {
    let (lock, pass) = RwLockReaderPreference::new(alloc)?;
    Ok(successes(&mut Write { rt, lock, pass }))
}

#[derive(Drop)]
struct Write<'r, R: Wait> {
    rt: &'r R,
    lock: RwLockReaderPreference,
    pass: RwReaderPass,
    ghost own: { IsRwReaderPass lock pass },
}

impl<R: Wait> Operation for Write<'_, R> {
    #[inline(always)]
    fn once(&mut self) -> bool {
        write_once(self.rt, &self.lock, &mut self.pass)
    }
}

#[inline(always)]
fn write_once<R: Wait>(rt: &R, lock: &RwLockReaderPreference, pass: &mut RwReaderPass) -> bool
    requires { IsRwReaderPass lock.now pass.old }
    ensures { HasStayed pass.old pass.new }
{
    match RwLockReaderPreference::write_lock(pass, lock, rt, go_on) {
        WaitResult::Success(hold) => {
            lock.unlock(hold, wake_nobody);
            true
        }
        WaitResult::Interrupted => false,
    }
}

/// Counts a reader in and out of a bare word: the least that a read lock and an unlock can do.
pub fn bare_load_exchange_subtract() -> u32 {
    successes(&mut BareReader {
        word: AtomicU64::new(0),
    })
}

#[derive(Drop)]
struct BareReader {
    word: AtomicU64,
}

impl Operation for BareReader {
    #[inline(always)]
    fn once(&mut self) -> bool {
        let word = &self.word;
        let seen = word.load(Ordering::SeqCst);
        let more = seen.wrapping_add(1);
        let entered = word.compare_exchange(seen, more, Ordering::SeqCst, Ordering::SeqCst);
        word.fetch_sub(1, Ordering::SeqCst);
        entered.is_ok()
    }
}

/// Locks a reader-writer lock of std for reading, reads what it guards, and drops the guard.
pub fn std_rwlock_read_unlock(rt: &impl Wait) -> u32 {
    successes(&mut StdRead {
        rt,
        lock: RwLock::new(true),
    })
}

#[derive(Drop)]
struct StdRead<'r, R: Wait> {
    rt: &'r R,
    lock: RwLock<bool>,
}

impl<R: Wait> Operation for StdRead<'_, R> {
    #[inline(always)]
    fn once(&mut self) -> bool {
        let guard = self.lock.read(self.rt);
        *guard
    }
}

/// Locks a reader-writer lock of std for writing, reads what it guards, and drops the guard.
pub fn std_rwlock_write_unlock(rt: &impl Wait) -> u32 {
    successes(&mut StdWrite {
        rt,
        lock: RwLock::new(true),
    })
}

#[derive(Drop)]
struct StdWrite<'r, R: Wait> {
    rt: &'r R,
    lock: RwLock<bool>,
}

impl<R: Wait> Operation for StdWrite<'_, R> {
    #[inline(always)]
    fn once(&mut self) -> bool {
        let guard = self.lock.write(self.rt);
        *guard
    }
}
