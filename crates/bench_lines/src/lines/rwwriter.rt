//! The lines of the writer-preferring lock, and what they are compared with.
ghost use Rattle.running_rw_writer.specs.RwWriterShown.{IsRwWriterPass, HasStayed};

use crate::lines::{Operation, go_on, successes};
use iceoryx2_pal_concurrency_sync::strategy::rwlock::{RwLockWriterPreference, RwWriterPass};
use iceoryx2_pal_concurrency_sync::{WaitResult, wake_nobody};
use std::alloc::{AllocError, Global};
use std::sync::Wait;
use std::sync::atomic::{AtomicU64, Ordering};

/// Locks for reading and unlocks, with closures that do nothing.
pub fn read_unlock(rt: &impl Wait, alloc: Global) -> Result<u32, AllocError> {
    let (lock, pass) = RwLockWriterPreference::new(alloc)?;
    Ok(successes(&mut Read { rt, lock, pass }))
}

#[derive(Drop)]
struct Read<'r, R: Wait> {
    rt: &'r R,
    lock: RwLockWriterPreference,
    pass: RwWriterPass,
    ghost own: { IsRwWriterPass lock pass },
}

impl<R: Wait> Operation for Read<'_, R> {
    #[inline(always)]
    fn once(&mut self) -> bool {
        read_once(self.rt, &self.lock, &mut self.pass)
    }
}

#[inline(always)]
fn read_once<R: Wait>(rt: &R, lock: &RwLockWriterPreference, pass: &mut RwWriterPass) -> bool
    requires { IsRwWriterPass lock.now pass.old }
    ensures { HasStayed pass.old pass.new }
{
    match RwLockWriterPreference::read_lock(pass, lock, rt, go_on) {
        WaitResult::Success(hold) => {
            lock.unlock(hold, wake_nobody, wake_nobody);
            true
        }
        WaitResult::Interrupted => false,
    }
}

/// Locks for writing and unlocks, with closures that do nothing.
pub fn write_unlock(rt: &impl Wait, alloc: Global) -> Result<u32, AllocError> {
    let (lock, pass) = RwLockWriterPreference::new(alloc)?;
    Ok(successes(&mut Write { rt, lock, pass }))
}

#[derive(Drop)]
struct Write<'r, R: Wait> {
    rt: &'r R,
    lock: RwLockWriterPreference,
    pass: RwWriterPass,
    ghost own: { IsRwWriterPass lock pass },
}

impl<R: Wait> Operation for Write<'_, R> {
    #[inline(always)]
    fn once(&mut self) -> bool {
        write_once(self.rt, &self.lock, &mut self.pass)
    }
}

#[inline(always)]
fn write_once<R: Wait>(rt: &R, lock: &RwLockWriterPreference, pass: &mut RwWriterPass) -> bool
    requires { IsRwWriterPass lock.now pass.old }
    ensures { HasStayed pass.old pass.new }
{
    match RwLockWriterPreference::write_lock(pass, lock, rt, go_on, wake_nobody, wake_nobody) {
        WaitResult::Success(hold) => {
            lock.unlock(hold, wake_nobody, wake_nobody);
            true
        }
        WaitResult::Interrupted => false,
    }
}

/// Counts a reader in and out of a bare word, and tests what the subtraction found: where that was 3, one reader and a mark, it adds to
/// another word. That is what a writer-preferring lock's reader comes down to.
pub fn bare_load_exchange_subtract_test() -> u32 {
    successes(&mut BareMarkedReader {
        word: AtomicU64::new(0),
        counter: AtomicU64::new(0),
    })
}

#[derive(Drop)]
struct BareMarkedReader {
    word: AtomicU64,
    counter: AtomicU64,
}

impl Operation for BareMarkedReader {
    #[inline(always)]
    fn once(&mut self) -> bool {
        let word = &self.word;
        let seen = word.load(Ordering::SeqCst);
        let more = seen.wrapping_add(2);
        let entered = word.compare_exchange(seen, more, Ordering::SeqCst, Ordering::SeqCst);
        if word.fetch_sub(2, Ordering::SeqCst) == 3 {
            self.counter.fetch_add(1, Ordering::SeqCst);
        }
        entered.is_ok()
    }
}

/// What a writer-preferring lock's writer comes down to: a load, an exchange of what it saw, a store of 0, and an add to another word.
pub fn bare_load_exchange_store_add() -> u32 {
    successes(&mut BareWriter {
        word: AtomicU64::new(0),
        counter: AtomicU64::new(0),
    })
}

#[derive(Drop)]
struct BareWriter {
    word: AtomicU64,
    counter: AtomicU64,
}

impl Operation for BareWriter {
    #[inline(always)]
    fn once(&mut self) -> bool {
        let word = &self.word;
        let seen = word.load(Ordering::SeqCst);
        let entered = word.compare_exchange(seen, u64::MAX, Ordering::SeqCst, Ordering::SeqCst);
        word.store(0, Ordering::SeqCst);
        self.counter.fetch_add(1, Ordering::SeqCst);
        entered.is_ok()
    }
}
