//! The lines of the atomic, and what they are compared with: a value of 64 bits, and one of 128. Both lie in two words.
ghost use Rattle.running_atomic.specs.AtomicShown.{IsAtomicPass};

use crate::lines::{Operation, successes};
use iceoryx2_pal_concurrency_sync::atomic::{Atomic, AtomicPass, Ordering};
use std::alloc::{AllocError, Global};
use std::sync::Wait;
use std::sync::atomic::AtomicU64;

const ORDER: Ordering = Ordering::SeqCst;

/// Reads a value of 64 bits.
pub fn load(rt: &impl Wait, alloc: Global) -> Result<u32, AllocError> {
    let (atomic, pass) = Atomic::new(alloc, 7u64)?;
    Ok(successes(&mut Reads { rt, atomic, pass }))
}

#[derive(Drop)]
struct Reads<'r, R: Wait> {
    rt: &'r R,
    atomic: Atomic<u64>,
    pass: AtomicPass<u64>,
    ghost own: { IsAtomicPass atomic pass },
}

impl<R: Wait> Operation for Reads<'_, R> {
    #[inline(always)]
    fn once(&mut self) -> bool {
        self.atomic.load(self.rt, &mut self.pass, ORDER) == 7
    }
}

/// Reads a value of 128 bits.
pub fn load_wide(rt: &impl Wait, alloc: Global) -> Result<u32, AllocError> {
    let (atomic, pass) = Atomic::new(alloc, 7u128)?;
    Ok(successes(&mut ReadsWide { rt, atomic, pass }))
}

#[derive(Drop)]
struct ReadsWide<'r, R: Wait> {
    rt: &'r R,
    atomic: Atomic<u128>,
    pass: AtomicPass<u128>,
    ghost own: { IsAtomicPass atomic pass },
}

impl<R: Wait> Operation for ReadsWide<'_, R> {
    #[inline(always)]
    fn once(&mut self) -> bool {
        self.atomic.load(self.rt, &mut self.pass, ORDER) == 7
    }
}

/// Writes a value of 64 bits.
pub fn store(rt: &impl Wait, alloc: Global) -> Result<u32, AllocError> {
    let (atomic, pass) = Atomic::new(alloc, 0u64)?;
    Ok(successes(&mut Writes { rt, atomic, pass }))
}

#[derive(Drop)]
struct Writes<'r, R: Wait> {
    rt: &'r R,
    atomic: Atomic<u64>,
    pass: AtomicPass<u64>,
    ghost own: { IsAtomicPass atomic pass },
}

impl<R: Wait> Operation for Writes<'_, R> {
    #[inline(always)]
    fn once(&mut self) -> bool {
        self.atomic.store(self.rt, &mut self.pass, 7, ORDER);
        true
    }
}

/// Adds to a value of 64 bits.
pub fn fetch_add(rt: &impl Wait, alloc: Global) -> Result<u32, AllocError> {
    let (atomic, pass) = Atomic::new(alloc, 7u64)?;
    Ok(successes(&mut Adds { rt, atomic, pass }))
}

#[derive(Drop)]
struct Adds<'r, R: Wait> {
    rt: &'r R,
    atomic: Atomic<u64>,
    pass: AtomicPass<u64>,
    ghost own: { IsAtomicPass atomic pass },
}

impl<R: Wait> Operation for Adds<'_, R> {
    #[inline(always)]
    fn once(&mut self) -> bool {
        self.atomic.fetch_add(self.rt, &mut self.pass, 7, ORDER) >= 7
    }
}

/// Adds to a value of 128 bits.
pub fn fetch_add_wide(rt: &impl Wait, alloc: Global) -> Result<u32, AllocError> {
    let (atomic, pass) = Atomic::new(alloc, 7u128)?;
    Ok(successes(&mut AddsWide { rt, atomic, pass }))
}

#[derive(Drop)]
struct AddsWide<'r, R: Wait> {
    rt: &'r R,
    atomic: Atomic<u128>,
    pass: AtomicPass<u128>,
    ghost own: { IsAtomicPass atomic pass },
}

impl<R: Wait> Operation for AddsWide<'_, R> {
    #[inline(always)]
    fn once(&mut self) -> bool {
        self.atomic.fetch_add(self.rt, &mut self.pass, 7, ORDER) >= 7
    }
}

/// Writes a value of 64 bits in the place of the same.
pub fn compare_exchange(rt: &impl Wait, alloc: Global) -> Result<u32, AllocError> {
    let (atomic, pass) = Atomic::new(alloc, 7u64)?;
    Ok(successes(&mut Exchanges { rt, atomic, pass }))
}

#[derive(Drop)]
struct Exchanges<'r, R: Wait> {
    rt: &'r R,
    atomic: Atomic<u64>,
    pass: AtomicPass<u64>,
    ghost own: { IsAtomicPass atomic pass },
}

impl<R: Wait> Operation for Exchanges<'_, R> {
    #[inline(always)]
    fn once(&mut self) -> bool {
        let pass = &mut self.pass;
        let exchanged = self
            .atomic
            .compare_exchange(self.rt, pass, 7, 7, ORDER, ORDER);
        exchanged.is_ok()
    }
}

/// Counts a reader in and out of a bare word, and reads two others between: the least that a read of two words under a lock can do.
pub fn bare_load_exchange_loads_subtract() -> u32 {
    successes(&mut BareRead {
        word: AtomicU64::new(0),
        low: AtomicU64::new(0),
        high: AtomicU64::new(0),
    })
}

#[derive(Drop)]
struct BareRead {
    word: AtomicU64,
    low: AtomicU64,
    high: AtomicU64,
}

impl Operation for BareRead {
    #[inline(always)]
    fn once(&mut self) -> bool {
        let word = &self.word;
        let seen = word.load(ORDER);
        let more = seen.wrapping_add(1);
        let entered = word.compare_exchange(seen, more, ORDER, ORDER);
        let low = self.low.load(ORDER);
        let high = self.high.load(ORDER);
        word.fetch_sub(1, ORDER);
        entered.is_ok() && low == high
    }
}

/// Takes a bare word, writes two others, and frees it: the least that a write of two words under a lock can do.
pub fn bare_exchange_stores() -> u32 {
    successes(&mut BareWrite {
        word: AtomicU64::new(0),
        low: AtomicU64::new(0),
        high: AtomicU64::new(0),
    })
}

#[derive(Drop)]
struct BareWrite {
    word: AtomicU64,
    low: AtomicU64,
    high: AtomicU64,
}

impl Operation for BareWrite {
    #[inline(always)]
    fn once(&mut self) -> bool {
        let word = &self.word;
        let entered = word.compare_exchange(0, u64::MAX, ORDER, ORDER);
        self.low.store(7, ORDER);
        self.high.store(0, ORDER);
        word.store(0, ORDER);
        entered.is_ok()
    }
}

/// Takes a bare word, reads two others and writes them, and frees it: the least that a change of two words under a lock can do.
pub fn bare_exchange_loads_stores() -> u32 {
    successes(&mut BareChange {
        word: AtomicU64::new(0),
        low: AtomicU64::new(0),
        high: AtomicU64::new(0),
    })
}

#[derive(Drop)]
struct BareChange {
    word: AtomicU64,
    low: AtomicU64,
    high: AtomicU64,
}

impl Operation for BareChange {
    #[inline(always)]
    fn once(&mut self) -> bool {
        let word = &self.word;
        let entered = word.compare_exchange(0, u64::MAX, ORDER, ORDER);
        let low = self.low.load(ORDER);
        let high = self.high.load(ORDER);
        self.low.store(low.wrapping_add(7), ORDER);
        self.high.store(high, ORDER);
        word.store(0, ORDER);
        entered.is_ok()
    }
}
