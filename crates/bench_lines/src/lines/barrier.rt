//! The lines of the barrier, and what they are compared with.
ghost use Rattle.running_barrier.specs.BarrierShown.{IsBarrierPass};

use crate::lines::{Operation, successes};
use iceoryx2_pal_concurrency_sync::strategy::barrier::{Barrier, BarrierPass};
use iceoryx2_pal_concurrency_sync::wake_nobody;
use std::alloc::{AllocError, Global};
use std::sync::atomic::{AtomicU64, Ordering};
use std::sync::{self, Wait};

/// Passes a barrier of one, with closures that do nothing.
pub fn of_one(rt: &impl Wait, alloc: Global) -> Result<u32, AllocError> {
    let (barrier, pass) = Barrier::new(alloc, 1)?;
    Ok(successes(&mut PassOne { rt, barrier, pass }))
}

#[derive(Drop)]
struct PassOne<'r, R: Wait> {
    rt: &'r R,
    barrier: Barrier,
    pass: BarrierPass,
    ghost own: { IsBarrierPass barrier pass },
}

impl<R: Wait> Operation for PassOne<'_, R> {
    #[inline(always)]
    fn once(&mut self) -> bool {
        let passed = self
            .barrier
            .wait(self.rt, &mut self.pass, |_, _| (), wake_nobody);
        passed.is_ok()
    }
}

/// Looks at a bare word, and adds to its upper half by an exchange: the least that a barrier of one can do.
pub fn bare_load_exchange() -> u32 {
    successes(&mut BareEpoch {
        word: AtomicU64::new(0),
    })
}

#[derive(Drop)]
struct BareEpoch {
    word: AtomicU64,
}

impl Operation for BareEpoch {
    #[inline(always)]
    fn once(&mut self) -> bool {
        let word = &self.word;
        let seen = word.load(Ordering::SeqCst);
        let next = seen.wrapping_add(1 << 32);
        let opened = word.compare_exchange(seen, next, Ordering::SeqCst, Ordering::SeqCst);
        opened.is_ok()
    }
}

/// Passes a barrier of std for one thread.
pub fn std_barrier_of_one(rt: &impl Wait) -> u32 {
    successes(&mut StdBarrier {
        rt,
        barrier: sync::Barrier::new(1),
    })
}

#[derive(Drop)]
struct StdBarrier<'r, R: Wait> {
    rt: &'r R,
    barrier: sync::Barrier,
}

impl<R: Wait> Operation for StdBarrier<'_, R> {
    #[inline(always)]
    fn once(&mut self) -> bool {
        self.barrier.wait(self.rt).is_leader()
    }
}
