//! A barrier at which callers sleep, and handles of it: a handle owns its pass, so its calls ask for nothing.
#![tactic(auto)]

ghost use Rattle.running_barrier.specs.BarrierShown.{IsBarrierPass};

use running_barrier::{Barrier, BarrierFull, BarrierPass};
use running_closures::Sleepers;
pub use running_sharing::Handle;
use std::alloc::{AllocError, Allocator, Global};
use std::sync::Wait;

/// A barrier, and who sleeps at it: who fills a round wakes all.
#[derive(Drop)]
pub struct SleepingBarrier<A: Allocator = Global> {
    barrier: Barrier<A>,
    sleepers: Sleepers,
}

/// The right to call it, which one thread needs. It owns its pass, which is of that barrier by its type.
#[derive(Drop)]
pub struct BarrierHandle<'b, A: Allocator = Global> {
    of: &'b SleepingBarrier<A>,
    pass: BarrierPass,
    ghost own: { IsBarrierPass of.now.barrier pass },
}

impl<A: Allocator> SleepingBarrier<A> {
    ghost use Rattle.std.specs.Prelude.{◌≡◌, IfOk};
    ghost use Rattle.running_passes.specs.Passes.{view};
    ghost use Rattle.running_passes.specs.Views.{first_view};
    ghost use Rattle.running_model.specs.Slots.{no_parties};
    ghost use Rattle.running_model.specs.Passes.{played};
    ghost use Rattle.running_barrier.specs.Barrier.{no_rounds};
    ghost use Rattle.sleeping_barrier.specs.HandleShown.{IsSleepingPass, below, waiters_of, object_of, pass_of};

    /// A barrier for so many, at which nobody sleeps, and the pass that is whole. `Err` where there was no memory; then nothing was made.
    pub fn new(
        alloc: A,
        number_of_waiters: u32,
    ) -> Result<(SleepingBarrier<A>, BarrierPass), AllocError>
        ensures own { IfOk result (λ made. IsSleepingPass made.0 made.1) }
        ensures waiters { IfOk result (λ made. waiters_of made.0 ≡ number_of_waiters) }
        ensures first { IfOk result (λ made. view made.1 ≡ first_view (played no_parties no_rounds)) }
    {
        let (barrier, pass) = Barrier::new(alloc, number_of_waiters)?;
        let sleepers = Sleepers::new();
        Ok((SleepingBarrier { barrier, sleepers }, pass))
    }

    /// The barrier itself, for calls with a pass: with closures of your own, or where you count.
    #[inline(always)]
    pub fn barrier(&self) -> &Barrier<A>
        ensures { result.now ≡ below self.now }
    {
        &self.barrier
    }

    /// The handle with this pass.
    #[inline(always)]
    pub fn handle(&self, pass: BarrierPass) -> BarrierHandle<'_, A>
        requires own { IsSleepingPass self.now pass }
        ensures object { object_of result ≡ self.now }
        ensures pass { pass_of result ≡ pass }
    {
        BarrierHandle { of: self, pass }
    }
}

impl<'b, A: Allocator> BarrierHandle<'b, A> {
    ghost use Rattle.std.specs.Prelude.{◌≡◌, ◌<◌, true, is_ok, IfOk, IfErr};
    ghost use Rattle.sleeping_barrier.specs.HandleShown.{IsSleepingPass, waiters_of, object_of, pass_of, PassHas, HasPassed, HasSeenFull};

    /// Arrives, and sleeps until as many have arrived as the barrier is for. `BarrierFull` where it is for 0.
    #[inline(always)]
    pub fn wait<R: Wait>(&mut self, rt: &R) -> Result<(), BarrierFull>
        ensures passed { IfOk result (λ _. PassHas HasPassed self.old self.new) }
        ensures full { IfErr result (λ _. PassHas HasSeenFull self.old self.new) }
        ensures some { 0 < waiters_of (object_of self.old) → is_ok result ≡ true }
    {
        let of = self.of;
        of.barrier.wait(
            rt,
            &mut self.pass,
            |word, seen| {
                of.sleepers.sleep(rt, word, *seen);
            },
            |_| of.sleepers.wake_all(),
        )
    }

    /// The pass alone, for who counts.
    #[inline(always)]
    pub fn into_pass(self) -> BarrierPass
        ensures own { IsSleepingPass (object_of self.entry) result }
        ensures same { result ≡ pass_of self.entry }
    {
        let BarrierHandle { of: _, pass } = self;
        pass
    }
}

impl<A: Allocator> Handle for BarrierHandle<'_, A> {
    ghost use Rattle.std.specs.Prelude.{◌≡◌};
    ghost use Rattle.sleeping_barrier.specs.HandleShown.{object_of, part_with};

    ghost same = { λ one other. object_of other ≡ object_of one };

    ghost part = { part_with };

    fn split(self) -> (Self, Self) {
        let BarrierHandle { of, pass } = self;
        let Ok((pass, other)) = pass.split(&of.barrier) else {
            unreachable!()
        };
        (of.handle(pass), of.handle(other))
    }

    fn join(self, other: Self) -> Self {
        let BarrierHandle { of, pass } = self;
        let BarrierHandle { of: _, pass: other } = other;
        let Ok(pass) = BarrierPass::join(pass, other, &of.barrier) else {
            unreachable!()
        };
        of.handle(pass)
    }
}
