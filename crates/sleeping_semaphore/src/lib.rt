//! A semaphore at which callers sleep, and handles of it: a handle owns its pass, so its calls ask for nothing.
#![tactic(auto)]

ghost use Rattle.running_semaphore.specs.SemaphoreShown.{IsSemPass};

use running_closures::Sleepers;
use running_passes::WaitResult;
use running_semaphore::{SemPass, Semaphore};
pub use running_sharing::Handle;
use std::alloc::{AllocError, Allocator, Global};
use std::sync::Wait;
use std::time::{Clock, Instant};

/// A semaphore, and who sleeps at it: who posts one permit wakes one that sleeps, and who posts more wakes all.
#[derive(Drop)]
pub struct SleepingSemaphore<A: Allocator = Global> {
    semaphore: Semaphore<A>,
    sleepers: Sleepers,
}

/// The right to call it, which one thread needs. It owns its pass, which is of that semaphore by its type.
#[derive(Drop)]
pub struct SemaphoreHandle<'s, A: Allocator = Global> {
    of: &'s SleepingSemaphore<A>,
    pass: SemPass,
    ghost own: { IsSemPass of.now.semaphore pass },
}

/// A permit that was taken. Where its scope ends, also by `?`, `return` or `break`, it is posted again.
pub struct Permit<'h, 's, A: Allocator = Global> {
    handle: &'h mut SemaphoreHandle<'s, A>,
}

impl<A: Allocator> SleepingSemaphore<A> {
    ghost use Rattle.std.specs.Prelude.{◌≡◌, IfOk};
    ghost use Rattle.running_passes.specs.Passes.{view};
    ghost use Rattle.running_passes.specs.Views.{first_view};
    ghost use Rattle.running_model.specs.Slots.{no_parties};
    ghost use Rattle.running_model.specs.Passes.{played};
    ghost use Rattle.running_semaphore.specs.Semaphore.{first_permits};
    ghost use Rattle.sleeping_semaphore.specs.HandleShown.{IsSleepingPass, below, initial_of, object_of, pass_of};

    /// A semaphore with so many permits, at which nobody sleeps, and the pass that is whole. `Err` where there was no memory; then nothing
    /// was made.
    pub fn new(alloc: A, initial: u64) -> Result<(SleepingSemaphore<A>, SemPass), AllocError>
        ensures own { IfOk result (λ made. IsSleepingPass made.0 made.1) }
        ensures initial { IfOk result (λ made. initial_of made.0 ≡ initial) }
        ensures first { IfOk result (λ made. view made.1 ≡ first_view (played no_parties (first_permits initial))) }
    {
        let (semaphore, pass) = Semaphore::new(alloc, initial)?;
        let sleepers = Sleepers::new();
        Ok((
            SleepingSemaphore {
                semaphore,
                sleepers,
            },
            pass,
        ))
    }

    /// The semaphore itself, for calls with a pass: with closures of your own, or where you count.
    #[inline(always)]
    pub fn semaphore(&self) -> &Semaphore<A>
        ensures { result.now ≡ below self.now }
    {
        &self.semaphore
    }

    /// The handle with this pass.
    #[inline(always)]
    pub fn handle(&self, pass: SemPass) -> SemaphoreHandle<'_, A>
        requires own { IsSleepingPass self.now pass }
        ensures object { object_of result ≡ self.now }
        ensures pass { pass_of result ≡ pass }
    {
        SemaphoreHandle { of: self, pass }
    }
}

impl<'s, A: Allocator> SemaphoreHandle<'s, A> {
    ghost use Rattle.std.specs.Prelude.{◌≡◌, None, true, MatchBool, IfSome, IsSome};
    ghost use Rattle.sleeping_semaphore.specs.HandleShown.{IsSleepingPass, object_of, pass_of, handle_of, borrow_of, PassHas, HasTaken, HasTakenNow, HasGivenUp, HasSeenNone, HasPosted};

    /// Takes a permit, asleep until there is one.
    #[inline(always)]
    pub fn wait<R: Wait>(&mut self, rt: &R)
        ensures took { PassHas HasTaken self.old self.new }
    {
        let of = self.of;
        let took = of.semaphore.wait(
            rt,
            &mut self.pass,
            |word, seen| of.sleepers.sleep(rt, word, *seen),
        );
        match took {
            WaitResult::Success(()) => {}
            WaitResult::Interrupted => unreachable!(),
        }
    }

    /// The same, and whether it took one: not, where there was none once the deadline had passed.
    #[inline(always)]
    pub fn wait_until<R: Wait + Clock>(&mut self, rt: &R, deadline: Option<Instant>) -> bool
        ensures took { MatchBool result (PassHas HasTaken self.old self.new) (PassHas HasGivenUp self.old self.new) }
        ensures waits { deadline ≡ None → result ≡ true }
    {
        let of = self.of;
        let took = of.semaphore.wait(
            rt,
            &mut self.pass,
            |word, seen| of.sleepers.sleep_until(rt, word, *seen, deadline),
        );
        match took {
            WaitResult::Success(()) => true,
            WaitResult::Interrupted => false,
        }
    }

    /// Takes a permit where there is one, and tells whether it did.
    #[inline(always)]
    pub fn try_wait<R: Wait>(&mut self, rt: &R) -> bool
        ensures took { MatchBool result (PassHas HasTakenNow self.old self.new) (PassHas HasSeenNone self.old self.new) }
    {
        let of = self.of;
        match of.semaphore.try_wait(rt, &mut self.pass) {
            WaitResult::Success(()) => true,
            WaitResult::Interrupted => false,
        }
    }

    /// Adds so many permits, wrapping at 2^64, and wakes who sleeps for them.
    #[inline(always)]
    pub fn post(&mut self, value: u64)
        ensures posted { PassHas (HasPosted value) self.old self.new }
    {
        let of = self.of;
        of.semaphore.post(
            &mut self.pass,
            |_| {
                if value == 1 {
                    of.sleepers.wake_one();
                } else {
                    of.sleepers.wake_all();
                }
            },
            value,
        );
    }

    /// Takes a permit as `wait` does, until its scope ends.
    #[inline(always)]
    pub fn permit<'h, R: Wait>(&'h mut self, rt: &R) -> Permit<'h, 's, A>
        ensures same_borrow { borrow_of result ≡ self.entry.ghost_name }
        ensures took { PassHas HasTaken self.old (handle_of result) }
    {
        self.wait(rt);
        Permit { handle: self }
    }

    /// Takes a permit as `wait_until` does, until its scope ends.
    #[inline(always)]
    pub fn permit_until<'h, R: Wait + Clock>(
        &'h mut self,
        rt: &R,
        deadline: Option<Instant>,
    ) -> Option<Permit<'h, 's, A>>
        ensures took { IfSome result (λ permit. PassHas HasTaken self.old (handle_of permit)) }
        ensures waits { deadline ≡ None → IsSome result }
    {
        if self.wait_until(rt, deadline) {
            Some(Permit { handle: self })
        } else {
            None
        }
    }

    /// The pass alone, for who counts.
    #[inline(always)]
    pub fn into_pass(self) -> SemPass
        ensures own { IsSleepingPass (object_of self.entry) result }
        ensures same { result ≡ pass_of self.entry }
    {
        let SemaphoreHandle { of: _, pass } = self;
        pass
    }
}

impl<A: Allocator> Handle for SemaphoreHandle<'_, A> {
    ghost use Rattle.std.specs.Prelude.{◌≡◌};
    ghost use Rattle.sleeping_semaphore.specs.HandleShown.{object_of, part_with};

    ghost same = { λ one other. object_of other ≡ object_of one };

    ghost part = { part_with };

    fn split(self) -> (Self, Self) {
        let SemaphoreHandle { of, pass } = self;
        let Ok((pass, other)) = pass.split(&of.semaphore) else {
            unreachable!()
        };
        (of.handle(pass), of.handle(other))
    }

    fn join(self, other: Self) -> Self {
        let SemaphoreHandle { of, pass } = self;
        let SemaphoreHandle { of: _, pass: other } = other;
        let Ok(pass) = SemPass::join(pass, other, &of.semaphore) else {
            unreachable!()
        };
        of.handle(pass)
    }
}

impl<A: Allocator> Drop for Permit<'_, '_, A> {
    ghost use Rattle.sleeping_semaphore.specs.HandleShown.{handle_of, PassHas, HasPosted};

    #[inline(always)]
    fn drop(self)
        ensures posted { PassHas (HasPosted 1) (handle_of self.entry) self.exit.0.now }
    {
        let Permit { handle } = self;
        handle.post(1);
    }
}
