//! A mutex at which callers sleep, and handles of it: a handle owns its pass, so its calls ask for nothing.
#![tactic(auto)]

ghost use Rattle.std.specs.Prelude.{◌≡◌, true};
ghost use Rattle.running_mutex.specs.MutexParties.{HasMutex};
ghost use Rattle.running_mutex.specs.MutexShown.{IsMutexPass, holds_of};
ghost use Rattle.running_model.specs.Passes.{parties_of};

mod locked;

pub use crate::locked::Locked;
use running_closures::Sleepers;
use running_mutex::{Mutex, MutexHold, MutexPass};
pub use running_sharing::Handle;
use std::alloc::{AllocError, Allocator, Global};
use std::sync::Wait;
use std::time::{Clock, Instant};

/// A mutex, and who sleeps at it: who waits here sleeps here, and who unlocks wakes one that does.
#[derive(Drop)]
pub struct SleepingMutex<A: Allocator = Global> {
    mutex: Mutex<A>,
    sleepers: Sleepers,
}

/// The right to call it, which one thread needs. It owns its pass, which is of that mutex by its type.
#[derive(Drop)]
pub struct MutexHandle<'m, A: Allocator = Global> {
    of: &'m SleepingMutex<A>,
    pass: MutexPass,
    // While its guard is out.
    held: bool,
    ghost own: { IsMutexPass of.now.mutex pass },
    ghost on: { held ≡ true → holds_of pass ≡ 1 },
    ghost has: { held ≡ true → HasMutex (parties_of pass) },
}

impl<A: Allocator> SleepingMutex<A> {
    ghost use Rattle.std.specs.Prelude.{IfOk};
    ghost use Rattle.running_passes.specs.Passes.{view};
    ghost use Rattle.running_passes.specs.Views.{first_view};
    ghost use Rattle.running_model.specs.Slots.{no_parties};
    ghost use Rattle.running_model.specs.Passes.{played};
    ghost use Rattle.running_for_one.specs.ForOne.{no_holds};
    ghost use Rattle.sleeping_mutex.specs.HandleShown.{IsSleepingPass, below, object_of, pass_of};

    /// A mutex that is free, at which nobody sleeps, and the pass that is whole. `Err` where there was no memory; then nothing was made.
    pub fn new(alloc: A) -> Result<(SleepingMutex<A>, MutexPass), AllocError>
        ensures own { IfOk result (λ made. IsSleepingPass made.0 made.1) }
        ensures first { IfOk result (λ made. view made.1 ≡ first_view (played no_parties no_holds)) }
    {
        let (mutex, pass) = Mutex::new(alloc)?;
        let sleepers = Sleepers::new();
        Ok((SleepingMutex { mutex, sleepers }, pass))
    }

    /// The mutex itself, for calls with a pass: with closures of your own, or where you count.
    #[inline(always)]
    pub fn mutex(&self) -> &Mutex<A>
        ensures { result.now ≡ below self.now }
    {
        &self.mutex
    }

    /// The handle with this pass.
    #[inline(always)]
    pub fn handle(&self, pass: MutexPass) -> MutexHandle<'_, A>
        requires own { IsSleepingPass self.now pass }
        ensures object { object_of result ≡ self.now }
        ensures pass { pass_of result ≡ pass }
    {
        let held = false;
        MutexHandle {
            of: self,
            pass,
            held,
        }
    }
}

impl<'m, A: Allocator> MutexHandle<'m, A> {
    ghost use Rattle.std.specs.Prelude.{None, IfSome, IfNone, IsSome};
    ghost use Rattle.sleeping_mutex.specs.HandleShown.{IsSleepingPass, object_of, pass_of, PassHas, Acts, HasLockedOnce, HasLockedAtOnce, HasGivenUp, HasSeenLocked};

    /// Locks the mutex, asleep until it is free, calls `act`, unlocks, and wakes one that sleeps. `act` is shown the hold, so what asks for
    /// one is done under the lock.
    #[inline(always)]
    pub fn with<X, R: Wait, F: FnOnce(&MutexHold<'_>) -> X>(&mut self, rt: &R, act: F) -> X
        requires may { F.IsAlwaysCallable act }
        ensures locked { PassHas HasLockedOnce self.old self.new }
        ensures acted { Acts F.FnOnce act result }
    {
        self.of.enter(rt, &mut self.pass);
        self.of.act(&mut self.pass, act)
    }

    /// The same; `None` where the mutex was still locked once the deadline had passed, and then `act` was not called.
    #[inline(always)]
    pub fn with_until<X, R: Wait + Clock, F: FnOnce(&MutexHold<'_>) -> X>(
        &mut self,
        rt: &R,
        deadline: Option<Instant>,
        act: F,
    ) -> Option<X>
        requires may { F.IsAlwaysCallable act }
        ensures locked { IfSome result (λ _. PassHas HasLockedOnce self.old self.new) }
        ensures acted { IfSome result (λ x. Acts F.FnOnce act x) }
        ensures gave_up { IfNone result (PassHas HasGivenUp self.old self.new) }
        ensures waits { deadline ≡ None → IsSome result }
    {
        if !self.of.enter_until(rt, &mut self.pass, deadline) {
            self.held = false;
            return None;
        }
        Some(self.of.act(&mut self.pass, act))
    }

    /// The same without a wait; `None` where the mutex was seen locked, and then `act` was not called.
    #[inline(always)]
    pub fn try_with<X, F: FnOnce(&MutexHold<'_>) -> X>(&mut self, act: F) -> Option<X>
        requires may { F.IsAlwaysCallable act }
        ensures locked { IfSome result (λ _. PassHas HasLockedAtOnce self.old self.new) }
        ensures acted { IfSome result (λ x. Acts F.FnOnce act x) }
        ensures refused { IfNone result (PassHas HasSeenLocked self.old self.new) }
    {
        if !self.of.try_enter(&mut self.pass) {
            self.held = false;
            return None;
        }
        Some(self.of.act(&mut self.pass, act))
    }

    /// The pass alone, for who counts.
    #[inline(always)]
    pub fn into_pass(self) -> MutexPass
        ensures own { IsSleepingPass (object_of self.entry) result }
        ensures same { result ≡ pass_of self.entry }
    {
        let MutexHandle { pass, .. } = self;
        pass
    }
}

impl<A: Allocator> Handle for MutexHandle<'_, A> {
    ghost use Rattle.sleeping_mutex.specs.HandleShown.{object_of, part_with};

    ghost same = { λ one other. object_of other ≡ object_of one };

    ghost part = { part_with };

    fn split(self) -> (Self, Self) {
        let MutexHandle { of, pass, .. } = self;
        let Ok((pass, other)) = pass.split(&of.mutex) else {
            unreachable!()
        };
        (of.handle(pass), of.handle(other))
    }

    fn join(self, other: Self) -> Self {
        let MutexHandle { of, pass, .. } = self;
        let MutexHandle { pass: other, .. } = other;
        let Ok(pass) = MutexPass::join(pass, other, &of.mutex) else {
            unreachable!()
        };
        of.handle(pass)
    }
}
