//! A guarded value at which callers sleep, and handles of it: a handle owns its pass, so its calls ask for nothing.
#![tactic(auto)]

ghost use Rattle.running_guarded.specs.GuardedShown.{IsGuardedPass};

mod locked;

pub use crate::locked::Locked;
use running_closures::Sleepers;
use running_guarded::{Guarded, GuardedPass};
use running_passes::WaitResult;
pub use running_sharing::Handle;
use std::alloc::{AllocError, Allocator, Global};
use std::sync::Wait;
use std::time::{Clock, Instant};

/// A guarded value, and who sleeps at it: who waits here sleeps here, and who unlocks wakes one that does.
#[derive(Drop)]
pub struct SleepingGuarded<T, A: Allocator = Global> {
    value: Guarded<T, A>,
    sleepers: Sleepers,
}

/// The right to call it, which one thread needs. It owns its pass, which is of that value by its type.
#[derive(Drop)]
pub struct GuardedHandle<'g, T, A: Allocator = Global> {
    of: &'g SleepingGuarded<T, A>,
    pass: GuardedPass,
    ghost own: { IsGuardedPass of.now.value pass },
}

impl<T, A: Allocator + Clone> SleepingGuarded<T, A> {
    ghost use Rattle.std.specs.Prelude.{◌≡◌, IfOk, IfErr};
    ghost use Rattle.running_passes.specs.Views.{first_view};
    ghost use Rattle.running_spin_lock.specs.ValueRule.{none_held};
    ghost use Rattle.running_guarded.specs.GuardedShown.{view};
    ghost use Rattle.sleeping_guarded.specs.HandleShown.{IsSleepingPass};

    /// A value that is free, at which nobody sleeps, and the pass that is whole. `Err` where there was no memory; then nothing was made, and
    /// the value comes back.
    pub fn new(alloc: A, value: T) -> Result<(SleepingGuarded<T, A>, GuardedPass), (AllocError, T)>
        ensures own { IfOk result (λ made. IsSleepingPass made.0 made.1) }
        ensures first { IfOk result (λ made. view made.1 ≡ first_view none_held) }
        ensures refused { IfErr result (λ refused. refused.1 ≡ value) }
    {
        let (value, pass) = Guarded::new(alloc, value)?;
        let sleepers = Sleepers::new();
        Ok((SleepingGuarded { value, sleepers }, pass))
    }
}

impl<T, A: Allocator> SleepingGuarded<T, A> {
    ghost use Rattle.std.specs.Prelude.{◌≡◌, IfSome, IfNone};
    ghost use Rattle.running_passes.specs.Parts.{IsWhole};
    ghost use Rattle.running_guarded.specs.GuardedShown.{part_of};
    ghost use Rattle.running_guarded.specs.GuardedSteps.{Acts};
    ghost use Rattle.sleeping_guarded.specs.HandleShown.{IsSleepingPass, below, object_of, pass_of, HasLockedAtOnce, HasSeenLocked};

    /// The guarded value itself, for calls with a pass: with closures of your own, or where you count.
    #[inline(always)]
    pub fn guarded(&self) -> &Guarded<T, A>
        ensures { result.now ≡ below self.now }
    {
        &self.value
    }

    /// The handle with this pass.
    #[inline(always)]
    pub fn handle(&self, pass: GuardedPass) -> GuardedHandle<'_, T, A>
        requires own { IsSleepingPass self.now pass }
        ensures object { object_of result ≡ self.now }
        ensures pass { pass_of result ≡ pass }
    {
        GuardedHandle { of: self, pass }
    }

    /// Ends the lock, and gives the value. The whole pass is spent, so that nobody waits.
    pub fn into_inner(self, pass: GuardedPass) -> T
        requires own { IsSleepingPass self pass }
        requires whole { IsWhole (part_of pass) }
    {
        let SleepingGuarded { value, sleepers: _ } = self;
        value.into_inner(pass)
    }

    #[inline(always)]
    fn try_act<X, F: FnOnce(&mut T) -> X>(&self, pass: &mut GuardedPass, act: F) -> Option<X>
        requires own { IsSleepingPass self.now pass.old }
        requires may { F.IsAlwaysCallable act }
        ensures locked { IfSome result (λ _. HasLockedAtOnce pass.old pass.new) }
        ensures acted { IfSome result (λ x. Acts F.FnOnce act x) }
        ensures refused { IfNone result (HasSeenLocked pass.old pass.new) }
    {
        match Guarded::try_lock(pass, &self.value) {
            WaitResult::Success(guard) => {
                let mut guard = guard;
                let given = act(&mut *guard);
                Guarded::unlock(guard, |_| self.sleepers.wake_one());
                Some(given)
            }
            WaitResult::Interrupted => None,
        }
    }
}

impl<'g, T, A: Allocator> GuardedHandle<'g, T, A> {
    ghost use Rattle.std.specs.Prelude.{◌≡◌, None, IfSome, IfNone, IsSome};
    ghost use Rattle.running_guarded.specs.GuardedSteps.{Acts};
    ghost use Rattle.sleeping_guarded.specs.HandleShown.{IsSleepingPass, object_of, pass_of, PassHas, HasLockedOnce, HasLockedAtOnce, HasGivenUp, HasSeenLocked};

    /// Locks the value, asleep until it is free, calls `act` with it, unlocks, and wakes one that sleeps.
    #[inline(always)]
    pub fn with<X, R: Wait, F: FnOnce(&mut T) -> X>(&mut self, rt: &R, act: F) -> X
        requires may { F.IsAlwaysCallable act }
        ensures locked { PassHas HasLockedOnce self.old self.new }
        ensures acted { Acts F.FnOnce act result }
    {
        let of = self.of;
        let done = of.value.with(
            rt,
            &mut self.pass,
            |word, seen| of.sleepers.sleep(rt, word, *seen),
            |_| of.sleepers.wake_one(),
            act,
        );
        match done {
            WaitResult::Success(given) => given,
            WaitResult::Interrupted => unreachable!(),
        }
    }

    /// The same; `None` where the value was still locked once the deadline had passed, and then `act` was not called.
    #[inline(always)]
    pub fn with_until<X, R: Wait + Clock, F: FnOnce(&mut T) -> X>(
        &mut self,
        rt: &R,
        deadline: Option<Instant>,
        act: F,
    ) -> Option<X>
        requires may { F.IsAlwaysCallable act }
        ensures locked { IfSome result (λ _. PassHas HasLockedOnce self.old self.new) }
        ensures acted { IfSome result (λ x. Acts F.FnOnce act x) }
        ensures gave_up { IfNone result (PassHas HasGivenUp self.old self.new) }
        ensures waits { deadline ≡ None → IsSome result }
    {
        let of = self.of;
        let done = of.value.with(
            rt,
            &mut self.pass,
            |word, seen| of.sleepers.sleep_until(rt, word, *seen, deadline),
            |_| of.sleepers.wake_one(),
            act,
        );
        match done {
            WaitResult::Success(given) => Some(given),
            WaitResult::Interrupted => None,
        }
    }

    /// The same without a wait; `None` where the value was seen locked, and then `act` was not called.
    #[inline(always)]
    pub fn try_with<X, F: FnOnce(&mut T) -> X>(&mut self, act: F) -> Option<X>
        requires may { F.IsAlwaysCallable act }
        ensures locked { IfSome result (λ _. PassHas HasLockedAtOnce self.old self.new) }
        ensures acted { IfSome result (λ x. Acts F.FnOnce act x) }
        ensures refused { IfNone result (PassHas HasSeenLocked self.old self.new) }
    {
        self.of.try_act(&mut self.pass, act)
    }

    /// The pass alone, for who counts.
    #[inline(always)]
    pub fn into_pass(self) -> GuardedPass
        ensures own { IsSleepingPass (object_of self.entry) result }
        ensures same { result ≡ pass_of self.entry }
    {
        let GuardedHandle { of: _, pass } = self;
        pass
    }
}

impl<T, A: Allocator> Handle for GuardedHandle<'_, T, A> {
    ghost use Rattle.std.specs.Prelude.{◌≡◌};
    ghost use Rattle.sleeping_guarded.specs.HandleShown.{object_of, part_with};

    ghost same = { λ one other. object_of other ≡ object_of one };

    ghost part = { part_with };

    fn split(self) -> (Self, Self) {
        let GuardedHandle { of, pass } = self;
        let Ok((pass, other)) = pass.split(&of.value) else {
            unreachable!()
        };
        (of.handle(pass), of.handle(other))
    }

    fn join(self, other: Self) -> Self {
        let GuardedHandle { of, pass } = self;
        let GuardedHandle { of: _, pass: other } = other;
        let Ok(pass) = GuardedPass::join(pass, other, &of.value) else {
            unreachable!()
        };
        of.handle(pass)
    }
}
