//! A value under a lock, whose callers can wait until it is as they want it: a condition variable with its mutex and what both guard.
//!
//! Who waits sleeps on a count of changes, which it read under the lock. So it takes no permit that another was given, and each that waits
//! looks again after each change.
#![tactic(auto)]

ghost use Rattle.std.specs.Prelude.{◌≡◌};

mod changes;

pub use crate::changes::Changes;
use model_events::WaitAction;
use running_guarded::GuardedPass;
pub use sleeping_guarded::Handle;
use sleeping_guarded::{GuardedHandle, SleepingGuarded};
use std::alloc::{AllocError, Allocator, Global};
use std::sync::Wait;
use std::time::{Clock, Instant};

/// The value, and who waits for it to change.
#[derive(Drop)]
pub struct SleepingMonitor<T, A: Allocator = Global> {
    value: SleepingGuarded<T, A>,
    changes: Changes,
}

/// The right to call it, which one thread needs.
#[derive(Drop)]
pub struct MonitorHandle<'m, T, A: Allocator = Global> {
    changes: &'m Changes,
    value: GuardedHandle<'m, T, A>,
}

impl<T, A: Allocator + Clone> SleepingMonitor<T, A> {
    ghost use Rattle.std.specs.Prelude.{IfOk, IfErr};
    ghost use Rattle.running_passes.specs.Views.{first_view};
    ghost use Rattle.running_spin_lock.specs.ValueRule.{none_held};
    ghost use Rattle.running_guarded.specs.GuardedShown.{view};
    ghost use Rattle.sleeping_monitor.specs.HandleShown.{IsMonitorPass};

    /// A value that is free, and the pass that is whole. `Err` where there was no memory; then nothing was made, and the value comes back.
    pub fn new(alloc: A, value: T) -> Result<(SleepingMonitor<T, A>, GuardedPass), (AllocError, T)>
        ensures own { IfOk result (λ made. IsMonitorPass made.0 made.1) }
        ensures first { IfOk result (λ made. view made.1 ≡ first_view none_held) }
        ensures refused { IfErr result (λ refused. refused.1 ≡ value) }
    {
        let (value, pass) = SleepingGuarded::new(alloc, value)?;
        let changes = Changes::new();
        Ok((SleepingMonitor { value, changes }, pass))
    }
}

impl<T, A: Allocator> SleepingMonitor<T, A> {
    ghost use Rattle.running_passes.specs.Parts.{IsWhole};
    ghost use Rattle.running_guarded.specs.GuardedShown.{part_of};
    ghost use Rattle.sleeping_monitor.specs.HandleShown.{IsMonitorPass};

    /// The handle with this pass.
    pub fn handle(&self, pass: GuardedPass) -> MonitorHandle<'_, T, A>
        requires own { IsMonitorPass self.now pass }
    {
        MonitorHandle {
            changes: &self.changes,
            value: self.value.handle(pass),
        }
    }

    /// Ends the lock, and gives the value. The whole pass is spent, so that nobody waits.
    pub fn into_inner(self, pass: GuardedPass) -> T
        requires own { IsMonitorPass self pass }
        requires whole { IsWhole (part_of pass) }
    {
        let SleepingMonitor { value, changes: _ } = self;
        value.into_inner(pass)
    }
}

impl<'m, T, A: Allocator> MonitorHandle<'m, T, A> {
    ghost use Rattle.std.specs.Prelude.{ℕ, Some, None, IsSome, IfSome};
    ghost use Rattle.running_guarded.specs.GuardedSteps.{Acts};
    ghost use Rattle.running_guarded.specs.Acting.{HasAnswered, HasAnsweredAfter};

    /// Locks the value, asleep until it is free, calls `act` with it, unlocks, and wakes all that wait for a change.
    #[inline(always)]
    pub fn change<X, R: Wait, F: FnOnce(&mut T) -> X>(&mut self, rt: &R, act: F) -> X
        requires may { F.IsAlwaysCallable act }
        ensures acted { Acts F.FnOnce act result }
    {
        let given = self.value.with(rt, act);
        self.changes.tell();
        given
    }

    /// Locks the value and calls `act` with it, until that gives something: asleep meanwhile until the value has changed. Where it gives
    /// something it counts as a change.
    pub fn when<X, R: Wait, F: FnMut(&mut T) -> Option<X>>(&mut self, rt: &R, act: F) -> X
        requires may { F.IsAlwaysCallable act }
        ensures acted { (declined : ℕ) × HasAnsweredAfter F.FnMut declined (Some result) act }
    {
        let mut act = act;
        for _ in rt.forever() {
            let (given, seen) = self.look(rt, &mut act);
            match given {
                Some(given) => {
                    self.changes.tell();
                    return given;
                }
                None => self.changes.sleep(rt, seen),
            }
        }
        unreachable!()
    }

    /// The same; `None` where `act` gave nothing when it last looked, and the deadline has passed since.
    pub fn when_until<X, R: Wait + Clock, F: FnMut(&mut T) -> Option<X>>(
        &mut self,
        rt: &R,
        deadline: Option<Instant>,
        act: F,
    ) -> Option<X>
        requires may { F.IsAlwaysCallable act }
        ensures acted { IfSome result (λ given. (declined : ℕ) × HasAnsweredAfter F.FnMut declined (Some given) act) }
        ensures waits { deadline ≡ None → IsSome result }
    {
        let mut act = act;
        for _ in rt.forever() {
            let (given, seen) = self.look(rt, &mut act);
            match given {
                Some(given) => {
                    self.changes.tell();
                    return Some(given);
                }
                None => {
                    if self.changes.sleep_until(rt, seen, deadline) == WaitAction::Abort {
                        return None;
                    }
                }
            }
        }
        unreachable!()
    }

    /// What `act` gives, and the count of changes at that time, read under the lock.
    #[inline(always)]
    fn look<X, R: Wait, F: FnMut(&mut T) -> Option<X>>(
        &mut self,
        rt: &R,
        act: &mut F,
    ) -> (Option<X>, u64)
        requires may { F.IsAlwaysCallable act.old }
        ensures callable { F.IsAlwaysCallable act.new }
        ensures called { HasAnswered F.FnMut result.0 act.old act.new }
    {
        let mut value = self.value.lock(rt);
        let given = act(&mut *value);
        (given, self.changes.seen())
    }
}

impl<T, A: Allocator> Handle for MonitorHandle<'_, T, A> {
    ghost use Rattle.sleeping_guarded.specs.HandleShown.{object_of, part_with};
    ghost use Rattle.sleeping_monitor.specs.HandleShown.{value_with};

    ghost same = { λ one other. object_of (value_with other) ≡ object_of (value_with one) };

    ghost part = { λ handle. part_with (value_with handle) };

    fn split(self) -> (Self, Self) {
        let MonitorHandle { changes, value } = self;
        let (value, other) = value.split();
        let other = MonitorHandle {
            changes,
            value: other,
        };
        (MonitorHandle { changes, value }, other)
    }

    fn join(self, other: Self) -> Self {
        let MonitorHandle { changes, value } = self;
        let MonitorHandle {
            changes: _,
            value: other,
        } = other;
        MonitorHandle {
            changes,
            value: value.join(other),
        }
    }
}
