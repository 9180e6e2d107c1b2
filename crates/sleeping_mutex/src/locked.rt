//! A guard of the mutex, whose end unlocks.
ghost use Rattle.std.specs.Prelude.{◌≡◌, true, None, IfSome, IsSome, MatchBool};
ghost use Rattle.running_mutex.specs.MutexParties.{HasMutex};
ghost use Rattle.running_mutex.specs.MutexShown.{holds_of};
ghost use Rattle.running_model.specs.Passes.{parties_of};
ghost use Rattle.sleeping_mutex.specs.HandleShown.{IsSleepingPass, PassHas, Acts, HasComeIn, HasComeInAtOnce, HasLetGo, HasGivenUp, HasSeenLocked, handle_of, borrow_of, is_held};

use crate::{MutexHandle, SleepingMutex};
use running_mutex::{Mutex, MutexHold, MutexPass};
use running_passes::WaitResult;
use std::alloc::{Allocator, Global};
use std::sync::Wait;
use std::time::{Clock, Instant};

/// The mutex is locked. Where its scope ends, also by `?`, `return` or `break`, it is unlocked, and one that sleeps is woken.
pub struct Locked<'h, 'm, A: Allocator = Global> {
    handle: &'h mut MutexHandle<'m, A>,
}

/// What a layer of your own is made of: calls that leave the hold in the pass, and so borrow nothing.
impl<A: Allocator> SleepingMutex<A> {
    /// Locks the mutex, asleep until it is free. It stays locked until `leave`, by the same pass.
    #[inline(always)]
    pub fn enter<R: Wait>(&self, rt: &R, pass: &mut MutexPass)
        requires own { IsSleepingPass self.now pass.old }
        ensures locked { HasComeIn pass.old pass.new }
        ensures has { (holds_of pass.new ≡ 1) × HasMutex (parties_of pass.new) }
    {
        let sleepers = &self.sleepers;
        match Mutex::lock(
            pass,
            &self.mutex,
            rt,
            |word, seen| sleepers.sleep(rt, word, *seen),
        ) {
            WaitResult::Success(hold) => {
                let MutexHold { pass: _ } = hold;
            }
            WaitResult::Interrupted => unreachable!(),
        }
    }

    /// The same, and whether it did: not, where the mutex was still locked once the deadline had passed.
    #[inline(always)]
    pub fn enter_until<R: Wait + Clock>(
        &self,
        rt: &R,
        pass: &mut MutexPass,
        deadline: Option<Instant>,
    ) -> bool
        requires own { IsSleepingPass self.now pass.old }
        ensures locked { MatchBool result (HasComeIn pass.old pass.new) (HasGivenUp pass.old pass.new) }
        ensures has { result ≡ true → (holds_of pass.new ≡ 1) × HasMutex (parties_of pass.new) }
        ensures waits { deadline ≡ None → result ≡ true }
    {
        let sleepers = &self.sleepers;
        match Mutex::lock(
            pass,
            &self.mutex,
            rt,
            |word, seen| sleepers.sleep_until(rt, word, *seen, deadline),
        ) {
            WaitResult::Success(hold) => {
                let MutexHold { pass: _ } = hold;
                true
            }
            WaitResult::Interrupted => false,
        }
    }

    /// The same without a wait: not, where the mutex was seen locked.
    #[inline(always)]
    pub fn try_enter(&self, pass: &mut MutexPass) -> bool
        requires own { IsSleepingPass self.now pass.old }
        ensures locked { MatchBool result (HasComeInAtOnce pass.old pass.new) (HasSeenLocked pass.old pass.new) }
        ensures has { result ≡ true → (holds_of pass.new ≡ 1) × HasMutex (parties_of pass.new) }
    {
        match Mutex::try_lock(pass, &self.mutex) {
            WaitResult::Success(hold) => {
                let MutexHold { pass: _ } = hold;
                true
            }
            WaitResult::Interrupted => false,
        }
    }

    /// Unlocks the mutex, by the pass that has it locked, and wakes one that sleeps. No call may come between that a pass without a hold makes.
    #[inline(always)]
    pub fn leave(&self, pass: &mut MutexPass)
        requires own { IsSleepingPass self.now pass.old }
        requires on { holds_of pass.old ≡ 1 }
        requires has { HasMutex (parties_of pass.old) }
        ensures let_go { HasLetGo pass.old pass.new }
    {
        let hold = MutexHold { pass };
        self.mutex.unlock(hold, |_| self.sleepers.wake_one());
    }

    /// Shows the hold that the pass has, and then does what `leave` does.
    #[inline(always)]
    pub(crate) fn act<X, F: FnOnce(&MutexHold<'_>) -> X>(&self, pass: &mut MutexPass, act: F) -> X
        requires own { IsSleepingPass self.now pass.old }
        requires on { holds_of pass.old ≡ 1 }
        requires has { HasMutex (parties_of pass.old) }
        requires may { F.IsAlwaysCallable act }
        ensures let_go { HasLetGo pass.old pass.new }
        ensures acted { Acts F.FnOnce act result }
    {
        let shown = MutexHold { pass };
        let given = act(&shown);
        self.mutex.unlock(shown, |_| self.sleepers.wake_one());
        given
    }
}

impl<'m, A: Allocator> MutexHandle<'m, A> {
    /// Locks the mutex, asleep until it is free. It is unlocked where the guard's scope ends.
    #[inline(always)]
    pub fn lock<'h, R: Wait>(&'h mut self, rt: &R) -> Locked<'h, 'm, A>
        ensures same_borrow { borrow_of result ≡ self.entry.ghost_name }
        ensures held { is_held (handle_of result) ≡ true }
        ensures locked { PassHas HasComeIn self.old (handle_of result) }
    {
        self.of.enter(rt, &mut self.pass);
        self.held = true;
        Locked { handle: self }
    }

    /// The same; `None` where the mutex was still locked once the deadline had passed.
    #[inline(always)]
    pub fn lock_until<'h, R: Wait + Clock>(
        &'h mut self,
        rt: &R,
        deadline: Option<Instant>,
    ) -> Option<Locked<'h, 'm, A>>
        ensures held { IfSome result (λ guard. is_held (handle_of guard) ≡ true) }
        ensures locked { IfSome result (λ guard. PassHas HasComeIn self.old (handle_of guard)) }
        ensures waits { deadline ≡ None → IsSome result }
    {
        self.held = self.of.enter_until(rt, &mut self.pass, deadline);
        if self.held {
            Some(Locked { handle: self })
        } else {
            None
        }
    }

    /// The same without a wait; `None` where the mutex was seen locked.
    #[inline(always)]
    pub fn try_lock<'h>(&'h mut self) -> Option<Locked<'h, 'm, A>>
        ensures held { IfSome result (λ guard. is_held (handle_of guard) ≡ true) }
        ensures locked { IfSome result (λ guard. PassHas HasComeInAtOnce self.old (handle_of guard)) }
    {
        self.held = self.of.try_enter(&mut self.pass);
        if self.held {
            Some(Locked { handle: self })
        } else {
            None
        }
    }

    #[inline(always)]
    fn end(&mut self)
        ensures let_go { is_held self.old ≡ true → PassHas HasLetGo self.old self.new }
    {
        if self.held {
            self.held = false;
            self.of.leave(&mut self.pass);
        }
    }
}

impl<A: Allocator> Drop for Locked<'_, '_, A> {
    #[inline(always)]
    fn drop(self)
        ensures let_go { is_held (handle_of self.entry) ≡ true → PassHas HasLetGo (handle_of self.entry) self.exit.0.now }
    {
        let Locked { handle } = self;
        handle.end();
    }
}
