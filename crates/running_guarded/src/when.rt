//! A call that waits until it can act on the value, and one that changes it for those that wait.
ghost use Rattle.std.specs.Prelude.{◌≡◌, ℕ, suc, ◌<◌, ◌≤◌, ◌+◌, true, false, Some, None};
ghost use Rattle.running_passes.specs.Answers.{IfInterrupted, MayAnswerAbort};
ghost use Rattle.running_semaphore.specs.SemaphoreShown.{IsEmpty};
ghost use Rattle.running_mutex.specs.MutexParties.{HasMutex};
ghost use Rattle.running_condvar.specs.CondShown.{IsCondPass, IsPermitsWord, HasNotified, HasSlept, permits_in, HasStayed as HasWaitedAtMost};
ghost use Rattle.running_condvar.specs.Often.{HasWaitedOften};
ghost use Rattle.running_spin_lock.specs.ValueSteps.{Lets, has_vacant_slot};
ghost use Rattle.running_guarded.specs.GuardedSteps.{Acts, PlaysUnlock, PlaysBoth};
ghost use Rattle.running_guarded.specs.GuardedShown.{IsGuardedPass, HasStayed, HasLockedOnce, HasLockedOften, grants_of, object_of, number_of, view, id_of};
ghost use Rattle.running_model.specs.Asked.{WokeOnce, HasWokenOf};
ghost use Rattle.running_guarded.specs.GuardedWord.{object_shown};
ghost use Rattle.running_guarded.specs.Acting.{HasAnswered, HasAnsweredAfter, answer_of, given_by, slept_by, permits_of, Sleeps, LooksUntil};

use crate::guarded::{Guarded, go_on};
use crate::pass::GuardedPass;
use crate::word::GuardedWord;
use atomic_table::Seat;
use model_events::WaitAction;
use running_condvar::{CondPass, ConditionVariable, CountedWait};
use running_model::{Sealed, Shown, Shows};
use running_mutex::PlayedMutex;
use running_passes::{View, WaitResult};
use running_semaphore::SemaphoreWord;
use std::alloc::Allocator;
use std::sync::Wait;

/// What a look at the value came to.
enum Looked<X> {
    /// The closure acted, and gave this.
    Acted(X),
    /// It could not act, and a notify came.
    Again,
    /// It could not act, and the wait closure had answered `Abort`.
    GaveUp,
}

impl<T: Drop, A: Allocator> Guarded<T, A> {
    /// Calls `act` with the value until it acts: where it answers `None` the call lets the value go, waits at the condition variable to be
    /// notified, and calls it again. `Success` with what it gave. `Interrupted` where `wait` had answered `Abort` and `act`, called once
    /// more, still did not act.
    ///
    /// The lock is waited for by yielding, without end; `wake_one` is called at each unlock. Nobody is notified: that is the caller's to
    /// do, at the condition variable of those that wait for what it did.
    pub fn when<
        't,
        X,
        B: Allocator,
        S,
        R: Wait,
        K: Fn(&GuardedWord<'_, T>),
        W: Fn(&<S as Shows<'t, SemaphoreWord<'t>>>::As, &u64) -> WaitAction,
        F: FnMut(&mut T) -> Option<X>,
    >(
        &self,
        rt: &R,
        pass: &mut GuardedPass,
        wake_one: K,
        changed: &'t ConditionVariable<B, S>,
        changed_pass: &mut CondPass,
        wait: W,
        act: F,
    ) -> WaitResult<X>
    where
        S: Shows<'t, SemaphoreWord<'t>>,
        requires own { IsGuardedPass self.now pass.old × IsCondPass changed.now changed_pass.old }
        requires may { K.IsAlwaysCallable wake_one × W.IsAlwaysCallable wait × F.IsAlwaysCallable act }
        ensures stayed { HasStayed pass.old pass.new }
        ensures waited { HasWaitedAtMost changed_pass.old changed_pass.new }
        ensures aborted { IfInterrupted result (MayAnswerAbort W.Fn wait IsEmpty) }
        ensures looked { (waits : ℕ) × HasLockedOften (suc waits) pass.old pass.new × HasWaitedOften changed.now waits changed_pass.old changed_pass.new × HasAnsweredAfter F.FnMut waits (answer_of result) act }
        ensures looked_again { IfInterrupted result (grants_of pass.old + 2 ≤ grants_of pass.new) }
        ensures woke { HasWokenOf K.Fn (λ seen. object_shown seen ≡ id_of self.now) wake_one }
    {
        let mut act = act;
        let word = changed.word();
        let (given, _wake, _wait) = self.when_by(
            rt,
            pass,
            wake_one,
            changed,
            changed_pass,
            &word,
            wait,
            &mut act,
        );
        given
    }

    /// Calls `act` with the value, and then notifies all that wait at the condition variable, so that each looks again.
    ///
    /// The lock is waited for by yielding, without end. `wake_one` is called at the unlock, and `wake_all` once after the notify, also where
    /// nobody waits.
    pub fn change<
        't,
        X,
        B: Allocator,
        S,
        R: Wait,
        K: Fn(&GuardedWord<'_, T>),
        N: Fn(&<S as Shows<'t, SemaphoreWord<'t>>>::As),
        F: FnOnce(&mut T) -> X,
    >(
        &self,
        rt: &R,
        pass: &mut GuardedPass,
        wake_one: K,
        changed: &'t ConditionVariable<B, S>,
        changed_pass: &mut CondPass,
        wake_all: N,
        act: F,
    ) -> X
    where
        S: Shows<'t, SemaphoreWord<'t>>,
        requires own { IsGuardedPass self.now pass.old × IsCondPass changed.now changed_pass.old }
        requires may { K.IsAlwaysCallable wake_one × N.IsAlwaysCallable wake_all × F.IsAlwaysCallable act }
        ensures stayed { HasStayed pass.old pass.new }
        ensures granted { HasLockedOnce pass.old pass.new }
        ensures played { PlaysBoth (view pass.old) (view pass.new) }
        ensures acted { Acts F.FnOnce act result }
        ensures notified { HasNotified (λ waiting. waiting) changed_pass.old changed_pass.new }
        ensures woke { HasWokenOf K.Fn (λ seen. object_shown seen ≡ id_of self.now) wake_one × HasWokenOf N.Fn (λ seen. IsPermitsWord changed.now (S.As.Shown.object seen) (S.As.Shown.index seen)) wake_all }
    {
        match self.with(rt, pass, |_, _| go_on(), wake_one, act) {
            WaitResult::Success(given) => {
                changed.notify_all(changed_pass, wake_all);
                given
            }
            WaitResult::Interrupted => unreachable!(),
        }
    }

    /// What `when` does, by closures that count their calls. Gives those back that it was handed.
    fn when_by<
        X,
        B: Allocator,
        S,
        Y: Shown,
        R: Wait,
        K: FnMut(&GuardedWord<'_, T>),
        W: FnMut(&Y, &u64) -> WaitAction,
        F: FnMut(&mut T) -> Option<X>,
    >(
        &self,
        rt: &R,
        pass: &mut GuardedPass,
        wake_one: K,
        changed: &ConditionVariable<B, S>,
        changed_pass: &mut CondPass,
        word: &Sealed<Y>,
        wait: W,
        act: &mut F,
    ) -> (WaitResult<X>, K, W)
        requires own { IsGuardedPass self.now pass.old × IsCondPass changed.now changed_pass.old }
        requires its { IsPermitsWord changed.now (Y.object word.now.shown) (Y.index word.now.shown) }
        requires may { K.IsAlwaysCallable wake_one × W.IsAlwaysCallable wait × F.IsAlwaysCallable act.old }
        ensures stayed { HasStayed pass.old pass.new }
        ensures waited { HasWaitedAtMost changed_pass.old changed_pass.new }
        ensures looked { LooksUntil F.FnMut K.FnMut W.FnMut (λ seen. object_shown seen ≡ id_of self.now) word.now.shown changed.now (answer_of result.0) (pass.old, changed_pass.old, wake_one, wait, act.old) (pass.new, changed_pass.new, result.1, result.2, act.new) }
    {
        let mut wake = wake_one;
        let mut asked = wait;
        for _ in rt.forever() {
            let (looked, woken, waited) = self.look(
                rt,
                pass,
                wake,
                changed,
                changed_pass,
                word,
                asked,
                act,
            );
            wake = woken;
            asked = waited;
            match looked {
                Looked::Acted(given) => return (WaitResult::Success(given), wake, asked),
                Looked::Again => {}
                Looked::GaveUp => {
                    let (given, last) = self.look_last(rt, pass, wake, act);
                    return (given, last, asked);
                }
            }
        }
        unreachable!()
    }

    /// Calls `act` once, and waits once where it does not act. Gives the closures back that it was handed.
    fn look<
        X,
        B: Allocator,
        S,
        Y: Shown,
        R: Wait,
        K: FnMut(&GuardedWord<'_, T>),
        W: FnMut(&Y, &u64) -> WaitAction,
        F: FnMut(&mut T) -> Option<X>,
    >(
        &self,
        rt: &R,
        pass: &mut GuardedPass,
        wake_one: K,
        changed: &ConditionVariable<B, S>,
        changed_pass: &mut CondPass,
        word: &Sealed<Y>,
        wait: W,
        act: &mut F,
    ) -> (Looked<X>, K, W)
        requires own { IsGuardedPass self.now pass.old × IsCondPass changed.now changed_pass.old }
        requires its { IsPermitsWord changed.now (Y.object word.now.shown) (Y.index word.now.shown) }
        requires may { K.IsAlwaysCallable wake_one × W.IsAlwaysCallable wait × F.IsAlwaysCallable act.old }
        ensures callable { K.IsAlwaysCallable result.1 × W.IsAlwaysCallable result.2 × F.IsAlwaysCallable act.new }
        ensures stayed { HasStayed pass.old pass.new }
        ensures waited { HasWaitedAtMost changed_pass.old changed_pass.new }
        ensures called { HasAnswered F.FnMut (given_by result.0) act.old act.new }
        ensures granted { grants_of pass.new ≡ grants_of pass.old + 1 }
        ensures played { PlaysBoth (view pass.old) (view pass.new) }
        ensures slept { Sleeps W.FnMut word.now.shown changed.now (slept_by result.0) changed_pass.old wait changed_pass.new result.2 }
        ensures woke { WokeOnce K.FnMut (λ seen. object_shown seen ≡ id_of self.now) wake_one result.1 }
    {
        let (seat, mut value) = self.enter_soon(pass.rise(), rt);
        match act(&mut value) {
            Some(given) => {
                let (left, woken) = self.leave(seat, value, wake_one);
                *pass = GuardedPass::seated(left);
                (Looked::Acted(given), woken, wait)
            }
            None => {
                let (left, woken, notified, asked) = self.sleep(
                    rt,
                    seat,
                    value,
                    wake_one,
                    changed,
                    changed_pass,
                    word,
                    wait,
                );
                *pass = left;
                if notified {
                    (Looked::Again, woken, asked)
                } else {
                    (Looked::GaveUp, woken, asked)
                }
            }
        }
    }

    /// Lets the value go, and waits once; whether a notify came. Gives both closures back.
    fn sleep<
        B: Allocator,
        S,
        Y: Shown,
        R: Wait,
        K: FnMut(&GuardedWord<'_, T>),
        W: FnMut(&Y, &u64) -> WaitAction,
    >(
        &self,
        rt: &R,
        seat: Seat<Option<T>, View<PlayedMutex>>,
        value: T,
        wake_one: K,
        changed: &ConditionVariable<B, S>,
        changed_pass: &mut CondPass,
        word: &Sealed<Y>,
        wait: W,
    ) -> (GuardedPass, K, bool, W)
        requires own { (seat.table_id ≡ id_of self.now) × IsCondPass changed.now changed_pass.old }
        requires has { (seat.me.0.tally.counts.holds ≡ 1) × HasMutex seat.me.0.tally.parties }
        requires there { 0 < seat.me.0.part.share × (has_vacant_slot seat.me.1 ≡ true) }
        requires its { IsPermitsWord changed.now (Y.object word.now.shown) (Y.index word.now.shown) }
        requires may { K.IsAlwaysCallable wake_one × W.IsAlwaysCallable wait }
        ensures may_again { K.IsAlwaysCallable result.1 × W.IsAlwaysCallable result.3 }
        ensures same { (object_of result.0 ≡ seat.table_id) × (number_of result.0 ≡ seat.id) }
        ensures off { Lets seat.me.0 (view result.0) }
        ensures played { PlaysUnlock seat.me.0 (view result.0) }
        ensures waited { HasWaitedAtMost changed_pass.old changed_pass.new }
        ensures slept { HasSlept W.FnMut word.now.shown wait result.3 (permits_of changed.now) result.2 (permits_in changed_pass.old) (permits_in changed_pass.new) }
        ensures woke { WokeOnce K.FnMut (λ seen. object_shown seen ≡ id_of self.now) wake_one result.1 }
    {
        let ((left, woken), notified, asked) = changed.wait_around(
            rt,
            changed_pass,
            move |_: &CountedWait<'_>| -> (GuardedPass, K)
                requires { (seat.table_id ≡ id_of self.now) × (seat.me.0.tally.counts.holds ≡ 1) × HasMutex seat.me.0.tally.parties × 0 < seat.me.0.part.share × (has_vacant_slot seat.me.1 ≡ true) × K.IsAlwaysCallable wake_one }
                ensures { ((object_of result.0 ≡ seat.table_id) × (number_of result.0 ≡ seat.id)) × Lets seat.me.0 (view result.0) × PlaysUnlock seat.me.0 (view result.0) × K.IsAlwaysCallable result.1 × WokeOnce K.FnMut (λ seen. object_shown seen ≡ id_of self.entry.now) wake_one result.1 }
            {
                let (left, woken) = self.leave(seat, value, wake_one);
                (GuardedPass::seated(left), woken)
            },
            word,
            wait,
        );
        (left, woken, notified, asked)
    }

    /// Calls `act` once more, and does not wait. Gives the wake closure back.
    fn look_last<X, R: Wait, K: FnMut(&GuardedWord<'_, T>), F: FnMut(&mut T) -> Option<X>>(
        &self,
        rt: &R,
        pass: &mut GuardedPass,
        wake_one: K,
        act: &mut F,
    ) -> (WaitResult<X>, K)
        requires own { IsGuardedPass self.now pass.old }
        requires may { K.IsAlwaysCallable wake_one × F.IsAlwaysCallable act.old }
        ensures stayed { HasStayed pass.old pass.new }
        ensures called { HasAnswered F.FnMut (answer_of result.0) act.old act.new }
        ensures granted { grants_of pass.new ≡ grants_of pass.old + 1 }
        ensures played { PlaysBoth (view pass.old) (view pass.new) }
        ensures woke { WokeOnce K.FnMut (λ seen. object_shown seen ≡ id_of self.now) wake_one result.1 }
    {
        let (seat, mut value) = self.enter_soon(pass.rise(), rt);
        let given = act(&mut value);
        let (left, woken) = self.leave(seat, value, wake_one);
        *pass = GuardedPass::seated(left);
        match given {
            Some(given) => (WaitResult::Success(given), woken),
            None => (WaitResult::Interrupted, woken),
        }
    }
}
