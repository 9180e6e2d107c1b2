//! A condition variable: a call that has a mutex lets it go, waits to be notified, and locks it again.
//!
//! It does what `strategy::condition_variable` of the Rust crate does, but that a wait that gives up locks the mutex again too. It
//! stands on the public calls of `Mutex` and `Semaphore`. A wait takes the pass out of the hold that it was handed, and builds the hold
//! anew. Its count of those that wait plays a model of its own.
#![tactic(auto)]

ghost use Rattle.std.specs.Prelude.{◌≡◌, true, IfOk, Some, None};
ghost use Rattle.model_events.specs.declared.event.Call.TheVariants as calls;
ghost use Rattle.model_events.specs.declared.event.Answer.TheVariants as answers;
ghost use Rattle.model_events.specs.declared.hold.HoldKind.TheVariants as kinds;
ghost use Rattle.running_passes.specs.Answers.{MayAnswerAbort};
ghost use Rattle.running_model.specs.Passes.{parties_of, counts_of};
ghost use Rattle.running_model.specs.Stages.{count_of};
ghost use Rattle.running_semaphore.specs.SemaphoreShown.{initial_of};
ghost use Rattle.running_mutex.specs.MutexShown.{IsMutexPass, IsLocked};
ghost use Rattle.running_mutex.specs.MutexParties.{HasMutex};
ghost use Rattle.running_condvar.specs.CondParties.{HasWaitInside};
ghost use Rattle.running_condvar.specs.Cond.{CountIsInside};

mod left;
mod shares;
mod waits;

use crate::left::Left;
pub use crate::waits::Waits;
use crate::waits::{PlayedWaits, WaitersScript};
use model_condvar::permits_for;
use model_events::WaitAction;
use model_events::event::Wake;
use model_waiters::WaitersPlace;
use running_model::calls::{ValueCall, WaitCall};
use running_model::turn::{AfterAside, Goes, Ran, Turn, begin_new};
use running_model::{OfWord, OwnWords, Sealed, Shown, Shows, Stage};
use running_mutex::{Mutex, MutexHold, MutexPass, MutexWord};
use running_passes::{Pass, WaitResult};
use running_semaphore::{SemPass, Semaphore, SemaphoreWord};
use std::alloc::{AllocError, Allocator, Global};
use std::sync::Wait;

/// A condition variable.
#[derive(Drop)]
pub struct ConditionVariable<A: Allocator = Global, S = OwnWords> {
    number_of_waiters: Stage<(), WaitersScript, WaitersPlace, u64, Waits, A>,
    semaphore: Semaphore<A, S>,
    ghost one_word: { count_of number_of_waiters ≡ 1 },
    ghost no_permit: { initial_of semaphore ≡ 0 },
}

/// The right to call a condition variable, and what its owner did and saw there. No wait of its owner is under way.
#[derive(Drop)]
pub struct CondPass {
    waits: Pass<PlayedWaits>,
    permits: SemPass,
    ghost outside: { (counts_of waits).ended ≡ (counts_of waits).begun },
}

/// That a wait is counted as waiting, and does not sleep yet. Nobody else makes one than `wait_around`, which lends it to the closure that
/// lets the lock go.
#[derive(Drop)]
pub struct CountedWait<'p> {
    turn: &'p Turn<'p, Pass<PlayedWaits>, Goes>,
    ghost inside: { HasWaitInside (parties_of turn.now.pass.now) },
}

/// What a wait has while it is counted: the pass of the permits, and its wait closure, but for where that is asked.
struct Asleep<'q, W> {
    permits: &'q mut SemPass,
    wait: &'q mut Option<W>,
}

/// What a wait came to that has the mutex again.
#[derive(Debug, Drop, PartialEq, Eq)]
pub enum Woken<H> {
    /// It took a permit, which a notify had given.
    Signalled(H),
    /// It gave up, and took none.
    Unsignalled(H),
}

/// How a wait answers.
#[derive(Debug, Drop, PartialEq, Eq)]
pub enum CondResult<H> {
    /// It took a permit, which a notify had given, and has the mutex.
    Success(H),
    /// With the mutex, it gave up and took no permit. Without it, the mutex was refused; it does not tell whether a permit was taken.
    Interrupted(Option<H>),
}

impl<H> From<WaitResult<Woken<H>>> for CondResult<H> {
    ghost use Rattle.running_condvar.specs.CondShown.{woken_of};

    /// What `wait` answers where `wait_held` answers this.
    #[inline(always)]
    fn from(woken: WaitResult<Woken<H>>) -> CondResult<H>
        ensures same { woken_of result ≡ woken }
    {
        match woken {
            WaitResult::Success(Woken::Signalled(hold)) => CondResult::Success(hold),
            WaitResult::Success(Woken::Unsignalled(hold)) => CondResult::Interrupted(Some(hold)),
            WaitResult::Interrupted => CondResult::Interrupted(None),
        }
    }
}

impl CondPass {
    ghost use Rattle.std.specs.Prelude.{is_ok};
    ghost use Rattle.running_passes.specs.declared.part.Part.{Part};
    ghost use Rattle.running_passes.specs.Parts.{half, IsAgain, IsSamePart, AddUp};
    ghost use Rattle.running_passes.specs.Passes.{view, part_of};
    ghost use Rattle.running_passes.specs.Views.{left_view, right_view, joined_view};
    ghost use Rattle.running_model.specs.Passes.{core_played, both_played};
    ghost use Rattle.running_semaphore.specs.Semaphore.{no_permits, both_permits};
    ghost use Rattle.running_condvar.specs.Cond.{no_waits, both_waits};
    ghost use Rattle.running_condvar.specs.CondShown.{IsCondPass, IsPermitsWord, waits_in, permits_in};

    /// Two passes of the same condition variable. What they counted adds up to what this one had counted, and they weigh together what
    /// it weighed. `Err`, which never comes today, would hand the pass back.
    pub fn split<A: Allocator, S>(
        self,
        of: &ConditionVariable<A, S>,
    ) -> Result<(CondPass, CondPass), CondPass>
        requires own { IsCondPass of.now self }
        ensures never_refused { is_ok result ≡ true }
        ensures own { IfOk result (λ parts. IsCondPass of.now parts.0 × IsCondPass of.now parts.1) }
        ensures first { IfOk result (λ parts. (view (waits_in parts.0) ≡ left_view (view (waits_in self))) × (view (permits_in parts.0) ≡ left_view (view (permits_in self)))) }
        ensures second { IfOk result (λ parts. (view (waits_in parts.1) ≡ right_view (core_played (λ _. no_waits)) (view (waits_in self))) × (view (permits_in parts.1) ≡ right_view (core_played (λ _. no_permits)) (view (permits_in self)))) }
        ensures weights { IfOk result (λ parts. AddUp (part_of (waits_in self)) (part_of (waits_in parts.0)) (part_of (waits_in parts.1)) × AddUp (part_of (permits_in self)) (part_of (permits_in parts.0)) (part_of (permits_in parts.1))) }
    {
        let CondPass { waits, permits } = self;
        let Ok((waits, other_waits)) = waits.split(&of.number_of_waiters) else {
            unreachable!()
        };
        let Ok((permits, other_permits)) = permits.split(&of.semaphore) else {
            unreachable!()
        };
        Ok((
            CondPass { waits, permits },
            CondPass {
                waits: other_waits,
                permits: other_permits,
            },
        ))
    }

    /// One pass from two of the same condition variable, which counted what both did, and weighs what both weighed. `Err`, which never
    /// comes today, would hand both back.
    pub fn join<A: Allocator, S>(
        a: CondPass,
        b: CondPass,
        of: &ConditionVariable<A, S>,
    ) -> Result<CondPass, (CondPass, CondPass)>
        requires own { IsCondPass of.now a × IsCondPass of.now b }
        ensures never_refused { is_ok result ≡ true }
        ensures own { IfOk result (IsCondPass of.now) }
        ensures views { IfOk result (λ both. (view (waits_in both) ≡ joined_view (both_played both_waits) (view (waits_in a)) (view (waits_in b))) × (view (permits_in both) ≡ joined_view (both_played both_permits) (view (permits_in a)) (view (permits_in b)))) }
        ensures weights { IfOk result (λ both. AddUp (part_of (waits_in both)) (part_of (waits_in a)) (part_of (waits_in b)) × AddUp (part_of (permits_in both)) (part_of (permits_in a)) (part_of (permits_in b))) }
        ensures again { (p : Part) → IsSamePart (part_of (waits_in a)) (half p) → IsSamePart (part_of (waits_in b)) (half p) → IfOk result (λ both. IsAgain p (part_of (waits_in both))) }
        ensures permits_again { (p : Part) → IsSamePart (part_of (permits_in a)) (half p) → IsSamePart (part_of (permits_in b)) (half p) → IfOk result (λ both. IsAgain p (part_of (permits_in both))) }
    {
        let CondPass { waits, permits } = a;
        let CondPass {
            waits: other_waits,
            permits: other_permits,
        } = b;
        let Ok(waits) = Pass::join(waits, other_waits, &of.number_of_waiters) else {
            unreachable!()
        };
        let Ok(permits) = SemPass::join(permits, other_permits, &of.semaphore) else {
            unreachable!()
        };
        Ok(CondPass { waits, permits })
    }
}

impl<A: Allocator, S> ConditionVariable<A, S> {
    ghost use Rattle.std.specs.Borrow.{sem};
    ghost use Rattle.std.specs.Prelude.{ℕ, List, ◌<◌, ◌⊎◌, min};
    ghost use Rattle.running_passes.specs.Answers.{IfSuccess, IfInterrupted, IsSuccess, RestsIfInterrupted};
    ghost use Rattle.running_passes.specs.Parts.{IsWhole};
    ghost use Rattle.running_model.specs.Stages.{IsPassOf};
    ghost use Rattle.running_model.specs.Turns.{given_by};
    ghost use Rattle.running_model.specs.Asked.{WokeOnce, HasWokenOf};
    ghost use Rattle.model_condvar.specs.Table.{permits_for};
    ghost use Rattle.running_model.specs.Counts.{HasSeen, HasDone};
    ghost use Rattle.running_passes.specs.Passes.{view, part_of};
    ghost use Rattle.running_passes.specs.Views.{first_view};
    ghost use Rattle.running_model.specs.Slots.{no_parties};
    ghost use Rattle.running_model.specs.Passes.{played};
    ghost use Rattle.running_semaphore.specs.Semaphore.{first_permits};
    ghost use Rattle.running_model.specs.Slots.{Slot, all_of};
    ghost use Rattle.running_condvar.specs.Cond.{no_waits, went_in, went_out, one_more};
    ghost use Rattle.running_condvar.specs.CondParties.{IsInside, IsOut, Plays};
    ghost use Rattle.running_semaphore.specs.SemaphoreShown.{IsSemPass, IsItsWord, worth_of};
    ghost use Rattle.running_mutex.specs.MutexShown.{mutex_row, holds_of, pass_of, borrow_of, HasUnlocked, HasPlayedUnlock, IsItsWord as IsMutexWord};
    ghost use Rattle.running_condvar.specs.CondShown.{IsCondPass, IsPermitsWord, waits_in, permits_in, HasGiven, HasNotified, held_by, woken_of, IfSignalled, IfUnsignalled, HasWaited, HasTakenOne, HasNotTaken, HasSlept, IsAwake, SleepsBy, HasRegained, HasLeft, LeavesCounted, HasPlayedAgain};

    /// A condition variable at which nobody waits, and the pass that is whole. `Err` where there was no memory; then nothing was made.
    pub fn new(alloc: A) -> Result<(ConditionVariable<A, S>, CondPass), AllocError>
    where
        A: Copy,
        ensures own { IfOk result (λ made. IsCondPass made.0 made.1) }
        ensures first { IfOk result (λ made. (view (waits_in made.1) ≡ first_view (played no_parties no_waits)) × (view (permits_in made.1) ≡ first_view (played no_parties (first_permits 0)))) }
    {
        let (number_of_waiters, waits) = Stage::new(alloc, &[0], &())?;
        let (semaphore, permits) = Semaphore::new(alloc, 0)?;
        Ok((
            ConditionVariable {
                number_of_waiters,
                semaphore,
            },
            CondPass { waits, permits },
        ))
    }

    /// Looks at the count of those that wait, gives one permit where it is not 0 and none where it is, and then calls the wake closure
    /// once, also for none.
    #[inline(always)]
    pub fn notify_one<'t, W: Fn(&<S as Shows<'t, SemaphoreWord<'t>>>::As)>(
        &'t self,
        pass: &mut CondPass,
        wake_one: W,
    )
    where
        S: Shows<'t, SemaphoreWord<'t>>,
        requires own { IsCondPass self.now pass.old }
        requires may { W.IsAlwaysCallable wake_one }
        ensures posted { HasNotified (λ waiting. min 1 waiting) pass.old pass.new }
        ensures exact { IsWhole (part_of (waits_in pass.old)) → HasGiven 0 0 pass.old pass.new }
        ensures woke { HasWokenOf W.Fn (λ word. IsPermitsWord self.now (S.As.Shown.object word) (S.As.Shown.index word)) wake_one }
    {
        let _wake = self.notify_by(Wake::One, pass, wake_one);
    }

    /// Looks at the count of those that wait, gives as many permits, and then calls the wake closure once, also for none.
    #[inline(always)]
    pub fn notify_all<'t, W: Fn(&<S as Shows<'t, SemaphoreWord<'t>>>::As)>(
        &'t self,
        pass: &mut CondPass,
        wake_all: W,
    )
    where
        S: Shows<'t, SemaphoreWord<'t>>,
        requires own { IsCondPass self.now pass.old }
        requires may { W.IsAlwaysCallable wake_all }
        ensures posted { HasNotified (λ waiting. waiting) pass.old pass.new }
        ensures exact { IsWhole (part_of (waits_in pass.old)) → HasGiven 0 0 pass.old pass.new }
        ensures woke { HasWokenOf W.Fn (λ word. IsPermitsWord self.now (S.As.Shown.object word) (S.As.Shown.index word)) wake_all }
    {
        let _wake = self.notify_by(Wake::All, pass, wake_all);
    }

    /// Counts the wait in, unlocks the mutex and calls its wake closure, waits for a permit as the semaphore's `wait` does, counts the
    /// wait out, and locks the mutex again as its `lock` does. So `Interrupted` is without the mutex, after `mtx_wait` had answered
    /// `Abort`; and `Unsignalled` is with it, after `wait` had.
    #[inline(always)]
    pub fn wait_held<
        'p,
        't,
        B: Allocator,
        Q,
        R: Wait,
        K: Fn(&<Q as Shows<'t, MutexWord<'t>>>::As),
        W: Fn(&<S as Shows<'t, SemaphoreWord<'t>>>::As, &u64) -> WaitAction,
        M: Fn(&<Q as Shows<'t, MutexWord<'t>>>::As, &u64) -> WaitAction,
    >(
        hold: MutexHold<'p>,
        this: &'t Self,
        rt: &R,
        pass: &mut CondPass,
        mtx: &'t Mutex<B, Q>,
        mtx_wake_one: K,
        wait: W,
        mtx_wait: M,
    ) -> WaitResult<Woken<MutexHold<'p>>>
    where
        S: Shows<'t, SemaphoreWord<'t>>,
        Q: Shows<'t, MutexWord<'t>>,
        requires own { IsCondPass this.now pass.old × IsMutexPass mtx.now (pass_of hold) }
        requires may { K.IsAlwaysCallable mtx_wake_one × W.IsAlwaysCallable wait × M.IsAlwaysCallable mtx_wait }
        ensures* left { sem 𝓛 (RestsIfInterrupted mutex_row hold.entry.pass (λ woken. borrow_of (held_by woken)) result (λ q. HasLeft M.Fn mtx_wait (pass_of hold.entry) q × HasPlayedAgain answers.Interrupted None (pass_of hold.entry) q)) }
        ensures relocked { IfSuccess result (λ woken. HasPlayedAgain answers.Success (Some kinds.Write) (pass_of hold.entry) (pass_of (held_by woken))) }
        ensures same_borrow { IfSuccess result (λ woken. borrow_of (held_by woken) ≡ borrow_of hold.entry) }
        ensures regained { IfSuccess result (λ woken. HasRegained (pass_of hold.entry) (pass_of (held_by woken))) }
        ensures counted { HasWaited pass.old pass.new }
        ensures signalled { IfSignalled result (HasTakenOne this.now pass.old pass.new) }
        ensures unsignalled { IfUnsignalled result (HasNotTaken this.now W.Fn wait pass.old pass.new) }
        ensures gave_up { IfInterrupted result (HasTakenOne this.now pass.old pass.new ⊎ HasNotTaken this.now W.Fn wait pass.old pass.new) }
        ensures aborted { IfInterrupted result (MayAnswerAbort M.Fn mtx_wait IsLocked) }
        ensures exact { IsWhole (part_of (pass_of hold.entry)) → IsSuccess result }
        ensures some { IsWhole (part_of (permits_in pass.old)) → 0 < worth_of (permits_in pass.old) → HasTakenOne this.now pass.old pass.new }
        ensures none { IsWhole (part_of (permits_in pass.old)) → worth_of (permits_in pass.old) ≡ 0 → HasNotTaken this.now W.Fn wait pass.old pass.new }
        ensures woke { HasWokenOf K.Fn (λ word. IsMutexWord mtx.now (Q.As.Shown.object word) (Q.As.Shown.index word)) mtx_wake_one }
    {
        let MutexHold { pass: mtx_pass } = hold;
        let (signalled, _, _) = this.unlock_and_sleep(
            rt,
            &mut pass.waits,
            &mut pass.permits,
            mtx,
            mtx_pass,
            mtx_wake_one,
            &this.word(),
            wait,
        );
        let (locked, _) = mtx.enter(rt, mtx_pass, mtx_wait);
        if !locked {
            return WaitResult::Interrupted;
        }
        if signalled {
            WaitResult::Success(Woken::Signalled(MutexHold { pass: mtx_pass }))
        } else {
            WaitResult::Success(Woken::Unsignalled(MutexHold { pass: mtx_pass }))
        }
    }

    /// What `wait_held` does, with the answer of the Rust crate's later form: `Success` with the mutex and a permit, `Interrupted` with
    /// the mutex and no permit, and `Interrupted` without the mutex, which does not tell whether a permit was taken.
    ///
    /// No clause says how the mutex's pass stands after the last; where that is wanted, call `wait_held`.
    #[inline(always)]
    pub fn wait<
        'p,
        't,
        B: Allocator,
        Q,
        R: Wait,
        K: Fn(&<Q as Shows<'t, MutexWord<'t>>>::As),
        W: Fn(&<S as Shows<'t, SemaphoreWord<'t>>>::As, &u64) -> WaitAction,
        M: Fn(&<Q as Shows<'t, MutexWord<'t>>>::As, &u64) -> WaitAction,
    >(
        hold: MutexHold<'p>,
        this: &'t Self,
        rt: &R,
        pass: &mut CondPass,
        mtx: &'t Mutex<B, Q>,
        mtx_wake_one: K,
        wait: W,
        mtx_wait: M,
    ) -> CondResult<MutexHold<'p>>
    where
        S: Shows<'t, SemaphoreWord<'t>>,
        Q: Shows<'t, MutexWord<'t>>,
        requires own { IsCondPass this.now pass.old × IsMutexPass mtx.now (pass_of hold) }
        requires may { K.IsAlwaysCallable mtx_wake_one × W.IsAlwaysCallable wait × M.IsAlwaysCallable mtx_wait }
        ensures same_borrow { IfSuccess (woken_of result) (λ woken. borrow_of (held_by woken) ≡ borrow_of hold.entry) }
        ensures regained { IfSuccess (woken_of result) (λ woken. HasRegained (pass_of hold.entry) (pass_of (held_by woken))) }
        ensures counted { HasWaited pass.old pass.new }
        ensures relocked { IfSuccess (woken_of result) (λ woken. HasPlayedAgain answers.Success (Some kinds.Write) (pass_of hold.entry) (pass_of (held_by woken))) }
        ensures signalled { IfSignalled (woken_of result) (HasTakenOne this.now pass.old pass.new) }
        ensures unsignalled { IfUnsignalled (woken_of result) (HasNotTaken this.now W.Fn wait pass.old pass.new) }
        ensures gave_up { IfInterrupted (woken_of result) (HasTakenOne this.now pass.old pass.new ⊎ HasNotTaken this.now W.Fn wait pass.old pass.new) }
        ensures aborted { IfInterrupted (woken_of result) (MayAnswerAbort M.Fn mtx_wait IsLocked) }
        ensures exact { IsWhole (part_of (pass_of hold.entry)) → IsSuccess (woken_of result) }
        ensures some { IsWhole (part_of (permits_in pass.old)) → 0 < worth_of (permits_in pass.old) → HasTakenOne this.now pass.old pass.new }
        ensures none { IsWhole (part_of (permits_in pass.old)) → worth_of (permits_in pass.old) ≡ 0 → HasNotTaken this.now W.Fn wait pass.old pass.new }
        ensures woke { HasWokenOf K.Fn (λ word. IsMutexWord mtx.now (Q.As.Shown.object word) (Q.As.Shown.index word)) mtx_wake_one }
    {
        CondResult::from(Self::wait_held(hold, this, rt, pass, mtx, mtx_wake_one, wait, mtx_wait))
    }

    /// Counts the wait in, calls `leave`, by which its caller lets a lock of its own go, waits for a permit as the semaphore's `wait` does,
    /// and counts the wait out. What `leave` gave, whether a permit was taken, and the wait closure.
    ///
    /// It serves a lock of another kind than the mutex. `leave` is handed what only a counted wait has, so a notify that comes once the
    /// lock is free sees the wait. The lock is the caller's to take again.
    #[inline(always)]
    pub fn wait_around<
        X: Shown,
        R: Wait,
        Y,
        F: FnOnce(&CountedWait<'_>) -> Y,
        W: FnMut(&X, &u64) -> WaitAction,
    >(&self, rt: &R, cond_pass: &mut CondPass, leave: F, word: &Sealed<X>, wait: W) -> (Y, bool, W)
        requires own { IsCondPass self.now cond_pass.old }
        requires its { IsPermitsWord self.now (X.object word.now.shown) (X.index word.now.shown) }
        requires may { F.IsAlwaysCallable leave × W.IsAlwaysCallable wait }
        ensures may_again { W.IsAlwaysCallable result.2 }
        ensures left { LeavesCounted F.FnOnce leave result.0 }
        ensures counted { HasWaited cond_pass.old cond_pass.new }
        ensures slept { HasSlept W.FnMut word.now.shown wait result.2 (initial_of self.now.semaphore) result.1 (permits_in cond_pass.old) (permits_in cond_pass.new) }
    {
        self.leave_and_sleep(
            rt,
            &mut cond_pass.waits,
            &mut cond_pass.permits,
            leave,
            word,
            wait,
        )
    }

    /// The word of the permits, as wait closures see it, sealed.
    #[inline(always)]
    pub fn word<'t, X: OfWord<SemaphoreWord<'t>>>(&'t self) -> Sealed<X>
        ensures its { IsPermitsWord self.now (X.Shown.object result.shown) (X.Shown.index result.shown) }
    {
        self.semaphore.word()
    }

    /// What a notify does, by a closure that counts its calls. Gives it back.
    #[inline(always)]
    fn notify_by<'t, X: OfWord<SemaphoreWord<'t>>, W: FnMut(&X)>(
        &'t self,
        who: Wake,
        pass: &mut CondPass,
        wake: W,
    ) -> W
        requires own { IsCondPass self.now pass.old }
        requires may { W.IsAlwaysCallable wake }
        ensures posted { HasNotified (permits_for who) pass.old pass.new }
        ensures exact { IsWhole (part_of (waits_in pass.old)) → HasGiven 0 0 pass.old pass.new }
        ensures woke { WokeOnce W.FnMut (λ word. IsPermitsWord self.now (X.Shown.object word) (X.Shown.index word)) wake result }
    {
        let waiting = self.waiting(&mut pass.waits);
        self.semaphore
            .post_by(&mut pass.permits, wake, permits_for(who, waiting))
    }

    /// What `wait_around` does.
    #[inline(always)]
    fn leave_and_sleep<
        X: Shown,
        R: Wait,
        Y,
        F: FnOnce(&CountedWait<'_>) -> Y,
        W: FnMut(&X, &u64) -> WaitAction,
    >(
        &self,
        rt: &R,
        waits: &mut Pass<PlayedWaits>,
        permits: &mut SemPass,
        leave: F,
        word: &Sealed<X>,
        wait: W,
    ) -> (Y, bool, W)
        requires own { IsPassOf self.now.number_of_waiters waits.old × IsSemPass self.now.semaphore permits.old }
        requires its { IsItsWord self.now.semaphore (X.object word.now.shown) (X.index word.now.shown) }
        requires may { F.IsAlwaysCallable leave × W.IsAlwaysCallable wait }
        ensures may_again { W.IsAlwaysCallable result.2 }
        ensures left { LeavesCounted F.FnOnce leave result.0 }
        ensures counted { HasDone one_more waits.old waits.new }
        ensures played { Plays calls.Wait answers.Done (parties_of waits.old) (parties_of waits.new) }
        ensures slept { HasSlept W.FnMut word.now.shown wait result.2 (initial_of self.now.semaphore) result.1 permits.old permits.new }
    {
        let counted = self.count_in(waits);
        let left = CountedWait { turn: &counted }.leave(leave);
        let mut waiting = Some(wait);
        let (signalled, slept) = self.sleep(rt, counted, &left, permits, word, &mut waiting);
        let _waits = self.count_out(slept);
        match waiting {
            Some(asked) => (left.into_given(), *signalled.given(), asked),
            None => unreachable!(),
        }
    }

    /// What `wait_held` does until it locks the mutex again, and whether a permit was taken. Gives both closures back.
    fn unlock_and_sleep<
        't,
        B: Allocator,
        Q,
        Z: OfWord<MutexWord<'t>>,
        X: Shown,
        R: Wait,
        K: FnMut(&Z),
        W: FnMut(&X, &u64) -> WaitAction,
    >(
        &self,
        rt: &R,
        waits: &mut Pass<PlayedWaits>,
        permits: &mut SemPass,
        mtx: &'t Mutex<B, Q>,
        mtx_pass: &mut MutexPass,
        mtx_wake_one: K,
        word: &Sealed<X>,
        wait: W,
    ) -> (bool, K, W)
        requires own { IsPassOf self.now.number_of_waiters waits.old × IsSemPass self.now.semaphore permits.old × IsMutexPass mtx.now mtx_pass.old }
        requires on { holds_of mtx_pass.old ≡ 1 }
        requires has { HasMutex (parties_of mtx_pass.old) }
        requires its { IsItsWord self.now.semaphore (X.object word.now.shown) (X.index word.now.shown) }
        requires may { K.IsAlwaysCallable mtx_wake_one × W.IsAlwaysCallable wait }
        ensures unlocked { HasUnlocked mtx_pass.old mtx_pass.new }
        ensures played_unlock { HasPlayedUnlock mtx_pass.old mtx_pass.new }
        ensures counted { HasDone one_more waits.old waits.new }
        ensures played { Plays calls.Wait answers.Done (parties_of waits.old) (parties_of waits.new) }
        ensures slept { HasSlept W.FnMut word.now.shown wait result.2 (initial_of self.now.semaphore) result.0 permits.old permits.new }
        ensures woke { WokeOnce K.FnMut (λ seen. IsMutexWord mtx.now (Z.Shown.object seen) (Z.Shown.index seen)) mtx_wake_one result.1 }
    {
        let inside = self.count_in(waits);
        let left = CountedWait { turn: &inside }.unlock(mtx, mtx_pass, mtx_wake_one);
        let mut waiting = Some(wait);
        let (signalled, slept) = self.sleep(rt, inside, &left, permits, word, &mut waiting);
        let _waits = self.count_out(slept);
        match waiting {
            Some(asked) => (*signalled.given(), left.into_given(), asked),
            None => unreachable!(),
        }
    }

    /// How many are counted as waiting.
    #[inline(always)]
    fn waiting(&self, waits: &mut Pass<PlayedWaits>) -> u64
        requires own { IsPassOf self.now.number_of_waiters waits.old }
        ensures saw { HasSeen result waits.old waits.new }
        ensures played { Plays calls.Value (answers.Number result) (parties_of waits.old) (parties_of waits.new) }
        ensures none { IsWhole (part_of waits.old) → (counts_of waits.old).ended ≡ (counts_of waits.old).begun → result ≡ 0 }
    {
        let begun = begin_new::<ValueCall, Pass<PlayedWaits>>(waits);
        let (waiting, looked) = begun.load(&self.number_of_waiters, 0);
        let _waits = looked.end(&self.number_of_waiters);
        waiting
    }

    /// Counts a wait in.
    #[inline(always)]
    fn count_in<'p>(&self, waits: &'p mut Pass<PlayedWaits>) -> Turn<'p, Pass<PlayedWaits>, Goes>
        requires own { IsPassOf self.now.number_of_waiters waits.old }
        ensures same_borrow { result.pass.ghost_name ≡ waits.entry.ghost_name }
        ensures counted { HasDone went_in waits.old result.pass.now }
        ensures inside { IsInside (all_of (parties_of waits.old)) (parties_of result.pass.now) }
    {
        let begun = begin_new::<WaitCall, Pass<PlayedWaits>>(waits);
        let (_, counted) = begun.add(&self.number_of_waiters, 0, 1);
        counted
    }

    /// Waits for a permit, as the counted wait is to do until it is counted out. Whether a permit was taken.
    #[inline(always)]
    fn sleep<'p, Y, X: Shown, R: Wait, W: FnMut(&X, &u64) -> WaitAction>(
        &self,
        rt: &R,
        counted: Turn<'p, Pass<PlayedWaits>, Goes>,
        left: &Left<Y>,
        permits: &mut SemPass,
        word: &Sealed<X>,
        wait: &mut Option<W>,
    ) -> (Ran<bool>, Turn<'p, Pass<PlayedWaits>, AfterAside>)
        requires own { IsPassOf self.now.number_of_waiters counted.pass.now × IsSemPass self.now.semaphore permits.old }
        requires inside { (done : List (Slot ℕ)) × IsInside done (parties_of counted.pass.now) }
        requires its { IsItsWord self.now.semaphore (X.object word.now.shown) (X.index word.now.shown) }
        requires awake { IsAwake W.IsAlwaysCallable wait.old }
        ensures same_borrow { result.1.pass.ghost_name ≡ counted.entry.pass.ghost_name }
        ensures still { result.1.pass.now ≡ counted.entry.pass.now }
        ensures slept { SleepsBy W.FnMut W.IsAlwaysCallable word.now.shown (initial_of self.now.semaphore) (given_by result.0) wait.old wait.new permits.old permits.new }
    {
        let mut asleep = Asleep { permits, wait };
        let slept = counted.run(
            &self.number_of_waiters,
            &mut asleep,
            |asleep: &mut Asleep<'_, W>| -> bool
                requires { IsSemPass self.now.semaphore asleep.old.permits.now × IsItsWord self.now.semaphore (X.object word.now.shown) (X.index word.now.shown) × IsAwake W.IsAlwaysCallable asleep.old.wait.now }
                ensures { (asleep.new.permits.ghost_name ≡ asleep.old.permits.ghost_name) × (asleep.new.wait.ghost_name ≡ asleep.old.wait.ghost_name) × SleepsBy W.FnMut W.IsAlwaysCallable word.entry.now.shown (initial_of self.entry.now.semaphore) result asleep.old.wait.now asleep.new.wait.now asleep.old.permits.now asleep.new.permits.now }
            { self.take(rt, left, asleep.permits, word, asleep.wait) },
        );
        let Asleep {
            permits: _,
            wait: _,
        } = asleep;
        slept
    }

    /// Counts a wait out, once what it does while it is counted has ended.
    #[inline(always)]
    fn count_out<'p>(
        &self,
        slept: Turn<'p, Pass<PlayedWaits>, AfterAside>,
    ) -> &'p mut Pass<PlayedWaits>
        requires own { IsPassOf self.now.number_of_waiters slept.pass.now }
        requires inside { (done : List (Slot ℕ)) × IsInside done (parties_of slept.pass.now) }
        ensures same_borrow { result.ghost_name ≡ slept.entry.pass.ghost_name }
        ensures counted { HasDone went_out slept.entry.pass.now result.now }
        ensures out { (done : List (Slot ℕ)) → IsInside done (parties_of slept.entry.pass.now) → IsOut done (parties_of result.now) }
    {
        let (_, over) = slept.subtract(&self.number_of_waiters, 0, 1);
        over.end(&self.number_of_waiters)
    }

    /// The semaphore's `wait`, and whether a permit was taken.
    #[inline(always)]
    fn take<Y, X: Shown, R: Wait, W: FnMut(&X, &u64) -> WaitAction>(
        &self,
        rt: &R,
        _left: &Left<Y>,
        permits: &mut SemPass,
        word: &Sealed<X>,
        wait: &mut Option<W>,
    ) -> bool
        requires own { IsSemPass self.now.semaphore permits.old }
        requires its { IsItsWord self.now.semaphore (X.object word.now.shown) (X.index word.now.shown) }
        requires awake { IsAwake W.IsAlwaysCallable wait.old }
        ensures slept { SleepsBy W.FnMut W.IsAlwaysCallable word.now.shown (initial_of self.now.semaphore) result wait.old wait.new permits.old permits.new }
    {
        match wait.take() {
            Some(closure) => {
                let (took, asked) = self.semaphore.enter(rt, permits, word, closure);
                *wait = Some(asked);
                took
            }
            None => unreachable!(),
        }
    }
}

/// Whenever the rule of the count holds, its passes are the parties of a run of its model, and its word is how many of them wait, modulo
/// 2^64: all that were counted in, but those that were counted out. Says so of the rule alone, and does nothing.
pub fn count_is_those_inside()
    ensures { CountIsInside }
{}
