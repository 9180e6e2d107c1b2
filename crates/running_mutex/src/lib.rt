//! A lock with one holder at most. Its word is 0 where it is free and 1 where it is locked.
//!
//! It does what `strategy::mutex` of the Rust crate does, but that a lock answers a hold, and that only a hold can be unlocked.
//! Calls that answer a hold take the pass first, since the hold borrows it. A mutex guards no data: a hold says that no other pass
//! has one, and nothing of what other threads do.
#![tactic(auto)]

ghost use Rattle.std.specs.Prelude.{◌≡◌, ℕ, IfOk};
ghost use Rattle.running_model.specs.Passes.{parties_of, counts_of};
ghost use Rattle.running_model.specs.Stages.{count_of};
ghost use Rattle.running_mutex.specs.MutexParties.{HasMutex};
ghost use Rattle.running_mutex.specs.MutexSteps.{GrantsAreOfARun, OneHolder};

mod script;
mod shares;

use model_events::WaitAction;
use model_mutex::{MutexPlace, granted};
use running_for_one::Holds;
use running_model::calls::{LockCall, TryLockCall, UnlockCall};
use running_model::turn::{
    Attempt, Called, Continues, Goes, Turn, Way, begin_held, begin_new, try_again_by,
};
use running_model::{OfWord, OwnWords, Sealed, Shows, Stage};
use running_passes::{Origin, Pass, WaitResult, Word};
pub use script::{MutexKey, MutexScript, PlayedMutex};
use std::alloc::{AllocError, Allocator, Global};
use std::marker::PhantomData;
use std::ops::Deref;
use std::sync::Wait;

/// A lock with one holder at most.
#[derive(Drop)]
pub struct Mutex<A: Allocator = Global, S = OwnWords> {
    stage: Stage<MutexKey, MutexScript, MutexPlace, u64, Holds, A>,
    shows: PhantomData<S>,
    ghost one_word: { count_of stage ≡ 1 },
}

/// What the passes of a mutex come from, at which they are split and joined.
impl<A: Allocator, S> Deref for Mutex<A, S> {
    ghost use Rattle.running_model.specs.Stages.{origin};

    type Target = Origin<MutexKey, PlayedMutex, A>;

    #[inline(always)]
    fn deref(&self) -> &Origin<MutexKey, PlayedMutex, A>
        ensures { result.now ≡ origin self.now.stage }
    {
        &self.stage
    }
}

/// The word of a mutex, as wait and wake closures see it. It can be loaded and slept on, and no more.
pub type MutexWord<'t> = Word<'t, MutexKey, PlayedMutex>;

/// The right to call a mutex, and what its owner did and saw there.
pub type MutexPass = Pass<PlayedMutex>;

/// The mutex is locked by this pass, which is lent to the hold. A hold must be spent, by `Mutex::unlock` at the mutex that it came
/// from.
pub struct MutexHold<'p> {
    /// For the condition variable, which takes it out and builds the hold anew.
    pub pass: &'p mut MutexPass,
    ghost on: { (counts_of pass.now).holds ≡ 1 },
    ghost has: { HasMutex (parties_of pass.now) },
}

impl<A: Allocator, S> Mutex<A, S> {
    ghost use Rattle.std.specs.Borrow.{sem};
    ghost use Rattle.std.specs.Prelude.{true, ◌+◌, [], ◌∷◌, Some, None, MatchBool};
    ghost use Rattle.model_events.specs.declared.event.Word.TheVariants as words;
    ghost use Rattle.model_events.specs.declared.event.Call.TheVariants as calls;
    ghost use Rattle.model_events.specs.declared.event.Answer.TheVariants as answers;
    ghost use Rattle.model_events.specs.declared.hold.HoldKind.TheVariants as kinds;
    ghost use Rattle.model_events.specs.declared.row.Intent.TheVariants as intents;
    ghost use Rattle.running_for_one.specs.ForOne.{no_holds};
    ghost use Rattle.running_mutex.specs.Mutex.{mutex_model};
    ghost use Rattle.running_passes.specs.Answers.{IfSuccess, IfInterrupted, IsSuccess, RestsIfInterrupted, MayAnswerAbort};
    ghost use Rattle.running_passes.specs.Passes.{view};
    ghost use Rattle.running_passes.specs.Views.{first_view};
    ghost use Rattle.running_model.specs.Slots.{no_parties};
    ghost use Rattle.running_model.specs.Plays.{MayStep, Beginning};
    ghost use Rattle.running_model.specs.Passes.{played};
    ghost use Rattle.running_model.specs.Asked.{WokeOnce, HasWokenOf};
    ghost use Rattle.running_model.specs.Counts.{HasGivenUp, WasRefused};
    ghost use Rattle.running_model.specs.Stages.{id_of};
    ghost use Rattle.running_mutex.specs.MutexShown.{mutex_row, IsMutexPass, IsItsWord, IsAlone, IsLocked, holds_of, grants_of, pass_of, borrow_of, HasLocked, HasSeenLocked, HasUnlocked, HasEntered, HasStayed, HasTried, HasPlayed, HasPlayedUnlock, HasPlayedBoth, HasAskedToLock};

    /// A mutex that is free, and the pass that is whole. `Err` where there was no memory; then nothing was made.
    pub fn new(alloc: A) -> Result<(Mutex<A, S>, MutexPass), AllocError>
        ensures own { IfOk result (λ made. IsMutexPass made.0 made.1) }
        ensures first { IfOk result (λ made. view made.1 ≡ first_view (played no_parties no_holds)) }
    {
        let (stage, pass) = Stage::new(alloc, &[0], &MutexKey)?;
        let shows = PhantomData;
        Ok((Mutex { stage, shows }, pass))
    }

    /// Locks the mutex: one exchange of 0 for 1, up to 10000 more, and then the wait closure before each further one. `Interrupted`
    /// where an exchange failed after the closure had answered `Abort`; then this call holds nothing.
    #[inline(always)]
    pub fn lock<'p, 't, R: Wait, W: Fn(&<S as Shows<'t, MutexWord<'t>>>::As, &u64) -> WaitAction>(
        pass: &'p mut MutexPass,
        this: &'t Self,
        rt: &R,
        wait: W,
    ) -> WaitResult<MutexHold<'p>>
    where
        S: Shows<'t, MutexWord<'t>>,
        requires own { IsMutexPass this.now pass.old }
        requires may { W.IsAlwaysCallable wait }
        ensures* refused { sem 𝓛 (RestsIfInterrupted mutex_row pass.entry borrow_of result (λ q. HasGivenUp W.Fn wait IsLocked pass.old q × HasPlayed calls.Lock answers.Interrupted None pass.old q)) }
        ensures same_borrow { IfSuccess result (λ hold. borrow_of hold ≡ pass.entry.ghost_name) }
        ensures granted { IfSuccess result (λ hold. HasEntered pass.old (pass_of hold)) }
        ensures played { IfSuccess result (λ hold. HasPlayed calls.Lock answers.Success (Some kinds.Write) pass.old (pass_of hold)) }
        ensures exact { IsAlone pass.old → IsSuccess result }
        ensures aborted { IfInterrupted result (MayAnswerAbort W.Fn wait IsLocked) }
    {
        let (locked, _) = this.enter(rt, pass, wait);
        if locked {
            WaitResult::Success(MutexHold { pass })
        } else {
            WaitResult::Interrupted
        }
    }

    /// Stores 0, and then calls the wake closure once. Gives the pass back.
    #[inline(always)]
    pub fn unlock<'p, 't, W: Fn(&<S as Shows<'t, MutexWord<'t>>>::As)>(
        &'t self,
        hold: MutexHold<'p>,
        wake_one: W,
    ) -> &'p mut MutexPass
    where
        S: Shows<'t, MutexWord<'t>>,
        requires own { IsMutexPass self.now (pass_of hold) }
        requires may { W.IsAlwaysCallable wake_one }
        ensures same_borrow { result.ghost_name ≡ borrow_of hold.entry }
        ensures released { HasUnlocked (pass_of hold.entry) result.now }
        ensures played { HasPlayedUnlock (pass_of hold.entry) result.now }
        ensures woke { HasWokenOf W.Fn (λ word. IsItsWord self.now (S.As.Shown.object word) (S.As.Shown.index word)) wake_one }
    {
        let MutexHold { pass } = hold;
        let _wake = self.leave(pass, wake_one);
        pass
    }

    /// One exchange of 0 for 1. `Success` where the mutex was free; `Interrupted` where it was seen locked, and then this call holds
    /// nothing.
    #[inline(always)]
    pub fn try_lock<'p>(pass: &'p mut MutexPass, this: &Self) -> WaitResult<MutexHold<'p>>
        requires own { IsMutexPass this.now pass.old }
        ensures* refused { sem 𝓛 (RestsIfInterrupted mutex_row pass.entry borrow_of result (λ q. HasSeenLocked pass.old q × HasPlayed calls.TryLock answers.Interrupted None pass.old q)) }
        ensures same_borrow { IfSuccess result (λ hold. borrow_of hold ≡ pass.entry.ghost_name) }
        ensures granted { IfSuccess result (λ hold. HasLocked pass.old (pass_of hold)) }
        ensures played { IfSuccess result (λ hold. HasPlayed calls.TryLock answers.Success (Some kinds.Write) pass.old (pass_of hold)) }
        ensures exact { IsAlone pass.old → IsSuccess result }
    {
        if this.try_enter(pass) {
            WaitResult::Success(MutexHold { pass })
        } else {
            WaitResult::Interrupted
        }
    }

    /// Locks the mutex as `lock` does, calls `act`, and unlocks as `unlock` does. `Interrupted` where `lock` is; then `act` was not
    /// called. It borrows nothing, so it serves a method of a struct that owns the mutex and its pass.
    #[inline(always)]
    pub fn with_lock<
        't,
        T,
        R: Wait,
        W: Fn(&<S as Shows<'t, MutexWord<'t>>>::As, &u64) -> WaitAction,
        K: Fn(&<S as Shows<'t, MutexWord<'t>>>::As),
        F: FnOnce() -> T,
    >(&'t self, rt: &R, pass: &mut MutexPass, wait: W, wake_one: K, act: F) -> WaitResult<T>
    where
        S: Shows<'t, MutexWord<'t>>,
        requires own { IsMutexPass self.now pass.old }
        requires may { W.IsAlwaysCallable wait × K.IsAlwaysCallable wake_one × F.IsAlwaysCallable act }
        ensures stayed { HasStayed pass.old pass.new }
        ensures granted { IfSuccess result (λ _. grants_of pass.new ≡ grants_of pass.old + 1) }
        ensures refused { IfInterrupted result (HasGivenUp W.Fn wait IsLocked pass.old pass.new) }
        ensures played { IfSuccess result (λ _. HasPlayedBoth pass.old pass.new) }
        ensures gave_up { IfInterrupted result (HasPlayed calls.Lock answers.Interrupted None pass.old pass.new) }
        ensures exact { IsAlone pass.old → IsSuccess result }
        ensures acted { IfSuccess result (λ x. F.post act x) }
        ensures aborted { IfInterrupted result (MayAnswerAbort W.Fn wait IsLocked) }
        ensures woke { IfSuccess result (λ _. HasWokenOf K.Fn (λ word. IsItsWord self.now (S.As.Shown.object word) (S.As.Shown.index word)) wake_one) }
    {
        match Self::lock(pass, self, rt, wait) {
            WaitResult::Success(hold) => {
                let given = act();
                self.unlock(hold, wake_one);
                WaitResult::Success(given)
            }
            WaitResult::Interrupted => WaitResult::Interrupted,
        }
    }

    /// What `lock` does, by a closure that counts its calls, and whether the hold is on. Gives the closure back. It serves a call that locks
    /// the mutex as a part of its own.
    #[inline(always)]
    pub fn enter<'t, X: OfWord<MutexWord<'t>>, R: Wait, W: FnMut(&X, &u64) -> WaitAction>(
        &'t self,
        rt: &R,
        pass: &mut MutexPass,
        wait: W,
    ) -> (bool, W)
        requires own { IsMutexPass self.now pass.old }
        requires may { W.IsAlwaysCallable wait }
        ensures entered { MatchBool result.0 (HasEntered pass.old pass.new) (WasRefused IsLocked 10002 pass.old pass.new) }
        ensures played { MatchBool result.0 (HasPlayed calls.Lock answers.Success (Some kinds.Write) pass.old pass.new) (HasPlayed calls.Lock answers.Interrupted None pass.old pass.new) }
        ensures has { result.0 ≡ true → HasMutex (parties_of pass.new) }
        ensures exact { IsAlone pass.old → result.0 ≡ true }
        ensures asked { HasAskedToLock W.FnMut (λ word. IsItsWord self.now (X.Shown.object word) (X.Shown.index word)) wait result.1 result.0 pass.old pass.new }
    {
        let (free, begun) = self.first::<LockCall>(pass);
        if free {
            let _pass = begun.end(&self.stage);
            return (true, wait);
        }
        let (granted, last, asked) = try_again_by(rt, begun, self, &self.word(), locked(), wait);
        let _pass = last.end(&self.stage);
        (granted, asked)
    }

    /// What `try_lock` does, and whether the hold is on.
    #[inline(always)]
    fn try_enter(&self, pass: &mut MutexPass) -> bool
        requires own { IsMutexPass self.now pass.old }
        ensures locked { MatchBool result (HasLocked pass.old pass.new) (HasSeenLocked pass.old pass.new) }
        ensures played { MatchBool result (HasPlayed calls.TryLock answers.Success (Some kinds.Write) pass.old pass.new) (HasPlayed calls.TryLock answers.Interrupted None pass.old pass.new) }
        ensures has { result ≡ true → HasMutex (parties_of pass.new) }
        ensures exact { IsAlone pass.old → result ≡ true }
    {
        let (free, turn) = self.first::<TryLockCall>(pass);
        let _pass = turn.end(&self.stage);
        free
    }

    /// What `unlock` does, by the pass that has the hold. Gives the wake closure back.
    #[inline(always)]
    pub fn leave<'t, X: OfWord<MutexWord<'t>>, W: FnMut(&X)>(
        &'t self,
        pass: &mut MutexPass,
        wake_one: W,
    ) -> W
        requires own { IsMutexPass self.now pass.old }
        requires on { holds_of pass.old ≡ 1 }
        requires has { HasMutex (parties_of pass.old) }
        requires may { W.IsAlwaysCallable wake_one }
        ensures released { HasUnlocked pass.old pass.new }
        ensures played { HasPlayedUnlock pass.old pass.new }
        ensures woke { WokeOnce W.FnMut (λ word. IsItsWord self.now (X.Shown.object word) (X.Shown.index word)) wake_one result }
    {
        let begun = begin_held::<UnlockCall, MutexPass>(pass);
        let turn = self.release(begun);
        let (woken, wake) = turn.wake(&self.stage, &self.word(), wake_one);
        let _pass = woken.end_aside(&self.stage);
        wake
    }

    /// One exchange of 0 for 1, and whether it was done.
    #[inline(always)]
    fn exchange<'p, W: Way<u64>>(
        &self,
        turn: Turn<'p, MutexPass, W>,
    ) -> (bool, Turn<'p, MutexPass, Goes>)
        requires own { IsMutexPass self.now turn.pass.now }
        requires may { (put : ℕ) → put ≡ 1 → MayStep mutex_model (words.State ∷ []) W.coming 0 (λ w. intents.Exchange w 0 put) (parties_of turn.pass.now) }
        ensures same_borrow { result.1.pass.ghost_name ≡ turn.entry.pass.ghost_name }
        ensures locked { MatchBool result.0 (HasLocked turn.entry.pass.now result.1.pass.now) (HasSeenLocked turn.entry.pass.now result.1.pass.now) }
        ensures tried { HasTried W.coming result.0 turn.entry.pass.now result.1.pass.now }
        ensures exact { IsAlone turn.entry.pass.now → result.0 ≡ true }
    {
        let (found, next) = turn.exchange(&self.stage, 0, 0, locked());
        (found == 0, next)
    }

    /// The first exchange of a call, which begins with it.
    #[inline(always)]
    fn first<'p, L: Called<u64>>(
        &self,
        pass: &'p mut MutexPass,
    ) -> (bool, Turn<'p, MutexPass, Goes>)
        requires own { IsMutexPass self.now pass.old }
        requires may { (put : ℕ) → put ≡ 1 → MayStep mutex_model (words.State ∷ []) (Beginning L.call) 0 (λ w. intents.Exchange w 0 put) (parties_of pass.old) }
        ensures same_borrow { result.1.pass.ghost_name ≡ pass.entry.ghost_name }
        ensures locked { MatchBool result.0 (HasLocked pass.old result.1.pass.now) (HasSeenLocked pass.old result.1.pass.now) }
        ensures tried { HasTried (Beginning L.call) result.0 pass.old result.1.pass.now }
        ensures exact { IsAlone pass.old → result.0 ≡ true }
    {
        let begun = begin_new::<L, MutexPass>(pass);
        self.exchange(begun)
    }

    /// A store of 0, by the pass that has the hold.
    #[inline(always)]
    fn release<'p>(
        &self,
        turn: Turn<'p, MutexPass, Continues<UnlockCall>>,
    ) -> Turn<'p, MutexPass, Goes>
        requires own { IsMutexPass self.now turn.pass.now }
        requires on { holds_of turn.pass.now ≡ 1 }
        requires has { HasMutex (parties_of turn.pass.now) }
        ensures same_borrow { result.pass.ghost_name ≡ turn.entry.pass.ghost_name }
        ensures released { HasUnlocked turn.entry.pass.now result.pass.now }
        ensures played { HasPlayedUnlock turn.entry.pass.now result.pass.now }
    {
        turn.store(&self.stage, 0, 0)
    }

    /// The mutex's word, as closures see it.
    #[inline(always)]
    fn word<'t, X: OfWord<MutexWord<'t>>>(&'t self) -> Sealed<X>
        ensures object { X.Shown.object result.shown ≡ id_of self.now.stage }
        ensures index { X.Shown.index result.shown ≡ 0 }
    {
        self.stage.shown(0)
    }
}

/// An exchange of `lock`.
impl<A: Allocator, S> Attempt<MutexKey, MutexScript, MutexPlace, u64, Holds> for Mutex<A, S> {
    ghost use Rattle.std.specs.Prelude.{◌+◌, Some, IfErr};
    ghost use Rattle.running_passes.specs.Passes.{object_of, sights_of};
    ghost use Rattle.running_model.specs.Counts.{HasMoved, WasRefusedAt};
    ghost use Rattle.running_model.specs.Tries.{MayTry, Tried, IsGranted, IsRefused};
    ghost use Rattle.running_mutex.specs.Mutex.{mutex_model};
    ghost use Rattle.std.proofs.Common.{refl};
    ghost use Rattle.model_events.specs.declared.event.Call.TheVariants as calls;
    ghost use Rattle.model_events.specs.declared.hold.HoldKind.TheVariants as kinds;
    ghost use Rattle.model_mutex.specs.declared.MutexPlace.TheVariants as places;
    ghost use Rattle.running_model.specs.Stages.{id_of, key_of};
    ghost use Rattle.running_mutex.specs.MutexShown.{IsLocked, Enters};

    ghost object = { λ m. id_of m.stage };

    ghost key = { λ m. key_of m.stage };

    ghost call = { calls.Lock };

    ghost place = { places.Lock };

    ghost takes = { Some kinds.Write };

    ghost moves = { Enters };

    ghost refuses = { IsLocked };

    ghost looks_once = { λ _ _. Unit {0} };

    ghost answers = { λ _ _ _. refl };

    #[inline(always)]
    fn attempt<'p, W: Way<u64>, R: Wait>(
        &self,
        turn: Turn<'p, MutexPass, W>,
        rt: &R,
    ) -> Result<Turn<'p, MutexPass, Goes>, (u64, Turn<'p, MutexPass, Goes>)>
        requires own { object_of turn.pass.now ≡ id_of self.now.stage }
        requires comes { MayTry mutex_model calls.Lock places.Lock W.coming (parties_of turn.pass.now) }
        ensures same_borrow { IfOk result (λ next. next.pass.ghost_name ≡ turn.entry.pass.ghost_name) }
        ensures same_borrow_too { IfErr result (λ missed. missed.1.pass.ghost_name ≡ turn.entry.pass.ghost_name) }
        ensures moved { IfOk result (λ next. HasMoved Enters turn.entry.pass.now next.pass.now) }
        ensures refused { IfErr result (λ missed. WasRefusedAt IsLocked missed.0 1 turn.entry.pass.now missed.1.pass.now) }
        ensures once { IfErr result (λ missed. Unit {0} → (sights_of missed.1.pass.now).count ≡ (sights_of turn.entry.pass.now).count + 1) }
        ensures granted { IfOk result (λ next. Tried mutex_model calls.Lock places.Lock W.coming (parties_of turn.entry.pass.now) (λ _ done. IsGranted mutex_model calls.Lock places.Lock (Some kinds.Write) done (parties_of next.pass.now))) }
        ensures failed { IfErr result (λ missed. Tried mutex_model calls.Lock places.Lock W.coming (parties_of turn.entry.pass.now) (λ patience done. IsRefused mutex_model calls.Lock places.Lock patience missed.0 done (parties_of missed.1.pass.now))) }
    {
        let _rt = rt;
        let (free, next) = self.exchange(turn);
        if free {
            Ok(next)
        } else {
            Err((locked(), next))
        }
    }
}

/// The word of a locked mutex.
#[inline(always)]
fn locked() -> u64
    ensures { result ≡ 1 }
{
    match granted(0) {
        Some(word) => word,
        None => unreachable!(),
    }
}

/// Whenever the rule of a mutex holds, no two of its passes have a hold. Says so of the rule alone, and does nothing.
#[tactic(auto, using(crate::proofs::MutexKeeps::one_holder))]
pub fn one_holder_at_most()
    ensures { OneHolder }
{}

/// Whenever the rule of a mutex holds, its passes are the parties of a run of the model, and all together were granted as often as calls
/// were in it. Says so of the rule alone, and does nothing.
pub fn grants_are_of_a_run()
    ensures { GrantsAreOfARun }
{}
