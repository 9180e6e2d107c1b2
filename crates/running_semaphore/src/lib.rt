//! A counting semaphore. Its word is the number of permits that are there to take.
//!
//! It does what `strategy::semaphore` of the Rust crate does, and `close` gives its value back.
#![tactic(auto)]

ghost use Rattle.std.specs.Prelude.{◌≡◌, ◌<◌, ◌≤◌, IfOk};
ghost use Rattle.running_model.specs.Passes.{parties_of};
ghost use Rattle.running_model.specs.Stages.{count_of};
ghost use Rattle.running_semaphore.specs.SemaphoreSteps.{PermitsAreOfARun};

mod permits;
mod shares;

use model_events::WaitAction;
use model_semaphore::{SemaphorePlace, taken};
pub use permits::{Permits, PlayedSemaphore, SemaphoreScript};
use running_model::calls::{TryWaitCall, ValueCall, WaitCall};
use running_model::turn::{Attempt, Called, Goes, Turn, Way, begin_new, try_again_by};
use running_model::{OfWord, OwnWords, Sealed, Shown, Shows, Stage};
use running_passes::{Origin, Pass, WaitResult, Word, success_if};
use std::alloc::{AllocError, Allocator, Global};
use std::marker::{Brand, PhantomData};
use std::ops::Deref;
use std::sync::Wait;

/// A counting semaphore.
#[derive(Drop)]
pub struct Semaphore<A: Allocator = Global, S = OwnWords> {
    stage: Stage<u64, SemaphoreScript, SemaphorePlace, u64, Permits, A>,
    shows: PhantomData<S>,
    ghost one_word: { count_of stage ≡ 1 },
}

/// What the passes of a semaphore come from, at which they are split and joined.
impl<A: Allocator, S> Deref for Semaphore<A, S> {
    ghost use Rattle.running_model.specs.Stages.{origin};

    type Target = Origin<u64, PlayedSemaphore, A>;

    #[inline(always)]
    fn deref(&self) -> &Origin<u64, PlayedSemaphore, A>
        ensures { result.now ≡ origin self.now.stage }
    {
        &self.stage
    }
}

/// The word of a semaphore, as wait and wake closures see it. It can be loaded and slept on, and no more.
pub type SemaphoreWord<'t> = Word<'t, u64, PlayedSemaphore>;

/// The right to call a semaphore, and what its owner did and saw there.
pub type SemPass = Pass<PlayedSemaphore>;

impl<A: Allocator, S> Semaphore<A, S> {
    ghost use Rattle.std.specs.Prelude.{true, false, ℕ, ◌-◌, ◌≢◌, [], ◌∷◌, List, MatchBool, IfErr};
    ghost use Rattle.model_events.specs.declared.event.Word.TheVariants as words;
    ghost use Rattle.model_events.specs.declared.event.Call.TheVariants as calls;
    ghost use Rattle.model_events.specs.declared.event.Answer.TheVariants as answers;
    ghost use Rattle.model_events.specs.declared.row.Intent.TheVariants as intents;
    ghost use Rattle.running_semaphore.specs.Semaphore.{semaphore_model, first_permits};
    ghost use Rattle.running_passes.specs.Answers.{IfSuccess, IfInterrupted, IsSuccess, MayAnswerAbort, HasAsked};
    ghost use Rattle.running_model.specs.Asked.{WokeOnce, HasWokenOf};
    ghost use Rattle.running_passes.specs.Parts.{IsWhole};
    ghost use Rattle.running_passes.specs.Sights.{LooksOnceOrMisses};
    ghost use Rattle.running_passes.specs.Views.{first_view};
    ghost use Rattle.running_passes.specs.Passes.{view, part_of, sights_of};
    ghost use Rattle.running_model.specs.Slots.{Slot, no_parties};
    ghost use Rattle.running_model.specs.Plays.{Beginning, Going, MayStep, Went};
    ghost use Rattle.running_model.specs.Passes.{played};
    ghost use Rattle.running_model.specs.Counts.{HasSeen, HasMissed, HasDone, WasRefused};
    ghost use Rattle.running_model.specs.Stages.{id_of};
    ghost use Rattle.running_semaphore.specs.SemaphoreParties.{Wanting, MayWant, OnceWanting, HasLooked, HasOne, HasWanted};
    ghost use Rattle.running_semaphore.specs.SemaphoreSteps.{took, gave};
    ghost use Rattle.running_semaphore.specs.SemaphoreShown.{IsSemPass, IsItsWord, initial_of, given_of, taken_of, worth_of, IsEmpty, AskedForPermit, SawLast, TookOne, SawNone, TookOrSawNone, HasTaken, HasTakenAtOnce, HasCounted, answer_of, HasPlayed, HasPlayedPost, HasPlayedBoth};

    /// A semaphore of this value, and the pass that is whole. `Err` where there was no memory; then nothing was made.
    pub fn new(alloc: A, initial: u64) -> Result<(Semaphore<A, S>, SemPass), AllocError>
        ensures own { IfOk result (λ made. IsSemPass made.0 made.1) }
        ensures initial { IfOk result (λ made. initial_of made.0 ≡ initial) }
        ensures first { IfOk result (λ made. view made.1 ≡ first_view (played no_parties (first_permits initial))) }
    {
        let (stage, pass) = Stage::new(alloc, &[initial], &initial)?;
        let shows = PhantomData;
        Ok((Semaphore { stage, shows }, pass))
    }

    /// How many permits are there to take. Another party may post or take right after.
    #[inline]
    pub fn value(&self, pass: &mut SemPass) -> u64
        requires own { IsSemPass self.now pass.old }
        ensures saw { HasSeen result pass.old pass.new }
        ensures played { HasPlayed (initial_of self.now) calls.Value (answers.Number result) pass.old pass.new }
        ensures exact { IsWhole (part_of pass.old) → result ≡ worth_of pass.old }
        ensures enough { IsWhole (part_of pass.old) → taken_of pass.old ≤ given_of pass.old }
    {
        let (seen, turn) = self.first_look::<ValueCall>(pass);
        let _pass = turn.end(&self.stage);
        seen
    }

    /// Adds so many permits, wrapping at 2^64, and then calls the wake closure once, also for 0.
    #[inline(always)]
    pub fn post<'t, W: Fn(&<S as Shows<'t, SemaphoreWord<'t>>>::As)>(
        &'t self,
        pass: &mut SemPass,
        wakeup: W,
        value: u64,
    )
    where
        S: Shows<'t, SemaphoreWord<'t>>,
        requires own { IsSemPass self.now pass.old }
        requires may { W.IsAlwaysCallable wakeup }
        ensures given { HasDone (gave value) pass.old pass.new }
        ensures played { HasPlayedPost (initial_of self.now) value pass.old pass.new }
        ensures woke { HasWokenOf W.Fn (λ word. IsItsWord self.now (S.As.Shown.object word) (S.As.Shown.index word)) wakeup }
    {
        let _wakeup = self.post_by(pass, wakeup, value);
    }

    /// Takes a permit: looks, up to 10000 times more where it sees none, and then calls the wait closure before each further look.
    /// `Interrupted` at a look that gave 0 after the closure had answered `Abort`; then nothing was taken.
    #[inline(always)]
    pub fn wait<'t, R: Wait, W: Fn(&<S as Shows<'t, SemaphoreWord<'t>>>::As, &u64) -> WaitAction>(
        &'t self,
        rt: &R,
        pass: &mut SemPass,
        wait: W,
    ) -> WaitResult<()>
    where
        S: Shows<'t, SemaphoreWord<'t>>,
        requires own { IsSemPass self.now pass.old }
        requires may { W.IsAlwaysCallable wait }
        ensures took { IfSuccess result (λ _. HasTaken pass.old pass.new) }
        ensures refused { IfInterrupted result (WasRefused IsEmpty 10002 pass.old pass.new) }
        ensures played { HasPlayed (initial_of self.now) calls.Wait (answer_of result) pass.old pass.new }
        ensures some { IsWhole (part_of pass.old) → 0 < worth_of pass.old → IsSuccess result }
        ensures none { IsWhole (part_of pass.old) → IfSuccess result (λ _. 0 < worth_of pass.old) }
        ensures aborted { IfInterrupted result (MayAnswerAbort W.Fn wait IsEmpty) }
        ensures asked { IsWhole (part_of pass.old) → IfInterrupted result (HasAsked W.Fn wait IsEmpty 10001 pass.old pass.new) }
    {
        let (took, _) = self.enter(rt, pass, &self.word(), wait);
        success_if(took)
    }

    /// Takes a permit where there is one, and tries again where another party's write came between its look and its exchange.
    /// `Interrupted` at a look that gave 0; then nothing was taken.
    #[inline(always)]
    pub fn try_wait<R: Wait>(&self, rt: &R, pass: &mut SemPass) -> WaitResult<()>
        requires own { IsSemPass self.now pass.old }
        ensures took { IfSuccess result (λ _. HasTaken pass.old pass.new) }
        ensures refused { IfInterrupted result (WasRefused IsEmpty 1 pass.old pass.new) }
        ensures played { HasPlayed (initial_of self.now) calls.TryWait (answer_of result) pass.old pass.new }
        ensures looks { LooksOnceOrMisses (sights_of pass.old) (sights_of pass.new) }
        ensures once { IsWhole (part_of pass.old) → IfInterrupted result (HasSeen 0 pass.old pass.new) }
        ensures took_once { IsWhole (part_of pass.old) → IfSuccess result (λ _. HasTakenAtOnce pass.old pass.new) }
        ensures some { IsWhole (part_of pass.old) → 0 < worth_of pass.old → IsSuccess result }
        ensures none { IsWhole (part_of pass.old) → IfSuccess result (λ _. 0 < worth_of pass.old) }
    {
        success_if(self.try_enter(rt, pass))
    }

    /// Takes a permit as `wait` does, calls `act`, and posts the permit again. `Interrupted` where `wait` is; then `act` was not called.
    #[inline(always)]
    pub fn with_permit<
        't,
        T,
        R: Wait,
        W: Fn(&<S as Shows<'t, SemaphoreWord<'t>>>::As, &u64) -> WaitAction,
        K: Fn(&<S as Shows<'t, SemaphoreWord<'t>>>::As),
        F: FnOnce() -> T,
    >(&'t self, rt: &R, pass: &mut SemPass, wait: W, wakeup: K, act: F) -> WaitResult<T>
    where
        S: Shows<'t, SemaphoreWord<'t>>,
        requires own { IsSemPass self.now pass.old }
        requires may { W.IsAlwaysCallable wait × K.IsAlwaysCallable wakeup × F.IsAlwaysCallable act }
        ensures lent { IfSuccess result (λ _. HasCounted 1 1 pass.old pass.new) }
        ensures refused { IfInterrupted result (WasRefused IsEmpty 10002 pass.old pass.new) }
        ensures played { IfSuccess result (λ _. HasPlayedBoth (initial_of self.now) pass.old pass.new) }
        ensures gave_up { IfInterrupted result (HasPlayed (initial_of self.now) calls.Wait answers.Interrupted pass.old pass.new) }
        ensures some { IsWhole (part_of pass.old) → 0 < worth_of pass.old → IsSuccess result }
        ensures none { IsWhole (part_of pass.old) → IfSuccess result (λ _. 0 < worth_of pass.old) }
        ensures acted { IfSuccess result (λ x. F.post act x) }
        ensures aborted { IfInterrupted result (MayAnswerAbort W.Fn wait IsEmpty) }
        ensures asked { IsWhole (part_of pass.old) → IfInterrupted result (HasAsked W.Fn wait IsEmpty 10001 pass.old pass.new) }
        ensures woke { IfSuccess result (λ _. HasWokenOf K.Fn (λ word. IsItsWord self.now (S.As.Shown.object word) (S.As.Shown.index word)) wakeup) }
    {
        match self.wait(rt, pass, wait) {
            WaitResult::Success(()) => {
                let given = act();
                self.post(pass, wakeup, 1);
                WaitResult::Success(given)
            }
            WaitResult::Interrupted => WaitResult::Interrupted,
        }
    }

    /// Ends the semaphore, and answers its value. With the whole pass that is the initial value and all that was posted, less what
    /// was taken, modulo 2^64.
    pub fn close(self, pass: SemPass) -> u64
        requires own { IsSemPass self pass }
        ensures exact { IsWhole (part_of pass) → result ≡ worth_of pass }
        ensures enough { IsWhole (part_of pass) → taken_of pass ≤ given_of pass }
    {
        let Semaphore { stage, shows: _ } = self;
        stage.close(pass, 0)
    }

    /// What `wait` does, by the word as its closure sees it, and whether a permit was taken. Gives the closure back. It serves a call that
    /// waits for a permit as a part of its own.
    #[inline(always)]
    pub fn enter<X: Shown, R: Wait, W: FnMut(&X, &u64) -> WaitAction>(
        &self,
        rt: &R,
        pass: &mut SemPass,
        word: &Sealed<X>,
        wait: W,
    ) -> (bool, W)
        requires own { IsSemPass self.now pass.old }
        requires its { IsItsWord self.now (X.object word.now.shown) (X.index word.now.shown) }
        requires may { W.IsAlwaysCallable wait }
        ensures may_again { W.IsAlwaysCallable result.1 }
        ensures entered { MatchBool result.0 (HasTaken pass.old pass.new) (WasRefused IsEmpty 10002 pass.old pass.new) }
        ensures played { MatchBool result.0 (HasPlayed (initial_of self.now) calls.Wait answers.Success pass.old pass.new) (HasPlayed (initial_of self.now) calls.Wait answers.Interrupted pass.old pass.new) }
        ensures exact { IsWhole (part_of pass.old) → MatchBool result.0 (0 < worth_of pass.old) (worth_of pass.old ≡ 0) }
        ensures asked { AskedForPermit W.FnMut word.now.shown wait result.1 result.0 pass.old pass.new }
    {
        match self.first_take::<WaitCall>(pass) {
            Ok(took) => {
                let _pass = took.end(&self.stage);
                (true, wait)
            }
            Err((seen, next)) => {
                let (took, after) = self.take_from(next, rt, seen);
                if took {
                    let _pass = after.end(&self.stage);
                    return (true, wait);
                }
                let (granted, last, asked) = try_again_by(rt, after, self, word, 0, wait);
                let _pass = last.end(&self.stage);
                (granted, asked)
            }
        }
    }

    /// What `post` does, by a closure that counts its calls. Gives it back. It serves a call that posts as a part of its own.
    #[inline(always)]
    pub fn post_by<'t, X: OfWord<SemaphoreWord<'t>>, W: FnMut(&X)>(
        &'t self,
        pass: &mut SemPass,
        wakeup: W,
        value: u64,
    ) -> W
        requires own { IsSemPass self.now pass.old }
        requires may { W.IsAlwaysCallable wakeup }
        ensures given { HasDone (gave value) pass.old pass.new }
        ensures played { HasPlayedPost (initial_of self.now) value pass.old pass.new }
        ensures woke { WokeOnce W.FnMut (λ word. IsItsWord self.now (X.Shown.object word) (X.Shown.index word)) wakeup result }
    {
        let turn = self.add::<Brand>(pass, value);
        let (woken, wake) = turn.wake(&self.stage, &self.word(), wakeup);
        let _pass = woken.end_aside(&self.stage);
        wake
    }

    /// What `try_wait` does, and whether a permit was taken.
    #[inline(always)]
    fn try_enter<R: Wait>(&self, rt: &R, pass: &mut SemPass) -> bool
        requires own { IsSemPass self.now pass.old }
        ensures took { MatchBool result (TookOne pass.old pass.new) (SawNone pass.old pass.new) }
        ensures played { MatchBool result (HasPlayed (initial_of self.now) calls.TryWait answers.Success pass.old pass.new) (HasPlayed (initial_of self.now) calls.TryWait answers.Interrupted pass.old pass.new) }
    {
        match self.first_take::<TryWaitCall>(pass) {
            Ok(took) => {
                let _pass = took.end(&self.stage);
                true
            }
            Err((seen, next)) => {
                let (took, last) = self.take_from(next, rt, seen);
                let _pass = last.end(&self.stage);
                took
            }
        }
    }

    /// A load of the value.
    #[inline(always)]
    fn look<'p, W: Way<u64>>(&self, turn: Turn<'p, SemPass, W>) -> (u64, Turn<'p, SemPass, Goes>)
        requires own { IsSemPass self.now turn.pass.now }
        requires may { MayStep (semaphore_model (initial_of self.now)) (words.State ∷ []) W.coming 0 (λ w. intents.Load w) (parties_of turn.pass.now) }
        ensures same_borrow { result.1.pass.ghost_name ≡ turn.entry.pass.ghost_name }
        ensures saw { HasSeen result.0 turn.entry.pass.now result.1.pass.now }
        ensures went { Went (semaphore_model (initial_of self.now)) W.coming (parties_of turn.entry.pass.now) result.0 (parties_of result.1.pass.now) }
        ensures exact { IsWhole (part_of turn.entry.pass.now) → result.0 ≡ worth_of turn.entry.pass.now }
        ensures enough { IsWhole (part_of turn.entry.pass.now) → taken_of turn.entry.pass.now ≤ given_of turn.entry.pass.now }
    {
        turn.load(&self.stage, 0)
    }

    /// The load with which a call begins.
    #[inline(always)]
    fn first_look<'p, L: Called<u64>>(
        &self,
        pass: &'p mut SemPass,
    ) -> (u64, Turn<'p, SemPass, Goes>)
        requires own { IsSemPass self.now pass.old }
        requires may { MayStep (semaphore_model (initial_of self.now)) (words.State ∷ []) (Beginning L.call) 0 (λ w. intents.Load w) (parties_of pass.old) }
        ensures same_borrow { result.1.pass.ghost_name ≡ pass.entry.ghost_name }
        ensures saw { HasSeen result.0 pass.old result.1.pass.now }
        ensures went { Went (semaphore_model (initial_of self.now)) (Beginning L.call) (parties_of pass.old) result.0 (parties_of result.1.pass.now) }
        ensures exact { IsWhole (part_of pass.old) → result.0 ≡ worth_of pass.old }
        ensures enough { IsWhole (part_of pass.old) → taken_of pass.old ≤ given_of pass.old }
    {
        let begun = begin_new::<L, SemPass>(pass);
        self.look(begun)
    }

    /// An exchange of the value seen for one less, and the value that it found.
    #[inline(always)]
    fn exchange<'p>(
        &self,
        turn: Turn<'p, SemPass, Goes>,
        seen: u64,
        rest: u64,
    ) -> (u64, Turn<'p, SemPass, Goes>)
        requires own { IsSemPass self.now turn.pass.now }
        requires less { (0 < seen) × (rest ≡ seen - 1) }
        requires may { MayStep (semaphore_model (initial_of self.now)) (words.State ∷ []) Going 0 (λ w. intents.Exchange w seen rest) (parties_of turn.pass.now) }
        ensures same_borrow { result.1.pass.ghost_name ≡ turn.entry.pass.ghost_name }
        ensures done { result.0 ≡ seen → HasDone took turn.entry.pass.now result.1.pass.now }
        ensures failed { result.0 ≢ seen → HasMissed seen result.0 turn.entry.pass.now result.1.pass.now }
        ensures went { Went (semaphore_model (initial_of self.now)) Going (parties_of turn.entry.pass.now) result.0 (parties_of result.1.pass.now) }
        ensures exact { IsWhole (part_of turn.entry.pass.now) → result.0 ≡ worth_of turn.entry.pass.now }
    {
        turn.exchange(&self.stage, 0, seen, rest)
    }

    /// An add of so many permits, with which a `Post` of so many begins.
    #[inline(always)]
    fn add<'p, L: Called<u64>>(&self, pass: &'p mut SemPass, value: u64) -> Turn<'p, SemPass, Goes>
        requires own { IsSemPass self.now pass.old }
        requires post { L.call ≡ calls.Post value }
        ensures same_borrow { result.pass.ghost_name ≡ pass.entry.ghost_name }
        ensures given { HasDone (gave value) pass.old result.pass.now }
        ensures played { HasPlayedPost (initial_of self.now) value pass.old result.pass.now }
    {
        let begun = begin_new::<L, SemPass>(pass);
        let (_, turn) = begun.add(&self.stage, 0, value);
        turn
    }

    /// The look with which a call begins that wants a permit, and one exchange where there is one: no loop, so that these are inlined.
    /// `Err` with the value seen last, from which it has taken none.
    #[inline(always)]
    fn first_take<'p, L: Called<u64>>(
        &self,
        pass: &'p mut SemPass,
    ) -> Result<Turn<'p, SemPass, Goes>, (u64, Turn<'p, SemPass, Goes>)>
        requires own { IsSemPass self.now pass.old }
        requires comes { MayWant (initial_of self.now) (Beginning L.call) (parties_of pass.old) }
        ensures same_borrow { IfOk result (λ next. next.pass.ghost_name ≡ pass.entry.ghost_name) }
        ensures same_borrow_too { IfErr result (λ missed. missed.1.pass.ghost_name ≡ pass.entry.ghost_name) }
        ensures took { IfOk result (λ next. TookOne pass.old next.pass.now) }
        ensures looked { IfErr result (λ missed. SawLast missed.0 pass.old missed.1.pass.now) }
        ensures granted { IfOk result (λ next. OnceWanting (initial_of self.now) (Beginning L.call) (parties_of pass.old) (λ wanting done. HasOne (initial_of self.now) wanting done (parties_of next.pass.now))) }
        ensures goes_on { IfErr result (λ missed. OnceWanting (initial_of self.now) (Beginning L.call) (parties_of pass.old) (λ wanting done. HasLooked (initial_of self.now) wanting missed.0 done (parties_of missed.1.pass.now))) }
    {
        let (seen, turn) = self.first_look::<L>(pass);
        let Some(rest) = taken(seen) else {
            return Err((seen, turn));
        };
        let (found, next) = self.exchange(turn, seen, rest);
        if found == seen {
            Ok(next)
        } else {
            Err((found, next))
        }
    }

    /// Takes a permit while there is one, from a value that it has just seen: an exchange that failed is a new look. False at a look that
    /// gave 0.
    fn take_from<'p, R: Wait>(
        &self,
        turn: Turn<'p, SemPass, Goes>,
        rt: &R,
        seen: u64,
    ) -> (bool, Turn<'p, SemPass, Goes>)
        requires own { IsSemPass self.now turn.pass.now }
        requires at { (wanting : Wanting) × (done : List (Slot ℕ)) × HasLooked (initial_of self.now) wanting seen done (parties_of turn.pass.now) }
        ensures same_borrow { result.1.pass.ghost_name ≡ turn.entry.pass.ghost_name }
        ensures takes { TookOrSawNone seen result.0 turn.entry.pass.now result.1.pass.now }
        ensures wanted { HasWanted (initial_of self.now) seen result.0 (parties_of turn.entry.pass.now) (parties_of result.1.pass.now) }
    {
        let mut last = seen;
        let mut next = turn;
        for _ in rt.forever() {
            let Some(rest) = taken(last) else {
                return (false, next);
            };
            let (found, again) = self.exchange(next, last, rest);
            if found == last {
                return (true, again);
            }
            last = found;
            next = again;
        }
        unreachable!()
    }

    /// The semaphore's word, as closures see it.
    #[inline(always)]
    pub fn word<'t, X: OfWord<SemaphoreWord<'t>>>(&'t self) -> Sealed<X>
        ensures its { IsItsWord self.now (X.Shown.object result.shown) (X.Shown.index result.shown) }
    {
        self.stage.shown(0)
    }
}

/// A look of `wait`, and its exchanges.
impl<A: Allocator, S> Attempt<u64, SemaphoreScript, SemaphorePlace, u64, Permits>
    for Semaphore<A, S> {
    ghost use Rattle.std.specs.Prelude.{◌+◌, None, IfErr};
    ghost use Rattle.std.proofs.Common.{refl};
    ghost use Rattle.model_events.specs.declared.event.Call.TheVariants as calls;
    ghost use Rattle.model_semaphore.specs.declared.SemaphorePlace.TheVariants as places;
    ghost use Rattle.running_passes.specs.Parts.{IsWhole};
    ghost use Rattle.running_passes.specs.Passes.{object_of, part_of, sights_of};
    ghost use Rattle.running_model.specs.Counts.{HasMoved, WasRefusedAt};
    ghost use Rattle.running_model.specs.Tries.{MayTry, Tried, IsGranted, IsRefused};
    ghost use Rattle.running_model.specs.Stages.{id_of, key_of};
    ghost use Rattle.running_semaphore.specs.Semaphore.{semaphore_model};
    ghost use Rattle.running_semaphore.specs.SemaphoreShown.{IsEmpty, Takes, initial_of};

    ghost object = { λ s. id_of s.stage };

    ghost key = { λ s. key_of s.stage };

    ghost call = { calls.Wait };

    ghost place = { places.Look };

    ghost takes = { None };

    ghost moves = { Takes };

    ghost refuses = { IsEmpty };

    ghost looks_once = { λ part _. IsWhole part };

    ghost answers = { λ _ _ _. refl };

    #[inline(always)]
    fn attempt<'p, W: Way<u64>, R: Wait>(
        &self,
        turn: Turn<'p, SemPass, W>,
        rt: &R,
    ) -> Result<Turn<'p, SemPass, Goes>, (u64, Turn<'p, SemPass, Goes>)>
        requires own { object_of turn.pass.now ≡ id_of self.now.stage }
        requires comes { MayTry (semaphore_model (initial_of self.now)) calls.Wait places.Look W.coming (parties_of turn.pass.now) }
        ensures same_borrow { IfOk result (λ next. next.pass.ghost_name ≡ turn.entry.pass.ghost_name) }
        ensures same_borrow_too { IfErr result (λ missed. missed.1.pass.ghost_name ≡ turn.entry.pass.ghost_name) }
        ensures moved { IfOk result (λ next. HasMoved Takes turn.entry.pass.now next.pass.now) }
        ensures refused { IfErr result (λ missed. WasRefusedAt IsEmpty missed.0 1 turn.entry.pass.now missed.1.pass.now) }
        ensures once { IfErr result (λ missed. IsWhole (part_of turn.entry.pass.now) → (sights_of missed.1.pass.now).count ≡ (sights_of turn.entry.pass.now).count + 1) }
        ensures granted { IfOk result (λ next. Tried (semaphore_model (initial_of self.now)) calls.Wait places.Look W.coming (parties_of turn.entry.pass.now) (λ _ done. IsGranted (semaphore_model (initial_of self.now)) calls.Wait places.Look None done (parties_of next.pass.now))) }
        ensures failed { IfErr result (λ missed. Tried (semaphore_model (initial_of self.now)) calls.Wait places.Look W.coming (parties_of turn.entry.pass.now) (λ patience done. IsRefused (semaphore_model (initial_of self.now)) calls.Wait places.Look patience missed.0 done (parties_of missed.1.pass.now))) }
    {
        let (seen, looked) = self.look(turn);
        let (took, next) = self.take_from(looked, rt, seen);
        if took { Ok(next) } else { Err((0, next)) }
    }
}

/// Whenever the rule of a semaphore holds, all passes together gave and took what the acts of a run of the model did, in which they are the
/// parties; no more was taken than given, and the word is what is left, modulo 2^64. Says so of the rule alone, and does nothing.
pub fn permits_are_of_a_run()
    ensures { PermitsAreOfARun }
{}
