//! What calls of a reader-preferring lock do for a writer.
ghost use Rattle.std.specs.Prelude.{◌≡◌, IfOk};
ghost use Rattle.running_model.specs.Passes.{parties_of};

use crate::{RwLockReaderPreference, RwReaderPass, RwReaderWord};
use model_events::WaitAction;
use model_rw_reader::RwReaderPlace;
use running_model::OfWord;
use running_model::calls::{TryWriteCall, UnlockCall, WriteCall};
use running_model::turn::{Attempt, Called, Goes, Turn, Way, begin_held, begin_new, try_again};
use running_rw_hold::{Held, RwReaderScript};
use std::alloc::Allocator;
use std::sync::Wait;

impl<A: Allocator, S> RwLockReaderPreference<A, S> {
    ghost use Rattle.std.specs.Prelude.{ℕ, ◌-◌, ◌^◌, true, false, ◌≢◌, [], ◌∷◌, Some, None, MatchBool, IfErr, is_ok};
    ghost use Rattle.model_events.specs.declared.event.Word.TheVariants as words;
    ghost use Rattle.model_events.specs.declared.event.Call.TheVariants as calls;
    ghost use Rattle.model_events.specs.declared.event.Answer.TheVariants as answers;
    ghost use Rattle.model_events.specs.declared.hold.HoldKind.TheVariants as kinds;
    ghost use Rattle.model_events.specs.declared.row.Intent.TheVariants as intents;
    ghost use Rattle.running_rw_hold.specs.RwReader.{rw_reader_model};
    ghost use Rattle.running_passes.specs.Answers.{MayAnswerAbort};
    ghost use Rattle.running_model.specs.Asked.{HasWokenOf};
    ghost use Rattle.running_passes.specs.Passes.{sights_of};
    ghost use Rattle.running_model.specs.Plays.{Beginning, MayStep, Went};
    ghost use Rattle.running_model.specs.Counts.{HasGivenUp};
    ghost use Rattle.running_rw_reader.specs.RwReaderParties.{has_hold, Unlocks};
    ghost use Rattle.running_rw_reader.specs.RwReaderShown.{IsRwReaderPass, IsItsWord, IsAlone, IsTaken, writes_of, HasEnteredToWrite, HasWrittenAtOnce, HasSeenTaken, HasLeftWriting, HasPlayed};

    /// What `try_write_lock` does, and whether the hold is on.
    #[inline(always)]
    pub(crate) fn try_once_to_write(&self, pass: &mut RwReaderPass) -> bool
        requires own { IsRwReaderPass self.now pass.old }
        ensures entered { MatchBool result (HasEnteredToWrite pass.old pass.new) (HasSeenTaken pass.old pass.new) }
        ensures played { MatchBool result (HasPlayed calls.TryWriteLock answers.Success (Some kinds.Write) pass.old pass.new) (HasPlayed calls.TryWriteLock answers.Interrupted None pass.old pass.new) }
        ensures has { result ≡ true → has_hold kinds.Write (parties_of pass.new) ≡ true }
        ensures at_once { result ≡ true → HasWrittenAtOnce pass.old pass.new }
        ensures exact { IsAlone pass.old → result ≡ true }
    {
        match self.first_write::<TryWriteCall>(pass) {
            Ok(granted) => {
                let _pass = granted.end(&self.stage);
                true
            }
            Err((_, refused)) => {
                let _pass = refused.end(&self.stage);
                false
            }
        }
    }

    /// Turns the write hold on by one exchange. `Err` with the value that it found, where that was not 0.
    #[inline(always)]
    fn try_to_write<'p, W: Way<u64>>(
        &self,
        turn: Turn<'p, RwReaderPass, W>,
    ) -> Result<Turn<'p, RwReaderPass, Goes>, (u64, Turn<'p, RwReaderPass, Goes>)>
        requires own { IsRwReaderPass self.now turn.pass.now }
        requires may { (put : ℕ) → put ≡ 2 ^ 64 - 1 → MayStep rw_reader_model (words.State ∷ []) W.coming 0 (λ w. intents.Exchange w 0 put) (parties_of turn.pass.now) }
        ensures same_borrow { IfOk result (λ next. next.pass.ghost_name ≡ turn.entry.pass.ghost_name) }
        ensures same_borrow_too { IfErr result (λ missed. missed.1.pass.ghost_name ≡ turn.entry.pass.ghost_name) }
        ensures entered { IfOk result (λ next. HasEnteredToWrite turn.entry.pass.now next.pass.now) }
        ensures at_once { IfOk result (λ next. HasWrittenAtOnce turn.entry.pass.now next.pass.now) }
        ensures refused { IfErr result (λ missed. HasSeenTaken turn.entry.pass.now missed.1.pass.now × ((sights_of missed.1.pass.now).last ≡ missed.0)) }
        ensures went { IfOk result (λ next. Went rw_reader_model W.coming (parties_of turn.entry.pass.now) 0 (parties_of next.pass.now)) }
        ensures missed { IfErr result (λ missed. (missed.0 ≢ 0) × Went rw_reader_model W.coming (parties_of turn.entry.pass.now) missed.0 (parties_of missed.1.pass.now)) }
        ensures exact { IsAlone turn.entry.pass.now → is_ok result ≡ true }
    {
        let (found, next) = self.come_to_write(turn);
        match found {
            0 => Ok(next),
            _ => Err((found, next)),
        }
    }

    /// The same, with which a call begins.
    #[inline(always)]
    fn first_write<'p, L: Called<u64>>(
        &self,
        pass: &'p mut RwReaderPass,
    ) -> Result<Turn<'p, RwReaderPass, Goes>, (u64, Turn<'p, RwReaderPass, Goes>)>
        requires own { IsRwReaderPass self.now pass.old }
        requires may { (put : ℕ) → put ≡ 2 ^ 64 - 1 → MayStep rw_reader_model (words.State ∷ []) (Beginning L.call) 0 (λ w. intents.Exchange w 0 put) (parties_of pass.old) }
        ensures same_borrow { IfOk result (λ next. next.pass.ghost_name ≡ pass.entry.ghost_name) }
        ensures same_borrow_too { IfErr result (λ missed. missed.1.pass.ghost_name ≡ pass.entry.ghost_name) }
        ensures entered { IfOk result (λ next. HasEnteredToWrite pass.old next.pass.now) }
        ensures at_once { IfOk result (λ next. HasWrittenAtOnce pass.old next.pass.now) }
        ensures refused { IfErr result (λ missed. HasSeenTaken pass.old missed.1.pass.now × ((sights_of missed.1.pass.now).last ≡ missed.0)) }
        ensures went { IfOk result (λ next. Went rw_reader_model (Beginning L.call) (parties_of pass.old) 0 (parties_of next.pass.now)) }
        ensures missed { IfErr result (λ missed. (missed.0 ≢ 0) × Went rw_reader_model (Beginning L.call) (parties_of pass.old) missed.0 (parties_of missed.1.pass.now)) }
        ensures exact { IsAlone pass.old → is_ok result ≡ true }
    {
        let begun = begin_new::<L, RwReaderPass>(pass);
        self.try_to_write(begun)
    }

    /// What `write_lock` does, and whether the hold is on.
    #[inline(always)]
    pub(crate) fn wait_to_write<
        't,
        X: OfWord<RwReaderWord<'t>>,
        R: Wait,
        W: Fn(&X, &u64) -> WaitAction,
    >(&'t self, pass: &mut RwReaderPass, rt: &R, wait: W) -> bool
        requires own { IsRwReaderPass self.now pass.old }
        requires may { W.IsAlwaysCallable wait }
        ensures entered { MatchBool result (HasEnteredToWrite pass.old pass.new) (HasGivenUp W.Fn wait IsTaken pass.old pass.new) }
        ensures played { MatchBool result (HasPlayed calls.WriteLock answers.Success (Some kinds.Write) pass.old pass.new) (HasPlayed calls.WriteLock answers.Interrupted None pass.old pass.new) }
        ensures has { result ≡ true → has_hold kinds.Write (parties_of pass.new) ≡ true }
        ensures exact { IsAlone pass.old → result ≡ true }
        ensures aborted { result ≡ false → MayAnswerAbort W.Fn wait IsTaken }
    {
        match self.first_write::<WriteCall>(pass) {
            Ok(granted) => {
                let _pass = granted.end(&self.stage);
                true
            }
            Err((seen, next)) => {
                let writer = Writer { lock: self };
                let (entered, last) = try_again(rt, next, &writer, &self.word(), seen, wait);
                let _pass = last.end(&self.stage);
                entered
            }
        }
    }

    /// What `unlock` does with a write hold.
    #[inline(always)]
    pub(crate) fn unlock_write<'p, 't, X: OfWord<RwReaderWord<'t>>, W: Fn(&X)>(
        &'t self,
        pass: &'p mut RwReaderPass,
        wake_one: W,
    ) -> &'p mut RwReaderPass
        requires own { IsRwReaderPass self.now pass.old }
        requires on { writes_of pass.old ≡ 1 }
        requires has { has_hold kinds.Write (parties_of pass.old) ≡ true }
        requires may { W.IsAlwaysCallable wake_one }
        ensures same_borrow { result.ghost_name ≡ pass.entry.ghost_name }
        ensures released { HasLeftWriting pass.old result.now }
        ensures played { Unlocks kinds.Write (parties_of pass.old) (parties_of result.now) }
        ensures woke { HasWokenOf W.Fn (λ word. IsItsWord self.now (X.Shown.object word) (X.Shown.index word)) wake_one }
    {
        let begun = begin_held::<UnlockCall, RwReaderPass>(pass);
        let turn = self.leave_writing(begun);
        let (woken, _wake_one) = turn.wake(&self.stage, &self.word(), wake_one);
        woken.end_aside(&self.stage)
    }
}

/// A lock, as `write_lock` tries it.
#[derive(Drop)]
struct Writer<'l, A: Allocator, S> {
    lock: &'l RwLockReaderPreference<A, S>,
}

/// An exchange of `write_lock`.
impl<A: Allocator, S> Attempt<(), RwReaderScript, RwReaderPlace, u64, Held<()>>
    for Writer<'_, A, S> {
    ghost use Rattle.std.specs.Prelude.{◌+◌, Some, IfErr};
    ghost use Rattle.std.proofs.Common.{refl};
    ghost use Rattle.model_events.specs.declared.event.Call.TheVariants as calls;
    ghost use Rattle.model_events.specs.declared.hold.HoldKind.TheVariants as kinds;
    ghost use Rattle.model_rw_reader.specs.declared.RwReaderPlace.TheVariants as places;
    ghost use Rattle.running_passes.specs.Passes.{object_of, sights_of};
    ghost use Rattle.running_model.specs.Counts.{HasMoved, WasRefusedAt};
    ghost use Rattle.running_model.specs.Tries.{MayTry, Tried, IsGranted, IsRefused};
    ghost use Rattle.running_rw_hold.specs.RwReader.{rw_reader_model};
    ghost use Rattle.running_model.specs.Stages.{id_of};
    ghost use Rattle.running_rw_reader.specs.RwReaderShown.{IsTaken, EntersToWrite};

    ghost object = { λ w. id_of w.lock.now.stage };

    ghost key = { λ _. tt };

    ghost call = { calls.WriteLock };

    ghost place = { places.Write };

    ghost takes = { Some kinds.Write };

    ghost moves = { EntersToWrite };

    ghost refuses = { IsTaken };

    ghost looks_once = { λ _ _. Unit {0} };

    ghost answers = { λ _ _ _. refl };

    #[inline(always)]
    fn attempt<'p, W: Way<u64>, R: Wait>(
        &self,
        turn: Turn<'p, RwReaderPass, W>,
        rt: &R,
    ) -> Result<Turn<'p, RwReaderPass, Goes>, (u64, Turn<'p, RwReaderPass, Goes>)>
        requires own { object_of turn.pass.now ≡ id_of self.now.lock.now.stage }
        requires comes { MayTry rw_reader_model calls.WriteLock places.Write W.coming (parties_of turn.pass.now) }
        ensures same_borrow { IfOk result (λ next. next.pass.ghost_name ≡ turn.entry.pass.ghost_name) }
        ensures same_borrow_too { IfErr result (λ missed. missed.1.pass.ghost_name ≡ turn.entry.pass.ghost_name) }
        ensures moved { IfOk result (λ next. HasMoved EntersToWrite turn.entry.pass.now next.pass.now) }
        ensures refused { IfErr result (λ missed. WasRefusedAt IsTaken missed.0 1 turn.entry.pass.now missed.1.pass.now) }
        ensures once { IfErr result (λ missed. Unit {0} → (sights_of missed.1.pass.now).count ≡ (sights_of turn.entry.pass.now).count + 1) }
        ensures granted { IfOk result (λ next. Tried rw_reader_model calls.WriteLock places.Write W.coming (parties_of turn.entry.pass.now) (λ _ done. IsGranted rw_reader_model calls.WriteLock places.Write (Some kinds.Write) done (parties_of next.pass.now))) }
        ensures failed { IfErr result (λ missed. Tried rw_reader_model calls.WriteLock places.Write W.coming (parties_of turn.entry.pass.now) (λ patience done. IsRefused rw_reader_model calls.WriteLock places.Write patience missed.0 done (parties_of missed.1.pass.now))) }
    {
        let _rt = rt;
        self.lock.try_to_write(turn)
    }
}
