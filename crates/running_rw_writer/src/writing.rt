//! What calls of a writer-preferring lock do for a writer.
ghost use Rattle.std.specs.Prelude.{◌≡◌};

use crate::steps::PlayedPass;
use crate::{RwLockWriterPreference, RwWriterPass};
use model_events::{SPIN_REPETITIONS, WaitAction};
use model_rw_writer::{is_blocked, marks, unmarks, writer_enters};
use running_model::calls::{TryWriteCall, UnlockCall, WriteCall};
use running_model::turn::{Aborted, Answered, Goes, Turn, Way, begin_held, begin_new};
use running_model::{Sealed, Shown, pause_before};
use std::alloc::Allocator;
use std::sync::Wait;

impl<A: Allocator, S> RwLockWriterPreference<A, S> {
    ghost use Rattle.std.specs.Prelude.{true, false, ◌^◌, ◌<◌, MatchBool, IfOk, IfErr, is_ok, ℕ, List, Some, None, ◌⊎◌};
    ghost use Rattle.model_events.specs.declared.WaitAction.TheVariants as actions;
    ghost use Rattle.model_events.specs.declared.event.Call.TheVariants as calls;
    ghost use Rattle.model_events.specs.declared.event.Answer.TheVariants as answers;
    ghost use Rattle.model_events.specs.declared.hold.HoldKind.TheVariants as kinds;
    ghost use Rattle.model_events.specs.declared.patience.Patience.{Patience};
    ghost use Rattle.model_events.specs.declared.row.After.TheVariants as afters;
    ghost use Rattle.model_rw_writer.specs.declared.Leaver.TheVariants as leavers;
    ghost use Rattle.model_rw_writer.specs.declared.RwWriterPlace.TheVariants as places;
    ghost use Rattle.model_rw_writer.specs.Table.{spins, unmarks_or_leaves, write_look, write_refused};
    ghost use Rattle.running_passes.specs.Answers.{MayAnswerAbort};
    ghost use Rattle.running_passes.specs.Passes.{sights_of, IsSamePass};
    ghost use Rattle.running_model.specs.Plays.{Beginning};
    ghost use Rattle.running_model.specs.Slots.{Slot, all_of};
    ghost use Rattle.running_model.specs.Tries.{spun};
    ghost use Rattle.running_model.specs.Passes.{parties_of, counted};
    ghost use Rattle.running_model.specs.Stages.{IsPassOf};
    ghost use Rattle.running_rw_writer.specs.RwWriterParties.{has_hold, TableLed, GoesFromTo, OnceWriting, WriteGoes, WriteIsGranted, WriteGivesUp, ComesToWrite, ComesToGiveUp, Unlocks};
    ghost use Rattle.running_rw_writer.specs.RwWriterSteps.{IsMarked, WriterIn};
    ghost use Rattle.running_rw_writer.specs.RwWriterShown.{IsRwWriterPass, IsItsWord, HasWokenBoth, IsAloneWithin, pass_in, writes_of, flags_of, HasEnteredToWrite, HasEnteredSeenFree, HasWrittenAtOnce, HasSeenTaken, HasTried, HasJustSeen, MayGiveUp, HasGivenUpWriting, HasLeftWriting, HasPlayed, HasPlayedGivingUp, AskedCount, AskedCounts};

    /// What `try_write_lock` does, and whether the hold is on.
    #[inline(always)]
    pub(crate) fn try_to_write(&self, pass: &mut PlayedPass) -> bool
        requires own { IsPassOf self.now.stage pass.old }
        requires down { flags_of pass.old ≡ 0 }
        ensures entered { MatchBool result (HasEnteredToWrite pass.old pass.new) (HasSeenTaken pass.old pass.new) }
        ensures played { MatchBool result (HasPlayed calls.TryWriteLock answers.Success (Some kinds.Write) pass.old pass.new) (HasPlayed calls.TryWriteLock answers.Interrupted None pass.old pass.new) }
        ensures has { result ≡ true → has_hold kinds.Write (parties_of pass.new) ≡ true }
        ensures at_once { result ≡ true → HasWrittenAtOnce pass.old pass.new }
        ensures exact { IsAloneWithin pass.old → result ≡ true }
    {
        let (found, last) = self.first_write(pass);
        let _pass = last.end(&self.stage);
        found == 0
    }

    /// The exchange of 0 for 2^64 - 1 with which a `TryWriteLock` begins, and the value that it found.
    #[inline(always)]
    fn first_write<'p>(&self, pass: &'p mut PlayedPass) -> (u64, Turn<'p, PlayedPass, Goes>)
        requires own { IsPassOf self.now.stage pass.old }
        ensures same_borrow { result.1.pass.ghost_name ≡ pass.entry.ghost_name }
        ensures same { IsSamePass pass.old result.1.pass.now }
        ensures told { WriterIn 0 (counted pass.old) result.0 (counted result.1.pass.now) }
        ensures went { TableLed (Beginning calls.TryWriteLock) (parties_of pass.old) result.0 (parties_of result.1.pass.now) }
    {
        let begun = begin_new::<TryWriteCall, PlayedPass>(pass);
        self.come_to_write(begun, 0)
    }

    /// What `write_lock` does, and whether the hold is on.
    #[inline(always)]
    pub(crate) fn wait_to_write<
        X: Shown,
        R: Wait,
        W: Fn(&X, &u64) -> WaitAction,
        K: Fn(&X),
        V: Fn(&X),
    >(
        &self,
        pass: &mut PlayedPass,
        rt: &R,
        counter: &Sealed<X>,
        word: &Sealed<X>,
        wait: W,
        wake_one: &K,
        wake_all: &V,
    ) -> bool
        requires own { IsPassOf self.now.stage pass.old }
        requires counter { IsItsWord 1 self.now (X.object counter.now.shown) (X.index counter.now.shown) }
        requires word { IsItsWord 0 self.now (X.object word.now.shown) (X.index word.now.shown) }
        requires may { W.IsAlwaysCallable wait }
        requires may_one { K.IsAlwaysCallable wake_one.now }
        requires may_all { V.IsAlwaysCallable wake_all.now }
        ensures entered { MatchBool result (HasEnteredSeenFree pass.old pass.new) (HasGivenUpWriting 10003 pass.old pass.new) }
        ensures played { MatchBool result (HasPlayed calls.WriteLock answers.Success (Some kinds.Write) pass.old pass.new) (HasPlayedGivingUp (HasWokenBoth K.Fn V.Fn X.object X.index self.now wake_one.now wake_all.now) pass.old pass.new) }
        ensures has { result ≡ true → has_hold kinds.Write (parties_of pass.new) ≡ true }
        ensures exact { IsAloneWithin pass.old → result ≡ true }
        ensures aborted { result ≡ false → MayAnswerAbort W.Fn wait (λ n. n < 2 ^ 64) }
        ensures woke { result ≡ false → IsMarked (sights_of pass.new).last → HasWokenBoth K.Fn V.Fn X.object X.index self.now wake_one.now wake_all.now }
    {
        match self.first_try(pass) {
            Ok(entered) => {
                let _pass = entered.end(&self.stage);
                true
            }
            Err((seen, refused)) => {
                let (entered, _pass) = self.write_later(
                    refused, rt, seen, counter, word, wait, wake_one, wake_all,
                );
                entered
            }
        }
    }

    /// The look with which a `WriteLock` begins, and one exchange where nobody holds the lock: no loop, so that these are inlined. `Err`
    /// with the value seen last, at which it has not entered.
    #[inline(always)]
    fn first_try<'p>(
        &self,
        pass: &'p mut PlayedPass,
    ) -> Result<Turn<'p, PlayedPass, Goes>, (u64, Turn<'p, PlayedPass, Goes>)>
        requires own { IsPassOf self.now.stage pass.old }
        ensures same_borrow { IfOk result (λ next. next.pass.ghost_name ≡ pass.entry.ghost_name) }
        ensures same_borrow_too { IfErr result (λ missed. missed.1.pass.ghost_name ≡ pass.entry.ghost_name) }
        ensures entered { IfOk result (λ next. HasEnteredSeenFree pass.old next.pass.now) }
        ensures refused { IfErr result (λ missed. HasTried 1 pass.old missed.1.pass.now × HasJustSeen missed.0 missed.1.pass.now) }
        ensures granted { IfOk result (λ next. WriteIsGranted (all_of (parties_of pass.old)) (parties_of next.pass.now)) }
        ensures goes_on { IfErr result (λ missed. WriteGoes (write_refused (spun 0) missed.0) (all_of (parties_of pass.old)) (parties_of missed.1.pass.now)) }
        ensures exact { IsAloneWithin pass.old → is_ok result ≡ true }
    {
        let begun = begin_new::<WriteCall, PlayedPass>(pass);
        let (seen, looked) = self.look_to_write(begun);
        match self.enter_if_free(looked, seen) {
            Ok(entered) => Ok(entered),
            Err(refused) => Err(refused),
        }
    }

    /// What it does from a value at which it has not entered. Whether it entered; the call is over.
    fn write_later<'p, X: Shown, R: Wait, W: FnMut(&X, &u64) -> WaitAction, K: Fn(&X), V: Fn(&X)>(
        &self,
        turn: Turn<'p, PlayedPass, Goes>,
        rt: &R,
        seen: u64,
        counter: &Sealed<X>,
        word: &Sealed<X>,
        wait: W,
        wake_one: &K,
        wake_all: &V,
    ) -> (bool, &'p mut PlayedPass)
        requires own { IsPassOf self.now.stage turn.pass.now }
        requires counter { IsItsWord 1 self.now (X.object counter.now.shown) (X.index counter.now.shown) }
        requires word { IsItsWord 0 self.now (X.object word.now.shown) (X.index word.now.shown) }
        requires just { HasJustSeen seen turn.pass.now }
        requires at { (done : List (Slot ℕ)) × WriteGoes (write_refused (spun 0) seen) done (parties_of turn.pass.now) }
        requires may { W.IsAlwaysCallable wait }
        requires may_one { K.IsAlwaysCallable wake_one.now }
        requires may_all { V.IsAlwaysCallable wake_all.now }
        ensures same_borrow { result.1.ghost_name ≡ turn.entry.pass.ghost_name }
        ensures entered { MatchBool result.0 (HasEnteredSeenFree turn.entry.pass.now result.1.now) (HasGivenUpWriting 10002 turn.entry.pass.now result.1.now) }
        ensures played { OnceWriting (write_refused (spun 0) seen) (parties_of turn.entry.pass.now) (λ done. MatchBool result.0 (WriteIsGranted done (parties_of result.1.now)) (WriteGivesUp (HasWokenBoth K.Fn V.Fn X.object X.index self.now wake_one.now wake_all.now) done (parties_of result.1.now))) }
        ensures asked { (after : W) × AskedCounts W.FnMut counter.now.shown wait after result.0 }
        ensures woke { result.0 ≡ false → IsMarked (sights_of result.1.now).last → HasWokenBoth K.Fn V.Fn X.object X.index self.now wake_one.now wake_all.now }
    {
        let (at_once, marked) = self.mark_or_enter(turn, rt, seen);
        if at_once {
            return (true, marked.end(&self.stage));
        }
        let (in_time, spun) = self.spin_to_write(marked, rt);
        if in_time {
            return (true, spun.end(&self.stage));
        }
        let (entered, pass, _) = self.ask_to_write(
            spun, rt, counter, word, wait, wake_one, wake_all,
        );
        (entered, pass)
    }

    /// Looks, and enters where nobody holds the lock; else sees to it that no reader enters. Whether it entered.
    fn enter_or_mark<'p, W: Way<u64>, R: Wait>(
        &self,
        turn: Turn<'p, PlayedPass, W>,
        rt: &R,
    ) -> (bool, Turn<'p, PlayedPass, Goes>)
        requires own { IsPassOf self.now.stage turn.pass.now }
        requires at { (n : ℕ) × (done : List (Slot ℕ)) × ComesToWrite W.coming (spun n) done (parties_of turn.pass.now) }
        ensures same_borrow { result.1.pass.ghost_name ≡ turn.entry.pass.ghost_name }
        ensures entered { MatchBool result.0 (HasEnteredSeenFree turn.entry.pass.now result.1.pass.now) (HasTried 1 turn.entry.pass.now result.1.pass.now) }
        ensures played { (n : ℕ) (done : List (Slot ℕ)) → ComesToWrite W.coming (spun n) done (parties_of turn.entry.pass.now) → MatchBool result.0 (WriteIsGranted done (parties_of result.1.pass.now)) (WriteGoes (spins (spun n)) done (parties_of result.1.pass.now)) }
    {
        let (seen, looked) = self.look_to_write(turn);
        self.enter_or_mark_from(looked, rt, seen)
    }

    /// The same from a value that it has just seen.
    #[inline(always)]
    fn enter_or_mark_from<'p, R: Wait>(
        &self,
        turn: Turn<'p, PlayedPass, Goes>,
        rt: &R,
        seen: u64,
    ) -> (bool, Turn<'p, PlayedPass, Goes>)
        requires own { IsPassOf self.now.stage turn.pass.now }
        requires just { HasJustSeen seen turn.pass.now }
        requires at { (n : ℕ) × (done : List (Slot ℕ)) × WriteGoes (write_look (spun n) seen) done (parties_of turn.pass.now) }
        ensures same_borrow { result.1.pass.ghost_name ≡ turn.entry.pass.ghost_name }
        ensures entered { MatchBool result.0 (HasEnteredSeenFree turn.entry.pass.now result.1.pass.now) (HasTried 0 turn.entry.pass.now result.1.pass.now) }
        ensures played { (n : ℕ) → OnceWriting (write_look (spun n) seen) (parties_of turn.entry.pass.now) (λ done. MatchBool result.0 (WriteIsGranted done (parties_of result.1.pass.now)) (WriteGoes (spins (spun n)) done (parties_of result.1.pass.now))) }
    {
        match self.enter_if_free(turn, seen) {
            Ok(entered) => (true, entered),
            Err((last, refused)) => self.mark_or_enter(refused, rt, last),
        }
    }

    /// The same from a value at which it has not entered: an exchange that failed is a new look.
    fn mark_or_enter<'p, R: Wait>(
        &self,
        turn: Turn<'p, PlayedPass, Goes>,
        rt: &R,
        seen: u64,
    ) -> (bool, Turn<'p, PlayedPass, Goes>)
        requires own { IsPassOf self.now.stage turn.pass.now }
        requires just { HasJustSeen seen turn.pass.now }
        requires at { (n : ℕ) × (done : List (Slot ℕ)) × WriteGoes (write_refused (spun n) seen) done (parties_of turn.pass.now) }
        ensures same_borrow { result.1.pass.ghost_name ≡ turn.entry.pass.ghost_name }
        ensures entered { MatchBool result.0 (HasEnteredSeenFree turn.entry.pass.now result.1.pass.now) (HasTried 0 turn.entry.pass.now result.1.pass.now) }
        ensures played { (n : ℕ) → OnceWriting (write_refused (spun n) seen) (parties_of turn.entry.pass.now) (λ done. MatchBool result.0 (WriteIsGranted done (parties_of result.1.pass.now)) (WriteGoes (spins (spun n)) done (parties_of result.1.pass.now))) }
    {
        let mut last = seen;
        let mut next = turn;
        for _ in rt.forever() {
            let Some(marked) = marks(last) else {
                return (false, next);
            };
            match self.set_mark(next, last, marked) {
                Ok(set) => return (false, set),
                Err((found, missed)) => match self.enter_if_free(missed, found) {
                    Ok(entered) => return (true, entered),
                    Err((again, refused)) => {
                        last = again;
                        next = refused;
                    }
                },
            }
        }
        unreachable!()
    }

    /// Enters where nobody held the lock at the value just seen. `Err` with the value seen last, at which it has not.
    #[inline(always)]
    fn enter_if_free<'p>(
        &self,
        turn: Turn<'p, PlayedPass, Goes>,
        seen: u64,
    ) -> Result<Turn<'p, PlayedPass, Goes>, (u64, Turn<'p, PlayedPass, Goes>)>
        requires own { IsPassOf self.now.stage turn.pass.now }
        requires just { HasJustSeen seen turn.pass.now }
        requires at { (patience : Patience) × (done : List (Slot ℕ)) × WriteGoes (write_look patience seen) done (parties_of turn.pass.now) }
        ensures same_borrow { IfOk result (λ next. next.pass.ghost_name ≡ turn.entry.pass.ghost_name) }
        ensures same_borrow_too { IfErr result (λ missed. missed.1.pass.ghost_name ≡ turn.entry.pass.ghost_name) }
        ensures entered { IfOk result (λ next. HasEnteredSeenFree turn.entry.pass.now next.pass.now) }
        ensures refused { IfErr result (λ missed. HasTried 0 turn.entry.pass.now missed.1.pass.now × HasJustSeen missed.0 missed.1.pass.now × MayGiveUp missed.1.pass.now) }
        ensures granted { IfOk result (λ next. (patience : Patience) → OnceWriting (write_look patience seen) (parties_of turn.entry.pass.now) (λ done. WriteIsGranted done (parties_of next.pass.now))) }
        ensures goes_on { IfErr result (λ missed. (patience : Patience) → GoesFromTo calls.WriteLock (write_look patience seen) (write_refused patience missed.0) (parties_of turn.entry.pass.now) (parties_of missed.1.pass.now)) }
        ensures exact { seen ≡ 0 → IsAloneWithin turn.entry.pass.now → is_ok result ≡ true }
    {
        if writer_enters(seen).is_none() {
            return Err((seen, turn));
        }
        let (found, next) = self.come_to_write(turn, seen);
        if found == seen {
            Ok(next)
        } else {
            Err((found, next))
        }
    }

    /// Tries to enter again, as often as a call does by itself. Whether it entered.
    fn spin_to_write<'p, R: Wait>(
        &self,
        turn: Turn<'p, PlayedPass, Goes>,
        rt: &R,
    ) -> (bool, Turn<'p, PlayedPass, Goes>)
        requires own { IsPassOf self.now.stage turn.pass.now }
        requires at { (done : List (Slot ℕ)) × WriteGoes (spins (spun 0)) done (parties_of turn.pass.now) }
        ensures same_borrow { result.1.pass.ghost_name ≡ turn.entry.pass.ghost_name }
        ensures entered { MatchBool result.0 (HasEnteredSeenFree turn.entry.pass.now result.1.pass.now) (HasTried 10000 turn.entry.pass.now result.1.pass.now) }
        ensures played { OnceWriting (spins (spun 0)) (parties_of turn.entry.pass.now) (λ done. MatchBool result.0 (WriteIsGranted done (parties_of result.1.pass.now)) (WriteGoes (afters.At (places.LoadCounter (spun 10000))) done (parties_of result.1.pass.now))) }
    {
        let mut next = turn;
        for tries in 0..SPIN_REPETITIONS {
            pause_before(tries);
            let (entered, last) = self.enter_or_mark(next, rt);
            if entered {
                return (true, last);
            }
            next = last;
        }
        (false, next)
    }

    /// Loads the counter and looks; where the lock is blocked it calls the wait closure, with the counter, before it tries to enter again.
    /// After `Abort` it tries once more, or gives up. Whether it entered, the pass, and the closure; the call is over.
    fn ask_to_write<'p, X: Shown, R: Wait, W: FnMut(&X, &u64) -> WaitAction, K: Fn(&X), V: Fn(&X)>(
        &self,
        turn: Turn<'p, PlayedPass, Goes>,
        rt: &R,
        counter: &Sealed<X>,
        word: &Sealed<X>,
        wait: W,
        wake_one: &K,
        wake_all: &V,
    ) -> (bool, &'p mut PlayedPass, W)
        requires own { IsPassOf self.now.stage turn.pass.now }
        requires counter { IsItsWord 1 self.now (X.object counter.now.shown) (X.index counter.now.shown) }
        requires word { IsItsWord 0 self.now (X.object word.now.shown) (X.index word.now.shown) }
        requires at { (done : List (Slot ℕ)) × WriteGoes (afters.At (places.LoadCounter (spun 10000))) done (parties_of turn.pass.now) }
        requires may { W.IsAlwaysCallable wait }
        requires may_one { K.IsAlwaysCallable wake_one.now }
        requires may_all { V.IsAlwaysCallable wake_all.now }
        ensures same_borrow { result.1.ghost_name ≡ turn.entry.pass.ghost_name }
        ensures entered { MatchBool result.0 (HasEnteredSeenFree turn.entry.pass.now result.1.now) (HasGivenUpWriting 2 turn.entry.pass.now result.1.now) }
        ensures played { OnceWriting (afters.At (places.LoadCounter (spun 10000))) (parties_of turn.entry.pass.now) (λ done. MatchBool result.0 (WriteIsGranted done (parties_of result.1.now)) (WriteGivesUp (HasWokenBoth K.Fn V.Fn X.object X.index self.now wake_one.now wake_all.now) done (parties_of result.1.now))) }
        ensures asked { AskedCounts W.FnMut counter.now.shown wait result.2 result.0 }
        ensures woke { result.0 ≡ false → IsMarked (sights_of result.1.now).last → HasWokenBoth K.Fn V.Fn X.object X.index self.now wake_one.now wake_all.now }
    {
        let mut next = turn;
        let mut wait = wait;
        for _ in rt.forever() {
            match self.ask_once(next, rt, counter, wait) {
                Ok((entered, last, asked)) => {
                    if entered {
                        return (true, last.end(&self.stage), asked);
                    }
                    next = last;
                    wait = asked;
                }
                Err((aborted, asked)) => {
                    let (entered, pass) = self.enter_or_give_up(
                        aborted, rt, counter, word, wake_one, wake_all,
                    );
                    return (entered, pass, asked);
                }
            }
        }
        unreachable!()
    }

    /// Loads the counter and looks; where the lock is blocked it calls the wait closure, with the counter. Then it tries to enter: whether
    /// it did. `Err` where the closure has answered `Abort`. Gives the closure back.
    #[inline(always)]
    fn ask_once<'p, X: Shown, R: Wait, W: FnMut(&X, &u64) -> WaitAction>(
        &self,
        turn: Turn<'p, PlayedPass, Goes>,
        rt: &R,
        counter: &Sealed<X>,
        wait: W,
    ) -> Result<(bool, Turn<'p, PlayedPass, Goes>, W), (Turn<'p, PlayedPass, Aborted>, W)>
        requires own { IsPassOf self.now.stage turn.pass.now }
        requires counter { IsItsWord 1 self.now (X.object counter.now.shown) (X.index counter.now.shown) }
        requires at { (done : List (Slot ℕ)) × WriteGoes (afters.At (places.LoadCounter (spun 10000))) done (parties_of turn.pass.now) }
        requires may { W.IsAlwaysCallable wait }
        ensures same_borrow { IfOk result (λ tried. tried.1.pass.ghost_name ≡ turn.entry.pass.ghost_name) }
        ensures same_borrow_too { IfErr result (λ aborted. aborted.0.pass.ghost_name ≡ turn.entry.pass.ghost_name) }
        ensures entered { IfOk result (λ tried. MatchBool tried.0 (HasEnteredSeenFree turn.entry.pass.now tried.1.pass.now) (HasTried 1 turn.entry.pass.now tried.1.pass.now)) }
        ensures played { IfOk result (λ tried. OnceWriting (afters.At (places.LoadCounter (spun 10000))) (parties_of turn.entry.pass.now) (λ done. MatchBool tried.0 (WriteIsGranted done (parties_of tried.1.pass.now)) (WriteGoes (afters.At (places.LoadCounter (spun 10000))) done (parties_of tried.1.pass.now)))) }
        ensures looked { IfErr result (λ aborted. HasTried 1 turn.entry.pass.now aborted.0.pass.now) }
        ensures stood { IfErr result (λ aborted. OnceWriting (afters.At (places.LoadCounter (spun 10000))) (parties_of turn.entry.pass.now) (λ done. ComesToGiveUp done (parties_of aborted.0.pass.now))) }
        ensures may_again { IfOk result (λ tried. W.IsAlwaysCallable tried.2) }
        ensures asked { IfOk result (λ tried. (wait ≡ tried.2) ⊎ AskedCount W.FnMut counter.now.shown wait actions.Continue tried.2) }
        ensures aborted { IfErr result (λ aborted. AskedCount W.FnMut counter.now.shown wait actions.Abort aborted.1) }
    {
        let (count, seen, looked) = self.look_last(turn);
        if is_blocked(seen) {
            let (answer, asked) = looked.ask(&self.stage, counter, count, wait);
            return match answer {
                Answered::Continue(continued) => {
                    let (entered, last) = self.enter_or_mark(continued, rt);
                    Ok((entered, last, asked))
                }
                Answered::Abort(aborted) => Err((aborted, asked)),
            };
        }
        let (entered, last) = self.enter_or_mark_from(looked, rt, seen);
        Ok((entered, last, wait))
    }

    /// Looks, and enters where nobody holds the lock; else gives up. Whether it entered; the call is over.
    fn enter_or_give_up<'p, X: Shown, R: Wait, K: Fn(&X), V: Fn(&X)>(
        &self,
        turn: Turn<'p, PlayedPass, Aborted>,
        rt: &R,
        counter: &Sealed<X>,
        word: &Sealed<X>,
        wake_one: &K,
        wake_all: &V,
    ) -> (bool, &'p mut PlayedPass)
        requires own { IsPassOf self.now.stage turn.pass.now }
        requires counter { IsItsWord 1 self.now (X.object counter.now.shown) (X.index counter.now.shown) }
        requires word { IsItsWord 0 self.now (X.object word.now.shown) (X.index word.now.shown) }
        requires at { (done : List (Slot ℕ)) × ComesToGiveUp done (parties_of turn.pass.now) }
        requires may_one { K.IsAlwaysCallable wake_one.now }
        requires may_all { V.IsAlwaysCallable wake_all.now }
        ensures same_borrow { result.1.ghost_name ≡ turn.entry.pass.ghost_name }
        ensures entered { MatchBool result.0 (HasEnteredSeenFree turn.entry.pass.now result.1.now) (HasGivenUpWriting 1 turn.entry.pass.now result.1.now) }
        ensures played { (done : List (Slot ℕ)) → ComesToGiveUp done (parties_of turn.entry.pass.now) → MatchBool result.0 (WriteIsGranted done (parties_of result.1.now)) (WriteGivesUp (HasWokenBoth K.Fn V.Fn X.object X.index self.now wake_one.now wake_all.now) done (parties_of result.1.now)) }
        ensures woke { result.0 ≡ false → IsMarked (sights_of result.1.now).last → HasWokenBoth K.Fn V.Fn X.object X.index self.now wake_one.now wake_all.now }
    {
        let (seen, looked) = self.look_to_write(turn);
        match self.enter_if_free(looked, seen) {
            Ok(entered) => (true, entered.end(&self.stage)),
            Err((last, refused)) => (
                false,
                self.give_up(refused, rt, last, counter, word, wake_one, wake_all),
            ),
        }
    }

    /// Takes the mark away, counts and wakes one and all; or, where it sees that none is set, leaves. The call is over.
    #[inline(always)]
    fn give_up<'p, X: Shown, R: Wait, K: Fn(&X), V: Fn(&X)>(
        &self,
        turn: Turn<'p, PlayedPass, Goes>,
        rt: &R,
        seen: u64,
        counter: &Sealed<X>,
        word: &Sealed<X>,
        wake_one: &K,
        wake_all: &V,
    ) -> &'p mut PlayedPass
        requires own { IsPassOf self.now.stage turn.pass.now }
        requires counter { IsItsWord 1 self.now (X.object counter.now.shown) (X.index counter.now.shown) }
        requires word { IsItsWord 0 self.now (X.object word.now.shown) (X.index word.now.shown) }
        requires just { HasJustSeen seen turn.pass.now }
        requires cause { MayGiveUp turn.pass.now }
        requires at { (done : List (Slot ℕ)) × WriteGoes (unmarks_or_leaves seen) done (parties_of turn.pass.now) }
        requires may_one { K.IsAlwaysCallable wake_one.now }
        requires may_all { V.IsAlwaysCallable wake_all.now }
        ensures same_borrow { result.ghost_name ≡ turn.entry.pass.ghost_name }
        ensures gave_up { HasGivenUpWriting 0 turn.entry.pass.now result.now }
        ensures played { OnceWriting (unmarks_or_leaves seen) (parties_of turn.entry.pass.now) (λ done. WriteGivesUp (HasWokenBoth K.Fn V.Fn X.object X.index self.now wake_one.now wake_all.now) done (parties_of result.now)) }
        ensures woke { IsMarked (sights_of result.now).last → HasWokenBoth K.Fn V.Fn X.object X.index self.now wake_one.now wake_all.now }
    {
        let (taken, left) = self.take_mark_away(turn, rt, seen);
        if taken {
            let counted = self.count_up(left);
            return self.wake_both(counted, counter, word, wake_one, wake_all);
        }
        left.end(&self.stage)
    }

    /// Takes the mark away, also another writer's, unless it sees that none is set. Whether it did.
    fn take_mark_away<'p, R: Wait>(
        &self,
        turn: Turn<'p, PlayedPass, Goes>,
        rt: &R,
        seen: u64,
    ) -> (bool, Turn<'p, PlayedPass, Goes>)
        requires own { IsPassOf self.now.stage turn.pass.now }
        requires just { HasJustSeen seen turn.pass.now }
        requires cause { MayGiveUp turn.pass.now }
        requires at { (done : List (Slot ℕ)) × WriteGoes (unmarks_or_leaves seen) done (parties_of turn.pass.now) }
        ensures same_borrow { result.1.pass.ghost_name ≡ turn.entry.pass.ghost_name }
        ensures gave_up { HasGivenUpWriting 0 turn.entry.pass.now result.1.pass.now }
        ensures played { OnceWriting (unmarks_or_leaves seen) (parties_of turn.entry.pass.now) (λ done. MatchBool result.0 (WriteGoes (afters.At (places.Count leavers.GivenUp)) done (parties_of result.1.pass.now)) (WriteGoes (afters.Ends answers.Interrupted) done (parties_of result.1.pass.now))) }
        ensures unmarked { result.0 ≡ false → ¬ IsMarked (sights_of result.1.pass.now).last }
    {
        let mut last = seen;
        let mut next = turn;
        for _ in rt.forever() {
            let Some(unmarked) = unmarks(last) else {
                return (false, next);
            };
            match self.take_mark(next, last, unmarked) {
                Ok(taken) => return (true, taken),
                Err((found, missed)) => {
                    last = found;
                    next = missed;
                }
            }
        }
        unreachable!()
    }

    /// What `unlock` does with a write hold.
    #[inline(always)]
    pub(crate) fn unlock_write<'p, X: Shown, W: Fn(&X), V: Fn(&X)>(
        &self,
        pass: &'p mut RwWriterPass,
        counter: &Sealed<X>,
        word: &Sealed<X>,
        wake_one: W,
        wake_all: V,
    ) -> &'p mut RwWriterPass
        requires own { IsRwWriterPass self.now pass.old }
        requires counter { IsItsWord 1 self.now (X.object counter.now.shown) (X.index counter.now.shown) }
        requires word { IsItsWord 0 self.now (X.object word.now.shown) (X.index word.now.shown) }
        requires on { writes_of (pass_in pass.old) ≡ 1 }
        requires has { has_hold kinds.Write (parties_of (pass_in pass.old)) ≡ true }
        requires may_one { W.IsAlwaysCallable wake_one }
        requires may_all { V.IsAlwaysCallable wake_all }
        ensures same_borrow { result.ghost_name ≡ pass.entry.ghost_name }
        ensures released { HasLeftWriting (pass_in pass.old) (pass_in result.now) }
        ensures played { Unlocks kinds.Write (afters.At (places.WakeOne leavers.Writer)) (parties_of (pass_in pass.old)) (parties_of (pass_in result.now)) }
        ensures woke { HasWokenBoth W.Fn V.Fn X.object X.index self.now wake_one wake_all }
    {
        self.stop_writing(&mut pass.pass, counter, word, &wake_one, &wake_all);
        pass
    }

    /// What it does with the pass inside.
    #[inline(always)]
    fn stop_writing<X: Shown, W: Fn(&X), V: Fn(&X)>(
        &self,
        pass: &mut PlayedPass,
        counter: &Sealed<X>,
        word: &Sealed<X>,
        wake_one: &W,
        wake_all: &V,
    )
        requires own { IsPassOf self.now.stage pass.old }
        requires counter { IsItsWord 1 self.now (X.object counter.now.shown) (X.index counter.now.shown) }
        requires word { IsItsWord 0 self.now (X.object word.now.shown) (X.index word.now.shown) }
        requires on { writes_of pass.old ≡ 1 }
        requires has { has_hold kinds.Write (parties_of pass.old) ≡ true }
        requires may_one { W.IsAlwaysCallable wake_one.now }
        requires may_all { V.IsAlwaysCallable wake_all.now }
        ensures released { HasLeftWriting pass.old pass.new }
        ensures played { Unlocks kinds.Write (afters.At (places.WakeOne leavers.Writer)) (parties_of pass.old) (parties_of pass.new) }
        ensures woke { HasWokenBoth W.Fn V.Fn X.object X.index self.now wake_one.now wake_all.now }
    {
        let begun = begin_held::<UnlockCall, PlayedPass>(pass);
        let left = self.leave_writing(begun);
        let last = self.count_up(left);
        let _pass = self.wake_both(last, counter, word, wake_one, wake_all);
    }
}
