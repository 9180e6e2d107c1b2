//! Each atomic step of a writer-preferring lock, and the calls of its wake closures.
ghost use Rattle.std.specs.Prelude.{◌≡◌, ◌-◌, ◌^◌};

use crate::{COUNTER, LOCK, PlayedRwWriter, RwLockWriterPreference, RwWriterWord};
use model_rw_writer::writer_enters;
use running_model::calls::UnlockCall;
use running_model::turn::{Continues, Goes, Turn, Way};
use running_model::{OfWord, Sealed, Shown};
use running_passes::Pass;
use std::alloc::Allocator;

/// The pass inside.
pub(crate) type PlayedPass = Pass<PlayedRwWriter>;

impl<A: Allocator, S> RwLockWriterPreference<A, S> {
    ghost use Rattle.std.specs.Prelude.{◌≢◌, ◌%◌, ◌+◌, ◌<◌, IfOk, IfErr, true, List, Some, ℕ};
    ghost use Rattle.model_events.specs.declared.event.Call.{Call};
    ghost use Rattle.model_events.specs.declared.event.Call.TheVariants as calls;
    ghost use Rattle.model_events.specs.declared.hold.HoldKind.TheVariants as kinds;
    ghost use Rattle.model_events.specs.declared.patience.Patience.{Patience};
    ghost use Rattle.model_events.specs.declared.row.Intent.TheVariants as intents;
    ghost use Rattle.model_events.specs.declared.row.After.TheVariants as afters;
    ghost use Rattle.model_rw_writer.specs.declared.Leaver.{Leaver};
    ghost use Rattle.model_rw_writer.specs.declared.Leaver.TheVariants as leavers;
    ghost use Rattle.model_rw_writer.specs.declared.RwWriterPlace.TheVariants as places;
    ghost use Rattle.model_rw_writer.specs.Table.{released, marks_or_spins, spins, unmarks_or_leaves, write_look, last_look};
    ghost use Rattle.running_passes.specs.Passes.{sights_of, IsSamePass};
    ghost use Rattle.running_model.specs.Slots.{Slot};
    ghost use Rattle.running_model.specs.Passes.{parties_of, counted};
    ghost use Rattle.running_model.specs.Stages.{IsPassOf};
    ghost use Rattle.running_rw_writer.specs.RwWriterParties.{has_hold, TableHas, TableLed, SomeCallGoes, GoesFromTo, WriteGoes, ComesToWrite, IsToWakeBoth, Unlocks};
    ghost use Rattle.running_rw_writer.specs.RwWriterSteps.{IsMarked, SaysAlone, WriterIn, Unchanged};
    ghost use Rattle.running_rw_writer.specs.RwWriterShown.{IsItsWord, HasWokenOne, HasWokenBoth, reads_of, writes_of, HasTried, HasJustSeen, HasMissedIt, MayGiveUp, HasGivenUpWriting, HasLeftReading, HasLeftWriting};

    /// A subtraction of 2, by a pass that has a read hold, and the value that it found.
    #[inline(always)]
    pub(crate) fn leave_reading<'p>(
        &self,
        turn: Turn<'p, PlayedPass, Continues<UnlockCall>>,
    ) -> (u64, Turn<'p, PlayedPass, Goes>)
        requires own { IsPassOf self.now.stage turn.pass.now }
        requires on { 0 < reads_of turn.pass.now }
        requires has { has_hold kinds.Read (parties_of turn.pass.now) ≡ true }
        ensures same_borrow { result.1.pass.ghost_name ≡ turn.entry.pass.ghost_name }
        ensures released { HasLeftReading turn.entry.pass.now result.1.pass.now }
        ensures played { Unlocks kinds.Read (released (Some result.0)) (parties_of turn.entry.pass.now) (parties_of result.1.pass.now) }
        ensures saw { (sights_of result.1.pass.now).last ≡ result.0 }
    {
        turn.subtract(&self.stage, LOCK, 2)
    }

    /// A load by a writer.
    #[inline(always)]
    pub(crate) fn look_to_write<'p, W: Way<u64>>(
        &self,
        turn: Turn<'p, PlayedPass, W>,
    ) -> (u64, Turn<'p, PlayedPass, Goes>)
        requires own { IsPassOf self.now.stage turn.pass.now }
        requires comes { (patience : Patience) × (done : List (Slot ℕ)) × ComesToWrite W.coming patience done (parties_of turn.pass.now) }
        ensures same_borrow { result.1.pass.ghost_name ≡ turn.entry.pass.ghost_name }
        ensures tried { HasTried 1 turn.entry.pass.now result.1.pass.now }
        ensures just { HasJustSeen result.0 result.1.pass.now }
        ensures alone { SaysAlone (counted turn.entry.pass.now) result.0 }
        ensures looked { (patience : Patience) (done : List (Slot ℕ)) → ComesToWrite W.coming patience done (parties_of turn.entry.pass.now) → WriteGoes (write_look patience result.0) done (parties_of result.1.pass.now) }
    {
        turn.load(&self.stage, LOCK)
    }

    /// An exchange of a value at which nobody holds the lock for 2^64 - 1, and the value that it found.
    #[inline(always)]
    pub(crate) fn come_to_write<'p, W: Way<u64>>(
        &self,
        turn: Turn<'p, PlayedPass, W>,
        seen: u64,
    ) -> (u64, Turn<'p, PlayedPass, Goes>)
        requires own { IsPassOf self.now.stage turn.pass.now }
        requires free { seen < 2 }
        requires may { (put : ℕ) → put ≡ 2 ^ 64 - 1 → TableHas W.coming 0 (λ w. intents.Exchange w seen put) (parties_of turn.pass.now) }
        ensures same_borrow { result.1.pass.ghost_name ≡ turn.entry.pass.ghost_name }
        ensures same { IsSamePass turn.entry.pass.now result.1.pass.now }
        ensures told { WriterIn seen (counted turn.entry.pass.now) result.0 (counted result.1.pass.now) }
        ensures went { TableLed W.coming (parties_of turn.entry.pass.now) result.0 (parties_of result.1.pass.now) }
    {
        turn.exchange(&self.stage, LOCK, seen, write_locked())
    }

    /// A store of 0, by the pass that has the write hold.
    #[inline(always)]
    pub(crate) fn leave_writing<'p>(
        &self,
        turn: Turn<'p, PlayedPass, Continues<UnlockCall>>,
    ) -> Turn<'p, PlayedPass, Goes>
        requires own { IsPassOf self.now.stage turn.pass.now }
        requires on { writes_of turn.pass.now ≡ 1 }
        requires has { has_hold kinds.Write (parties_of turn.pass.now) ≡ true }
        ensures same_borrow { result.pass.ghost_name ≡ turn.entry.pass.ghost_name }
        ensures released { HasLeftWriting turn.entry.pass.now result.pass.now }
        ensures played { Unlocks kinds.Write (afters.At (places.Count leavers.Writer)) (parties_of turn.entry.pass.now) (parties_of result.pass.now) }
    {
        turn.store(&self.stage, LOCK, 0)
    }

    /// An exchange of the value just seen for one more. `Err` with another value that it found.
    #[inline(always)]
    pub(crate) fn set_mark<'p>(
        &self,
        turn: Turn<'p, PlayedPass, Goes>,
        seen: u64,
        marked: u64,
    ) -> Result<Turn<'p, PlayedPass, Goes>, (u64, Turn<'p, PlayedPass, Goes>)>
        requires own { IsPassOf self.now.stage turn.pass.now }
        requires just { HasJustSeen seen turn.pass.now }
        requires even { seen % 2 ≡ 0 }
        requires other { seen ≢ 2 ^ 64 - 2 }
        requires marked { marked ≡ seen + 1 }
        requires at { (patience : Patience) × (done : List (Slot ℕ)) × WriteGoes (marks_or_spins patience seen) done (parties_of turn.pass.now) }
        ensures same_borrow { IfOk result (λ next. next.pass.ghost_name ≡ turn.entry.pass.ghost_name) }
        ensures same_borrow_too { IfErr result (λ missed. missed.1.pass.ghost_name ≡ turn.entry.pass.ghost_name) }
        ensures spins { IfOk result (λ next. (patience : Patience) → GoesFromTo calls.WriteLock (marks_or_spins patience seen) (spins patience) (parties_of turn.entry.pass.now) (parties_of next.pass.now)) }
        ensures looks { IfErr result (λ missed. (patience : Patience) → GoesFromTo calls.WriteLock (marks_or_spins patience seen) (write_look patience missed.0) (parties_of turn.entry.pass.now) (parties_of missed.1.pass.now)) }
        ensures done { IfOk result (λ next. HasTried 0 turn.entry.pass.now next.pass.now) }
        ensures missed { IfErr result (λ missed. HasMissedIt missed.0 turn.entry.pass.now missed.1.pass.now) }
    {
        let (found, next) = turn.exchange(&self.stage, LOCK, seen, marked);
        if found == seen {
            Ok(next)
        } else {
            Err((found, next))
        }
    }

    /// An exchange of the value just seen for one less. `Err` with another value that it found.
    #[inline(always)]
    pub(crate) fn take_mark<'p>(
        &self,
        turn: Turn<'p, PlayedPass, Goes>,
        seen: u64,
        unmarked: u64,
    ) -> Result<Turn<'p, PlayedPass, Goes>, (u64, Turn<'p, PlayedPass, Goes>)>
        requires own { IsPassOf self.now.stage turn.pass.now }
        requires just { HasJustSeen seen turn.pass.now }
        requires cause { MayGiveUp turn.pass.now }
        requires set { IsMarked seen }
        requires unmarked { unmarked ≡ seen - 1 }
        requires at { (done : List (Slot ℕ)) × WriteGoes (unmarks_or_leaves seen) done (parties_of turn.pass.now) }
        ensures same_borrow { IfOk result (λ next. next.pass.ghost_name ≡ turn.entry.pass.ghost_name) }
        ensures same_borrow_too { IfErr result (λ missed. missed.1.pass.ghost_name ≡ turn.entry.pass.ghost_name) }
        ensures counts { IfOk result (λ next. GoesFromTo calls.WriteLock (unmarks_or_leaves seen) (afters.At (places.Count leavers.GivenUp)) (parties_of turn.entry.pass.now) (parties_of next.pass.now)) }
        ensures looks { IfErr result (λ missed. GoesFromTo calls.WriteLock (unmarks_or_leaves seen) (unmarks_or_leaves missed.0) (parties_of turn.entry.pass.now) (parties_of missed.1.pass.now)) }
        ensures done { IfOk result (λ next. HasGivenUpWriting 0 turn.entry.pass.now next.pass.now) }
        ensures missed { IfErr result (λ missed. HasMissedIt missed.0 turn.entry.pass.now missed.1.pass.now) }
    {
        let (found, next) = turn.exchange(&self.stage, LOCK, seen, unmarked);
        if found == seen {
            Ok(next)
        } else {
            Err((found, next))
        }
    }

    /// A load of the counter.
    #[inline(always)]
    fn load_count<'p>(&self, turn: Turn<'p, PlayedPass, Goes>) -> (u64, Turn<'p, PlayedPass, Goes>)
        requires own { IsPassOf self.now.stage turn.pass.now }
        requires at { (patience : Patience) × (done : List (Slot ℕ)) × WriteGoes (afters.At (places.LoadCounter patience)) done (parties_of turn.pass.now) }
        ensures same_borrow { result.1.pass.ghost_name ≡ turn.entry.pass.ghost_name }
        ensures loaded { (patience : Patience) → GoesFromTo calls.WriteLock (afters.At (places.LoadCounter patience)) (afters.At (places.LastLook result.0 patience)) (parties_of turn.entry.pass.now) (parties_of result.1.pass.now) }
        ensures same { IsSamePass turn.entry.pass.now result.1.pass.now }
        ensures unchanged { Unchanged (counted turn.entry.pass.now) (counted result.1.pass.now) }
    {
        turn.load(&self.stage, COUNTER)
    }

    /// Loads the counter, and then the word, which is a writer's last look before it stands: the count, and the value seen.
    #[inline(always)]
    pub(crate) fn look_last<'p>(
        &self,
        turn: Turn<'p, PlayedPass, Goes>,
    ) -> (u64, u64, Turn<'p, PlayedPass, Goes>)
        requires own { IsPassOf self.now.stage turn.pass.now }
        requires at { (patience : Patience) × (done : List (Slot ℕ)) × WriteGoes (afters.At (places.LoadCounter patience)) done (parties_of turn.pass.now) }
        ensures same_borrow { result.2.pass.ghost_name ≡ turn.entry.pass.ghost_name }
        ensures tried { HasTried 1 turn.entry.pass.now result.2.pass.now }
        ensures just { HasJustSeen result.1 result.2.pass.now }
        ensures looked { (patience : Patience) → GoesFromTo calls.WriteLock (afters.At (places.LoadCounter patience)) (last_look result.0 patience result.1) (parties_of turn.entry.pass.now) (parties_of result.2.pass.now) }
    {
        let (count, loaded) = self.load_count(turn);
        let (seen, looked) = loaded.load(&self.stage, LOCK);
        (count, seen, looked)
    }

    /// An add of 1 to the counter.
    #[inline(always)]
    pub(crate) fn count_up<'p>(
        &self,
        turn: Turn<'p, PlayedPass, Goes>,
    ) -> Turn<'p, PlayedPass, Goes>
        requires own { IsPassOf self.now.stage turn.pass.now }
        requires at { (who : Leaver) × SomeCallGoes (afters.At (places.Count who)) (parties_of turn.pass.now) }
        ensures same_borrow { result.pass.ghost_name ≡ turn.entry.pass.ghost_name }
        ensures counted { (call : Call ℕ) (who : Leaver) → GoesFromTo call (afters.At (places.Count who)) (afters.At (places.WakeOne who)) (parties_of turn.entry.pass.now) (parties_of result.pass.now) }
        ensures same { IsSamePass turn.entry.pass.now result.pass.now }
        ensures unchanged { Unchanged (counted turn.entry.pass.now) (counted result.pass.now) }
    {
        let (_, next) = turn.add(&self.stage, COUNTER, 1);
        next
    }

    /// Calls the closure that wakes one writer, with the counter, with which the call is over. Gives the pass back.
    #[inline(always)]
    pub(crate) fn wake_one<'p, X: Shown, W: Fn(&X)>(
        &self,
        turn: Turn<'p, PlayedPass, Goes>,
        counter: &Sealed<X>,
        wake_one: &W,
    ) -> &'p mut PlayedPass
        requires own { IsPassOf self.now.stage turn.pass.now }
        requires counter { IsItsWord 1 self.now (X.object counter.now.shown) (X.index counter.now.shown) }
        requires wakes { SomeCallGoes (afters.At (places.WakeOne leavers.Reader)) (parties_of turn.pass.now) }
        requires may { W.IsAlwaysCallable wake_one.now }
        ensures same_borrow { result.ghost_name ≡ turn.entry.pass.ghost_name }
        ensures still { result.now ≡ turn.entry.pass.now }
        ensures woke { HasWokenOne W.Fn X.object X.index self.now wake_one.now }
    {
        let (woken, _wake_one) = turn.wake(&self.stage, counter, wake_one);
        woken.end_aside(&self.stage)
    }

    /// Calls the closure that wakes one writer, with the counter, and then the one that wakes all readers, with the lock's word, with
    /// which the call is over. Gives the pass back.
    #[inline(always)]
    pub(crate) fn wake_both<'p, X: Shown, W: Fn(&X), V: Fn(&X)>(
        &self,
        turn: Turn<'p, PlayedPass, Goes>,
        counter: &Sealed<X>,
        word: &Sealed<X>,
        wake_one: &W,
        wake_all: &V,
    ) -> &'p mut PlayedPass
        requires own { IsPassOf self.now.stage turn.pass.now }
        requires counter { IsItsWord 1 self.now (X.object counter.now.shown) (X.index counter.now.shown) }
        requires word { IsItsWord 0 self.now (X.object word.now.shown) (X.index word.now.shown) }
        requires wakes { IsToWakeBoth (parties_of turn.pass.now) }
        requires may_one { W.IsAlwaysCallable wake_one.now }
        requires may_all { V.IsAlwaysCallable wake_all.now }
        ensures same_borrow { result.ghost_name ≡ turn.entry.pass.ghost_name }
        ensures still { result.now ≡ turn.entry.pass.now }
        ensures woke { HasWokenBoth W.Fn V.Fn X.object X.index self.now wake_one.now wake_all.now }
    {
        let (one, _wake_one) = turn.wake(&self.stage, counter, wake_one);
        let (both, _wake_all) = one.wake_again(&self.stage, word, wake_all);
        both.end_after_two(&self.stage)
    }

    /// The lock's word, as closures see it.
    #[inline(always)]
    pub(crate) fn word<'t, X: OfWord<RwWriterWord<'t>>>(&'t self) -> Sealed<X>
        ensures its { IsItsWord 0 self.now (X.Shown.object result.shown) (X.Shown.index result.shown) }
    {
        self.stage.shown(LOCK)
    }

    /// The wake counter, as closures see it.
    #[inline(always)]
    pub(crate) fn counter<'t, X: OfWord<RwWriterWord<'t>>>(&'t self) -> Sealed<X>
        ensures its { IsItsWord 1 self.now (X.Shown.object result.shown) (X.Shown.index result.shown) }
    {
        self.stage.shown(COUNTER)
    }
}

/// The lock's word with a write hold.
#[inline(always)]
fn write_locked() -> u64
    ensures { result ≡ 2 ^ 64 - 1 }
{
    match writer_enters(0) {
        Some(word) => word,
        None => unreachable!(),
    }
}
