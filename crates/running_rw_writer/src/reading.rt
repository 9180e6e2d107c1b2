//! What calls of a writer-preferring lock do for a reader.
ghost use Rattle.std.specs.Prelude.{◌≡◌, ◌+◌, ◌<◌};

use crate::steps::PlayedPass;
use crate::{LOCK, MarkedHolds, RwLockWriterPreference, RwWriterPass, RwWriterScript};
use model_rw_writer::{RwWriterPlace, is_last_reader, reader_enters};
use running_model::calls::UnlockCall;
use running_model::turn::{Goes, Turn, Way, begin_held};
use running_model::{Sealed, Shown};
use running_rw_hold::ReadSteps;
use std::alloc::Allocator;

/// A load, and an exchange of the value seen for two more.
impl<A: Allocator, S> ReadSteps<RwWriterScript, RwWriterPlace, MarkedHolds>
    for RwLockWriterPreference<A, S> {
    ghost use Rattle.std.specs.Prelude.{[], ◌∷◌};
    ghost use Rattle.std.proofs.Common.{refl};
    ghost use Rattle.model_events.specs.declared.event.Word.TheVariants as words;
    ghost use Rattle.model_events.specs.declared.patience.Patience.{Patience};
    ghost use Rattle.running_passes.specs.Passes.{object_of};
    ghost use Rattle.running_model.specs.Passes.{parties_of};
    ghost use Rattle.running_model.specs.Turns.{IsOver};
    ghost use Rattle.running_model.specs.Words.{IsNamed};
    ghost use Rattle.running_rw_writer.specs.RwWriter.{rw_writer_model, read};
    ghost use Rattle.running_rw_hold.specs.RwReading.{MayLook, MayEnter, HasLookedAt, HasTriedToEnter};
    ghost use Rattle.model_rw_writer.specs.declared.RwWriterPlace.TheVariants as places;
    ghost use Rattle.running_model.specs.Stages.{id_of};
    ghost use Rattle.running_rw_hold.specs.Held.{read_holds, write_holds};
    ghost use Rattle.running_rw_writer.specs.RwWriterSteps.{IsOnly, word_of as held_word};
    ghost use Rattle.running_rw_writer.specs.RwWriterShown.{IsOpen, IsShut, EntersToRead};

    ghost object = { λ l. id_of l.stage };

    ghost once = { places.TryReadLook };

    ghost place = { places.ReadLook };

    ghost opens = { λ seen more. IsOpen seen × (more ≡ seen + 2) };

    ghost refuses = { IsShut };

    ghost reads = { read };

    ghost moves = { EntersToRead };

    ghost only = { IsOnly };

    ghost word_of = { held_word };

    ghost free = { λ part t. IsOnly part t × (read_holds t.held ≡ 0) × (write_holds t.held ≡ 0) };

    ghost begins_once = { record { begins = refl; free = refl; values = tt } };

    ghost begins = { record { begins = refl; free = refl; values = tt } };

    ghost patient = { λ _ _. refl };

    ghost has_none = { λ _ _ free. free.0 };

    #[inline(always)]
    fn room(&self, seen: u64) -> Option<u64> {
        reader_enters(seen)
    }

    #[inline(always)]
    fn look<'p, W: Way<u64>>(
        &self,
        turn: Turn<'p, PlayedPass, W>,
    ) -> (u64, Turn<'p, PlayedPass, Goes>)
        requires own { object_of turn.pass.now ≡ id_of self.now.stage }
        requires may { MayLook rw_writer_model places.TryReadLook places.ReadLook W.coming (parties_of turn.pass.now) }
        ensures same_borrow { result.1.pass.ghost_name ≡ turn.entry.pass.ghost_name }
        ensures looked { HasLookedAt rw_writer_model places.TryReadLook places.ReadLook IsOnly held_word W.coming result.0 turn.entry.pass.now result.1.pass.now }
    {
        turn.load(&self.stage, LOCK)
    }

    #[inline(always)]
    fn enter<'p>(
        &self,
        turn: Turn<'p, PlayedPass, Goes>,
        seen: u64,
        more: u64,
    ) -> (u64, Turn<'p, PlayedPass, Goes>)
        requires own { object_of turn.pass.now ≡ id_of self.now.stage }
        requires room { IsOpen seen × (more ≡ seen + 2) }
        requires may { MayEnter rw_writer_model places.TryReadLook places.ReadLook seen (parties_of turn.pass.now) }
        ensures same_borrow { result.1.pass.ghost_name ≡ turn.entry.pass.ghost_name }
        ensures tried { HasTriedToEnter rw_writer_model places.TryReadLook places.ReadLook IsOnly held_word read EntersToRead seen result.0 turn.entry.pass.now result.1.pass.now }
    {
        turn.exchange(&self.stage, LOCK, seen, more)
    }

    #[inline(always)]
    fn end<'p>(&self, turn: Turn<'p, PlayedPass, Goes>) -> &'p mut PlayedPass
        requires own { object_of turn.pass.now ≡ id_of self.now.stage }
        requires over { IsOver rw_writer_model (parties_of turn.pass.now) }
        ensures same_borrow { result.ghost_name ≡ turn.entry.pass.ghost_name }
        ensures still { result.now ≡ turn.entry.pass.now }
    {
        turn.end(&self.stage)
    }
}

impl<A: Allocator, S> RwLockWriterPreference<A, S> {
    ghost use Rattle.std.specs.Prelude.{true};
    ghost use Rattle.model_events.specs.declared.hold.HoldKind.TheVariants as kinds;
    ghost use Rattle.running_passes.specs.Passes.{sights_of};
    ghost use Rattle.running_model.specs.Passes.{parties_of};
    ghost use Rattle.running_model.specs.Stages.{IsPassOf};
    ghost use Rattle.running_rw_writer.specs.RwWriterParties.{has_hold, Unlocks, unlocked};
    ghost use Rattle.running_rw_writer.specs.RwWriterShown.{IsRwWriterPass, IsItsWord, HasWokenOne, pass_in, sights_in, reads_of, HasLeftReading};

    /// What `unlock` does with a read hold.
    #[inline(always)]
    pub(crate) fn unlock_read<'p, X: Shown, W: Fn(&X)>(
        &self,
        pass: &'p mut RwWriterPass,
        counter: &Sealed<X>,
        wake_one: W,
    ) -> &'p mut RwWriterPass
        requires own { IsRwWriterPass self.now pass.old }
        requires counter { IsItsWord 1 self.now (X.object counter.now.shown) (X.index counter.now.shown) }
        requires on { 0 < reads_of (pass_in pass.old) }
        requires has { has_hold kinds.Read (parties_of (pass_in pass.old)) ≡ true }
        requires may { W.IsAlwaysCallable wake_one }
        ensures same_borrow { result.ghost_name ≡ pass.entry.ghost_name }
        ensures released { HasLeftReading (pass_in pass.old) (pass_in result.now) }
        ensures played { Unlocks kinds.Read (unlocked kinds.Read (sights_in result.now).last) (parties_of (pass_in pass.old)) (parties_of (pass_in result.now)) }
        ensures woke { (sights_in result.now).last ≡ 3 → HasWokenOne W.Fn X.object X.index self.now wake_one }
    {
        self.stop_reading(&mut pass.pass, counter, &wake_one);
        pass
    }

    /// What it does with the pass inside.
    #[inline(always)]
    fn stop_reading<X: Shown, W: Fn(&X)>(
        &self,
        pass: &mut PlayedPass,
        counter: &Sealed<X>,
        wake_one: &W,
    )
        requires own { IsPassOf self.now.stage pass.old }
        requires counter { IsItsWord 1 self.now (X.object counter.now.shown) (X.index counter.now.shown) }
        requires on { 0 < reads_of pass.old }
        requires has { has_hold kinds.Read (parties_of pass.old) ≡ true }
        requires may { W.IsAlwaysCallable wake_one.now }
        ensures released { HasLeftReading pass.old pass.new }
        ensures played { Unlocks kinds.Read (unlocked kinds.Read (sights_of pass.new).last) (parties_of pass.old) (parties_of pass.new) }
        ensures woke { (sights_of pass.new).last ≡ 3 → HasWokenOne W.Fn X.object X.index self.now wake_one.now }
    {
        let begun = begin_held::<UnlockCall, PlayedPass>(pass);
        let (found, left) = self.leave_reading(begun);
        if is_last_reader(found) {
            let counted = self.count_up(left);
            let _pass = self.wake_one(counted, counter, wake_one);
            return;
        }
        let _pass = left.end(&self.stage);
    }
}
