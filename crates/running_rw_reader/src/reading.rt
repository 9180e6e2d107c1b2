//! What calls of a reader-preferring lock do for a reader.
ghost use Rattle.std.specs.Prelude.{◌≡◌, ◌+◌, ◌-◌, ◌^◌, ◌<◌};

use crate::{RwLockReaderPreference, RwReaderPass, RwReaderWord};
use model_rw_reader::{RwReaderPlace, reader_enters};
use running_model::OfWord;
use running_model::calls::UnlockCall;
use running_model::turn::{Goes, Turn, Way, begin_held};
use running_rw_hold::{Held, ReadSteps, RwReaderScript};
use std::alloc::Allocator;

/// A load, and an exchange of the value seen for one more.
impl<A: Allocator, S> ReadSteps<RwReaderScript, RwReaderPlace, Held<()>>
    for RwLockReaderPreference<A, S> {
    ghost use Rattle.std.specs.Prelude.{[], ◌∷◌};
    ghost use Rattle.std.proofs.Common.{refl};
    ghost use Rattle.model_events.specs.declared.event.Word.TheVariants as words;
    ghost use Rattle.model_events.specs.declared.patience.Patience.{Patience};
    ghost use Rattle.running_passes.specs.Passes.{object_of};
    ghost use Rattle.running_model.specs.Passes.{parties_of};
    ghost use Rattle.running_model.specs.Turns.{IsOver};
    ghost use Rattle.running_model.specs.Words.{IsNamed};
    ghost use Rattle.running_rw_hold.specs.RwReader.{rw_reader_model, read};
    ghost use Rattle.running_rw_hold.specs.RwReading.{MayLook, MayEnter, HasLookedAt, HasTriedToEnter};
    ghost use Rattle.model_rw_reader.specs.declared.RwReaderPlace.TheVariants as places;
    ghost use Rattle.running_passes.specs.Parts.{IsWhole};
    ghost use Rattle.running_model.specs.Stages.{id_of};
    ghost use Rattle.running_rw_hold.specs.Held.{read_holds, write_holds};
    ghost use Rattle.running_rw_reader.specs.RwReaderSteps.{word_of as held_word};
    ghost use Rattle.running_rw_reader.specs.RwReaderShown.{IsShut, EntersToRead};

    ghost object = { λ l. id_of l.stage };

    ghost once = { places.TryReadLook };

    ghost place = { places.ReadLook };

    ghost opens = { λ seen more. (seen < 2 ^ 64 - 2) × (more ≡ seen + 1) };

    ghost refuses = { IsShut };

    ghost reads = { read };

    ghost moves = { EntersToRead };

    ghost only = { λ part _. IsWhole part };

    ghost word_of = { held_word };

    ghost free = { λ part t. IsWhole part × (read_holds t ≡ 0) × (write_holds t ≡ 0) };

    ghost begins_once = { record { begins = refl; free = refl; values = tt } };

    ghost begins = { record { begins = refl; free = refl; values = tt } };

    ghost patient = { λ _ _. refl };

    ghost has_none = { λ _ _ free. free.0 };

    #[inline(always)]
    fn room(&self, seen: u64) -> Option<u64> {
        reader_enters(seen)
    }

    #[inline(always)]
    fn look<'p, W: Way<u64>>(
        &self,
        turn: Turn<'p, RwReaderPass, W>,
    ) -> (u64, Turn<'p, RwReaderPass, Goes>)
        requires own { object_of turn.pass.now ≡ id_of self.now.stage }
        requires may { MayLook rw_reader_model places.TryReadLook places.ReadLook W.coming (parties_of turn.pass.now) }
        ensures same_borrow { result.1.pass.ghost_name ≡ turn.entry.pass.ghost_name }
        ensures looked { HasLookedAt rw_reader_model places.TryReadLook places.ReadLook (λ part _. IsWhole part) held_word W.coming result.0 turn.entry.pass.now result.1.pass.now }
    {
        self.load(turn)
    }

    #[inline(always)]
    fn enter<'p>(
        &self,
        turn: Turn<'p, RwReaderPass, Goes>,
        seen: u64,
        more: u64,
    ) -> (u64, Turn<'p, RwReaderPass, Goes>)
        requires own { object_of turn.pass.now ≡ id_of self.now.stage }
        requires room { (seen < 2 ^ 64 - 2) × (more ≡ seen + 1) }
        requires may { MayEnter rw_reader_model places.TryReadLook places.ReadLook seen (parties_of turn.pass.now) }
        ensures same_borrow { result.1.pass.ghost_name ≡ turn.entry.pass.ghost_name }
        ensures tried { HasTriedToEnter rw_reader_model places.TryReadLook places.ReadLook (λ part _. IsWhole part) held_word read EntersToRead seen result.0 turn.entry.pass.now result.1.pass.now }
    {
        self.come_to_read(turn, seen, more)
    }

    #[inline(always)]
    fn end<'p>(&self, turn: Turn<'p, RwReaderPass, Goes>) -> &'p mut RwReaderPass
        requires own { object_of turn.pass.now ≡ id_of self.now.stage }
        requires over { IsOver rw_reader_model (parties_of turn.pass.now) }
        ensures same_borrow { result.ghost_name ≡ turn.entry.pass.ghost_name }
        ensures still { result.now ≡ turn.entry.pass.now }
    {
        turn.end(&self.stage)
    }
}

impl<A: Allocator, S> RwLockReaderPreference<A, S> {
    ghost use Rattle.std.specs.Prelude.{true};
    ghost use Rattle.model_events.specs.declared.hold.HoldKind.TheVariants as kinds;
    ghost use Rattle.running_model.specs.Asked.{HasWokenOf};
    ghost use Rattle.running_model.specs.Passes.{parties_of};
    ghost use Rattle.running_rw_reader.specs.RwReaderParties.{has_hold, Unlocks};
    ghost use Rattle.running_rw_reader.specs.RwReaderShown.{IsRwReaderPass, IsItsWord, reads_of, HasLeftReading};

    /// What `unlock` does with a read hold.
    #[inline(always)]
    pub(crate) fn unlock_read<'p, 't, X: OfWord<RwReaderWord<'t>>, W: Fn(&X)>(
        &'t self,
        pass: &'p mut RwReaderPass,
        wake_one: W,
    ) -> &'p mut RwReaderPass
        requires own { IsRwReaderPass self.now pass.old }
        requires on { 0 < reads_of pass.old }
        requires has { has_hold kinds.Read (parties_of pass.old) ≡ true }
        requires may { W.IsAlwaysCallable wake_one }
        ensures same_borrow { result.ghost_name ≡ pass.entry.ghost_name }
        ensures released { HasLeftReading pass.old result.now }
        ensures played { Unlocks kinds.Read (parties_of pass.old) (parties_of result.now) }
        ensures woke { HasWokenOf W.Fn (λ word. IsItsWord self.now (X.Shown.object word) (X.Shown.index word)) wake_one }
    {
        let begun = begin_held::<UnlockCall, RwReaderPass>(pass);
        let turn = self.leave_reading(begun);
        let (woken, _wake_one) = turn.wake(&self.stage, &self.word(), wake_one);
        woken.end_aside(&self.stage)
    }
}
