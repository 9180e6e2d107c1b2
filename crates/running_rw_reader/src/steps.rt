//! Each atomic step of a reader-preferring lock.
ghost use Rattle.std.specs.Prelude.{◌≡◌, ◌-◌, ◌^◌};

use crate::{RwLockReaderPreference, RwReaderPass, RwReaderWord};
use model_rw_reader::writer_enters;
use running_model::calls::UnlockCall;
use running_model::turn::{Continues, Goes, Turn, Way};
use running_model::{OfWord, Sealed};
use std::alloc::Allocator;

impl<A: Allocator, S> RwLockReaderPreference<A, S> {
    ghost use Rattle.std.specs.Prelude.{ℕ, true, ◌+◌, ◌<◌, ◌≢◌, [], ◌∷◌};
    ghost use Rattle.running_model.specs.Passes.{parties_of, counts_of as tally_of};
    ghost use Rattle.model_events.specs.declared.event.Word.TheVariants as words;
    ghost use Rattle.model_events.specs.declared.hold.HoldKind.TheVariants as kinds;
    ghost use Rattle.model_events.specs.declared.row.Intent.TheVariants as intents;
    ghost use Rattle.running_rw_hold.specs.RwReader.{rw_reader_model, read, written};
    ghost use Rattle.running_passes.specs.Parts.{IsWhole};
    ghost use Rattle.running_passes.specs.Passes.{part_of};
    ghost use Rattle.running_model.specs.Plays.{Going, MayStep, Went};
    ghost use Rattle.running_model.specs.Counts.{HasSeen, HasMissed, HasDone};
    ghost use Rattle.running_model.specs.Stages.{id_of};
    ghost use Rattle.running_rw_reader.specs.RwReaderParties.{has_hold, Unlocks};
    ghost use Rattle.running_rw_reader.specs.RwReaderSteps.{word_of};
    ghost use Rattle.running_rw_reader.specs.RwReaderShown.{IsRwReaderPass, reads_of, writes_of, HasLeftReading, HasLeftWriting};

    /// A load.
    #[inline(always)]
    pub(crate) fn load<'p, W: Way<u64>>(
        &self,
        turn: Turn<'p, RwReaderPass, W>,
    ) -> (u64, Turn<'p, RwReaderPass, Goes>)
        requires own { IsRwReaderPass self.now turn.pass.now }
        requires may { MayStep rw_reader_model (words.State ∷ []) W.coming 0 (λ w. intents.Load w) (parties_of turn.pass.now) }
        ensures same_borrow { result.1.pass.ghost_name ≡ turn.entry.pass.ghost_name }
        ensures saw { HasSeen result.0 turn.entry.pass.now result.1.pass.now }
        ensures went { Went rw_reader_model W.coming (parties_of turn.entry.pass.now) result.0 (parties_of result.1.pass.now) }
        ensures exact { IsWhole (part_of turn.entry.pass.now) → result.0 ≡ word_of (tally_of turn.entry.pass.now) }
    {
        turn.load(&self.stage, 0)
    }

    /// An exchange of the value seen for one more, and the value that it found.
    #[inline(always)]
    pub(crate) fn come_to_read<'p>(
        &self,
        turn: Turn<'p, RwReaderPass, Goes>,
        seen: u64,
        more: u64,
    ) -> (u64, Turn<'p, RwReaderPass, Goes>)
        requires own { IsRwReaderPass self.now turn.pass.now }
        requires room { seen < 2 ^ 64 - 2 }
        requires more { more ≡ seen + 1 }
        requires may { MayStep rw_reader_model (words.State ∷ []) Going 0 (λ w. intents.Exchange w seen more) (parties_of turn.pass.now) }
        ensures same_borrow { result.1.pass.ghost_name ≡ turn.entry.pass.ghost_name }
        ensures done { result.0 ≡ seen → HasDone read turn.entry.pass.now result.1.pass.now }
        ensures reads { result.0 ≡ seen → reads_of result.1.pass.now ≡ reads_of turn.entry.pass.now + 1 }
        ensures writes { result.0 ≡ seen → (writes_of turn.entry.pass.now ≡ 0) × (writes_of result.1.pass.now ≡ 0) }
        ensures failed { result.0 ≢ seen → HasMissed seen result.0 turn.entry.pass.now result.1.pass.now }
        ensures went { Went rw_reader_model Going (parties_of turn.entry.pass.now) result.0 (parties_of result.1.pass.now) }
        ensures exact { IsWhole (part_of turn.entry.pass.now) → result.0 ≡ word_of (tally_of turn.entry.pass.now) }
    {
        turn.exchange(&self.stage, 0, seen, more)
    }

    /// A subtraction of 1, by a pass that has a read hold.
    #[inline(always)]
    pub(crate) fn leave_reading<'p>(
        &self,
        turn: Turn<'p, RwReaderPass, Continues<UnlockCall>>,
    ) -> Turn<'p, RwReaderPass, Goes>
        requires own { IsRwReaderPass self.now turn.pass.now }
        requires on { 0 < reads_of turn.pass.now }
        requires has { has_hold kinds.Read (parties_of turn.pass.now) ≡ true }
        ensures same_borrow { result.pass.ghost_name ≡ turn.entry.pass.ghost_name }
        ensures released { HasLeftReading turn.entry.pass.now result.pass.now }
        ensures played { Unlocks kinds.Read (parties_of turn.entry.pass.now) (parties_of result.pass.now) }
    {
        let (_, next) = turn.subtract(&self.stage, 0, 1);
        next
    }

    /// An exchange of 0 for 2^64 - 1, and the value that it found.
    #[inline(always)]
    pub(crate) fn come_to_write<'p, W: Way<u64>>(
        &self,
        turn: Turn<'p, RwReaderPass, W>,
    ) -> (u64, Turn<'p, RwReaderPass, Goes>)
        requires own { IsRwReaderPass self.now turn.pass.now }
        requires may { (put : ℕ) → put ≡ 2 ^ 64 - 1 → MayStep rw_reader_model (words.State ∷ []) W.coming 0 (λ w. intents.Exchange w 0 put) (parties_of turn.pass.now) }
        ensures same_borrow { result.1.pass.ghost_name ≡ turn.entry.pass.ghost_name }
        ensures done { result.0 ≡ 0 → HasDone (λ _. written) turn.entry.pass.now result.1.pass.now }
        ensures off { result.0 ≡ 0 → (reads_of turn.entry.pass.now ≡ 0) × (writes_of turn.entry.pass.now ≡ 0) }
        ensures on { result.0 ≡ 0 → (reads_of result.1.pass.now ≡ 0) × (writes_of result.1.pass.now ≡ 1) }
        ensures failed { result.0 ≢ 0 → HasMissed 0 result.0 turn.entry.pass.now result.1.pass.now }
        ensures went { Went rw_reader_model W.coming (parties_of turn.entry.pass.now) result.0 (parties_of result.1.pass.now) }
        ensures exact { IsWhole (part_of turn.entry.pass.now) → result.0 ≡ word_of (tally_of turn.entry.pass.now) }
    {
        turn.exchange(&self.stage, 0, 0, write_locked())
    }

    /// A store of 0, by the pass that has the write hold.
    #[inline(always)]
    pub(crate) fn leave_writing<'p>(
        &self,
        turn: Turn<'p, RwReaderPass, Continues<UnlockCall>>,
    ) -> Turn<'p, RwReaderPass, Goes>
        requires own { IsRwReaderPass self.now turn.pass.now }
        requires on { writes_of turn.pass.now ≡ 1 }
        requires has { has_hold kinds.Write (parties_of turn.pass.now) ≡ true }
        ensures same_borrow { result.pass.ghost_name ≡ turn.entry.pass.ghost_name }
        ensures released { HasLeftWriting turn.entry.pass.now result.pass.now }
        ensures played { Unlocks kinds.Write (parties_of turn.entry.pass.now) (parties_of result.pass.now) }
    {
        turn.store(&self.stage, 0, 0)
    }

    /// The lock's word, as closures see it.
    #[inline(always)]
    pub(crate) fn word<'t, X: OfWord<RwReaderWord<'t>>>(&'t self) -> Sealed<X>
        ensures object { X.Shown.object result.shown ≡ id_of self.now.stage }
        ensures index { X.Shown.index result.shown ≡ 0 }
    {
        self.stage.shown(0)
    }
}

/// The word of a lock with a write hold.
#[inline(always)]
fn write_locked() -> u64
    ensures { result ≡ 2 ^ 64 - 1 }
{
    match writer_enters(0) {
        Some(word) => word,
        None => unreachable!(),
    }
}
