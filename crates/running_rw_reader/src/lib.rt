//! A lock of many readers or one writer that lets readers in as long as no writer is. Its word is the number of read holds, or
//! 2^64 - 1 with a write hold.
//!
//! It does what `strategy::rwlock::RwLockReaderPreference` of the Rust crate does, but that it answers a hold, which says of which kind
//! it is, and that only a hold can be unlocked. Calls that answer a hold take the pass first, since the hold borrows it. A lock guards
//! no data: a hold says which holds other passes have meanwhile, and nothing of what other threads do.
#![tactic(auto)]

ghost use Rattle.std.specs.Prelude.{◌≡◌};
ghost use Rattle.running_model.specs.Stages.{count_of};
ghost use Rattle.running_rw_reader.specs.RwReaderSteps.{HoldsAreOfARun, NoHoldBesideAWriteHold};

mod reading;
mod shares;
mod steps;
mod writing;

use model_events::WaitAction;
use model_rw_reader::RwReaderPlace;
use running_model::{OwnWords, Shows, Stage};
use running_passes::{Origin, Pass, WaitResult, Word};
use running_rw_hold::{
    Held, PlayedRwReader, RwHold, RwReaderScript, end_read_hold, end_write_hold, read_hold,
    try_to_read, wait_to_read, write_hold,
};
use std::alloc::{AllocError, Allocator, Global};
use std::marker::PhantomData;
use std::ops::Deref;
use std::sync::Wait;

/// A lock of many readers or one writer. A reader enters wherever no writer is in, also where writers wait.
#[derive(Drop)]
pub struct RwLockReaderPreference<A: Allocator = Global, S = OwnWords> {
    stage: Stage<(), RwReaderScript, RwReaderPlace, u64, Held<()>, A>,
    shows: PhantomData<S>,
    ghost one_word: { count_of stage ≡ 1 },
}

/// What the passes of a lock come from, at which they are split and joined.
impl<A: Allocator, S> Deref for RwLockReaderPreference<A, S> {
    ghost use Rattle.running_model.specs.Stages.{origin};

    type Target = Origin<(), PlayedRwReader, A>;

    #[inline(always)]
    fn deref(&self) -> &Origin<(), PlayedRwReader, A>
        ensures { result.now ≡ origin self.now.stage }
    {
        &self.stage
    }
}

/// The word of a reader-preferring lock, as wait and wake closures see it. It can be loaded and slept on, and no more.
pub type RwReaderWord<'t> = Word<'t, (), PlayedRwReader>;

/// The right to call a reader-preferring lock, and what its owner did and saw there.
pub type RwReaderPass = Pass<PlayedRwReader>;

impl<A: Allocator, S> RwLockReaderPreference<A, S> {
    ghost use Rattle.std.specs.Prelude.{IfOk, Some, None};
    ghost use Rattle.running_model.specs.Passes.{counts_of as tally_of, played};
    ghost use Rattle.std.specs.Borrow.{sem};
    ghost use Rattle.model_events.specs.declared.event.Call.TheVariants as calls;
    ghost use Rattle.model_events.specs.declared.event.Answer.TheVariants as answers;
    ghost use Rattle.model_events.specs.declared.hold.HoldKind.TheVariants as kinds;
    ghost use Rattle.running_passes.specs.Answers.{IfSuccess, IfInterrupted, IsSuccess, RestsIfInterrupted, MayAnswerAbort, HasAsked};
    ghost use Rattle.running_model.specs.Asked.{HasWokenOf};
    ghost use Rattle.running_passes.specs.Parts.{IsWhole};
    ghost use Rattle.running_passes.specs.Passes.{view, part_of};
    ghost use Rattle.running_passes.specs.Views.{first_view};
    ghost use Rattle.running_model.specs.Slots.{no_parties};
    ghost use Rattle.running_model.specs.Counts.{WasRefused, HasGivenUp};
    ghost use Rattle.running_rw_hold.specs.RwShown.{IsReadHold, IsWriteHold, pass_of, borrow_of};
    ghost use Rattle.running_rw_hold.specs.RwReader.{no_holds};
    ghost use Rattle.running_rw_reader.specs.RwReaderSteps.{word_of};
    ghost use Rattle.running_rw_reader.specs.RwReaderShown.{reader_row, IsRwReaderPass, IsItsWord, IsAlone, IsShut, IsTaken, WasTurnedAway, HasEnteredToRead, HasEnteredToWrite, HasReadAtOnce, HasWrittenAtOnce, HasSeenTaken, HasUnlocked, HasPlayed, HasPlayedUnlock};

    /// A lock that is free, and the pass that is whole. `Err` where there was no memory; then nothing was made.
    pub fn new(alloc: A) -> Result<(RwLockReaderPreference<A, S>, RwReaderPass), AllocError>
        ensures own { IfOk result (λ made. IsRwReaderPass made.0 made.1) }
        ensures first { IfOk result (λ made. view made.1 ≡ first_view (played no_parties no_holds)) }
    {
        let (stage, pass) = Stage::new(alloc, &[0], &())?;
        let shows = PhantomData;
        Ok((RwLockReaderPreference { stage, shows }, pass))
    }

    /// Locks for reading: one look and, where there is room for a reader, one exchange. `Interrupted` where a writer is in or there
    /// is no room for one more reader, and also where another party wrote between the two; then this call holds nothing.
    #[inline(always)]
    pub fn try_read_lock<'p>(
        pass: &'p mut RwReaderPass,
        this: &Self,
    ) -> WaitResult<RwHold<'p, RwReaderPass>>
        requires own { IsRwReaderPass this.now pass.old }
        ensures* refused { sem 𝓛 (RestsIfInterrupted reader_row pass.entry borrow_of result (λ q. WasTurnedAway pass.old q × HasPlayed calls.TryReadLock answers.Interrupted None pass.old q)) }
        ensures same_borrow { IfSuccess result (λ hold. borrow_of hold ≡ pass.entry.ghost_name) }
        ensures kind { IfSuccess result IsReadHold }
        ensures granted { IfSuccess result (λ hold. HasEnteredToRead pass.old (pass_of hold)) }
        ensures at_once { IfSuccess result (λ hold. HasReadAtOnce pass.old (pass_of hold)) }
        ensures played { IfSuccess result (λ hold. HasPlayed calls.TryReadLock answers.Success (Some kinds.Read) pass.old (pass_of hold)) }
        ensures exact { IsAlone pass.old → IsSuccess result }
    {
        if try_to_read(this, pass) {
            WaitResult::Success(RwHold::Read(read_hold(pass)))
        } else {
            WaitResult::Interrupted
        }
    }

    /// Locks for reading: looks, and exchanges where there is room for a reader, again where another party wrote in between. Where
    /// there is none it looks up to 10000 times more, and then calls the wait closure before each further look, with the value seen.
    /// `Interrupted` where a look saw no room after the closure had answered `Abort`; then this call holds nothing.
    #[inline(always)]
    pub fn read_lock<
        'p,
        't,
        R: Wait,
        W: Fn(&<S as Shows<'t, RwReaderWord<'t>>>::As, &u64) -> WaitAction,
    >(
        pass: &'p mut RwReaderPass,
        this: &'t Self,
        rt: &R,
        wait: W,
    ) -> WaitResult<RwHold<'p, RwReaderPass>>
    where
        S: Shows<'t, RwReaderWord<'t>>,
        requires own { IsRwReaderPass this.now pass.old }
        requires may { W.IsAlwaysCallable wait }
        ensures* refused { sem 𝓛 (RestsIfInterrupted reader_row pass.entry borrow_of result (λ q. WasRefused IsShut 10002 pass.old q × (IsWhole (part_of pass.old) → HasAsked W.Fn wait IsShut 10001 pass.old q) × HasPlayed calls.ReadLock answers.Interrupted None pass.old q)) }
        ensures same_borrow { IfSuccess result (λ hold. borrow_of hold ≡ pass.entry.ghost_name) }
        ensures kind { IfSuccess result IsReadHold }
        ensures granted { IfSuccess result (λ hold. HasEnteredToRead pass.old (pass_of hold)) }
        ensures played { IfSuccess result (λ hold. HasPlayed calls.ReadLock answers.Success (Some kinds.Read) pass.old (pass_of hold)) }
        ensures exact { IsAlone pass.old → IsSuccess result }
        ensures aborted { IfInterrupted result (MayAnswerAbort W.Fn wait IsShut) }
    {
        if wait_to_read(this, pass, rt, &this.word(), wait) {
            WaitResult::Success(RwHold::Read(read_hold(pass)))
        } else {
            WaitResult::Interrupted
        }
    }

    /// Subtracts 1 for a read hold, stores 0 for a write hold, and then calls the wake closure once. Gives the pass back.
    #[inline(always)]
    pub fn unlock<'p, 't, W: Fn(&<S as Shows<'t, RwReaderWord<'t>>>::As)>(
        &'t self,
        hold: RwHold<'p, RwReaderPass>,
        wake_one: W,
    ) -> &'p mut RwReaderPass
    where
        S: Shows<'t, RwReaderWord<'t>>,
        requires own { IsRwReaderPass self.now (pass_of hold) }
        requires may { W.IsAlwaysCallable wake_one }
        ensures same_borrow { result.ghost_name ≡ borrow_of hold.entry }
        ensures released { HasUnlocked hold.entry result.now }
        ensures played { HasPlayedUnlock hold.entry result.now }
        ensures woke { HasWokenOf W.Fn (λ word. IsItsWord self.now (S.As.Shown.object word) (S.As.Shown.index word)) wake_one }
    {
        match hold {
            RwHold::Read(hold) => self.unlock_read(end_read_hold(hold), wake_one),
            RwHold::Write(hold) => self.unlock_write(end_write_hold(hold), wake_one),
        }
    }

    /// Locks for writing: one exchange of 0 for 2^64 - 1. `Interrupted` where the lock was seen taken, and then this call holds nothing.
    #[inline(always)]
    pub fn try_write_lock<'p>(
        pass: &'p mut RwReaderPass,
        this: &Self,
    ) -> WaitResult<RwHold<'p, RwReaderPass>>
        requires own { IsRwReaderPass this.now pass.old }
        ensures* refused { sem 𝓛 (RestsIfInterrupted reader_row pass.entry borrow_of result (λ q. HasSeenTaken pass.old q × HasPlayed calls.TryWriteLock answers.Interrupted None pass.old q)) }
        ensures same_borrow { IfSuccess result (λ hold. borrow_of hold ≡ pass.entry.ghost_name) }
        ensures kind { IfSuccess result IsWriteHold }
        ensures granted { IfSuccess result (λ hold. HasEnteredToWrite pass.old (pass_of hold)) }
        ensures at_once { IfSuccess result (λ hold. HasWrittenAtOnce pass.old (pass_of hold)) }
        ensures played { IfSuccess result (λ hold. HasPlayed calls.TryWriteLock answers.Success (Some kinds.Write) pass.old (pass_of hold)) }
        ensures exact { IsAlone pass.old → IsSuccess result }
    {
        if this.try_once_to_write(pass) {
            WaitResult::Success(RwHold::Write(write_hold(pass)))
        } else {
            WaitResult::Interrupted
        }
    }

    /// Locks for writing: one exchange of 0 for 2^64 - 1, up to 10000 more, and then the wait closure before each further one, with the
    /// value that the exchange found. `Interrupted` where an exchange failed after the closure had answered `Abort`; then this call
    /// holds nothing.
    #[inline(always)]
    pub fn write_lock<
        'p,
        't,
        R: Wait,
        W: Fn(&<S as Shows<'t, RwReaderWord<'t>>>::As, &u64) -> WaitAction,
    >(
        pass: &'p mut RwReaderPass,
        this: &'t Self,
        rt: &R,
        wait: W,
    ) -> WaitResult<RwHold<'p, RwReaderPass>>
    where
        S: Shows<'t, RwReaderWord<'t>>,
        requires own { IsRwReaderPass this.now pass.old }
        requires may { W.IsAlwaysCallable wait }
        ensures* refused { sem 𝓛 (RestsIfInterrupted reader_row pass.entry borrow_of result (λ q. HasGivenUp W.Fn wait IsTaken pass.old q × HasPlayed calls.WriteLock answers.Interrupted None pass.old q)) }
        ensures same_borrow { IfSuccess result (λ hold. borrow_of hold ≡ pass.entry.ghost_name) }
        ensures kind { IfSuccess result IsWriteHold }
        ensures granted { IfSuccess result (λ hold. HasEnteredToWrite pass.old (pass_of hold)) }
        ensures played { IfSuccess result (λ hold. HasPlayed calls.WriteLock answers.Success (Some kinds.Write) pass.old (pass_of hold)) }
        ensures exact { IsAlone pass.old → IsSuccess result }
        ensures aborted { IfInterrupted result (MayAnswerAbort W.Fn wait IsTaken) }
    {
        if this.wait_to_write(pass, rt, wait) {
            WaitResult::Success(RwHold::Write(write_hold(pass)))
        } else {
            WaitResult::Interrupted
        }
    }

    /// Ends the lock, and answers its word. With the whole pass that is what its holds come to: 0 where it has none.
    pub fn close(self, pass: RwReaderPass) -> u64
        requires own { IsRwReaderPass self pass }
        ensures exact { IsWhole (part_of pass) → result ≡ word_of (tally_of pass) }
        ensures free { IsAlone pass → result ≡ 0 }
    {
        let RwLockReaderPreference { stage, shows: _ } = self;
        stage.close(pass, 0)
    }
}

/// Whenever the rule of a reader-preferring lock holds, no pass has a hold where another has a write hold. Says so of the rule alone,
/// and does nothing.
pub fn no_hold_beside_a_write_hold()
    ensures { NoHoldBesideAWriteHold }
{}

/// Whenever the rule of a reader-preferring lock holds, its passes are the parties of a run of the model, and all together have as many holds
/// of each kind as calls have after it. Says so of the rule alone, and does nothing.
pub fn holds_are_of_a_run()
    ensures { HoldsAreOfARun }
{}
