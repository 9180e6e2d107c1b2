//! A lock of many readers or one writer in which a waiting writer keeps new readers out. Its word is twice the number of read holds
//! plus a mark of 0 or 1, or 2^64 - 1 with a write hold; beside it stands a counter, which grows where a waiting writer may have to
//! look again.
//!
//! It does what `strategy::rwlock::RwLockWriterPreference` of the Rust crate does, but that it answers a hold, which says of which kind
//! it is, and that only a hold can be unlocked. Calls that answer a hold take the pass first, since the hold borrows it. A lock guards
//! no data: a hold says which holds other passes have meanwhile, and nothing of what other threads do.
#![tactic(auto)]

ghost use Rattle.std.specs.Prelude.{◌≡◌};
ghost use Rattle.running_model.specs.Stages.{count_of};
ghost use Rattle.running_rw_writer.specs.RwWriterSteps.{GrantsAreOfARun, NoHoldBesideTheWriter, NoMarkWithoutAFlag};

mod marked;
mod pass;
mod reading;
mod shares;
mod steps;
mod writing;

pub use marked::{MarkedHolds, PlayedRwWriter, RwWriterScript};
use model_events::WaitAction;
use model_rw_writer::RwWriterPlace;
pub use pass::RwWriterPass;
use running_model::{OwnWords, Shows, Stage};
use running_passes::{WaitResult, Word};
use running_rw_hold::{
    RwHold, end_read_hold, end_write_hold, read_hold, try_to_read, wait_to_read, write_hold,
};
use std::alloc::{AllocError, Allocator, Global};
use std::marker::PhantomData;
use std::sync::Wait;

/// A lock of many readers or one writer. Where a writer waits it sets a mark, and no reader enters until the mark is taken away.
#[derive(Drop)]
pub struct RwLockWriterPreference<A: Allocator = Global, S = OwnWords> {
    stage: Stage<(), RwWriterScript, RwWriterPlace, u64, MarkedHolds, A>,
    shows: PhantomData<S>,
    ghost two_words: { count_of stage ≡ 2 },
}

/// Either word of a writer-preferring lock, as wait and wake closures see it: its own, or its wake counter. It can be loaded and slept on,
/// and no more.
pub type RwWriterWord<'t> = Word<'t, (), PlayedRwWriter>;

/// Which of the two words is the lock's, and which is the wake counter.
const LOCK: usize = 0;

const COUNTER: usize = 1;

impl<A: Allocator, S> RwLockWriterPreference<A, S> {
    ghost use Rattle.std.specs.Borrow.{sem};
    ghost use Rattle.std.specs.Prelude.{◌^◌, ◌<◌, IfOk, Some, None};
    ghost use Rattle.model_events.specs.declared.event.Call.TheVariants as calls;
    ghost use Rattle.model_events.specs.declared.event.Answer.TheVariants as answers;
    ghost use Rattle.model_events.specs.declared.hold.HoldKind.TheVariants as kinds;
    ghost use Rattle.running_passes.specs.Answers.{IfSuccess, IfInterrupted, IsSuccess, RestsIfInterrupted, MayAnswerAbort, HasAsked};
    ghost use Rattle.running_passes.specs.Parts.{IsWhole};
    ghost use Rattle.running_model.specs.Slots.{no_parties};
    ghost use Rattle.running_model.specs.Passes.{played, counts_of as tally_of};
    ghost use Rattle.running_model.specs.Counts.{WasRefused};
    ghost use Rattle.running_passes.specs.Views.{first_view};
    ghost use Rattle.running_rw_writer.specs.contracts.pass.RwWriterPass.{the_row};
    ghost use Rattle.running_rw_writer.specs.RwWriter.{nothing_marked};
    ghost use Rattle.running_rw_hold.specs.RwShown.{IsReadHold, IsWriteHold, pass_of, borrow_of};
    ghost use Rattle.running_rw_writer.specs.RwWriterSteps.{IsMarked, word_of};
    ghost use Rattle.running_rw_writer.specs.RwWriterShown.{IsRwWriterPass, IsAlone, IsShut, HasWokenOne, HasWokenBoth, pass_in, known_by, part_in, sights_in, HasEnteredToRead, HasEnteredToWrite, HasReadAtOnce, HasWrittenAtOnce, HasSeenTaken, HasGivenUpWriting, HasUnlocked, WasTurnedAway, HasPlayed, HasPlayedGivingUp, HasPlayedUnlock};

    /// A lock that is free, and the pass that is whole. `Err` where there was no memory; then nothing was made.
    pub fn new(alloc: A) -> Result<(RwLockWriterPreference<A, S>, RwWriterPass), AllocError>
        ensures own { IfOk result (λ made. IsRwWriterPass made.0 made.1) }
        ensures first { IfOk result (λ made. known_by made.1 ≡ first_view (played no_parties nothing_marked)) }
    {
        let (stage, pass) = Stage::new(alloc, &[0, 0], &())?;
        let shows = PhantomData;
        Ok((
            RwLockWriterPreference { stage, shows },
            RwWriterPass { pass },
        ))
    }

    /// Locks for reading: one look and, where a reader enters, one exchange. `Interrupted` where a writer is in or waits, or there is no
    /// room for one more reader, and also where another party wrote between the two; then this call holds nothing.
    #[inline(always)]
    pub fn try_read_lock<'p>(
        pass: &'p mut RwWriterPass,
        this: &Self,
    ) -> WaitResult<RwHold<'p, RwWriterPass>>
        requires own { IsRwWriterPass this.now pass.old }
        ensures* refused { sem 𝓛 (RestsIfInterrupted the_row pass.entry borrow_of result (λ q. WasTurnedAway (pass_in pass.old) (pass_in q) × HasPlayed calls.TryReadLock answers.Interrupted None (pass_in pass.old) (pass_in q))) }
        ensures same_borrow { IfSuccess result (λ hold. borrow_of hold ≡ pass.entry.ghost_name) }
        ensures kind { IfSuccess result IsReadHold }
        ensures granted { IfSuccess result (λ hold. HasEnteredToRead (pass_in pass.old) (pass_in (pass_of hold))) }
        ensures at_once { IfSuccess result (λ hold. HasReadAtOnce (pass_in pass.old) (pass_in (pass_of hold))) }
        ensures played { IfSuccess result (λ hold. HasPlayed calls.TryReadLock answers.Success (Some kinds.Read) (pass_in pass.old) (pass_in (pass_of hold))) }
        ensures exact { IsAlone pass.old → IsSuccess result }
    {
        if try_to_read(this, &mut pass.pass) {
            WaitResult::Success(RwHold::Read(read_hold(pass)))
        } else {
            WaitResult::Interrupted
        }
    }

    /// Locks for reading: looks, and exchanges where a reader enters, again where another party wrote in between. Where none does it
    /// looks up to 10000 times more, and then calls the wait closure before each further look, with the lock's word and the value seen.
    /// `Interrupted` where a look saw that no reader enters after the closure had answered `Abort`; then this call holds nothing.
    #[inline(always)]
    pub fn read_lock<
        'p,
        't,
        R: Wait,
        W: Fn(&<S as Shows<'t, RwWriterWord<'t>>>::As, &u64) -> WaitAction,
    >(
        pass: &'p mut RwWriterPass,
        this: &'t Self,
        rt: &R,
        wait: W,
    ) -> WaitResult<RwHold<'p, RwWriterPass>>
    where
        S: Shows<'t, RwWriterWord<'t>>,
        requires own { IsRwWriterPass this.now pass.old }
        requires may { W.IsAlwaysCallable wait }
        ensures* refused { sem 𝓛 (RestsIfInterrupted the_row pass.entry borrow_of result (λ q. WasRefused IsShut 10002 (pass_in pass.old) (pass_in q) × (IsWhole (part_in pass.old) → HasAsked W.Fn wait IsShut 10001 (pass_in pass.old) (pass_in q)) × HasPlayed calls.ReadLock answers.Interrupted None (pass_in pass.old) (pass_in q))) }
        ensures same_borrow { IfSuccess result (λ hold. borrow_of hold ≡ pass.entry.ghost_name) }
        ensures kind { IfSuccess result IsReadHold }
        ensures granted { IfSuccess result (λ hold. HasEnteredToRead (pass_in pass.old) (pass_in (pass_of hold))) }
        ensures played { IfSuccess result (λ hold. HasPlayed calls.ReadLock answers.Success (Some kinds.Read) (pass_in pass.old) (pass_in (pass_of hold))) }
        ensures exact { IsAlone pass.old → IsSuccess result }
        ensures aborted { IfInterrupted result (MayAnswerAbort W.Fn wait IsShut) }
    {
        if wait_to_read(this, &mut pass.pass, rt, &this.word(), wait) {
            WaitResult::Success(RwHold::Read(read_hold(pass)))
        } else {
            WaitResult::Interrupted
        }
    }

    /// With a read hold subtracts 2; where that leaves the mark alone it adds 1 to the counter, and calls `wake_one` with it. With the
    /// write hold stores 0, adds 1 to the counter, calls `wake_one` with it, and `wake_all` with the lock's word. Gives the pass back.
    #[inline(always)]
    pub fn unlock<
        'p,
        't,
        W: Fn(&<S as Shows<'t, RwWriterWord<'t>>>::As),
        V: Fn(&<S as Shows<'t, RwWriterWord<'t>>>::As),
    >(&'t self, hold: RwHold<'p, RwWriterPass>, wake_one: W, wake_all: V) -> &'p mut RwWriterPass
    where
        S: Shows<'t, RwWriterWord<'t>>,
        requires own { IsRwWriterPass self.now (pass_of hold) }
        requires may_one { W.IsAlwaysCallable wake_one }
        requires may_all { V.IsAlwaysCallable wake_all }
        ensures same_borrow { result.ghost_name ≡ borrow_of hold.entry }
        ensures released { HasUnlocked hold.entry result.now }
        ensures played { HasPlayedUnlock hold.entry result.now }
        ensures woke_one { IsReadHold hold.entry → (sights_in result.now).last ≡ 3 → HasWokenOne W.Fn S.As.Shown.object S.As.Shown.index self.now wake_one }
        ensures woke_both { IsWriteHold hold.entry → HasWokenBoth W.Fn V.Fn S.As.Shown.object S.As.Shown.index self.now wake_one wake_all }
    {
        match hold {
            RwHold::Read(hold) => self.unlock_read(end_read_hold(hold), &self.counter(), wake_one),
            RwHold::Write(hold) => self.unlock_write(
                end_write_hold(hold),
                &self.counter(),
                &self.word(),
                wake_one,
                wake_all,
            ),
        }
    }

    /// Locks for writing: one exchange of 0 for 2^64 - 1. `Interrupted` where a hold or a mark was seen, and then this call holds
    /// nothing.
    #[inline(always)]
    pub fn try_write_lock<'p>(
        pass: &'p mut RwWriterPass,
        this: &Self,
    ) -> WaitResult<RwHold<'p, RwWriterPass>>
        requires own { IsRwWriterPass this.now pass.old }
        ensures* refused { sem 𝓛 (RestsIfInterrupted the_row pass.entry borrow_of result (λ q. HasSeenTaken (pass_in pass.old) (pass_in q) × HasPlayed calls.TryWriteLock answers.Interrupted None (pass_in pass.old) (pass_in q))) }
        ensures same_borrow { IfSuccess result (λ hold. borrow_of hold ≡ pass.entry.ghost_name) }
        ensures kind { IfSuccess result IsWriteHold }
        ensures granted { IfSuccess result (λ hold. HasEnteredToWrite (pass_in pass.old) (pass_in (pass_of hold))) }
        ensures at_once { IfSuccess result (λ hold. HasWrittenAtOnce (pass_in pass.old) (pass_in (pass_of hold))) }
        ensures played { IfSuccess result (λ hold. HasPlayed calls.TryWriteLock answers.Success (Some kinds.Write) (pass_in pass.old) (pass_in (pass_of hold))) }
        ensures exact { IsAlone pass.old → IsSuccess result }
    {
        if this.try_to_write(&mut pass.pass) {
            WaitResult::Success(RwHold::Write(write_hold(pass)))
        } else {
            WaitResult::Interrupted
        }
    }

    /// Locks for writing: looks, and exchanges 0 or 1 for 2^64 - 1. Where others hold the lock it sets the mark, so that no reader enters
    /// any more, and looks up to 10000 times more. Then it loads the counter and looks once more; where there still is a writer, or the mark
    /// beside readers, it calls the wait closure, with the counter's word and the count loaded, and looks again. `Interrupted` where it
    /// could not enter after the closure had answered `Abort`: then it has taken the mark away, where one stood, added 1 to the counter, and
    /// called `wake_one` with the counter and `wake_all` with the lock's word; this call holds nothing, and no mark of its own is left.
    #[inline(always)]
    pub fn write_lock<
        'p,
        't,
        R: Wait,
        W: Fn(&<S as Shows<'t, RwWriterWord<'t>>>::As, &u64) -> WaitAction,
        K: Fn(&<S as Shows<'t, RwWriterWord<'t>>>::As),
        V: Fn(&<S as Shows<'t, RwWriterWord<'t>>>::As),
    >(
        pass: &'p mut RwWriterPass,
        this: &'t Self,
        rt: &R,
        wait: W,
        wake_one: K,
        wake_all: V,
    ) -> WaitResult<RwHold<'p, RwWriterPass>>
    where
        S: Shows<'t, RwWriterWord<'t>>,
        requires own { IsRwWriterPass this.now pass.old }
        requires may { W.IsAlwaysCallable wait }
        requires may_one { K.IsAlwaysCallable wake_one }
        requires may_all { V.IsAlwaysCallable wake_all }
        ensures* refused { sem 𝓛 (RestsIfInterrupted the_row pass.entry borrow_of result (λ q. HasGivenUpWriting 10003 (pass_in pass.old) (pass_in q) × (IsMarked (sights_in q).last → HasWokenBoth K.Fn V.Fn S.As.Shown.object S.As.Shown.index this.now wake_one wake_all) × HasPlayedGivingUp (HasWokenBoth K.Fn V.Fn S.As.Shown.object S.As.Shown.index this.now wake_one wake_all) (pass_in pass.old) (pass_in q))) }
        ensures same_borrow { IfSuccess result (λ hold. borrow_of hold ≡ pass.entry.ghost_name) }
        ensures kind { IfSuccess result IsWriteHold }
        ensures granted { IfSuccess result (λ hold. HasEnteredToWrite (pass_in pass.old) (pass_in (pass_of hold))) }
        ensures free { IfSuccess result (λ hold. (sights_in (pass_of hold)).last < 2) }
        ensures played { IfSuccess result (λ hold. HasPlayed calls.WriteLock answers.Success (Some kinds.Write) (pass_in pass.old) (pass_in (pass_of hold))) }
        ensures exact { IsAlone pass.old → IsSuccess result }
        ensures aborted { IfInterrupted result (MayAnswerAbort W.Fn wait (λ n. n < 2 ^ 64)) }
    {
        if this.wait_to_write(
            &mut pass.pass,
            rt,
            &this.counter(),
            &this.word(),
            wait,
            &wake_one,
            &wake_all,
        ) {
            WaitResult::Success(RwHold::Write(write_hold(pass)))
        } else {
            WaitResult::Interrupted
        }
    }

    /// Ends the lock, and answers its word. With the whole pass that is what its holds come to, so no mark stands: 0 where it has none.
    pub fn close(self, pass: RwWriterPass) -> u64
        requires own { IsRwWriterPass self pass }
        ensures exact { IsWhole (part_in pass) → result ≡ word_of (tally_of (pass_in pass)) }
        ensures free { IsAlone pass → result ≡ 0 }
    {
        let RwLockWriterPreference { stage, shows: _ } = self;
        let RwWriterPass { pass } = pass;
        stage.close(pass, LOCK)
    }
}

/// Whenever the rule of a writer-preferring lock holds, no pass has a hold where another has a write hold. Says so of the rule alone,
/// and does nothing.
pub fn no_hold_beside_the_writer()
    ensures { NoHoldBesideTheWriter }
{}

/// Whenever the rule of a writer-preferring lock holds, and no pass has its flag up, as it is between calls, the mark is not set. Says so
/// of the rule alone, and does nothing.
#[tactic(auto, using(crate::proofs::RwWriterKeeps::no_mark))]
pub fn no_mark_without_a_flag()
    ensures { NoMarkWithoutAFlag }
{}

/// Whenever the rule of a writer-preferring lock holds, its passes are the parties of a run of the model, and all together have the holds that
/// stand after it, and were granted as many of each kind as calls were in it. The word is what these come to, and the mark. Says so of the
/// rule alone, and does nothing.
pub fn grants_are_of_a_run()
    ensures { GrantsAreOfARun }
{}
