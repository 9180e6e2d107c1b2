//! The lock itself.
ghost use Rattle.std.specs.Prelude.{◌≡◌, ◌<◌, ◌^◌, IfOk, IfErr, Some, None, true, false};
ghost use Rattle.std.specs.Borrow.{sem};
ghost use Rattle.model_events.specs.declared.event.Call.TheVariants as calls;
ghost use Rattle.model_events.specs.declared.event.Answer.TheVariants as answers;
ghost use Rattle.model_events.specs.declared.hold.HoldKind.TheVariants as kinds;
ghost use Rattle.running_passes.specs.Answers.{IfSuccess, IfInterrupted, IsSuccess, RestsIfInterrupted, MayAnswerAbort, HasAsked};
ghost use Rattle.running_model.specs.Shown.{object_shown, index_shown};
ghost use Rattle.running_passes.specs.Parts.{IsWhole};
ghost use Rattle.running_passes.specs.Views.{first_view};
ghost use Rattle.running_model.specs.Slots.{no_parties};
ghost use Rattle.running_model.specs.Passes.{played, parties_of};
ghost use Rattle.running_model.specs.Counts.{WasRefused};
ghost use Rattle.running_rw_writer.specs.RwWriter.{nothing_marked};
ghost use Rattle.running_rw_hold.specs.RwShown.{IsReadHold, IsWriteHold, pass_of, borrow_of};
ghost use Rattle.running_rw_writer.specs.contracts.pass.RwWriterPass.{the_row};
ghost use Rattle.running_rw_writer.specs.RwWriterParties.{has_hold};
ghost use Rattle.running_rw_writer.specs.RwWriterSteps.{IsMarked};
ghost use Rattle.running_rw_writer.specs.RwWriterShown.{IsRwWriterPass, IsAlone, IsShut, HasWokenOne, HasWokenBoth, pass_in, known_by, part_in, sights_in, reads_of, writes_of, HasStayed, HasEnteredToRead, HasEnteredToWrite, HasReadAtOnce, HasWrittenAtOnce, HasSeenTaken, WasTurnedAway, HasGivenUpWriting, HasLeftReading, HasLeftWriting, HasPlayed, HasPlayedGivingUp};

use crate::guard::{ReadGuard, WriteGuard, Writing};
use model_events::WaitAction;
use running_passes::WaitResult;
use running_rw_hold::{RwHold, end_read_hold, end_write_hold, read_hold, write_hold};
use running_rw_writer::{RwLockWriterPreference, RwWriterPass, RwWriterWord};
use std::alloc::{AllocError, Allocator, Global};
use std::sync;
use std::sync::{RwLockReadGuard, RwLockWriteGuard, Wait};

/// A lock that guards a value, for many readers or one writer. Where a writer waits no reader enters until it has come in or given up.
#[derive(Drop)]
pub struct RwLock<T, A: Allocator = Global> {
    pub(crate) lock: RwLockWriterPreference<A>,
    pub(crate) value: sync::RwLock<T>,
}

/// The pass that was lent to a hold, which it keeps: a guard that is built with the pass stands for the hold.
#[inline(always)]
fn lent_to<'p>(hold: RwHold<'p, RwWriterPass>) -> &'p mut RwWriterPass
    ensures same_borrow { result.ghost_name ≡ borrow_of hold.entry }
    ensures same_pass { result.now ≡ pass_of hold.entry }
    ensures reads { IsReadHold hold.entry → has_hold kinds.Read (parties_of (pass_in result.now)) ≡ true }
    ensures writes { IsWriteHold hold.entry → has_hold kinds.Write (parties_of (pass_in result.now)) ≡ true }
{
    match hold {
        RwHold::Read(hold) => end_read_hold(hold),
        RwHold::Write(hold) => end_write_hold(hold),
    }
}

impl<T, A: Allocator> RwLock<T, A> {
    ghost use Rattle.running_rw_value.specs.RwValueShown.{IsRwValuePass, HasReadOnce, HasWrittenOnce, Looks, Acts, PlaysUnlock, front_of, reader_pass, reader_borrow, writer_pass, writer_borrow};

    /// A lock that is free and guards this value, and the pass that is whole. `Err` where there was no memory; then nothing was made, and
    /// the value comes back.
    pub fn new(alloc: A, value: T) -> Result<(RwLock<T, A>, RwWriterPass), (AllocError, T)>
        ensures own { IfOk result (λ made. IsRwValuePass made.0 made.1) }
        ensures first { IfOk result (λ made. known_by made.1 ≡ first_view (played no_parties nothing_marked)) }
        ensures refused { IfErr result (λ refused. refused.1 ≡ value) }
    {
        match RwLockWriterPreference::new(alloc) {
            Ok((lock, pass)) => Ok((
                RwLock {
                    lock,
                    value: sync::RwLock::new(value),
                },
                pass,
            )),
            Err(error) => Err((error, value)),
        }
    }

    /// Locks the lock in front for reading, and leaves the hold in the pass, for a handle.
    #[inline(always)]
    pub fn enter_to_read<'t, R: Wait, W: Fn(&RwWriterWord<'t>, &u64) -> WaitAction>(
        &'t self,
        pass: &mut RwWriterPass,
        rt: &R,
        wait: W,
    ) -> bool
        requires own { IsRwValuePass self.now pass.old }
        requires may { W.IsAlwaysCallable wait }
        ensures entered { result ≡ true → HasEnteredToRead (pass_in pass.old) (pass_in pass.new) }
        ensures played { result ≡ true → HasPlayed calls.ReadLock answers.Success (Some kinds.Read) (pass_in pass.old) (pass_in pass.new) }
        ensures has { result ≡ true → has_hold kinds.Read (parties_of (pass_in pass.new)) ≡ true }
        ensures refused { result ≡ false → WasRefused IsShut 10002 (pass_in pass.old) (pass_in pass.new) }
        ensures asked { result ≡ false → IsWhole (part_in pass.old) → HasAsked W.Fn wait IsShut 10001 (pass_in pass.old) (pass_in pass.new) }
        ensures gave_up { result ≡ false → HasPlayed calls.ReadLock answers.Interrupted None (pass_in pass.old) (pass_in pass.new) }
        ensures exact { IsAlone pass.old → result ≡ true }
        ensures aborted { result ≡ false → MayAnswerAbort W.Fn wait IsShut }
    {
        match RwLockWriterPreference::read_lock(pass, &self.lock, rt, wait) {
            WaitResult::Success(hold) => {
                let _pass = lent_to(hold);
                true
            }
            WaitResult::Interrupted => false,
        }
    }

    /// Locks the value for reading, as the lock's `read_lock` does.
    #[inline(always)]
    pub fn read<'p, R: Wait, W: Fn(&RwWriterWord<'p>, &u64) -> WaitAction>(
        pass: &'p mut RwWriterPass,
        this: &'p Self,
        rt: &R,
        wait: W,
    ) -> WaitResult<ReadGuard<'p, T, A>>
        requires own { IsRwValuePass this.now pass.old }
        requires may { W.IsAlwaysCallable wait }
        ensures* refused { sem 𝓛 (RestsIfInterrupted the_row pass.entry reader_borrow result (λ q. WasRefused IsShut 10002 (pass_in pass.old) (pass_in q) × (IsWhole (part_in pass.old) → HasAsked W.Fn wait IsShut 10001 (pass_in pass.old) (pass_in q)) × HasPlayed calls.ReadLock answers.Interrupted None (pass_in pass.old) (pass_in q))) }
        ensures same_borrow { IfSuccess result (λ guard. reader_borrow guard ≡ pass.entry.ghost_name) }
        ensures granted { IfSuccess result (λ guard. HasEnteredToRead (pass_in pass.old) (pass_in (reader_pass guard))) }
        ensures played { IfSuccess result (λ guard. HasPlayed calls.ReadLock answers.Success (Some kinds.Read) (pass_in pass.old) (pass_in (reader_pass guard))) }
        ensures exact { IsAlone pass.old → IsSuccess result }
        ensures aborted { IfInterrupted result (MayAnswerAbort W.Fn wait IsShut) }
    {
        if this.enter_to_read(pass, rt, wait) {
            WaitResult::Success(ReadGuard {
                of: this,
                pass,
                value: this.value.read(rt),
            })
        } else {
            WaitResult::Interrupted
        }
    }

    /// So, for writing.
    #[inline(always)]
    pub fn enter_to_write<
        't,
        R: Wait,
        W: Fn(&RwWriterWord<'t>, &u64) -> WaitAction,
        K: Fn(&RwWriterWord<'t>),
        V: Fn(&RwWriterWord<'t>),
    >(&'t self, pass: &mut RwWriterPass, rt: &R, wait: W, wake_one: K, wake_all: V) -> bool
        requires own { IsRwValuePass self.now pass.old }
        requires may { W.IsAlwaysCallable wait }
        requires may_one { K.IsAlwaysCallable wake_one }
        requires may_all { V.IsAlwaysCallable wake_all }
        ensures entered { result ≡ true → HasEnteredToWrite (pass_in pass.old) (pass_in pass.new) }
        ensures free { result ≡ true → (sights_in pass.new).last < 2 }
        ensures played { result ≡ true → HasPlayed calls.WriteLock answers.Success (Some kinds.Write) (pass_in pass.old) (pass_in pass.new) }
        ensures has { result ≡ true → has_hold kinds.Write (parties_of (pass_in pass.new)) ≡ true }
        ensures refused { result ≡ false → HasGivenUpWriting 10003 (pass_in pass.old) (pass_in pass.new) }
        ensures woke { result ≡ false → IsMarked (sights_in pass.new).last → HasWokenBoth K.Fn V.Fn object_shown index_shown self.now.lock wake_one wake_all }
        ensures gave_up { result ≡ false → HasPlayedGivingUp (HasWokenBoth K.Fn V.Fn object_shown index_shown self.now.lock wake_one wake_all) (pass_in pass.old) (pass_in pass.new) }
        ensures exact { IsAlone pass.old → result ≡ true }
        ensures aborted { result ≡ false → MayAnswerAbort W.Fn wait (λ n. n < 2 ^ 64) }
    {
        match RwLockWriterPreference::write_lock(pass, &self.lock, rt, wait, wake_one, wake_all) {
            WaitResult::Success(hold) => {
                let _pass = lent_to(hold);
                true
            }
            WaitResult::Interrupted => false,
        }
    }

    /// Locks the value for writing, as the lock's `write_lock` does.
    #[inline(always)]
    pub fn write<
        'p,
        R: Wait,
        W: Fn(&RwWriterWord<'p>, &u64) -> WaitAction,
        K: Fn(&RwWriterWord<'p>),
        V: Fn(&RwWriterWord<'p>),
    >(
        pass: &'p mut RwWriterPass,
        this: &'p Self,
        rt: &R,
        wait: W,
        wake_one: K,
        wake_all: V,
    ) -> WaitResult<WriteGuard<'p, T, A>>
        requires own { IsRwValuePass this.now pass.old }
        requires may { W.IsAlwaysCallable wait }
        requires may_one { K.IsAlwaysCallable wake_one }
        requires may_all { V.IsAlwaysCallable wake_all }
        ensures* refused { sem 𝓛 (RestsIfInterrupted the_row pass.entry writer_borrow result (λ q. HasGivenUpWriting 10003 (pass_in pass.old) (pass_in q) × (IsMarked (sights_in q).last → HasWokenBoth K.Fn V.Fn object_shown index_shown this.now.lock wake_one wake_all) × HasPlayedGivingUp (HasWokenBoth K.Fn V.Fn object_shown index_shown this.now.lock wake_one wake_all) (pass_in pass.old) (pass_in q))) }
        ensures same_borrow { IfSuccess result (λ guard. writer_borrow guard ≡ pass.entry.ghost_name) }
        ensures granted { IfSuccess result (λ guard. HasEnteredToWrite (pass_in pass.old) (pass_in (writer_pass guard))) }
        ensures free { IfSuccess result (λ guard. (sights_in (writer_pass guard)).last < 2) }
        ensures played { IfSuccess result (λ guard. HasPlayed calls.WriteLock answers.Success (Some kinds.Write) (pass_in pass.old) (pass_in (writer_pass guard))) }
        ensures exact { IsAlone pass.old → IsSuccess result }
        ensures aborted { IfInterrupted result (MayAnswerAbort W.Fn wait (λ n. n < 2 ^ 64)) }
    {
        if this.enter_to_write(pass, rt, wait, wake_one, wake_all) {
            WaitResult::Success(WriteGuard {
                value: this.value.write(rt),
                held: Writing {
                    of: &this.lock,
                    pass,
                },
            })
        } else {
            WaitResult::Interrupted
        }
    }

    /// So, for reading, where a reader may enter now.
    #[inline(always)]
    pub fn try_to_read(&self, pass: &mut RwWriterPass) -> bool
        requires own { IsRwValuePass self.now pass.old }
        ensures entered { result ≡ true → HasEnteredToRead (pass_in pass.old) (pass_in pass.new) }
        ensures at_once { result ≡ true → HasReadAtOnce (pass_in pass.old) (pass_in pass.new) }
        ensures played { result ≡ true → HasPlayed calls.TryReadLock answers.Success (Some kinds.Read) (pass_in pass.old) (pass_in pass.new) }
        ensures has { result ≡ true → has_hold kinds.Read (parties_of (pass_in pass.new)) ≡ true }
        ensures refused { result ≡ false → WasTurnedAway (pass_in pass.old) (pass_in pass.new) }
        ensures gave_up { result ≡ false → HasPlayed calls.TryReadLock answers.Interrupted None (pass_in pass.old) (pass_in pass.new) }
        ensures exact { IsAlone pass.old → result ≡ true }
    {
        match RwLockWriterPreference::try_read_lock(pass, &self.lock) {
            WaitResult::Success(hold) => {
                let _pass = lent_to(hold);
                true
            }
            WaitResult::Interrupted => false,
        }
    }

    /// Locks the value for reading where a reader enters now, as the lock's `try_read_lock` does.
    #[inline(always)]
    pub fn try_read<'p, R: Wait>(
        pass: &'p mut RwWriterPass,
        this: &'p Self,
        rt: &R,
    ) -> WaitResult<ReadGuard<'p, T, A>>
        requires own { IsRwValuePass this.now pass.old }
        ensures* refused { sem 𝓛 (RestsIfInterrupted the_row pass.entry reader_borrow result (λ q. WasTurnedAway (pass_in pass.old) (pass_in q) × HasPlayed calls.TryReadLock answers.Interrupted None (pass_in pass.old) (pass_in q))) }
        ensures same_borrow { IfSuccess result (λ guard. reader_borrow guard ≡ pass.entry.ghost_name) }
        ensures granted { IfSuccess result (λ guard. HasEnteredToRead (pass_in pass.old) (pass_in (reader_pass guard))) }
        ensures at_once { IfSuccess result (λ guard. HasReadAtOnce (pass_in pass.old) (pass_in (reader_pass guard))) }
        ensures played { IfSuccess result (λ guard. HasPlayed calls.TryReadLock answers.Success (Some kinds.Read) (pass_in pass.old) (pass_in (reader_pass guard))) }
        ensures exact { IsAlone pass.old → IsSuccess result }
    {
        if this.try_to_read(pass) {
            WaitResult::Success(ReadGuard {
                of: this,
                pass,
                value: this.value.read(rt),
            })
        } else {
            WaitResult::Interrupted
        }
    }

    /// So, for writing, where the lock is free and unmarked now.
    #[inline(always)]
    pub fn try_to_write(&self, pass: &mut RwWriterPass) -> bool
        requires own { IsRwValuePass self.now pass.old }
        ensures entered { result ≡ true → HasEnteredToWrite (pass_in pass.old) (pass_in pass.new) }
        ensures at_once { result ≡ true → HasWrittenAtOnce (pass_in pass.old) (pass_in pass.new) }
        ensures played { result ≡ true → HasPlayed calls.TryWriteLock answers.Success (Some kinds.Write) (pass_in pass.old) (pass_in pass.new) }
        ensures has { result ≡ true → has_hold kinds.Write (parties_of (pass_in pass.new)) ≡ true }
        ensures refused { result ≡ false → HasSeenTaken (pass_in pass.old) (pass_in pass.new) }
        ensures gave_up { result ≡ false → HasPlayed calls.TryWriteLock answers.Interrupted None (pass_in pass.old) (pass_in pass.new) }
        ensures exact { IsAlone pass.old → result ≡ true }
    {
        match RwLockWriterPreference::try_write_lock(pass, &self.lock) {
            WaitResult::Success(hold) => {
                let _pass = lent_to(hold);
                true
            }
            WaitResult::Interrupted => false,
        }
    }

    /// Locks the value for writing where the lock is free and unmarked now, as the lock's `try_write_lock` does.
    #[inline(always)]
    pub fn try_write<'p, R: Wait>(
        pass: &'p mut RwWriterPass,
        this: &'p Self,
        rt: &R,
    ) -> WaitResult<WriteGuard<'p, T, A>>
        requires own { IsRwValuePass this.now pass.old }
        ensures* refused { sem 𝓛 (RestsIfInterrupted the_row pass.entry writer_borrow result (λ q. HasSeenTaken (pass_in pass.old) (pass_in q) × HasPlayed calls.TryWriteLock answers.Interrupted None (pass_in pass.old) (pass_in q))) }
        ensures same_borrow { IfSuccess result (λ guard. writer_borrow guard ≡ pass.entry.ghost_name) }
        ensures granted { IfSuccess result (λ guard. HasEnteredToWrite (pass_in pass.old) (pass_in (writer_pass guard))) }
        ensures at_once { IfSuccess result (λ guard. HasWrittenAtOnce (pass_in pass.old) (pass_in (writer_pass guard))) }
        ensures played { IfSuccess result (λ guard. HasPlayed calls.TryWriteLock answers.Success (Some kinds.Write) (pass_in pass.old) (pass_in (writer_pass guard))) }
        ensures exact { IsAlone pass.old → IsSuccess result }
    {
        if this.try_to_write(pass) {
            WaitResult::Success(WriteGuard {
                value: this.value.write(rt),
                held: Writing {
                    of: &this.lock,
                    pass,
                },
            })
        } else {
            WaitResult::Interrupted
        }
    }

    /// Locks the value as `read` does, calls `act` with it, and unlocks as `unlock_read` does. `Interrupted` where `read` is; then `act`
    /// was not called. It borrows nothing, so it serves a method of a struct that owns the value and its pass.
    #[inline(always)]
    pub fn with_read<
        't,
        X,
        R: Wait,
        W: Fn(&RwWriterWord<'t>, &u64) -> WaitAction,
        K: Fn(&RwWriterWord<'t>),
        F: FnOnce(&T) -> X,
    >(&'t self, rt: &R, pass: &mut RwWriterPass, wait: W, wake_one: K, act: F) -> WaitResult<X>
        requires own { IsRwValuePass self.now pass.old }
        requires may { W.IsAlwaysCallable wait × K.IsAlwaysCallable wake_one × F.IsAlwaysCallable act }
        ensures stayed { HasStayed pass.old pass.new }
        ensures read { IfSuccess result (λ _. HasReadOnce pass.old pass.new) }
        ensures refused { IfInterrupted result (WasRefused IsShut 10002 (pass_in pass.old) (pass_in pass.new)) }
        ensures gave_up { IfInterrupted result (HasPlayed calls.ReadLock answers.Interrupted None (pass_in pass.old) (pass_in pass.new)) }
        ensures exact { IsAlone pass.old → IsSuccess result }
        ensures acted { IfSuccess result (λ x. Looks F.FnOnce act x) }
        ensures aborted { IfInterrupted result (MayAnswerAbort W.Fn wait IsShut) }
        ensures woke { IfSuccess result (λ _. (sights_in pass.new).last ≡ 3 → HasWokenOne K.Fn object_shown index_shown self.now.lock wake_one) }
    {
        let entered = self.enter_to_read(pass, rt, wait);
        if !entered {
            return WaitResult::Interrupted;
        }
        let value = self.value.read(rt);
        let given = act(&*value);
        drop(value);
        self.lock
            .unlock(RwHold::Read(read_hold(pass)), wake_one, nobody);
        WaitResult::Success(given)
    }

    /// Locks the value as `write` does, calls `act` with it, and unlocks as `unlock_write` does. `Interrupted` where `write` is; then
    /// `act` was not called. It borrows nothing.
    #[inline(always)]
    pub fn with_write<
        't,
        X,
        R: Wait,
        W: Fn(&RwWriterWord<'t>, &u64) -> WaitAction,
        K: Fn(&RwWriterWord<'t>),
        V: Fn(&RwWriterWord<'t>),
        F: FnOnce(&mut T) -> X,
    >(
        &'t self,
        rt: &R,
        pass: &mut RwWriterPass,
        wait: W,
        wake_one: K,
        wake_all: V,
        act: F,
    ) -> WaitResult<X>
        requires own { IsRwValuePass self.now pass.old }
        requires may { W.IsAlwaysCallable wait × K.IsAlwaysCallable wake_one × V.IsAlwaysCallable wake_all × F.IsAlwaysCallable act }
        ensures stayed { HasStayed pass.old pass.new }
        ensures written { IfSuccess result (λ _. HasWrittenOnce pass.old pass.new) }
        ensures refused { IfInterrupted result (HasGivenUpWriting 10003 (pass_in pass.old) (pass_in pass.new)) }
        ensures gave_up { IfInterrupted result (HasPlayedGivingUp (HasWokenBoth K.Fn V.Fn object_shown index_shown self.now.lock wake_one wake_all) (pass_in pass.old) (pass_in pass.new)) }
        ensures exact { IsAlone pass.old → IsSuccess result }
        ensures acted { IfSuccess result (λ x. Acts F.FnOnce act x) }
        ensures aborted { IfInterrupted result (MayAnswerAbort W.Fn wait (λ n. n < 2 ^ 64)) }
        ensures woke { IfSuccess result (λ _. HasWokenBoth K.Fn V.Fn object_shown index_shown self.now.lock wake_one wake_all) }
        ensures woke_giving_up { IfInterrupted result (IsMarked (sights_in pass.new).last → HasWokenBoth K.Fn V.Fn object_shown index_shown self.now.lock wake_one wake_all) }
    {
        let entered = self.enter_to_write(
            pass,
            rt,
            wait,
            |word| -> ()
                requires { K.IsAlwaysCallable wake_one }
                ensures { K.post wake_one word.entry result }
            { wake_one(word) },
            |word| -> ()
                requires { V.IsAlwaysCallable wake_all }
                ensures { V.post wake_all word.entry result }
            { wake_all(word) },
        );
        if !entered {
            return WaitResult::Interrupted;
        }
        let mut value = self.value.write(rt);
        let given = act(&mut *value);
        drop(value);
        self.lock
            .unlock(RwHold::Write(write_hold(pass)), wake_one, wake_all);
        WaitResult::Success(given)
    }

    /// Gives the value back, and then unlocks as the lock's `unlock` does with a read hold. Gives the pass back.
    #[inline(always)]
    pub fn unlock_read<'p, K: Fn(&RwWriterWord<'p>)>(
        guard: ReadGuard<'p, T, A>,
        wake_one: K,
    ) -> &'p mut RwWriterPass
        requires may { K.IsAlwaysCallable wake_one }
        ensures same_borrow { result.ghost_name ≡ reader_borrow guard.entry }
        ensures released { HasLeftReading (pass_in (reader_pass guard.entry)) (pass_in result.now) }
        ensures played { PlaysUnlock kinds.Read (reader_pass guard.entry) result.now }
        ensures woke { (sights_in result.now).last ≡ 3 → HasWokenOne K.Fn object_shown index_shown guard.entry.of.now.lock wake_one }
    {
        let ReadGuard { of, pass, value } = guard;
        drop(value);
        of.lock
            .unlock(RwHold::Read(read_hold(pass)), wake_one, nobody)
    }

    /// Gives the value back, and then unlocks as the lock's `unlock` does with the write hold. Gives the pass back.
    #[inline(always)]
    pub fn unlock_write<'p, K: Fn(&RwWriterWord<'p>), V: Fn(&RwWriterWord<'p>)>(
        guard: WriteGuard<'p, T, A>,
        wake_one: K,
        wake_all: V,
    ) -> &'p mut RwWriterPass
        requires may_one { K.IsAlwaysCallable wake_one }
        requires may_all { V.IsAlwaysCallable wake_all }
        ensures same_borrow { result.ghost_name ≡ writer_borrow guard.entry }
        ensures released { HasLeftWriting (pass_in (writer_pass guard.entry)) (pass_in result.now) }
        ensures played { PlaysUnlock kinds.Write (writer_pass guard.entry) result.now }
        ensures woke { HasWokenBoth K.Fn V.Fn object_shown index_shown guard.entry.held.of.now wake_one wake_all }
    {
        let WriteGuard { value, held } = guard;
        let Writing { of, pass } = held;
        drop(value);
        of.unlock(RwHold::Write(write_hold(pass)), wake_one, wake_all)
    }

    /// The value, for a handle whose pass has a read hold.
    #[inline(always)]
    pub fn lend<R: Wait>(&self, rt: &R, pass: &RwWriterPass) -> RwLockReadGuard<'_, T>
        requires own { IsRwValuePass self.now pass.now }
        requires on { 0 < reads_of (pass_in pass.now) }
        requires has { has_hold kinds.Read (parties_of (pass_in pass.now)) ≡ true }
    {
        let _pass = pass;
        self.value.read(rt)
    }

    /// The value, for a handle whose pass has the write hold.
    #[inline(always)]
    pub fn lend_mut<R: Wait>(&self, rt: &R, pass: &RwWriterPass) -> RwLockWriteGuard<'_, T>
        requires own { IsRwValuePass self.now pass.now }
        requires on { writes_of (pass_in pass.now) ≡ 1 }
        requires has { has_hold kinds.Write (parties_of (pass_in pass.now)) ≡ true }
    {
        let _pass = pass;
        self.value.write(rt)
    }

    /// The lock in front, at which passes are split and joined. Who locks it by its own calls has no way to the value.
    #[inline(always)]
    pub fn front(&self) -> &RwLockWriterPreference<A>
        ensures { result.now ≡ front_of self.now }
    {
        &self.lock
    }

    /// Ends the lock, and gives the value. Any pass of it will do: nobody has a guard, since a guard borrows the lock.
    pub fn into_inner(self, pass: RwWriterPass) -> T
        requires own { IsRwValuePass self pass }
    {
        let RwLock { lock, value } = self;
        lock.close(pass);
        value.into_inner()
    }
}

/// Nobody is to be woken: a reader that leaves wakes no readers.
#[inline(always)]
fn nobody(_word: &RwWriterWord) {}
