//! Guards of the lock, whose end unlocks.
ghost use Rattle.std.specs.Prelude.{◌≡◌, true, false, Some, None, IfSome, IsSome, MatchBool};
ghost use Rattle.model_events.specs.declared.event.Answer.TheVariants as answers;
ghost use Rattle.model_events.specs.declared.hold.HoldKind.TheVariants as kinds;
ghost use Rattle.running_model.specs.Counts.{WasRefused};
ghost use Rattle.running_model.specs.Passes.{parties_of};
ghost use Rattle.running_passes.specs.Answers.{MayAnswerAbort};
ghost use Rattle.running_rw_hold.specs.RwShown.{IsReadHold, IsWriteHold, pass_of, borrow_of};
ghost use Rattle.running_rw_reader.specs.RwReaderParties.{has_hold};
ghost use Rattle.running_rw_reader.specs.RwReaderShown.{HasPlayed};
ghost use Rattle.sleeping_rw_reader.specs.Kinds.{Holds, HasEntered, Refuses, lock_of};
ghost use Rattle.sleeping_rw_reader.specs.HandleShown.{IsSleepingPass, PassHas, HasComeIn, HasComeInAtOnce, HasLetGo, HasGivenUp, WasTurnedAway, IsReading, IsWriting, reader_of, writer_of, reader_borrow, writer_borrow};

use crate::{Held, RwReaderHandle, SleepingRwReader};
use model_events::WaitAction;
use running_passes::WaitResult;
use running_rw_hold::{RwHold, end_read_hold, end_write_hold, read_hold, write_hold};
use running_rw_reader::{RwLockReaderPreference, RwReaderPass, RwReaderWord};
use std::alloc::{Allocator, Global};
use std::sync::Wait;
use std::time::{Clock, Instant};

/// The lock is locked for reading, as it may be by others. Where the guard's scope ends, also by `?`, `return` or `break`, it is unlocked,
/// and all that sleep are woken.
pub struct Reading<'h, 'l, A: Allocator = Global> {
    handle: &'h mut RwReaderHandle<'l, A>,
}

/// The lock is locked for writing, alone. Where the guard's scope ends it is unlocked, and all that sleep are woken.
pub struct Writing<'h, 'l, A: Allocator = Global> {
    handle: &'h mut RwReaderHandle<'l, A>,
}

/// The pass that was lent to a hold, which it keeps.
#[inline(always)]
fn kept_in<'p>(hold: RwHold<'p, RwReaderPass>) -> &'p mut RwReaderPass
    ensures same_borrow { result.ghost_name ≡ borrow_of hold.entry }
    ensures same_pass { result.now ≡ pass_of hold.entry }
    ensures reads { IsReadHold hold.entry → has_hold kinds.Read (parties_of result.now) ≡ true }
    ensures writes { IsWriteHold hold.entry → has_hold kinds.Write (parties_of result.now) ≡ true }
{
    match hold {
        RwHold::Read(hold) => end_read_hold(hold),
        RwHold::Write(hold) => end_write_hold(hold),
    }
}

/// What a layer of your own is made of: calls that leave the hold in the pass, and so borrow nothing.
impl<A: Allocator> SleepingRwReader<A> {
    /// Locks for reading, asleep until no writer is in. It stays so until `leave_reading`, by the same pass.
    #[inline(always)]
    pub fn enter_to_read<R: Wait>(&self, rt: &R, pass: &mut RwReaderPass)
        requires own { IsSleepingPass self.now pass.old }
        ensures entered { HasComeIn kinds.Read pass.old pass.new }
        ensures has { Holds kinds.Read pass.new }
    {
        let sleepers = &self.sleepers;
        if !self.come_to_read(rt, pass, |word, seen| sleepers.sleep(rt, word, *seen)) {
            unreachable!()
        }
    }

    /// The same, and whether it did: not, where it was still refused once the deadline had passed.
    #[inline(always)]
    pub fn enter_to_read_until<R: Wait + Clock>(
        &self,
        rt: &R,
        pass: &mut RwReaderPass,
        deadline: Option<Instant>,
    ) -> bool
        requires own { IsSleepingPass self.now pass.old }
        ensures entered { MatchBool result (HasComeIn kinds.Read pass.old pass.new) (HasGivenUp kinds.Read pass.old pass.new) }
        ensures has { result ≡ true → Holds kinds.Read pass.new }
        ensures waits { deadline ≡ None → result ≡ true }
    {
        let sleepers = &self.sleepers;
        self.come_to_read(
            rt,
            pass,
            |word, seen| sleepers.sleep_until(rt, word, *seen, deadline),
        )
    }

    /// What a call does that waits for reading by this closure, and whether it was granted.
    #[inline(always)]
    fn come_to_read<'t, R: Wait, W: Fn(&RwReaderWord<'t>, &u64) -> WaitAction>(
        &'t self,
        rt: &R,
        pass: &mut RwReaderPass,
        wait: W,
    ) -> bool
        requires own { IsSleepingPass self.now pass.old }
        requires may { W.IsAlwaysCallable wait }
        ensures entered { result ≡ true → HasEntered kinds.Read pass.old pass.new }
        ensures came { result ≡ true → HasPlayed (lock_of kinds.Read) answers.Success (Some kinds.Read) pass.old pass.new }
        ensures has { result ≡ true → has_hold kinds.Read (parties_of pass.new) ≡ true }
        ensures refused { result ≡ false → WasRefused (Refuses kinds.Read) 10002 pass.old pass.new }
        ensures played { result ≡ false → HasPlayed (lock_of kinds.Read) answers.Interrupted None pass.old pass.new }
        ensures aborted { result ≡ false → MayAnswerAbort W.Fn wait (Refuses kinds.Read) }
    {
        match RwLockReaderPreference::read_lock(pass, &self.lock, rt, wait) {
            WaitResult::Success(hold) => {
                let _pass = kept_in(hold);
                true
            }
            WaitResult::Interrupted => false,
        }
    }

    /// Locks for reading without a wait, and whether it did: not, where it was refused now.
    #[inline(always)]
    pub fn try_to_read(&self, pass: &mut RwReaderPass) -> bool
        requires own { IsSleepingPass self.now pass.old }
        ensures entered { MatchBool result (HasComeInAtOnce kinds.Read pass.old pass.new) (WasTurnedAway kinds.Read pass.old pass.new) }
        ensures has { result ≡ true → Holds kinds.Read pass.new }
    {
        match RwLockReaderPreference::try_read_lock(pass, &self.lock) {
            WaitResult::Success(hold) => {
                let _pass = kept_in(hold);
                true
            }
            WaitResult::Interrupted => false,
        }
    }

    /// Unlocks, by a pass that has it locked for reading, and wakes all that sleep.
    #[inline(always)]
    pub fn leave_reading(&self, pass: &mut RwReaderPass)
        requires own { IsSleepingPass self.now pass.old }
        requires has { Holds kinds.Read pass.old }
        ensures let_go { HasLetGo kinds.Read pass.old pass.new }
    {
        let hold = RwHold::Read(read_hold(pass));
        self.lock.unlock(hold, |_| self.sleepers.wake_all());
    }

    /// Locks for writing, asleep until nobody else is in. It stays so until `leave_writing`, by the same pass.
    #[inline(always)]
    pub fn enter_to_write<R: Wait>(&self, rt: &R, pass: &mut RwReaderPass)
        requires own { IsSleepingPass self.now pass.old }
        ensures entered { HasComeIn kinds.Write pass.old pass.new }
        ensures has { Holds kinds.Write pass.new }
    {
        let sleepers = &self.sleepers;
        if !self.come_to_write(rt, pass, |word, seen| sleepers.sleep(rt, word, *seen)) {
            unreachable!()
        }
    }

    /// The same, and whether it did: not, where it was still refused once the deadline had passed.
    #[inline(always)]
    pub fn enter_to_write_until<R: Wait + Clock>(
        &self,
        rt: &R,
        pass: &mut RwReaderPass,
        deadline: Option<Instant>,
    ) -> bool
        requires own { IsSleepingPass self.now pass.old }
        ensures entered { MatchBool result (HasComeIn kinds.Write pass.old pass.new) (HasGivenUp kinds.Write pass.old pass.new) }
        ensures has { result ≡ true → Holds kinds.Write pass.new }
        ensures waits { deadline ≡ None → result ≡ true }
    {
        let sleepers = &self.sleepers;
        self.come_to_write(
            rt,
            pass,
            |word, seen| sleepers.sleep_until(rt, word, *seen, deadline),
        )
    }

    /// What a call does that waits for writing by this closure, and whether it was granted.
    #[inline(always)]
    fn come_to_write<'t, R: Wait, W: Fn(&RwReaderWord<'t>, &u64) -> WaitAction>(
        &'t self,
        rt: &R,
        pass: &mut RwReaderPass,
        wait: W,
    ) -> bool
        requires own { IsSleepingPass self.now pass.old }
        requires may { W.IsAlwaysCallable wait }
        ensures entered { result ≡ true → HasEntered kinds.Write pass.old pass.new }
        ensures came { result ≡ true → HasPlayed (lock_of kinds.Write) answers.Success (Some kinds.Write) pass.old pass.new }
        ensures has { result ≡ true → has_hold kinds.Write (parties_of pass.new) ≡ true }
        ensures refused { result ≡ false → WasRefused (Refuses kinds.Write) 10002 pass.old pass.new }
        ensures played { result ≡ false → HasPlayed (lock_of kinds.Write) answers.Interrupted None pass.old pass.new }
        ensures aborted { result ≡ false → MayAnswerAbort W.Fn wait (Refuses kinds.Write) }
    {
        match RwLockReaderPreference::write_lock(pass, &self.lock, rt, wait) {
            WaitResult::Success(hold) => {
                let _pass = kept_in(hold);
                true
            }
            WaitResult::Interrupted => false,
        }
    }

    /// Locks for writing without a wait, and whether it did: not, where it was refused now.
    #[inline(always)]
    pub fn try_to_write(&self, pass: &mut RwReaderPass) -> bool
        requires own { IsSleepingPass self.now pass.old }
        ensures entered { MatchBool result (HasComeInAtOnce kinds.Write pass.old pass.new) (WasTurnedAway kinds.Write pass.old pass.new) }
        ensures has { result ≡ true → Holds kinds.Write pass.new }
    {
        match RwLockReaderPreference::try_write_lock(pass, &self.lock) {
            WaitResult::Success(hold) => {
                let _pass = kept_in(hold);
                true
            }
            WaitResult::Interrupted => false,
        }
    }

    /// Unlocks, by a pass that has it locked for writing, and wakes all that sleep.
    #[inline(always)]
    pub fn leave_writing(&self, pass: &mut RwReaderPass)
        requires own { IsSleepingPass self.now pass.old }
        requires has { Holds kinds.Write pass.old }
        ensures let_go { HasLetGo kinds.Write pass.old pass.new }
    {
        let hold = RwHold::Write(write_hold(pass));
        self.lock.unlock(hold, |_| self.sleepers.wake_all());
    }
}

impl<'l, A: Allocator> RwReaderHandle<'l, A> {
    /// Locks for reading, asleep until no writer is in. It is unlocked where the guard's scope ends.
    #[inline(always)]
    pub fn read<'h, R: Wait>(&'h mut self, rt: &R) -> Reading<'h, 'l, A>
        ensures same_borrow { reader_borrow result ≡ self.entry.ghost_name }
        ensures held { IsReading (reader_of result) }
        ensures entered { PassHas (HasComeIn kinds.Read) self.old (reader_of result) }
    {
        self.held = Held::Nothing;
        self.of.enter_to_read(rt, &mut self.pass);
        self.held = Held::Reading;
        Reading { handle: self }
    }

    /// The same; `None` where a writer was still in once the deadline had passed.
    #[inline(always)]
    pub fn read_until<'h, R: Wait + Clock>(
        &'h mut self,
        rt: &R,
        deadline: Option<Instant>,
    ) -> Option<Reading<'h, 'l, A>>
        ensures held { IfSome result (λ guard. IsReading (reader_of guard)) }
        ensures entered { IfSome result (λ guard. PassHas (HasComeIn kinds.Read) self.old (reader_of guard)) }
        ensures waits { deadline ≡ None → IsSome result }
    {
        self.held = Held::Nothing;
        let of = self.of;
        if !of.enter_to_read_until(rt, &mut self.pass, deadline) {
            return None;
        }
        self.held = Held::Reading;
        Some(Reading { handle: self })
    }

    /// The same without a wait; `None` where a writer was in, or another reader came or left just then.
    #[inline(always)]
    pub fn try_read<'h>(&'h mut self) -> Option<Reading<'h, 'l, A>>
        ensures held { IfSome result (λ guard. IsReading (reader_of guard)) }
        ensures entered { IfSome result (λ guard. PassHas (HasComeInAtOnce kinds.Read) self.old (reader_of guard)) }
    {
        self.held = Held::Nothing;
        let of = self.of;
        if !of.try_to_read(&mut self.pass) {
            return None;
        }
        self.held = Held::Reading;
        Some(Reading { handle: self })
    }

    #[inline(always)]
    fn end_reading(&mut self)
        ensures let_go { IsReading self.old → PassHas (HasLetGo kinds.Read) self.old self.new }
    {
        if let Held::Reading = self.held {
            self.held = Held::Nothing;
            self.of.leave_reading(&mut self.pass);
        }
    }

    /// Locks for writing, asleep until nobody else is in. It is unlocked where the guard's scope ends.
    #[inline(always)]
    pub fn write<'h, R: Wait>(&'h mut self, rt: &R) -> Writing<'h, 'l, A>
        ensures same_borrow { writer_borrow result ≡ self.entry.ghost_name }
        ensures held { IsWriting (writer_of result) }
        ensures entered { PassHas (HasComeIn kinds.Write) self.old (writer_of result) }
    {
        self.held = Held::Nothing;
        self.of.enter_to_write(rt, &mut self.pass);
        self.held = Held::Writing;
        Writing { handle: self }
    }

    /// The same; `None` where somebody was still in once the deadline had passed.
    #[inline(always)]
    pub fn write_until<'h, R: Wait + Clock>(
        &'h mut self,
        rt: &R,
        deadline: Option<Instant>,
    ) -> Option<Writing<'h, 'l, A>>
        ensures held { IfSome result (λ guard. IsWriting (writer_of guard)) }
        ensures entered { IfSome result (λ guard. PassHas (HasComeIn kinds.Write) self.old (writer_of guard)) }
        ensures waits { deadline ≡ None → IsSome result }
    {
        self.held = Held::Nothing;
        let of = self.of;
        if !of.enter_to_write_until(rt, &mut self.pass, deadline) {
            return None;
        }
        self.held = Held::Writing;
        Some(Writing { handle: self })
    }

    /// The same without a wait; `None` where somebody was in.
    #[inline(always)]
    pub fn try_write<'h>(&'h mut self) -> Option<Writing<'h, 'l, A>>
        ensures held { IfSome result (λ guard. IsWriting (writer_of guard)) }
        ensures entered { IfSome result (λ guard. PassHas (HasComeInAtOnce kinds.Write) self.old (writer_of guard)) }
    {
        self.held = Held::Nothing;
        let of = self.of;
        if !of.try_to_write(&mut self.pass) {
            return None;
        }
        self.held = Held::Writing;
        Some(Writing { handle: self })
    }

    #[inline(always)]
    fn end_writing(&mut self)
        ensures let_go { IsWriting self.old → PassHas (HasLetGo kinds.Write) self.old self.new }
    {
        if let Held::Writing = self.held {
            self.held = Held::Nothing;
            self.of.leave_writing(&mut self.pass);
        }
    }
}

impl<A: Allocator> Drop for Reading<'_, '_, A> {
    #[inline(always)]
    fn drop(self)
        ensures let_go { IsReading (reader_of self.entry) → PassHas (HasLetGo kinds.Read) (reader_of self.entry) self.exit.0.now }
    {
        let Reading { handle } = self;
        handle.end_reading();
    }
}

impl<A: Allocator> Drop for Writing<'_, '_, A> {
    #[inline(always)]
    fn drop(self)
        ensures let_go { IsWriting (writer_of self.entry) → PassHas (HasLetGo kinds.Write) (writer_of self.entry) self.exit.0.now }
    {
        let Writing { handle } = self;
        handle.end_writing();
    }
}
