//! Guards of the value, whose end unlocks.
ghost use Rattle.std.specs.Prelude.{◌≡◌, ◌<◌, true, None, IfSome, IsSome, MatchBool};
ghost use Rattle.model_events.specs.declared.hold.HoldKind.TheVariants as kinds;
ghost use Rattle.running_model.specs.Passes.{parties_of};
ghost use Rattle.running_rw_writer.specs.RwWriterParties.{has_hold};
ghost use Rattle.running_rw_writer.specs.RwWriterShown.{pass_in, reads_of, writes_of};
ghost use Rattle.sleeping_rw_value.specs.HandleShown.{IsSleepingPass, PassHas, IsReading, IsWriting, HasComeInToRead, HasComeInToWrite, HasLeftReading, HasLeftWriting, HasReadNow, HasWrittenNow, HasGivenUpReading, HasGivenUpWriting, handle_in, handle_with, reader_of, writer_of, reader_borrow, writer_borrow, reader_value, writer_value};

use crate::{Held, RwValueHandle, SleepingRwValue};
use running_rw_hold::{RwHold, read_hold, write_hold};
use running_rw_writer::RwWriterPass;
use std::alloc::{Allocator, Global};
use std::ops::{Deref, DerefMut};
use std::sync::{RwLockReadGuard, RwLockWriteGuard, Wait};
use std::time::{Clock, Instant};

/// The value is locked for reading, and lent, as other readers lend it. Where the guard's scope ends, also by `?`, `return` or `break`, it
/// is unlocked, and writers that sleep are woken.
#[derive(Drop)]
pub struct Reading<'h, 'v, T, A: Allocator = Global> {
    // Goes back before the lock is let go.
    value: RwLockReadGuard<'v, T>,
    held: Reader<'h, 'v, T, A>,
}

/// The value is locked for writing, and lent. Where the guard's scope ends it is unlocked, and who sleeps is woken.
#[derive(Drop)]
pub struct Writing<'h, 'v, T, A: Allocator = Global> {
    // Goes back before the lock is let go.
    value: RwLockWriteGuard<'v, T>,
    held: Writer<'h, 'v, T, A>,
}

/// What a reader has of the lock in front, whose end unlocks.
pub(crate) struct Reader<'h, 'v, T, A: Allocator> {
    handle: &'h mut RwValueHandle<'v, T, A>,
}

/// So, a writer.
pub(crate) struct Writer<'h, 'v, T, A: Allocator> {
    handle: &'h mut RwValueHandle<'v, T, A>,
}

impl<T, A: Allocator> SleepingRwValue<T, A> {
    #[inline(always)]
    fn leave_reading(&self, pass: &mut RwWriterPass)
        requires own { IsSleepingPass self.now pass.old }
        requires on { 0 < reads_of (pass_in pass.old) }
        requires has { has_hold kinds.Read (parties_of (pass_in pass.old)) ≡ true }
        ensures left { HasLeftReading pass.old pass.new }
    {
        self.value.front().unlock(
            RwHold::Read(read_hold(pass)),
            |_| self.writers.wake_all(),
            |_| (),
        );
    }

    #[inline(always)]
    fn leave_writing(&self, pass: &mut RwWriterPass)
        requires own { IsSleepingPass self.now pass.old }
        requires on { writes_of (pass_in pass.old) ≡ 1 }
        requires has { has_hold kinds.Write (parties_of (pass_in pass.old)) ≡ true }
        ensures left { HasLeftWriting pass.old pass.new }
    {
        self.value.front().unlock(
            RwHold::Write(write_hold(pass)),
            |_| self.writers.wake_all(),
            |_| self.readers.wake_all(),
        );
    }
}

impl<'v, T, A: Allocator> RwValueHandle<'v, T, A> {
    /// Locks the value for reading, asleep until a reader may enter, and lends it. It is unlocked where the guard's scope ends.
    #[inline(always)]
    pub fn read<'h, R: Wait>(&'h mut self, rt: &R) -> Reading<'h, 'v, T, A>
        ensures same_borrow { reader_borrow result ≡ self.entry.ghost_name }
        ensures held { IsReading (reader_of result) }
        ensures entered { PassHas HasComeInToRead self.old (reader_of result) }
    {
        self.held = Held::Nothing;
        let of = self.of;
        let entered = of.value.enter_to_read(
            &mut self.pass,
            rt,
            |word, seen| of.readers.sleep(rt, word, *seen),
        );
        if !entered {
            unreachable!()
        }
        let value = of.value.lend(rt, &self.pass);
        self.held = Held::Reading;
        Reading {
            value,
            held: Reader { handle: self },
        }
    }

    /// The same; `None` where no reader could enter once the deadline had passed.
    #[inline(always)]
    pub fn read_until<'h, R: Wait + Clock>(
        &'h mut self,
        rt: &R,
        deadline: Option<Instant>,
    ) -> Option<Reading<'h, 'v, T, A>>
        ensures held { IfSome result (λ guard. IsReading (reader_of guard)) }
        ensures entered { IfSome result (λ guard. PassHas HasComeInToRead self.old (reader_of guard)) }
        ensures waits { deadline ≡ None → IsSome result }
    {
        self.held = Held::Nothing;
        let of = self.of;
        let entered = of.value.enter_to_read(
            &mut self.pass,
            rt,
            |word, seen| of.readers.sleep_until(rt, word, *seen, deadline),
        );
        if !entered {
            return None;
        }
        let value = of.value.lend(rt, &self.pass);
        self.held = Held::Reading;
        Some(Reading {
            value,
            held: Reader { handle: self },
        })
    }

    /// The same without a wait; `None` where no reader could enter.
    #[inline(always)]
    pub fn try_read<'h, R: Wait>(&'h mut self, rt: &R) -> Option<Reading<'h, 'v, T, A>>
        ensures held { IfSome result (λ guard. IsReading (reader_of guard)) }
        ensures entered { IfSome result (λ guard. PassHas HasReadNow self.old (reader_of guard)) }
    {
        self.held = Held::Nothing;
        let of = self.of;
        if !of.value.try_to_read(&mut self.pass) {
            return None;
        }
        let value = of.value.lend(rt, &self.pass);
        self.held = Held::Reading;
        Some(Reading {
            value,
            held: Reader { handle: self },
        })
    }

    /// Locks the value for writing, asleep until it is free, and lends it. It is unlocked where the guard's scope ends.
    #[inline(always)]
    pub fn write<'h, R: Wait>(&'h mut self, rt: &R) -> Writing<'h, 'v, T, A>
        ensures same_borrow { writer_borrow result ≡ self.entry.ghost_name }
        ensures held { IsWriting (writer_of result) }
        ensures entered { PassHas HasComeInToWrite self.old (writer_of result) }
    {
        self.held = Held::Nothing;
        let of = self.of;
        let entered = of.value.enter_to_write(
            &mut self.pass,
            rt,
            |word, seen| of.writers.sleep(rt, word, *seen),
            |_| of.writers.wake_all(),
            |_| of.readers.wake_all(),
        );
        if !entered {
            unreachable!()
        }
        let value = of.value.lend_mut(rt, &self.pass);
        self.held = Held::Writing;
        Writing {
            value,
            held: Writer { handle: self },
        }
    }

    /// The same; `None` where the value was still locked once the deadline had passed.
    #[inline(always)]
    pub fn write_until<'h, R: Wait + Clock>(
        &'h mut self,
        rt: &R,
        deadline: Option<Instant>,
    ) -> Option<Writing<'h, 'v, T, A>>
        ensures held { IfSome result (λ guard. IsWriting (writer_of guard)) }
        ensures entered { IfSome result (λ guard. PassHas HasComeInToWrite self.old (writer_of guard)) }
        ensures waits { deadline ≡ None → IsSome result }
    {
        self.held = Held::Nothing;
        let of = self.of;
        let entered = of.value.enter_to_write(
            &mut self.pass,
            rt,
            |word, seen| of.writers.sleep_until(rt, word, *seen, deadline),
            |_| of.writers.wake_all(),
            |_| of.readers.wake_all(),
        );
        if !entered {
            return None;
        }
        let value = of.value.lend_mut(rt, &self.pass);
        self.held = Held::Writing;
        Some(Writing {
            value,
            held: Writer { handle: self },
        })
    }

    /// The same without a wait; `None` where the lock was not free.
    #[inline(always)]
    pub fn try_write<'h, R: Wait>(&'h mut self, rt: &R) -> Option<Writing<'h, 'v, T, A>>
        ensures held { IfSome result (λ guard. IsWriting (writer_of guard)) }
        ensures entered { IfSome result (λ guard. PassHas HasWrittenNow self.old (writer_of guard)) }
    {
        self.held = Held::Nothing;
        let of = self.of;
        if !of.value.try_to_write(&mut self.pass) {
            return None;
        }
        let value = of.value.lend_mut(rt, &self.pass);
        self.held = Held::Writing;
        Some(Writing {
            value,
            held: Writer { handle: self },
        })
    }

    #[inline(always)]
    fn end_reading(&mut self)
        ensures left { IsReading self.old → PassHas HasLeftReading self.old self.new }
    {
        if let Held::Reading = self.held {
            self.held = Held::Nothing;
            self.of.leave_reading(&mut self.pass);
        }
    }

    #[inline(always)]
    fn end_writing(&mut self)
        ensures left { IsWriting self.old → PassHas HasLeftWriting self.old self.new }
    {
        if let Held::Writing = self.held {
            self.held = Held::Nothing;
            self.of.leave_writing(&mut self.pass);
        }
    }
}

impl<T, A: Allocator> Deref for Reading<'_, '_, T, A> {
    type Target = T;

    #[inline(always)]
    fn deref(&self) -> &T
        ensures { result.now ≡ reader_value self.now }
    {
        &*self.value
    }
}

impl<T, A: Allocator> Deref for Writing<'_, '_, T, A> {
    type Target = T;

    #[inline(always)]
    fn deref(&self) -> &T
        ensures { result.now ≡ writer_value self.now }
    {
        &*self.value
    }
}

impl<T, A: Allocator> DerefMut for Writing<'_, '_, T, A> {
    #[inline(always)]
    fn deref_mut(&mut self) -> &mut T
        ensures value { result.now ≡ writer_value self.old }
    {
        &mut *self.value
    }
}

impl<T, A: Allocator> Drop for Reader<'_, '_, T, A> {
    #[inline(always)]
    fn drop(self)
        ensures left { IsReading (handle_in self.entry) → PassHas HasLeftReading (handle_in self.entry) self.exit.0.now }
    {
        let Reader { handle } = self;
        handle.end_reading();
    }
}

impl<T, A: Allocator> Drop for Writer<'_, '_, T, A> {
    #[inline(always)]
    fn drop(self)
        ensures left { IsWriting (handle_with self.entry) → PassHas HasLeftWriting (handle_with self.entry) self.exit.0.now }
    {
        let Writer { handle } = self;
        handle.end_writing();
    }
}
