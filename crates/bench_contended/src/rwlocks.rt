//! Locks of readers and writers, of nine reads to a write: the writer-preferring one and the value under it, at which one sleeps; and the
//! kit's.
ghost use Rattle.running_rw_writer.specs.RwWriterShown.{IsRwWriterPass, HasStayed};
ghost use Rattle.running_rw_value.specs.RwValueShown.{IsRwValuePass};

use crate::race::Contended;
use crate::work::Work;
use iceoryx2_pal_concurrency_sync::strategy::rwlock::{RwLockWriterPreference, RwWriterPass};
use iceoryx2_pal_concurrency_sync::{Sleepers, WaitResult, WaitWord};
use running_rw_value::RwLock as RwValue;
use running_rw_writer::RwWriterWord;
use std::alloc::{AllocError, Global};
use std::sync::{RwLock, Wait};

/// Whether the next operation is a write.
#[inline(always)]
fn is_to_write(work: &Work) -> bool {
    work.operations % 10 == 9
}

/// A lock, and where its readers sleep and its writers.
#[derive(Drop)]
pub struct Room {
    lock: RwLockWriterPreference,
    readers: Sleepers,
    writers: Sleepers,
}

impl Contended<RwWriterPass> for Room {
    ghost owns = { λ room p. IsRwWriterPass room.lock p };

    fn make(alloc: Global) -> Result<(Self, RwWriterPass), AllocError> {
        let (lock, pass) = RwLockWriterPreference::new(alloc)?;
        let room = Room {
            lock,
            readers: Sleepers::new(),
            writers: Sleepers::new(),
        };
        Ok((room, pass))
    }

    fn part(&self, pass: RwWriterPass) -> (RwWriterPass, RwWriterPass) {
        let Ok(parts) = pass.split(&self.lock) else {
            unreachable!()
        };
        parts
    }

    #[inline(always)]
    fn operate<R: Wait>(&self, rt: &R, pass: &mut RwWriterPass, work: &mut Work) {
        if is_to_write(work) {
            write(rt, &self.lock, pass, &self.readers, &self.writers, work);
        } else {
            read(rt, &self.lock, pass, &self.readers, &self.writers, work);
        }
        work.go();
    }
}

#[inline(always)]
fn write<R: Wait>(
    rt: &R,
    lock: &RwLockWriterPreference,
    pass: &mut RwWriterPass,
    readers: &Sleepers,
    writers: &Sleepers,
    work: &mut Work,
)
    requires own { IsRwWriterPass lock.now pass.old }
    ensures stayed { HasStayed pass.old pass.new }
{
    match RwLockWriterPreference::write_lock(
        pass,
        lock,
        rt,
        |word: &WaitWord, seen: &u64| writers.sleep(rt, word, *seen),
        |_: &WaitWord| writers.wake_one(),
        |_: &WaitWord| readers.wake_all(),
    ) {
        WaitResult::Success(hold) => {
            work.go();
            lock.unlock(
                hold,
                |_: &WaitWord| writers.wake_one(),
                |_: &WaitWord| readers.wake_all(),
            );
        }
        WaitResult::Interrupted => unreachable!(),
    }
}

#[inline(always)]
fn read<R: Wait>(
    rt: &R,
    lock: &RwLockWriterPreference,
    pass: &mut RwWriterPass,
    readers: &Sleepers,
    writers: &Sleepers,
    work: &mut Work,
)
    requires own { IsRwWriterPass lock.now pass.old }
    ensures stayed { HasStayed pass.old pass.new }
{
    let wait = |word: &WaitWord, seen: &u64| readers.sleep(rt, word, *seen);
    match RwLockWriterPreference::read_lock(pass, lock, rt, wait) {
        WaitResult::Success(hold) => {
            work.go();
            lock.unlock(
                hold,
                |_: &WaitWord| writers.wake_one(),
                |_: &WaitWord| readers.wake_all(),
            );
        }
        WaitResult::Interrupted => unreachable!(),
    }
}

/// A number that many read, and where its readers sleep and its writers.
#[derive(Drop)]
pub struct SharedNumber {
    number: RwValue<u64>,
    readers: Sleepers,
    writers: Sleepers,
}

impl Contended<RwWriterPass> for SharedNumber {
    ghost owns = { λ number p. IsRwValuePass number.number p };

    fn make(alloc: Global) -> Result<(Self, RwWriterPass), AllocError> {
        let readers = Sleepers::new();
        let writers = Sleepers::new();
        match RwValue::new(alloc, 0u64) {
            Ok((number, pass)) => Ok((
                SharedNumber {
                    number,
                    readers,
                    writers,
                },
                pass,
            )),
            Err((error, _)) => Err(error),
        }
    }

    fn part(&self, pass: RwWriterPass) -> (RwWriterPass, RwWriterPass) {
        let Ok(parts) = pass.split(self.number.front()) else {
            unreachable!()
        };
        parts
    }

    #[inline(always)]
    fn operate<R: Wait>(&self, rt: &R, pass: &mut RwWriterPass, work: &mut Work) {
        if is_to_write(work) {
            write_number(rt, self, pass, work);
        } else {
            read_number(rt, self, pass, work);
        }
        work.go();
    }
}

#[inline(always)]
fn write_number<R: Wait>(rt: &R, number: &SharedNumber, pass: &mut RwWriterPass, work: &mut Work)
    requires own { IsRwValuePass number.now.number pass.old }
    ensures stayed { HasStayed pass.old pass.new }
{
    match number.number.with_write(
        rt,
        pass,
        |word: &RwWriterWord, seen: &u64| number.writers.sleep(rt, word, *seen),
        |_: &RwWriterWord| number.writers.wake_one(),
        |_: &RwWriterWord| number.readers.wake_all(),
        |value| {
            work.go();
            *value = value.wrapping_add(1);
        },
    ) {
        WaitResult::Success(()) => {}
        WaitResult::Interrupted => unreachable!(),
    }
}

#[inline(always)]
fn read_number<R: Wait>(rt: &R, number: &SharedNumber, pass: &mut RwWriterPass, work: &mut Work)
    requires own { IsRwValuePass number.now.number pass.old }
    ensures stayed { HasStayed pass.old pass.new }
{
    match number.number.with_read(
        rt,
        pass,
        |word: &RwWriterWord, seen: &u64| number.readers.sleep(rt, word, *seen),
        |_: &RwWriterWord| number.writers.wake_one(),
        |_| work.go(),
    ) {
        WaitResult::Success(()) => {}
        WaitResult::Interrupted => unreachable!(),
    }
}

/// The kit's lock.
#[derive(Drop)]
pub struct StdRoom {
    number: RwLock<u64>,
}

impl Contended<()> for StdRoom {
    ghost owns = { λ _ _. Unit {0} };

    fn make(_alloc: Global) -> Result<(Self, ()), AllocError> {
        let number = RwLock::new(0);
        Ok((StdRoom { number }, ()))
    }

    fn part(&self, _pass: ()) -> ((), ()) {
        ((), ())
    }

    #[inline(always)]
    fn operate<R: Wait>(&self, rt: &R, _pass: &mut (), work: &mut Work) {
        if is_to_write(work) {
            write_std(rt, &self.number, work);
        } else {
            read_std(rt, &self.number, work);
        }
        work.go();
    }
}

#[inline(always)]
fn write_std<R: Wait>(rt: &R, number: &RwLock<u64>, work: &mut Work) {
    let mut held = number.write(rt);
    work.go();
    *held = held.wrapping_add(1);
}

#[inline(always)]
fn read_std<R: Wait>(rt: &R, number: &RwLock<u64>, work: &mut Work) {
    let _held = number.read(rt);
    work.go();
}
