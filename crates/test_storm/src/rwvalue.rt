//! A storm at a value that many read: four write, and four read. Half of them act within a call, and half with a guard.
ghost use Rattle.running_rw_writer.specs.RwWriterShown.{HasStayed};
ghost use Rattle.running_rw_value.specs.RwValueShown.{IsRwValuePass};

use crate::crowd::{Means, Object};
use crate::platform::Platform;
use crate::tally::Tally;
use iceoryx2_pal_concurrency_sync::strategy::rwlock::RwWriterPass;
use iceoryx2_pal_concurrency_sync::{WaitAction, WaitResult, WaitWord};
use running_rw_value::RwLock;
use running_rw_writer::RwWriterWord;
use std::alloc::{AllocError, Global};
use std::sync::Wait;
use std::time::Clock;

impl Object<RwWriterPass> for RwLock<u64> {
    const WOKEN_ALONE: u64 = 4;

    fn make(alloc: Global) -> Result<(Self, RwWriterPass), AllocError> {
        match RwLock::new(alloc, 0u64) {
            Ok(made) => Ok(made),
            Err((error, _)) => Err(error),
        }
    }

    /// The first four write, and the others read.
    fn turn<
        R: Wait + Clock,
        B: Platform + Drop,
        W: Fn(&WaitWord, &u64) -> WaitAction + Copy,
        K: Fn(&WaitWord) + Copy,
        V: Fn(&WaitWord) + Copy,
    >(&self, rt: &R, pass: &mut RwWriterPass, number: u64, _turn: u64, by: &Means<B, W, K, V>) {
        let (tally, at) = (by.tally, by.at);
        let own = at.of(number < Self::WOKEN_ALONE);
        let by = Means {
            tally,
            at,
            wait: |word: &RwWriterWord, seen: &u64| {
                own.wait(rt, tally, word, *seen, Tally::patience())
            },
            wake_one: |word: &RwWriterWord| at.one.wake_one(word),
            wake_all: |word: &RwWriterWord| at.all.wake_all(word),
        };
        match number {
            0 | 1 => write_within(rt, self, pass, &by),
            2 | 3 => write_with_guard(rt, self, pass, &by),
            4 | 5 => read_within(rt, self, pass, &by),
            _ => read_with_guard(rt, self, pass, &by),
        }
    }

    /// Each change was made to the value too.
    fn end<R: Wait + Clock>(
        self,
        _rt: &R,
        pass: RwWriterPass,
        tally: &Tally,
    ) -> (u64, Option<u64>) {
        tally.look_beside(self.into_inner(pass));
        (tally.lost(), None)
    }
}

/// Changes the value and both numbers of the tally together.
fn change(value: &mut u64, tally: &Tally) {
    tally.change();
    *value = value.wrapping_add(1);
}

fn write_within<
    R: Wait,
    B: Platform + Drop,
    W: Fn(&RwWriterWord, &u64) -> WaitAction + Copy,
    K: Fn(&RwWriterWord) + Copy,
    V: Fn(&RwWriterWord) + Copy,
>(rt: &R, lock: &RwLock<u64>, pass: &mut RwWriterPass, by: &Means<B, W, K, V>)
    requires own { IsRwValuePass lock.now pass.old }
    requires may { W.IsAlwaysCallable by.now.wait × K.IsAlwaysCallable by.now.wake_one × V.IsAlwaysCallable by.now.wake_all }
    ensures stayed { HasStayed pass.old pass.new }
{
    let _written = lock.with_write(
        rt,
        pass,
        by.wait,
        by.wake_one,
        by.wake_all,
        |value| change(value, by.tally),
    );
}

fn write_with_guard<
    R: Wait,
    B: Platform + Drop,
    W: Fn(&RwWriterWord, &u64) -> WaitAction + Copy,
    K: Fn(&RwWriterWord) + Copy,
    V: Fn(&RwWriterWord) + Copy,
>(rt: &R, lock: &RwLock<u64>, pass: &mut RwWriterPass, by: &Means<B, W, K, V>)
    requires own { IsRwValuePass lock.now pass.old }
    requires may { W.IsAlwaysCallable by.now.wait × K.IsAlwaysCallable by.now.wake_one × V.IsAlwaysCallable by.now.wake_all }
    ensures stayed { HasStayed pass.old pass.new }
{
    match RwLock::write(pass, lock, rt, by.wait, by.wake_one, by.wake_all) {
        WaitResult::Success(mut guard) => {
            guard.change(|value| change(value, by.tally));
            RwLock::unlock_write(guard, by.wake_one, by.wake_all);
        }
        WaitResult::Interrupted => {}
    }
}

fn read_within<
    R: Wait,
    B: Platform + Drop,
    W: Fn(&RwWriterWord, &u64) -> WaitAction + Copy,
    K: Fn(&RwWriterWord) + Copy,
    V: Fn(&RwWriterWord) + Copy,
>(rt: &R, lock: &RwLock<u64>, pass: &mut RwWriterPass, by: &Means<B, W, K, V>)
    requires own { IsRwValuePass lock.now pass.old }
    requires may { W.IsAlwaysCallable by.now.wait × K.IsAlwaysCallable by.now.wake_one }
    ensures stayed { HasStayed pass.old pass.new }
{
    let _read = lock.with_read(
        rt,
        pass,
        by.wait,
        by.wake_one,
        |value| by.tally.look_beside(*value),
    );
}

fn read_with_guard<
    R: Wait,
    B: Platform + Drop,
    W: Fn(&RwWriterWord, &u64) -> WaitAction + Copy,
    K: Fn(&RwWriterWord) + Copy,
    V: Fn(&RwWriterWord) + Copy,
>(rt: &R, lock: &RwLock<u64>, pass: &mut RwWriterPass, by: &Means<B, W, K, V>)
    requires own { IsRwValuePass lock.now pass.old }
    requires may { W.IsAlwaysCallable by.now.wait × K.IsAlwaysCallable by.now.wake_one }
    ensures stayed { HasStayed pass.old pass.new }
{
    match RwLock::read(pass, lock, rt, by.wait) {
        WaitResult::Success(guard) => {
            by.tally.look_beside(*guard);
            RwLock::unlock_read(guard, by.wake_one);
        }
        WaitResult::Interrupted => {}
    }
}
