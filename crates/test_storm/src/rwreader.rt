//! A storm at the reader-preferring lock: four writers and four readers.
ghost use Rattle.std.specs.Prelude.{◌≡◌, Some};
ghost use Rattle.running_rw_reader.specs.RwReaderShown.{IsRwReaderPass, IsAlone, HasStayed};

use crate::crowd::{Means, Object};
use crate::platform::Platform;
use crate::tally::Tally;
use iceoryx2_pal_concurrency_sync::strategy::rwlock::{RwLockReaderPreference, RwReaderPass};
use iceoryx2_pal_concurrency_sync::{WaitAction, WaitResult, WaitWord};
use std::alloc::{AllocError, Global};
use std::sync::Wait;
use std::time::Clock;

impl Object<RwReaderPass> for RwLockReaderPreference {
    const WOKEN_ALONE: u64 = 0;

    fn make(alloc: Global) -> Result<(Self, RwReaderPass), AllocError> {
        RwLockReaderPreference::new(alloc)
    }

    /// The first four write, and the others read.
    fn turn<
        R: Wait + Clock,
        B: Platform + Drop,
        W: Fn(&WaitWord, &u64) -> WaitAction + Copy,
        K: Fn(&WaitWord) + Copy,
        V: Fn(&WaitWord) + Copy,
    >(&self, rt: &R, pass: &mut RwReaderPass, number: u64, _turn: u64, by: &Means<B, W, K, V>) {
        if number < 4 {
            write(rt, self, pass, by);
        } else {
            read(rt, self, pass, by);
        }
    }

    /// With the whole pass, which has no hold, its word is 0.
    fn end<R: Wait + Clock>(self, _rt: &R, pass: RwReaderPass, tally: &Tally) -> (u64, Option<u64>)
        requires own { IsRwReaderPass self pass }
        requires alone { IsAlone pass }
        ensures free { result.1 ≡ Some 0 }
    {
        (tally.lost(), Some(self.close(pass)))
    }
}

fn write<
    R: Wait,
    B: Platform + Drop,
    W: Fn(&WaitWord, &u64) -> WaitAction + Copy,
    K: Fn(&WaitWord) + Copy,
    V: Fn(&WaitWord) + Copy,
>(rt: &R, lock: &RwLockReaderPreference, pass: &mut RwReaderPass, by: &Means<B, W, K, V>)
    requires own { IsRwReaderPass lock.now pass.old }
    requires may { W.IsAlwaysCallable by.now.wait × V.IsAlwaysCallable by.now.wake_all }
    ensures stayed { HasStayed pass.old pass.new }
{
    match RwLockReaderPreference::write_lock(pass, lock, rt, by.wait) {
        WaitResult::Success(hold) => {
            by.tally.change();
            lock.unlock(hold, by.wake_all);
        }
        WaitResult::Interrupted => {}
    }
}

fn read<
    R: Wait,
    B: Platform + Drop,
    W: Fn(&WaitWord, &u64) -> WaitAction + Copy,
    K: Fn(&WaitWord) + Copy,
    V: Fn(&WaitWord) + Copy,
>(rt: &R, lock: &RwLockReaderPreference, pass: &mut RwReaderPass, by: &Means<B, W, K, V>)
    requires own { IsRwReaderPass lock.now pass.old }
    requires may { W.IsAlwaysCallable by.now.wait × V.IsAlwaysCallable by.now.wake_all }
    ensures stayed { HasStayed pass.old pass.new }
{
    match RwLockReaderPreference::read_lock(pass, lock, rt, by.wait) {
        WaitResult::Success(hold) => {
            by.tally.look();
            lock.unlock(hold, by.wake_all);
        }
        WaitResult::Interrupted => {}
    }
}
