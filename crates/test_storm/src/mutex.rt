//! A storm at a mutex.

use crate::crowd::{Means, Object};
use crate::platform::Platform;
use crate::tally::Tally;
use iceoryx2_pal_concurrency_sync::strategy::mutex::{Mutex, MutexPass};
use iceoryx2_pal_concurrency_sync::{WaitAction, WaitResult, WaitWord};
use std::alloc::{AllocError, Global};
use std::sync::Wait;
use std::time::Clock;

impl Object<MutexPass> for Mutex {
    const WOKEN_ALONE: u64 = 8;

    fn make(alloc: Global) -> Result<(Self, MutexPass), AllocError> {
        Mutex::new(alloc)
    }

    fn turn<
        R: Wait + Clock,
        B: Platform + Drop,
        W: Fn(&WaitWord, &u64) -> WaitAction + Copy,
        K: Fn(&WaitWord) + Copy,
        V: Fn(&WaitWord) + Copy,
    >(&self, rt: &R, pass: &mut MutexPass, _number: u64, _turn: u64, by: &Means<B, W, K, V>) {
        match Mutex::lock(pass, self, rt, by.wait) {
            WaitResult::Success(hold) => {
                by.tally.change();
                self.unlock(hold, by.wake_one);
            }
            WaitResult::Interrupted => {}
        }
    }

    fn end<R: Wait + Clock>(self, _rt: &R, _pass: MutexPass, tally: &Tally) -> (u64, Option<u64>) {
        (tally.lost(), None)
    }
}
