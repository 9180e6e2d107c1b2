//! A storm at a semaphore of 3.

use crate::crowd::{Means, Object};
use crate::platform::Platform;
use crate::tally::Tally;
use iceoryx2_pal_concurrency_sync::strategy::semaphore::{SemPass, Semaphore};
use iceoryx2_pal_concurrency_sync::{WaitAction, WaitResult, WaitWord};
use std::alloc::{AllocError, Global};
use std::sync::Wait;
use std::time::Clock;

const PERMITS: u64 = 3;

impl Object<SemPass> for Semaphore {
    const WOKEN_ALONE: u64 = 8;

    fn make(alloc: Global) -> Result<(Self, SemPass), AllocError> {
        Semaphore::new(alloc, PERMITS)
    }

    fn turn<
        R: Wait + Clock,
        B: Platform + Drop,
        W: Fn(&WaitWord, &u64) -> WaitAction + Copy,
        K: Fn(&WaitWord) + Copy,
        V: Fn(&WaitWord) + Copy,
    >(&self, rt: &R, pass: &mut SemPass, _number: u64, _turn: u64, by: &Means<B, W, K, V>) {
        match self.wait(rt, pass, by.wait) {
            WaitResult::Success(()) => {
                by.tally.enter(PERMITS);
                by.tally.leave();
                self.post(pass, by.wake_one, 1);
            }
            WaitResult::Interrupted => {}
        }
    }

    fn end<R: Wait + Clock>(self, _rt: &R, pass: SemPass, _tally: &Tally) -> (u64, Option<u64>) {
        (0, Some(self.close(pass)))
    }
}
