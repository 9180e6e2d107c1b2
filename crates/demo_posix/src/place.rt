//! A place for one number, at which threads wait.
use crate::cond::Cond;
use crate::mutex::Thread;
use std::sync::Wait;
use std::sync::atomic::{AtomicU64, Ordering};

/// How many numbers one thread puts, or takes.
const NUMBERS: u64 = 500;

/// The place, and who waits at it. The mutex of its threads guards it.
#[derive(Drop)]
pub struct Place {
    // 0 where there is none.
    number: AtomicU64,
    filled: Cond,
    emptied: Cond,
}

impl Place {
    /// It is empty.
    pub fn new() -> Place {
        Place {
            number: AtomicU64::new(0),
            filled: Cond::new(),
            emptied: Cond::new(),
        }
    }

    /// Puts 1, 2, 3 and so on.
    pub fn put_all<R: Wait>(&self, rt: &R, mut thread: Thread<'_>) {
        for number in 0..NUMBERS {
            let _locked = thread.lock(rt);
            self.wait_while(rt, &mut thread, &self.emptied, |found| found != 0);
            self.number.store(number + 1, Ordering::SeqCst);
            let _unlocked = thread.unlock();
            self.filled.signal();
        }
    }

    /// Takes as many, and adds them up.
    pub fn take_all<R: Wait>(&self, rt: &R, mut thread: Thread<'_>) -> u64 {
        let mut sum = 0u64;
        for _ in 0..NUMBERS {
            let _locked = thread.lock(rt);
            self.wait_while(rt, &mut thread, &self.filled, |found| found == 0);
            sum = sum.wrapping_add(self.number.swap(0, Ordering::SeqCst));
            let _unlocked = thread.unlock();
            self.emptied.signal();
        }
        sum
    }

    /// Waits to be told for as long as the number is so.
    fn wait_while<R: Wait, F: Fn(u64) -> bool>(
        &self,
        rt: &R,
        thread: &mut Thread<'_>,
        cond: &Cond,
        is_so: F,
    )
        requires may { F.IsAlwaysCallable is_so }
    {
        for _ in rt.forever() {
            if !is_so(self.number.load(Ordering::SeqCst)) {
                return;
            }
            let _told = cond.wait(rt, thread);
        }
    }
}
