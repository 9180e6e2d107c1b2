//! Work that takes a while, and touches nothing that another thread does.

use std::io;
use std::time::{Clock, Instant};

/// How many steps are timed at once.
const STEPS: u64 = 1_000_000;

/// What one thread does, inside a critical section and outside.
#[derive(Drop)]
pub struct Work {
    /// How many steps it goes at a time.
    steps: u64,
    state: u64,
    /// How many operations were made.
    pub operations: u64,
}

impl Work {
    pub fn new(steps: u64) -> Work {
        Work {
            steps,
            state: 1,
            operations: 0,
        }
    }

    /// Goes its steps. Each wants the one before, so that no compiler leaves one out.
    #[inline(always)]
    pub fn go(&mut self) {
        let mut state = self.state;
        for _ in 0..self.steps {
            state = next(state);
        }
        self.state = state;
    }

    /// What its steps came to, which has to be used.
    pub fn state(&self) -> u64 {
        self.state
    }

    /// Whether its steps came to 0, from which none leads on. They never do.
    fn is_stuck(&self) -> bool {
        self.state == 0
    }
}

/// A step: Marsaglia's xorshift.
#[inline(always)]
fn next(state: u64) -> u64 {
    let once = state ^ (state << 13);
    let twice = once ^ (once >> 7);
    twice ^ (twice << 17)
}

/// How many steps take a microsecond, as the fastest of ten times tells.
pub fn steps_in_a_microsecond(clock: &impl Clock) -> io::Result<u64> {
    let mut work = Work::new(STEPS);
    let mut least = u128::MAX;
    for _ in 0..10u64 {
        let start = Instant::now(clock)?;
        work.go();
        least = least.min(start.elapsed(clock)?.as_nanos());
    }
    if work.is_stuck() {
        return Ok(0);
    }
    let steps = u128::from(STEPS) * 1000 / least.max(1);
    Ok(u64::try_from(steps).unwrap_or(STEPS))
}
