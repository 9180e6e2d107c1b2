//! What the threads of a test tell each other, and what its closures are told.
#![tactic(auto)]

ghost use Rattle.std.specs.Prelude.{◌<◌};

use std::sync::atomic::{AtomicBool, AtomicU64, Ordering};
use std::thread;

const ORDER: Ordering = Ordering::SeqCst;

/// How often a thread yields to one that it waits for. If that has not come then, the test fails, and ends.
const TURNS: u64 = 1_000_000;

/// A signal that is given once, or not at all.
#[derive(Drop)]
pub struct Signal {
    given: AtomicBool,
}

impl Signal {
    /// A signal that is not given.
    pub fn new() -> Signal {
        Signal {
            given: AtomicBool::new(false),
        }
    }

    /// Gives the signal.
    pub fn give(&self) {
        self.given.store(true, ORDER);
    }

    /// Whether it is given.
    pub fn is_given(&self) -> bool {
        self.given.load(ORDER)
    }

    /// Yields until the signal is given, a million times at most, and tells whether it was.
    pub fn awaited(&self) -> bool {
        for _ in 0..TURNS {
            if self.is_given() {
                return true;
            }
            thread::yield_now();
        }
        false
    }
}

/// A point at which so many threads meet, and may meet again.
#[derive(Drop)]
pub struct Meeting {
    threads: u64,
    came: AtomicU64,
    ghost some: { 0 < threads },
}

impl Meeting {
    /// A meeting of so many threads, to which nobody has come.
    pub fn of(threads: u64) -> Meeting
        requires some { 0 < threads }
    {
        Meeting {
            threads,
            came: AtomicU64::new(0),
        }
    }

    /// Comes, and yields until all have come as often, a million times at most. Tells whether they have.
    pub fn meet(&self) -> bool {
        let before = self.came.fetch_add(1, ORDER);
        let round = before - before % self.threads;
        let all = round.saturating_add(self.threads);
        for _ in 0..TURNS {
            if self.came.load(ORDER) >= all {
                return true;
            }
            thread::yield_now();
        }
        false
    }
}

/// What a wait closure notes of its calls.
#[derive(Drop)]
pub struct Notes {
    calls: AtomicU64,
    held: AtomicU64,
    told: AtomicU64,
}

impl Notes {
    /// Notes of no call.
    pub fn new() -> Notes {
        Notes {
            calls: AtomicU64::new(0),
            held: AtomicU64::new(0),
            told: AtomicU64::new(0),
        }
    }

    /// Notes a call: what the word held that the closure was handed, and what it was told.
    pub fn note(&self, held: u64, told: u64) {
        if self.calls.fetch_add(1, ORDER) == 0 {
            self.held.store(held, ORDER);
            self.told.store(told, ORDER);
        }
    }

    /// How many calls there were, and what the word held and the closure was told at the first.
    pub fn noted(&self) -> (u64, u64, u64) {
        (
            self.calls.load(ORDER),
            self.held.load(ORDER),
            self.told.load(ORDER),
        )
    }
}

/// What the closures of one thread were told: all of it, in the order of their calls.
#[derive(Drop)]
pub struct Gathering {
    closures: AtomicU64,
    told: AtomicU64,
}

impl Gathering {
    /// A gathering of no call.
    pub fn new() -> Gathering {
        Gathering {
            closures: AtomicU64::new(0),
            told: AtomicU64::new(0),
        }
    }

    /// The wait closure was called, and told this.
    pub fn wait(&self, told: u64) {
        self.gather(1, told);
    }

    /// The closure that wakes one was called, and its word held this.
    pub fn wake_one(&self, held: u64) {
        self.gather(2, held);
    }

    /// The closure that wakes all was called, and its word held this.
    pub fn wake_all(&self, held: u64) {
        self.gather(3, held);
    }

    /// The closure that acts was called, and found this.
    pub fn act(&self, found: u64) {
        self.gather(4, found);
    }

    fn gather(&self, closure: u64, told: u64) {
        append(&self.closures, closure);
        append(&self.told, told.min(9));
    }

    /// The closures in the order of their calls, a digit each: 1 waits, 2 wakes one, 3 wakes all, 4 acts. And what they were told, a digit
    /// each too: 9 is 9 or more.
    pub fn gathered(&self) -> (u64, u64) {
        (self.closures.load(ORDER), self.told.load(ORDER))
    }
}

/// One more digit at the end of a number.
fn append(digits: &AtomicU64, digit: u64) {
    let before = digits.load(ORDER);
    digits.store(before.wrapping_mul(10).wrapping_add(digit), ORDER);
}
