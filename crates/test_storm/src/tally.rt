//! What a crowd counts beside its object, and what a storm came to.

use iceoryx2_pal_concurrency_sync::WaitAction;
use std::sync::atomic::{AtomicU64, Ordering};
use std::time::{Clock, Duration, Instant};
use std::{fmt, thread};

const ORDER: Ordering = Ordering::SeqCst;

/// How often one that is inside yields to those that come, at most.
const STAY: u64 = 100;

/// What a storm came to.
#[derive(Clone, Copy)]
pub struct Outcome {
    /// Of which object.
    pub name: &'static str,
    /// How its callers waited.
    pub how: &'static str,
    /// How many calls were made.
    pub calls: u64,
    /// How often something was seen that cannot be, or was lost.
    pub faults: u64,
    /// The word of the object at the end, where it has a `close`.
    pub word: Option<u64>,
}

impl fmt::Display for Outcome {
    fn fmt<W: fmt::Write>(&self, f: &mut fmt::Formatter<W>) -> fmt::Result {
        let Outcome {
            name,
            how,
            calls,
            faults,
            word,
        } = self;
        match word {
            Some(word) => write!(
                f,
                "{name}, {how}: {calls} calls, {faults} faults, word {word}"
            ),
            None => write!(f, "{name}, {how}: {calls} calls, {faults} faults"),
        }
    }
}

/// How many turns each of the crowd has, and what it counts.
#[derive(Drop)]
pub struct Tally {
    pub turns: u64,
    /// How many of the crowd have come.
    came: AtomicU64,
    /// How often a wait closure was asked.
    asked: AtomicU64,
    /// Two numbers that one who holds a lock changes together, each by a load and a store.
    one: AtomicU64,
    other: AtomicU64,
    /// How often they were changed, or how often one arrived.
    changes: AtomicU64,
    /// How many are inside.
    inside: AtomicU64,
    /// How often something was seen that cannot be.
    torn: AtomicU64,
}

impl Tally {
    pub fn new(turns: u64) -> Tally {
        Tally {
            turns,
            came: AtomicU64::new(0),
            asked: AtomicU64::new(0),
            one: AtomicU64::new(0),
            other: AtomicU64::new(0),
            changes: AtomicU64::new(0),
            inside: AtomicU64::new(0),
            torn: AtomicU64::new(0),
        }
    }

    /// The number of one of the crowd, who asks once: 0, 1, and so on.
    pub fn number(&self) -> u64 {
        self.came.fetch_add(1, ORDER)
    }

    /// The answer of a wait closure: every third is `Abort`. So no call waits for ever, even where a wake is lost.
    pub fn answer(&self) -> WaitAction {
        thread::yield_now();
        if self.asked.fetch_add(1, ORDER) % 3 == 2 {
            WaitAction::Abort
        } else {
            WaitAction::Continue
        }
    }

    /// How long a sleep may last. In a storm somebody is woken all the time, also on a machine that has much else to do: who sleeps so
    /// long has lost its wake.
    pub fn patience() -> Duration {
        Duration::from_secs(10)
    }

    /// A sleep that began then is over: whether the call goes on. One that lost its wake gives up, so that the storm ends.
    pub fn woken(&self, clock: &impl Clock, start: Instant) -> WaitAction {
        match start.elapsed(clock) {
            Ok(slept) if slept < Tally::patience() => WaitAction::Continue,
            Ok(_) => {
                self.saw_torn();
                WaitAction::Abort
            }
            Err(_) => self.no_clock(),
        }
    }

    /// The clock cannot be read, so nothing tells a wake that is lost.
    pub fn no_clock(&self) -> WaitAction {
        self.saw_torn();
        WaitAction::Abort
    }

    /// One of two has put in this turn. Whether both have no more turns.
    pub fn is_last_put(&self, turn: u64) -> bool {
        turn.wrapping_add(1) == self.turns && self.changes.fetch_add(1, ORDER) == 1
    }

    /// Something was seen that cannot be.
    fn saw_torn(&self) {
        self.torn.fetch_add(1, ORDER);
    }

    /// Looks at both numbers, by one who holds the lock.
    pub fn look(&self) {
        let one = self.one.load(ORDER);
        thread::yield_now();
        if self.other.load(ORDER) != one {
            self.saw_torn();
        }
    }

    /// Looks at both numbers and at a third that is changed with them, by one who holds the lock.
    pub fn look_beside(&self, third: u64) {
        self.look();
        if self.one.load(ORDER) != third {
            self.saw_torn();
        }
    }

    /// Changes both, by one who holds the lock alone.
    pub fn change(&self) {
        self.look();
        add_one(&self.one);
        thread::yield_now();
        add_one(&self.other);
        self.changes.fetch_add(1, ORDER);
    }

    /// How many changes were lost.
    pub fn lost(&self) -> u64 {
        self.changes.load(ORDER).abs_diff(self.one.load(ORDER))
    }

    /// One comes in, where so many may be.
    pub fn enter(&self, most: u64) {
        if self.inside.fetch_add(1, ORDER) >= most {
            self.saw_torn();
        }
        self.await_others(most);
    }

    /// Stays a while, until so many are inside, so that they meet.
    fn await_others(&self, most: u64) {
        for _ in 0..STAY {
            if self.inside.load(ORDER) >= most {
                return;
            }
            thread::yield_now();
        }
    }

    /// It lets one more in beside it, if it may come, and leaves.
    pub fn leave(&self) {
        thread::yield_now();
        self.inside.fetch_sub(1, ORDER);
    }

    /// One arrives at a round for four.
    pub fn arrive(&self) {
        self.changes.fetch_add(1, ORDER);
    }

    /// One leaves that round: all four have arrived.
    pub fn depart(&self, round: u64) {
        let all = round.wrapping_add(1).wrapping_mul(4);
        if self.changes.load(ORDER) < all {
            self.saw_torn();
        }
    }

    /// So much was put in.
    pub fn put(&self, amount: u64) {
        self.one.fetch_add(amount, ORDER);
    }

    /// So much was taken out.
    pub fn take(&self, amount: u64) {
        self.other.fetch_add(amount, ORDER);
    }

    /// What was put in and not taken out.
    pub fn rest(&self) -> u64 {
        self.one.load(ORDER).wrapping_sub(self.other.load(ORDER))
    }

    /// The outcome of the storm: what was torn, and what was lost.
    pub fn outcome(
        &self,
        name: &'static str,
        how: &'static str,
        crowd: usize,
        lost: u64,
        word: Option<u64>,
    ) -> Outcome {
        Outcome {
            name,
            how,
            calls: self.turns.saturating_mul(crowd as u64),
            faults: self.torn.load(ORDER).saturating_add(lost),
            word,
        }
    }
}

/// Adds 1 in two steps, so that only a lock keeps what others add.
fn add_one(number: &AtomicU64) {
    let found = number.load(ORDER);
    number.store(found.wrapping_add(1), ORDER);
}
