//! How the threads of a crowd wait, and wake each other.

use crate::tally::Tally;
use iceoryx2_pal_concurrency_sync::{Sleepers, WaitAction, Watched};
use std::sync::Wait;
use std::time::{Clock, Duration, Instant};

/// What the wait and the wake closures of those do who wait for one thing.
pub trait Platform {
    fn new() -> Self;

    /// Waits while the word is `seen`. Where only its low half would be compared, a sleep lasts no longer than `most`.
    fn wait<R: Wait + Clock, W: Watched>(
        &self,
        rt: &R,
        tally: &Tally,
        word: &W,
        seen: u64,
        most: Duration,
    ) -> WaitAction;

    fn wake_one<W: Watched>(&self, word: &W);

    fn wake_all<W: Watched>(&self, word: &W);
}

/// Who waits yields, and every third answer is `Abort`.
#[derive(Drop)]
pub struct Impatient;

impl Platform for Impatient {
    fn new() -> Self {
        Impatient
    }

    fn wait<R: Wait + Clock, W: Watched>(
        &self,
        _rt: &R,
        tally: &Tally,
        _word: &W,
        _seen: u64,
        _most: Duration,
    ) -> WaitAction {
        tally.answer()
    }

    fn wake_one<W: Watched>(&self, _word: &W) {}

    fn wake_all<W: Watched>(&self, _word: &W) {}
}

/// Who waits sleeps on the word itself.
#[derive(Drop)]
pub struct OnTheWord;

impl Platform for OnTheWord {
    fn new() -> Self {
        OnTheWord
    }

    fn wait<R: Wait + Clock, W: Watched>(
        &self,
        rt: &R,
        tally: &Tally,
        word: &W,
        seen: u64,
        most: Duration,
    ) -> WaitAction {
        match Instant::now(rt) {
            Ok(start) => {
                word.park_timeout(rt, seen, most);
                tally.woken(rt, start)
            }
            Err(_) => tally.no_clock(),
        }
    }

    fn wake_one<W: Watched>(&self, word: &W) {
        word.wake_one();
    }

    fn wake_all<W: Watched>(&self, word: &W) {
        word.wake_all();
    }
}

/// Who waits sleeps at an event count.
#[derive(Drop)]
pub struct AtSleepers {
    sleepers: Sleepers,
}

impl Platform for AtSleepers {
    fn new() -> Self {
        AtSleepers {
            sleepers: Sleepers::new(),
        }
    }

    fn wait<R: Wait + Clock, W: Watched>(
        &self,
        rt: &R,
        tally: &Tally,
        word: &W,
        seen: u64,
        _most: Duration,
    ) -> WaitAction {
        match Instant::now(rt) {
            Ok(start) => {
                let deadline = start.checked_add(Tally::patience());
                self.sleepers.sleep_until(rt, word, seen, deadline);
                tally.woken(rt, start)
            }
            Err(_) => tally.no_clock(),
        }
    }

    fn wake_one<W: Watched>(&self, _word: &W) {
        self.sleepers.wake_one();
    }

    fn wake_all<W: Watched>(&self, _word: &W) {
        self.sleepers.wake_all();
    }
}

/// Where those wait who are woken one at a time, and where those who are woken together.
#[derive(Drop)]
pub struct Platforms<B: Platform + Drop> {
    pub one: B,
    pub all: B,
}

impl<B: Platform + Drop> Platforms<B> {
    /// Where one waits who is woken alone, or is not.
    pub fn of(&self, is_woken_alone: bool) -> &B {
        if is_woken_alone { &self.one } else { &self.all }
    }
}
