//! The mutex, by how one waits; and the kit's.
ghost use Rattle.std.specs.Prelude.{◌≡◌};
ghost use Rattle.model_events.specs.declared.WaitAction.TheVariants as actions;
ghost use Rattle.running_mutex.specs.MutexShown.{IsMutexPass, HasStayed};

use crate::race::Contended;
use crate::work::Work;
use iceoryx2_pal_concurrency_sync::strategy::mutex::{Mutex, MutexPass};
use iceoryx2_pal_concurrency_sync::{
    Sleepers, WaitAction, WaitResult, WaitWord, Watched, wake_nobody, yield_and_go_on,
};
use std::alloc::{AllocError, Global};
use std::sync::Wait;
use std::time::{Clock, Instant};
use std::{io, sync};

/// What the wait and the wake closures do.
pub trait Platform {
    fn new() -> Self;

    fn wait<R: Wait>(&self, rt: &R, word: &WaitWord, seen: &u64) -> WaitAction
        ensures { result ≡ actions.Continue };

    fn wake_one(&self, word: &WaitWord);
}

/// Who waits yields.
#[derive(Drop)]
pub struct Yielding;

impl Platform for Yielding {
    fn new() -> Self {
        Yielding
    }

    #[inline(always)]
    fn wait<R: Wait>(&self, _rt: &R, word: &WaitWord, seen: &u64) -> WaitAction {
        yield_and_go_on(word, seen)
    }

    #[inline(always)]
    fn wake_one(&self, word: &WaitWord) {
        wake_nobody(word);
    }
}

/// Who waits sleeps on the word itself.
#[derive(Drop)]
pub struct OnTheWord;

impl Platform for OnTheWord {
    fn new() -> Self {
        OnTheWord
    }

    #[inline(always)]
    fn wait<R: Wait>(&self, rt: &R, word: &WaitWord, seen: &u64) -> WaitAction {
        word.park(rt, *seen);
        WaitAction::Continue
    }

    #[inline(always)]
    fn wake_one(&self, word: &WaitWord) {
        word.wake_one();
    }
}

/// Who waits sleeps at an event count.
#[derive(Drop)]
pub struct AtSleepers {
    sleepers: Sleepers,
}

impl Platform for AtSleepers {
    fn new() -> Self {
        AtSleepers {
            sleepers: Sleepers::new(),
        }
    }

    #[inline(always)]
    fn wait<R: Wait>(&self, rt: &R, word: &WaitWord, seen: &u64) -> WaitAction {
        self.sleepers.sleep(rt, word, *seen)
    }

    #[inline(always)]
    fn wake_one(&self, _word: &WaitWord) {
        self.sleepers.wake_one();
    }
}

/// A mutex at which one waits so.
#[derive(Drop)]
pub struct Locked<B: Platform + Drop> {
    mutex: Mutex,
    at: B,
}

impl<B: Platform + Drop> Contended<MutexPass> for Locked<B> {
    ghost owns = { λ locked p. IsMutexPass locked.mutex p };

    fn make(alloc: Global) -> Result<(Self, MutexPass), AllocError> {
        let (mutex, pass) = Mutex::new(alloc)?;
        Ok((
            Locked {
                mutex,
                at: B::new(),
            },
            pass,
        ))
    }

    fn part(&self, pass: MutexPass) -> (MutexPass, MutexPass) {
        let Ok(parts) = pass.split(&self.mutex) else {
            unreachable!()
        };
        parts
    }

    #[inline(always)]
    fn operate<R: Wait>(&self, rt: &R, pass: &mut MutexPass, work: &mut Work) {
        work_locked(rt, &self.mutex, pass, &self.at, work);
        work.go();
    }
}

#[inline(always)]
fn work_locked<B: Platform, R: Wait>(
    rt: &R,
    mutex: &Mutex,
    pass: &mut MutexPass,
    at: &B,
    work: &mut Work,
)
    requires own { IsMutexPass mutex.now pass.old }
    ensures stayed { HasStayed pass.old pass.new }
{
    let wait = |word: &WaitWord, seen: &u64| at.wait(rt, word, seen);
    match Mutex::lock(pass, mutex, rt, wait) {
        WaitResult::Success(hold) => {
            work.go();
            mutex.unlock(hold, |word: &WaitWord| at.wake_one(word));
        }
        WaitResult::Interrupted => unreachable!(),
    }
}

/// How many nanoseconds a `lock` takes that meets a holder, from its first try until its wait closure is asked; and one try more.
pub fn nanos_to_a_question<R: Wait + Clock>(rt: &R, alloc: Global) -> io::Result<u128> {
    let (mutex, pass) = Mutex::new(alloc)?;
    let Ok((mut holder, mut other)) = pass.split(&mutex) else {
        unreachable!()
    };
    meet_a_holder(rt, &mutex, &mut holder, &mut other)
}

fn meet_a_holder<R: Wait + Clock>(
    rt: &R,
    mutex: &Mutex,
    holder: &mut MutexPass,
    other: &mut MutexPass,
) -> io::Result<u128>
    requires own { IsMutexPass mutex.now holder.old × IsMutexPass mutex.now other.old }
{
    match Mutex::lock(holder, mutex, rt, yield_and_go_on) {
        WaitResult::Success(hold) => {
            let took = give_up(rt, mutex, other);
            mutex.unlock(hold, wake_nobody);
            took
        }
        WaitResult::Interrupted => unreachable!(),
    }
}

fn give_up<R: Wait + Clock>(rt: &R, mutex: &Mutex, pass: &mut MutexPass) -> io::Result<u128>
    requires own { IsMutexPass mutex.now pass.old }
{
    let start = Instant::now(rt)?;
    match Mutex::lock(pass, mutex, rt, |_: &WaitWord, _: &u64| WaitAction::Abort) {
        WaitResult::Success(hold) => {
            mutex.unlock(hold, wake_nobody);
        }
        WaitResult::Interrupted => {}
    }
    Ok(start.elapsed(rt)?.as_nanos())
}

/// The kit's mutex.
#[derive(Drop)]
pub struct StdLocked {
    number: sync::Mutex<u64>,
}

impl Contended<()> for StdLocked {
    ghost owns = { λ _ _. Unit {0} };

    fn make(_alloc: Global) -> Result<(Self, ()), AllocError> {
        let number = sync::Mutex::new(0);
        Ok((StdLocked { number }, ()))
    }

    fn part(&self, _pass: ()) -> ((), ()) {
        ((), ())
    }

    #[inline(always)]
    fn operate<R: Wait>(&self, rt: &R, _pass: &mut (), work: &mut Work) {
        work_held(rt, &self.number, work);
        work.go();
    }
}

#[inline(always)]
fn work_held<R: Wait>(rt: &R, number: &sync::Mutex<u64>, work: &mut Work) {
    let mut held = number.lock(rt);
    work.go();
    *held = held.wrapping_add(1);
}
