//! Waits that end at a deadline.
ghost use Rattle.running_mutex.specs.MutexShown.{IsMutexPass, HasStayed};
ghost use Rattle.running_semaphore.specs.SemaphoreShown.{IsSemPass};

use iceoryx2_pal_concurrency_sync::strategy::mutex::{Mutex, MutexPass};
use iceoryx2_pal_concurrency_sync::strategy::semaphore::{SemPass, Semaphore};
use iceoryx2_pal_concurrency_sync::{Sleepers, WaitAction, WaitResult, WaitWord, wake_nobody};
use std::io;
use std::sync::Wait;
use std::sync::atomic::{AtomicU64, Ordering};
use std::test::Fail;
use std::time::{Clock, Duration, Instant};

/// How often it is tried whether a call ends soon after its deadline. Once is enough: on a machine with much else to do most may be late.
const TRIES: u64 = 20;

/// How soon, in milliseconds.
const SOON: u64 = 20;

/// From now to the deadline, in milliseconds: longer than the tries that a call makes before its first question.
const LATER: u64 = 200;

/// How long after its deadline a call ends, that waits at a mutex which stays locked; `None` where it ended before, or came in.
fn late_by<R: Wait + Clock>(
    rt: &R,
    mutex: &Mutex,
    pass: &mut MutexPass,
    deadline: Instant,
) -> io::Result<Option<Duration>>
    requires own { IsMutexPass mutex.now pass.old }
    ensures stayed { HasStayed pass.old pass.new }
{
    let sleepers = Sleepers::new();
    let refused = match Mutex::lock(pass, mutex, rt, |word: &WaitWord, seen: &u64| {
        sleepers.sleep_until(rt, word, *seen, Some(deadline))
    }) {
        WaitResult::Success(hold) => {
            mutex.unlock(hold, wake_nobody);
            false
        }
        WaitResult::Interrupted => true,
    };
    let late = Instant::now(rt)?.checked_duration_since(deadline);
    Ok(late.filter(|_| refused))
}

/// The least of it, of the tries until one ends soon.
fn least_late<R: Wait + Clock>(
    rt: &R,
    mutex: &Mutex,
    pass: &mut MutexPass,
) -> io::Result<Option<Duration>>
    requires own { IsMutexPass mutex.now pass.old }
    ensures stayed { HasStayed pass.old pass.new }
{
    let mut least = Duration::MAX;
    for _ in 0..TRIES {
        let Some(deadline) = Instant::now(rt)?.checked_add(Duration::from_millis(LATER)) else {
            return Ok(None);
        };
        match late_by(rt, mutex, pass, deadline)? {
            Some(late) => least = least.min(late),
            None => return Ok(None),
        }
        if least < Duration::from_millis(SOON) {
            break;
        }
    }
    Ok(Some(least))
}

fn least_late_beside<R: Wait + Clock>(
    rt: &R,
    mutex: &Mutex,
    holder: &mut MutexPass,
    other: &mut MutexPass,
) -> io::Result<Option<Duration>>
    requires own { IsMutexPass mutex.now holder.old × IsMutexPass mutex.now other.old }
{
    match Mutex::try_lock(holder, mutex) {
        WaitResult::Success(hold) => {
            let least = least_late(rt, mutex, other);
            mutex.unlock(hold, wake_nobody);
            least
        }
        WaitResult::Interrupted => Ok(None),
    }
}

#[test]
fn a_call_ends_at_its_deadline_and_not_before(rt: HostRuntime) -> Result<(), Fail> {
    let (mutex, pass) = Mutex::new(rt.alloc())?;
    let Ok((mut one, mut other)) = pass.split(&mutex) else {
        unreachable!()
    };
    let least = least_late_beside(&rt, &mutex, &mut one, &mut other)?;
    assert!(rt;
        least.is_some_and(|late| late < Duration::from_millis(SOON)),
        "{least:?}"
    );
    Ok(())
}

/// A runtime whose clock cannot be read.
#[derive(Drop)]
struct NoClock<R: Wait>(R);

impl<R: Wait> Wait for NoClock<R> {}

impl<R: Wait> Clock for NoClock<R> {
    fn monotonic(&self) -> io::Result<Duration> {
        Err(io::Error::from(io::ErrorKind::Unsupported))
    }

    fn since_1970(&self) -> io::Result<Duration> {
        Err(io::Error::from(io::ErrorKind::Unsupported))
    }
}

/// What a sleep until now answers, once without a clock and once with it.
fn answers<R: Wait + Clock>(
    rt: &R,
    semaphore: &Semaphore,
    pass: &mut SemPass,
    now: Instant,
) -> (u64, u64)
    requires own { IsSemPass semaphore.now pass.old }
{
    let sleepers = Sleepers::new();
    let blind = NoClock(rt);
    let (went_on, gave_up) = (AtomicU64::new(0), AtomicU64::new(0));
    let _interrupted = semaphore.wait(rt, pass, |word: &WaitWord, seen: &u64| {
        if sleepers.sleep_until(&blind, word, *seen, Some(now)) == WaitAction::Continue {
            went_on.fetch_add(1, Ordering::SeqCst);
        }
        let answer = sleepers.sleep_until(rt, word, *seen, Some(now));
        if answer == WaitAction::Abort {
            gave_up.fetch_add(1, Ordering::SeqCst);
        }
        answer
    });
    (
        went_on.load(Ordering::SeqCst),
        gave_up.load(Ordering::SeqCst),
    )
}

#[test]
fn who_cannot_read_the_clock_goes_on(rt: HostRuntime) -> Result<(), Fail> {
    let (semaphore, mut pass) = Semaphore::new(rt.alloc(), 0)?;
    let now = Instant::now(&rt)?;
    assert_eq!(rt; answers(&rt, &semaphore, &mut pass, now), (1, 1));
    Ok(())
}
