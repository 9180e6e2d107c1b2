//! A wait with a deadline, which a notify meets: whichever comes first, no permit is lost.
ghost use Rattle.running_mutex.specs.MutexShown.{IsMutexPass, HasStayed};
ghost use Rattle.running_condvar.specs.CondShown as conds;
ghost use Rattle.running_condvar.specs.CondShown.{IsCondPass};

use iceoryx2_pal_concurrency_sync::strategy::condition_variable::{
    CondPass, ConditionVariable, Woken,
};
use iceoryx2_pal_concurrency_sync::strategy::mutex::{Mutex, MutexPass};
use iceoryx2_pal_concurrency_sync::{Sleepers, WaitResult, WaitWord, wake_nobody, yield_and_go_on};
use std::sync::Wait;
use std::sync::atomic::{AtomicU64, Ordering};
use std::test::Fail;
use std::thread;
use std::time::{Clock, Duration, Instant};
use test_signal::Meeting;

const ROUNDS: u64 = 100;

/// Waits until the deadline at most. Whether it took a permit; `None` where it came by no mutex.
fn wait_until<R: Wait + Clock>(
    rt: &R,
    condvar: &ConditionVariable,
    pass: &mut CondPass,
    mutex: &Mutex,
    mtx_pass: &mut MutexPass,
    sleepers: &Sleepers,
    deadline: Option<Instant>,
) -> Option<bool>
    requires own { IsCondPass condvar.now pass.old × IsMutexPass mutex.now mtx_pass.old }
    ensures stayed { conds.HasStayed pass.old pass.new × HasStayed mtx_pass.old mtx_pass.new }
{
    let WaitResult::Success(hold) = Mutex::try_lock(mtx_pass, mutex) else {
        return None;
    };
    let woken = ConditionVariable::wait_held(
        hold,
        condvar,
        rt,
        pass,
        mutex,
        wake_nobody,
        |word: &WaitWord, seen: &u64| sleepers.sleep_until(rt, word, *seen, deadline),
        yield_and_go_on,
    );
    match woken {
        WaitResult::Success(Woken::Signalled(hold)) => {
            mutex.unlock(hold, wake_nobody);
            Some(true)
        }
        WaitResult::Success(Woken::Unsignalled(hold)) => {
            mutex.unlock(hold, wake_nobody);
            Some(false)
        }
        WaitResult::Interrupted => None,
    }
}

/// What the two threads tell each other.
#[derive(Drop)]
struct Told {
    meeting: Meeting,
    sleepers: Sleepers,
    /// How many permits there were, right after the notify.
    seen: AtomicU64,
    faults: AtomicU64,
}

impl Told {
    fn meet(&self) {
        if !self.meeting.meet() {
            self.fail();
        }
    }

    fn fail(&self) {
        self.faults.fetch_add(1, Ordering::SeqCst);
    }
}

/// Waits, round by round, until about the time of the notify. What was not taken has to be there afterwards, and is taken then.
fn wait_often<R: Wait + Clock>(
    rt: &R,
    condvar: &ConditionVariable,
    mut pass: CondPass,
    mutex: &Mutex,
    mut mtx_pass: MutexPass,
    told: &Told,
)
    requires own { IsCondPass condvar.now pass × IsMutexPass mutex.now mtx_pass }
{
    for _ in 0..ROUNDS {
        told.meet();
        let Ok(start) = Instant::now(rt) else {
            return told.fail();
        };
        let deadline = start.checked_add(Duration::from_millis(2));
        let took = wait_until(
            rt,
            condvar,
            &mut pass,
            mutex,
            &mut mtx_pass,
            &told.sleepers,
            deadline,
        );
        told.meet();
        // The deadline has passed, so this takes what is there, and waits for nothing.
        let left = wait_until(
            rt,
            condvar,
            &mut pass,
            mutex,
            &mut mtx_pass,
            &told.sleepers,
            deadline,
        );
        let seen = told.seen.load(Ordering::SeqCst);
        let right = match took {
            Some(true) => left == Some(false),
            Some(false) => left == Some(seen == 1),
            None => false,
        };
        if !right {
            told.fail();
        }
    }
}

/// Notifies, round by round, at about the deadline of the other.
fn notify_often<R: Wait + Clock>(
    rt: &R,
    condvar: &ConditionVariable,
    mut pass: CondPass,
    told: &Told,
)
    requires own { IsCondPass condvar.now pass }
{
    for _ in 0..ROUNDS {
        told.meet();
        thread::sleep(rt, Duration::from_millis(2));
        condvar.notify_one(&mut pass, |word: &WaitWord| {
            told.seen.store(word.load(), Ordering::SeqCst);
            told.sleepers.wake_one();
        });
        told.meet();
    }
}

#[test]
fn a_notify_at_the_deadline_is_not_lost(rt: HostRuntime) -> Result<(), Fail> {
    let (mutex, mtx_pass) = Mutex::new(rt.alloc())?;
    let (condvar, pass) = ConditionVariable::new(rt.alloc())?;
    let Ok((one, other)) = pass.split(&condvar) else {
        unreachable!()
    };
    let told = Told {
        meeting: Meeting::of(2),
        sleepers: Sleepers::new(),
        seen: AtomicU64::new(0),
        faults: AtomicU64::new(0),
    };
    thread::join(
        &rt,
        || wait_often(&rt, &condvar, one, &mutex, mtx_pass, &told),
        || notify_often(&rt, &condvar, other, &told),
    );
    assert_eq!(rt; told.faults.load(Ordering::SeqCst), 0);
    Ok(())
}
