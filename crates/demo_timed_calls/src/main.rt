//! Calls that sleep, and those that give up after a time: a lock, a wait at a condition variable, and a take from a queue of jobs.
#![tactic(auto)]

ghost use Rattle.running_mutex.specs.MutexShown.{IsMutexPass, HasStayed};
ghost use Rattle.running_condvar.specs.CondShown as condvars;
ghost use Rattle.job_queue.specs.QueueShown as queues;

use iceoryx2_pal_concurrency_sync::strategy::condition_variable::{
    CondPass, ConditionVariable, Woken,
};
use iceoryx2_pal_concurrency_sync::strategy::mutex::{Mutex, MutexPass};
use iceoryx2_pal_concurrency_sync::{Sleepers, WaitResult, WaitWord};
use job_queue::{JobQueue, QueuePass, QueueState, QueueWord, Taken};
use std::io;
use std::sync::Wait;
use std::time::{Clock, Duration, Instant};

fn main(rt: HostRuntime) -> io::Result<()> {
    let (mutex, pass) = Mutex::new(rt.alloc())?;
    let sleepers = Sleepers::new();
    let Ok((mut one, mut other)) = pass.split(&mutex) else {
        unreachable!()
    };
    lock_and_unlock(&rt, &mutex, &sleepers, &mut one);
    let locked = lock_beside(&rt, &mutex, &sleepers, &mut one, &mut other)?;
    println!(rt; "beside a holder: {locked}")?;
    let locked = lock_in_time(&rt, &mutex, &sleepers, &mut other)?;
    println!(rt; "at a free mutex: {locked}")?;
    let (condvar, mut cond_pass) = ConditionVariable::new(rt.alloc())?;
    let notified = wait_in_time(&rt, &condvar, &mut cond_pass, &mutex, &sleepers, &mut one)?;
    println!(rt; "notified: {notified}")?;
    let (queue, mut queue_pass) = JobQueue::new(rt.alloc(), 8)?;
    let job = take_in_time(&rt, &queue, &mut queue_pass)?;
    println!(rt; "a job: {}", job.is_some())
}

fn lock_and_unlock<R: Wait>(rt: &R, mutex: &Mutex, sleepers: &Sleepers, pass: &mut MutexPass)
    requires own { IsMutexPass mutex.now pass.old }
    ensures stayed { HasStayed pass.old pass.new }
{
    let wait = |word: &WaitWord, seen: &u64| sleepers.sleep(rt, word, *seen);
    match Mutex::lock(pass, mutex, rt, wait) {
        WaitResult::Success(hold) => {
            mutex.unlock(hold, |_: &WaitWord| sleepers.wake_one());
        }
        WaitResult::Interrupted => unreachable!(),
    }
}

/// Locks and unlocks, and gives up after 10 milliseconds. Whether it came in.
fn lock_in_time<R: Wait + Clock>(
    rt: &R,
    mutex: &Mutex,
    sleepers: &Sleepers,
    pass: &mut MutexPass,
) -> io::Result<bool>
    requires own { IsMutexPass mutex.now pass.old }
    ensures stayed { HasStayed pass.old pass.new }
{
    let deadline = Instant::now(rt)?.checked_add(Duration::from_millis(10));
    let wait = |word: &WaitWord, seen: &u64| sleepers.sleep_until(rt, word, *seen, deadline);
    match Mutex::lock(pass, mutex, rt, wait) {
        WaitResult::Success(hold) => {
            mutex.unlock(hold, |_: &WaitWord| sleepers.wake_one());
            Ok(true)
        }
        WaitResult::Interrupted => Ok(false),
    }
}

/// The same, while another pass has the mutex.
fn lock_beside<R: Wait + Clock>(
    rt: &R,
    mutex: &Mutex,
    sleepers: &Sleepers,
    holder: &mut MutexPass,
    pass: &mut MutexPass,
) -> io::Result<bool>
    requires own { IsMutexPass mutex.now holder.old × IsMutexPass mutex.now pass.old }
    ensures stayed { HasStayed holder.old holder.new × HasStayed pass.old pass.new }
{
    let wait = |word: &WaitWord, seen: &u64| sleepers.sleep(rt, word, *seen);
    match Mutex::lock(holder, mutex, rt, wait) {
        WaitResult::Success(hold) => {
            let locked = lock_in_time(rt, mutex, sleepers, pass);
            mutex.unlock(hold, |_: &WaitWord| sleepers.wake_one());
            locked
        }
        WaitResult::Interrupted => unreachable!(),
    }
}

/// Locks the mutex, and lets it go until a notify comes, for 10 milliseconds at most. Whether one came.
fn wait_in_time<R: Wait + Clock>(
    rt: &R,
    condvar: &ConditionVariable,
    cond_pass: &mut CondPass,
    mutex: &Mutex,
    sleepers: &Sleepers,
    pass: &mut MutexPass,
) -> io::Result<bool>
    requires own { condvars.IsCondPass condvar.now cond_pass.old × IsMutexPass mutex.now pass.old }
    ensures stayed { condvars.HasStayed cond_pass.old cond_pass.new × HasStayed pass.old pass.new }
{
    let deadline = Instant::now(rt)?.checked_add(Duration::from_millis(10));
    let until_notified = Sleepers::new();
    let wait = |word: &WaitWord, seen: &u64| sleepers.sleep(rt, word, *seen);
    let WaitResult::Success(hold) = Mutex::lock(pass, mutex, rt, wait) else {
        unreachable!()
    };
    let woken = ConditionVariable::wait_held(
        hold,
        condvar,
        rt,
        cond_pass,
        mutex,
        |_: &WaitWord| sleepers.wake_one(),
        |word: &WaitWord, seen: &u64| until_notified.sleep_until(rt, word, *seen, deadline),
        |word: &WaitWord, seen: &u64| sleepers.sleep(rt, word, *seen),
    );
    match woken {
        WaitResult::Success(Woken::Signalled(hold)) => {
            mutex.unlock(hold, |_: &WaitWord| sleepers.wake_one());
            Ok(true)
        }
        WaitResult::Success(Woken::Unsignalled(hold)) => {
            mutex.unlock(hold, |_: &WaitWord| sleepers.wake_one());
            Ok(false)
        }
        WaitResult::Interrupted => unreachable!(),
    }
}

/// Takes a job, if one comes within 10 milliseconds.
fn take_in_time<R: Wait + Clock>(
    rt: &R,
    queue: &JobQueue<u64>,
    pass: &mut QueuePass,
) -> io::Result<Option<u64>>
    requires own { queues.IsQueuePass queue.now pass.old }
    ensures stayed { queues.HasStayed pass.old pass.new }
{
    let deadline = Instant::now(rt)?.checked_add(Duration::from_millis(10));
    let sleepers = Sleepers::new();
    let wait = |word: &QueueWord<'_, QueueState<u64>>, seen: &u64| sleepers.sleep_until(
        rt, word, *seen, deadline,
    );
    match queue.take(rt, pass, wait, |_| ()) {
        Taken::Job { ticket: _, job } => Ok(Some(job)),
        Taken::Closed | Taken::Interrupted => Ok(None),
        Taken::Empty => unreachable!(),
    }
}
