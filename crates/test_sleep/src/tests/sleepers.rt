//! Two sleep at a condition variable, and one is notified: the other sleeps on.
ghost use Rattle.running_mutex.specs.MutexShown.{IsMutexPass};
ghost use Rattle.running_condvar.specs.CondShown.{IsCondPass};

use super::condition_variable::{in_two_parts, wait_once};
use iceoryx2_pal_concurrency_sync::strategy::condition_variable::{CondPass, ConditionVariable};
use iceoryx2_pal_concurrency_sync::strategy::mutex::{Mutex, MutexPass};
use iceoryx2_pal_concurrency_sync::{WaitAction, wake_nobody};
use std::sync::Wait;
use std::test::Fail;
use std::thread;
use std::thread::Threads;
use test_signal::Signal;

/// What the threads tell each other: that each of the two sleeps, that one was notified, and that nobody is to sleep any more.
#[derive(Drop)]
struct Told {
    begin: Signal,
    first_sleeps: Signal,
    second_sleeps: Signal,
    notified: Signal,
    stop: Signal,
}

/// Sleeps, once it may begin, until it is notified or told to stop. Whether it took a permit, where it has the mutex.
fn sleep<R: Wait>(
    rt: &R,
    cond: &ConditionVariable,
    mut pass: CondPass,
    mutex: &Mutex,
    mut mtx_pass: MutexPass,
    told: &Told,
    begin: &Signal,
    sleeps: &Signal,
) -> Option<bool>
    requires own { IsCondPass cond.now pass × IsMutexPass mutex.now mtx_pass }
{
    if !begin.awaited() {
        return None;
    }
    let took = wait_once(
        rt,
        cond,
        &mut pass,
        mutex,
        &mut mtx_pass,
        |_| (),
        |_, _| {
            sleeps.give();
            thread::yield_now();
            if told.stop.is_given() {
                WaitAction::Abort
            } else {
                WaitAction::Continue
            }
        },
        super::give_up,
    )?;
    if took {
        told.notified.give();
    }
    Some(took)
}

/// Notifies one of two that sleep, gives the other time, and stops it. Whether both slept and one was notified.
fn notify_one_of_two(cond: &ConditionVariable, mut pass: CondPass, told: &Told) -> bool
    requires own { IsCondPass cond.now pass }
{
    let slept = told.first_sleeps.awaited() && told.second_sleeps.awaited();
    cond.notify_one(&mut pass, wake_nobody);
    let notified = told.notified.awaited();
    for _ in 0..1000u64 {
        thread::yield_now();
    }
    told.stop.give();
    slept && notified
}

/// What each of the two took. The second begins once the first sleeps, so that it finds the mutex free.
fn sleep_in_two_threads<R: Threads + Wait + Sync>(
    rt: &R,
    cond: &ConditionVariable,
    pass: CondPass,
    mutex: &Mutex,
    mtx_pass: MutexPass,
    told: &Told,
) -> (Option<bool>, Option<bool>)
    requires own { IsCondPass cond.now pass × IsMutexPass mutex.now mtx_pass }
{
    let Ok((one, two)) = pass.split(cond) else {
        unreachable!()
    };
    let Ok((mtx_one, mtx_two)) = mtx_pass.split(mutex) else {
        unreachable!()
    };
    thread::join(
        rt,
        || -> Option<bool>
            requires { IsCondPass cond.now one × IsMutexPass mutex.now mtx_one }
        {
            sleep(
                rt,
                cond,
                one,
                mutex,
                mtx_one,
                told,
                &told.begin,
                &told.first_sleeps,
            )
        },
        || -> Option<bool>
            requires { IsCondPass cond.now two × IsMutexPass mutex.now mtx_two }
        {
            sleep(
                rt,
                cond,
                two,
                mutex,
                mtx_two,
                told,
                &told.first_sleeps,
                &told.second_sleeps,
            )
        },
    )
}

#[test]
fn one_notify_leaves_the_other_asleep(rt: HostRuntime) -> Result<(), Fail> {
    let (mutex, mtx_pass) = Mutex::new(rt.alloc())?;
    let (cond, sleeping, notifying) = in_two_parts(rt.alloc())?;
    let told = Told {
        begin: Signal::new(),
        first_sleeps: Signal::new(),
        second_sleeps: Signal::new(),
        notified: Signal::new(),
        stop: Signal::new(),
    };
    told.begin.give();
    let (took, notified) = thread::join(
        &rt,
        || sleep_in_two_threads(&rt, &cond, sleeping, &mutex, mtx_pass, &told),
        || notify_one_of_two(&cond, notifying, &told),
    );
    assert!(rt; notified);
    assert!(rt; took == (Some(true), Some(false)) || took == (Some(false), Some(true)));
    Ok(())
}
