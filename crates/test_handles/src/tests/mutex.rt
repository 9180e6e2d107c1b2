//! Handles of a mutex.
use super::linger;
use running_mutex::{Mutex, MutexHold};
use running_passes::WaitResult;
use sleeping_mutex::{Handle, MutexHandle, SleepingMutex};
use std::sync::Wait;
use std::sync::atomic::{AtomicU64, Ordering};
use std::test::Fail;
use std::thread;
use std::time::{Clock, Instant};

/// Adds 1 by a load and a store, which the hold that is shown says to be under the lock.
fn add_one(_shown: &MutexHold<'_>, number: &AtomicU64) {
    let found = number.load(Ordering::SeqCst);
    number.store(found.wrapping_add(1), Ordering::SeqCst);
}

/// Adds 1 2500 times.
fn count_up<R: Wait>(rt: &R, mut handle: MutexHandle<'_>, number: &AtomicU64) {
    for _ in 0..2500u64 {
        handle.with(rt, |hold| add_one(hold, number));
    }
}

#[test]
fn no_addition_of_four_threads_is_lost(rt: HostRuntime) -> Result<(), Fail> {
    let number = AtomicU64::new(0);
    let (mutex, pass) = SleepingMutex::new(rt.alloc())?;
    let handles = mutex.handle(pass).split_into(rt.alloc(), 4)?;
    let _ended = thread::map_vec(&rt, handles, &|handle| count_up(&rt, handle, &number))?;
    assert_eq!(rt; number.load(Ordering::SeqCst), 10000);
    Ok(())
}

/// Nothing is done under the lock.
fn stay(_shown: &MutexHold<'_>) {}

/// Whether a try and a call until a deadline that has passed are refused beside a holder.
fn refused_beside<R: Wait + Clock>(
    rt: &R,
    one: &mut MutexHandle<'_>,
    two: &mut MutexHandle<'_>,
    passed: Option<Instant>,
) -> (bool, bool) {
    one.with(rt, |_| {
        (
            two.try_with(stay).is_none(),
            two.with_until(rt, passed, stay).is_none(),
        )
    })
}

#[test]
fn who_does_not_wait_is_refused_beside_a_holder_alone(rt: HostRuntime) -> Result<(), Fail> {
    let (mutex, pass) = SleepingMutex::new(rt.alloc())?;
    let (mut one, mut two) = mutex.handle(pass).split();
    let passed = Some(Instant::now(&rt)?);
    assert_eq!(rt;
        refused_beside(&rt, &mut one, &mut two, passed),
        (true, true)
    );
    assert!(rt; two.try_with(stay).is_some());
    assert!(rt; two.with_until(&rt, passed, stay).is_some());
    assert!(rt; two.with_until(&rt, None, stay).is_some());
    Ok(())
}

#[test]
fn who_sleeps_beside_a_holder_is_woken(rt: HostRuntime) -> Result<(), Fail> {
    let number = AtomicU64::new(0);
    let (mutex, pass) = SleepingMutex::new(rt.alloc())?;
    let (mut one, mut two) = mutex.handle(pass).split();
    let inside = test_signal::Signal::new();
    let ((), (came, found)) = thread::join(
        &rt,
        || {
            one.with(&rt, |_| {
                inside.give();
                linger();
                number.store(7, Ordering::SeqCst);
            })
        },
        || (
            inside.awaited(),
            two.with(&rt, |_| number.load(Ordering::SeqCst)),
        ),
    );
    assert!(rt; came);
    assert_eq!(rt; found, 7);
    Ok(())
}

#[test]
fn joined_handles_are_one_again(rt: HostRuntime) -> Result<(), Fail> {
    let (mutex, pass) = SleepingMutex::new(rt.alloc())?;
    let (one, two) = mutex.handle(pass).split();
    let mut pass = one.join(two).into_pass();
    match Mutex::try_lock(&mut pass, mutex.mutex()) {
        WaitResult::Success(hold) => {
            mutex.mutex().unlock(hold, |_| ());
        }
        WaitResult::Interrupted => return Err("it is free")?,
    }
    assert!(rt; mutex.handle(pass).try_with(stay).is_some());
    Ok(())
}
