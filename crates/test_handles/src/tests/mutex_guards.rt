//! Guards of a mutex.
use super::linger;
use running_mutex::MutexHold;
use sleeping_mutex::{Handle, MutexHandle, SleepingMutex};
use std::sync::Wait;
use std::sync::atomic::{AtomicU64, Ordering};
use std::test::Fail;
use std::thread;
use std::time::{Clock, Instant};

/// Nothing is done under the lock.
fn stay(_shown: &MutexHold<'_>) {}

/// Adds 1 under a guard, to no more than so many; the guard's scope ends by `?` or `return`.
fn count_to<R: Wait>(
    rt: &R,
    handle: &mut MutexHandle<'_>,
    number: &AtomicU64,
    most: u64,
) -> Option<u64> {
    let _locked = handle.lock(rt);
    let found = number.load(Ordering::SeqCst);
    let next = one_more(found, most)?;
    number.store(next, Ordering::SeqCst);
    if next == 1 {
        return Some(0);
    }
    Some(next)
}

fn one_more(number: u64, most: u64) -> Option<u64> {
    if number < most {
        Some(number + 1)
    } else {
        None
    }
}

/// How often there was no more, of 2500 times.
fn count_under_guards<R: Wait>(rt: &R, mut handle: MutexHandle<'_>, number: &AtomicU64) -> u64 {
    let mut refused = 0u64;
    for _ in 0..2500u64 {
        if count_to(rt, &mut handle, number, 9000).is_none() {
            refused = refused.wrapping_add(1);
        }
    }
    refused
}

#[test]
fn no_addition_of_four_threads_under_guards_is_lost(rt: HostRuntime) -> Result<(), Fail> {
    let number = AtomicU64::new(0);
    let (mutex, pass) = SleepingMutex::new(rt.alloc())?;
    let handles = mutex.handle(pass).split_into(rt.alloc(), 4)?;
    let mut refused = 0u64;
    for each in thread::map_vec(
        &rt,
        handles,
        &|handle| count_under_guards(&rt, handle, &number),
    )? {
        refused = refused.wrapping_add(each);
    }
    assert_eq!(rt; (number.load(Ordering::SeqCst), refused), (9000, 1000));
    Ok(())
}

#[test]
fn a_guard_refuses_others_until_its_scope_ends(rt: HostRuntime) -> Result<(), Fail> {
    let (mutex, pass) = SleepingMutex::new(rt.alloc())?;
    let (mut one, mut two) = mutex.handle(pass).split();
    let passed = Some(Instant::now(&rt)?);
    for _ in 0..2u64 {
        let _locked = one.lock(&rt);
        assert!(rt; two.try_lock().is_none());
        assert!(rt; two.lock_until(&rt, passed).is_none());
        assert!(rt; two.try_with(stay).is_none());
        if two.try_lock().is_none() {
            break;
        }
    }
    assert!(rt; two.try_lock().is_some());
    assert!(rt; two.lock_until(&rt, passed).is_some());
    assert!(rt; one.lock_until(&rt, None).is_some());
    assert!(rt; one.try_with(stay).is_some());
    Ok(())
}

#[test]
fn a_guard_that_ends_wakes_one_that_sleeps(rt: HostRuntime) -> Result<(), Fail> {
    let number = AtomicU64::new(0);
    let (mutex, pass) = SleepingMutex::new(rt.alloc())?;
    let (mut one, mut two) = mutex.handle(pass).split();
    let inside = test_signal::Signal::new();
    let ((), (came, found)) = thread::join(
        &rt,
        || {
            let _locked = one.lock(&rt);
            inside.give();
            linger();
            number.store(7, Ordering::SeqCst);
        },
        || {
            let came = inside.awaited();
            let _locked = two.lock(&rt);
            (came, number.load(Ordering::SeqCst))
        },
    );
    assert!(rt; came);
    assert_eq!(rt; found, 7);
    Ok(())
}
