//! Guards of a guarded value.
use super::linger;
use sleeping_guarded::{GuardedHandle, Handle, SleepingGuarded};
use std::alloc::AllocError;
use std::sync::Wait;
use std::test::Fail;
use std::thread;
use std::time::{Clock, Instant};

/// The most was counted.
#[derive(Drop)]
struct Full;

fn one_more(number: u64, most: u64) -> Result<u64, Full> {
    if number < most {
        Ok(number + 1)
    } else {
        Err(Full)
    }
}

fn value(number: &mut u64) -> u64 {
    *number
}

/// Counts once more under a guard, whose scope ends by `?` or `return`.
fn count_by_guard<R: Wait>(
    rt: &R,
    handle: &mut GuardedHandle<'_, u64>,
    most: u64,
) -> Result<u64, Full> {
    let mut number = handle.lock(rt);
    let next = one_more(*number, most)?;
    *number = next;
    if next == 1 {
        return Ok(0);
    }
    Ok(next)
}

/// How often there was no more, of 2500 times.
fn count_up_by_guards<R: Wait>(rt: &R, mut handle: GuardedHandle<'_, u64>) -> u64 {
    let mut refused = 0u64;
    for _ in 0..2500u64 {
        if count_by_guard(rt, &mut handle, 9000).is_err() {
            refused = refused.wrapping_add(1);
        }
    }
    refused
}

#[test]
fn no_addition_of_four_threads_under_guards_is_lost(rt: HostRuntime) -> Result<(), Fail> {
    let Ok((count, pass)) = SleepingGuarded::new(rt.alloc(), 0u64) else {
        return Err(AllocError)?;
    };
    let (mut last, rest) = count.handle(pass).split();
    let handles = rest.split_into(rt.alloc(), 4)?;
    let mut refused = 0u64;
    for each in thread::map_vec(&rt, handles, &|handle| count_up_by_guards(&rt, handle))? {
        refused = refused.wrapping_add(each);
    }
    assert_eq!(rt; (*last.lock(&rt), refused), (9000, 1000));
    Ok(())
}

#[test]
fn a_guard_refuses_others_until_its_scope_ends(rt: HostRuntime) -> Result<(), Fail> {
    let Ok((count, pass)) = SleepingGuarded::new(rt.alloc(), 0u64) else {
        return Err(AllocError)?;
    };
    let (mut one, mut two) = count.handle(pass).split();
    let passed = Some(Instant::now(&rt)?);
    for _ in 0..2u64 {
        let mut number = one.lock(&rt);
        *number = 5;
        assert!(rt; two.try_lock().is_none());
        assert!(rt; two.lock_until(&rt, passed).is_none());
        if two.try_with(value).is_none() {
            break;
        }
    }
    assert!(rt; two.try_lock().is_some_and(|number| *number == 5));
    assert!(rt;
        two.lock_until(&rt, passed)
            .is_some_and(|number| *number == 5)
    );
    assert!(rt; one.lock_until(&rt, None).is_some_and(|number| *number == 5));
    Ok(())
}

#[test]
fn a_guard_that_ends_wakes_one_that_sleeps(rt: HostRuntime) -> Result<(), Fail> {
    let Ok((count, pass)) = SleepingGuarded::new(rt.alloc(), 0u64) else {
        return Err(AllocError)?;
    };
    let (mut one, mut two) = count.handle(pass).split();
    let inside = test_signal::Signal::new();
    let ((), (came, found)) = thread::join(
        &rt,
        || {
            let mut number = one.lock(&rt);
            inside.give();
            linger();
            *number = 7;
        },
        || {
            let came = inside.awaited();
            (came, *two.lock(&rt))
        },
    );
    assert!(rt; came);
    assert_eq!(rt; found, 7);
    Ok(())
}
