//! Handles of a guarded value.
use super::linger;
use model_events::WaitAction;
use running_passes::WaitResult;
use sleeping_guarded::{GuardedHandle, Handle, SleepingGuarded};
use std::alloc::AllocError;
use std::sync::Wait;
use std::test::Fail;
use std::thread;
use std::time::{Clock, Instant};

/// Adds 1 to the value 2500 times.
fn count_up<R: Wait>(rt: &R, mut handle: GuardedHandle<'_, u64>) {
    for _ in 0..2500u64 {
        handle.with(rt, add_one);
    }
}

fn add_one(number: &mut u64) {
    *number = number.wrapping_add(1);
}

fn value(number: &mut u64) -> u64 {
    *number
}

#[test]
fn no_addition_of_four_threads_is_lost(rt: HostRuntime) -> Result<(), Fail> {
    let Ok((count, pass)) = SleepingGuarded::new(rt.alloc(), 0u64) else {
        return Err(AllocError)?;
    };
    let (mut last, rest) = count.handle(pass).split();
    let handles = rest.split_into(rt.alloc(), 4)?;
    let _ended = thread::map_vec(&rt, handles, &|handle| count_up(&rt, handle))?;
    assert_eq!(rt; last.with(&rt, value), 10000);
    Ok(())
}

/// The most was counted.
#[derive(Drop)]
struct Full;

fn one_more(number: u64, most: u64) -> Result<u64, Full> {
    if number < most {
        Ok(number + 1)
    } else {
        Err(Full)
    }
}

/// Counts once more under the lock, which is let go where `?` leaves too.
fn count_to<R: Wait>(rt: &R, handle: &mut GuardedHandle<'_, u64>, most: u64) -> Result<u64, Full> {
    let counted = handle.with(rt, |number: &mut u64| -> Result<u64, Full> {
        let next = one_more(*number, most)?;
        *number = next;
        Ok(next)
    })?;
    Ok(counted)
}

#[test]
fn who_leaves_by_a_question_mark_has_let_go(rt: HostRuntime) -> Result<(), Fail> {
    let Ok((count, pass)) = SleepingGuarded::new(rt.alloc(), 0u64) else {
        return Err(AllocError)?;
    };
    let mut handle = count.handle(pass);
    assert!(rt; count_to(&rt, &mut handle, 1).is_ok_and(|counted| counted == 1));
    assert!(rt; count_to(&rt, &mut handle, 1).is_err());
    assert_eq!(rt; handle.try_with(value), Some(1));
    Ok(())
}

/// Whether a try and a call until a deadline that has passed are refused beside a holder, which leaves 5.
fn refused_beside<R: Wait + Clock>(
    rt: &R,
    one: &mut GuardedHandle<'_, u64>,
    two: &mut GuardedHandle<'_, u64>,
    passed: Option<Instant>,
) -> (bool, bool) {
    one.with(rt, |number| {
        *number = 5;
        (
            two.try_with(value).is_none(),
            two.with_until(rt, passed, value).is_none(),
        )
    })
}

#[test]
fn who_does_not_wait_is_refused_beside_a_holder_alone(rt: HostRuntime) -> Result<(), Fail> {
    let Ok((count, pass)) = SleepingGuarded::new(rt.alloc(), 0u64) else {
        return Err(AllocError)?;
    };
    let (mut one, mut two) = count.handle(pass).split();
    let passed = Some(Instant::now(&rt)?);
    assert_eq!(rt;
        refused_beside(&rt, &mut one, &mut two, passed),
        (true, true)
    );
    assert_eq!(rt; two.try_with(value), Some(5));
    assert_eq!(rt; two.with_until(&rt, passed, value), Some(5));
    assert_eq!(rt; two.with_until(&rt, None, value), Some(5));
    Ok(())
}

#[test]
fn who_sleeps_beside_a_holder_is_woken(rt: HostRuntime) -> Result<(), Fail> {
    let Ok((count, pass)) = SleepingGuarded::new(rt.alloc(), 0u64) else {
        return Err(AllocError)?;
    };
    let (mut one, mut two) = count.handle(pass).split();
    let inside = test_signal::Signal::new();
    let ((), (came, found)) = thread::join(
        &rt,
        || {
            one.with(&rt, |number| {
                inside.give();
                linger();
                *number = 7;
            })
        },
        || (inside.awaited(), two.with(&rt, value)),
    );
    assert!(rt; came);
    assert_eq!(rt; found, 7);
    Ok(())
}

#[test]
fn joined_handles_are_the_whole_pass(rt: HostRuntime) -> Result<(), Fail> {
    let Ok((count, pass)) = SleepingGuarded::new(rt.alloc(), 3u64) else {
        return Err(AllocError)?;
    };
    let (one, two) = count.handle(pass).split();
    let mut pass = one.join(two).into_pass();
    let found = count
        .guarded()
        .with(&rt, &mut pass, |_, _| WaitAction::Continue, |_| (), value);
    assert!(rt; matches!(found, WaitResult::Success(3)));
    assert_eq!(rt; count.into_inner(pass), 3);
    Ok(())
}
