//! Handles of a value that many read.
use super::linger;
use model_events::WaitAction;
use running_passes::WaitResult;
use sleeping_rw_value::{Handle, RwValueHandle, SleepingRwValue};
use std::alloc::AllocError;
use std::sync::Wait;
use std::test::Fail;
use std::thread;
use std::time::{Clock, Instant};

/// Writes a pair of equal numbers 2500 times, and tells how often it read one that differs.
fn write_and_read<R: Wait>(rt: &R, mut handle: RwValueHandle<'_, (u64, u64)>) -> u64 {
    let mut torn = 0u64;
    for _ in 0..2500u64 {
        handle.with_write(rt, |pair| {
            pair.0 = pair.0.wrapping_add(1);
            pair.1 = pair.1.wrapping_add(1);
        });
        if handle.with_read(rt, |pair| pair.0 != pair.1) {
            torn = torn.wrapping_add(1);
        }
    }
    torn
}

#[test]
fn nobody_of_four_reads_half_a_write(rt: HostRuntime) -> Result<(), Fail> {
    let Ok((pair, pass)) = SleepingRwValue::new(rt.alloc(), (0u64, 0u64)) else {
        return Err(AllocError)?;
    };
    let (mut last, rest) = pair.handle(pass).split();
    let handles = rest.split_into(rt.alloc(), 4)?;
    let torn = thread::map_vec(&rt, handles, &|handle| write_and_read(&rt, handle))?;
    assert!(rt; torn.as_slice() == [0, 0, 0, 0].as_slice());
    assert_eq!(rt; last.with_read(&rt, |pair| pair.0), 10000);
    Ok(())
}

fn value(number: &u64) -> u64 {
    *number
}

fn set_to_9(number: &mut u64) {
    *number = 9;
}

/// How many of the calls that do not wait are refused beside a writer, which leaves 5.
fn refused_beside_a_writer<R: Wait + Clock>(
    rt: &R,
    one: &mut RwValueHandle<'_, u64>,
    two: &mut RwValueHandle<'_, u64>,
    passed: Option<Instant>,
) -> (bool, bool, bool, bool) {
    one.with_write(rt, |number| {
        *number = 5;
        (
            two.try_with_read(rt, value).is_none(),
            two.with_read_until(rt, passed, value).is_none(),
            two.try_with_write(rt, set_to_9).is_none(),
            two.with_write_until(rt, passed, set_to_9).is_none(),
        )
    })
}

/// Beside a reader only writers are refused.
fn refused_beside_a_reader<R: Wait + Clock>(
    rt: &R,
    one: &mut RwValueHandle<'_, u64>,
    two: &mut RwValueHandle<'_, u64>,
    passed: Option<Instant>,
) -> (bool, bool, bool, bool) {
    one.with_read(rt, |_| {
        (
            two.try_with_read(rt, value).is_none(),
            two.with_read_until(rt, passed, value).is_none(),
            two.try_with_write(rt, set_to_9).is_none(),
            two.with_write_until(rt, passed, set_to_9).is_none(),
        )
    })
}

#[test]
fn who_does_not_wait_is_refused_beside_a_holder_alone(rt: HostRuntime) -> Result<(), Fail> {
    let Ok((number, pass)) = SleepingRwValue::new(rt.alloc(), 0u64) else {
        return Err(AllocError)?;
    };
    let (mut one, mut two) = number.handle(pass).split();
    let passed = Some(Instant::now(&rt)?);
    let all = (true, true, true, true);
    assert_eq!(rt;
        refused_beside_a_writer(&rt, &mut one, &mut two, passed),
        all
    );
    let writers = (false, false, true, true);
    assert_eq!(rt;
        refused_beside_a_reader(&rt, &mut one, &mut two, passed),
        writers
    );
    assert_eq!(rt; two.try_with_read(&rt, value), Some(5));
    assert_eq!(rt; two.with_read_until(&rt, passed, value), Some(5));
    assert!(rt; two.try_with_write(&rt, set_to_9).is_some());
    assert_eq!(rt; two.with_read_until(&rt, None, value), Some(9));
    assert!(rt; two.with_write_until(&rt, None, set_to_9).is_some());
    Ok(())
}

#[test]
fn who_sleeps_beside_a_writer_is_woken(rt: HostRuntime) -> Result<(), Fail> {
    let Ok((number, pass)) = SleepingRwValue::new(rt.alloc(), 0u64) else {
        return Err(AllocError)?;
    };
    let (mut one, rest) = number.handle(pass).split();
    let (mut two, mut three) = rest.split();
    let inside = test_signal::Signal::new();
    let ((), (read, wrote)) = thread::join(
        &rt,
        || {
            one.with_write(&rt, |number| {
                inside.give();
                linger();
                *number = 7;
            })
        },
        || {
            thread::join(
                &rt,
                || (inside.awaited(), two.with_read(&rt, value)),
                || (inside.awaited(), three.with_write(&rt, set_to_9)),
            )
        },
    );
    assert!(rt; read.0 && wrote.0 && (read.1 == 7 || read.1 == 9));
    Ok(())
}

#[test]
fn joined_handles_are_one_again(rt: HostRuntime) -> Result<(), Fail> {
    let Ok((number, pass)) = SleepingRwValue::new(rt.alloc(), 3u64) else {
        return Err(AllocError)?;
    };
    let (one, two) = number.handle(pass).split();
    let mut pass = one.join(two).into_pass();
    let found = number
        .lock()
        .with_read(&rt, &mut pass, |_, _| WaitAction::Continue, |_| (), value);
    assert!(rt; matches!(found, WaitResult::Success(3)));
    assert_eq!(rt; number.into_inner(pass), 3);
    Ok(())
}

/// Writes a pair of equal numbers 2500 times, and tells how often it read one that differs; by guards.
fn write_and_read_by_guards<R: Wait>(rt: &R, mut handle: RwValueHandle<'_, (u64, u64)>) -> u64 {
    let mut torn = 0u64;
    for _ in 0..2500u64 {
        add_one_to_both(&mut handle.write(rt));
        if is_torn(rt, &mut handle) {
            torn = torn.wrapping_add(1);
        }
    }
    torn
}

fn add_one_to_both(pair: &mut (u64, u64)) {
    pair.0 = pair.0.wrapping_add(1);
    pair.1 = pair.1.wrapping_add(1);
}

fn is_torn<R: Wait>(rt: &R, handle: &mut RwValueHandle<'_, (u64, u64)>) -> bool {
    let pair = handle.read(rt);
    if pair.0 == 0 {
        return true;
    }
    pair.0 != pair.1
}

#[test]
fn nobody_of_four_reads_half_a_write_under_guards(rt: HostRuntime) -> Result<(), Fail> {
    let Ok((pair, pass)) = SleepingRwValue::new(rt.alloc(), (0u64, 0u64)) else {
        return Err(AllocError)?;
    };
    let (mut last, rest) = pair.handle(pass).split();
    let handles = rest.split_into(rt.alloc(), 4)?;
    let torn = thread::map_vec(
        &rt,
        handles,
        &|handle| write_and_read_by_guards(&rt, handle),
    )?;
    assert!(rt; torn.as_slice() == [0, 0, 0, 0].as_slice());
    assert_eq!(rt; last.read(&rt).0, 10000);
    Ok(())
}

#[test]
fn guards_refuse_others_until_their_scopes_end(rt: HostRuntime) -> Result<(), Fail> {
    let Ok((count, pass)) = SleepingRwValue::new(rt.alloc(), 0u64) else {
        return Err(AllocError)?;
    };
    let (mut one, mut two) = count.handle(pass).split();
    let passed = Some(Instant::now(&rt)?);
    for _ in 0..2u64 {
        let mut number = one.write(&rt);
        *number = 5;
        assert!(rt; two.try_read(&rt).is_none());
        assert!(rt; two.try_write(&rt).is_none());
        assert!(rt; two.read_until(&rt, passed).is_none());
        if two.write_until(&rt, passed).is_none() {
            break;
        }
    }
    for _ in 0..2u64 {
        let number = one.read(&rt);
        assert_eq!(rt; *number, 5);
        assert!(rt; two.try_read(&rt).is_some_and(|number| *number == 5));
        assert!(rt; two.read_until(&rt, passed).is_some());
        if two.try_write(&rt).is_none() {
            break;
        }
    }
    assert!(rt; two.try_write(&rt).is_some());
    assert!(rt; two.write_until(&rt, None).is_some());
    Ok(())
}

#[test]
fn guards_that_end_wake_who_sleeps(rt: HostRuntime) -> Result<(), Fail> {
    let Ok((count, pass)) = SleepingRwValue::new(rt.alloc(), 0u64) else {
        return Err(AllocError)?;
    };
    let (mut one, mut two) = count.handle(pass).split();
    let inside = test_signal::Signal::new();
    let ((), (came, found)) = thread::join(
        &rt,
        || {
            let mut number = one.write(&rt);
            inside.give();
            linger();
            *number = 7;
        },
        || {
            let came = inside.awaited();
            (came, *two.read(&rt))
        },
    );
    assert!(rt; came);
    assert_eq!(rt; found, 7);
    Ok(())
}
