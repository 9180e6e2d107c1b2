//! Handles of a semaphore, and its permits.
use super::linger;
use sleeping_semaphore::{Handle, SemaphoreHandle, SleepingSemaphore};
use std::sync::Wait;
use std::test::Fail;
use std::thread;
use std::time::Instant;

#[test]
fn permits_are_taken_and_posted(rt: HostRuntime) -> Result<(), Fail> {
    let (semaphore, pass) = SleepingSemaphore::new(rt.alloc(), 1)?;
    let mut handle = semaphore.handle(pass);
    let passed = Some(Instant::now(&rt)?);
    handle.wait(&rt);
    assert!(rt; !handle.try_wait(&rt) && !handle.wait_until(&rt, passed));
    handle.post(3);
    assert!(rt;
        handle.try_wait(&rt) && handle.wait_until(&rt, passed) && handle.wait_until(&rt, None)
    );
    assert!(rt; !handle.try_wait(&rt));
    Ok(())
}

/// Leaves with a permit by a `return`, or by a `break` first.
fn leave_with_a_permit<R: Wait>(rt: &R, handle: &mut SemaphoreHandle<'_>, by_break: bool) -> u64 {
    for _ in 0..1u64 {
        let _permit = handle.permit(rt);
        if by_break {
            break;
        }
        return 1;
    }
    2
}

#[test]
fn a_permit_is_posted_where_its_scope_ends(rt: HostRuntime) -> Result<(), Fail> {
    let (semaphore, pass) = SleepingSemaphore::new(rt.alloc(), 1)?;
    let mut handle = semaphore.handle(pass);
    let passed = Some(Instant::now(&rt)?);
    assert_eq!(rt; leave_with_a_permit(&rt, &mut handle, false), 1);
    assert_eq!(rt; leave_with_a_permit(&rt, &mut handle, true), 2);
    assert!(rt; handle.permit_until(&rt, passed).is_some());
    assert!(rt; handle.try_wait(&rt));
    assert!(rt; handle.permit_until(&rt, passed).is_none());
    Ok(())
}

#[test]
fn who_sleeps_for_a_permit_is_woken(rt: HostRuntime) -> Result<(), Fail> {
    let (semaphore, pass) = SleepingSemaphore::new(rt.alloc(), 0)?;
    let (mut one, rest) = semaphore.handle(pass).split();
    let handles = rest.split_into(rt.alloc(), 3)?;
    let (ended, ()) = thread::join(
        &rt,
        || thread::map_vec(&rt, handles, &|handle| wait_once(&rt, handle)),
        || {
            linger();
            one.post(1);
            linger();
            one.post(2);
        },
    );
    let _ended = ended?;
    assert!(rt; !one.try_wait(&rt));
    Ok(())
}

fn wait_once<R: Wait>(rt: &R, mut handle: SemaphoreHandle<'_>) {
    handle.wait(rt);
}

#[test]
fn joined_handles_are_one_again(rt: HostRuntime) -> Result<(), Fail> {
    let (semaphore, pass) = SleepingSemaphore::new(rt.alloc(), 1)?;
    let (one, two) = semaphore.handle(pass).split();
    let mut pass = one.join(two).into_pass();
    assert_eq!(rt; semaphore.semaphore().value(&mut pass), 1);
    assert!(rt; semaphore.handle(pass).try_wait(&rt));
    Ok(())
}
