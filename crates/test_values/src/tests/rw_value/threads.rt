//! Threads that meet at the value.
ghost use Rattle.running_rw_writer.specs.RwWriterShown.{HasStayed};
ghost use Rattle.running_rw_value.specs.RwValueShown.{IsRwValuePass};

use super::{in_two_parts, new_lock};
use running_closures::{wake_nobody, yield_and_go_on};
use running_passes::WaitResult;
use running_rw_value::RwLock;
use running_rw_writer::RwWriterPass;
use running_sharing::in_threads;
use std::sync::Wait;
use std::test::Fail;
use std::thread;
use test_signal::Meeting;

/// Reads, and waits within for the other reader: whether it came, and what was read.
fn meet_within<R: Wait>(
    rt: &R,
    lock: &RwLock<u64>,
    pass: &mut RwWriterPass,
    meeting: &Meeting,
) -> (bool, u64)
    requires own { IsRwValuePass lock.now pass.old }
{
    match RwLock::read(pass, lock, rt, yield_and_go_on) {
        WaitResult::Success(guard) => {
            let met = meeting.meet();
            let found = *guard;
            RwLock::unlock_read(guard, wake_nobody);
            (met, found)
        }
        WaitResult::Interrupted => unreachable!(),
    }
}

#[test]
fn two_readers_are_inside_at_once(rt: HostRuntime) -> Result<(), Fail> {
    let (lock, mut one, mut two) = in_two_parts(rt.alloc())?;
    let meeting = Meeting::of(2);
    let met = thread::join(
        &rt,
        || meet_within(&rt, &lock, &mut one, &meeting),
        || meet_within(&rt, &lock, &mut two, &meeting),
    );
    assert_eq!(rt; met, ((true, 7), (true, 7)));
    Ok(())
}

/// Adds 1 to the value 2500 times.
fn count_up<R: Wait>(rt: &R, lock: &RwLock<u64>, mut pass: RwWriterPass) -> RwWriterPass
    requires own { IsRwValuePass lock.now pass }
    ensures stayed { HasStayed pass result }
{
    for _ in 0..2500u64 {
        let counted = lock.with_write(
            rt,
            &mut pass,
            yield_and_go_on,
            wake_nobody,
            wake_nobody,
            |number| *number = number.wrapping_add(1),
        );
        match counted {
            WaitResult::Success(()) => {}
            WaitResult::Interrupted => unreachable!(),
        }
    }
    pass
}

#[test]
fn no_addition_is_lost(rt: HostRuntime) -> Result<(), Fail> {
    let (lock, pass) = new_lock(rt.alloc(), 0)?;
    let pass = in_threads(&rt, &lock, pass, 2, &|pass| { count_up(&rt, &lock, pass) });
    assert_eq!(rt; lock.into_inner(pass), 5000);
    Ok(())
}
