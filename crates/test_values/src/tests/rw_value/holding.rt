//! What a call finds beside a reader or a writer, and calls that give up.
ghost use Rattle.std.specs.Prelude.{◌≡◌, ◌<◌, ◌+◌};
ghost use Rattle.running_rw_writer.specs.RwWriterShown.{HasStayed};
ghost use Rattle.running_rw_value.specs.RwValueShown.{IsRwValuePass};

use super::{in_two_parts, new_lock};
use crate::tests::give_up;
use running_closures::{wake_nobody, yield_and_go_on};
use running_passes::WaitResult;
use running_rw_value::RwLock;
use running_rw_writer::{RwLockWriterPreference, RwWriterPass};
use std::sync::Wait;
use std::test::Fail;

/// What `try_read` finds now, if a reader enters.
fn read_now<R: Wait>(rt: &R, lock: &RwLock<u64>, pass: &mut RwWriterPass) -> Option<u64>
    requires own { IsRwValuePass lock.now pass.old }
    ensures stayed { HasStayed pass.old pass.new }
{
    match RwLock::try_read(pass, lock, rt) {
        WaitResult::Success(guard) => {
            let found = *guard;
            RwLock::unlock_read(guard, wake_nobody);
            Some(found)
        }
        WaitResult::Interrupted => None,
    }
}

/// Whether `try_write` lets a writer in now.
fn can_write_now<R: Wait>(rt: &R, lock: &RwLock<u64>, pass: &mut RwWriterPass) -> bool
    requires own { IsRwValuePass lock.now pass.old }
    ensures stayed { HasStayed pass.old pass.new }
{
    match RwLock::try_write(pass, lock, rt) {
        WaitResult::Success(guard) => {
            RwLock::unlock_write(guard, wake_nobody, wake_nobody);
            true
        }
        WaitResult::Interrupted => false,
    }
}

/// Whether the lock in front lets no reader in now.
fn is_shut(lock: &RwLock<u64>, pass: &mut RwWriterPass) -> bool
    requires own { IsRwValuePass lock.now pass.old }
    ensures stayed { HasStayed pass.old pass.new }
{
    match RwLockWriterPreference::try_read_lock(pass, lock.front()) {
        WaitResult::Success(hold) => {
            lock.front().unlock(hold, wake_nobody, wake_nobody);
            false
        }
        WaitResult::Interrupted => true,
    }
}

/// Whether the lock in front is shut for `two` while a `with_write` of `one` acts, and after it.
fn shut_within<R: Wait>(
    rt: &R,
    lock: &RwLock<u64>,
    one: &mut RwWriterPass,
    two: &mut RwWriterPass,
) -> (WaitResult<bool>, bool)
    requires own { IsRwValuePass lock.now one.old × IsRwValuePass lock.now two.old }
{
    let within = lock.with_write(
        rt,
        one,
        give_up,
        wake_nobody,
        wake_nobody,
        |_number| is_shut(lock, two),
    );
    (within, is_shut(lock, one))
}

/// Whether a `with_write` writes this, whose wait closure gives up at once.
fn write_or_give_up<R: Wait>(
    rt: &R,
    lock: &RwLock<u64>,
    pass: &mut RwWriterPass,
    number: u64,
) -> bool
    requires own { IsRwValuePass lock.now pass.old }
    ensures stayed { HasStayed pass.old pass.new }
{
    let written = lock.with_write(
        rt,
        pass,
        give_up,
        wake_nobody,
        wake_nobody,
        |value| *value = number,
    );
    match written {
        WaitResult::Success(()) => true,
        WaitResult::Interrupted => false,
    }
}

/// Puts this in by a write guard, adds 1 to it, and unlocks. What the guard lends in between and at last is known by its clauses.
fn put_and_add<R: Wait>(
    rt: &R,
    lock: &RwLock<u64>,
    pass: &mut RwWriterPass,
    number: u64,
) -> (u64, u64)
    requires own { IsRwValuePass lock.now pass.old }
    requires small { number < 100 }
    ensures known { (result.0 ≡ number) × (result.1 ≡ number + 1) }
    ensures stayed { HasStayed pass.old pass.new }
{
    match RwLock::write(pass, lock, rt, yield_and_go_on, wake_nobody, wake_nobody) {
        WaitResult::Success(mut guard) => {
            guard.change(|value| *value = number);
            let put = *guard;
            guard.change(|value| *value += 1);
            let added = *guard;
            RwLock::unlock_write(guard, wake_nobody, wake_nobody);
            (put, added)
        }
        WaitResult::Interrupted => unreachable!(),
    }
}

/// While `one` reads, what `two` reads, whether it is let in to write, whether a write of 2 gives up, and what it reads after that.
fn beside_a_reader<R: Wait>(
    rt: &R,
    lock: &RwLock<u64>,
    one: &mut RwWriterPass,
    two: &mut RwWriterPass,
) -> (Option<u64>, bool, bool, Option<u64>)
    requires own { IsRwValuePass lock.now one.old × IsRwValuePass lock.now two.old }
{
    match RwLock::read(one, lock, rt, yield_and_go_on) {
        WaitResult::Success(guard) => {
            let before = read_now(rt, lock, two);
            let wrote = can_write_now(rt, lock, two);
            let gave_up = !write_or_give_up(rt, lock, two, 2);
            let after = read_now(rt, lock, two);
            RwLock::unlock_read(guard, wake_nobody);
            (before, wrote, gave_up, after)
        }
        WaitResult::Interrupted => unreachable!(),
    }
}

/// While `one` has the write guard, what `two` reads, whether it is let in to write, and whether a `with_read` of it gives up; and what
/// the guard lends.
fn beside_a_writer<R: Wait>(
    rt: &R,
    lock: &RwLock<u64>,
    one: &mut RwWriterPass,
    two: &mut RwWriterPass,
) -> (Option<u64>, bool, bool, u64)
    requires own { IsRwValuePass lock.now one.old × IsRwValuePass lock.now two.old }
{
    match RwLock::write(one, lock, rt, yield_and_go_on, wake_nobody, wake_nobody) {
        WaitResult::Success(guard) => {
            let held = *guard;
            let found = read_now(rt, lock, two);
            let wrote = can_write_now(rt, lock, two);
            let read = lock.with_read(rt, two, give_up, wake_nobody, |number| *number);
            let gave_up = match read {
                WaitResult::Success(_) => false,
                WaitResult::Interrupted => true,
            };
            RwLock::unlock_write(guard, wake_nobody, wake_nobody);
            (found, wrote, gave_up, held)
        }
        WaitResult::Interrupted => unreachable!(),
    }
}

#[test]
fn a_reader_lets_readers_in_and_a_writer_that_gives_up_leaves_no_mark(
    rt: HostRuntime,
) -> Result<(), Fail> {
    let (lock, mut one, mut two) = in_two_parts(rt.alloc())?;
    let found = beside_a_reader(&rt, &lock, &mut one, &mut two);
    assert_eq!(rt; found, (Some(7), false, true, Some(7)));
    Ok(())
}

#[test]
fn a_writer_is_alone(rt: HostRuntime) -> Result<(), Fail> {
    let (lock, mut one, mut two) = in_two_parts(rt.alloc())?;
    let found = beside_a_writer(&rt, &lock, &mut one, &mut two);
    assert_eq!(rt; found, (None, false, true, 7));
    Ok(())
}

#[test]
fn a_write_acts_before_it_unlocks(rt: HostRuntime) -> Result<(), Fail> {
    let (lock, mut one, mut two) = in_two_parts(rt.alloc())?;
    let found = shut_within(&rt, &lock, &mut one, &mut two);
    assert_eq!(rt; found, (WaitResult::Success(true), false));
    Ok(())
}

#[test]
fn what_a_guard_changed_it_lends_and_comes_out(rt: HostRuntime) -> Result<(), Fail> {
    let (lock, mut pass) = new_lock(rt.alloc(), 7)?;
    let lent = put_and_add(&rt, &lock, &mut pass, 40);
    assert_eq!(rt; (lent, lock.into_inner(pass)), ((40, 41), 41));
    Ok(())
}

#[test]
fn a_value_that_was_written_comes_out(rt: HostRuntime) -> Result<(), Fail> {
    let (lock, mut pass) = new_lock(rt.alloc(), 7)?;
    let wrote = write_or_give_up(&rt, &lock, &mut pass, 9);
    let found = lock.into_inner(pass);
    assert!(rt; wrote && found == 9);
    Ok(())
}
