//! The running spin lock.
mod kept;
mod refusals;
mod threads;

ghost use Rattle.std.specs.Prelude.{◌≡◌, ◌+◌, ◌*◌, ◌^◌, ◌<◌, IfSome, None, MatchBool};
ghost use Rattle.model_events.specs.declared.event.Call.TheVariants as calls;
ghost use Rattle.model_events.specs.declared.event.Answer.TheVariants as answers;
ghost use Rattle.running_spin_lock.specs.SpinShown.{IsSpinPass, IsAlone, HasStayed, grants_of, view, value_of};
ghost use Rattle.running_spin_lock.specs.SpinSteps.{HasPlayed, HasPlayedBoth};

use iceoryx2_pal_concurrency_sync::spin_lock::{PoisonError, SpinLock, SpinLockGuard, SpinPass};
use std::sync::Wait;
use std::test::Fail;

/// Whether `try_lock` is refused now.
fn is_refused(lock: &SpinLock<u64>, pass: &mut SpinPass) -> bool
    requires own { IsSpinPass lock.now pass.old }
    ensures stayed { HasStayed pass.old pass.new }
{
    match SpinLock::try_lock(pass, lock) {
        Some(_guard) => false,
        None => true,
    }
}

/// What the value is, if the lock is free.
fn value_if_free(lock: &SpinLock<u64>, pass: &mut SpinPass) -> Option<u64>
    requires own { IsSpinPass lock.now pass.old }
{
    match SpinLock::try_lock(pass, lock) {
        Some(guard) => Some(*guard),
        None => None,
    }
}

/// Whether `two` is refused while `one` has the guard.
fn refused_while_held(lock: &SpinLock<u64>, one: &mut SpinPass, two: &mut SpinPass) -> Option<bool>
    requires own { IsSpinPass lock.now one.old × IsSpinPass lock.now two.old }
    ensures stayed { HasStayed two.old two.new }
{
    match SpinLock::try_lock(one, lock) {
        Some(_guard) => Some(is_refused(lock, two)),
        None => None,
    }
}

/// Whether one half of a pass is refused while the other has the guard, and whether it is afterwards.
fn refused_by_turns(lock: &SpinLock<u64>, pass: SpinPass) -> (Option<bool>, bool)
    requires own { IsSpinPass lock.now pass }
{
    let Ok((mut one, mut two)) = pass.split(lock) else {
        unreachable!()
    };
    let held = refused_while_held(lock, &mut one, &mut two);
    (held, is_refused(lock, &mut two))
}

#[test]
fn one_holder_at_a_time(rt: HostRuntime) -> Result<(), Fail> {
    let (lock, pass) = SpinLock::new(rt.alloc(), 0u64)?;
    assert_eq!(rt; refused_by_turns(&lock, pass), (Some(true), false));
    Ok(())
}

/// What is written through a guard is what it lends.
fn double(guard: &mut SpinLockGuard<'_, u64>)
    requires small { value_of guard.old < 2 ^ 63 }
    ensures doubled { value_of guard.new ≡ 2 * value_of guard.old }
{
    **guard *= 2;
}

/// Writes a number, doubles it and halves it, under one guard.
fn half_of_double(lock: &SpinLock<u64>, pass: &mut SpinPass, number: u64) -> Option<u64>
    requires own { IsSpinPass lock.now pass.old }
    requires small { number < 2 ^ 63 }
    ensures half { IfSome result (λ half. half ≡ number) }
{
    match SpinLock::try_lock(pass, lock) {
        Some(mut guard) => {
            *guard = number;
            double(&mut guard);
            Some(*guard / 2)
        }
        None => None,
    }
}

#[test]
fn what_was_written_is_lent(rt: HostRuntime) -> Result<(), Fail> {
    let (lock, mut pass) = SpinLock::new(rt.alloc(), 7u64)?;
    assert_eq!(rt; half_of_double(&lock, &mut pass, 21), Some(21));
    Ok(())
}

/// Adds to the value, and locks again in the same function: with the whole pass `try_lock` is granted.
fn add_twice<R: Wait>(rt: &R, lock: &SpinLock<u64>, pass: &mut SpinPass, more: u64) -> u64
    requires own { IsSpinPass lock.now pass.old }
    requires alone { IsAlone pass.old }
    ensures stayed { HasStayed pass.old pass.new }
    ensures grants { grants_of pass.new ≡ grants_of pass.old + 3 }
{
    {
        let mut guard = SpinLock::blocking_lock(pass, lock, rt);
        *guard = guard.wrapping_add(more);
    }
    match SpinLock::lock(pass, lock, rt) {
        Ok(mut guard) => *guard = guard.wrapping_add(more),
        Err(_) => unreachable!(),
    }
    match SpinLock::try_lock(pass, lock) {
        Some(guard) => *guard,
        None => unreachable!(),
    }
}

#[test]
fn the_value_is_the_one_that_was_left(rt: HostRuntime) -> Result<(), Fail> {
    let (lock, mut pass) = SpinLock::new(rt.alloc(), 40u64)?;
    let first = add_twice(&rt, &lock, &mut pass, 1);
    let second = add_twice(&rt, &lock, &mut pass, 0);
    assert_eq!(rt; (first, second), (42, 42));
    Ok(())
}

/// Adds by each locking call, whatever other passes do: each time the pass plays that call, and at the guard's end an `Unlock`.
fn add_by_blocking_lock<R: Wait>(rt: &R, lock: &SpinLock<u64>, pass: &mut SpinPass, more: u64)
    requires own { IsSpinPass lock.now pass.old }
    ensures stayed { HasStayed pass.old pass.new }
    ensures played { HasPlayedBoth calls.BlockingLock (view pass.old) (view pass.new) }
{
    let mut guard = SpinLock::blocking_lock(pass, lock, rt);
    *guard = guard.wrapping_add(more);
}

fn add_by_lock<R: Wait>(rt: &R, lock: &SpinLock<u64>, pass: &mut SpinPass, more: u64)
    requires own { IsSpinPass lock.now pass.old }
    ensures stayed { HasStayed pass.old pass.new }
    ensures played { HasPlayedBoth calls.Lock (view pass.old) (view pass.new) }
{
    match SpinLock::lock(pass, lock, rt) {
        Ok(mut guard) => *guard = guard.wrapping_add(more),
        Err(_) => unreachable!(),
    }
}

/// Adds if the lock is free, and whether it was.
fn add_by_try_lock(lock: &SpinLock<u64>, pass: &mut SpinPass, more: u64) -> bool
    requires own { IsSpinPass lock.now pass.old }
    ensures stayed { HasStayed pass.old pass.new }
    ensures played { MatchBool result (HasPlayedBoth calls.TryLock (view pass.old) (view pass.new)) (HasPlayed calls.TryLock answers.Interrupted None (view pass.old) (view pass.new)) }
{
    match SpinLock::try_lock(pass, lock) {
        Some(mut guard) => {
            *guard = guard.wrapping_add(more);
            true
        }
        None => false,
    }
}

#[test]
fn each_call_is_one_of_the_model(rt: HostRuntime) -> Result<(), Fail> {
    let (lock, mut pass) = SpinLock::new(rt.alloc(), 1u64)?;
    add_by_blocking_lock(&rt, &lock, &mut pass, 10);
    add_by_lock(&rt, &lock, &mut pass, 100);
    let added = add_by_try_lock(&lock, &mut pass, 1000);
    let sum = add_twice(&rt, &lock, &mut pass, 0);
    assert_eq!(rt; (added, sum), (true, 1111));
    Ok(())
}

/// Parts a pass of which nothing is known but that it is whole, in three, and joins them again: that one is granted.
fn part_and_join(lock: &SpinLock<u64>, pass: SpinPass) -> SpinPass
    requires own { IsSpinPass lock.now pass }
    requires alone { IsAlone pass }
    ensures own { IsSpinPass lock.now result }
    ensures alone { IsAlone result }
{
    let Ok((one, other)) = pass.split(lock) else {
        unreachable!()
    };
    let Ok((two, three)) = other.split(lock) else {
        unreachable!()
    };
    let Ok(other) = SpinPass::join(two, three, lock) else {
        unreachable!()
    };
    let Ok(mut pass) = SpinPass::join(one, other, lock) else {
        unreachable!()
    };
    match SpinLock::try_lock(&mut pass, lock) {
        Some(_guard) => {}
        None => unreachable!(),
    }
    pass
}

#[test]
fn parts_are_the_whole_again(rt: HostRuntime) -> Result<(), Fail> {
    let (lock, pass) = SpinLock::new(rt.alloc(), 0u64)?;
    let mut pass = part_and_join(&lock, pass);
    assert!(rt; !is_refused(&lock, &mut pass));
    Ok(())
}

fn shared<X: Sync>(_: &X) {}

/// A spin lock may be shared also where its value may only be moved from thread to thread.
fn shared_where_it_moves<T: Send>(lock: &SpinLock<T>) {
    shared(lock);
}

#[test]
fn a_spin_lock_is_shared_where_its_value_moves(rt: HostRuntime) -> Result<(), Fail> {
    let (lock, mut pass) = SpinLock::new(rt.alloc(), 7u64)?;
    shared_where_it_moves(&lock);
    assert_eq!(rt; value_if_free(&lock, &mut pass), Some(7));
    Ok(())
}

#[test]
fn a_poison_error_gives_its_guard_back(rt: HostRuntime) -> Result<(), Fail> {
    assert_eq!(rt; PoisonError::new(7).into_inner(), 7);
    Ok(())
}
