//! Each form in which a caller hands its closures: to locks by the port's names, whose word is `WaitWord`, and to one of its own words.
ghost use Rattle.running_mutex.specs.MutexShown.{IsMutexPass};
ghost use Rattle.running_semaphore.specs.SemaphoreShown.{IsSemPass};

use super::give_up;
use iceoryx2_pal_concurrency_sync::strategy::mutex::{Mutex, MutexPass};
use iceoryx2_pal_concurrency_sync::strategy::semaphore::{SemPass, Semaphore};
use iceoryx2_pal_concurrency_sync::{
    Sleepers, WaitAction, WaitResult, WaitWord, wake_nobody, yield_and_go_on,
};
use running_mutex::MutexWord;
use std::sync::Wait;
use std::test::Fail;

fn nobody(_word: &WaitWord) {}

/// The same named functions, at a mutex and at a semaphore without a permit.
fn by_names<R: Wait>(
    rt: &R,
    mutex: &Mutex,
    pass: &mut MutexPass,
    semaphore: &Semaphore,
    permits: &mut SemPass,
) -> (WaitResult<u64>, WaitResult<()>)
    requires own { IsMutexPass mutex.now pass.old }
    requires permits { IsSemPass semaphore.now permits.old }
{
    let locked = mutex.with_lock(rt, pass, give_up, nobody, || 1);
    let waited = semaphore.wait(rt, permits, give_up);
    (locked, waited)
}

/// Closures of a caller's own, handed on as they are.
fn handed_on<R: Wait, W: Fn(&WaitWord, &u64) -> WaitAction, K: Fn(&WaitWord)>(
    rt: &R,
    mutex: &Mutex,
    pass: &mut MutexPass,
    wait: W,
    wake_one: K,
) -> WaitResult<u64>
    requires own { IsMutexPass mutex.now pass.old }
    requires may { W.IsAlwaysCallable wait × K.IsAlwaysCallable wake_one }
{
    mutex.with_lock(rt, pass, wait, wake_one, || 2)
}

/// With types, also kept by a `let`.
fn with_types<R: Wait>(
    rt: &R,
    sleepers: &Sleepers,
    mutex: &Mutex,
    pass: &mut MutexPass,
) -> WaitResult<u64>
    requires own { IsMutexPass mutex.now pass.old }
{
    let wait = |word: &WaitWord, seen: &u64| sleepers.sleep(rt, word, *seen);
    mutex.with_lock(rt, pass, wait, |_: &WaitWord| sleepers.wake_one(), || 3)
}

/// Without types.
fn without_types<R: Wait>(
    rt: &R,
    sleepers: &Sleepers,
    mutex: &Mutex,
    pass: &mut MutexPass,
) -> WaitResult<u64>
    requires own { IsMutexPass mutex.now pass.old }
{
    mutex.with_lock(
        rt,
        pass,
        |word, seen| sleepers.sleep(rt, word, *seen),
        |_| sleepers.wake_one(),
        || 4,
    )
}

/// Functions for any word, by their names alone.
fn for_any_word<R: Wait>(rt: &R, mutex: &Mutex, pass: &mut MutexPass) -> WaitResult<u64>
    requires own { IsMutexPass mutex.now pass.old }
{
    mutex.with_lock(rt, pass, yield_and_go_on, wake_nobody, || 5)
}

/// A mutex that shows its own word, by a closure for that word and by the functions for any.
fn of_its_own_word<R: Wait>(
    rt: &R,
    sleepers: &Sleepers,
    mutex: &running_mutex::Mutex,
    pass: &mut MutexPass,
) -> (WaitResult<u64>, WaitResult<u64>)
    requires own { IsMutexPass mutex.now pass.old }
{
    let slept = mutex.with_lock(
        rt,
        pass,
        |word: &MutexWord, seen: &u64| sleepers.sleep(rt, word, *seen),
        |_| sleepers.wake_one(),
        || 6,
    );
    let yielded = mutex.with_lock(rt, pass, yield_and_go_on, wake_nobody, || 7);
    (slept, yielded)
}

#[test]
fn closures_are_handed_by_their_names(rt: HostRuntime) -> Result<(), Fail> {
    let (mutex, mut pass) = Mutex::new(rt.alloc())?;
    let (semaphore, mut permits) = Semaphore::new(rt.alloc(), 0)?;
    let (locked, waited) = by_names(&rt, &mutex, &mut pass, &semaphore, &mut permits);
    assert!(rt; locked == WaitResult::Success(1));
    assert!(rt; waited == WaitResult::Interrupted);
    Ok(())
}

#[test]
fn a_callers_own_closures_are_handed_on(rt: HostRuntime) -> Result<(), Fail> {
    let (mutex, mut pass) = Mutex::new(rt.alloc())?;
    let handed = handed_on(&rt, &mutex, &mut pass, give_up, nobody);
    assert!(rt; handed == WaitResult::Success(2));
    Ok(())
}

#[test]
fn closures_are_handed_with_their_types(rt: HostRuntime) -> Result<(), Fail> {
    let sleepers = Sleepers::new();
    let (mutex, mut pass) = Mutex::new(rt.alloc())?;
    assert!(rt; with_types(&rt, &sleepers, &mutex, &mut pass) == WaitResult::Success(3));
    Ok(())
}

#[test]
fn closures_are_handed_without_types(rt: HostRuntime) -> Result<(), Fail> {
    let sleepers = Sleepers::new();
    let (mutex, mut pass) = Mutex::new(rt.alloc())?;
    assert!(rt; without_types(&rt, &sleepers, &mutex, &mut pass) == WaitResult::Success(4));
    Ok(())
}

#[test]
fn functions_for_any_word_are_handed(rt: HostRuntime) -> Result<(), Fail> {
    let (mutex, mut pass) = Mutex::new(rt.alloc())?;
    assert!(rt; for_any_word(&rt, &mutex, &mut pass) == WaitResult::Success(5));
    Ok(())
}

#[test]
fn a_word_of_ones_own_is_handed_a_closure_and_functions(rt: HostRuntime) -> Result<(), Fail> {
    let sleepers = Sleepers::new();
    let (own, mut own_pass): (running_mutex::Mutex, MutexPass) = running_mutex::Mutex::new(
        rt.alloc(),
    )?;
    let (slept, yielded) = of_its_own_word(&rt, &sleepers, &own, &mut own_pass);
    assert!(rt; slept == WaitResult::Success(6));
    assert!(rt; yielded == WaitResult::Success(7));
    Ok(())
}
