//! Threads that meet at the lock.
ghost use Rattle.running_spin_lock.specs.SpinShown.{IsSpinPass, HasStayed};

use super::{is_refused, value_if_free};
use iceoryx2_pal_concurrency_sync::in_threads;
use iceoryx2_pal_concurrency_sync::spin_lock::{SpinLock, SpinPass};
use std::sync::Wait;
use std::sync::atomic::{AtomicU64, Ordering};
use std::test::Fail;
use std::thread;
use std::thread::Threads;
use test_signal::Signal;

/// Pushes 1, or 2 and 3, whichever its turn is, under one guard. Counts the numbers for which there was memory.
fn push_in_turn<R: Wait>(
    rt: &R,
    lock: &SpinLock<Vec<u64>>,
    mut pass: SpinPass,
    turns: &AtomicU64,
    pushed: &AtomicU64,
) -> SpinPass
    requires own { IsSpinPass lock.now pass }
    ensures stayed { HasStayed pass result }
{
    let is_first = turns.fetch_add(1, Ordering::SeqCst) == 0;
    {
        let mut guard = SpinLock::blocking_lock(&mut pass, lock, rt);
        pushed.fetch_add(push_all(&mut guard, is_first), Ordering::SeqCst);
    }
    pass
}

/// Pushes 1, or else 2 and 3. How many there was memory for.
fn push_all(list: &mut Vec<u64>, is_first: bool) -> u64 {
    if is_first {
        return u64::from(list.push(1).is_ok());
    }
    u64::from(list.push(2).is_ok()) + u64::from(list.push(3).is_ok())
}

/// Whether the lock is free, and its list what the two threads make by turns.
fn has_all(lock: &SpinLock<Vec<u64>>, pass: &mut SpinPass) -> bool
    requires own { IsSpinPass lock.now pass.old }
{
    match SpinLock::try_lock(pass, lock) {
        Some(guard) => {
            let list = guard.as_slice();
            list == [1, 2, 3].as_slice() || list == [2, 3, 1].as_slice()
        }
        None => false,
    }
}

/// Two threads push numbers, one of them two under one guard.
#[test]
fn two_threads_push_under_their_guards(rt: HostRuntime) -> Result<(), Fail> {
    let (lock, pass) = SpinLock::new(rt.alloc(), Vec::new(rt.alloc()))?;
    let (turns, pushed) = (AtomicU64::new(0), AtomicU64::new(0));
    let mut pass = in_threads(
        &rt,
        &lock,
        pass,
        2,
        &|pass| { push_in_turn(&rt, &lock, pass, &turns, &pushed) },
    );
    let pushed = pushed.load(Ordering::SeqCst);
    assert_eq!(rt; (pushed, has_all(&lock, &mut pass)), (3, true));
    Ok(())
}

/// Adds 1 to the value 2500 times.
fn count_up<R: Wait>(rt: &R, lock: &SpinLock<u64>, mut pass: SpinPass) -> SpinPass
    requires own { IsSpinPass lock.now pass }
    ensures stayed { HasStayed pass result }
{
    for _ in 0..2500u64 {
        let mut guard = SpinLock::blocking_lock(&mut pass, lock, rt);
        *guard = guard.wrapping_add(1);
    }
    pass
}

#[test]
fn no_addition_is_lost(rt: HostRuntime) -> Result<(), Fail> {
    let (lock, pass) = SpinLock::new(rt.alloc(), 0u64)?;
    let mut pass = in_threads(&rt, &lock, pass, 2, &|pass| { count_up(&rt, &lock, pass) });
    assert_eq!(rt; value_if_free(&lock, &mut pass), Some(5000));
    Ok(())
}

/// What a holder and a caller tell each other.
#[derive(Drop)]
struct Told {
    /// The lock is held.
    held: Signal,
    /// The caller saw that it is, and waits for it next.
    waits: Signal,
    /// The holder is about to let go.
    ending: Signal,
}

impl Told {
    fn new() -> Told {
        Told {
            held: Signal::new(),
            waits: Signal::new(),
            ending: Signal::new(),
        }
    }
}

/// Holds the lock until the other thread waits for it, and a while longer. Leaves 7 in it, and tells whether the other came.
fn hold_until_waited_for(lock: &SpinLock<u64>, pass: &mut SpinPass, told: &Told) -> bool
    requires own { IsSpinPass lock.now pass.old }
    ensures stayed { HasStayed pass.old pass.new }
{
    match SpinLock::try_lock(pass, lock) {
        Some(mut guard) => {
            told.held.give();
            let came = told.waits.awaited();
            for _ in 0..1000u64 {
                thread::yield_now();
            }
            *guard = 7;
            told.ending.give();
            came
        }
        None => false,
    }
}

/// Whether the other thread holds the lock: it is told so, and its `try_lock` is refused. Tells that it waits for the lock next.
fn finds_it_held(lock: &SpinLock<u64>, pass: &mut SpinPass, told: &Told) -> bool
    requires own { IsSpinPass lock.now pass.old }
    ensures stayed { HasStayed pass.old pass.new }
{
    let was_held = told.held.awaited() && is_refused(lock, pass);
    told.waits.give();
    was_held
}

/// Waits for a lock that is held. What its guard lends, if the lock was held before and the holder was about to let go when it came in.
fn wait_by_blocking_lock<R: Wait>(
    rt: &R,
    lock: &SpinLock<u64>,
    pass: &mut SpinPass,
    told: &Told,
) -> Option<u64>
    requires own { IsSpinPass lock.now pass.old }
{
    let was_held = finds_it_held(lock, pass, told);
    let guard = SpinLock::blocking_lock(pass, lock, rt);
    if was_held && told.ending.is_given() {
        Some(*guard)
    } else {
        None
    }
}

/// The same by `lock`.
fn wait_by_lock<R: Wait>(
    rt: &R,
    lock: &SpinLock<u64>,
    pass: &mut SpinPass,
    told: &Told,
) -> Option<u64>
    requires own { IsSpinPass lock.now pass.old }
{
    let was_held = finds_it_held(lock, pass, told);
    match SpinLock::lock(pass, lock, rt) {
        Ok(guard) => {
            if was_held && told.ending.is_given() {
                Some(*guard)
            } else {
                None
            }
        }
        Err(_) => unreachable!(),
    }
}

/// One thread holds a new lock, and another waits for it by `lock` or `blocking_lock`. Whether both came, and what the other found.
fn wait_for_a_holder<R: Threads + Wait + Sync>(
    rt: &R,
    lock: &SpinLock<u64>,
    pass: SpinPass,
    by_lock: bool,
) -> (bool, Option<u64>)
    requires own { IsSpinPass lock.now pass }
{
    let Ok((mut one, mut two)) = pass.split(lock) else {
        unreachable!()
    };
    let told = Told::new();
    thread::join(
        rt,
        || hold_until_waited_for(lock, &mut one, &told),
        || {
            if by_lock {
                wait_by_lock(rt, lock, &mut two, &told)
            } else {
                wait_by_blocking_lock(rt, lock, &mut two, &told)
            }
        },
    )
}

/// A call comes in only once the holder has let go, and then finds what that has left.
#[test]
fn a_held_lock_is_waited_for_and_then_had(rt: HostRuntime) -> Result<(), Fail> {
    for by_lock in [false, true] {
        let (lock, pass) = SpinLock::new(rt.alloc(), 0u64)?;
        let came_and_found = wait_for_a_holder(&rt, &lock, pass, by_lock);
        assert_eq!(rt; came_and_found, (true, Some(7)));
    }
    Ok(())
}
