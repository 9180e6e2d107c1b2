//! The running atomic: the model's texts with a whole pass, and threads that meet.
ghost use Rattle.running_atomic.specs.AtomicShown.{IsAtomicPass, HasStayed};

use iceoryx2_pal_concurrency_sync::atomic::internal::AtomicInteger;
use iceoryx2_pal_concurrency_sync::atomic::{Atomic, AtomicPass, Ordering};
use iceoryx2_pal_concurrency_sync::in_threads;
use std::alloc::{AllocError, Global};
use std::sync::Wait;
use std::sync::atomic::AtomicU64;
use std::test::Fail;
use std::thread;
use std::thread::Threads;
use test_signal::Signal;

const ORDER: Ordering = Ordering::SeqCst;

#[test]
fn one_pass_by_turns(rt: HostRuntime) -> Result<(), Fail> {
    let (atomic, mut pass) = Atomic::<i64>::new(rt.alloc(), 1)?;
    atomic.store(&rt, &mut pass, 5, ORDER);
    let loaded = atomic.load(&rt, &mut pass, ORDER);
    let swapped = atomic.swap(&rt, &mut pass, 6, ORDER);
    let subtracted = atomic.fetch_sub(&rt, &mut pass, 7, ORDER);
    assert_eq!(rt;
        [loaded, swapped, subtracted, atomic.into_inner(pass)],
        [5, 5, 6, -1]
    );
    Ok(())
}

/// What an addition to a new atomic answers, and what a load tells then.
fn add<T: AtomicInteger, R: Wait>(
    rt: &R,
    alloc: Global,
    first: T,
    value: T,
) -> Result<(T, T), AllocError> {
    let (atomic, mut pass) = Atomic::<T>::new(alloc, first)?;
    let old = atomic.fetch_add(rt, &mut pass, value, ORDER);
    Ok((old, atomic.load(rt, &mut pass, ORDER)))
}

#[test]
fn sums_wrap(rt: HostRuntime) -> Result<(), Fail> {
    assert_eq!(rt; add(&rt, rt.alloc(), u64::MAX, 1)?, (u64::MAX, 0));
    assert_eq!(rt; add(&rt, rt.alloc(), -1i128, 1)?, (-1, 0));
    let (atomic, mut pass) = Atomic::<i64>::new(rt.alloc(), i64::MIN)?;
    let old = atomic.fetch_sub(&rt, &mut pass, 1, ORDER);
    let loaded = atomic.load(&rt, &mut pass, ORDER);
    assert_eq!(rt;
        (old, loaded, atomic.into_inner(pass)),
        (i64::MIN, i64::MAX, i64::MAX)
    );
    let (atomic, mut pass) = Atomic::<u128>::new(rt.alloc(), 18446744073709551615)?;
    let old = atomic.fetch_add(&rt, &mut pass, 1, ORDER);
    assert_eq!(rt;
        (old, atomic.into_inner(pass)),
        (18446744073709551615, 18446744073709551616)
    );
    Ok(())
}

/// What an exchange answers, or a weak one, and the value after it.
fn exchange<R: Wait>(
    rt: &R,
    atomic: &Atomic<u64>,
    pass: &mut AtomicPass<u64>,
    is_weak: bool,
    current: u64,
    new: u64,
) -> (Result<u64, u64>, u64)
    requires own { IsAtomicPass atomic.now pass.old }
    ensures stayed { HasStayed pass.old pass.new }
{
    if is_weak {
        let answer = atomic.compare_exchange_weak(rt, pass, current, new, ORDER, ORDER);
        return (answer, atomic.load(rt, pass, ORDER));
    }
    let answer = atomic.compare_exchange(rt, pass, current, new, ORDER, ORDER);
    (answer, atomic.load(rt, pass, ORDER))
}

#[test]
fn exchanges_compare(rt: HostRuntime) -> Result<(), Fail> {
    let (atomic, mut pass) = Atomic::<u64>::new(rt.alloc(), 7)?;
    let exchanges = [
        exchange(&rt, &atomic, &mut pass, false, 8, 9),
        exchange(&rt, &atomic, &mut pass, false, 7, 9),
        exchange(&rt, &atomic, &mut pass, true, 7, 3),
        exchange(&rt, &atomic, &mut pass, true, 9, 3),
    ];
    assert_eq!(rt;
        (exchanges, atomic.into_inner(pass)),
        ([(Err(7), 7), (Ok(7), 9), (Err(9), 9), (Ok(9), 3)], 3)
    );
    Ok(())
}

/// What calls on bits answer, and a load after the first; and the value at the end.
fn mix_bits<R: Wait>(rt: &R, atomic: Atomic<u64>, mut pass: AtomicPass<u64>) -> [u64; 6]
    requires own { IsAtomicPass atomic pass }
{
    let inverted = atomic.fetch_nand(rt, &mut pass, 10, ORDER);
    let loaded = atomic.load(rt, &mut pass, ORDER);
    let both = atomic.fetch_and(rt, &mut pass, 12, ORDER);
    let one = atomic.fetch_or(rt, &mut pass, 3, ORDER);
    let differing = atomic.fetch_xor(rt, &mut pass, 5, ORDER);
    [
        inverted,
        loaded,
        both,
        one,
        differing,
        atomic.into_inner(pass),
    ]
}

/// What `fetch_max` and `fetch_min` answer, and the value at the end.
fn take_extremes<R: Wait>(rt: &R, atomic: Atomic<i64>, mut pass: AtomicPass<i64>) -> [i64; 3]
    requires own { IsAtomicPass atomic pass }
{
    let before_max = atomic.fetch_max(rt, &mut pass, 3, ORDER);
    let before_min = atomic.fetch_min(rt, &mut pass, -7, ORDER);
    [before_max, before_min, atomic.into_inner(pass)]
}

#[test]
fn bits_and_extremes(rt: HostRuntime) -> Result<(), Fail> {
    let (atomic, pass) = Atomic::<u64>::new(rt.alloc(), 12)?;
    let all_but_eight = 18446744073709551607;
    assert_eq!(rt;
        mix_bits(&rt, atomic, pass),
        [12, all_but_eight, all_but_eight, 4, 7, 2]
    );
    let (atomic, pass) = Atomic::<i64>::new(rt.alloc(), -5)?;
    assert_eq!(rt; take_extremes(&rt, atomic, pass), [-5, 3, -7]);
    Ok(())
}

/// What an update answers whose closure chooses this, how often it was asked, and the value after it.
fn update<R: Wait>(
    rt: &R,
    atomic: &Atomic<u64>,
    pass: &mut AtomicPass<u64>,
    choice: Option<u64>,
) -> (Result<u64, u64>, u64, u64)
    requires own { IsAtomicPass atomic.now pass.old }
    ensures stayed { HasStayed pass.old pass.new }
{
    let calls = AtomicU64::new(0);
    let answer = atomic.fetch_update(rt, pass, ORDER, ORDER, |_old| {
        calls.fetch_add(1, ORDER);
        choice
    });
    let calls = calls.load(ORDER);
    (answer, calls, atomic.load(rt, pass, ORDER))
}

#[test]
fn an_update_asks_once(rt: HostRuntime) -> Result<(), Fail> {
    let (atomic, mut pass) = Atomic::<u64>::new(rt.alloc(), 5)?;
    let updates = [
        update(&rt, &atomic, &mut pass, None),
        update(&rt, &atomic, &mut pass, Some(8)),
    ];
    assert_eq!(rt;
        (updates, atomic.into_inner(pass)),
        ([(Err(5), 1, 5), (Ok(5), 1, 8)], 8)
    );
    Ok(())
}

/// How an atomic of this value shows itself, by `Display` and by `Debug`.
fn shown<T: AtomicInteger, R: Wait>(rt: &R, alloc: Global, value: T) -> Result<String, AllocError> {
    let (atomic, mut pass) = Atomic::<T>::new(alloc, value)?;
    let shown = atomic.shown(rt, &mut pass);
    format!(in alloc; "{shown}, {shown:?}")
}

#[test]
fn a_shown_atomic_prints_its_value(rt: HostRuntime) -> Result<(), Fail> {
    let told = shown(&rt, rt.alloc(), 3u64)?;
    assert_eq!(rt;
        told.as_str(),
        "Atomic<u64> { value: 3 }, Atomic<u64> { value: 3 }"
    );
    let told = shown(&rt, rt.alloc(), -4i128)?;
    assert_eq!(rt;
        told.as_str(),
        "Atomic<i128> { value: -4 }, Atomic<i128> { value: -4 }"
    );
    Ok(())
}

/// Adds 1 a thousand times.
fn add_often<R: Wait>(rt: &R, atomic: &Atomic<u64>, mut pass: AtomicPass<u64>) -> AtomicPass<u64>
    requires own { IsAtomicPass atomic.now pass }
    ensures stayed { HasStayed pass result }
{
    for _ in 0..1000u64 {
        atomic.fetch_add(rt, &mut pass, 1, ORDER);
    }
    pass
}

/// Two threads with the halves of a pass add 1 a thousand times each: what is loaded then, and at the end.
#[test]
fn two_threads_add(rt: HostRuntime) -> Result<(), Fail> {
    let (atomic, pass) = Atomic::<u64>::new(rt.alloc(), 0)?;
    let mut pass = in_threads(
        &rt,
        &atomic,
        pass,
        2,
        &|pass| { add_often(&rt, &atomic, pass) },
    );
    let loaded = atomic.load(&rt, &mut pass, ORDER);
    assert_eq!(rt; (loaded, atomic.into_inner(pass)), (2000, 2000));
    Ok(())
}

/// What is added to a wide value: half of it carries from the low word into the high one.
const STRIDE: u128 = (1 << 64) + (1 << 63);

/// Adds a stride a thousand times.
fn stride_often<R: Wait>(
    rt: &R,
    atomic: &Atomic<u128>,
    mut pass: AtomicPass<u128>,
) -> AtomicPass<u128>
    requires own { IsAtomicPass atomic.now pass }
    ensures stayed { HasStayed pass result }
{
    for _ in 0..1000u64 {
        atomic.fetch_add(rt, &mut pass, STRIDE, ORDER);
    }
    pass
}

/// How many loads, of so many, tell a value that no number of strides makes.
fn count_torn<R: Wait>(
    rt: &R,
    atomic: &Atomic<u128>,
    pass: &mut AtomicPass<u128>,
    times: u64,
) -> u64
    requires own { IsAtomicPass atomic.now pass.old }
{
    let mut torn = 0;
    for _ in 0..times {
        if atomic.load(rt, pass, ORDER) % STRIDE != 0 {
            torn += 1;
        }
    }
    torn
}

/// Two threads add strides, while a third loads: how often it sees a torn value, and the value at the end.
fn watch_strides<R: Threads + Wait + Sync>(
    rt: &R,
    atomic: Atomic<u128>,
    pass: AtomicPass<u128>,
) -> (u64, u128)
    requires own { IsAtomicPass atomic pass }
{
    let shared = &atomic;
    let Ok((adding, mut loading)) = pass.split(shared) else {
        unreachable!()
    };
    let (torn, added) = thread::join(
        rt,
        || -> u64
            requires { IsAtomicPass shared.now loading }
        { count_torn(rt, shared, &mut loading, 2000) },
        || -> AtomicPass<u128>
            requires { IsAtomicPass shared.now adding }
            ensures { IsAtomicPass shared.entry.now result }
        {
            in_threads(
                rt,
                shared,
                adding,
                2,
                &|pass| { stride_often(rt, shared, pass) },
            )
        },
    );
    (torn, atomic.into_inner(added))
}

#[test]
fn no_value_is_torn(rt: HostRuntime) -> Result<(), Fail> {
    let (atomic, pass) = Atomic::<u128>::new(rt.alloc(), 0)?;
    assert_eq!(rt; watch_strides(&rt, atomic, pass), (0, 2000 * STRIDE));
    Ok(())
}

/// A number in both words of a wide value.
const BOTH: u128 = (1 << 64) + 1;

/// Stores the first so many numbers, each in both words, once the other thread loads. Whether that came.
fn store_numbers<R: Wait>(
    rt: &R,
    atomic: &Atomic<u128>,
    pass: &mut AtomicPass<u128>,
    loads: &Signal,
    last: u64,
) -> bool
    requires own { IsAtomicPass atomic.now pass.old }
{
    let came = loads.awaited();
    for number in 0..last {
        let number = u128::from(number).wrapping_add(1);
        atomic.store(rt, pass, number.wrapping_mul(BOTH), ORDER);
    }
    came
}

/// Loads until it sees the last number, a million times at most. Whether it saw that, only values that were stored, and none that was
/// stored before one that it had seen.
fn load_until_last<R: Wait>(
    rt: &R,
    atomic: &Atomic<u128>,
    pass: &mut AtomicPass<u128>,
    loads: &Signal,
    last: u64,
) -> bool
    requires own { IsAtomicPass atomic.now pass.old }
{
    let mut before = 0u128;
    for _ in 0..1_000_000u64 {
        let value = atomic.load(rt, pass, ORDER);
        loads.give();
        if value < before || value % BOTH != 0 {
            return false;
        }
        if value / BOTH == u128::from(last) {
            return true;
        }
        before = value;
        thread::yield_now();
    }
    false
}

/// A load beside stores tells the values in the order in which they were stored, none half written.
#[test]
fn loads_beside_stores(rt: HostRuntime) -> Result<(), Fail> {
    let (atomic, pass) = Atomic::<u128>::new(rt.alloc(), 0)?;
    let Ok((mut one, mut two)) = pass.split(&atomic) else {
        unreachable!()
    };
    let loads = Signal::new();
    let came_and_saw = thread::join(
        &rt,
        || store_numbers(&rt, &atomic, &mut one, &loads, 1000),
        || load_until_last(&rt, &atomic, &mut two, &loads, 1000),
    );
    assert_eq!(rt; came_and_saw, (true, true));
    Ok(())
}
