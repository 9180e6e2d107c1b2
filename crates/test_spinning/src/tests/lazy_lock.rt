//! The running lazy value.
mod gives;

ghost use Rattle.std.specs.Prelude.{◌≡◌, IfOk};
ghost use Rattle.running_passes.specs.Parts.{IsWhole};
ghost use Rattle.running_passes.specs.Views.{first_view};
ghost use Rattle.running_once.specs.Once.{no_runs};
ghost use Rattle.running_spin_lock.specs.ValueRule.{none_held};
ghost use Rattle.running_spin_lock.specs.SpinShown.{grants_of};
ghost use Rattle.running_lazy_lock.specs.LazyShown.{IsLazyPass, IsComplete, HasForced, known_by, known_of_init, init_in, ended_of, part_of};

use iceoryx2_pal_concurrency_sync::lazy_lock::{LazyLock, LazyPass};
use linked_list_allocator::LocalHeap;
use std::alloc::{AllocError, Global};
use std::sync::Wait;
use std::sync::atomic::{AtomicU64, Ordering};
use std::test::Fail;
use std::thread;
use std::thread::Threads;
use test_signal::Meeting;

/// The closure of most of these values.
fn forty_two() -> u64 {
    42
}

/// A new lazy value with this closure, and its pass.
fn new_lazy<F: FnOnce() -> u64 + Drop>(
    alloc: Global,
    closure: F,
) -> Result<(LazyLock<u64, F>, LazyPass), AllocError>
    ensures own { IfOk result (λ made. IsLazyPass made.0 made.1) }
    ensures first { IfOk result (λ made. (known_by made.1 ≡ first_view no_runs) × (known_of_init made.1 ≡ first_view none_held) × IsWhole (part_of made.1)) }
{
    match LazyLock::new(alloc, closure) {
        Ok(made) => Ok(made),
        Err((error, _)) => Err(error),
    }
}

/// Forces a new lazy value twice, by both calls, whose closure counts its calls: what is counted before, both values, and what is counted then.
fn read_counting<F: FnOnce() -> u64 + Drop, R: Wait>(
    rt: &R,
    alloc: Global,
    calls: &AtomicU64,
    closure: F,
) -> Result<[u64; 4], AllocError>
    requires may { (f : F) → F.IsAlwaysCallable f }
{
    let (lazy, mut pass) = new_lazy(alloc, closure)?;
    let before = calls.load(Ordering::SeqCst);
    let (first, _ran) = LazyLock::force_shown(&lazy, rt, &mut pass);
    let second = *LazyLock::force(&lazy, rt, &mut pass);
    Ok([before, *first, second, calls.load(Ordering::SeqCst)])
}

#[test]
fn a_value_is_made_once_and_read_twice(rt: HostRuntime) -> Result<(), Fail> {
    let calls = AtomicU64::new(0);
    let read = read_counting(&rt, rt.alloc(), &calls, || -> u64 {
        calls.fetch_add(1, Ordering::SeqCst);
        42
    })?;
    assert_eq!(rt; read, [0, 42, 42, 1]);
    Ok(())
}

/// Forces twice by the pass of a new value: the closure ran once, and its lock was granted once.
fn force_twice<F: FnOnce() -> u64 + Drop, R: Wait>(
    rt: &R,
    lazy: &LazyLock<u64, F>,
    pass: &mut LazyPass,
) -> u64
    requires own { IsLazyPass lazy.now pass.old }
    requires may { (f : F) → F.IsAlwaysCallable f }
    requires once { known_by pass.old ≡ first_view no_runs }
    requires init { known_of_init pass.old ≡ first_view none_held }
    ensures ran { ended_of pass.new ≡ 1 }
    ensures granted { grants_of (init_in pass.new) ≡ 1 }
{
    LazyLock::force(lazy, rt, pass);
    *LazyLock::force(lazy, rt, pass)
}

#[test]
fn the_closure_is_taken_once(rt: HostRuntime) -> Result<(), Fail> {
    let (lazy, mut pass) = new_lazy(rt.alloc(), forty_two)?;
    assert_eq!(rt; force_twice(&rt, &lazy, &mut pass), 42);
    Ok(())
}

/// Forces once.
fn force_once<F: FnOnce() -> u64 + Drop, R: Wait>(
    rt: &R,
    lazy: &LazyLock<u64, F>,
    pass: &mut LazyPass,
) -> u64
    requires own { IsLazyPass lazy.now pass.old }
    requires may { (f : F) → F.IsAlwaysCallable f }
    ensures forced { HasForced pass.old pass.new }
    ensures exact { IsWhole (part_of pass.old) → ended_of pass.new ≡ 1 }
{
    *LazyLock::force(lazy, rt, pass)
}

/// Forces by both halves of the whole pass, and joins them: that one knows of the end, and has run the one closure.
fn force_in_parts<F: FnOnce() -> u64 + Drop, R: Wait>(
    rt: &R,
    lazy: &LazyLock<u64, F>,
    pass: LazyPass,
) -> (LazyPass, [u64; 3])
    requires own { IsLazyPass lazy.now pass }
    requires whole { IsWhole (part_of pass) }
    requires may { (f : F) → F.IsAlwaysCallable f }
    ensures own { IsLazyPass lazy.now result.0 }
    ensures complete { IsComplete result.0 }
    ensures ran { ended_of result.0 ≡ 1 }
{
    let Ok((mut one, mut two)) = pass.split(lazy) else {
        unreachable!()
    };
    let first = force_once(rt, lazy, &mut one);
    let second = force_once(rt, lazy, &mut two);
    let Ok(mut pass) = LazyPass::join(one, two, lazy) else {
        unreachable!()
    };
    let third = force_once(rt, lazy, &mut pass);
    (pass, [first, second, third])
}

#[test]
fn parts_are_the_whole_again(rt: HostRuntime) -> Result<(), Fail> {
    let (lazy, pass) = new_lazy(rt.alloc(), forty_two)?;
    let (_pass, forced) = force_in_parts(&rt, &lazy, pass);
    assert_eq!(rt; forced, [42, 42, 42]);
    Ok(())
}

/// Waits until both threads are here, and forces. The value, if both were.
fn meet_and_force<F: FnOnce() -> u64 + Drop, R: Wait>(
    rt: &R,
    lazy: &LazyLock<u64, F>,
    pass: &mut LazyPass,
    meeting: &Meeting,
) -> Option<u64>
    requires own { IsLazyPass lazy.now pass.old }
    requires may { (f : F) → F.IsAlwaysCallable f }
{
    let came = meeting.meet();
    let value = *LazyLock::force(lazy, rt, pass);
    came.then_some(value)
}

/// Two threads meet and force a new lazy value with this closure. What each has, if both came.
fn force_in_two_threads<F: FnOnce() -> u64 + Drop + Send, R: Threads + Wait + Sync>(
    rt: &R,
    alloc: Global,
    closure: F,
) -> Result<(Option<u64>, Option<u64>), AllocError>
    requires may { (f : F) → F.IsAlwaysCallable f }
{
    let (lazy, pass) = new_lazy(alloc, closure)?;
    let Ok((mut one, mut two)) = pass.split(&lazy) else {
        unreachable!()
    };
    let meeting = Meeting::of(2);
    Ok(thread::join(
        rt,
        || meet_and_force(rt, &lazy, &mut one, &meeting),
        || meet_and_force(rt, &lazy, &mut two, &meeting),
    ))
}

#[test]
fn two_threads_force_one_value(rt: HostRuntime) -> Result<(), Fail> {
    let calls = AtomicU64::new(0);
    let forced = force_in_two_threads(&rt, rt.alloc(), || -> u64 {
        for _ in 0..100u64 {
            thread::yield_now();
        }
        calls.fetch_add(1, Ordering::SeqCst);
        42
    })?;
    assert_eq!(rt;
        (forced, calls.load(Ordering::SeqCst)),
        ((Some(42), Some(42)), 1)
    );
    Ok(())
}

/// Counts how often it is dropped.
struct Counted<'c> {
    drops: &'c AtomicU64,
}

impl Drop for Counted<'_> {
    fn drop(self) {
        self.drops.fetch_add(1, Ordering::SeqCst);
        let Counted { drops: _ } = self;
    }
}

/// Forces a new lazy value twice, and drops it. How often the value was dropped before that, and how often then.
fn force_and_drop<R: Wait>(
    rt: &R,
    alloc: Global,
    drops: &AtomicU64,
) -> Result<(u64, u64), AllocError> {
    match LazyLock::new(alloc, || Counted { drops }) {
        Ok((lazy, mut pass)) => {
            LazyLock::force(&lazy, rt, &mut pass);
            LazyLock::force(&lazy, rt, &mut pass);
            let before = drops.load(Ordering::SeqCst);
            drop(lazy);
            Ok((before, drops.load(Ordering::SeqCst)))
        }
        Err((error, _)) => Err(error),
    }
}

#[test]
fn a_made_value_is_dropped_with_the_lock(rt: HostRuntime) -> Result<(), Fail> {
    let drops = AtomicU64::new(0);
    assert_eq!(rt; force_and_drop(&rt, rt.alloc(), &drops)?, (0, 1));
    Ok(())
}

/// Drops a new lazy value that nobody forced. How often what its closure holds was dropped before that, and how often then.
fn drop_unforced(alloc: Global, drops: &AtomicU64) -> Result<(u64, u64), AllocError> {
    let held = Counted { drops };
    let (lazy, _pass) = new_lazy(alloc, move || -> u64 {
        drop(held);
        42
    })?;
    let before = drops.load(Ordering::SeqCst);
    drop(lazy);
    Ok((before, drops.load(Ordering::SeqCst)))
}

#[test]
fn a_closure_that_never_ran_is_dropped_with_the_lock(rt: HostRuntime) -> Result<(), Fail> {
    let drops = AtomicU64::new(0);
    assert_eq!(rt; drop_unforced(rt.alloc(), &drops)?, (0, 1));
    Ok(())
}

/// Whether a lazy value was made in a heap of this size, what it or else the closure that came back gives, and how many bytes of the
/// heap are used then.
fn a_lazy_value_in<R: Wait>(
    rt: &R,
    alloc: Global,
    size: usize,
) -> Result<(bool, u64, usize), AllocError> {
    let heap = LocalHeap::new(alloc, size)?;
    let (is_made, value) = match LazyLock::new(&heap, forty_two) {
        Ok((lazy, mut pass)) => (true, *LazyLock::force(&lazy, rt, &mut pass)),
        Err((_, closure)) => (false, closure()),
    };
    Ok((is_made, value, heap.used()))
}

/// The once is two blocks of 16 bytes, and the closure's lock three.
#[test]
fn a_lazy_value_that_finds_no_memory_hands_its_closure_back(rt: HostRuntime) -> Result<(), Fail> {
    for (size, room) in [
        (0, false),
        (16, false),
        (32, false),
        (48, false),
        (64, false),
        (80, true),
    ] {
        assert_eq!(rt; a_lazy_value_in(&rt, rt.alloc(), size)?, (room, 42, 0));
    }
    Ok(())
}

fn shared<X: Sync>(_: &X) {}

/// A lazy value may be shared also where its closure may only be moved from thread to thread.
fn shared_where_it_moves<T: Send + Sync, F: Send>(lazy: &LazyLock<T, F>) {
    shared(lazy);
}

#[test]
fn a_lazy_value_is_shared_where_its_closure_moves(rt: HostRuntime) -> Result<(), Fail> {
    let (lazy, mut pass) = new_lazy(rt.alloc(), forty_two)?;
    shared_where_it_moves(&lazy);
    assert_eq!(rt; *LazyLock::force(&lazy, &rt, &mut pass), 42);
    Ok(())
}
