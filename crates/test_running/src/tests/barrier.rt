//! The running barrier.
ghost use Rattle.std.specs.Prelude.{◌≡◌, ◌+◌, ◌<◌, IfOk};
ghost use Rattle.running_passes.specs.Passes.{IsSamePass};
ghost use Rattle.running_barrier.specs.BarrierShown.{IsBarrierPass, HasWaited, arrivals_of, waiters_of};

use iceoryx2_pal_concurrency_sync::WaitWord;
use iceoryx2_pal_concurrency_sync::strategy::barrier::{Barrier, BarrierFull, BarrierPass};
use std::alloc::{AllocError, Global};
use std::sync::Wait;
use std::sync::atomic::{AtomicU64, Ordering};
use std::test::Fail;
use std::thread;
use std::thread::Threads;
use test_signal::{Notes, Signal};

/// A wait closure: yields.
fn yield_once(_word: &WaitWord, _seen: &u64) {
    thread::yield_now();
}

/// A new barrier of so many, and two parts of its pass.
fn in_two_parts(
    alloc: Global,
    waiters: u32,
) -> Result<(Barrier, BarrierPass, BarrierPass), AllocError>
    ensures own { IfOk result (λ made. IsBarrierPass made.0 made.1 × IsBarrierPass made.0 made.2) }
{
    let (barrier, pass) = Barrier::new(alloc, waiters)?;
    match pass.split(&barrier) {
        Ok((one, two)) => Ok((barrier, one, two)),
        Err(_) => unreachable!(),
    }
}

/// What a closure noted: how often it was called, and at first what its word held and it was told.
type Noted = (u64, u64, u64);

/// A `wait`: its answer, and what its wait closure noted. That tells, too, that it was asked; the wake closure notes its calls.
fn wait_noted<R: Wait>(
    rt: &R,
    barrier: &Barrier,
    pass: &mut BarrierPass,
    asked: &Signal,
    wakes: &Notes,
) -> (Result<(), BarrierFull>, Noted)
    requires { IsBarrierPass barrier.now pass.old }
    ensures { IsSamePass pass.old pass.new }
{
    let notes = Notes::new();
    let answer = barrier.wait(
        rt,
        pass,
        |word, seen| {
            notes.note(word.load(), *seen);
            asked.give();
            thread::yield_now();
        },
        |word| wakes.note(word.load(), 0),
    );
    (answer, notes.noted())
}

/// A `wait` that meets nobody, and what its wake closure noted.
fn wait_alone<R: Wait>(
    rt: &R,
    barrier: &Barrier,
    pass: &mut BarrierPass,
) -> ((Result<(), BarrierFull>, Noted), Noted)
    requires { IsBarrierPass barrier.now pass.old }
    ensures { IsSamePass pass.old pass.new }
{
    let wakes = Notes::new();
    let waited = wait_noted(rt, barrier, pass, &Signal::new(), &wakes);
    (waited, wakes.noted())
}

const NEVER: Noted = (0, 0, 0);

#[test]
fn a_barrier_of_none_is_full(rt: HostRuntime) -> Result<(), Fail> {
    let (barrier, mut pass) = Barrier::new(rt.alloc(), 0)?;
    let first = wait_alone(&rt, &barrier, &mut pass);
    let second = wait_alone(&rt, &barrier, &mut pass);
    let full = ((Err(BarrierFull), NEVER), NEVER);
    assert_eq!(rt; (first, second), (full, full));
    Ok(())
}

#[test]
fn a_barrier_of_one_opens_at_each_call(rt: HostRuntime) -> Result<(), Fail> {
    let (barrier, mut pass) = Barrier::new(rt.alloc(), 1)?;
    let first = wait_alone(&rt, &barrier, &mut pass);
    let second = wait_alone(&rt, &barrier, &mut pass);
    let passed = (Ok(()), NEVER);
    assert_eq!(rt;
        (first, second),
        (
            (passed, (1, 4_294_967_296, 0)),
            (passed, (1, 8_589_934_592, 0))
        )
    );
    Ok(())
}

/// Waits once the other thread's closure was asked. Whether it was, and the answer.
fn wait_second<R: Wait>(
    rt: &R,
    barrier: &Barrier,
    pass: &mut BarrierPass,
    asked: &Signal,
    wakes: &Notes,
) -> (bool, Result<(), BarrierFull>)
    requires { IsBarrierPass barrier.now pass.old }
{
    let was_asked = asked.awaited();
    let (answer, _) = wait_noted(rt, barrier, pass, asked, wakes);
    (was_asked, answer)
}

/// Two threads wait at a new barrier of two, the second once the first has asked its closure. What the first was answered, what its word
/// held and it was told when it first asked, and what the second came to; and how often a wake closure was called.
fn wait_one_after_the_other<R: Threads + Wait + Sync>(
    rt: &R,
    alloc: Global,
) -> Result<
    (
        (Result<(), BarrierFull>, (u64, u64)),
        (bool, Result<(), BarrierFull>),
        u64,
    ),
    AllocError,
> {
    let (barrier, mut one, mut two) = in_two_parts(alloc, 2)?;
    let (asked, wakes) = (Signal::new(), Notes::new());
    let ((answer, (_, held, told)), second) = thread::join(
        rt,
        || wait_noted(rt, &barrier, &mut one, &asked, &wakes),
        || wait_second(rt, &barrier, &mut two, &asked, &wakes),
    );
    Ok(((answer, (held, told)), second, wakes.noted().0))
}

/// The second call arrives only after the first has asked its closure, so both calls are under way at once.
#[test]
fn a_barrier_of_two(rt: HostRuntime) -> Result<(), Fail> {
    let waited = wait_one_after_the_other(&rt, rt.alloc())?;
    assert_eq!(rt; waited, ((Ok(()), (1, 1)), (true, Ok(())), 1));
    Ok(())
}

/// What the threads of the next test count together.
#[derive(Drop)]
struct Counts {
    /// The arrivals, each counted before its call.
    arrivals: AtomicU64,
    wakes: AtomicU64,
    /// The calls that came back before all four of their round had come.
    early: AtomicU64,
}

impl Counts {
    fn new() -> Counts {
        Counts {
            arrivals: AtomicU64::new(0),
            wakes: AtomicU64::new(0),
            early: AtomicU64::new(0),
        }
    }

    /// The arrivals, the wakes, and the calls that came back early.
    fn counted(&self) -> (u64, u64, u64) {
        let arrivals = self.arrivals.load(Ordering::SeqCst);
        let wakes = self.wakes.load(Ordering::SeqCst);
        (arrivals, wakes, self.early.load(Ordering::SeqCst))
    }
}

fn wait_50_times<R: Wait>(
    rt: &R,
    barrier: &Barrier,
    mut pass: BarrierPass,
    counts: &Counts,
) -> BarrierPass
    requires own { IsBarrierPass barrier.now pass }
    requires some { 0 < waiters_of barrier.now }
    ensures waited { HasWaited 50 pass result }
{
    for round in 0..50u64 {
        counts.arrivals.fetch_add(1, Ordering::SeqCst);
        let passed = barrier.wait(rt, &mut pass, yield_once, |_| {
            counts.wakes.fetch_add(1, Ordering::SeqCst);
        });
        let Ok(()) = passed else { unreachable!() };
        if counts.arrivals.load(Ordering::SeqCst) < 4 * (round + 1) {
            counts.early.fetch_add(1, Ordering::SeqCst);
        }
    }
    pass
}

/// Two threads pass 50 rounds each, and their passes are one again.
#[tactic(auto, using(running_barrier::proofs::BarrierKeeps::parted_arrivals, running_barrier::proofs::BarrierKeeps::joined_arrivals))]
fn wait_in_two_threads<R: Threads + Wait + Sync>(
    rt: &R,
    barrier: &Barrier,
    pass: BarrierPass,
    counts: &Counts,
) -> BarrierPass
    requires own { IsBarrierPass barrier.now pass }
    requires some { 0 < waiters_of barrier.now }
    ensures own { IsBarrierPass barrier.now result }
    ensures arrivals { arrivals_of result ≡ arrivals_of pass + 100 }
{
    let Ok((one, two)) = pass.split(barrier) else {
        unreachable!()
    };
    let (one, two) = thread::join(
        rt,
        || -> BarrierPass
            requires { IsBarrierPass barrier.now one × (0 < waiters_of barrier.now) }
            ensures { HasWaited 50 one result }
        { wait_50_times(rt, barrier, one, counts) },
        || -> BarrierPass
            requires { IsBarrierPass barrier.now two × (0 < waiters_of barrier.now) }
            ensures { HasWaited 50 two result }
        { wait_50_times(rt, barrier, two, counts) },
    );
    let Ok(pass) = BarrierPass::join(one, two, barrier) else {
        unreachable!()
    };
    pass
}

/// Four threads pass 50 rounds each, and their passes are one again, which has 200 arrivals more.
#[tactic(auto, using(running_barrier::proofs::BarrierKeeps::parted_arrivals, running_barrier::proofs::BarrierKeeps::joined_arrivals))]
fn wait_in_four_threads<R: Threads + Wait + Sync>(
    rt: &R,
    barrier: &Barrier,
    pass: BarrierPass,
    counts: &Counts,
) -> BarrierPass
    requires own { IsBarrierPass barrier.now pass }
    requires some { 0 < waiters_of barrier.now }
    ensures own { IsBarrierPass barrier.now result }
    ensures arrivals { arrivals_of result ≡ arrivals_of pass + 200 }
{
    let Ok((one, two)) = pass.split(barrier) else {
        unreachable!()
    };
    let (one, two) = thread::join(
        rt,
        || -> BarrierPass
            requires { IsBarrierPass barrier.now one × (0 < waiters_of barrier.now) }
            ensures { IsBarrierPass barrier.entry.now result × (arrivals_of result ≡ arrivals_of one + 100) }
        { wait_in_two_threads(rt, barrier, one, counts) },
        || -> BarrierPass
            requires { IsBarrierPass barrier.now two × (0 < waiters_of barrier.now) }
            ensures { IsBarrierPass barrier.entry.now result × (arrivals_of result ≡ arrivals_of two + 100) }
        { wait_in_two_threads(rt, barrier, two, counts) },
    );
    let Ok(pass) = BarrierPass::join(one, two, barrier) else {
        unreachable!()
    };
    pass
}

#[test]
fn four_threads_pass_50_rounds(rt: HostRuntime) -> Result<(), Fail> {
    let (barrier, pass) = Barrier::new(rt.alloc(), 4)?;
    let counts = Counts::new();
    wait_in_four_threads(&rt, &barrier, pass, &counts);
    assert_eq!(rt; counts.counted(), (200, 50, 0));
    Ok(())
}
