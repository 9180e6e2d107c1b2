//! The running once.
ghost use Rattle.std.specs.Prelude.{◌≡◌, IfOk};
ghost use Rattle.running_passes.specs.Parts.{IsWhole};
ghost use Rattle.running_passes.specs.Passes.{IsSamePass};
ghost use Rattle.running_once.specs.OnceShown.{IsOncePass, IsComplete, HasCompleted, ended_of, part_of_once, pass_in};

use iceoryx2_pal_concurrency_sync::in_threads;
use iceoryx2_pal_concurrency_sync::once::{Once, OncePass};
use std::alloc::{AllocError, Global};
use std::sync::Wait;
use std::sync::atomic::{AtomicU64, Ordering};
use std::test::Fail;
use std::thread;
use std::thread::Threads;
use test_signal::{Meeting, Signal};

/// A new once, and two parts of its pass.
fn in_two_parts(alloc: Global) -> Result<(Once, OncePass, OncePass), AllocError>
    ensures own { IfOk result (λ made. IsOncePass made.0 made.1 × IsOncePass made.0 made.2) }
{
    let (once, pass) = Once::new(alloc)?;
    match pass.split(&once) {
        Ok((one, two)) => Ok((once, one, two)),
        Err(_) => unreachable!(),
    }
}

/// Calls a once twice with its whole pass, each time with a closure of its own.
fn call_twice<R: Wait>(
    rt: &R,
    once: &Once,
    pass: &mut OncePass,
    first: &AtomicU64,
    second: &AtomicU64,
)
    requires own { IsOncePass once.now pass.old }
    requires whole { IsWhole (part_of_once pass.old) }
    ensures same { IsSamePass (pass_in pass.old) (pass_in pass.new) }
    ensures one { ended_of pass.new ≡ 1 }
    ensures complete { IsComplete pass.new }
{
    once.call_once(rt, pass, || {
        first.fetch_add(1, Ordering::SeqCst);
    });
    once.call_once(rt, pass, || {
        second.fetch_add(1, Ordering::SeqCst);
    });
}

#[test]
fn the_first_closure_alone_runs(rt: HostRuntime) -> Result<(), Fail> {
    let (once, mut pass) = Once::new(rt.alloc())?;
    let (first, second) = (AtomicU64::new(0), AtomicU64::new(0));
    let before = once.is_completed(&mut pass);
    call_twice(&rt, &once, &mut pass, &first, &second);
    let after = once.is_completed(&mut pass);
    let runs = (first.load(Ordering::SeqCst), second.load(Ordering::SeqCst));
    assert_eq!(rt; (before, after, runs), (false, true, (1, 0)));
    Ok(())
}

/// What `is_completed` with another pass answers within the closure, and after the call.
fn ask_within<R: Wait>(rt: &R, once: &Once, one: &mut OncePass, two: &mut OncePass) -> (u64, bool)
    requires { IsOncePass once.now one.old × IsOncePass once.now two.old }
{
    let within = AtomicU64::new(9);
    once.call_once(rt, one, || {
        let complete = once.is_completed(two);
        within.store(u64::from(complete), Ordering::SeqCst);
    });
    let within = within.load(Ordering::SeqCst);
    (within, once.is_completed(one))
}

/// A call that stored 2 before its closure has ended would have the closure see it.
#[test]
fn it_is_complete_only_after_the_end(rt: HostRuntime) -> Result<(), Fail> {
    let (once, mut one, mut two) = in_two_parts(rt.alloc())?;
    assert_eq!(rt; ask_within(&rt, &once, &mut one, &mut two), (0, true));
    Ok(())
}

/// What the threads of the next test do together.
#[derive(Drop)]
struct Work {
    /// Of the threads that are about to call.
    meeting: Meeting,
    /// How many closures ran.
    runs: AtomicU64,
    /// What the closure made.
    made: AtomicU64,
    /// How many calls saw all that the closure did.
    saw: AtomicU64,
}

/// Waits until all four threads are here, and calls with a closure that takes its time. Counts whether it sees all that the closure did.
fn meet_and_call<R: Wait>(rt: &R, once: &Once, mut pass: OncePass, work: &Work) -> OncePass
    requires own { IsOncePass once.now pass }
    ensures completed { HasCompleted pass result }
{
    let came = work.meeting.meet();
    once.call_once(rt, &mut pass, || {
        work.runs.fetch_add(1, Ordering::SeqCst);
        for _ in 0..100u64 {
            thread::yield_now();
        }
        work.made.store(7, Ordering::SeqCst);
    });
    if came && work.made.load(Ordering::SeqCst) == 7 {
        work.saw.fetch_add(1, Ordering::SeqCst);
    }
    pass
}

#[test]
fn of_four_threads_one_runs_its_closure(rt: HostRuntime) -> Result<(), Fail> {
    let (once, pass) = Once::new(rt.alloc())?;
    let work = Work {
        meeting: Meeting::of(4),
        runs: AtomicU64::new(0),
        made: AtomicU64::new(0),
        saw: AtomicU64::new(0),
    };
    in_threads(
        &rt,
        &once,
        pass,
        4,
        &|pass| { meet_and_call(&rt, &once, pass, &work) },
    );
    let (runs, saw) = (
        work.runs.load(Ordering::SeqCst),
        work.saw.load(Ordering::SeqCst),
    );
    assert_eq!(rt; (runs, saw), (1, 4));
    Ok(())
}

/// What two threads tell each other, of which one calls while the closure of the other runs.
#[derive(Drop)]
struct Told {
    /// The closure runs; then, the other is about to call.
    meeting: Meeting,
    /// The closure is about to end.
    ending: Signal,
}

/// Calls with a closure that ends a while after the other thread has begun to call. Whether that came.
fn call_first<R: Wait>(rt: &R, once: &Once, pass: &mut OncePass, told: &Told) -> bool
    requires { IsOncePass once.now pass.old }
{
    let came = Signal::new();
    once.call_once(rt, pass, || {
        if told.meeting.meet() && told.meeting.meet() {
            came.give();
        }
        for _ in 0..1000u64 {
            thread::yield_now();
        }
        told.ending.give();
    });
    came.is_given()
}

/// Calls while the closure of the other thread runs. Whether the once was not complete before, that closure was about to end when the call
/// returned, and its own did not run.
fn call_second<R: Wait>(rt: &R, once: &Once, pass: &mut OncePass, told: &Told) -> bool
    requires { IsOncePass once.now pass.old }
{
    let runs = told.meeting.meet();
    let was_complete = once.is_completed(pass);
    let ran = Signal::new();
    let came = told.meeting.meet();
    once.call_once(rt, pass, || ran.give());
    runs && came && !was_complete && told.ending.is_given() && !ran.is_given()
}

/// Two threads call a new once, the second while the closure of the first runs. What both tell.
fn call_one_within_the_other<R: Threads + Wait + Sync>(
    rt: &R,
    alloc: Global,
) -> Result<(bool, bool), AllocError> {
    let (once, mut one, mut two) = in_two_parts(alloc)?;
    let told = Told {
        meeting: Meeting::of(2),
        ending: Signal::new(),
    };
    Ok(thread::join(
        rt,
        || call_first(rt, &once, &mut one, &told),
        || call_second(rt, &once, &mut two, &told),
    ))
}

/// A call that comes while the closure of another runs returns only once that has ended.
#[test]
fn a_second_caller_waits_for_the_closure(rt: HostRuntime) -> Result<(), Fail> {
    assert_eq!(rt; call_one_within_the_other(&rt, rt.alloc())?, (true, true));
    Ok(())
}

/// Calls in one part of a new once's pass, and joins the parts: the joined pass knows of the end, and has it.
fn call_in_a_part<R: Wait>(rt: &R, once: &Once, pass: OncePass) -> OncePass
    requires own { IsOncePass once.now pass }
    ensures own { IsOncePass once.now result }
    ensures complete { IsComplete result }
{
    let Ok((mut one, two)) = pass.split(once) else {
        unreachable!()
    };
    once.call_once(rt, &mut one, || ());
    let Ok(both) = OncePass::join(one, two, once) else {
        unreachable!()
    };
    both
}

#[test]
fn a_joined_pass_knows_of_the_end(rt: HostRuntime) -> Result<(), Fail> {
    let (once, pass) = Once::new(rt.alloc())?;
    let mut pass = call_in_a_part(&rt, &once, pass);
    assert!(rt; once.is_completed(&mut pass));
    Ok(())
}
