//! Handles of a monitor.
use sleeping_monitor::{Handle, MonitorHandle, SleepingMonitor};
use std::alloc::AllocError;
use std::sync::Wait;
use std::test::Fail;
use std::thread;
use std::time::{Clock, Duration, Instant};

/// How often the buffer is run, and how many numbers each thread puts or takes in a run.
const RUNS: u64 = 300;

const NUMBERS: u64 = 20;

/// Puts numbers into a place for one, each once it is empty.
fn put_all<R: Wait>(rt: &R, mut handle: MonitorHandle<'_, Option<u64>>) {
    for number in 0..NUMBERS {
        handle.when(rt, |place| {
            if place.is_some() {
                return None;
            }
            *place = Some(number);
            Some(())
        });
    }
}

/// Takes as many, each once it is there, and adds them up.
fn take_all<R: Wait>(rt: &R, mut handle: MonitorHandle<'_, Option<u64>>) -> u64 {
    let mut sum = 0u64;
    for _ in 0..NUMBERS {
        sum = sum.wrapping_add(handle.when(rt, |place| place.take()));
    }
    sum
}

/// What two take that two others put.
fn run_once<R: Wait + thread::Threads + Sync>(
    rt: &R,
    whole: MonitorHandle<'_, Option<u64>>,
) -> u64 {
    let (puts, takes) = whole.split();
    let ((one, two), (three, four)) = (puts.split(), takes.split());
    let (((), ()), (first, second)) = thread::join(
        rt,
        || put_both(rt, one, two),
        || take_both(rt, three, four),
    );
    first.wrapping_add(second)
}

fn put_both<R: Wait + thread::Threads + Sync>(
    rt: &R,
    one: MonitorHandle<'_, Option<u64>>,
    two: MonitorHandle<'_, Option<u64>>,
) -> ((), ()) {
    thread::join(rt, || put_all(rt, one), || put_all(rt, two))
}

fn take_both<R: Wait + thread::Threads + Sync>(
    rt: &R,
    one: MonitorHandle<'_, Option<u64>>,
    two: MonitorHandle<'_, Option<u64>>,
) -> (u64, u64) {
    thread::join(rt, || take_all(rt, one), || take_all(rt, two))
}

#[test]
fn two_put_and_two_take_time_and_again(rt: HostRuntime) -> Result<(), Fail> {
    for _ in 0..RUNS {
        let Ok((place, pass)) = SleepingMonitor::new(rt.alloc(), None::<u64>) else {
            return Err(AllocError)?;
        };
        assert_eq!(rt; run_once(&rt, place.handle(pass)), NUMBERS * (NUMBERS - 1));
    }
    Ok(())
}

#[test]
fn who_waits_gives_up_at_a_deadline(rt: HostRuntime) -> Result<(), Fail> {
    let Ok((place, pass)) = SleepingMonitor::new(rt.alloc(), None::<u64>) else {
        return Err(AllocError)?;
    };
    let mut handle = place.handle(pass);
    let deadline = Instant::now(&rt)?.checked_add(Duration::from_millis(2));
    assert!(rt;
        handle
            .when_until(&rt, deadline, |place| place.take())
            .is_none()
    );
    handle.change(&rt, |place| *place = Some(7));
    assert_eq!(rt;
        handle.when_until(&rt, deadline, |place| place.take()),
        Some(7)
    );
    Ok(())
}
