//! Handles of a barrier.
use sleeping_barrier::{BarrierHandle, Handle, SleepingBarrier};
use std::sync::Wait;
use std::sync::atomic::{AtomicU64, Ordering};
use std::test::Fail;
use std::thread;

/// How many meet, and how often.
const THREADS: u64 = 4;

const ROUNDS: u64 = 500;

/// Counts, meets the others, and looks whether all have counted; how often not.
fn meet_often<R: Wait>(rt: &R, mut handle: BarrierHandle<'_>, counted: &AtomicU64) -> u64 {
    let mut early = 0u64;
    for round in 1..=ROUNDS {
        counted.fetch_add(1, Ordering::SeqCst);
        if handle.wait(rt).is_err() || counted.load(Ordering::SeqCst) < round * THREADS {
            early = early.wrapping_add(1);
        }
    }
    early
}

#[test]
fn nobody_passes_before_all_have_come(rt: HostRuntime) -> Result<(), Fail> {
    let counted = AtomicU64::new(0);
    let (barrier, pass) = SleepingBarrier::new(rt.alloc(), THREADS as u32)?;
    let handles = barrier
        .handle(pass)
        .split_into(rt.alloc(), THREADS as usize)?;
    let early = thread::map_vec(&rt, handles, &|handle| meet_often(&rt, handle, &counted))?;
    assert!(rt; early.as_slice() == [0, 0, 0, 0].as_slice());
    Ok(())
}

#[test]
fn who_meets_nobody(rt: HostRuntime) -> Result<(), Fail> {
    let (alone, pass) = SleepingBarrier::new(rt.alloc(), 1)?;
    let (one, other) = alone.handle(pass).split();
    let mut handle = one.join(other);
    assert!(rt; handle.wait(&rt).is_ok());
    let (none, pass) = SleepingBarrier::new(rt.alloc(), 0)?;
    assert!(rt; none.handle(pass).wait(&rt).is_err());
    Ok(())
}
