//! Handles of a reader-preferring lock.
use super::linger;
use running_passes::WaitResult;
use running_rw_reader::RwLockReaderPreference;
use sleeping_rw_reader::{Handle, Reading, RwReaderHandle, SleepingRwReader, Writing};
use std::sync::Wait;
use std::sync::atomic::{AtomicU64, Ordering};
use std::test::Fail;
use std::thread;
use std::time::{Clock, Instant};

/// Two numbers that are equal wherever nobody writes.
#[derive(Drop)]
struct Pair {
    one: AtomicU64,
    two: AtomicU64,
}

impl Pair {
    /// Adds 1 to both, each by a load and a store.
    fn add_one(&self, _under: &Writing<'_, '_>) {
        for number in [&self.one, &self.two] {
            let found = number.load(Ordering::SeqCst);
            number.store(found.wrapping_add(1), Ordering::SeqCst);
        }
    }

    fn is_torn(&self, _under: &Reading<'_, '_>) -> bool {
        self.one.load(Ordering::SeqCst) != self.two.load(Ordering::SeqCst)
    }
}

/// Writes 2500 times, and tells how often it read two numbers that differ.
fn write_and_read<R: Wait>(rt: &R, mut handle: RwReaderHandle<'_>, pair: &Pair) -> u64 {
    let mut torn = 0u64;
    for _ in 0..2500u64 {
        pair.add_one(&handle.write(rt));
        if pair.is_torn(&handle.read(rt)) {
            torn = torn.wrapping_add(1);
        }
    }
    torn
}

#[test]
fn nobody_of_four_reads_half_a_write(rt: HostRuntime) -> Result<(), Fail> {
    let pair = Pair {
        one: AtomicU64::new(0),
        two: AtomicU64::new(0),
    };
    let (lock, pass) = SleepingRwReader::new(rt.alloc())?;
    let handles = lock.handle(pass).split_into(rt.alloc(), 4)?;
    let torn = thread::map_vec(&rt, handles, &|handle| write_and_read(&rt, handle, &pair))?;
    assert!(rt; torn.as_slice() == [0, 0, 0, 0].as_slice());
    assert_eq!(rt; pair.one.load(Ordering::SeqCst), 10000);
    Ok(())
}

/// Which calls that do not sleep are granted.
fn granted<R: Wait + Clock>(
    rt: &R,
    handle: &mut RwReaderHandle<'_>,
    passed: Option<Instant>,
) -> [bool; 4] {
    let read_at_once = handle.try_read().is_some();
    let read = handle.read_until(rt, passed).is_some();
    let wrote_at_once = handle.try_write().is_some();
    let wrote = handle.write_until(rt, passed).is_some();
    [read_at_once, read, wrote_at_once, wrote]
}

#[test]
fn guards_refuse_others_until_their_scopes_end(rt: HostRuntime) -> Result<(), Fail> {
    let (lock, pass) = SleepingRwReader::new(rt.alloc())?;
    let (mut one, mut two) = lock.handle(pass).split();
    let passed = Some(Instant::now(&rt)?);
    for _ in 0..2u64 {
        let _writing = one.write(&rt);
        assert_eq!(rt; granted(&rt, &mut two, passed), [false; 4]);
    }
    for _ in 0..2u64 {
        let _reading = one.read(&rt);
        assert_eq!(rt; granted(&rt, &mut two, passed), [true, true, false, false]);
    }
    assert_eq!(rt; granted(&rt, &mut two, passed), [true; 4]);
    assert!(rt; two.read_until(&rt, None).is_some());
    assert!(rt; two.write_until(&rt, None).is_some());
    Ok(())
}

#[test]
fn guards_that_end_wake_all_that_sleep(rt: HostRuntime) -> Result<(), Fail> {
    let (lock, pass) = SleepingRwReader::new(rt.alloc())?;
    let (mut one, rest) = lock.handle(pass).split();
    let (mut two, mut three) = rest.split();
    let inside = test_signal::Signal::new();
    let ((), (read, wrote)) = thread::join(
        &rt,
        || {
            let _writing = one.write(&rt);
            inside.give();
            linger();
        },
        || {
            thread::join(
                &rt,
                || {
                    let came = inside.awaited();
                    let _reading = two.read(&rt);
                    came
                },
                || {
                    let came = inside.awaited();
                    let _writing = three.write(&rt);
                    came
                },
            )
        },
    );
    assert!(rt; read && wrote);
    Ok(())
}

#[test]
fn a_layer_enters_and_leaves(rt: HostRuntime) -> Result<(), Fail> {
    let (lock, pass) = SleepingRwReader::new(rt.alloc())?;
    let passed = Some(Instant::now(&rt)?);
    let (mut other, handle) = lock.handle(pass).split();
    let mut pass = handle.into_pass();
    lock.enter_to_read(&rt, &mut pass);
    assert_eq!(rt;
        granted(&rt, &mut other, passed),
        [true, true, false, false]
    );
    lock.leave_reading(&mut pass);
    lock.enter_to_write(&rt, &mut pass);
    assert_eq!(rt; granted(&rt, &mut other, passed), [false; 4]);
    lock.leave_writing(&mut pass);
    if lock.enter_to_read_until(&rt, &mut pass, passed) {
        lock.leave_reading(&mut pass);
    }
    if lock.try_to_write(&mut pass) {
        lock.leave_writing(&mut pass);
    }
    assert_eq!(rt; granted(&rt, &mut other, passed), [true; 4]);
    let _writing = other.write(&rt);
    assert!(rt; !lock.try_to_read(&mut pass));
    assert!(rt; !lock.enter_to_write_until(&rt, &mut pass, passed));
    Ok(())
}

#[test]
fn joined_handles_are_one_again(rt: HostRuntime) -> Result<(), Fail> {
    let (lock, pass) = SleepingRwReader::new(rt.alloc())?;
    let (one, two) = lock.handle(pass).split();
    let mut pass = one.join(two).into_pass();
    match RwLockReaderPreference::try_write_lock(&mut pass, lock.lock()) {
        WaitResult::Success(hold) => {
            lock.lock().unlock(hold, |_| ());
        }
        WaitResult::Interrupted => return Err("it is free")?,
    }
    assert!(rt; lock.handle(pass).try_read().is_some());
    Ok(())
}
