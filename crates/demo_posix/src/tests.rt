//! Each error, where it comes; and threads.
use crate::cond::Cond;
use crate::errno::Errno;
use crate::mutex::{Kind, Mutex};
use crate::sem::Sem;
use sleeping_semaphore::SleepingSemaphore;
use std::sync::atomic::{AtomicU64, Ordering};
use std::test::Fail;
use std::thread;
use std::time::{Duration, Instant};

#[test]
fn who_locks_again(rt: HostRuntime) -> Result<(), Fail> {
    for (kind, again, tried, timed) in [
        (Kind::Recursive, Ok(()), Ok(()), Ok(())),
        (
            Kind::ErrorCheck,
            Err(Errno::Deadlock),
            Err(Errno::Busy),
            Err(Errno::Deadlock),
        ),
    ] {
        let (mutex, pass) = Mutex::new(rt.alloc(), kind)?;
        let mut thread = mutex.thread(pass);
        assert_eq!(rt; thread.lock(&rt), Ok(()));
        assert_eq!(rt; thread.lock(&rt), again);
        assert_eq!(rt; thread.try_lock(), tried);
        assert_eq!(rt; thread.timed_lock(&rt, None), timed);
    }
    Ok(())
}

#[test]
fn who_locks_a_normal_mutex_again_waits_out_its_time(rt: HostRuntime) -> Result<(), Fail> {
    let (mutex, pass) = Mutex::new(rt.alloc(), Kind::Normal)?;
    let mut thread = mutex.thread(pass);
    let deadline = Instant::now(&rt)?.checked_add(Duration::from_millis(2));
    assert_eq!(rt; thread.try_lock(), Ok(()));
    assert_eq!(rt; thread.try_lock(), Err(Errno::Busy));
    assert_eq!(rt; thread.timed_lock(&rt, deadline), Err(Errno::TimedOut));
    assert_eq!(rt; thread.unlock(), Ok(()));
    assert_eq!(rt; thread.unlock(), Err(Errno::NotPermitted));
    assert_eq!(rt; thread.timed_lock(&rt, deadline), Ok(()));
    Ok(())
}

#[test]
fn who_has_it_often_unlocks_it_as_often(rt: HostRuntime) -> Result<(), Fail> {
    let (mutex, pass) = Mutex::new(rt.alloc(), Kind::Recursive)?;
    let (mut one, mut two) = mutex.thread(pass).split();
    let passed = Some(Instant::now(&rt)?);
    assert_eq!(rt; one.lock(&rt), Ok(()));
    assert_eq!(rt; one.lock(&rt), Ok(()));
    assert_eq!(rt; one.unlock(), Ok(()));
    assert_eq!(rt; two.try_lock(), Err(Errno::Busy));
    assert_eq!(rt; two.timed_lock(&rt, passed), Err(Errno::TimedOut));
    assert_eq!(rt; two.unlock(), Err(Errno::NotPermitted));
    assert_eq!(rt; one.unlock(), Ok(()));
    assert_eq!(rt; two.try_lock(), Ok(()));
    assert_eq!(rt; one.unlock(), Err(Errno::NotPermitted));
    Ok(())
}

#[test]
fn a_recursive_mutex_that_is_locked_too_often(rt: HostRuntime) -> Result<(), Fail> {
    let (mutex, pass) = Mutex::new(rt.alloc(), Kind::Recursive)?;
    let mut thread = mutex.thread(pass);
    thread.take_back(&rt, u64::MAX);
    assert_eq!(rt; thread.lock(&rt), Err(Errno::Again));
    assert_eq!(rt; thread.try_lock(), Err(Errno::Again));
    assert_eq!(rt; thread.timed_lock(&rt, None), Err(Errno::Again));
    assert_eq!(rt; thread.unlock(), Ok(()));
    assert_eq!(rt; thread.lock(&rt), Ok(()));
    Ok(())
}

#[test]
fn waits_that_nobody_ends(rt: HostRuntime) -> Result<(), Fail> {
    let (mutex, pass) = Mutex::new(rt.alloc(), Kind::Recursive)?;
    let (mut one, mut two) = mutex.thread(pass).split();
    let told = Cond::new();
    let passed = Some(Instant::now(&rt)?);
    assert_eq!(rt; told.wait(&rt, &mut one), Err(Errno::NotPermitted));
    assert_eq!(rt;
        told.timed_wait(&rt, &mut one, passed),
        Err(Errno::NotPermitted)
    );
    assert_eq!(rt; one.lock(&rt), Ok(()));
    assert_eq!(rt;
        told.timed_wait(&rt, &mut one, passed),
        Err(Errno::TimedOut)
    );
    assert_eq!(rt; two.try_lock(), Err(Errno::Busy));
    Ok(())
}

#[test]
fn who_waits_is_told(rt: HostRuntime) -> Result<(), Fail> {
    let (mutex, pass) = Mutex::new(rt.alloc(), Kind::Normal)?;
    let (mut one, mut two) = mutex.thread(pass).split();
    let told = Cond::new();
    let flag = AtomicU64::new(0);
    let ((), waited) = thread::join(
        &rt,
        || {
            let _locked = one.lock(&rt);
            flag.store(1, Ordering::SeqCst);
            told.broadcast();
            let _unlocked = one.unlock();
        },
        || {
            let _locked = two.lock(&rt);
            for _ in rt.forever() {
                if flag.load(Ordering::SeqCst) == 1 {
                    return two.unlock();
                }
                let _told = told.wait(&rt, &mut two);
            }
            unreachable!()
        },
    );
    assert_eq!(rt; waited, Ok(()));
    Ok(())
}

#[test]
fn permits(rt: HostRuntime) -> Result<(), Fail> {
    let (semaphore, pass) = SleepingSemaphore::new(rt.alloc(), 1)?;
    let mut sem = Sem {
        handle: semaphore.handle(pass),
    };
    let passed = Some(Instant::now(&rt)?);
    sem.wait(&rt);
    assert_eq!(rt; sem.try_wait(&rt), Err(Errno::Again));
    assert_eq!(rt; sem.timed_wait(&rt, passed), Err(Errno::TimedOut));
    sem.post();
    assert_eq!(rt; sem.try_wait(&rt), Ok(()));
    sem.post();
    assert_eq!(rt; sem.timed_wait(&rt, None), Ok(()));
    Ok(())
}
