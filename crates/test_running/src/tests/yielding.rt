//! The closures to hand in.
ghost use Rattle.running_semaphore.specs.SemaphoreShown.{IsSemPass};

use super::semaphore::in_two_parts;
use iceoryx2_pal_concurrency_sync::strategy::semaphore::{SemPass, Semaphore};
use iceoryx2_pal_concurrency_sync::{WaitAction, WaitResult, wake_nobody, yield_and_go_on};
use std::sync::Wait;
use std::sync::atomic::{AtomicBool, Ordering};
use std::test::Fail;
use std::thread;

/// Waits with a closure that asks `yield_and_go_on` and gives up all the same. Whether it was to go on.
fn ask_and_abort<R: Wait>(rt: &R, semaphore: &Semaphore, pass: &mut SemPass) -> bool
    requires { IsSemPass semaphore.now pass.old }
{
    let goes_on = AtomicBool::new(false);
    let _interrupted = semaphore.wait(rt, pass, |word, seen| {
        let answer = yield_and_go_on(word, seen);
        goes_on.store(answer == WaitAction::Continue, Ordering::SeqCst);
        WaitAction::Abort
    });
    goes_on.load(Ordering::SeqCst)
}

#[test]
fn it_goes_on(rt: HostRuntime) -> Result<(), Fail> {
    let (semaphore, mut pass) = Semaphore::new(rt.alloc(), 0)?;
    assert!(rt; ask_and_abort(&rt, &semaphore, &mut pass));
    Ok(())
}

#[test]
fn who_yields_needs_no_wake(rt: HostRuntime) -> Result<(), Fail> {
    let (semaphore, mut one, mut two) = in_two_parts(rt.alloc(), 0)?;
    let (waited, ()) = thread::join(
        &rt,
        || semaphore.wait(&rt, &mut one, yield_and_go_on),
        || semaphore.post(&mut two, wake_nobody, 1),
    );
    assert_eq!(rt; waited, WaitResult::Success(()));
    Ok(())
}
