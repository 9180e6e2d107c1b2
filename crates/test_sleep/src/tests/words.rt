//! The words themselves.
ghost use Rattle.running_semaphore.specs.SemaphoreShown.{IsSemPass};
ghost use Rattle.running_guarded.specs.GuardedShown.{IsGuardedPass};

use iceoryx2_pal_concurrency_sync::strategy::semaphore::{SemPass, Semaphore};
use iceoryx2_pal_concurrency_sync::{Sleepers, WaitAction, WaitResult, WaitWord, Watched};
use running_guarded::{Guarded, GuardedPass};
use std::sync::Wait;
use std::test::Fail;
use std::time::Duration;

/// Parks where the word is another already, and for a while where it is not. Comes back, and gives up.
fn park_and_give_up<R: Wait, W: Watched>(rt: &R, word: &W, seen: u64) -> WaitAction {
    word.park(rt, seen.wrapping_add(1));
    word.park_timeout(rt, seen, Duration::from_millis(1));
    word.wake_one();
    word.wake_all();
    Sleepers::new().sleep(rt, word, seen.wrapping_add(1 << 32));
    WaitAction::Abort
}

fn wait<R: Wait>(rt: &R, semaphore: &Semaphore, pass: &mut SemPass) -> bool
    requires own { IsSemPass semaphore.now pass.old }
{
    let waited = semaphore.wait(rt, pass, |word: &WaitWord, seen: &u64| {
        park_and_give_up(rt, word, *seen)
    });
    waited == WaitResult::Interrupted
}

fn wait_beside<R: Wait>(
    rt: &R,
    guarded: &Guarded<u64>,
    holder: &mut GuardedPass,
    other: &mut GuardedPass,
) -> bool
    requires own { IsGuardedPass guarded.now holder.old × IsGuardedPass guarded.now other.old }
{
    let waited = guarded.with(
        rt,
        holder,
        |_, _| WaitAction::Abort,
        |_| (),
        |_| {
            let refused = guarded.with(
                rt,
                other,
                |word, seen| park_and_give_up(rt, word, *seen),
                |_| (),
                |_| (),
            );
            refused == WaitResult::Interrupted
        },
    );
    waited == WaitResult::Success(true)
}

#[test]
fn a_park_ends_where_the_word_is_another(rt: HostRuntime) -> Result<(), Fail> {
    let (semaphore, mut pass) = Semaphore::new(rt.alloc(), 0)?;
    assert!(rt; wait(&rt, &semaphore, &mut pass));
    let Ok((guarded, pass)) = Guarded::new(rt.alloc(), 0u64) else {
        return Err(Fail::new("no memory"));
    };
    let Ok((mut one, mut other)) = pass.split(&guarded) else {
        unreachable!()
    };
    assert!(rt; wait_beside(&rt, &guarded, &mut one, &mut other));
    Ok(())
}
