//! One holder at a time, and calls that give up.
ghost use Rattle.std.specs.Prelude.{◌+◌};
ghost use Rattle.running_guarded.specs.GuardedShown.{IsGuardedPass, IsSamePass};

use super::party::in_two_parts;
use super::wake_nobody_at_value;
use model_events::WaitAction;
use running_guarded::{Guarded, GuardedPass};
use running_passes::WaitResult;
use std::alloc::{AllocError, Global};
use std::sync::Wait;
use std::sync::atomic::{AtomicBool, Ordering};
use std::test::Fail;
use std::thread;
use std::thread::Threads;
use test_signal::{Meeting, Notes};

/// Whether `try_lock` is refused now.
pub(super) fn is_refused(guarded: &Guarded<u64>, pass: &mut GuardedPass) -> bool
    requires own { IsGuardedPass guarded.now pass.old }
    ensures own { IsGuardedPass guarded.now pass.new }
    ensures same { IsSamePass pass.old pass.new }
{
    match Guarded::try_lock(pass, guarded) {
        WaitResult::Success(guard) => {
            Guarded::unlock(guard, wake_nobody_at_value);
            false
        }
        WaitResult::Interrupted => true,
    }
}

/// What a `lock` came to: what its guard lends, if it was granted, and what its wait closure noted.
type Locked = (Option<u64>, (u64, u64, u64));

/// Locks, with a wait closure that answers so once all have come to the meeting twice.
fn lock_noted<R: Wait>(
    rt: &R,
    guarded: &Guarded<u64>,
    pass: &mut GuardedPass,
    meeting: &Meeting,
    action: WaitAction,
) -> Locked
    requires { IsGuardedPass guarded.now pass.old }
    ensures { IsSamePass pass.old pass.new }
{
    let notes = Notes::new();
    let locked = Guarded::lock(pass, guarded, rt, |word, seen| {
        notes.note(word.load(), *seen);
        if meeting.meet() && meeting.meet() {
            action
        } else {
            WaitAction::Abort
        }
    });
    let found = match locked {
        WaitResult::Success(guard) => {
            let found = *guard;
            Guarded::unlock(guard, wake_nobody_at_value);
            Some(found)
        }
        WaitResult::Interrupted => None,
    };
    (found, notes.noted())
}

/// Whether `two` is refused while `one` has the guard, and what its `lock` does then.
fn while_held<R: Wait>(
    rt: &R,
    guarded: &Guarded<u64>,
    one: &mut GuardedPass,
    two: &mut GuardedPass,
) -> Option<(bool, Locked)>
    requires { IsGuardedPass guarded.now one.old × IsGuardedPass guarded.now two.old }
    ensures { IsSamePass one.old one.new × IsSamePass two.old two.new }
{
    match Guarded::try_lock(one, guarded) {
        WaitResult::Success(guard) => {
            let refused = is_refused(guarded, two);
            let aborted = lock_noted(rt, guarded, two, &Meeting::of(1), WaitAction::Abort);
            Guarded::unlock(guard, wake_nobody_at_value);
            Some((refused, aborted))
        }
        WaitResult::Interrupted => None,
    }
}

#[test]
fn one_holder_at_a_time(rt: HostRuntime) -> Result<(), Fail> {
    let (guarded, mut one, mut two) = in_two_parts(rt.alloc(), 0)?;
    let held = while_held(&rt, &guarded, &mut one, &mut two);
    let refused = is_refused(&guarded, &mut two);
    let free = lock_noted(&rt, &guarded, &mut one, &Meeting::of(1), WaitAction::Abort);
    assert_eq!(rt;
        (held, refused, free),
        (Some((true, (None, (1, 1, 1)))), false, (Some(0), (0, 0, 0)))
    );
    Ok(())
}

/// Holds the value until the other thread asks, and leaves 7 in it. Whether that came, and answered before the end of the wake.
fn hold_until_asked(guarded: &Guarded<u64>, pass: &mut GuardedPass, meeting: &Meeting) -> bool
    requires { IsGuardedPass guarded.now pass.old }
{
    let wake = AtomicBool::new(false);
    match Guarded::try_lock(pass, guarded) {
        WaitResult::Success(mut guard) => {
            let was_asked = meeting.meet() && meeting.meet();
            *guard = 7;
            Guarded::unlock(
                guard,
                |_| wake.store(meeting.meet() && meeting.meet(), Ordering::SeqCst),
            );
            was_asked && wake.load(Ordering::SeqCst)
        }
        WaitResult::Interrupted => false,
    }
}

/// Locks once the other thread has the value, with a closure that answers so once it is free. Whether the other came to the meetings
/// before and after that, and what the lock came to.
fn lock_after_unlock<R: Wait>(
    rt: &R,
    guarded: &Guarded<u64>,
    pass: &mut GuardedPass,
    meeting: &Meeting,
    action: WaitAction,
) -> (bool, Locked)
    requires { IsGuardedPass guarded.now pass.old }
{
    let is_held = meeting.meet();
    let locked = lock_noted(rt, guarded, pass, meeting, action);
    (is_held && meeting.meet(), locked)
}

/// One thread locks while another holds the value, with a closure that answers so: what both came to.
fn lock_beside<R: Threads + Wait + Sync>(
    rt: &R,
    alloc: Global,
    action: WaitAction,
) -> Result<(bool, (bool, Locked)), AllocError> {
    let (guarded, mut one, mut two) = in_two_parts(alloc, 0)?;
    let meeting = Meeting::of(2);
    Ok(thread::join(
        rt,
        || hold_until_asked(&guarded, &mut one, &meeting),
        || lock_after_unlock(rt, &guarded, &mut two, &meeting, action),
    ))
}

/// The holder is held up in its wake until the other has had the value, so the value is free before the wake; and the other looks once more,
/// whatever its closure answers then.
#[test]
fn a_call_that_was_to_give_up_succeeds(rt: HostRuntime) -> Result<(), Fail> {
    for action in [WaitAction::Abort, WaitAction::Continue] {
        assert_eq!(rt;
            lock_beside(&rt, rt.alloc(), action)?,
            (true, (true, (Some(7), (1, 1, 1))))
        );
    }
    Ok(())
}
