//! The running semaphore.
ghost use Rattle.std.specs.Prelude.{◌≡◌, ◌+◌, IfOk};
ghost use Rattle.running_passes.specs.Parts.{IsWhole};
ghost use Rattle.running_passes.specs.Passes.{IsSamePass, part_of, view};
ghost use Rattle.running_passes.specs.Views.{first_view};
ghost use Rattle.running_model.specs.Passes.{played};
ghost use Rattle.running_model.specs.Slots.{no_parties};
ghost use Rattle.running_semaphore.specs.Semaphore.{first_permits};
ghost use Rattle.running_semaphore.specs.SemaphoreShown.{IsSemPass, HasCounted, given_of, taken_of};

use iceoryx2_pal_concurrency_sync::strategy::semaphore::{SemPass, Semaphore};
use iceoryx2_pal_concurrency_sync::{
    WaitAction, WaitResult, WaitWord, wake_nobody, yield_and_go_on,
};
use std::alloc::{AllocError, Global};
use std::sync::Wait;
use std::test::Fail;
use std::thread;
use std::thread::Threads;
use test_signal::{Gathering, Meeting, Notes};

/// A new semaphore of so many permits, and two parts of its pass.
pub(super) fn in_two_parts(
    alloc: Global,
    permits: u64,
) -> Result<(Semaphore, SemPass, SemPass), AllocError>
    ensures own { IfOk result (λ made. IsSemPass made.0 made.1 × IsSemPass made.0 made.2) }
{
    let (semaphore, pass) = Semaphore::new(alloc, permits)?;
    match pass.split(&semaphore) {
        Ok((one, two)) => Ok((semaphore, one, two)),
        Err(_) => unreachable!(),
    }
}

/// Takes both permits of a new semaphore of 2.
fn take_both<R: Wait>(
    rt: &R,
    semaphore: &Semaphore,
    pass: &mut SemPass,
) -> (WaitResult<()>, WaitResult<()>)
    requires own { IsSemPass semaphore.now pass.old }
    requires new { view pass.old ≡ first_view (played no_parties (first_permits 2)) }
    ensures same { IsSamePass pass.old pass.new }
    ensures tally { (given_of pass.new ≡ 2) × (taken_of pass.new ≡ 2) }
    ensures whole { IsWhole (part_of pass.new) }
{
    (semaphore.try_wait(rt, pass), semaphore.try_wait(rt, pass))
}

/// Takes three times from a new semaphore of 2, and posts 1.
fn take_three_and_post_one<R: Wait>(
    rt: &R,
    semaphore: &Semaphore,
    pass: &mut SemPass,
) -> (WaitResult<()>, WaitResult<()>, WaitResult<()>)
    requires own { IsSemPass semaphore.now pass.old }
    requires new { view pass.old ≡ first_view (played no_parties (first_permits 2)) }
    ensures same { IsSamePass pass.old pass.new }
    ensures tally { (given_of pass.new ≡ 2 + 1) × (taken_of pass.new ≡ 2) }
    ensures whole { IsWhole (part_of pass.new) }
{
    let (first, second) = take_both(rt, semaphore, pass);
    let third = semaphore.try_wait(rt, pass);
    semaphore.post(pass, wake_nobody, 1);
    (first, second, third)
}

#[test]
fn two_of_three_take(rt: HostRuntime) -> Result<(), Fail> {
    let (semaphore, mut pass) = Semaphore::new(rt.alloc(), 2)?;
    let (first, second, third) = take_three_and_post_one(&rt, &semaphore, &mut pass);
    let left = semaphore.value(&mut pass);
    assert_eq!(rt;
        (first, second, third, left, semaphore.close(pass)),
        (
            WaitResult::Success(()),
            WaitResult::Success(()),
            WaitResult::Interrupted,
            1,
            1
        )
    );
    Ok(())
}

/// Posts none and then one. What the wake closures saw.
fn post_gathered(semaphore: &Semaphore, pass: &mut SemPass) -> (u64, u64)
    requires { IsSemPass semaphore.now pass.old }
{
    let gathering = Gathering::new();
    let wake = |word: &WaitWord| gathering.wake_one(word.load());
    semaphore.post(pass, wake, 0);
    semaphore.post(pass, wake, 1);
    gathering.gathered()
}

#[test]
fn post_wakes_once_after_its_add(rt: HostRuntime) -> Result<(), Fail> {
    let (semaphore, mut pass) = Semaphore::new(rt.alloc(), 2)?;
    assert_eq!(rt; post_gathered(&semaphore, &mut pass), (22, 23));
    Ok(())
}

/// What a wait was answered, and what its closure noted: how often it was called, and at first what its word held and it was told.
type Waited = (WaitResult<()>, (u64, u64, u64));

/// A `wait` whose wait closure answers so once the other thread has posted; without an answer it answers `Abort` at once.
fn wait_noted<R: Wait>(
    rt: &R,
    semaphore: &Semaphore,
    pass: &mut SemPass,
    meeting: &Meeting,
    answer: Option<WaitAction>,
) -> Waited
    requires { IsSemPass semaphore.now pass.old }
    ensures { IsSamePass pass.old pass.new }
{
    let notes = Notes::new();
    let waited = semaphore.wait(rt, pass, |word, seen| {
        notes.note(word.load(), *seen);
        match answer {
            Some(action) if meeting.meet() && meeting.meet() => action,
            _ => WaitAction::Abort,
        }
    });
    (waited, notes.noted())
}

#[test]
fn a_waiter_aborts(rt: HostRuntime) -> Result<(), Fail> {
    let (semaphore, mut pass) = Semaphore::new(rt.alloc(), 1)?;
    let nobody = Meeting::of(1);
    let first = wait_noted(&rt, &semaphore, &mut pass, &nobody, None);
    let second = wait_noted(&rt, &semaphore, &mut pass, &nobody, None);
    assert_eq!(rt;
        (first, second, semaphore.close(pass)),
        (
            (WaitResult::Success(()), (0, 0, 0)),
            (WaitResult::Interrupted, (1, 0, 0)),
            0
        )
    );
    Ok(())
}

/// Posts 1 once the other thread asks, or its call is over. Whether that came.
fn post_when_asked(semaphore: &Semaphore, pass: &mut SemPass, meeting: &Meeting) -> bool
    requires { IsSemPass semaphore.now pass.old }
{
    let was_asked = meeting.meet();
    semaphore.post(pass, wake_nobody, 1);
    was_asked && meeting.meet()
}

/// Waits so, and without an answer lets the other thread post once the call is over. Whether that came, too.
fn wait_beside<R: Wait>(
    rt: &R,
    semaphore: &Semaphore,
    pass: &mut SemPass,
    meeting: &Meeting,
    answer: Option<WaitAction>,
) -> (Waited, bool)
    requires { IsSemPass semaphore.now pass.old }
{
    let waited = wait_noted(rt, semaphore, pass, meeting, answer);
    (waited, answer.is_some() || meeting.meet() && meeting.meet())
}

/// One thread posts to a semaphore of 0 once another has asked its closure, which answers so, or once its call is over. Whether that came,
/// and what the other came to.
fn post_beside_a_waiter<R: Threads + Wait + Sync>(
    rt: &R,
    alloc: Global,
    answer: Option<WaitAction>,
) -> Result<(bool, (Waited, bool)), AllocError> {
    let (semaphore, mut one, mut two) = in_two_parts(alloc, 0)?;
    let meeting = Meeting::of(2);
    Ok(thread::join(
        rt,
        || post_when_asked(&semaphore, &mut one, &meeting),
        || wait_beside(rt, &semaphore, &mut two, &meeting, answer),
    ))
}

/// A call that went on after `Abort` would ask again, and take what the other thread then posts.
#[test]
fn an_abort_is_obeyed(rt: HostRuntime) -> Result<(), Fail> {
    let gave_up = (WaitResult::Interrupted, (1, 0, 0));
    assert_eq!(rt;
        post_beside_a_waiter(&rt, rt.alloc(), None)?,
        (true, (gave_up, true))
    );
    Ok(())
}

/// The call looks once more, whatever its closure answers.
#[test]
fn success_after_abort(rt: HostRuntime) -> Result<(), Fail> {
    for action in [WaitAction::Abort, WaitAction::Continue] {
        assert_eq!(rt;
            post_beside_a_waiter(&rt, rt.alloc(), Some(action))?,
            (true, ((WaitResult::Success(()), (1, 0, 0)), true))
        );
    }
    Ok(())
}

/// Posts 1 so many times.
fn post_often(semaphore: &Semaphore, mut pass: SemPass, times: u64) -> SemPass
    requires own { IsSemPass semaphore.now pass }
    ensures posted { HasCounted times 0 pass result }
{
    for _ in 0..times {
        semaphore.post(&mut pass, wake_nobody, 1);
    }
    pass
}

/// Takes so many permits, with a closure that yields and answers `Continue`: that is never interrupted.
fn take_often<R: Wait>(rt: &R, semaphore: &Semaphore, mut pass: SemPass, times: u64) -> SemPass
    requires own { IsSemPass semaphore.now pass }
    ensures taken { HasCounted 0 times pass result }
{
    for _ in 0..times {
        let answer = semaphore.wait(rt, &mut pass, yield_and_go_on);
        match answer {
            WaitResult::Success(()) => (),
            WaitResult::Interrupted => unreachable!(),
        }
    }
    pass
}

/// One thread posts 100 permits to a new semaphore of 2, and another takes 101 of the 102.
fn post_and_take<R: Threads + Wait + Sync>(rt: &R, semaphore: Semaphore, pass: SemPass) -> u64
    requires own { IsSemPass semaphore pass }
    requires new { view pass ≡ first_view (played no_parties (first_permits 2)) }
    ensures { result ≡ 1 }
{
    let Ok((one, two)) = pass.split(&semaphore) else {
        unreachable!()
    };
    let shared = &semaphore;
    let (one, two) = thread::join(
        rt,
        || -> SemPass
            requires { IsSemPass shared.now one }
            ensures { HasCounted 100 0 one result }
        { post_often(shared, one, 100) },
        || -> SemPass
            requires { IsSemPass shared.now two }
            ensures { HasCounted 0 101 two result }
        { take_often(rt, shared, two, 101) },
    );
    let Ok(pass) = SemPass::join(one, two, &semaphore) else {
        unreachable!()
    };
    semaphore.close(pass)
}

#[test]
fn two_threads_post_and_take(rt: HostRuntime) -> Result<(), Fail> {
    let (semaphore, pass) = Semaphore::new(rt.alloc(), 2)?;
    assert_eq!(rt; post_and_take(&rt, semaphore, pass), 1);
    Ok(())
}

/// Acts under a permit of a new semaphore of 1, and answers what the action gave.
fn act_under_a_permit<R: Wait>(rt: &R, semaphore: &Semaphore, pass: &mut SemPass) -> u64
    requires own { IsSemPass semaphore.now pass.old }
    requires new { view pass.old ≡ first_view (played no_parties (first_permits 1)) }
    ensures seven { result ≡ 7 }
    ensures same { IsSamePass pass.old pass.new }
    ensures tally { (given_of pass.new ≡ 2) × (taken_of pass.new ≡ 1) }
{
    let answer = semaphore.with_permit(rt, pass, yield_and_go_on, wake_nobody, || 7);
    match answer {
        WaitResult::Success(seven) => seven,
        WaitResult::Interrupted => unreachable!(),
    }
}

#[test]
fn a_permit_is_given_back(rt: HostRuntime) -> Result<(), Fail> {
    let (semaphore, mut pass) = Semaphore::new(rt.alloc(), 1)?;
    let seven = act_under_a_permit(&rt, &semaphore, &mut pass);
    assert_eq!(rt; (seven, semaphore.close(pass)), (7, 1));
    Ok(())
}

/// What another pass sees under `with_permit`.
fn value_under_a_permit<R: Wait>(
    rt: &R,
    semaphore: &Semaphore,
    one: &mut SemPass,
    two: &mut SemPass,
) -> WaitResult<u64>
    requires { IsSemPass semaphore.now one.old × IsSemPass semaphore.now two.old }
{
    semaphore.with_permit(
        rt,
        one,
        yield_and_go_on,
        wake_nobody,
        || semaphore.value(two),
    )
}

#[test]
fn acts_while_the_permit_is_taken(rt: HostRuntime) -> Result<(), Fail> {
    let (semaphore, mut one, mut two) = in_two_parts(rt.alloc(), 1)?;
    let inside = value_under_a_permit(&rt, &semaphore, &mut one, &mut two);
    assert_eq!(rt; matches!(inside, WaitResult::Success(0)), true);
    Ok(())
}
