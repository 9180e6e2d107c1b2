//! The order of a call's steps, as its closures see it.
ghost use Rattle.running_guarded.specs.GuardedShown.{IsGuardedPass};

use super::holding::is_refused;
use super::party::{Party, Shared, change_to, in_two_parts};
use super::{wake_nobody_at_value, yield_at_value};
use model_events::WaitAction;
use running_guarded::{Guarded, GuardedPass};
use running_passes::WaitResult;
use std::alloc::{AllocError, Global};
use std::sync::Wait;
use std::sync::atomic::AtomicU64;
use std::test::Fail;
use std::thread::Threads;
use std::{mem, thread};
use test_signal::{Gathering, Meeting};

/// Adds 1 to the value by `with`. Whether `other` was refused meanwhile; the closures are gathered.
fn add_gathered<R: Wait>(
    rt: &R,
    guarded: &Guarded<u64>,
    pass: &mut GuardedPass,
    other: &mut GuardedPass,
    gathering: &Gathering,
) -> WaitResult<bool>
    requires own { IsGuardedPass guarded.now pass.old × IsGuardedPass guarded.now other.old }
    ensures own { IsGuardedPass guarded.now pass.new }
{
    guarded.with(
        rt,
        pass,
        |_, seen| {
            gathering.wait(*seen);
            WaitAction::Abort
        },
        |word| gathering.wake_one(word.load()),
        |number| {
            gathering.act(*number);
            *number = number.wrapping_add(1);
            is_refused(guarded, other)
        },
    )
}

/// It acts while the value is locked, and wakes once it is free.
#[test]
fn acts_before_it_unlocks(rt: HostRuntime) -> Result<(), Fail> {
    let (guarded, mut one, mut two) = in_two_parts(rt.alloc(), 7)?;
    let gathering = Gathering::new();
    let refused = add_gathered(&rt, &guarded, &mut one, &mut two, &gathering);
    let refused_after = is_refused(&guarded, &mut one);
    assert_eq!(rt;
        (refused, refused_after, gathering.gathered()),
        (WaitResult::Success(true), false, (42, 70))
    );
    Ok(())
}

/// Changes the value to 8. What it was, and whether `other` was refused meanwhile; the closures are gathered.
fn change_gathered<R: Wait>(
    rt: &R,
    party: &mut Party<'_>,
    other: &mut GuardedPass,
    gathering: &Gathering,
) -> (u64, bool)
    requires own { IsGuardedPass party.old.shared.now.number other.old }
{
    let shared = party.shared;
    shared.number.change(
        rt,
        &mut party.number,
        |word| gathering.wake_one(word.load()),
        &shared.changed,
        &mut party.changed,
        |word| gathering.wake_all(word.load()),
        |number| {
            gathering.act(*number);
            (mem::replace(number, 8), is_refused(&shared.number, other))
        },
    )
}

/// It acts while the value is locked, wakes one once it is free, and notifies last: nobody waits, so no permit is given.
#[test]
fn a_change_is_made_before_it_notifies(rt: HostRuntime) -> Result<(), Fail> {
    let (shared, pass, changed) = Shared::new(rt.alloc(), 7)?;
    let Ok((pass, mut other)) = pass.split(&shared.number) else {
        unreachable!()
    };
    let mut party = shared.party(pass, changed);
    let gathering = Gathering::new();
    let told = change_gathered(&rt, &mut party, &mut other, &gathering);
    assert_eq!(rt; (told, gathering.gathered()), ((7, true), (423, 700)));
    Ok(())
}

/// Is held up, where it is to, until the other threads have come to the meeting twice.
fn meet_twice(meeting: &Meeting, is_held_up: bool) {
    if is_held_up {
        let _ = meeting.meet() && meeting.meet();
    }
}

/// What a wait came to, and its closures with what each was told; the wait closure comes twice, first with what its word held.
pub(super) type Waited = (WaitResult<u64>, (u64, u64));

/// Waits for this number, with a wait closure that answers `Abort`, held up in its first wake, or else in that closure.
fn wait_gathered<R: Wait>(
    rt: &R,
    party: &mut Party<'_>,
    wanted: u64,
    meeting: &Meeting,
    in_wake: bool,
) -> Waited {
    let gathering = Gathering::new();
    let shared = party.shared;
    let found = shared.number.when(
        rt,
        &mut party.number,
        |word| {
            gathering.wake_one(word.load());
            meet_twice(meeting, in_wake && gathering.gathered().0 == 42);
        },
        &shared.changed,
        &mut party.changed,
        |word, seen| {
            gathering.wait(word.load());
            gathering.wait(*seen);
            meet_twice(meeting, !in_wake);
            WaitAction::Abort
        },
        |number| {
            gathering.act(*number);
            (*number == wanted).then_some(wanted)
        },
    );
    (found, gathering.gathered())
}

/// Waits for two numbers, one after another, where nobody changes a 7.
pub(super) fn wait_alone<R: Wait>(
    rt: &R,
    alloc: Global,
    first: u64,
    second: u64,
) -> Result<[Waited; 2], AllocError> {
    let (shared, pass, changed) = Shared::new(alloc, 7)?;
    let mut party = shared.party(pass, changed);
    let meeting = Meeting::of(1);
    Ok([
        wait_gathered(rt, &mut party, first, &meeting, false),
        wait_gathered(rt, &mut party, second, &meeting, false),
    ])
}

/// What a wait comes to that cannot act: it acts, unlocks and wakes, asks, acts once more, and unlocks and wakes.
pub(super) const GAVE_UP: Waited = (WaitResult::Interrupted, (421142, 700070));

/// Where it can act at once it asks nothing.
#[test]
fn a_when_unlocks_before_it_asks(rt: HostRuntime) -> Result<(), Fail> {
    assert_eq!(rt;
        wait_alone(&rt, rt.alloc(), 8, 7)?,
        [GAVE_UP, (WaitResult::Success(7), (42, 70))]
    );
    Ok(())
}

/// A closure that acts by writing 8.
fn set_eight(number: &mut u64) {
    *number = 8;
}

/// Writes 8 as the value, and notifies nobody. Whether it had the lock.
fn set_to_eight<R: Wait>(rt: &R, party: &mut Party<'_>) -> bool {
    let set = party.shared.number.with(
        rt,
        &mut party.number,
        yield_at_value,
        wake_nobody_at_value,
        set_eight,
    );
    set == WaitResult::Success(())
}

/// Changes the value to 8 between two meetings, and may notify. Whether the other came to both.
fn change_between<R: Wait>(
    rt: &R,
    party: &mut Party<'_>,
    meeting: &Meeting,
    notifies: bool,
) -> bool {
    let came = meeting.meet();
    let changed = if notifies {
        change_to(rt, party, &AtomicU64::new(0), 8) == 7
    } else {
        set_to_eight(rt, party)
    };
    came && changed && meeting.meet()
}

/// A wait for 8, while another thread changes the value: it is held up in its first wake where that notifies, and else in its wait closure.
/// Whether the other came, and what the wait came to.
fn wait_beside<R: Threads + Wait + Sync>(
    rt: &R,
    alloc: Global,
    notifies: bool,
) -> Result<(bool, Waited), AllocError> {
    let (shared, pass, changed) = Shared::new(alloc, 7)?;
    let (mut one, mut two) = shared.two_parties(pass, changed);
    let meeting = Meeting::of(2);
    Ok(thread::join(
        rt,
        || change_between(rt, &mut one, &meeting, notifies),
        || wait_gathered(rt, &mut two, 8, &meeting, notifies),
    ))
}

/// A notify by whoever has the value next is not lost: the waiter was counted before it unlocked. So it takes a permit, and is not asked.
#[test]
fn a_waiter_is_counted_before_it_unlocks(rt: HostRuntime) -> Result<(), Fail> {
    assert_eq!(rt;
        wait_beside(&rt, rt.alloc(), true)?,
        (true, (WaitResult::Success(8), (4242, 7080)))
    );
    Ok(())
}

/// The value is free while the call waits, and is looked at once more after the closure's `Abort`.
#[test]
fn a_when_that_was_to_give_up_acts(rt: HostRuntime) -> Result<(), Fail> {
    assert_eq!(rt;
        wait_beside(&rt, rt.alloc(), false)?,
        (true, (WaitResult::Success(8), (421142, 700080)))
    );
    Ok(())
}
