//! The order of a call's steps, as its closures see it. A taker gives up while another thread, having changed the state, is held up in its
//! first wake; and the other way round.
use super::party::{Party, first_wrong};
use super::step::Step;
use job_queue::{JobQueue, PutFault, QueueState, QueueWord, Taken};
use model_events::WaitAction;
use std::alloc::{AllocError, Global};
use std::sync::Wait;
use std::sync::atomic::{AtomicBool, AtomicU64, Ordering};
use std::test::Fail;
use std::thread;
use std::thread::Threads;
use test_signal::{Gathering, Meeting};

/// Is held up, where it is to, until the other thread has come to the meeting twice. Whether it came.
fn meet_twice(meeting: &Meeting, is_held_up: bool) -> bool {
    is_held_up && meeting.meet() && meeting.meet()
}

/// Takes, with a wait closure that answers `Abort`, held up in its first wake, or else in that closure; then it comes once more. What it
/// took, and its closures with what each was told; the wait closure comes twice, first with what its word held.
fn take_held_up<R: Wait>(
    rt: &R,
    party: &mut Party<'_>,
    meeting: &Meeting,
    in_wake: bool,
) -> (Taken<u64>, (u64, u64)) {
    let gathering = Gathering::new();
    let queue = party.queue;
    let taken = queue.take(
        rt,
        &mut party.pass,
        |word, seen| {
            gathering.wait(word.load());
            gathering.wait(*seen);
            meet_twice(meeting, !in_wake);
            WaitAction::Abort
        },
        |word| {
            gathering.wake_one(word.load());
            meet_twice(meeting, in_wake && gathering.gathered().0 == 2);
        },
    );
    if !in_wake {
        meeting.meet();
    }
    (taken, gathering.gathered())
}

/// What the other thread does while the taker is held up.
#[derive(Drop)]
enum Change {
    Put,
    Close,
}

/// Does so. Where the taker was asked, this is held up in its first wake until that has taken. Whether all of it came, and how often it
/// woke.
fn change_beside<R: Wait>(
    rt: &R,
    party: &mut Party<'_>,
    meeting: &Meeting,
    change: &Change,
    in_wake: bool,
) -> (bool, u64) {
    let wakes = AtomicU64::new(0);
    let taken_in_time = AtomicBool::new(in_wake);
    let came = meeting.meet();
    let queue = party.queue;
    let wake = |_: &QueueWord<'_, QueueState<u64>>| {
        if wakes.fetch_add(1, Ordering::SeqCst) == 0 && meet_twice(meeting, !in_wake) {
            taken_in_time.store(true, Ordering::SeqCst);
        }
    };
    let changed = match change {
        Change::Put => queue.put(rt, &mut party.pass, 7, wake).is_ok(),
        Change::Close => {
            queue.close(rt, &mut party.pass, wake);
            true
        }
    };
    let over = !in_wake || meeting.meet();
    (
        came && changed && over && taken_in_time.load(Ordering::SeqCst),
        wakes.load(Ordering::SeqCst),
    )
}

/// A take that is held up, in its first wake or else in its wait closure, while another thread changes the queue: what both came to.
fn take_beside<R: Threads + Wait + Sync>(
    rt: &R,
    alloc: Global,
    change: &Change,
    in_wake: bool,
) -> Result<((bool, u64), (Taken<u64>, (u64, u64))), AllocError> {
    let (queue, pass) = JobQueue::new(alloc, 2)?;
    let party = Party {
        queue: &queue,
        pass,
    };
    let (mut changing, mut taking) = party.parts();
    let meeting = Meeting::of(2);
    Ok(thread::join(
        rt,
        || change_beside(rt, &mut changing, &meeting, change, in_wake),
        || take_held_up(rt, &mut taking, &meeting, in_wake),
    ))
}

/// The job is in the queue and the mutex free before anybody is woken, and who gives up looks once more.
#[test]
fn a_job_that_is_put_is_there_before_its_wake(rt: HostRuntime) -> Result<(), Fail> {
    assert_eq!(rt;
        take_beside(&rt, rt.alloc(), &Change::Put, false)?,
        ((true, 2), (Taken::Job { ticket: 0, job: 7 }, (2112, 0)))
    );
    Ok(())
}

/// So is the queue closed before anybody is woken.
#[test]
fn a_queue_is_closed_before_its_wake(rt: HostRuntime) -> Result<(), Fail> {
    assert_eq!(rt;
        take_beside(&rt, rt.alloc(), &Change::Close, false)?,
        ((true, 2), (Taken::Closed, (2112, 0)))
    );
    Ok(())
}

/// The taker was counted before it unlocked the mutex. So a notify that comes then is not lost: it has a permit, and is not asked.
#[test]
fn a_taker_is_counted_before_it_unlocks(rt: HostRuntime) -> Result<(), Fail> {
    assert_eq!(rt;
        take_beside(&rt, rt.alloc(), &Change::Put, true)?,
        ((true, 2), (Taken::Job { ticket: 0, job: 7 }, (22, 0)))
    );
    Ok(())
}

/// Each call wakes once the mutex is free, where it gives it back; and once more with a notify, which gives no permit here. A take that gives
/// up has the mutex twice, and asks between.
#[test]
fn each_call_wakes_where_it_unlocks(rt: HostRuntime) -> Result<(), Fail> {
    let wrong = first_wrong(
        &rt,
        rt.alloc(),
        1,
        &[
            (Step::Take(Taken::Interrupted), 212),
            (Step::Put(7, Ok(0)), 22),
            (Step::Put(7, Err(PutFault::Full(7))), 2),
            (Step::Take(Taken::Job { ticket: 0, job: 7 }), 2),
            (Step::Close, 33),
        ],
    )?;
    assert_eq!(rt; wrong, None);
    Ok(())
}
