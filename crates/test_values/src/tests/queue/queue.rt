//! A queue, on one thread.
ghost use Rattle.job_queue.specs.QueueShown.{IsQueuePass, IsWholePass};

use super::party::first_wrong;
use super::step::Step;
use job_queue::{JobQueue, PutFault, QueuePass, Taken};
use model_events::WaitAction;
use std::alloc::{AllocError, Allocator, Global};
use std::sync::Wait;
use std::test::Fail;

/// Only the take that finds none is asked, once, and told 0 permits. A call wakes once where it unlocks, and once more with a notify.
#[test]
fn one_thread(rt: HostRuntime) -> Result<(), Fail> {
    let wrong = first_wrong(
        &rt,
        rt.alloc(),
        2,
        &[
            (Step::Put(7, Ok(0)), 22),
            (Step::Put(8, Ok(1)), 22),
            (Step::Put(9, Err(PutFault::Full(9))), 2),
            (Step::Take(Taken::Job { ticket: 0, job: 7 }), 2),
            (Step::Take(Taken::Job { ticket: 1, job: 8 }), 2),
            (Step::Take(Taken::Interrupted), 212),
            (Step::Close, 33),
            (Step::Put(10, Err(PutFault::Closed(10))), 2),
            (Step::Take(Taken::Closed), 2),
        ],
    )?;
    assert_eq!(rt; wrong, None);
    Ok(())
}

/// How many jobs the queue takes in until it answers `Full`, with their tickets in order; `None` where it answers something else.
fn room_in<R: Wait, A: Allocator>(
    rt: &R,
    queue: &JobQueue<u64, A>,
    pass: &mut QueuePass,
) -> Option<u64>
    requires own { IsQueuePass queue.now pass.old }
{
    for job in 0..100u64 {
        match queue.put(rt, pass, job, |_| ()) {
            Ok(ticket) if ticket == job => (),
            Err(PutFault::Full(back)) if back == job => return Some(job),
            _ => return None,
        }
    }
    None
}

/// The room in a queue of this capacity.
pub(super) fn room_of<R: Wait, A: Allocator + Copy>(
    rt: &R,
    alloc: A,
    capacity: usize,
) -> Result<Option<u64>, AllocError> {
    let (queue, mut pass) = JobQueue::new(alloc, capacity)?;
    Ok(room_in(rt, &queue, &mut pass))
}

#[test]
fn a_queue_has_room_for_its_capacity(rt: HostRuntime) -> Result<(), Fail> {
    for (capacity, room) in [(0, 0), (1, 1), (3, 3), (40, 40)] {
        assert_eq!(rt; room_of(&rt, rt.alloc(), capacity)?, Some(room));
    }
    Ok(())
}

/// Takes, and gives up where there is no job.
fn take_at_once<R: Wait>(rt: &R, queue: &JobQueue<u64>, pass: &mut QueuePass) -> Taken<u64>
    requires own { IsQueuePass queue.now pass.old }
    ensures own { IsQueuePass queue.now pass.new }
{
    queue.take(rt, pass, |_, _| WaitAction::Abort, |_| ())
}

/// Puts two jobs.
fn put_two<R: Wait>(rt: &R, queue: &JobQueue<u64>, pass: &mut QueuePass)
    requires own { IsQueuePass queue.now pass.old }
    ensures own { IsQueuePass queue.now pass.new }
{
    let _ = queue.put(rt, pass, 7, |_| ());
    let _ = queue.put(rt, pass, 8, |_| ());
}

/// Puts two jobs by one half of a pass, takes one by the other, and joins them. What was taken.
fn put_and_take_in_parts<R: Wait>(
    rt: &R,
    queue: &JobQueue<u64>,
    pass: QueuePass,
) -> (QueuePass, Taken<u64>)
    requires own { IsQueuePass queue.now pass }
    ensures own { IsQueuePass queue.now result.0 }
{
    let Ok((mut one, mut two)) = pass.split(queue) else {
        unreachable!()
    };
    put_two(rt, queue, &mut one);
    let taken = take_at_once(rt, queue, &mut two);
    let Ok(pass) = QueuePass::join(one, two, queue) else {
        unreachable!()
    };
    (pass, taken)
}

/// Parts the whole pass and joins it again.
fn part_and_join(queue: &JobQueue<u64>, pass: QueuePass) -> QueuePass
    requires own { IsQueuePass queue.now pass }
    requires whole { IsWholePass pass }
    ensures own { IsQueuePass queue.now result }
    ensures whole { IsWholePass result }
{
    let Ok((one, two)) = pass.split(queue) else {
        unreachable!()
    };
    let Ok(pass) = QueuePass::join(one, two, queue) else {
        unreachable!()
    };
    pass
}

/// What is taken by a part of a pass, and then by the whole.
fn taken_in_parts<R: Wait>(rt: &R, alloc: Global) -> Result<(Taken<u64>, Taken<u64>), AllocError> {
    let (queue, pass) = JobQueue::new(alloc, 2)?;
    let (mut pass, first) = put_and_take_in_parts(rt, &queue, part_and_join(&queue, pass));
    Ok((first, take_at_once(rt, &queue, &mut pass)))
}

#[test]
fn parts_are_the_whole_again(rt: HostRuntime) -> Result<(), Fail> {
    assert_eq!(rt;
        taken_in_parts(&rt, rt.alloc())?,
        (
            Taken::Job { ticket: 0, job: 7 },
            Taken::Job { ticket: 1, job: 8 }
        )
    );
    Ok(())
}
