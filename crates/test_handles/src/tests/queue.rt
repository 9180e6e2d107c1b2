//! Handles of a queue of jobs.
use job_queue::{PutFault, Taken};
use linked_list_allocator::LocalHeap;
use sleeping_queue::{Handle, QueueHandle, SleepingQueue};
use std::alloc::{AllocError, Global};
use std::sync::Wait;
use std::test::Fail;
use std::thread;
use std::time::{Clock, Instant};

const JOBS: u64 = 3000;

/// Puts all jobs, each once there is room, and closes the queue.
fn put_all<R: Wait>(rt: &R, mut handle: QueueHandle<'_, u64>) {
    let mut job = 0u64;
    for _ in rt.forever() {
        if job == JOBS {
            break;
        }
        match handle.put(rt, job) {
            Ok(_ticket) => job = job.wrapping_add(1),
            Err(_fault) => thread::yield_now(),
        }
    }
    handle.close(rt);
}

/// Takes jobs until the queue is closed, asleep while there is none, and adds them up.
fn take_all<R: Wait>(rt: &R, mut handle: QueueHandle<'_, u64>) -> u64 {
    let mut sum = 0u64;
    for _ in rt.forever() {
        let Some((_, job)) = handle.take(rt) else {
            break;
        };
        sum = sum.wrapping_add(job);
    }
    sum
}

#[test]
fn three_take_what_a_fourth_puts(rt: HostRuntime) -> Result<(), Fail> {
    let (queue, pass) = SleepingQueue::new(rt.alloc(), 4)?;
    let (puts, takes) = queue.handle(pass).split();
    let (one, rest) = takes.split();
    let (two, three) = rest.split();
    let (((), first), (second, third)) = thread::join(
        &rt,
        || thread::join(&rt, || put_all(&rt, puts), || take_all(&rt, one)),
        || thread::join(&rt, || take_all(&rt, two), || take_all(&rt, three)),
    );
    let sum = first.wrapping_add(second).wrapping_add(third);
    assert_eq!(rt; sum, JOBS * (JOBS - 1) / 2);
    Ok(())
}

#[test]
fn what_a_queue_of_one_place_answers(rt: HostRuntime) -> Result<(), Fail> {
    let (queue, pass) = SleepingQueue::new(rt.alloc(), 1)?;
    let (one, other) = queue.handle(pass).split();
    let mut handle = one.join(other);
    let passed = Some(Instant::now(&rt)?);
    assert_eq!(rt; handle.put(&rt, 7), Ok(0));
    assert_eq!(rt; handle.put(&rt, 8), Err(PutFault::Full(8)));
    assert_eq!(rt; handle.take(&rt), Some((0, 7)));
    assert_eq!(rt; handle.take_until(&rt, passed), Taken::Interrupted);
    handle.close(&rt);
    assert_eq!(rt; handle.put(&rt, 9), Err(PutFault::Closed(9)));
    assert_eq!(rt; handle.take_until(&rt, None), Taken::Closed);
    assert_eq!(rt; handle.take(&rt), None);
    Ok(())
}

/// Whether a queue of 40 places was made in a heap of this size, and how much of that is used afterwards.
fn made_in(alloc: Global, size: usize) -> Result<(bool, usize), AllocError> {
    let heap = LocalHeap::new(alloc, size)?;
    let is_made = SleepingQueue::<u64, &LocalHeap>::new(&heap, 40).is_ok();
    Ok((is_made, heap.used()))
}

#[test]
fn a_queue_for_sleepers_that_finds_no_memory(rt: HostRuntime) -> Result<(), Fail> {
    let mut granted = false;
    for blocks in 0..128usize {
        let (is_made, used) = made_in(rt.alloc(), 16 * blocks)?;
        assert!(rt; is_made || !granted);
        assert_eq!(rt; used, 0);
        granted = is_made;
    }
    assert!(rt; granted);
    Ok(())
}
