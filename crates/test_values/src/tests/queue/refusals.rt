//! Each growth of each `new`, refused in turn: `AllocError`, and nothing is left behind. And a job that is still in the queue at its end is
//! let go with it.
use super::queue::room_of;
use job_queue::QueueState;
use linked_list_allocator::LocalHeap;
use std::alloc::{AllocError, Global};
use std::sync::Wait;
use std::test::Fail;

/// Makes a state of two places in a heap of this size, and drops it with two jobs. Their tickets, where there was memory, and how much of
/// the heap is used afterwards.
fn state_made_in(
    alloc: Global,
    size: usize,
) -> Result<(Option<(Option<u64>, Option<u64>)>, usize), AllocError> {
    let heap = LocalHeap::new(alloc, size)?;
    let tickets = match QueueState::<u64, &LocalHeap>::new(&heap, 2) {
        Ok(mut state) => Some((state.put(7).ok(), state.put(8).ok())),
        Err(_) => None,
    };
    Ok((tickets, heap.used()))
}

/// A ring of two places of a ticket and a job each is a block of 32 bytes. Where it is made it has both.
#[test]
fn a_state_that_finds_no_memory(rt: HostRuntime) -> Result<(), Fail> {
    for (size, tickets) in [(0, None), (16, None), (32, Some((Some(0), Some(1))))] {
        assert_eq!(rt; state_made_in(rt.alloc(), size)?, (tickets, 0));
    }
    Ok(())
}

/// Makes a queue of 40 places in a heap of this size, and drops it with its jobs. What room it had (`room_in`), where there was memory, and
/// how much of the heap is used afterwards.
fn queue_made_in<R: Wait>(
    rt: &R,
    alloc: Global,
    size: usize,
) -> Result<(Option<Option<u64>>, usize), AllocError> {
    let heap = LocalHeap::new(alloc, size)?;
    let room = room_of(rt, &heap, 40).ok();
    Ok((room, heap.used()))
}

/// Swept up in steps of one block: refused at first, and once there is room granted always, with all its places. They are most of what it
/// takes, so a queue of fewer would find room in a heap that is too small.
#[test]
fn a_queue_that_finds_no_memory(rt: HostRuntime) -> Result<(), Fail> {
    let mut granted = false;
    for blocks in 0..128usize {
        let may_be_refused = !granted;
        let made = queue_made_in(&rt, rt.alloc(), 16 * blocks)?;
        granted = made.0.is_some();
        if granted {
            assert!(rt; blocks > 5);
            assert_eq!(rt; made, (Some(Some(40)), 0));
        } else {
            assert!(rt; may_be_refused);
            assert_eq!(rt; made, (None, 0));
        }
    }
    assert!(rt; granted);
    Ok(())
}
