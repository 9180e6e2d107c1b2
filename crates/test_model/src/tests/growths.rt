//! Each growth of `Machine::new` and of `play`, refused in turn: the heap grows from nothing until there is enough, by 16 bytes.
use super::objects::OBJECTS;
use super::schedules::{play_all, reads};
use linked_list_allocator::LocalHeap;
use std::alloc::Global;
use std::test::Fail;
use sync_steps::atomic::internal::AtomicInteger;
use sync_steps::steps::Input::{Begin, Go};
use sync_steps::steps::{Call, Input, Machine, Object, PlayFault, play};

/// Whether the heap has room for a machine.
fn has_room<T: AtomicInteger>(heap: &LocalHeap, object: Object<T>, parties: usize) -> bool {
    Machine::<T, _>::new(heap, object, parties).is_ok()
}

/// A heap of nothing has no room, and from some size on each has; afterwards it has all its room again.
fn finds_room<T: AtomicInteger>(
    alloc: Global,
    object: Object<T>,
    parties: usize,
) -> Result<bool, Fail> {
    let mut room = false;
    for blocks in 0..256usize {
        let heap = LocalHeap::new(alloc, 16 * blocks)?;
        let found = has_room(&heap, object, parties);
        if found < room || found && blocks == 0 || heap.used() != 0 {
            return Err(("at so many blocks", blocks))?;
        }
        room = found;
    }
    Ok(room)
}

#[test]
fn a_machine_that_finds_no_memory(rt: HostRuntime) -> Result<(), Fail> {
    for object in &OBJECTS {
        for parties in [1, 3, 20] {
            assert!(rt; finds_room(rt.alloc(), *object, parties)?);
        }
    }
    Ok(())
}

/// Whether the heap has room for the events of the inputs.
fn has_room_to_play<T: AtomicInteger>(
    heap: &LocalHeap,
    machine: &mut Machine<T>,
    inputs: &[(usize, Input<T>)],
) -> Result<bool, Fail> {
    match play(heap, machine, inputs) {
        Ok(events) => Ok(events.len() == inputs.len()),
        Err(PlayFault::Memory) => Ok(false),
        Err(PlayFault::Step { .. }) => Err("it is allowed")?,
    }
}

/// How many blocks a heap has that has room for the events. Without room the machine stays as it is.
fn blocks_to_play<T: AtomicInteger>(
    alloc: Global,
    machine: &mut Machine<T>,
    inputs: &[(usize, Input<T>)],
) -> Result<usize, Fail> {
    let before = (reads(machine), machine.hold(0));
    for blocks in 0..4096usize {
        let heap = LocalHeap::new(alloc, 16 * blocks)?;
        if has_room_to_play(&heap, machine, inputs)? {
            return Ok(blocks);
        }
        if heap.used() != 0 || (reads(machine), machine.hold(0)) != before {
            return Err(("at so many blocks", blocks))?;
        }
    }
    Err("no heap is enough")?
}

/// The same after these inputs, which leave one exchange failed.
fn blocks_to_play_after<T: AtomicInteger>(
    alloc: Global,
    first: &[(usize, Input<T>)],
    inputs: &[(usize, Input<T>)],
) -> Result<usize, Fail> {
    let mut machine = Machine::<T>::new(alloc, Object::Mutex, 2)?;
    play_all(alloc, &mut machine, first)?;
    if machine.failed() != 1 {
        return Err("no exchange failed")?;
    }
    blocks_to_play(alloc, &mut machine, inputs)
}

#[test]
fn events_that_find_no_memory(rt: HostRuntime) -> Result<(), Fail> {
    let first: [(usize, Input<u64>); 7] = [
        (0, Begin(Call::TryLock)),
        (0, Go),
        (1, Begin(Call::TryLock)),
        (1, Go),
        (0, Begin(Call::Unlock)),
        (0, Go),
        (0, Go),
    ];
    let round = [
        (0, Begin(Call::TryLock)),
        (0, Go),
        (0, Begin(Call::Unlock)),
        (0, Go),
        (0, Go),
    ];
    let mut inputs = Vec::new(rt.alloc());
    for _ in 0..20u64 {
        inputs.extend_from_slice(&round)?;
    }
    assert!(rt; blocks_to_play_after(rt.alloc(), &first, &inputs)? > 100);
    Ok(())
}
