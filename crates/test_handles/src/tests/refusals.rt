//! Each growth of the objects with handles, refused in turn, and that of a list of handles. A lock is two blocks of 16 bytes, a guarded number
//! three.
use linked_list_allocator::LocalHeap;
use sleeping_barrier::SleepingBarrier;
use sleeping_guarded::SleepingGuarded;
use sleeping_monitor::SleepingMonitor;
use sleeping_mutex::{Handle, SleepingMutex};
use sleeping_rw_reader::SleepingRwReader;
use sleeping_rw_value::SleepingRwValue;
use sleeping_semaphore::SleepingSemaphore;
use std::alloc::{AllocError, Global};
use std::test::Fail;

/// Which objects a heap of this size has room for, one at a time, and how much of it is used afterwards.
fn made_in(alloc: Global, size: usize) -> Result<([bool; 7], usize), AllocError> {
    let heap = LocalHeap::new(alloc, size)?;
    let mutex = SleepingMutex::new(&heap).is_ok();
    let semaphore = SleepingSemaphore::new(&heap, 5).is_ok();
    let rw_reader = SleepingRwReader::new(&heap).is_ok();
    let rw_value = SleepingRwValue::new(&heap, 7u64).is_ok();
    let barrier = SleepingBarrier::new(&heap, 2).is_ok();
    let guarded = SleepingGuarded::new(&heap, 7u64).is_ok();
    let monitor = SleepingMonitor::new(&heap, 7u64).is_ok();
    Ok((
        [
            mutex, semaphore, rw_reader, rw_value, barrier, guarded, monitor,
        ],
        heap.used(),
    ))
}

#[test]
fn objects_that_find_no_memory(rt: HostRuntime) -> Result<(), Fail> {
    for (size, made) in [
        (0, [false; 7]),
        (16, [false; 7]),
        (32, [true, true, true, true, true, false, false]),
        (48, [true; 7]),
    ] {
        assert_eq!(rt; made_in(rt.alloc(), size)?, (made, 0));
    }
    Ok(())
}

#[test]
fn handles_that_find_no_memory(rt: HostRuntime) -> Result<(), Fail> {
    let heap = LocalHeap::new(rt.alloc(), 0)?;
    let (mutex, pass) = SleepingMutex::new(rt.alloc())?;
    assert!(rt; mutex.handle(pass).split_into(&heap, 3).is_err());
    Ok(())
}
