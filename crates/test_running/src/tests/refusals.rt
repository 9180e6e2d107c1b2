//! Each growth of each `new`, refused in turn. A word is a block of 16 bytes: a heap of fewer blocks than an object has words has no room
//! for it.
use iceoryx2_pal_concurrency_sync::atomic::Atomic;
use iceoryx2_pal_concurrency_sync::once::Once;
use iceoryx2_pal_concurrency_sync::strategy::barrier::Barrier;
use iceoryx2_pal_concurrency_sync::strategy::condition_variable::ConditionVariable;
use iceoryx2_pal_concurrency_sync::strategy::mutex::Mutex;
use iceoryx2_pal_concurrency_sync::strategy::rwlock::{
    RwLockReaderPreference, RwLockWriterPreference,
};
use iceoryx2_pal_concurrency_sync::strategy::semaphore::Semaphore;
use linked_list_allocator::LocalHeap;
use std::alloc::{AllocError, Global};
use std::test::Fail;

/// Whether the object was made, how many bytes of the heap were used then, and how many once it was dropped.
type Held = (bool, usize, usize);

/// What is held of a heap when an object was made in it, or not, and once that was dropped.
fn held_by<T: Drop>(heap: &LocalHeap, made: Result<T, AllocError>) -> Held {
    let (is_made, used) = (made.is_ok(), heap.used());
    drop(made);
    (is_made, used, heap.used())
}

/// What each lock, the semaphore, the barrier and the once hold of a heap of so many bytes.
fn held_by_locks(alloc: Global, size: usize) -> Result<[Held; 6], AllocError> {
    let heap = LocalHeap::new(alloc, size)?;
    Ok([
        held_by(&heap, Mutex::new(&heap)),
        held_by(&heap, RwLockReaderPreference::new(&heap)),
        held_by(&heap, RwLockWriterPreference::new(&heap)),
        held_by(&heap, Semaphore::new(&heap, 5)),
        held_by(&heap, Barrier::new(&heap, 3)),
        held_by(&heap, Once::new(&heap)),
    ])
}

/// A lock is two blocks, and an object of one word too.
#[test]
fn locks_that_find_no_memory(rt: HostRuntime) -> Result<(), Fail> {
    let none = (false, 0, 0);
    for (size, held) in [(0, none), (16, none), (32, (true, 32, 0))] {
        assert_eq!(rt; held_by_locks(rt.alloc(), size)?, [held; 6]);
    }
    Ok(())
}

/// What a condition variable and an atomic of 128 bits hold of a heap of so many bytes.
fn held_by_larger(alloc: Global, size: usize) -> Result<[Held; 2], AllocError> {
    let heap = LocalHeap::new(alloc, size)?;
    Ok([
        held_by(&heap, ConditionVariable::new(&heap)),
        held_by(&heap, Atomic::<u128, _>::new(&heap, 7)),
    ])
}

/// A condition variable is four blocks: its count and its permits. An atomic is three words, and so a block more than a lock's.
#[test]
fn larger_objects_that_find_no_memory(rt: HostRuntime) -> Result<(), Fail> {
    let none = (false, 0, 0);
    for (size, held) in [
        (0, [none, none]),
        (16, [none, none]),
        (32, [none, none]),
        (48, [none, (true, 48, 0)]),
        (64, [(true, 64, 0), (true, 48, 0)]),
    ] {
        assert_eq!(rt; held_by_larger(rt.alloc(), size)?, held);
    }
    Ok(())
}
