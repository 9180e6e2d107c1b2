//! Each growth of `new`, refused in turn. A lock of a number is three blocks of 16 bytes.
use iceoryx2_pal_concurrency_sync::spin_lock::SpinLock;
use linked_list_allocator::LocalHeap;
use std::alloc::{AllocError, Global};
use std::test::Fail;

/// The value that came back from a heap of this size, if it did, and how many bytes of the heap are used then.
fn a_spin_lock_in(alloc: Global, size: usize) -> Result<(Option<u64>, usize), AllocError> {
    let heap = LocalHeap::new(alloc, size)?;
    let came_back = match SpinLock::new(&heap, 7u64) {
        Ok(_made) => None,
        Err((_, value)) => Some(value),
    };
    Ok((came_back, heap.used()))
}

#[test]
fn a_spin_lock_that_finds_no_memory_hands_its_value_back(rt: HostRuntime) -> Result<(), Fail> {
    for (size, came_back) in [(0, Some(7)), (16, Some(7)), (32, Some(7)), (48, None)] {
        assert_eq!(rt; a_spin_lock_in(rt.alloc(), size)?, (came_back, 0));
    }
    Ok(())
}
