//! Each growth of `new`, refused in turn. The lock in front is two blocks of 16 bytes.
use linked_list_allocator::LocalHeap;
use running_rw_value::RwLock;
use std::alloc::{AllocError, Global};
use std::test::Fail;

/// Makes a lock round 7 in a heap of this size, and drops it. What came back where there was no memory, and how much of the heap is used
/// afterwards.
fn made_in(alloc: Global, size: usize) -> Result<(Option<u64>, usize), AllocError> {
    let heap = LocalHeap::new(alloc, size)?;
    let back = match RwLock::new(&heap, 7u64) {
        Ok((lock, _pass)) => {
            drop(lock);
            None
        }
        Err((_, value)) => Some(value),
    };
    Ok((back, heap.used()))
}

#[test]
fn a_value_comes_back_where_there_is_no_memory(rt: HostRuntime) -> Result<(), Fail> {
    for (size, back) in [(0, Some(7)), (16, Some(7)), (32, None)] {
        assert_eq!(rt; made_in(rt.alloc(), size)?, (back, 0));
    }
    Ok(())
}
