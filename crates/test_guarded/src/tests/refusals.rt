//! Each growth of `new`, refused in turn. A guarded number is three blocks of 16 bytes.
use linked_list_allocator::LocalHeap;
use running_guarded::Guarded;
use std::alloc::{AllocError, Global};
use std::test::Fail;

/// Makes a guarded 7 in a heap of this size, and drops it. What came back where there was no memory, and how much of the heap is used
/// afterwards.
fn made_in(alloc: Global, size: usize) -> Result<(Option<u64>, usize), AllocError> {
    let heap = LocalHeap::new(alloc, size)?;
    let back = match Guarded::new(&heap, 7u64) {
        Ok((guarded, _pass)) => {
            drop(guarded);
            None
        }
        Err((_, value)) => Some(value),
    };
    Ok((back, heap.used()))
}

#[test]
fn a_value_comes_back_where_there_is_no_memory(rt: HostRuntime) -> Result<(), Fail> {
    for (size, back) in [(0, Some(7)), (16, Some(7)), (32, Some(7)), (48, None)] {
        assert_eq!(rt; made_in(rt.alloc(), size)?, (back, 0));
    }
    Ok(())
}
