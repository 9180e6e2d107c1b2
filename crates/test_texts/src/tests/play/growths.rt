//! Each growth of `play_text` and of `run`, refused in turn: the heap grows from nothing until there is enough, by 16 bytes.
use linked_list_allocator::LocalHeap;
use std::alloc::Global;
use std::test::Fail;
use sync_play::{RunFault, TextFault, play_text, run};

/// A text of each object, and one of the most parties, with what is written of it.
const TEXTS: [(&[u8], &[u8]); 12] = [
    (
        b"mutex 2\n1 try_lock\n1 run\n2 lock\n2 run\n1 unlock\n1 run\n2 abort\n2 run\n",
        b"1 success\n2 waits 1\n1 wakes one\n1 done\n2 success\nword 1 failed 10001\n",
    ),
    (
        b"semaphore 1 18446744073709551615\n1 post 1\n1 run\n1 value\n1 run\n1 try_wait\n1 run\n1 post 1\n1 run\n1 value\n1 run\n",
        b"1 wakes one\n1 done\n1 0\n1 interrupted\n1 wakes one\n1 done\n1 1\nword 1 failed 0\n",
    ),
    (
        b"semaphore 64 1\n64 try_wait\n64 run\n",
        b"64 success\nword 0 failed 0\n",
    ),
    (
        b"barrier 3 2\n1 start_wait\n1 go 2\n2 start_wait\n2 go 2\n3 start_wait\n3 run\n2 run\n1 run\n",
        b"3 waits 4294967297\n2 wakes all\n2 ok\n1 ok\nword 4294967297 failed 0\n",
    ),
    (
        b"rwwriter 4\n1 read_lock\n1 run\n2 write_lock\n2 run\n3 write_lock\n3 run\n4 write_lock\n4 run\n2 abort\n2 run\n3 wait\n3 run\n3 abort\n3 run\n4 wait\n4 run\n4 abort\n4 run\n",
        b"1 success\n2 waits 0\n3 waits 0\n4 waits 0\n2 wakes one\n2 wakes all\n2 interrupted\n3 waits 1\n3 wakes one\n3 wakes all\n3 interrupted\n4 waits 2\n4 wakes one\n4 wakes all\n4 interrupted\nword 2 counter 3 failed 0\n",
    ),
    (
        b"rwreader 2\n1 write_lock\n1 run\n2 read_lock\n2 run\n2 abort\n2 run\n",
        b"1 success\n2 waits 18446744073709551615\n2 interrupted\nword 18446744073709551615 failed 0\n",
    ),
    (
        b"atomic_u128 2 18446744073709551615\n1 fetch_add 1\n1 go 5\n2 load\n2 go 3\n1 run\n2 run\n",
        b"1 18446744073709551615\n2 18446744073709551616\nword 0 value 18446744073709551616 failed 0\n",
    ),
    (
        b"atomic_i128 1 -1\n1 fetch_add 1\n1 run\n1 load\n1 run\n",
        b"1 -1\n1 0\nword 0 value 0 failed 0\n",
    ),
    (
        b"condvar 2\n1 lock\n1 run\n1 start_wait\n1 go 3\n2 notify_one\n2 run\n2 notify_one\n2 run\n1 run\n1 start_wait\n1 run\n",
        b"1 success\n1 wakes one\n2 wakes one\n2 done\n2 wakes one\n2 done\n1 success\n1 wakes one\n1 success\nword 1 waiters 0 value 0 failed 0\n",
    ),
    (
        b"once 2\n1 call_once\n1 go 2\n2 call_once\n2 go 50\n1 run\n2 run\n",
        b"1 done\n2 done\nword 2 failed 1\n",
    ),
    (
        b"lazy 2 42\n1 force\n1 run\n2 force\n2 run\n",
        b"1 42\n2 42\nword 2 failed 0\n",
    ),
    (
        b"spin 2\n1 lock\n1 run\n2 try_lock\n2 run\n1 unlock\n1 run\n2 try_lock\n2 run\n",
        b"1 success\n2 interrupted\n1 done\n2 success\nword 1 failed 0\n",
    ),
];

/// Whether the heap has room for a text's machine and its output.
fn has_room(heap: &LocalHeap, text: &[u8], output: &[u8]) -> Result<bool, Fail> {
    match play_text(heap, text) {
        Ok(bytes) if bytes.as_slice() == output => Ok(true),
        Ok(_) => Err("it prints something else")?,
        Err(TextFault::Memory) => Ok(false),
        Err(TextFault::Line { .. }) => Err("it has no fault")?,
    }
}

/// Whether it has room for the text too. Where it has none, nothing is written.
fn has_room_to_run(
    heap: &LocalHeap,
    alloc: Global,
    text: &[u8],
    output: &[u8],
) -> Result<bool, Fail> {
    let mut reader = text;
    let mut written: Vec<u8> = Vec::new(alloc);
    match run(heap, &mut reader, &mut written) {
        Ok(()) if written.as_slice() == output => Ok(true),
        Err(RunFault::Memory) if written.is_empty() => Ok(false),
        _ => Err("it wrote something else, or ended otherwise")?,
    }
}

/// Whether some heap is enough for a text. A heap of nothing is not, what is enough for the text is so for its output, and afterwards
/// each heap has all its room again.
fn finds_room(alloc: Global, text: &[u8], output: &[u8]) -> Result<bool, Fail> {
    for blocks in 0..4096usize {
        let heap = LocalHeap::new(alloc, 16 * blocks)?;
        let plays = has_room(&heap, text, output)?;
        let runs = has_room_to_run(&heap, alloc, text, output)?;
        if blocks == 0 && plays || runs && !plays || heap.used() != 0 {
            return Err(("at so many blocks", blocks))?;
        }
        if runs {
            return Ok(true);
        }
    }
    Ok(false)
}

#[test]
fn texts_that_find_no_memory(rt: HostRuntime) -> Result<(), Fail> {
    for (text, output) in &TEXTS {
        assert!(rt; finds_room(rt.alloc(), text, output)?);
    }
    Ok(())
}
