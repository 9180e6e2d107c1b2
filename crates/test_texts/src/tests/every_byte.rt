//! Each program reads a text of each object from streams that fail at every byte, and from such as give and take little.

use crate::tests::programs::{Draws, Ended, Explores, Plays, Program, Traces};
use crate::tests::streams::{Fails, Gives, Takes};
use std::alloc::{AllocError, Global};
use std::io::{ErrorKind, Read};
use std::test::Fail;

/// A text of each object.
const TEXTS: [&str; 13] = [
    "mutex 2\n1 lock\n1 run\n2 lock\n2 go 1\n",
    "spin 1\n1 lock\n1 run\n",
    "semaphore 1 2\n1 post 3\n1 run\n",
    "barrier 1 1\n1 start_wait\n1 run\n",
    "rwreader 1\n1 read_lock\n1 run\n",
    "rwwriter 1\n1 write_lock\n1 run\n1 unlock\n1 run\n",
    "condvar 1\n1 notify_one\n1 run\n",
    "once 1\n1 call_once\n1 run\n",
    "lazy 1 7\n1 force\n1 run\n",
    "atomic_u64 1 7\n1 load\n1 run\n",
    "atomic_u128 1 7\n1 store 18446744073709551616\n1 run\n",
    "atomic_i64 1 -7\n1 fetch_add 1\n1 run\n",
    "atomic_i128 1 -7\n1 fetch_update\n1 run\n1 some -8\n1 run\n",
];

/// A question for each object that has some, and one for a text alone.
const QUESTIONS: [&str; 10] = [
    "mutex 2\n1 lock, unlock\n2 try_lock\n",
    "spin 1\n1 lock\n",
    "semaphore 1 2\n1 try_wait\n",
    "barrier 1 1\n1 start_wait\n",
    "rwreader 1\n1 read_lock\n",
    "rwwriter 1\n1 try_write_lock\n",
    "condvar 1\n1 notify_all\n",
    "once 1\n1 call_once\n",
    "lazy 1 7\n1 force\n",
    "rwreader 2\n1 read_lock\n2 try_write_lock\nfind 2 interrupted\n",
];

/// A text whose last line has a fault.
const FAULTY: &str = "mutex 1\n1 try_lock\n1 run\n1 lock\n";

/// What a program writes of a text.
fn output<P: Program>(alloc: Global, text: &str) -> Vec<u8> {
    let mut reader = text.as_bytes();
    let mut written: Vec<u8> = Vec::new(alloc);
    P::run(alloc, &mut reader, &mut written);
    written
}

/// A writer that takes so many bytes at once, and fails once it holds so many.
fn takes(alloc: Global, at_once: usize, limit: usize) -> Takes {
    Takes {
        held: Vec::new(alloc),
        at_once,
        limit,
        kind: ErrorKind::Other,
    }
}

/// How a run ends with a writer that takes so many bytes at once, and fails once it holds `limit`; and whether it then holds these bytes.
fn ends<P: Program, R: Read>(
    alloc: Global,
    reader: &mut R,
    at_once: usize,
    limit: usize,
    held: &[u8],
) -> (Ended, bool) {
    let mut writer = takes(alloc, at_once, limit);
    let ended = P::run(alloc, reader, &mut writer);
    (ended, writer.held.as_slice() == held)
}

/// Whether a reader that fails is always answered by `reading failed`, with nothing written: at each byte of the text, and at its end.
fn tells_failing_readers<P: Program>(alloc: Global, text: &str) -> bool {
    for at in 0..=text.len() {
        for kind in [ErrorKind::Interrupted, ErrorKind::Other] {
            let mut reader = Fails {
                before: &text.as_bytes()[..at],
                kind,
            };
            let ended = ends::<P, _>(alloc, &mut reader, usize::MAX, usize::MAX, b"");
            if ended != (Ended::Reading, true) {
                return false;
            }
        }
    }
    true
}

/// Whether a writer that fails is always answered by `writing failed`, and holds what it took: at each byte of the output. Of a long one,
/// as a picture is, at a hundred bytes or so: it is made before its first byte is written.
fn tells_failing_writers<P: Program>(alloc: Global, text: &str) -> bool {
    let whole = output::<P>(alloc, text);
    for limit in (0..whole.len()).step_by(1 + whole.len() / 2000 * 20) {
        let mut reader = text.as_bytes();
        let ended = ends::<P, _>(alloc, &mut reader, usize::MAX, limit, &whole[..limit]);
        if ended != (Ended::Writing, true) {
            return false;
        }
    }
    whole.len() > 9
}

/// Whether less at once makes no other output.
fn takes_small_pieces<P: Program>(alloc: Global, text: &str) -> bool {
    let whole = output::<P>(alloc, text);
    for (given, taken) in [(1, 1), (1, usize::MAX), (7, 3), (usize::MAX, 1), (3, 7)] {
        let mut reader = Gives {
            left: text.as_bytes(),
            at_once: given,
        };
        let ended = ends::<P, _>(alloc, &mut reader, taken, usize::MAX, &whole);
        if ended != (Ended::Whole, true) {
            return false;
        }
    }
    true
}

/// Whether a writer that takes nothing is told of, and holds nothing.
fn tells_an_idle_writer<P: Program>(alloc: Global, text: &str) -> bool {
    let mut reader = text.as_bytes();
    ends::<P, _>(alloc, &mut reader, 0, usize::MAX, b"") == (Ended::Writing, true)
}

/// The first of the texts with which something is wrong.
fn wrong_with<'t, P: Program>(alloc: Global, texts: &[&'t str]) -> Option<&'t str> {
    for text in texts {
        if !(tells_failing_readers::<P>(alloc, text)
            && tells_failing_writers::<P>(alloc, text)
            && takes_small_pieces::<P>(alloc, text)
            && tells_an_idle_writer::<P>(alloc, text))
        {
            return Some(*text);
        }
    }
    None
}

/// The first of the texts of each object with which something is wrong.
fn wrong_text<P: Program>(alloc: Global) -> Option<&'static str> {
    wrong_with::<P>(alloc, &TEXTS)
}

#[test]
fn sync_play_at_every_byte(rt: HostRuntime) {
    assert_eq!(rt; wrong_text::<Plays>(rt.alloc()), None);
}

#[test]
fn sync_trace_at_every_byte(rt: HostRuntime) {
    assert_eq!(rt; wrong_text::<Traces>(rt.alloc()), None);
}

#[test]
fn sync_draw_at_every_byte(rt: HostRuntime) {
    assert_eq!(rt; wrong_text::<Draws>(rt.alloc()), None);
}

#[test]
fn sync_explore_at_every_byte(rt: HostRuntime) {
    assert_eq!(rt; wrong_with::<Explores>(rt.alloc(), &QUESTIONS), None);
}

/// How the trace of the text with a fault ends, with a writer that fails once it holds so many bytes, and whether it then holds these.
fn traced(alloc: Global, limit: usize, held: &[u8]) -> (Ended, bool) {
    let mut reader = FAULTY.as_bytes();
    ends::<Traces, _>(alloc, &mut reader, 7, limit, held)
}

/// Whether the text with a fault is traced up to it, and a write that fails is told before the fault is.
fn traces_up_to_a_fault(alloc: Global) -> bool {
    let whole = output::<Traces>(alloc, FAULTY);
    for limit in 0..whole.len() {
        if traced(alloc, limit, &whole[..limit]) != (Ended::Writing, true) {
            return false;
        }
    }
    whole.len() > 10 && traced(alloc, usize::MAX, &whole) == (Ended::Other, true)
}

/// A text with a fault: `sync-trace` writes the trace up to it, and tells of a write that fails before it tells of the text; the others write
/// nothing.
#[test]
fn a_text_with_a_fault(rt: HostRuntime) {
    assert!(rt; traces_up_to_a_fault(rt.alloc()));
    assert!(rt; output::<Plays>(rt.alloc(), FAULTY).is_empty());
    assert!(rt; output::<Draws>(rt.alloc(), FAULTY).is_empty());
}
