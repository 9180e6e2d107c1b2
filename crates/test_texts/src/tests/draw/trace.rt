//! Texts are traced by `run`, from a reader that fails, or to a writer that fails. What texts trace is tested by the tables of `texts/sync-trace`.

use crate::tests::streams::{Fails, Takes};
use std::alloc::{AllocError, Global};
use std::io::{ErrorKind, Read, Write};
use std::test::Fail;
use text_advice::trace::run;

/// Traces a text from a reader to a writer: nothing, or its fault's line and the exit status.
fn told<R: Read, W: Write>(
    alloc: Global,
    reader: &mut R,
    writer: &mut W,
) -> Result<String, AllocError> {
    match run(alloc, reader, writer) {
        Ok(()) => Ok(String::new(alloc)),
        Err(failed) => {
            let fault = failed.fault;
            let status = fault.status();
            format!(in alloc; "{fault}, status {status}")
        }
    }
}

/// What is written of what a reader brings, and then its fault's line and the exit status, if it has one.
fn traced<R: Read>(alloc: Global, reader: &mut R) -> Result<String, AllocError> {
    let mut written: Vec<u8> = Vec::new(alloc);
    let told = told(alloc, reader, &mut written)?;
    shown(alloc, &written, told.as_str())
}

/// An output, whose bytes are ASCII, as text, and then these words.
fn shown(alloc: Global, output: &[u8], words: &str) -> Result<String, AllocError> {
    let mut shown = String::new(alloc);
    for byte in output {
        shown.push(char::from(*byte))?;
    }
    shown.push_str(words)?;
    Ok(shown)
}

const TEXT: &[u8] = b"mutex 1\n1 try_lock\n1 run\n1 lock\n";

#[test]
fn a_reader_that_fails(rt: HostRuntime) -> Result<(), Fail> {
    let mut reader = Fails {
        before: TEXT,
        kind: ErrorKind::Other,
    };
    let trace = traced(rt.alloc(), &mut reader)?;
    assert_eq!(rt; trace.as_str(), "reading failed, status 1");
    Ok(())
}

/// Writers, by the length at which each fails, with what it then holds, and what is told: where the trace up to a fault cannot be written
/// whole, it is that.
const WRITERS: [(usize, &[u8], &str); 2] = [
    (21, b"step  times  line  pa", "writing failed, status 1"),
    (
        100000,
        b"\
step  times  line  party  act                              word  holds  call
1            2     1      try_lock                         0     -      begins
2            3     1      exchange 0 for 1, found 0, done  1     1      success
",
        "line 4: holding, status 2",
    ),
];

#[test]
fn writers_of_a_text_with_a_fault(rt: HostRuntime) -> Result<(), Fail> {
    for (limit, held, ended) in &WRITERS {
        let mut reader = TEXT;
        let mut writer = Takes {
            held: Vec::new(rt.alloc()),
            at_once: 7,
            limit: *limit,
            kind: ErrorKind::Other,
        };
        let told = told(rt.alloc(), &mut reader, &mut writer)?;
        assert_eq!(rt; (told.as_str(), writer.held.as_slice()), (*ended, *held));
    }
    Ok(())
}
