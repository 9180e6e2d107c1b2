//! Texts that are longer than any buffer, and outputs too.
use super::told;
use crate::tests::streams::{Fails, Gives, Takes};
use std::alloc::{AllocError, Global};
use std::io::ErrorKind;
use std::test::Fail;

/// How often a long text asks for its semaphore's value.
const TIMES: u64 = 15000;

/// A text of more than 200 KB, and an output of more than 300 KB.
fn long_text(alloc: Global) -> Result<String, AllocError> {
    let mut text = String::new(alloc);
    text.push_str("semaphore 1 18446744073709551615\n")?;
    for _ in 0..TIMES {
        text.push_str("1 value\n1 run\n")?;
    }
    Ok(text)
}

/// What the long text prints.
fn long_output(alloc: Global) -> Result<String, AllocError> {
    let mut output = String::new(alloc);
    for _ in 0..TIMES {
        output.push_str("1 18446744073709551615\n")?;
    }
    output.push_str("word 18446744073709551615 failed 0\n")?;
    Ok(output)
}

/// How many bytes a reader gives at once, and how many a writer takes.
const PIECES: [(usize, usize); 4] = [(7, 1000), (1000, 13), (4096, 4096), (1000000, 1000000)];

#[test]
fn a_long_text_in_pieces(rt: HostRuntime) -> Result<(), Fail> {
    let text = long_text(rt.alloc())?;
    let want = long_output(rt.alloc())?;
    for (gives, takes) in PIECES {
        let mut reader = Gives {
            left: text.as_bytes(),
            at_once: gives,
        };
        let mut writer = Takes {
            held: Vec::new(rt.alloc()),
            at_once: takes,
            limit: 1000000,
            kind: ErrorKind::Other,
        };
        let told = told(rt.alloc(), &mut reader, &mut writer)?;
        let is_whole = writer.held.as_slice() == want.as_bytes();
        assert_eq!(rt; (told.as_str(), is_whole), ("played", true));
    }
    Ok(())
}

#[test]
fn a_late_write_fails(rt: HostRuntime) -> Result<(), Fail> {
    let text = long_text(rt.alloc())?;
    let want = long_output(rt.alloc())?;
    for limit in [300, 4096, 200000] {
        let mut reader = text.as_bytes();
        let mut writer = Takes {
            held: Vec::new(rt.alloc()),
            at_once: 4,
            limit,
            kind: ErrorKind::Other,
        };
        let told = told(rt.alloc(), &mut reader, &mut writer)?;
        let is_front = Some(writer.held.as_slice()) == want.as_bytes().get(..limit);
        assert_eq!(rt;
            (told.as_str(), is_front),
            ("writing failed, status 1", true)
        );
    }
    Ok(())
}

#[test]
fn a_late_read_fails(rt: HostRuntime) -> Result<(), Fail> {
    let text = long_text(rt.alloc())?;
    let mut reader = Fails {
        before: text.as_bytes(),
        kind: ErrorKind::Other,
    };
    let mut written: Vec<u8> = Vec::new(rt.alloc());
    let told = told(rt.alloc(), &mut reader, &mut written)?;
    assert_eq!(rt;
        (told.as_str(), written.len()),
        ("reading failed, status 1", 0)
    );
    Ok(())
}
