use crate::tests::play::told;
use crate::tests::streams::{Fails, Takes};
use std::io::ErrorKind;
use std::test::Fail;

const TEXT: &[u8] = b"mutex 1\n1 try_lock\n1 run\n";

#[test]
fn a_failed_read_ends_it(rt: HostRuntime) -> Result<(), Fail> {
    for kind in [ErrorKind::Interrupted, ErrorKind::Other] {
        let mut reader = Fails { before: TEXT, kind };
        let mut written: Vec<u8> = Vec::new(rt.alloc());
        let told = told(rt.alloc(), &mut reader, &mut written)?;
        assert_eq!(rt;
            (told.as_str(), written.len()),
            ("reading failed, status 1", 0)
        );
    }
    Ok(())
}

/// Writers, by how many bytes each takes at once, and at which length it fails, with what it then holds, and how the run ended.
const WRITERS: [(usize, usize, &[u8], &str); 4] = [
    (3, 100, b"1 success\nword 1 failed 0\n", "played"),
    (0, 100, b"", "writing failed, status 1"),
    (4, 8, b"1 succes", "writing failed, status 1"),
    (100, 0, b"", "writing failed, status 1"),
];

#[test]
fn a_writer_may_take_less_or_fail(rt: HostRuntime) -> Result<(), Fail> {
    for (at_once, limit, held, ended) in &WRITERS {
        for kind in [ErrorKind::Interrupted, ErrorKind::Other] {
            let mut reader = TEXT;
            let mut writer = Takes {
                held: Vec::new(rt.alloc()),
                at_once: *at_once,
                limit: *limit,
                kind,
            };
            let told = told(rt.alloc(), &mut reader, &mut writer)?;
            assert_eq!(rt; (told.as_str(), writer.held.as_slice()), (*ended, *held));
        }
    }
    Ok(())
}
