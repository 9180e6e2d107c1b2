use crate::tests::{benched, benched_from, told};
use bench_table::run::run;
use std::alloc::{AllocError, Global};
use std::io;
use std::io::{ErrorKind, Read, Write};
use std::sync::Wait;
use std::test::Fail;
use std::time::{Clock, Duration};

/// Texts that ask for no number of rounds that is allowed.
const FAULTS: [&[u8]; 12] = [
    b"",
    b" \n",
    b"100001",
    b"18446744073709551616",
    b"99999999999999999999999999",
    b"-1",
    b"++1",
    b"1 2",
    b"1.0",
    b"0x10",
    b"one",
    b"1\xff",
];

#[test]
fn other_texts_are_faults(rt: HostRuntime) -> Result<(), Fail> {
    for text in FAULTS {
        let told = benched(&rt, rt.alloc(), text)?;
        assert_eq!(rt; told.as_str(), "bad number of rounds, status 2, 0 written");
    }
    Ok(())
}

/// A clock that cannot be read.
#[derive(Drop)]
struct NoClock<'a, R: Wait>(&'a R);

impl<R: Wait> Wait for NoClock<'_, R> {}

impl<R: Wait> Clock for NoClock<'_, R> {
    fn monotonic(&self) -> io::Result<Duration> {
        Err(io::Error::from(ErrorKind::Other))
    }

    fn since_1970(&self) -> io::Result<Duration> {
        Err(io::Error::from(ErrorKind::Other))
    }
}

#[test]
fn a_failed_clock_ends_it(rt: HostRuntime) -> Result<(), Fail> {
    let told = benched(&NoClock(&rt), rt.alloc(), b"1")?;
    assert_eq!(rt; told.as_str(), "the clock failed, status 1, 0 written");
    Ok(())
}

/// A reader that fails after some bytes.
#[derive(Drop)]
struct Fails<'a>(&'a [u8]);

impl Read for Fails<'_> {
    fn read(&mut self, buf: &mut [u8]) -> io::Result<usize> {
        if self.0.is_empty() {
            return Err(io::Error::from(ErrorKind::Other));
        }
        self.0.read(buf)
    }
}

#[test]
fn a_failed_read_ends_it(rt: HostRuntime) -> Result<(), Fail> {
    let told = benched_from(&rt, rt.alloc(), &mut Fails(b"0\n"))?;
    assert_eq!(rt; told.as_str(), "reading failed, status 1, 0 written");
    Ok(())
}

/// A writer that takes one byte at a time, and fails after some.
#[derive(Drop)]
struct Takes(usize);

impl Write for Takes {
    fn write(&mut self, buf: &[u8]) -> io::Result<usize> {
        if self.0 == 0 {
            return Err(io::Error::from(ErrorKind::Other));
        }
        self.0 -= 1;
        Ok(buf.len().min(1))
    }

    fn flush(&mut self) -> io::Result<()> {
        Ok(())
    }
}

/// How a run without rounds ends with a writer that takes so many bytes.
fn ended(rt: &(impl Clock + Wait), alloc: Global, taken: usize) -> Result<String, AllocError> {
    let mut reader: &[u8] = b"0";
    let mut writer = Takes(taken);
    match run(rt, alloc, &mut reader, &mut writer) {
        Ok(()) => format!(in alloc; "benched"),
        Err(fault) => told(alloc, fault, taken.saturating_sub(writer.0)),
    }
}

/// How many bytes a writer takes, with how the run ends. The table without rounds has 36.
const TAKEN: [(usize, &str); 4] = [
    (0, "writing failed, status 1, 0 written"),
    (1, "writing failed, status 1, 1 written"),
    (35, "writing failed, status 1, 35 written"),
    (36, "benched"),
];

#[test]
fn a_failed_write_ends_it(rt: HostRuntime) -> Result<(), Fail> {
    for (taken, wanted) in TAKEN {
        let ended = ended(&rt, rt.alloc(), taken)?;
        assert_eq!(rt; ended.as_str(), wanted);
    }
    Ok(())
}
