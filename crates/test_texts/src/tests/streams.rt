//! Readers and writers that fail, or that give and take little.

use std::io;
use std::io::{ErrorKind, Read, Write};

/// A reader that fails after these bytes.
#[derive(Drop)]
pub struct Fails<'a> {
    pub before: &'a [u8],
    pub kind: ErrorKind,
}

impl Read for Fails<'_> {
    fn read(&mut self, buf: &mut [u8]) -> io::Result<usize> {
        if self.before.is_empty() {
            return Err(io::Error::from(self.kind));
        }
        self.before.read(buf)
    }
}

/// A reader that gives so many bytes at once.
#[derive(Drop)]
pub struct Gives<'a> {
    pub left: &'a [u8],
    pub at_once: usize,
}

impl Read for Gives<'_> {
    fn read(&mut self, buf: &mut [u8]) -> io::Result<usize> {
        let count = buf.len().min(self.at_once);
        self.left.read(&mut buf[..count])
    }
}

/// A writer that takes so many bytes at once, and fails once it holds `limit`.
#[derive(Drop)]
pub struct Takes {
    pub held: Vec<u8>,
    pub at_once: usize,
    pub limit: usize,
    pub kind: ErrorKind,
}

impl Write for Takes {
    fn write(&mut self, buf: &[u8]) -> io::Result<usize> {
        let room = self.limit.saturating_sub(self.held.len());
        if room == 0 {
            return Err(io::Error::from(self.kind));
        }
        let count = buf.len().min(self.at_once).min(room);
        self.held.extend_from_slice(&buf[..count])?;
        Ok(count)
    }

    fn flush(&mut self) -> io::Result<()> {
        Ok(())
    }
}
