//! The programs, by one name.

use explore_search::watch::Unwatched;
use explore_text::fault::ExploreFault;
use std::alloc::Global;
use std::io::{Read, Write};
use text_lines::fault::RunFault;

/// How a run ended.
#[derive(Clone, Copy, Debug, PartialEq, Eq)]
pub enum Ended {
    /// All was read and written.
    Whole,
    /// `reading failed`.
    Reading,
    /// `writing failed`.
    Writing,
    /// Another fault.
    Other,
}

impl Ended {
    fn of(fault: RunFault) -> Self {
        match fault {
            RunFault::Read => Ended::Reading,
            RunFault::Write => Ended::Writing,
            _ => Ended::Other,
        }
    }
}

/// A program that reads a text to its end, and writes what it makes of it.
pub trait Program {
    fn run<R: Read, W: Write>(alloc: Global, reader: &mut R, writer: &mut W) -> Ended;
}

/// `sync-play`.
pub struct Plays;

impl Program for Plays {
    fn run<R: Read, W: Write>(alloc: Global, reader: &mut R, writer: &mut W) -> Ended {
        match own_play::run(alloc, reader, writer) {
            Ok(()) => Ended::Whole,
            Err(fault) => Ended::of(fault),
        }
    }
}

/// `sync-trace`.
pub struct Traces;

impl Program for Traces {
    fn run<R: Read, W: Write>(alloc: Global, reader: &mut R, writer: &mut W) -> Ended {
        match text_advice::trace::run(alloc, reader, writer) {
            Ok(()) => Ended::Whole,
            Err(failed) => Ended::of(failed.fault),
        }
    }
}

/// `sync-draw`.
pub struct Draws;

impl Program for Draws {
    fn run<R: Read, W: Write>(alloc: Global, reader: &mut R, writer: &mut W) -> Ended {
        match draw_text::run::run(alloc, reader, writer) {
            Ok(()) => Ended::Whole,
            Err(failed) => Ended::of(failed.fault),
        }
    }
}

/// `sync-explore`.
pub struct Explores;

impl Program for Explores {
    fn run<R: Read, W: Write>(alloc: Global, reader: &mut R, writer: &mut W) -> Ended {
        match explore_client::run::run(alloc, reader, writer, false, &mut Unwatched) {
            Ok(_) => Ended::Whole,
            Err(unanswered) => match unanswered.fault {
                ExploreFault::Read => Ended::Reading,
                ExploreFault::Write => Ended::Writing,
                ExploreFault::Line { .. } | ExploreFault::Search(_) => Ended::Other,
            },
        }
    }
}
