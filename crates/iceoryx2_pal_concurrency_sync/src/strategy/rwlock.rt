//! Locks of many readers or one writer.

use crate::OneWord;
pub use running_rw_hold::{Held, Known, ReadHold, RwHold, RwPass, WriteHold};
pub use running_rw_reader::{RwReaderPass, holds_are_of_a_run, no_hold_beside_a_write_hold};
pub use running_rw_writer::{
    MarkedHolds, RwWriterPass, grants_are_of_a_run, no_hold_beside_the_writer,
    no_mark_without_a_flag,
};
use std::alloc::Global;

/// A lock of many readers or one writer. A reader enters wherever no writer is in, also where writers wait.
pub type RwLockReaderPreference<A = Global> = running_rw_reader::RwLockReaderPreference<A, OneWord>;

/// A lock of many readers or one writer. Where a writer waits it sets a mark, and no reader enters until the mark is taken away.
pub type RwLockWriterPreference<A = Global> = running_rw_writer::RwLockWriterPreference<A, OneWord>;
