//! The writer-preferring lock: its word is twice the number of read holds plus a mark of 0 or 1, or 2^64 - 1 with a write hold. Beside it
//! stands its wake counter.

pub use model_rw_writer::{marks, reader_enters, reader_leaves, unmarks, writer_enters};
