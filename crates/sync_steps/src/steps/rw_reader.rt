//! The reader-preferring lock: its word is the number of read holds, or 2^64 - 1 with a write hold.

pub use model_rw_reader::{reader_enters, reader_leaves, writer_enters};
