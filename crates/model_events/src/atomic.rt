//! Wide atomics: here only what their integers are.

mod integers;
pub mod internal;
