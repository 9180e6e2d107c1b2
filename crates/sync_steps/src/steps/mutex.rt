//! The mutex: its word is 0 where it is free and 1 where it is locked.

pub use model_mutex::granted;
