//! The once: its word is 0 where no closure has begun, 1 where one runs, and 2 where it has ended.

pub use model_once::begun;
