//! The barrier: its word has in its upper half how many rounds were opened, and in its lower half how many have arrived.

pub use model_barrier::{arrived, opened};
