//! The semaphore: its word is the number of permits that are there to take.

pub use model_semaphore::{posted, taken};
