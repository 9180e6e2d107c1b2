//! The steps of every primitive, one atomic step at a time.

pub mod barrier;
pub mod condvar;
mod fault;
mod headline;
mod machine;
pub mod mutex;
pub mod once;
pub mod place;
mod playing;
pub mod rw_reader;
pub mod rw_writer;
pub mod semaphore;
mod spins;
pub mod turn;

pub use fault::PlayFault;
pub use headline::{
    at_every_prefix, closures_watch_what_they_are_told, each_call_can_begin,
    what_is_watched_is_woken,
};
pub use machine::{Machine, Stride};
pub use model_events::event::{
    Act, Answer, Call, Event, Input, Object, StepFault, Then, Wake, Word,
};
pub use playing::play;
