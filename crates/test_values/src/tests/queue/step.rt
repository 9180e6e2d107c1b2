//! A call with what it has to answer, of a queue or of its state.
use job_queue::{PutFault, Taken};

/// A call, with what it has to answer.
#[derive(Drop)]
pub(super) enum Step {
    Put(u64, Result<u64, PutFault<u64>>),
    Take(Taken<u64>),
    Close,
}
