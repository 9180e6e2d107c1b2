//! How the calls of a queue answer.

/// Why a job was not put. The job comes back.
#[derive(Debug, Drop, PartialEq, Eq)]
pub enum PutFault<T> {
    /// The queue is closed.
    Closed(T),
    /// The queue is open, and has as many jobs as it can.
    Full(T),
    /// The queue is open and has room, and there is no further ticket.
    TicketsOut(T),
}

/// What a take came to.
#[derive(Debug, Drop, PartialEq, Eq)]
pub enum Taken<T> {
    /// The oldest job, which has left the queue, and its ticket.
    Job { ticket: u64, job: T },
    /// The queue is closed, and has no job.
    Closed,
    /// The queue is open, and has no job.
    Empty,
    /// The queue was open and had no job, and the wait closure had answered `Abort`.
    Interrupted,
}
