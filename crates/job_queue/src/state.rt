//! What a queue holds, of one owner.
ghost use Rattle.std.specs.Prelude.{◌≡◌, ◌+◌, length, Some, None, IfOk, IfErr};
ghost use Rattle.job_queue.specs.Tickets.{tickets_of, tickets_from};
ghost use Rattle.job_queue.specs.Jobs.{no_jobs, refusal, with_job, first_in, without_first, closed_now};
ghost use Rattle.job_queue.specs.Answers.{job_of, IsInterrupted};

use crate::answer::{PutFault, Taken};
use circular_buffer::HeapCircularBuffer;
use std::alloc::{AllocError, Allocator, Global};

/// What a queue that threads share keeps, under its lock: `QueueState`.
pub trait KeepsJobs {
    type Job: Drop;

    /// What `QueueState::put` does.
    fn put(&mut self, job: Self::Job) -> Result<u64, PutFault<Self::Job>>
        ensures handed_back { IfErr result (λ fault. job_of fault ≡ job) };

    /// What `QueueState::take` does.
    fn take(&mut self) -> Taken<Self::Job>
        ensures never_interrupted { ¬ IsInterrupted result };

    /// What `QueueState::close` does.
    fn close(&mut self);
}

/// The jobs that were put and not yet taken, the oldest first, each with its ticket: a bounded queue of one owner.
///
/// Tickets are consecutive: `put` is the one that the next job gets, and `taken` that of the oldest job, or `put` where there is none. No
/// call but `new` and `starting_at` takes memory.
#[derive(Drop)]
pub struct QueueState<T, A: Allocator = Global> {
    pub(crate) ring: HeapCircularBuffer<(u64, T), A>,
    pub(crate) put: u64,
    pub(crate) taken: u64,
    pub(crate) closed: bool,
    ghost follow: { tickets_of ring.items ≡ tickets_from taken (length ring.items) },
    ghost up_to: { put ≡ taken + length ring.items },
}

impl<T, A: Allocator> QueueState<T, A> {
    ghost use Rattle.job_queue.specs.StateShown.{shown};

    /// An open queue that holds at most `capacity` jobs, whose first ticket is 0. `Err` where there was no memory.
    pub fn new(alloc: A, capacity: usize) -> Result<Self, AllocError>
        ensures { IfOk result (λ s. shown s ≡ no_jobs capacity 0) }
    {
        QueueState::starting_at(alloc, capacity, 0)
    }

    /// An open queue that holds at most `capacity` jobs, whose first ticket is this. `Err` where there was no memory.
    pub fn starting_at(alloc: A, capacity: usize, ticket: u64) -> Result<Self, AllocError>
        ensures { IfOk result (λ s. shown s ≡ no_jobs capacity ticket) }
    {
        let ring = HeapCircularBuffer::with_capacity(alloc, capacity)?;
        Ok(QueueState {
            ring,
            put: ticket,
            taken: ticket,
            closed: false,
        })
    }

    /// Puts the job at the end, and gives its ticket. Else the job comes back, by the first of these that holds, and the state is as it
    /// was: `Closed`, where the queue is closed; `Full`, where it has as many jobs as it can, so with capacity 0 always; `TicketsOut`,
    /// where the ticket would be 2^64 - 1, after which there is no next.
    #[tactic(auto, using(crate::proofs::TicketsFollow::follow_on))]
    pub fn put(&mut self, job: T) -> Result<u64, PutFault<T>>
        ensures put { IfOk result (λ ticket. (refusal (shown self.old) job ≡ None) × (ticket ≡ (shown self.old).put) × (shown self.new ≡ with_job (shown self.old) job)) }
        ensures refused { IfErr result (λ fault. (refusal (shown self.old) job ≡ Some fault) × (self.new ≡ self.old)) }
        ensures handed_back { IfErr result (λ fault. job_of fault ≡ job) }
    {
        if self.closed {
            return Err(PutFault::Closed(job));
        }
        if self.ring.len() >= self.ring.capacity() {
            return Err(PutFault::Full(job));
        }
        let Some(next) = self.put.checked_add(1) else {
            return Err(PutFault::TicketsOut(job));
        };
        let ticket = self.put;
        match self.ring.try_push_back((ticket, job)) {
            Ok(()) => {}
            Err(_) => unreachable!(),
        }
        self.put = next;
        Ok(ticket)
    }

    /// Takes the oldest job, `Job`. Where there is none: `Closed` where the queue is closed, and `Empty` where it is open. `Interrupted`
    /// never comes.
    pub fn take(&mut self) -> Taken<T>
        ensures taken { result ≡ first_in (shown self.old) }
        ensures never_interrupted { ¬ IsInterrupted result }
        ensures left { shown self.new ≡ without_first (shown self.old) }
    {
        match self.ring.pop_front() {
            Some((ticket, job)) => {
                self.taken = ticket + 1;
                Taken::Job { ticket, job }
            }
            None if self.closed => Taken::Closed,
            None => Taken::Empty,
        }
    }

    /// Closes the queue, for good: no job is put any more, and those that it holds can still be taken.
    pub fn close(&mut self)
        ensures closed { shown self.new ≡ closed_now (shown self.old) }
    {
        self.closed = true;
    }
}

impl<T: Drop, A: Allocator> KeepsJobs for QueueState<T, A> {
    type Job = T;

    fn put(&mut self, job: T) -> Result<u64, PutFault<T>> {
        QueueState::put(self, job)
    }

    fn take(&mut self) -> Taken<T> {
        QueueState::take(self)
    }

    fn close(&mut self) {
        QueueState::close(self)
    }
}
