//! Queues for 8, into which each thread puts before it takes: so none waits for a place or for something to take, but for the queue's lock.
ghost use Rattle.job_queue.specs.QueueShown.{IsQueuePass};

use crate::race::Contended;
use crate::work::Work;
use crossbeam_channel::{Receiver, Sender, bounded};
use iceoryx2_pal_concurrency_sync::yield_and_go_on;
use job_queue::{JobQueue, QueuePass};
use std::alloc::{AllocError, Global};
use std::sync::Wait;

const PLACES: usize = 8;

/// A queue of jobs.
#[derive(Drop)]
pub struct Jobs {
    queue: JobQueue<u64>,
}

impl Contended<QueuePass> for Jobs {
    ghost owns = { λ jobs p. IsQueuePass jobs.queue p };

    fn make(alloc: Global) -> Result<(Self, QueuePass), AllocError> {
        let (queue, pass) = JobQueue::new(alloc, PLACES)?;
        Ok((Jobs { queue }, pass))
    }

    fn part(&self, pass: QueuePass) -> (QueuePass, QueuePass) {
        let Ok(parts) = pass.split(&self.queue) else {
            unreachable!()
        };
        parts
    }

    #[inline(always)]
    fn operate<R: Wait>(&self, rt: &R, pass: &mut QueuePass, work: &mut Work) {
        let _ = self.queue.put(rt, pass, work.operations, |_| ());
        work.go();
        let _ = self
            .queue
            .take(rt, pass, |word, seen| yield_and_go_on(word, seen), |_| ());
        work.go();
    }
}

/// A channel of the kit.
#[derive(Drop)]
pub struct Messages {
    sender: Sender<u64>,
    receiver: Receiver<u64>,
}

impl Contended<()> for Messages {
    ghost owns = { λ _ _. Unit {0} };

    fn make(alloc: Global) -> Result<(Self, ()), AllocError> {
        let (sender, receiver) = bounded(alloc, PLACES)?;
        Ok((Messages { sender, receiver }, ()))
    }

    fn part(&self, _pass: ()) -> ((), ()) {
        ((), ())
    }

    #[inline(always)]
    fn operate<R: Wait>(&self, rt: &R, _pass: &mut (), work: &mut Work) {
        let _ = self.sender.send(rt, work.operations);
        work.go();
        let _ = self.receiver.recv(rt);
        work.go();
    }
}
