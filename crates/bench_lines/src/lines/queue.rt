//! The lines of the queue of jobs, and what they are compared with.
ghost use Rattle.job_queue.specs.QueueShown.{IsQueuePass};

use crate::lines::{Operation, successes};
use crossbeam_channel::{Receiver, Sender, bounded};
use iceoryx2_pal_concurrency_sync::WaitAction;
use job_queue::{JobQueue, QueuePass, Taken};
use std::alloc::{AllocError, Global};
use std::sync::Wait;

/// Puts a job and takes it, with closures that do nothing. Nobody waits.
pub fn put_take(rt: &impl Wait, alloc: Global) -> Result<u32, AllocError> {
    let (queue, pass) = JobQueue::new(alloc, 8)?;
    Ok(successes(&mut PutTake { rt, queue, pass }))
}

#[derive(Drop)]
struct PutTake<'r, R: Wait> {
    rt: &'r R,
    queue: JobQueue<u64>,
    pass: QueuePass,
    ghost own: { IsQueuePass queue pass },
}

impl<'r, R: Wait> Operation for PutTake<'r, R> {
    #[inline(always)]
    fn once(&mut self) -> bool {
        let put = self.queue.put(self.rt, &mut self.pass, 7, |_| ());
        let taken = self
            .queue
            .take(self.rt, &mut self.pass, |_, _| WaitAction::Abort, |_| ());
        put.is_ok() && matches!(taken, Taken::Job { ticket: _, job: 7 })
    }
}

/// Sends a message to a bounded channel of the kit's crossbeam_channel, and receives it.
pub fn channel_send_receive(rt: &impl Wait, alloc: Global) -> Result<u32, AllocError> {
    let (sender, receiver) = bounded(alloc, 8)?;
    Ok(successes(&mut SendReceive {
        rt,
        sender,
        receiver,
    }))
}

#[derive(Drop)]
struct SendReceive<'r, R: Wait> {
    rt: &'r R,
    sender: Sender<u64>,
    receiver: Receiver<u64>,
}

impl<'r, R: Wait> Operation for SendReceive<'r, R> {
    #[inline(always)]
    fn once(&mut self) -> bool {
        let sent = self.sender.try_send(self.rt, 7);
        let received = self.receiver.try_recv(self.rt);
        sent.is_ok() && received.is_ok()
    }
}
