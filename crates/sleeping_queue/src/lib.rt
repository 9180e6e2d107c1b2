//! A queue of jobs at which takers sleep, and handles of it: a handle owns its pass, so its calls ask for nothing.
#![tactic(auto)]

ghost use Rattle.std.specs.Prelude.{◌≡◌};
ghost use Rattle.job_queue.specs.QueueShown.{IsQueuePass, IsOnePart};

use job_queue::{JobQueue, PutFault, QueuePass, Taken};
use running_closures::Sleepers;
pub use running_sharing::Handle;
use running_sharing::Shares;
use std::alloc::{AllocError, Allocator, Global};
use std::sync::Wait;
use std::time::{Clock, Instant};

/// A queue of jobs, and who sleeps until there is one: who puts a job wakes one, who closes the queue all.
#[derive(Drop)]
pub struct SleepingQueue<T, A: Allocator = Global> {
    queue: JobQueue<T, A>,
    sleepers: Sleepers,
}

/// The right to call it, which one thread needs. It owns its pass, which is of that queue by its type.
#[derive(Drop)]
pub struct QueueHandle<'q, T, A: Allocator = Global> {
    of: &'q SleepingQueue<T, A>,
    pass: QueuePass,
    ghost own: { IsQueuePass of.now.queue pass },
    ghost one: { IsOnePart pass },
}

impl<T: Drop, A: Allocator + Copy> SleepingQueue<T, A> {
    ghost use Rattle.std.specs.Prelude.{IfOk};
    ghost use Rattle.job_queue.specs.QueueShown.{IsWholePass};
    ghost use Rattle.sleeping_queue.specs.HandleShown.{IsSleepingPass};

    /// An open queue that holds at most `capacity` jobs, at which nobody sleeps, and the pass that is whole. `Err` where there was no
    /// memory; then nothing was made.
    pub fn new(alloc: A, capacity: usize) -> Result<(SleepingQueue<T, A>, QueuePass), AllocError>
        ensures own { IfOk result (λ made. IsSleepingPass made.0 made.1) }
        ensures whole { IfOk result (λ made. IsWholePass made.1) }
    {
        let (queue, pass) = JobQueue::new(alloc, capacity)?;
        let sleepers = Sleepers::new();
        Ok((SleepingQueue { queue, sleepers }, pass))
    }
}

impl<T, A: Allocator> SleepingQueue<T, A> {
    ghost use Rattle.sleeping_queue.specs.HandleShown.{IsSleepingPass, below, object_of, pass_of};

    /// The queue itself, for calls with a pass: with closures of your own, or where you count.
    #[inline(always)]
    pub fn queue(&self) -> &JobQueue<T, A>
        ensures { result.now ≡ below self.now }
    {
        &self.queue
    }

    /// The handle with this pass.
    #[inline(always)]
    pub fn handle(&self, pass: QueuePass) -> QueueHandle<'_, T, A>
        requires own { IsSleepingPass self.now pass }
        ensures object { object_of result ≡ self.now }
        ensures pass { pass_of result ≡ pass }
    {
        QueueHandle { of: self, pass }
    }
}

impl<T: Drop, A: Allocator> QueueHandle<'_, T, A> {
    ghost use Rattle.std.specs.Prelude.{None, IfOk, IfErr};
    ghost use Rattle.job_queue.specs.Answers.{job_of, IsEmptyAnswer, IsInterrupted};
    ghost use Rattle.job_queue.specs.QueueShown.{HasLookedTwice};
    ghost use Rattle.sleeping_queue.specs.HandleShown.{IsSleepingPass, object_of, pass_of, PassHas, HasPut, HasPutNothing, HasClosed, HasTaken};

    /// Puts a job at the queue's end, gives its ticket, and wakes one that sleeps. Else the job comes back: the queue is closed or full, or
    /// there is no further ticket.
    pub fn put<R: Wait>(&mut self, rt: &R, job: T) -> Result<u64, PutFault<T>>
        ensures put { IfOk result (λ _. PassHas HasPut self.old self.new) }
        ensures refused { IfErr result (λ _. PassHas HasPutNothing self.old self.new) }
        ensures handed_back { IfErr result (λ fault. job_of fault ≡ job) }
    {
        let of = self.of;
        of.queue
            .put(rt, &mut self.pass, job, |_| of.sleepers.wake_one())
    }

    /// Takes the oldest job, and its ticket, asleep until there is one; `None` where the queue is closed and has none.
    pub fn take<R: Wait>(&mut self, rt: &R) -> Option<(u64, T)>
        ensures took { HasTaken self.old self.new }
    {
        let of = self.of;
        let taken = of.queue.take(
            rt,
            &mut self.pass,
            |word, seen| of.sleepers.sleep(rt, word, *seen),
            |_| (),
        );
        match taken {
            Taken::Job { ticket, job } => Some((ticket, job)),
            Taken::Closed => None,
            Taken::Empty | Taken::Interrupted => unreachable!(),
        }
    }

    /// The same, as `Job` or `Closed`; `Interrupted` where there was none once the deadline had passed. `Empty` never comes.
    pub fn take_until<R: Wait + Clock>(&mut self, rt: &R, deadline: Option<Instant>) -> Taken<T>
        ensures took { HasTaken self.old self.new }
        ensures never { ¬ IsEmptyAnswer result }
        ensures gave_up { IsInterrupted result → PassHas HasLookedTwice self.old self.new }
        ensures waits { deadline ≡ None → ¬ IsInterrupted result }
    {
        let of = self.of;
        of.queue.take(
            rt,
            &mut self.pass,
            |word, seen| of.sleepers.sleep_until(rt, word, *seen, deadline),
            |_| (),
        )
    }

    /// Closes the queue, for good, and wakes all that sleep. What it holds can still be taken.
    pub fn close<R: Wait>(&mut self, rt: &R)
        ensures closed { PassHas HasClosed self.old self.new }
    {
        let of = self.of;
        of.queue
            .close(rt, &mut self.pass, |_| of.sleepers.wake_all());
    }

    /// The pass alone, for who counts.
    #[inline(always)]
    pub fn into_pass(self) -> QueuePass
        ensures own { IsSleepingPass (object_of self.entry) result }
        ensures same { result ≡ pass_of self.entry }
    {
        let QueueHandle { of: _, pass } = self;
        pass
    }
}

impl<T, A: Allocator> Handle for QueueHandle<'_, T, A> {
    ghost use Rattle.sleeping_queue.specs.HandleShown.{object_of, part_with};

    ghost same = { λ one other. object_of other ≡ object_of one };

    ghost part = { part_with };

    fn split(self) -> (Self, Self) {
        let QueueHandle { of, pass } = self;
        let (pass, other) = pass.cut(&of.queue);
        (of.handle(pass), of.handle(other))
    }

    fn join(self, other: Self) -> Self {
        let QueueHandle { of, pass } = self;
        let QueueHandle { of: _, pass: other } = other;
        let Ok(pass) = QueuePass::join(pass, other, &of.queue) else {
            unreachable!()
        };
        of.handle(pass)
    }
}
