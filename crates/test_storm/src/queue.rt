//! A storm at a queue for 8 jobs: two put, and six take.
ghost use Rattle.job_queue.specs.QueueShown.{IsQueuePass, HasStayed};

use crate::crowd::{Means, Object};
use crate::platform::Platform;
use crate::tally::Tally;
use iceoryx2_pal_concurrency_sync::{WaitAction, WaitWord};
use job_queue::{JobQueue, PutFault, QueuePass, QueueState, QueueWord, Taken};
use std::alloc::{AllocError, Global};
use std::sync::Wait;
use std::time::Clock;

const PLACES: usize = 8;

impl Object<QueuePass> for JobQueue<u64> {
    const WOKEN_ALONE: u64 = 8;

    fn make(alloc: Global) -> Result<(Self, QueuePass), AllocError> {
        JobQueue::new(alloc, PLACES)
    }

    /// The first two put, and the others take.
    fn turn<
        R: Wait + Clock,
        B: Platform + Drop,
        W: Fn(&WaitWord, &u64) -> WaitAction + Copy,
        K: Fn(&WaitWord) + Copy,
        V: Fn(&WaitWord) + Copy,
    >(&self, rt: &R, pass: &mut QueuePass, number: u64, turn: u64, by: &Means<B, W, K, V>) {
        let (tally, at) = (by.tally, by.at);
        let by = Means {
            tally,
            at,
            wait: |word: &QueueWord<'_, QueueState<u64>>, seen: &u64| {
                at.one.wait(rt, tally, word, *seen, Tally::patience())
            },
            wake_one: |word: &QueueWord<'_, QueueState<u64>>| at.one.wake_one(word),
            wake_all: nobody,
        };
        if number < 2 {
            put(rt, self, pass, turn, &by);
        } else {
            take(rt, self, pass, &by);
        }
    }

    /// What was put in and not taken out has to be in the queue still.
    fn end<R: Wait + Clock>(self, rt: &R, pass: QueuePass, tally: &Tally) -> (u64, Option<u64>) {
        match empty(rt, &self, pass) {
            Some(left) => (left.abs_diff(tally.rest()), None),
            None => (u64::MAX, None),
        }
    }
}

/// The last that puts closes the queue, so that none waits for more.
fn put<
    R: Wait,
    B: Platform + Drop,
    W: Fn(&QueueWord<'_, QueueState<u64>>, &u64) -> WaitAction + Copy,
    K: Fn(&QueueWord<'_, QueueState<u64>>) + Copy,
    V: Fn(&QueueWord<'_, QueueState<u64>>) + Copy,
>(rt: &R, queue: &JobQueue<u64>, pass: &mut QueuePass, turn: u64, by: &Means<B, W, K, V>)
    requires own { IsQueuePass queue.now pass.old }
    requires may { K.IsAlwaysCallable by.now.wake_one }
    ensures stayed { HasStayed pass.old pass.new }
{
    if queue.put(rt, pass, turn, by.wake_one).is_ok() {
        by.tally.put(turn);
    }
    if by.tally.is_last_put(turn) {
        queue.close(
            rt,
            pass,
            |word: &QueueWord<'_, QueueState<u64>>| by.at.one.wake_all(word),
        );
    }
}

/// Nobody waits for the queue's lock by its closures, so its unlock wakes nobody.
fn take<
    R: Wait,
    B: Platform + Drop,
    W: Fn(&QueueWord<'_, QueueState<u64>>, &u64) -> WaitAction + Copy,
    K: Fn(&QueueWord<'_, QueueState<u64>>) + Copy,
    V: Fn(&QueueWord<'_, QueueState<u64>>) + Copy,
>(rt: &R, queue: &JobQueue<u64>, pass: &mut QueuePass, by: &Means<B, W, K, V>)
    requires own { IsQueuePass queue.now pass.old }
    requires may { W.IsAlwaysCallable by.now.wait }
    ensures stayed { HasStayed pass.old pass.new }
{
    match queue.take(rt, pass, by.wait, nobody) {
        Taken::Job { job, .. } => by.tally.take(job),
        Taken::Closed | Taken::Empty | Taken::Interrupted => {}
    }
}

/// Closes the queue and takes out what is there: the sum of it. `None` where a take or a put does not say then that the queue is closed.
fn empty<R: Wait>(rt: &R, queue: &JobQueue<u64>, mut pass: QueuePass) -> Option<u64>
    requires own { IsQueuePass queue.now pass }
{
    queue.close(rt, &mut pass, nobody);
    let mut sum = 0;
    for _ in 0..PLACES {
        if let Taken::Job { job, .. } = queue.take(rt, &mut pass, give_up, nobody) {
            sum = job.wrapping_add(sum);
        }
    }
    let taken = queue.take(rt, &mut pass, give_up, nobody);
    let put = queue.put(rt, &mut pass, 0, nobody);
    match (taken, put) {
        (Taken::Closed, Err(PutFault::Closed(_))) => Some(sum),
        _ => None,
    }
}

fn nobody(_word: &QueueWord<'_, QueueState<u64>>) {}

/// A wait closure that gives up at once.
fn give_up(_word: &QueueWord<'_, QueueState<u64>>, _seen: &u64) -> WaitAction {
    WaitAction::Abort
}
