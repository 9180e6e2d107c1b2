//! Parties that call a queue, and steps of one that is alone.
ghost use Rattle.job_queue.specs.QueueShown.{IsQueuePass};

use super::step::Step;
use job_queue::{JobQueue, QueuePass, QueueState, QueueWord};
use model_events::WaitAction;
use std::alloc::{AllocError, Global};
use std::sync::Wait;
use test_signal::Gathering;

/// One that calls a queue.
#[derive(Drop)]
pub(super) struct Party<'q> {
    pub(super) queue: &'q JobQueue<u64>,
    pub(super) pass: QueuePass,
    ghost own: { IsQueuePass queue.now pass },
}

impl<'q> Party<'q> {
    /// Two parties, each with a part of the pass.
    pub(super) fn parts(self) -> (Party<'q>, Party<'q>) {
        let Party { queue, pass } = self;
        let Ok((one, other)) = pass.split(queue) else {
            unreachable!()
        };
        (Party { queue, pass: one }, Party { queue, pass: other })
    }
}

/// Whether the step's call is answered as it has to be, where its wait closure answers `Abort`. The closures are gathered.
fn is_answered<R: Wait>(rt: &R, party: &mut Party<'_>, step: &Step, gathering: &Gathering) -> bool {
    let queue = party.queue;
    let pass = &mut party.pass;
    let wake_one = |word: &QueueWord<'_, QueueState<u64>>| gathering.wake_one(word.load());
    match step {
        Step::Put(job, answer) => queue.put(rt, pass, *job, wake_one) == *answer,
        Step::Take(answer) => {
            let taken = queue.take(
                rt,
                pass,
                |_, seen| {
                    gathering.wait(*seen);
                    WaitAction::Abort
                },
                wake_one,
            );
            taken == *answer
        }
        Step::Close => {
            queue.close(rt, pass, |word| gathering.wake_all(word.load()));
            true
        }
    }
}

/// Whether the step's call is answered as it has to be, and calls these closures, each of which is told 0.
fn is_done<R: Wait>(rt: &R, party: &mut Party<'_>, step: &Step, closures: u64) -> bool {
    let gathering = Gathering::new();
    is_answered(rt, party, step, &gathering) && gathering.gathered() == (closures, 0)
}

/// The place of the first step that is not done so.
fn first_undone<R: Wait>(rt: &R, party: &mut Party<'_>, steps: &[(Step, u64)]) -> Option<usize> {
    for (place, (step, closures)) in steps.iter().enumerate() {
        if !is_done(rt, party, step, *closures) {
            return Some(place);
        }
    }
    None
}

/// Does these steps, one after another, at a queue of its own. Each comes with the closures that it has to call (`Gathering::gathered`),
/// which are told 0. The place of the first that is answered otherwise, or calls others.
pub(super) fn first_wrong<R: Wait>(
    rt: &R,
    alloc: Global,
    capacity: usize,
    steps: &[(Step, u64)],
) -> Result<Option<usize>, AllocError> {
    let (queue, pass) = JobQueue::new(alloc, capacity)?;
    let mut party = Party {
        queue: &queue,
        pass,
    };
    Ok(first_undone(rt, &mut party, steps))
}
