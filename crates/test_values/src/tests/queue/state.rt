//! A queue's state, of one owner.
use super::step::Step;
use job_queue::{PutFault, QueueState, Taken};
use std::test::Fail;

/// Whether the step's call is answered as it has to be.
fn is_answered(state: &mut QueueState<u64>, step: &Step) -> bool {
    match step {
        Step::Put(job, answer) => state.put(*job) == *answer,
        Step::Take(answer) => state.take() == *answer,
        Step::Close => {
            state.close();
            true
        }
    }
}

/// Does these steps, one after another. The place of the first that is answered otherwise.
fn first_wrong(state: &mut QueueState<u64>, steps: &[Step]) -> Option<usize> {
    for (place, step) in steps.iter().enumerate() {
        if !is_answered(state, step) {
            return Some(place);
        }
    }
    None
}

#[test]
fn a_state_of_two_jobs(rt: HostRuntime) -> Result<(), Fail> {
    let mut state = QueueState::new(rt.alloc(), 2)?;
    let wrong = first_wrong(
        &mut state,
        &[
            Step::Take(Taken::Empty),
            Step::Put(10, Ok(0)),
            Step::Put(11, Ok(1)),
            Step::Put(12, Err(PutFault::Full(12))),
            Step::Take(Taken::Job { ticket: 0, job: 10 }),
            Step::Put(12, Ok(2)),
            Step::Close,
            Step::Put(13, Err(PutFault::Closed(13))),
            Step::Take(Taken::Job { ticket: 1, job: 11 }),
            Step::Take(Taken::Job { ticket: 2, job: 12 }),
            Step::Take(Taken::Closed),
        ],
    );
    assert_eq!(rt; wrong, None);
    Ok(())
}

#[test]
fn tickets_come_to_an_end(rt: HostRuntime) -> Result<(), Fail> {
    let mut state = QueueState::starting_at(rt.alloc(), 2, u64::MAX - 1)?;
    let wrong = first_wrong(
        &mut state,
        &[
            Step::Put(10, Ok(u64::MAX - 1)),
            Step::Put(11, Err(PutFault::TicketsOut(11))),
            Step::Take(Taken::Job {
                ticket: u64::MAX - 1,
                job: 10,
            }),
            Step::Put(11, Err(PutFault::TicketsOut(11))),
            Step::Take(Taken::Empty),
        ],
    );
    assert_eq!(rt; wrong, None);
    Ok(())
}

#[test]
fn a_state_without_places(rt: HostRuntime) -> Result<(), Fail> {
    let mut state = QueueState::new(rt.alloc(), 0)?;
    let wrong = first_wrong(
        &mut state,
        &[
            Step::Put(10, Err(PutFault::Full(10))),
            Step::Close,
            Step::Put(10, Err(PutFault::Closed(10))),
            Step::Take(Taken::Closed),
        ],
    );
    assert_eq!(rt; wrong, None);
    Ok(())
}

/// Puts a job, and takes the one that was put before it, some thousand times. The first round that is answered otherwise.
fn first_wrong_round(state: &mut QueueState<u64>) -> Option<u64> {
    for n in 0..4000u64 {
        if state.put(n + 1) != Ok(n + 1) || state.take() != (Taken::Job { ticket: n, job: n }) {
            return Some(n);
        }
    }
    None
}

/// Round the ring's end, some thousand times.
#[test]
fn many_jobs_in_three_places(rt: HostRuntime) -> Result<(), Fail> {
    let mut state = QueueState::new(rt.alloc(), 3)?;
    let put = state.put(0);
    let round = first_wrong_round(&mut state);
    let last = first_wrong(
        &mut state,
        &[
            Step::Take(Taken::Job {
                ticket: 4000,
                job: 4000,
            }),
            Step::Take(Taken::Empty),
        ],
    );
    assert_eq!(rt; (put, round, last), (Ok(0), None, None));
    Ok(())
}
