//! Two producers and two consumers.
use super::party::Party;
use job_queue::{JobQueue, Taken};
use model_events::WaitAction;
use std::alloc::{AllocError, Global};
use std::sync::Wait;
use std::sync::atomic::{AtomicU64, Ordering};
use std::test::Fail;
use std::thread;
use std::thread::Threads;

/// After so many turns a party of the test gives up, and the test fails.
const TURNS: u64 = 1_000_000;

const JOBS: u64 = 100;

/// Puts the job, where there is room. Whether it was put.
fn put<R: Wait>(rt: &R, party: &mut Party<'_>, job: u64) -> bool {
    let queue = party.queue;
    queue.put(rt, &mut party.pass, job, |_| ()).is_ok()
}

/// Puts the job, yielding and trying again where the queue is full; whether it was put.
fn put_soon<R: Wait>(rt: &R, party: &mut Party<'_>, job: u64) -> bool {
    for _ in 0..TURNS {
        if put(rt, party, job) {
            return true;
        }
        thread::yield_now();
    }
    false
}

/// Puts 100 jobs; whether all were put.
fn put_all<R: Wait>(rt: &R, party: &mut Party<'_>) -> bool {
    for job in 0..JOBS {
        if !put_soon(rt, party, job) {
            return false;
        }
    }
    true
}

/// Puts 100 jobs, and closes the queue where the other producer has ended. Whether all were put.
fn produce<R: Wait>(rt: &R, party: &mut Party<'_>, ended: &AtomicU64) -> bool {
    let all = put_all(rt, party);
    if ended.fetch_add(1, Ordering::SeqCst) == 1 {
        let queue = party.queue;
        queue.close(rt, &mut party.pass, |_| ());
    }
    all
}

/// The answer of a wait that goes on until it was asked often.
fn go_on(asked: &AtomicU64) -> WaitAction {
    thread::yield_now();
    if asked.fetch_add(1, Ordering::SeqCst) < TURNS {
        WaitAction::Continue
    } else {
        WaitAction::Abort
    }
}

/// Takes, and waits while there is no job.
fn take<R: Wait>(rt: &R, party: &mut Party<'_>, asked: &AtomicU64) -> Taken<u64> {
    let queue = party.queue;
    queue.take(rt, &mut party.pass, |_, _| go_on(asked), |_| ())
}

/// Takes until the queue is closed, and adds the tickets. Whether that was the end.
fn take_all<R: Wait>(
    rt: &R,
    party: &mut Party<'_>,
    tickets: &mut Vec<u64, Global>,
) -> Result<bool, AllocError> {
    let asked = AtomicU64::new(0);
    for _ in 0..TURNS {
        match take(rt, party, &asked) {
            Taken::Job { ticket, job: _ } => tickets.push(ticket)?,
            Taken::Closed => return Ok(true),
            Taken::Interrupted | Taken::Empty => return Ok(false),
        }
    }
    Ok(false)
}

/// The tickets that a consumer took, and whether it ended with `Closed`.
type Tickets = Result<(Vec<u64, Global>, bool), AllocError>;

/// The tickets that were taken until the queue was closed, and whether that was the end.
fn consume<R: Wait>(rt: &R, alloc: Global, party: &mut Party<'_>) -> Tickets {
    let mut tickets = Vec::new(alloc);
    let closed = take_all(rt, party, &mut tickets)?;
    Ok((tickets, closed))
}

/// A producer and a consumer.
fn produce_and_consume<R: Threads + Wait + Sync>(
    rt: &R,
    alloc: Global,
    party: Party<'_>,
    ended: &AtomicU64,
) -> (bool, Tickets) {
    let (mut one, mut two) = party.parts();
    thread::join(
        rt,
        || produce(rt, &mut one, ended),
        || consume(rt, alloc, &mut two),
    )
}

/// Two producers, the later of which closes the queue, and two consumers.
fn four_threads<R: Threads + Wait + Sync>(
    rt: &R,
    alloc: Global,
) -> Result<((bool, Tickets), (bool, Tickets)), AllocError> {
    let (queue, pass) = JobQueue::new(alloc, 8)?;
    let party = Party {
        queue: &queue,
        pass,
    };
    let (one, other) = party.parts();
    let ended = AtomicU64::new(0);
    Ok(thread::join(
        rt,
        || produce_and_consume(rt, alloc, one, &ended),
        || produce_and_consume(rt, alloc, other, &ended),
    ))
}

/// Moves the others to these tickets, and sorts them.
fn join_and_sort(
    tickets: &mut Vec<u64, Global>,
    others: &mut Vec<u64, Global>,
) -> Result<(), AllocError> {
    tickets.append(others)?;
    tickets.sort()
}

/// How many tickets there are, where they are 0, 1 and so on.
fn counted(tickets: &Vec<u64, Global>) -> Option<usize> {
    for (place, ticket) in tickets.iter().enumerate() {
        if *ticket != place as u64 {
            return None;
        }
    }
    Some(tickets.len())
}

/// Whether both ended with `Closed`, whether each has its tickets in order, and how many all are, where they are 0, 1 and so on, each once.
fn all_tickets(one: Tickets, other: Tickets) -> Result<(bool, bool, Option<usize>), AllocError> {
    let (mut tickets, one_closed) = one?;
    let (mut others, other_closed) = other?;
    let in_order = tickets.is_sorted() && others.is_sorted();
    join_and_sort(&mut tickets, &mut others)?;
    Ok((one_closed && other_closed, in_order, counted(&tickets)))
}

/// Both consumers end with `Closed`, each has its tickets in order, and all are 0 to 199, each once.
#[test]
fn two_producers_and_two_consumers(rt: HostRuntime) -> Result<(), Fail> {
    let ((first, one), (second, other)) = four_threads(&rt, rt.alloc())?;
    let taken = all_tickets(one, other)?;
    assert_eq!(rt; (first && second, taken), (true, (true, true, Some(200))));
    Ok(())
}
