//! A pool of workers over a bounded queue: four threads square a thousand numbers, and every square is collected.
//!
//! A fifth party puts the numbers. Where the queue is full it squares the number itself, so it never waits; at last it closes the queue.
//! The workers take numbers until the queue is closed and empty, and sleep while it is empty and open.
#![tactic(auto)]

use job_queue::PutFault;
use sleeping_queue::{Handle, QueueHandle, SleepingQueue};
use std::alloc::{AllocError, Global};
use std::sync::Wait;
use std::thread::Threads;
use std::{io, thread};

const NUMBERS: u64 = 1000;

const PLACES: usize = 16;

/// The numbers that a party has squared, each with its square.
type Squares = Vec<(u64, u64), Global>;

/// What a party of the pool does.
#[derive(Drop)]
enum Role {
    Puts,
    Works,
}

/// A party of the pool, which goes to a thread of its own.
#[derive(Drop)]
struct Party<'q> {
    queue: QueueHandle<'q, u64>,
    role: Role,
}

fn main(rt: HostRuntime) -> io::Result<()> {
    let (queue, pass) = SleepingQueue::new(rt.alloc(), PLACES)?;
    let squares = square_all(&rt, rt.alloc(), queue.handle(pass))?;
    let wrong = (0u64..)
        .zip(squares.iter())
        .filter(|(number, done)| **done != (*number, square(*number)))
        .count();
    println!(rt; "{} squares, {wrong} of them wrong", squares.len())
}

/// What all parties have squared, in order.
fn square_all<R: Threads + Wait + Sync>(
    rt: &R,
    alloc: Global,
    queue: QueueHandle<'_, u64>,
) -> Result<Squares, AllocError> {
    let parties = parties(alloc, queue)?;
    let parts = thread::map_vec(rt, parties, &|party| play(rt, alloc, party))?;
    let mut squares = Vec::new(alloc);
    collect(parts, &mut squares)?;
    squares.sort()?;
    Ok(squares)
}

/// Appends what each party has squared.
fn collect(
    parts: Vec<Result<Squares, AllocError>, Global>,
    squares: &mut Squares,
) -> Result<(), AllocError> {
    for part in parts {
        squares.append(&mut part?)?;
    }
    Ok(())
}

/// One that puts, and four workers.
fn parties(
    alloc: Global,
    whole: QueueHandle<'_, u64>,
) -> Result<Vec<Party<'_>, Global>, AllocError> {
    let (queue, rest) = whole.split();
    let mut parties = Vec::new(alloc);
    for queue in rest.split_into(alloc, 4)? {
        parties.push(Party {
            queue,
            role: Role::Works,
        })?;
    }
    parties.push(Party {
        queue,
        role: Role::Puts,
    })?;
    Ok(parties)
}

/// What a party comes to.
fn play<R: Wait>(rt: &R, alloc: Global, party: Party) -> Result<Squares, AllocError> {
    let Party { mut queue, role } = party;
    match role {
        Role::Puts => {
            let squares = put_all(rt, alloc, &mut queue);
            queue.close(rt);
            squares
        }
        Role::Works => work(rt, alloc, queue),
    }
}

/// Puts each number, and squares those that find no place.
fn put_all<R: Wait>(
    rt: &R,
    alloc: Global,
    queue: &mut QueueHandle<'_, u64>,
) -> Result<Squares, AllocError> {
    let mut squares = Vec::new(alloc);
    for number in 0..NUMBERS {
        if let Err(PutFault::Full(number)) = queue.put(rt, number) {
            squares.push((number, square(number)))?;
        }
    }
    Ok(squares)
}

/// Squares numbers until the queue is closed and has none.
fn work<R: Wait>(
    rt: &R,
    alloc: Global,
    mut queue: QueueHandle<'_, u64>,
) -> Result<Squares, AllocError> {
    let mut squares = Vec::new(alloc);
    for _ in rt.forever() {
        let Some((_, job)) = queue.take(rt) else {
            return Ok(squares);
        };
        squares.push((job, square(job)))?;
    }
    unreachable!()
}

fn square(number: u64) -> u64 {
    number.wrapping_mul(number)
}
