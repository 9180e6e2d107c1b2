//! A bounded buffer: one thread puts a thousand numbers through sixteen places, and four take them and add their squares up.
//!
//! One semaphore counts the free places, another the numbers that wait. Who finds none sleeps.
#![tactic(auto)]

use circular_buffer::HeapCircularBuffer;
use sleeping_guarded::{GuardedHandle, Handle, SleepingGuarded};
use sleeping_semaphore::{SemaphoreHandle, SleepingSemaphore};
use std::alloc::AllocError;
use std::sync::Wait;
use std::{io, thread};

const NUMBERS: u64 = 1000;

const PLACES: u64 = 16;

const TAKERS: u64 = 4;

/// What a thread needs of the buffer. In it `None` says that no number comes any more.
#[derive(Drop)]
struct Party<'b> {
    free: SemaphoreHandle<'b>,
    waiting: SemaphoreHandle<'b>,
    numbers: GuardedHandle<'b, HeapCircularBuffer<Option<u64>>>,
}

impl<'b> Party<'b> {
    /// Puts a number, once there is a free place.
    fn put<R: Wait>(&mut self, rt: &R, number: Option<u64>) {
        self.free.wait(rt);
        let _had_place = self
            .numbers
            .with(rt, |numbers| numbers.try_push_back(number).is_ok());
        self.waiting.post(1);
    }

    /// Takes the oldest number, once there is one.
    fn take<R: Wait>(&mut self, rt: &R) -> Option<u64> {
        self.waiting.wait(rt);
        let number = self.numbers.with(rt, |numbers| numbers.pop_front());
        self.free.post(1);
        number.unwrap_or(None)
    }

    /// Two, for a thread more.
    fn split(self) -> (Party<'b>, Party<'b>) {
        let Party {
            free,
            waiting,
            numbers,
        } = self;
        let (free, other_free) = free.split();
        let (waiting, other_waiting) = waiting.split();
        let (numbers, other_numbers) = numbers.split();
        let other = Party {
            free: other_free,
            waiting: other_waiting,
            numbers: other_numbers,
        };
        let party = Party {
            free,
            waiting,
            numbers,
        };
        (party, other)
    }
}

fn main(rt: HostRuntime) -> io::Result<()> {
    let (free, free_pass) = SleepingSemaphore::new(rt.alloc(), PLACES)?;
    let (waiting, waiting_pass) = SleepingSemaphore::new(rt.alloc(), 0)?;
    let numbers = HeapCircularBuffer::with_capacity(rt.alloc(), PLACES as usize)?;
    let Ok((numbers, numbers_pass)) = SleepingGuarded::new(rt.alloc(), numbers) else {
        return Err(AllocError)?;
    };
    let whole = Party {
        free: free.handle(free_pass),
        waiting: waiting.handle(waiting_pass),
        numbers: numbers.handle(numbers_pass),
    };
    let (puts, mut rest) = whole.split();
    let mut takers = Vec::new(rt.alloc());
    for _ in 0..TAKERS {
        let (party, other) = rest.split();
        takers.push(party)?;
        rest = other;
    }
    let ((), sums) = thread::join(
        &rt,
        || put_all(&rt, puts),
        || thread::map_vec(&rt, takers, &|party| sum_of_squares(&rt, party)),
    );
    let mut sum = 0u64;
    for part in sums? {
        sum = sum.wrapping_add(part);
    }
    println!(rt; "{NUMBERS} squares, {sum} in all")
}

/// Puts all numbers, and for each taker that no more come.
fn put_all<R: Wait>(rt: &R, mut party: Party<'_>) {
    for number in 0..NUMBERS {
        party.put(rt, Some(number));
    }
    for _ in 0..TAKERS {
        party.put(rt, None);
    }
}

/// Takes numbers until none come any more, and adds their squares up.
fn sum_of_squares<R: Wait>(rt: &R, mut party: Party<'_>) -> u64 {
    let mut sum = 0u64;
    for _ in rt.forever() {
        match party.take(rt) {
            Some(number) => sum = sum.wrapping_add(number.wrapping_mul(number)),
            None => return sum,
        }
    }
    sum
}
