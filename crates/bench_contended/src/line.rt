//! What is measured.

use crate::figures::Figures;
use crate::guarded::Number;
use crate::mutexes::{AtSleepers, Locked, OnTheWord, StdLocked, Yielding};
use crate::queues::{Jobs, Messages};
use crate::race::contend;
use crate::rwlocks::{Room, SharedNumber, StdRoom};
use std::alloc::Global;
use std::io;
use std::sync::Wait;
use std::thread::Threads;
use std::time::{Clock, CpuClock, Duration};

/// What threads contend for, and how they wait.
#[derive(Clone, Copy)]
pub enum Line {
    StdMutex,
    MutexYielding,
    MutexOnTheWord,
    MutexAtSleepers,
    Guarded,
    StdRwLock,
    RwWriter,
    RwValue,
    Channel,
    JobQueue,
}

/// Every line, in the order of the table.
pub const LINES: [Line; 10] = [
    Line::StdMutex,
    Line::MutexYielding,
    Line::MutexOnTheWord,
    Line::MutexAtSleepers,
    Line::Guarded,
    Line::StdRwLock,
    Line::RwWriter,
    Line::RwValue,
    Line::Channel,
    Line::JobQueue,
];

/// How many threads contend.
pub const THREADS: [usize; 4] = [1, 2, 4, 8];

/// How many nanoseconds of work stand inside a critical section, and as much outside.
pub const SECTIONS: [u64; 3] = [0, 100, 1000];

impl Line {
    /// What the table calls it.
    pub fn name(self) -> &'static str {
        match self {
            Line::StdMutex => "std mutex",
            Line::MutexYielding => "mutex, yielding",
            Line::MutexOnTheWord => "mutex, on the word",
            Line::MutexAtSleepers => "mutex, at sleepers",
            Line::Guarded => "guarded value, at sleepers",
            Line::StdRwLock => "std rwlock, nine reads to a write",
            Line::RwWriter => "writer-preferring lock, at sleepers, nine reads to a write",
            Line::RwValue => "value that many read, at sleepers, nine reads to a write",
            Line::Channel => "crossbeam_channel, send and receive",
            Line::JobQueue => "job_queue, put and take",
        }
    }

    /// How so many threads fare, whose work takes so many steps, in so much time.
    pub fn race<R: Threads + Wait + Clock + CpuClock + Sync>(
        self,
        rt: &R,
        alloc: Global,
        threads: usize,
        steps: u64,
        most: Duration,
    ) -> io::Result<Figures> {
        match self {
            Line::StdMutex => contend::<StdLocked, _, R>(rt, alloc, threads, steps, most),
            Line::MutexYielding => contend::<Locked<Yielding>, _, R>(
                rt, alloc, threads, steps, most,
            ),
            Line::MutexOnTheWord => contend::<Locked<OnTheWord>, _, R>(
                rt, alloc, threads, steps, most,
            ),
            Line::MutexAtSleepers => contend::<Locked<AtSleepers>, _, R>(
                rt, alloc, threads, steps, most,
            ),
            Line::Guarded => contend::<Number, _, R>(rt, alloc, threads, steps, most),
            Line::StdRwLock => contend::<StdRoom, _, R>(rt, alloc, threads, steps, most),
            Line::RwWriter => contend::<Room, _, R>(rt, alloc, threads, steps, most),
            Line::RwValue => contend::<SharedNumber, _, R>(rt, alloc, threads, steps, most),
            Line::Channel => contend::<Messages, _, R>(rt, alloc, threads, steps, most),
            Line::JobQueue => contend::<Jobs, _, R>(rt, alloc, threads, steps, most),
        }
    }
}
