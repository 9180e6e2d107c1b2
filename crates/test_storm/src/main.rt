//! Storms: many threads at one object, whose calls meet. Who waits yields, and every third answer of a wait closure is `Abort`; or sleeps, on
//! the word or at `Sleepers`, and a sleep of ten seconds is a wake that is lost.
//!
//! How many turns each thread has comes from standard input; where they sleep they have a tenth. A line for each object goes to standard output: how many calls were made,
//! how often something was seen that cannot be or was lost, and the word at the end where the object has a `close`. The exit status is
//! 1 where there was a fault, and 2 where the input is no number of turns.
#![tactic(auto)]

mod barrier;
mod crowd;
mod guarded;
mod mutex;
mod platform;
mod queue;
mod rwreader;
mod rwvalue;
mod rwwriter;
mod semaphore;
mod tally;

use barrier::ForFour;
use crowd::storm;
use guarded::Stock;
use iceoryx2_pal_concurrency_sync::strategy::mutex::Mutex;
use iceoryx2_pal_concurrency_sync::strategy::rwlock::{
    RwLockReaderPreference, RwLockWriterPreference,
};
use iceoryx2_pal_concurrency_sync::strategy::semaphore::Semaphore;
use job_queue::JobQueue;
use platform::{AtSleepers, Impatient, OnTheWord, Platform};
use running_rw_value::RwLock;
use std::alloc::{AllocError, Global};
use std::io;
use std::io::Read;
use std::process::ExitCode;
use std::sync::Wait;
use std::thread::Threads;
use std::time::Clock;
use tally::Outcome;

/// The most turns that may be asked for.
const MOST: u64 = 1_000_000;

fn main(rt: HostRuntime) -> io::Result<ExitCode> {
    let Some(turns) = read_turns(&rt)? else {
        eprintln!(rt; "bad number of turns")?;
        return Ok(ExitCode::from(2));
    };
    let yielding = storms::<Impatient, _>(&rt, rt.alloc(), "yielding", turns)?;
    let faults = report(&rt, &yielding)?;
    let on_the_word = storms::<OnTheWord, _>(&rt, rt.alloc(), "on the word", turns / 10)?;
    let faults = faults.saturating_add(report(&rt, &on_the_word)?);
    let at_sleepers = storms::<AtSleepers, _>(&rt, rt.alloc(), "at sleepers", turns / 10)?;
    let faults = faults.saturating_add(report(&rt, &at_sleepers)?);
    if faults == 0 {
        Ok(ExitCode::SUCCESS)
    } else {
        Ok(ExitCode::from(1))
    }
}

/// How many turns the input asks for; `None` where it is no number, or too many.
fn read_turns(rt: &HostRuntime) -> io::Result<Option<u64>> {
    let mut text = String::new(rt.alloc());
    rt.stdin().read_to_string(&mut text)?;
    let turns = text.trim().parse::<u64>().ok();
    Ok(turns.filter(|turns| *turns <= MOST))
}

/// What the storm at each object came to.
#[derive(Drop)]
struct Outcomes {
    all: [Outcome; 8],
}

/// A storm at each object, one after the other.
fn storms<B: Platform + Sync + Drop, R: Threads + Wait + Clock + Sync>(
    rt: &R,
    alloc: Global,
    how: &'static str,
    turns: u64,
) -> Result<Outcomes, AllocError> {
    let all = [
        storm::<Mutex, _, B, R>(rt, alloc, "mutex", how, 8, turns)?,
        storm::<RwLockReaderPreference, _, B, R>(
            rt,
            alloc,
            "reader-preferring lock",
            how,
            8,
            turns,
        )?,
        storm::<RwLockWriterPreference, _, B, R>(
            rt,
            alloc,
            "writer-preferring lock",
            how,
            8,
            turns,
        )?,
        storm::<RwLock<u64>, _, B, R>(rt, alloc, "value that many read", how, 8, turns)?,
        storm::<Semaphore, _, B, R>(rt, alloc, "semaphore of 3", how, 8, turns)?,
        storm::<ForFour, _, B, R>(rt, alloc, "barrier for 4", how, 4, turns)?,
        storm::<Stock, _, B, R>(
            rt,
            alloc,
            "guarded value and condition variable",
            how,
            8,
            turns,
        )?,
        storm::<JobQueue<u64>, _, B, R>(rt, alloc, "queue for 8", how, 8, turns)?,
    ];
    Ok(Outcomes { all })
}

/// Writes a line for each storm: how many faults there were.
fn report(rt: &HostRuntime, outcomes: &Outcomes) -> io::Result<u64> {
    let mut faults = 0u64;
    for outcome in &outcomes.all {
        faults = faults.saturating_add(outcome.faults);
        println!(rt; "{outcome}")?;
    }
    Ok(faults)
}
