//! A cache that four threads look into and a fifth refreshes. The refresher gives up where a reader keeps it waiting, and comes again later.
#![tactic(auto)]

ghost use Rattle.std.specs.Prelude.{◌≡◌, ◌+◌};

use sleeping_rw_value::{Handle, RwValueHandle, SleepingRwValue};
use std::alloc::{AllocError, Global};
use std::sync::Wait;
use std::sync::atomic::{AtomicU64, Ordering};
use std::thread::Threads;
use std::time::{Clock, Duration, Instant};
use std::{io, thread};

/// What a bank pays for a coin, and what it asks. By its type the two stand two apart, so nobody ever finds one half of a refresh.
#[derive(Clone, Copy)]
struct Rate {
    bid: u64,
    ask: u64,
    ghost apart: { ask ≡ bid + 2 },
}

impl Rate {
    /// The rate of this day.
    fn of(day: u32) -> Rate {
        let bid = u64::from(day) * 100;
        Rate { bid, ask: bid + 2 }
    }
}

fn main(rt: HostRuntime) -> io::Result<()> {
    let Ok((cache, pass)) = SleepingRwValue::new(rt.alloc(), Rate::of(0)) else {
        return Err(AllocError)?;
    };
    let (mut refresher, reader) = cache.handle(pass).split();
    let (mut reader, others) = reader.split();
    let gave_up = !reader.with_read(&rt, |_| refresh_in_time(&rt, &mut refresher, Rate::of(1)))?;
    println!(rt; "beside a reader the refresher gave up: {gave_up}")?;
    let looked = AtomicU64::new(0);
    let older = AtomicU64::new(0);
    let readers = others.split_into(rt.alloc(), 4)?;
    let ((), ended) = thread::join(
        &rt,
        || refresh_often(&rt, refresher),
        || look_in_threads(&rt, readers, &looked, &older),
    );
    ended?;
    let looked = looked.load(Ordering::SeqCst);
    let older = older.load(Ordering::SeqCst);
    let Rate { bid, ask } = reader.with_read(&rt, |rate| *rate);
    println!(rt; "four threads looked {looked} times, and found an older rate {older} times")?;
    println!(rt; "at last the refresher left {bid} to {ask}")
}

/// Refreshes, and gives up after 10 milliseconds. Whether the rate went in.
fn refresh_in_time<R: Wait + Clock>(
    rt: &R,
    refresher: &mut RwValueHandle<'_, Rate>,
    rate: Rate,
) -> io::Result<bool> {
    let deadline = Instant::now(rt)?.checked_add(Duration::from_millis(10));
    let written = refresher.with_write_until(rt, deadline, |kept| *kept = rate);
    Ok(written.is_some())
}

/// Refreshes for a hundred days.
fn refresh_often<R: Wait>(rt: &R, mut refresher: RwValueHandle<'_, Rate>) {
    for day in 1..=100u32 {
        refresher.with_write(rt, |kept| *kept = Rate::of(day));
    }
}

/// Each of these readers in a thread of its own.
fn look_in_threads<R: Threads + Wait + Sync>(
    rt: &R,
    readers: Vec<RwValueHandle<'_, Rate>, Global>,
    looked: &AtomicU64,
    older: &AtomicU64,
) -> Result<(), AllocError> {
    let _ended = thread::map_vec(rt, readers, &|reader| look_often(rt, reader, looked, older))?;
    Ok(())
}

/// Looks a thousand times, and counts the looks, and those that found an older rate than the one before.
fn look_often<R: Wait>(
    rt: &R,
    mut reader: RwValueHandle<'_, Rate>,
    looked: &AtomicU64,
    older: &AtomicU64,
) {
    let mut newest = 0;
    for _ in 0..1000u64 {
        let bid = reader.with_read(rt, |rate| rate.bid);
        looked.fetch_add(1, Ordering::SeqCst);
        if bid < newest {
            older.fetch_add(1, Ordering::SeqCst);
        }
        newest = bid;
    }
}
