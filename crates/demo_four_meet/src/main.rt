//! Four threads that meet: each comes to a barrier a thousand times, and whoever leaves it finds that all four had come.
#![tactic(auto)]

ghost use Rattle.std.specs.Prelude.{◌<◌};
ghost use Rattle.running_barrier.specs.BarrierShown.{IsBarrierPass, HasWaited, waiters_of};

use iceoryx2_pal_concurrency_sync::strategy::barrier::{Barrier, BarrierPass};
use iceoryx2_pal_concurrency_sync::{in_threads, wake_nobody};
use std::sync::Wait;
use std::sync::atomic::{AtomicU64, Ordering};
use std::{io, thread};

/// What the threads count.
#[derive(Drop)]
struct Counts {
    /// How often any came, counted before its call.
    arrivals: AtomicU64,
    /// How often any left before all four of its round had come.
    early: AtomicU64,
}

fn main(rt: HostRuntime) -> io::Result<()> {
    let counts = Counts {
        arrivals: AtomicU64::new(0),
        early: AtomicU64::new(0),
    };
    let (barrier, pass) = Barrier::new(rt.alloc(), 4)?;
    in_threads(
        &rt,
        &barrier,
        pass,
        4,
        &|pass| { meet_often(&rt, &barrier, pass, &counts) },
    );
    let came = counts.arrivals.load(Ordering::SeqCst);
    let early = counts.early.load(Ordering::SeqCst);
    println!(rt; "four threads came {came} times, and left early {early} times")
}

/// Comes a thousand times.
fn meet_often<R: Wait>(
    rt: &R,
    barrier: &Barrier,
    mut pass: BarrierPass,
    counts: &Counts,
) -> BarrierPass
    requires own { IsBarrierPass barrier.now pass }
    requires some { 0 < waiters_of barrier.now }
    ensures waited { HasWaited 1000 pass result }
{
    for round in 0..1000u64 {
        counts.arrivals.fetch_add(1, Ordering::SeqCst);
        // No barrier but one for nobody refuses: by proof.
        let Ok(()) = barrier.wait(rt, &mut pass, |_, _| thread::yield_now(), wake_nobody) else {
            unreachable!()
        };
        if counts.arrivals.load(Ordering::SeqCst) < 4 * (round + 1) {
            counts.early.fetch_add(1, Ordering::SeqCst);
        }
    }
    pass
}
