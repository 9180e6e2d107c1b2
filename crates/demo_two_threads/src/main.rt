//! Two threads and a mutex: both add to one number, each by a load and a store of its own, which only a lock keeps together. Who waits sleeps.
#![tactic(auto)]

ghost use Rattle.running_mutex.specs.MutexShown.{IsMutexPass, IsAlone, HasStayed};

use iceoryx2_pal_concurrency_sync::strategy::mutex::{Mutex, MutexPass};
use iceoryx2_pal_concurrency_sync::{Sleepers, WaitResult, WaitWord, wake_nobody};
use std::sync::Wait;
use std::sync::atomic::{AtomicU64, Ordering};
use std::thread::Threads;
use std::{io, thread};

fn main(rt: HostRuntime) -> io::Result<()> {
    let number = AtomicU64::new(0);
    let sleepers = Sleepers::new();
    let (mutex, pass) = Mutex::new(rt.alloc())?;
    let mut pass = add_in_two_threads(&rt, &mutex, &sleepers, pass, &number);
    // The two parts are the whole pass again, and with that a free mutex is granted: by proof.
    let WaitResult::Success(hold) = Mutex::try_lock(&mut pass, &mutex) else {
        unreachable!()
    };
    let sum = number.load(Ordering::SeqCst);
    mutex.unlock(hold, wake_nobody);
    println!(rt; "{sum}")
}

/// Splits the pass, hands each thread a part, and joins the parts.
fn add_in_two_threads<R: Threads + Wait + Sync>(
    rt: &R,
    mutex: &Mutex,
    sleepers: &Sleepers,
    pass: MutexPass,
    number: &AtomicU64,
) -> MutexPass
    requires own { IsMutexPass mutex.now pass }
    requires alone { IsAlone pass }
    ensures own { IsMutexPass mutex.now result }
    ensures alone { IsAlone result }
{
    let Ok((one, two)) = pass.split(mutex) else {
        unreachable!()
    };
    let (one, two) = thread::join(
        rt,
        || add_often(rt, mutex, sleepers, one, number),
        || add_often(rt, mutex, sleepers, two, number),
    );
    let Ok(pass) = MutexPass::join(one, two, mutex) else {
        unreachable!()
    };
    pass
}

/// Adds 1 to the number, a thousand times.
fn add_often<R: Wait>(
    rt: &R,
    mutex: &Mutex,
    sleepers: &Sleepers,
    mut pass: MutexPass,
    number: &AtomicU64,
) -> MutexPass
    requires own { IsMutexPass mutex.now pass }
    ensures stayed { HasStayed pass result }
{
    for _ in 0..1000u64 {
        add_once(rt, mutex, sleepers, &mut pass, number);
    }
    pass
}

/// Locks, adds 1, and unlocks. A call whose wait closure always goes on is never interrupted: by proof.
fn add_once<R: Wait>(
    rt: &R,
    mutex: &Mutex,
    sleepers: &Sleepers,
    pass: &mut MutexPass,
    number: &AtomicU64,
)
    requires own { IsMutexPass mutex.now pass.old }
    ensures stayed { HasStayed pass.old pass.new }
{
    match Mutex::lock(
        pass,
        mutex,
        rt,
        |word: &WaitWord, seen: &u64| sleepers.sleep(rt, word, *seen),
    ) {
        WaitResult::Success(hold) => {
            let found = number.load(Ordering::SeqCst);
            number.store(found.wrapping_add(1), Ordering::SeqCst);
            mutex.unlock(hold, |_: &WaitWord| sleepers.wake_one());
        }
        WaitResult::Interrupted => unreachable!(),
    }
}
