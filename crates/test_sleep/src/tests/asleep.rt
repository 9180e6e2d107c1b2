//! What a sleep costs: a thread holds a mutex for a second, while seven sleep.
ghost use Rattle.std.specs.Prelude.{◌≡◌};
ghost use Rattle.running_mutex.specs.MutexShown.{IsMutexPass, HasStayed, holds_of};

use iceoryx2_pal_concurrency_sync::strategy::mutex::{Mutex, MutexPass};
use iceoryx2_pal_concurrency_sync::{Sleepers, WaitResult, WaitWord, in_threads};
use std::sync::Wait;
use std::sync::atomic::{AtomicU64, Ordering};
use std::test::Fail;
use std::time::{Clock, CpuClock, Duration};
use std::{io, thread};

const ORDER: Ordering = Ordering::SeqCst;

const SLEEPERS: u64 = 7;

/// Who has come, who has slept, and how much of a processor all have used.
#[derive(Drop)]
struct Night {
    sleepers: Sleepers,
    came: AtomicU64,
    asleep: AtomicU64,
    /// In microseconds.
    used: AtomicU64,
    faults: AtomicU64,
}

impl Night {
    /// One falls asleep, that has used so much of a processor before.
    fn falls_asleep(&self, used: io::Result<Duration>) {
        self.used.fetch_sub(self.micros(used), ORDER);
        self.asleep.fetch_add(1, ORDER);
    }

    /// One has woken, and has used so much since its thread began.
    fn has_woken(&self, used: io::Result<Duration>) {
        self.used.fetch_add(self.micros(used), ORDER);
    }

    fn micros(&self, used: io::Result<Duration>) -> u64 {
        match used {
            Ok(used) => u64::try_from(used.as_micros()).unwrap_or(u64::MAX),
            Err(_) => {
                self.fail();
                0
            }
        }
    }

    fn fail(&self) {
        self.faults.fetch_add(1, ORDER);
    }

    /// Sleeps, a millisecond at a time, until so many have been asked, half a minute at most.
    fn await_asleep(&self, clock: &impl Clock, many: u64) {
        for _ in 0..30_000u64 {
            if self.asleep.load(ORDER) >= many {
                return;
            }
            thread::sleep(clock, Duration::from_millis(1));
        }
        self.fail();
    }
}

/// One of eight: the first holds the mutex, and the others come one after the other, so that each makes its tries alone.
fn come<R: Wait + Clock + CpuClock>(
    rt: &R,
    mutex: &Mutex,
    mut pass: MutexPass,
    night: &Night,
) -> MutexPass
    requires own { IsMutexPass mutex.now pass × (holds_of pass ≡ 0) }
    ensures stayed { HasStayed pass result }
{
    let number = night.came.fetch_add(1, ORDER);
    if number == 0 {
        hold(rt, mutex, &mut pass, night);
    } else {
        night.await_asleep(rt, number);
        sleep(rt, mutex, &mut pass, night);
    }
    pass
}

/// Holds the mutex until all sleep, and then for a second.
fn hold<R: Wait + Clock + CpuClock>(rt: &R, mutex: &Mutex, pass: &mut MutexPass, night: &Night)
    requires own { IsMutexPass mutex.now pass.old }
    ensures stayed { HasStayed pass.old pass.new }
{
    match Mutex::try_lock(pass, mutex) {
        WaitResult::Success(hold) => {
            night.asleep.fetch_add(1, ORDER);
            night.await_asleep(rt, SLEEPERS + 1);
            night
                .used
                .fetch_sub(night.micros(rt.thread_cpu_time()), ORDER);
            thread::sleep(rt, Duration::from_secs(1));
            mutex.unlock(hold, |_: &WaitWord| night.sleepers.wake_one());
            night.has_woken(rt.thread_cpu_time());
        }
        WaitResult::Interrupted => night.fail(),
    }
}

/// What the tries before the first question cost is the same, however long the mutex is held, and does not count.
fn sleep<R: Wait + Clock + CpuClock>(rt: &R, mutex: &Mutex, pass: &mut MutexPass, night: &Night)
    requires own { IsMutexPass mutex.now pass.old }
    ensures stayed { HasStayed pass.old pass.new }
{
    let asked = AtomicU64::new(0);
    match Mutex::lock(pass, mutex, rt, |word: &WaitWord, seen: &u64| {
        if asked.swap(1, ORDER) == 0 {
            night.falls_asleep(rt.thread_cpu_time());
        }
        night.sleepers.sleep(rt, word, *seen)
    }) {
        WaitResult::Success(hold) => {
            mutex.unlock(hold, |_: &WaitWord| night.sleepers.wake_one());
            night.has_woken(rt.thread_cpu_time());
        }
        WaitResult::Interrupted => unreachable!(),
    }
}

#[test]
fn seven_that_sleep_use_no_processor(rt: HostRuntime) -> Result<(), Fail> {
    let (mutex, pass) = Mutex::new(rt.alloc())?;
    let night = Night {
        sleepers: Sleepers::new(),
        came: AtomicU64::new(0),
        asleep: AtomicU64::new(0),
        used: AtomicU64::new(0),
        faults: AtomicU64::new(0),
    };
    let _pass = in_threads(
        &rt,
        &mutex,
        pass,
        8,
        &|pass| { come(&rt, &mutex, pass, &night) },
    );
    assert_eq!(rt; night.faults.load(ORDER), 0);
    let used = night.used.load(ORDER);
    assert!(rt; used < 50_000, "{used} microseconds");
    Ok(())
}
