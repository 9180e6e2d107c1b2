//! Four threads and a number under a spin lock: each adds 1 a thousand times.
#![tactic(auto)]

ghost use Rattle.running_spin_lock.specs.SpinShown.{IsSpinPass, HasStayed};

use iceoryx2_pal_concurrency_sync::in_threads;
use iceoryx2_pal_concurrency_sync::spin_lock::{SpinLock, SpinPass};
use std::alloc::AllocError;
use std::io;
use std::sync::Wait;

fn main(rt: HostRuntime) -> io::Result<()> {
    let Ok((lock, pass)) = SpinLock::new(rt.alloc(), 0) else {
        return Err(AllocError)?;
    };
    let mut pass = in_threads(&rt, &lock, pass, 4, &|pass| { add_often(&rt, &lock, pass) });
    let guard = SpinLock::blocking_lock(&mut pass, &lock, &rt);
    println!(rt; "four threads counted {}", *guard)
}

/// Adds 1 a thousand times, each time under a guard, whose end unlocks.
fn add_often<R: Wait>(rt: &R, lock: &SpinLock<u64>, mut pass: SpinPass) -> SpinPass
    requires own { IsSpinPass lock.now pass }
    ensures stayed { HasStayed pass result }
{
    for _ in 0..1000u64 {
        let mut guard = SpinLock::blocking_lock(&mut pass, lock, rt);
        *guard = guard.wrapping_add(1);
    }
    pass
}
