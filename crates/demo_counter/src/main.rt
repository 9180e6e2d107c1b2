//! Four threads count under one lock.
#![tactic(auto)]

use sleeping_guarded::{GuardedHandle, Handle, SleepingGuarded};
use std::alloc::AllocError;
use std::sync::Wait;
use std::{io, thread};

fn main(rt: HostRuntime) -> io::Result<()> {
    let Ok((count, pass)) = SleepingGuarded::new(rt.alloc(), 0u64) else {
        return Err(AllocError)?;
    };
    let (mut last, others) = count.handle(pass).split();
    let handles = others.split_into(rt.alloc(), 4)?;
    let _ended = thread::map_vec(&rt, handles, &|handle| count_often(&rt, handle))?;
    println!(rt; "{}", *last.lock(&rt))
}

/// Counts a thousand times.
fn count_often<R: Wait>(rt: &R, mut handle: GuardedHandle<'_, u64>) {
    for _ in 0..1000u64 {
        let mut number = handle.lock(rt);
        *number = number.wrapping_add(1);
    }
}
