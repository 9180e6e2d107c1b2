//! POSIX over these locks: `pthread_mutex_t` of three kinds, `pthread_cond_t` and `sem_t`, with their error codes. Two threads put numbers
//! into one place, and two take them; a mutex and two condition variables guard it.
#![tactic(auto)]

mod cond;
mod errno;
mod mutex;
mod place;
mod sem;
#[cfg(test)]
mod tests;

use mutex::{Kind, Mutex};
use place::Place;
use std::{io, thread};

fn main(rt: HostRuntime) -> io::Result<()> {
    let place = Place::new();
    let (mutex, pass) = Mutex::new(rt.alloc(), Kind::ErrorCheck)?;
    let (puts, takes) = mutex.thread(pass).split();
    let ((one, two), (three, four)) = (puts.split(), takes.split());
    let puts = Vec::from_array(rt.alloc(), [one, two])?;
    let takes = Vec::from_array(rt.alloc(), [three, four])?;
    let (put, sums) = thread::join(
        &rt,
        || thread::map_vec(&rt, puts, &|thread| place.put_all(&rt, thread)),
        || thread::map_vec(&rt, takes, &|thread| place.take_all(&rt, thread)),
    );
    let _ended = put?;
    let mut sum = 0u64;
    for part in sums? {
        sum = sum.wrapping_add(part);
    }
    println!(rt; "{sum}")
}
