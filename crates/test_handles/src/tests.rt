//! Calls on their happy path, refusals beside a holder, and threads that sleep and are woken. What these need of a handle is said by its type.
mod barrier;
mod guarded;
mod guarded_guards;
mod monitor;
mod mutex;
mod mutex_guards;
mod queue;
mod refusals;
mod rw_reader;
mod rw_value;
mod semaphore;

/// How often a holder yields to one that comes to sleep beside it.
const TURNS: u64 = 20_000;

/// Yields so often that others come to sleep.
fn linger() {
    for _ in 0..TURNS {
        std::thread::yield_now();
    }
}
