//! Who posts waits until one of three has taken what it posted, and all sleep: so a wake that is lost, stops all, and is seen.

use iceoryx2_pal_concurrency_sync::{Sleepers, WaitAction, Watched};
use running_passes::low_half;
use std::sync::Wait;
use std::sync::atomic::{AtomicU64, Ordering};
use std::test::Fail;
use std::thread::Threads;
use std::time::{Clock, Duration, Instant};
use std::{io, thread};

const ORDER: Ordering = Ordering::SeqCst;

/// How often something is posted, at most, and for how long. What is tried is that a wake meets one who is about to sleep, some nanoseconds
/// of each hand-over.
const ROUNDS: u64 = 100_000;

const SECONDS: u64 = 3;

/// There will be no more posts.
const END: u64 = 2;

/// A word that is waited for.
#[derive(Drop)]
struct Place {
    word: AtomicU64,
    sleepers: Sleepers,
}

impl Watched for Place {
    fn load(&self) -> u64 {
        self.word.load(ORDER)
    }

    fn park<R: Wait>(&self, rt: &R, seen: u64) {
        self.word.park(rt, low_half(seen));
    }

    fn park_timeout<R: Wait>(&self, rt: &R, seen: u64, most: Duration) {
        self.word.park_timeout(rt, low_half(seen), most);
    }

    fn wake_one(&self) {
        self.word.wake_one();
    }

    fn wake_all(&self) {
        self.word.wake_all();
    }
}

impl Place {
    fn new() -> Place {
        Place {
            word: AtomicU64::new(0),
            sleepers: Sleepers::new(),
        }
    }

    /// What the word is, once it is not `seen`. `None` after ten seconds.
    fn other_than<R: Wait + Clock>(&self, rt: &R, seen: u64) -> Option<u64> {
        let deadline = Instant::now(rt).ok()?.checked_add(Duration::from_secs(10));
        for _ in rt.forever() {
            let found = self.load();
            if found != seen {
                return Some(found);
            }
            if self.sleepers.sleep_until(rt, self, seen, deadline) == WaitAction::Abort {
                return None;
            }
        }
        unreachable!()
    }
}

/// Posts, time and again, and waits for it to be taken. Whether it always was.
fn post_often<R: Wait + Clock>(rt: &R, posted: &Place, taken: &Place) -> bool {
    let was_taken = post_until(rt, posted, taken, Instant::now(rt));
    posted.word.store(END, ORDER);
    posted.sleepers.wake_all();
    was_taken
}

fn post_until<R: Wait + Clock>(
    rt: &R,
    posted: &Place,
    taken: &Place,
    start: io::Result<Instant>,
) -> bool {
    let Ok(start) = start else {
        return false;
    };
    for round in 0..ROUNDS {
        posted.word.store(1, ORDER);
        posted.sleepers.wake_one();
        if taken.other_than(rt, round).is_none() {
            return false;
        }
        match start.elapsed(rt) {
            Ok(long) if long.as_secs() < SECONDS => {}
            _ => return true,
        }
    }
    true
}

/// Takes what is posted, until there are no more posts. Whether that came.
fn take_often<R: Wait + Clock>(rt: &R, posted: &Place, taken: &Place) -> bool {
    for _ in rt.forever() {
        match posted.other_than(rt, 0) {
            Some(END) => return true,
            Some(_) => take_one(posted, taken),
            None => return false,
        }
    }
    unreachable!()
}

fn take_one(posted: &Place, taken: &Place) {
    if posted.word.compare_exchange(1, 0, ORDER, ORDER).is_ok() {
        taken.word.fetch_add(1, ORDER);
        taken.sleepers.wake_one();
    }
}

fn take_by_three<R: Threads + Wait + Clock + Sync>(rt: &R, posted: &Place, taken: &Place) -> bool {
    let (one, (two, three)) = thread::join(
        rt,
        || take_often(rt, posted, taken),
        || {
            thread::join(
                rt,
                || take_often(rt, posted, taken),
                || take_often(rt, posted, taken),
            )
        },
    );
    one && two && three
}

#[test]
fn no_wake_is_lost(rt: HostRuntime) -> Result<(), Fail> {
    let (posted, taken) = (Place::new(), Place::new());
    let (was_taken, ended) = thread::join(
        &rt,
        || post_often(&rt, &posted, &taken),
        || take_by_three(&rt, &posted, &taken),
    );
    assert!(rt; was_taken && ended, "after {} posts", taken.load());
    Ok(())
}
