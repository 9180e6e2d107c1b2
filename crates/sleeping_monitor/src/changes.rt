//! How often something was changed, and who sleeps until it is changed again.
ghost use Rattle.std.specs.Prelude.{◌≡◌, None};
ghost use Rattle.model_events.specs.declared.WaitAction.TheVariants as actions;

use model_events::WaitAction;
use running_closures::Sleepers;
use running_passes::{Watched, low_half};
use std::sync::Wait;
use std::sync::atomic::{AtomicU64, Ordering};
use std::time::{Clock, Duration, Instant};

/// A count of changes, and who sleeps until the next. Who waits for a change looks at what it waits for, and at the count, under one lock;
/// lets the lock go; and sleeps while the count is that. So a change that comes in between wakes it, as does one that it has no use for: it
/// is to look again. Who is told a change takes it from nobody, since no permit is left behind.
#[derive(Drop)]
pub struct Changes {
    count: Count,
    sleepers: Sleepers,
}

/// The word that they sleep on.
#[derive(Drop)]
struct Count {
    word: AtomicU64,
}

impl Changes {
    /// None yet.
    pub const fn new() -> Changes {
        Changes {
            count: Count {
                word: AtomicU64::new(0),
            },
            sleepers: Sleepers::new(),
        }
    }

    /// How many there were.
    #[inline(always)]
    pub fn seen(&self) -> u64 {
        self.count.load()
    }

    /// One more: wakes all that sleep.
    #[inline(always)]
    pub fn tell(&self) {
        self.count.word.fetch_add(1, Ordering::SeqCst);
        self.sleepers.wake_all();
    }

    /// Sleeps until there are more than were seen. It may also return for no reason.
    #[inline(always)]
    pub fn sleep<R: Wait>(&self, rt: &R, seen: u64) {
        self.sleepers.sleep(rt, &self.count, seen);
    }

    /// The same until a deadline: `Abort` where that has passed, and then it did not sleep; else `Continue`.
    #[inline(always)]
    pub fn sleep_until<R: Wait + Clock>(
        &self,
        rt: &R,
        seen: u64,
        deadline: Option<Instant>,
    ) -> WaitAction
        ensures never { deadline ≡ None → result ≡ actions.Continue }
    {
        self.sleepers.sleep_until(rt, &self.count, seen, deadline)
    }
}

impl Watched for Count {
    #[inline(always)]
    fn load(&self) -> u64 {
        self.word.load(Ordering::SeqCst)
    }

    fn park<R: Wait>(&self, rt: &R, seen: u64) {
        self.word.park(rt, low_half(seen));
    }

    fn park_timeout<R: Wait>(&self, rt: &R, seen: u64, most: Duration) {
        self.word.park_timeout(rt, low_half(seen), most);
    }

    fn wake_one(&self) {
        self.word.wake_one();
    }

    fn wake_all(&self) {
        self.word.wake_all();
    }
}
