//! Who sleeps until a word has changed, and who wakes them.
//!
//! It is an event count: one word, whose low half is an *epoch*, which each wake moves on and on which sleepers park, and whose high half
//! is how many may be asleep. No wake is lost between a sleeper's look at the watched word and its park:
//!
//! 1. The sleeper counts itself in and takes the epoch, by one step.
//! 2. It looks whether the watched word is still the value that refused it.
//! 3. If so it parks, on the epoch that it took: the system puts it to sleep only while the epoch is that.
//! 4. Else it counts itself out, unless a wake has done so.
//!
//! So they are proved to be made, in that order (`steps.rt`), whatever a step is: what each does to the word is a line below.
//!
//! Who changes the watched word does so before it wakes, and a wake reads the count first. So where the look came before the change, the
//! wake finds the sleeper counted, moves the epoch on, and wakes whoever has parked: the sleeper does not park, or is woken, or another
//! that parked is, and then it is counted still. Where the look came after the change, it does not sleep.
//!
//! A wake counts out whom it wakes, so who wakes again before that one has run makes no call of the system for it. A sleeper that parked
//! therefore never counts itself out, since it can't tell what ended its sleep. After a sleep that ended without a wake the count is one too
//! many, which costs one wake that wakes nobody. `specs/Crowds.antt` has these steps as a machine, of which `none_sleeps_uncounted` is proved.
//! It takes no account of a sleeper that takes its epoch and parks 2^32 wakes later.
ghost use Rattle.std.specs.Prelude.{◌≡◌, ◌+◌, ◌/◌, ◌%◌, ◌^◌, ◌<◌, ◌↔◌, IsSome, IfSome, None};
ghost use Rattle.std.specs.Duration.{as_nanos};
ghost use Rattle.std.specs.Time.{instant_nanos};
ghost use Rattle.model_events.specs.declared.WaitAction.TheVariants as actions;
ghost use Rattle.running_closures.specs.Crowds.{NoneSleepsUncounted};

use crate::steps::{ONE, SleepStep, WakeStep, sleep_by, wake_by};
use model_events::WaitAction;
use model_events::event::Wake;
use running_passes::{Watched, low_half};
use std::sync::Wait;
use std::sync::atomic::{AtomicU64, Ordering};
use std::time::{Clock, Duration, Instant};

const ORDER: Ordering = Ordering::SeqCst;

/// From here on nobody is counted: it is more than any system has threads.
const MANY: u64 = 1 << 63;

/// Those that sleep until a word has changed. One serves the wait and the wake closures of one object, and a wake costs one load where
/// nobody sleeps. It may be shared by threads.
#[derive(Drop)]
pub struct Sleepers {
    state: AtomicU64,
}

impl Sleepers {
    /// Nobody sleeps.
    pub const fn new() -> Sleepers {
        Sleepers {
            state: AtomicU64::new(0),
        }
    }

    /// For a wait closure that never gives up: sleeps until a wake, where the word is still `seen`, all of it; and goes on, so that a call
    /// that waits by it is never interrupted. It may also return for no reason.
    pub fn sleep<R: Wait, W: Watched>(&self, rt: &R, word: &W, seen: u64) -> WaitAction
        ensures { result ≡ actions.Continue }
    {
        self.sleep_for(rt, word, seen, None);
        WaitAction::Continue
    }

    /// The same until a deadline: `Abort` where it has passed, by the clock of `rt`, and then it does not sleep; else `Continue`, after a
    /// sleep until a wake or the deadline. So a call that waits by it is interrupted no earlier. `None`, as `checked_add` gives it where no
    /// clock gets there, is no deadline. Where the clock cannot be read it sleeps for a millisecond at most, and goes on.
    pub fn sleep_until<R: Wait + Clock, W: Watched>(
        &self,
        rt: &R,
        word: &W,
        seen: u64,
        deadline: Option<Instant>,
    ) -> WaitAction
        ensures never { deadline ≡ None → result ≡ actions.Continue }
    {
        let Some(deadline) = deadline else {
            return self.sleep(rt, word, seen);
        };
        let left = match Instant::now(rt) {
            Ok(now) => time_left(now, deadline),
            Err(_) => Some(Duration::from_millis(1)),
        };
        if left.is_none() {
            return WaitAction::Abort;
        }
        self.sleep_for(rt, word, seen, left);
        WaitAction::Continue
    }

    /// Wakes one that sleeps, if there is one.
    #[inline(always)]
    pub fn wake_one(&self) {
        wake_by(Wake::One, |step| self.make_wake(step));
    }

    /// Wakes all that sleep.
    #[inline(always)]
    pub fn wake_all(&self) {
        wake_by(Wake::All, |step| self.make_wake(step));
    }

    /// Makes a step of a wake.
    #[inline(always)]
    fn make_wake(&self, step: WakeStep) -> u64 {
        match step {
            WakeStep::Reads => self.state.load(ORDER),
            WakeStep::CountsOut(Wake::One) => self.change(one_woken),
            WakeStep::CountsOut(Wake::All) => self.change(all_woken),
            WakeStep::Asks(wake) => self.ask(wake),
        }
    }

    /// Has the system wake one that sleeps, or all.
    #[inline(never)]
    fn ask(&self, wake: Wake) -> u64 {
        match wake {
            Wake::One => self.state.wake_one(),
            Wake::All => self.state.wake_all(),
        }
        0
    }

    /// The steps of a sleep, of any length, or of so long at most.
    fn sleep_for<R: Wait, W: Watched>(&self, rt: &R, word: &W, seen: u64, most: Option<Duration>) {
        sleep_by(seen, |step| self.make_sleep(rt, word, most, step));
    }

    /// Makes a step of a sleep.
    fn make_sleep<R: Wait, W: Watched>(
        &self,
        rt: &R,
        word: &W,
        most: Option<Duration>,
        step: SleepStep,
    ) -> u64 {
        match step {
            SleepStep::Comes => self.count_in(),
            SleepStep::Looks => word.load(),
            SleepStep::Turns { epoch } => self.change(|found| one_less(found, epoch)),
            SleepStep::Parks { epoch } => self.park(rt, most, epoch),
        }
    }

    /// Sleeps on this epoch, for any length, or for so long at most.
    fn park<R: Wait>(&self, rt: &R, most: Option<Duration>, epoch: u32) -> u64 {
        match most {
            Some(most) => self.state.park_timeout(rt, epoch, most),
            None => self.state.park(rt, epoch),
        }
        0
    }

    /// Counts one in, and answers the word as it was.
    fn count_in(&self) -> u64 {
        let found = self.state.fetch_add(ONE, ORDER);
        if found >= MANY {
            self.state.fetch_sub(ONE, ORDER);
        }
        found
    }

    /// Changes the word where there is a next one, and answers the word as it was.
    #[inline(never)]
    fn change<F: Fn(u64) -> Option<u64>>(&self, next: F) -> u64
        requires may { F.IsAlwaysCallable next }
    {
        match self.state.fetch_update(ORDER, ORDER, next) {
            Ok(found) => found,
            Err(found) => found,
        }
    }
}

/// One fewer, at the next epoch; `None` where nobody is counted.
fn one_woken(state: u64) -> Option<u64>
    ensures counted { IsSome result ↔ (0 < state / 2 ^ 32) }
    ensures fewer { IfSome result (λ after. after / 2 ^ 32 + 1 ≡ state / 2 ^ 32) }
{
    let fewer = state.checked_sub(ONE)?;
    Some(next_epoch(fewer))
}

/// None any more, at the next epoch; `None` where nobody is counted.
fn all_woken(state: u64) -> Option<u64>
    ensures counted { IsSome result ↔ (0 < state / 2 ^ 32) }
    ensures none { IfSome result (λ after. after / 2 ^ 32 ≡ 0) }
{
    if state < ONE {
        return None;
    }
    Some(next_epoch(low_half(state) as u64))
}

/// The same number of sleepers, at the next epoch.
fn next_epoch(state: u64) -> u64
    ensures epoch { result % 2 ^ 32 ≡ (state + 1) % 2 ^ 32 }
    ensures count { result / 2 ^ 32 ≡ state / 2 ^ 32 }
{
    let epoch = low_half(state).wrapping_add(1) as u64;
    (state - (state & 0xffff_ffff)) + epoch
}

/// One fewer, where the epoch is still this one.
fn one_less(state: u64, epoch: u32) -> Option<u64>
    ensures fewer { IfSome result (λ after. after + 2 ^ 32 ≡ state) }
    ensures epoch { IfSome result (λ _. state % 2 ^ 32 ≡ epoch) }
{
    if low_half(state) == epoch {
        state.checked_sub(ONE)
    } else {
        None
    }
}

/// How long it is until the deadline; `None` once that has passed.
fn time_left(now: Instant, deadline: Instant) -> Option<Duration>
    ensures passed { IsSome result ↔ (instant_nanos now < instant_nanos deadline) }
    ensures left { IfSome result (λ left. instant_nanos now + as_nanos left ≡ instant_nanos deadline) }
{
    let left = deadline.checked_duration_since(now)?;
    if left.is_zero() { None } else { Some(left) }
}

/// Of the event count as a machine of its steps, whatever their order: where the count is 0, each that sleeps has a wake under way. So a wake
/// that finds nobody counted passes nobody over. Says so, and does nothing.
pub fn none_sleeps_uncounted()
    ensures { NoneSleepsUncounted }
{}
