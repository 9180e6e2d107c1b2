//! What to hand in as wait and wake closures: to wait is to yield, and nobody is woken; or to sleep, and be woken.
#![tactic(auto)]

ghost use Rattle.std.specs.Prelude.{◌≡◌};
ghost use Rattle.model_events.specs.declared.WaitAction.TheVariants as actions;

mod sleepers;
mod steps;

use model_events::WaitAction;
pub use sleepers::{Sleepers, none_sleeps_uncounted};
use std::thread;
pub use steps::{SleepStep, WakeStep, sleep_by, wake_by};

/// A wait closure: yields, and never gives up. So a call that waits by it is never interrupted, by proof.
#[inline(always)]
pub fn yield_and_go_on<W>(_word: &W, _seen: &u64) -> WaitAction
    ensures { result ≡ actions.Continue }
{
    thread::yield_now();
    WaitAction::Continue
}

/// A wake closure: wakes nobody, since who waits by yielding needs no wake.
#[inline(always)]
pub fn wake_nobody<W>(_word: &W) {}
