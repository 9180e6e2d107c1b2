//! A closure that captures nothing has a name, as in the tests of the other locks: so it is fewer functions to the prover.
mod drops;
mod holding;
mod order;
mod party;
mod refusals;
mod threads;
mod when;

ghost use Rattle.std.specs.Prelude.{◌≡◌};
ghost use Rattle.model_events.specs.declared.WaitAction.TheVariants as actions;

use model_events::WaitAction;
use running_guarded::GuardedWord;
use std::thread;

/// A wait closure of a guarded value, which yields and goes on.
fn yield_at_value<T>(_word: &GuardedWord<'_, T>, _seen: &u64) -> WaitAction
    ensures { result ≡ actions.Continue }
{
    thread::yield_now();
    WaitAction::Continue
}

/// A wake closure of a guarded value, which wakes nobody.
fn wake_nobody_at_value<T>(_word: &GuardedWord<'_, T>) {}
