//! What no clause says: that who sleeps wakes, that a deadline ends a wait, neither before it nor long after, how often calls call their
//! closures, and what a sleep costs.
mod asleep;
mod bounded_buffer;
mod condition_variable;
mod condition_variable_parts;
mod deadline;
mod forms;
mod hand_over;
mod notified;
mod sleepers;
mod words;

ghost use Rattle.std.specs.Prelude.{◌≡◌, IfOk};
ghost use Rattle.model_events.specs.declared.WaitAction.TheVariants.{Abort};
ghost use Rattle.running_mutex.specs.MutexShown.{IsMutexPass};

use iceoryx2_pal_concurrency_sync::strategy::mutex::{Mutex, MutexPass};
use iceoryx2_pal_concurrency_sync::{WaitAction, WaitWord};
use std::alloc::{AllocError, Global};

/// A wait closure that gives up at once.
fn give_up(_word: &WaitWord, _seen: &u64) -> WaitAction
    ensures { result ≡ Abort }
{
    WaitAction::Abort
}

/// A new mutex, and two parts of its pass.
fn mutex_in_two_parts(alloc: Global) -> Result<(Mutex, MutexPass, MutexPass), AllocError>
    ensures own { IfOk result (λ made. IsMutexPass made.0 made.1 × IsMutexPass made.0 made.2) }
{
    let (mutex, pass) = Mutex::new(alloc)?;
    match pass.split(&mutex) {
        Ok((one, two)) => Ok((mutex, one, two)),
        Err(_) => unreachable!(),
    }
}
