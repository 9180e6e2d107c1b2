//! What no clause says: that the calls succeed with ample memory, how often they call their closures, and threads that really meet.
//!
//! A closure is two functions to the prover if it is called once, three if it has what is dropped, and else four; a named function that is
//! handed in is three for the whole crate. So closures that capture nothing have a name, and those that do stand in one helper for many tests.
mod mutex;
mod party;
mod rwreader;
mod rwwriter;

ghost use Rattle.std.specs.Prelude.{◌≡◌};
ghost use Rattle.model_events.specs.declared.WaitAction.TheVariants.{Abort};

use iceoryx2_pal_concurrency_sync::{WaitAction, WaitWord};

/// A wait closure that gives up at once.
fn give_up(_word: &WaitWord, _seen: &u64) -> WaitAction
    ensures { result ≡ Abort }
{
    WaitAction::Abort
}

/// What a party does under a lock where nothing is to be done.
fn nothing() {}
