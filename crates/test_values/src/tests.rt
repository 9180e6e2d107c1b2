mod queue;
mod rw_value;

use model_events::WaitAction;

/// A wait closure that gives up at once.
fn give_up<W>(_word: &W, _seen: &u64) -> WaitAction {
    WaitAction::Abort
}
