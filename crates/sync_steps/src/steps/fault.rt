use model_events::event::{Event, StepFault};
use std::alloc::{Allocator, Global};

/// Why a schedule was not played to its end.
#[derive(Drop)]
pub enum PlayFault<T, A: Allocator = Global> {
    /// The list of events could not grow. It is asked for before the first step, so the machine is unchanged.
    Memory,
    /// The machine refused an input. `done` are the events of the inputs before it; the machine stands after them.
    Step {
        done: Vec<Event<T>, A>,
        fault: StepFault,
    },
}
