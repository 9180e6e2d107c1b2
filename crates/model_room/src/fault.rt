//! Why a room refuses an input.
use crate::event::RoomEvent;
use model_events::event::StepFault;
use std::alloc::{Allocator, Global};

/// Why a room refused an input; it is unchanged then. The first that applies, in this order.
#[derive(Clone, Copy, Debug, PartialEq, Eq)]
pub enum RoomFault {
    /// The object's number is not below the number of objects.
    NoObject,
    /// What the object answers; or `Busy`, where the party has a call under way at another.
    Step(StepFault),
}

/// Why a schedule was not played to its end.
#[derive(Drop)]
pub enum RoomPlayFault<T, A: Allocator = Global> {
    /// The list of events could not grow. It is asked for before the first step, so the room is unchanged.
    Memory,
    /// The room refused an input. `done` are the events of the inputs before it; the room stands after them.
    Step {
        done: Vec<RoomEvent<T>, A>,
        fault: RoomFault,
    },
}
