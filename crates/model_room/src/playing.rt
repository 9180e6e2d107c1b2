//! Whole schedules.
ghost use Rattle.std.specs.Prelude.{IfOk, IfErr};
ghost use Rattle.model_room.specs.Room.{Plays, Refuses};

use crate::event::{RoomEvent, RoomInput};
use crate::fault::RoomPlayFault;
use crate::room::Room;
use model_events::atomic::internal::AtomicInteger;
use std::alloc::Allocator;

/// Plays a schedule, one event for each input, in order.
///
/// The list of events is asked for before the first step, so after `RoomPlayFault::Memory` the room is unchanged. After
/// `RoomPlayFault::Step` it stands after the events `done` of the inputs before the refused one. A schedule may be played in several pieces.
pub fn play<T: AtomicInteger, A: Allocator, B: Allocator>(
    alloc: B,
    room: &mut Room<T, A>,
    schedule: &[RoomInput<T>],
) -> Result<Vec<RoomEvent<T>, B>, RoomPlayFault<T, B>>
    ensures ok { IfOk result (λ events. Plays T.arithmetic schedule.now room.old events.items room.new) }
    ensures err { IfErr result (Refuses T.arithmetic schedule.now room.old room.new) }
{
    let Ok(mut events) = Vec::with_capacity(alloc, schedule.len()) else {
        return Err(RoomPlayFault::Memory);
    };
    for turn in schedule {
        match room.step(turn.party, turn.object, turn.input) {
            Ok(event) => events.push_reserved(event),
            Err(fault) => {
                return Err(RoomPlayFault::Step {
                    done: events,
                    fault,
                });
            }
        }
    }
    Ok(events)
}
