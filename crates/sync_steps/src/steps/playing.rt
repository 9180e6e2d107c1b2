ghost use Rattle.std.specs.Prelude.{IfOk, IfErr};
ghost use Rattle.sync_steps.specs.Machine.{Plays, Refuses};

use super::fault::PlayFault;
use super::machine::Machine;
use model_events::atomic::internal::AtomicInteger;
use model_events::event::{Event, Input};
use std::alloc::Allocator;

/// Plays a schedule, one event for each input, in order.
///
/// The list of events is asked for before the first step, so after `PlayFault::Memory` the machine is unchanged. After
/// `PlayFault::Step` it stands after the events `done` of the inputs before the refused one. A schedule may be played in
/// several pieces: each piece goes on with the run that stands at the machine.
pub fn play<T: AtomicInteger, A: Allocator, B: Allocator>(
    alloc: B,
    machine: &mut Machine<T, A>,
    schedule: &[(usize, Input<T>)],
) -> Result<Vec<Event<T>, B>, PlayFault<T, B>>
    ensures ok { IfOk result (λ events. Plays T.arithmetic schedule.now machine.old events.items machine.new) }
    ensures err { IfErr result (Refuses T.arithmetic schedule.now machine.old machine.new) }
{
    let Ok(mut events) = Vec::with_capacity(alloc, schedule.len()) else {
        return Err(PlayFault::Memory);
    };
    for turn in schedule {
        match machine.step(turn.0, turn.1) {
            Ok(event) => events.push_reserved(event),
            Err(fault) => {
                return Err(PlayFault::Step {
                    done: events,
                    fault,
                });
            }
        }
    }
    Ok(events)
}
