//! Plays a command at a room, stride by stride.
ghost use Rattle.std.specs.Prelude.{◌≡◌, ◌<◌, ◌≤◌, ℕ, List, IfOk, IfSome};
ghost use Rattle.model_events.specs.Sights.{goes_on};
ghost use Rattle.model_events.specs.declared.event.Object.{Object as AnObject};
ghost use Rattle.sync_steps.specs.Machine.Strides.{IsQuiet};
ghost use Rattle.model_room.specs.declared.event.RoomEvent.{RoomEvent as ARoomEvent};
ghost use Rattle.model_room.specs.Room.{StandsAt};
ghost use Rattle.sync_play.specs.Player.{steps_left};
ghost use Rattle.text_room.specs.Walk as meaning;

use model_events::atomic::internal::AtomicInteger;
use model_room::event::RoomStride;
use model_room::fault::RoomFault;
use model_room::room::Room;
use std::alloc::Allocator;
use sync_steps::steps::Then;
use text_lines::command::Task;
use text_lines::fault::LineFault;
use text_lines::several::RoomCommand;

/// Whether a call goes on by itself.
#[inline(always)]
fn goes_on<T>(then: &Then<T>) -> bool
    ensures { result ≡ goes_on then.now }
{
    match then {
        Then::GoesOn => true,
        Then::Waits(_) | Then::Chooses(_) | Then::Answers(_) => false,
    }
}

/// What is left of a task after a stride of it.
#[inline(always)]
fn left_after<T: Copy>(task: Task<T>, stride: &RoomStride<T>) -> Task<T>
    requires { stride.now.times ≤ steps_left task }
    ensures { result ≡ meaning.left_after task stride.now }
{
    match task {
        Task::Go(steps) => Task::Go(steps - stride.times),
        Task::Run(limit) if goes_on(&stride.event.event.then) => Task::Run(limit - stride.times),
        Task::Run(_) | Task::Give(_) => Task::Go(0),
    }
}

/// The object of an input: the one that is named, else the one at which the party has its call, else the first.
#[inline(always)]
fn where_of(named: Option<usize>, seat: Option<usize>) -> usize
    ensures { result ≡ meaning.where_of named seat }
{
    match (named, seat) {
        (Some(object), _) => object,
        (None, Some(object)) => object,
        (None, None) => 0,
    }
}

/// What a room refuses, as a fault of the line.
#[inline(always)]
fn line_fault(fault: RoomFault) -> LineFault
    ensures { result ≡ meaning.line_fault fault }
{
    match fault {
        RoomFault::NoObject => LineFault::NoObject,
        RoomFault::Step(fault) => LineFault::from(fault),
    }
}

/// The next events of a command, and `left` is then what is left of it: one, or equal ones in a row, as a spin gives them. `None` once all
/// of it is done.
///
/// After a fault nothing more is to be asked. It takes no memory.
#[inline(always)]
pub fn next_events<T: AtomicInteger, A: Allocator>(
    room: &mut Room<T, A>,
    left: &mut RoomCommand<T>,
) -> Result<Option<RoomStride<T>>, LineFault>
    ensures turn { (objects : List (AnObject T)) (parties : ℕ) (past : List (ARoomEvent T)) → StandsAt T.arithmetic objects parties past room.old →
        meaning.IsTurn T.arithmetic objects parties past left.old left.new room.new result }
    ensures some { IfOk result (λ stride. IfSome stride (λ s. 0 < s.times)) }
    ensures quiet { IfOk result (λ stride. IfSome stride (λ s. 1 < s.times → IsQuiet s.event.event)) }
    ensures shorter { IfOk result (λ stride. IfSome stride (λ _. steps_left left.new.task < steps_left left.old.task)) }
{
    match left.task {
        Task::Go(0) => Ok(None),
        Task::Run(0) => Err(LineFault::StepLimit),
        Task::Give(input) => {
            let object = where_of(left.named, room.seat(left.party));
            match room.step(left.party, object, input) {
                Ok(event) => {
                    left.task = Task::Go(0);
                    Ok(Some(RoomStride { event, times: 1 }))
                }
                Err(fault) => Err(line_fault(fault)),
            }
        }
        Task::Go(limit) | Task::Run(limit) => {
            let object = where_of(None, room.seat(left.party));
            match room.stride(left.party, object, limit) {
                Ok(stride) => {
                    left.task = left_after(left.task, &stride);
                    Ok(Some(stride))
                }
                Err(fault) => Err(line_fault(fault)),
            }
        }
    }
}
