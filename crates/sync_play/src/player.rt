//! Plays a command stride by stride.
ghost use Rattle.std.specs.Prelude.{◌≡◌, ◌<◌, ◌≤◌, ℕ, List, IfOk, OnErr, IfSome};
ghost use Rattle.model_events.specs.Sights.{goes_on};
ghost use Rattle.sync_steps.specs.Machine.{StandsAt};
ghost use Rattle.sync_steps.specs.Machine.Strides.{IsQuiet};
ghost use Rattle.model_events.specs.declared.event.Event.{Event as AnEvent};
ghost use Rattle.model_events.specs.declared.event.Object.{Object as AnObject};
ghost use Rattle.sync_play.specs.Player.{steps_left, left_after};
ghost use Rattle.sync_play.specs.Walk as meaning;

use model_events::atomic::internal::AtomicInteger;
use std::alloc::Allocator;
use sync_steps::steps::{Machine, Stride, Then};
use text_lines::command::{Command, Task};
use text_lines::fault::LineFault;

/// Whether a call goes on by itself.
#[inline(always)]
fn goes_on<T>(then: &Then<T>) -> bool
    ensures { result ≡ goes_on then.now }
{
    match then {
        Then::GoesOn => true,
        Then::Waits(_) | Then::Chooses(_) | Then::Answers(_) => false,
    }
}

/// What is left of a task after a stride of it.
#[inline(always)]
pub fn left_after<T: Copy>(task: Task<T>, stride: &Stride<T>) -> Task<T>
    requires { stride.now.times ≤ steps_left task }
    ensures { result ≡ left_after task stride.now }
{
    match task {
        Task::Go(steps) => Task::Go(steps - stride.times),
        Task::Run(limit) if goes_on(&stride.event.then) => Task::Run(limit - stride.times),
        Task::Run(_) | Task::Give(_) => Task::Go(0),
    }
}

/// The next events of a command, and `left` is then what is left of it: one, or equal ones in a row, as a spin gives them. `None` once all
/// of it is done.
///
/// After a fault the machine and `left` are as they were. It takes no memory.
#[inline(always)]
pub fn next_events<T: AtomicInteger, A: Allocator>(
    machine: &mut Machine<T, A>,
    left: &mut Command<T>,
) -> Result<Option<Stride<T>>, LineFault>
    ensures turn { (o : AnObject T) (parties : ℕ) (past : List (AnEvent T)) → StandsAt T.arithmetic o parties past machine.old →
        meaning.IsTurn T.arithmetic o parties past left.old left.new machine.new result }
    ensures some { IfOk result (λ stride. IfSome stride (λ s. 0 < s.times)) }
    ensures quiet { IfOk result (λ stride. IfSome stride (λ s. 1 < s.times → IsQuiet s.event)) }
    ensures shorter { IfOk result (λ stride. IfSome stride (λ _. steps_left left.new.task < steps_left left.old.task)) }
    ensures machine_kept { OnErr result (machine.new ≡ machine.old) }
    ensures left_kept { OnErr result (left.new ≡ left.old) }
{
    match left.task {
        Task::Go(0) => Ok(None),
        Task::Run(0) => Err(LineFault::StepLimit),
        Task::Give(input) => {
            let event = machine.step(left.party, input)?;
            left.task = Task::Go(0);
            Ok(Some(Stride { event, times: 1 }))
        }
        Task::Go(limit) | Task::Run(limit) => {
            let stride = machine.stride(left.party, limit)?;
            left.task = left_after(left.task, &stride);
            Ok(Some(stride))
        }
    }
}
