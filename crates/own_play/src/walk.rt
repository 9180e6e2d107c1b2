//! Walks the lines behind a table step by step.
ghost use Rattle.std.specs.Prelude.{◌≡◌, ◌+◌, ◌^◌, ◌<◌, length, OnOk, IfOk, IfSome};
ghost use Rattle.own_play.specs.Machine.{state_of};
ghost use Rattle.own_play.specs.Walk as meaning;
ghost use Rattle.sync_play.specs.Player.{steps_left};
ghost use Rattle.sync_play.specs.Walk.{most_steps};
ghost use Rattle.text_lines.specs.Lexer.{words_of};
ghost use Rattle.text_own.specs.Table.{told_lock};

use crate::machine::{Machine, entry_of, step};
use model_events::event::{Event, Input, Object};
use sync_play::player::left_after;
use sync_play::walk::{Rest, Step, asked};
use sync_steps::steps::Stride;
use text_lines::command::{Command, Task};
use text_lines::fault::{FaultyLine, LineFault};
use text_lines::lexer::next_line;
use text_own::OwnLock;

/// The input with which a task goes on.
fn input_of(task: &Task<u64>) -> Input<u64>
    ensures { result ≡ meaning.input_of task.now }
{
    match task {
        Task::Give(input) => *input,
        Task::Go(_) | Task::Run(_) => Input::Go,
    }
}

/// Makes the next step of a command that has one left.
#[tactic(auto, using(crate::proofs::WalkLaws::makes, crate::proofs::WalkLaws::refuses))]
fn make(
    machine: &mut Machine,
    lock: &OwnLock<'_>,
    left: &mut Command<u64>,
) -> Result<Event<u64>, LineFault>
    requires { 0 < steps_left left.old.task }
    ensures made { meaning.IsStep (told_lock lock.now) (state_of machine.old) left.old (state_of machine.new) left.new result }
    ensures shorter { OnOk result (steps_left left.new.task < steps_left left.old.task) }
{
    let event = step(machine, lock, left.party, input_of(&left.task))?;
    left.task = left_after(left.task, &Stride { event, times: 1 });
    Ok(event)
}

/// The next event of a command, and `left` is then what is left of it. `None` once all of it is done.
fn next_event(
    machine: &mut Machine,
    lock: &OwnLock<'_>,
    left: &mut Command<u64>,
) -> Result<Option<Event<u64>>, LineFault>
    ensures turn { meaning.IsTurn (told_lock lock.now) (state_of machine.old) left.old (state_of machine.new) left.new result }
    ensures shorter { IfOk result (λ event. IfSome event (λ _. steps_left left.new.task < steps_left left.old.task)) }
{
    match left.task {
        Task::Go(0) => Ok(None),
        Task::Run(0) => Err(LineFault::StepLimit),
        Task::Give(_) | Task::Go(_) | Task::Run(_) => Ok(Some(make(machine, lock, left)?)),
    }
}

/// Whether a task begins a call that the lock has not.
fn lacks(lock: &OwnLock<'_>, task: &Task<u64>) -> bool
    ensures { result ≡ meaning.lacks (told_lock lock.now) task.now }
{
    match task {
        Task::Give(Input::Begin(call)) => entry_of(&lock.calls, call).is_none(),
        Task::Give(_) | Task::Go(_) | Task::Run(_) => false,
    }
}

/// What a line asks. It names calls as those of a mutex are named; one that the lock has not is an unknown word.
fn asked_of(lock: &OwnLock<'_>, line: &[u8]) -> Result<Command<u64>, LineFault>
    ensures asked { result ≡ meaning.asked_of (told_lock lock.now) (words_of line.now) }
    ensures within { IfOk result (λ command. steps_left command.task < 2 ^ 64) }
{
    let command = asked(Object::<u64>::Mutex, line)?;
    if lacks(lock, &command.task) {
        Err(LineFault::BadLine)
    } else {
        Ok(command)
    }
}

/// Plays the next step of a text, and `rest` is then what is left of it. `None` once all lines are played.
///
/// After a fault nothing more is to be asked.
pub fn next_step(
    machine: &mut Machine,
    lock: &OwnLock<'_>,
    rest: &mut Rest<'_, u64>,
) -> Result<Option<Step<u64>>, FaultyLine>
    requires countable { rest.old.line + length rest.old.lines.now < 2 ^ 64 }
    ensures step { meaning.IsNextStep (told_lock lock.now) (state_of machine.old) rest.old (state_of machine.new) rest.new result }
    ensures countable { rest.new.line + length rest.new.lines.now < 2 ^ 64 }
    ensures fewer { IfOk result (λ step. IfSome step (λ _. most_steps rest.new < most_steps rest.old)) }
{
    loop {
        match next_event(machine, lock, &mut rest.left) {
            Ok(Some(event)) => {
                return Ok(Some(Step {
                    line: rest.line,
                    event,
                }));
            }
            Ok(None) => {}
            Err(fault) => {
                return Err(FaultyLine {
                    line: rest.line,
                    fault,
                });
            }
        }
        let Some((line, lines)) = next_line(rest.lines) else {
            return Ok(None);
        };
        rest.line += 1;
        rest.lines = lines;
        match asked_of(lock, line) {
            Ok(command) => rest.left = command,
            Err(fault) => {
                return Err(FaultyLine {
                    line: rest.line,
                    fault,
                });
            }
        }
    }
}
