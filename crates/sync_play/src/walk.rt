//! Walks a text step by step.
ghost use Rattle.std.specs.Prelude.{◌≡◌, ◌+◌, ◌^◌, ◌<◌, ℕ, List, length, Ok, Err, IfOk, IfErr, IfSome, ⊤};
ghost use Rattle.sync_steps.specs.Machine.{StandsAt};
ghost use Rattle.model_events.specs.declared.event.Event.{Event as AnEvent};
ghost use Rattle.model_events.specs.declared.event.Object.{Object as AnObject};
ghost use Rattle.sync_steps.specs.Machine.Strides.{IsQuiet};
ghost use Rattle.text_lines.specs.Lexer.{lines_of, words_of};
ghost use Rattle.sync_play.specs.Player.{steps_left};
ghost use Rattle.sync_play.specs.Walk as meaning;

use crate::player::next_events;
use std::alloc::{AllocError, Allocator};
use sync_steps::steps::{Event, Machine, Object};
use text_lines::command::{Command, Task};
use text_lines::fault::{FaultyLine, LineFault};
use text_lines::header::Header;
use text_lines::integer::TextInteger;
use text_lines::lexer::next_line;

/// An event, and the line that asked for it, counted from 1.
#[derive(Copy)]
pub struct Step<T> {
    pub line: u64,
    pub event: Event<T>,
}

impl<T: Copy> Clone for Step<T> {
    ghost is_clone = { λ x y. y ≡ x };

    ghost is_infallible = { λ _. ⊤ };

    fn clone(&self) -> Result<Self, AllocError> {
        Ok(*self)
    }
}

/// Equal steps in a row: one, or those of a call that spins.
#[derive(Copy)]
pub struct Stride<T> {
    pub step: Step<T>,
    pub times: u64,
}

impl<T: Copy> Clone for Stride<T> {
    ghost is_clone = { λ x y. y ≡ x };

    ghost is_infallible = { λ _. ⊤ };

    fn clone(&self) -> Result<Self, AllocError> {
        Ok(*self)
    }
}

/// What is left of a text: of line `line` what `left` asks, and all the lines after it.
#[derive(Copy)]
pub struct Rest<'t, T> {
    pub line: u64,
    pub left: Command<T>,
    pub lines: &'t [u8],
}

impl<'t, T: Copy> Clone for Rest<'t, T> {
    ghost is_clone = { λ x y. y ≡ x };

    ghost is_infallible = { λ _. ⊤ };

    fn clone(&self) -> Result<Self, AllocError> {
        Ok(Rest {
            line: self.line,
            left: self.left,
            lines: self.lines,
        })
    }
}

/// What asks for no step.
pub fn nothing<T>() -> Command<T>
    ensures { result ≡ meaning.nothing }
{
    Command {
        party: 0,
        task: Task::Go(0),
    }
}

/// What a line asks; one without words asks for no step.
pub fn asked<T: TextInteger>(object: Object<T>, line: &[u8]) -> Result<Command<T>, LineFault>
    ensures asked { result ≡ meaning.asked T.numerals object (words_of line.now) }
    ensures within { IfOk result (λ command. steps_left command.task < 2 ^ 64) }
{
    match Command::parse(object, line) {
        Ok(Some(command)) => Ok(command),
        Ok(None) => Ok(nothing()),
        Err(fault) => Err(fault),
    }
}

/// The object that the first line of a text opens, and what is left of the text then; or why it opens none.
pub fn open<T: TextInteger>(text: &[u8]) -> Result<(Header<T>, Rest<'_, T>), FaultyLine>
    ensures opened { IfOk result (λ found. meaning.opened T.numerals (lines_of text.now) ≡ Ok (found.0, lines_of found.1.lines.now)) }
    ensures fault { IfErr result (λ fault. meaning.opened T.numerals (lines_of text.now) ≡ Err fault) }
    ensures line { IfOk result (λ found. found.1.line ≡ 1) }
    ensures left { IfOk result (λ found. found.1.left ≡ meaning.nothing) }
    ensures countable { IfOk result (λ found. found.1.line + length found.1.lines.now < 2 ^ 64) }
{
    let Some((first, lines)) = next_line(text) else {
        return Err(FaultyLine {
            line: 1,
            fault: LineFault::NoObject,
        });
    };
    match Header::parse(first) {
        Ok(header) => Ok((
            header,
            Rest {
                line: 1,
                left: nothing(),
                lines,
            },
        )),
        Err(fault) => Err(FaultyLine { line: 1, fault }),
    }
}

/// Plays the next steps of a text at its machine, one, or equal ones in a row as a spin makes them, and `rest` is then what is left of it.
/// `None` once all lines are played.
///
/// After a fault nothing more is to be asked.
pub fn next_stride<T: TextInteger, A: Allocator>(
    machine: &mut Machine<T, A>,
    rest: &mut Rest<'_, T>,
) -> Result<Option<Stride<T>>, FaultyLine>
    requires countable { rest.old.line + length rest.old.lines.now < 2 ^ 64 }
    ensures stride { (o : AnObject T) (parties : ℕ) (past : List (AnEvent T)) → StandsAt T.arithmetic o parties past machine.old →
        meaning.IsNextStride T.arithmetic T.numerals o parties past rest.old rest.new machine.new result }
    ensures some { IfOk result (λ stride. IfSome stride (λ s. 0 < s.times)) }

    // Of several steps each leaves all words and holds as they are.
    ensures quiet { IfOk result (λ stride. IfSome stride (λ s. 1 < s.times → IsQuiet s.step.event)) }
    ensures countable { rest.new.line + length rest.new.lines.now < 2 ^ 64 }
    ensures fewer { IfOk result (λ stride. IfSome stride (λ _. meaning.most_steps rest.new < meaning.most_steps rest.old)) }
{
    loop {
        match next_events(machine, &mut rest.left) {
            Ok(Some(found)) => {
                let step = Step {
                    line: rest.line,
                    event: found.event,
                };
                return Ok(Some(Stride {
                    step,
                    times: found.times,
                }));
            }
            Ok(None) => {}
            Err(fault) => {
                return Err(FaultyLine {
                    line: rest.line,
                    fault,
                });
            }
        }
        let Some((line, lines)) = next_line(rest.lines) else {
            return Ok(None);
        };
        rest.line += 1;
        rest.lines = lines;
        match asked(machine.object(), line) {
            Ok(command) => rest.left = command,
            Err(fault) => {
                return Err(FaultyLine {
                    line: rest.line,
                    fault,
                });
            }
        }
    }
}
