//! Walks a text of several objects step by step.
ghost use Rattle.std.specs.Prelude.{◌≡◌, ◌+◌, ◌^◌, ◌<◌, ◌++◌, ◌∷◌, [], ℕ, List, length, map, Ok, OnOk, IfOk, IfErr, IfSome, ⊤};
ghost use Rattle.model_room.specs.declared.event.RoomEvent.{RoomEvent as ARoomEvent};
ghost use Rattle.model_room.specs.Room.{StandsAt};
ghost use Rattle.sync_steps.specs.Machine.Strides.{IsQuiet};
ghost use Rattle.sync_play.specs.Player.{steps_left};
ghost use Rattle.text_lines.specs.Fault.{IsFaultOf};
ghost use Rattle.text_lines.specs.Lexer.{lines_of, words_of};
ghost use Rattle.text_room.specs.Walk as meaning;

use crate::player::next_events;
use model_events::event::Object;
use model_room::event::RoomEvent;
use model_room::room::Room;
use std::alloc::{AllocError, Allocator, Global};
use text_lines::command::Task;
use text_lines::fault::{FaultyLine, LineFault, TextFault};
use text_lines::integer::TextInteger;
use text_lines::lexer::{is, next_line, next_word};
use text_lines::several::{RoomCommand, named_object, parties};

/// An event, and the line that asked for it, counted from 1.
#[derive(Copy)]
pub struct Step<T> {
    pub line: u64,
    pub event: RoomEvent<T>,
}

impl<T: Copy> Clone for Step<T> {
    ghost is_clone = { λ x y. y ≡ x };

    ghost is_infallible = { λ _. ⊤ };

    fn clone(&self) -> Result<Self, AllocError> {
        Ok(*self)
    }
}

/// Equal steps in a row: one, or those of a call that spins.
#[derive(Copy)]
pub struct Stride<T> {
    pub step: Step<T>,
    pub times: u64,
}

impl<T: Copy> Clone for Stride<T> {
    ghost is_clone = { λ x y. y ≡ x };

    ghost is_infallible = { λ _. ⊤ };

    fn clone(&self) -> Result<Self, AllocError> {
        Ok(*self)
    }
}

/// What is left of a text: of line `line` what `left` asks, and all the lines after it.
#[derive(Copy)]
pub struct Rest<'t, T> {
    pub line: u64,
    pub left: RoomCommand<T>,
    pub lines: &'t [u8],
}

impl<'t, T: Copy> Clone for Rest<'t, T> {
    ghost is_clone = { λ x y. y ≡ x };

    ghost is_infallible = { λ _. ⊤ };

    fn clone(&self) -> Result<Self, AllocError> {
        Ok(Rest {
            line: self.line,
            left: self.left,
            lines: self.lines,
        })
    }
}

/// What the first lines of a text name: how many parties share which objects.
#[derive(Drop)]
pub struct Group<'t, T, A: Allocator = Global> {
    pub parties: usize,
    pub names: Vec<&'t [u8], A>,
    pub objects: Vec<Object<T>, A>,
}

/// What asks for no step.
fn nothing<T>() -> RoomCommand<T>
    ensures { result ≡ meaning.nothing }
{
    RoomCommand {
        party: 0,
        named: None,
        task: Task::Go(0),
    }
}

/// What a line asks; one without words asks for no step.
fn asked<T: TextInteger>(
    names: &[&[u8]],
    objects: &[Object<T>],
    line: &[u8],
) -> Result<RoomCommand<T>, LineFault>
    ensures asked { result ≡ meaning.asked T.numerals (map (λ name. name.now) names.now) objects.now (words_of line.now) }
    ensures within { IfOk result (λ command. steps_left command.task < 2 ^ 64) }
{
    match RoomCommand::parse(names, objects, line) {
        Ok(Some(command)) => Ok(command),
        Ok(None) => Ok(nothing()),
        Err(fault) => Err(fault),
    }
}

#[tactic(auto, using(crate::proofs::OpenLaws::map_more))]
fn push_name<'t, A: Allocator>(
    names: &mut Vec<&'t [u8], A>,
    name: &'t [u8],
) -> Result<(), AllocError>
    ensures { OnOk result (map (λ other. other.now) names.new.items ≡ map (λ other. other.now) names.old.items ++ name.now ∷ []) }
{
    names.push(name)?;
    Ok(())
}

fn push_object<T: TextInteger, A: Allocator>(
    objects: &mut Vec<Object<T>, A>,
    object: Object<T>,
) -> Result<(), AllocError>
    ensures { OnOk result (objects.new.items ≡ objects.old.items ++ object ∷ []) }
{
    objects.push(object)?;
    Ok(())
}

/// What the first lines of a text of several objects name, and what is left of the text then; or why they name none.
pub fn open<'t, T: TextInteger, A: Allocator + Copy>(
    alloc: A,
    text: &'t [u8],
) -> Result<(Group<'t, T, A>, Rest<'t, T>), TextFault>
    ensures opened { IfOk result (λ found. meaning.opened T.numerals (lines_of text.now) ≡ Ok (meaning.told found.0 found.1)) }
    ensures fault { IfErr result (λ fault. IsFaultOf fault (meaning.opened T.numerals (lines_of text.now))) }
    ensures left { IfOk result (λ found. found.1.left ≡ meaning.nothing) }
    ensures countable { IfOk result (λ found. found.1.line + length found.1.lines.now < 2 ^ 64) }
{
    let Some((first, after)) = next_line(text) else {
        return Err(TextFault::Line {
            line: 1,
            fault: LineFault::NoObject,
        });
    };
    let parties = match parties(first) {
        Ok(parties) => parties,
        Err(fault) => return Err(TextFault::Line { line: 1, fault }),
    };
    let mut names = Vec::new(alloc);
    let mut objects = Vec::new(alloc);
    let mut line: u64 = 1;
    let mut lines = after;
    while let Some((next, after)) = next_line(lines) {
        if let Some((word, rest)) = next_word(next) {
            if !is(word, b"let") {
                break;
            }
            match named_object::<T>(&names, rest) {
                Ok((name, object)) => {
                    push_name(&mut names, name)?;
                    push_object(&mut objects, object)?;
                }
                Err(fault) => {
                    return Err(TextFault::Line {
                        line: line + 1,
                        fault,
                    });
                }
            }
        }
        line += 1;
        lines = after;
    }
    Ok((
        Group {
            parties,
            names,
            objects,
        },
        Rest {
            line,
            left: nothing(),
            lines,
        },
    ))
}

/// Plays the next steps of a text at its room, one, or equal ones in a row as a spin makes them, and `rest` is then what is left of it.
/// `None` once all lines are played.
///
/// After a fault nothing more is to be asked.
pub fn next_stride<T: TextInteger, A: Allocator>(
    room: &mut Room<T, A>,
    names: &[&[u8]],
    objects: &[Object<T>],
    rest: &mut Rest<'_, T>,
) -> Result<Option<Stride<T>>, FaultyLine>
    requires countable { rest.old.line + length rest.old.lines.now < 2 ^ 64 }
    ensures stride { (parties : ℕ) (past : List (ARoomEvent T)) → StandsAt T.arithmetic objects.now parties past room.old →
        meaning.IsNextStride T.arithmetic T.numerals (map (λ name. name.now) names.now) objects.now parties past rest.old rest.new room.new result }
    ensures some { IfOk result (λ stride. IfSome stride (λ s. 0 < s.times)) }

    // Of several steps each leaves all words and holds as they are.
    ensures quiet { IfOk result (λ stride. IfSome stride (λ s. 1 < s.times → IsQuiet s.step.event.event)) }
    ensures countable { rest.new.line + length rest.new.lines.now < 2 ^ 64 }
    ensures fewer { IfOk result (λ stride. IfSome stride (λ _. meaning.most_steps rest.new < meaning.most_steps rest.old)) }
{
    loop {
        match next_events(room, &mut rest.left) {
            Ok(Some(found)) => {
                let step = Step {
                    line: rest.line,
                    event: found.event,
                };
                return Ok(Some(Stride {
                    step,
                    times: found.times,
                }));
            }
            Ok(None) => {}
            Err(fault) => {
                return Err(FaultyLine {
                    line: rest.line,
                    fault,
                });
            }
        }
        let Some((line, lines)) = next_line(rest.lines) else {
            return Ok(None);
        };
        rest.line += 1;
        rest.lines = lines;
        match asked(names, objects, line) {
            Ok(command) => rest.left = command,
            Err(fault) => {
                return Err(FaultyLine {
                    line: rest.line,
                    fault,
                });
            }
        }
    }
}
