//! Plays a text of one object or of several.
ghost use Rattle.std.specs.Prelude.{◌≡◌, ◌+◌, ◌++◌, ◌^◌, ◌<◌, ℕ, List, length, map, Ok, IfOk, IfErr, OnOk, codes, string_bytes};
ghost use Rattle.model_events.specs.declared.event.Event.{Event as AnEvent};
ghost use Rattle.model_events.specs.declared.event.Object.{Object as AnObject};
ghost use Rattle.model_room.specs.declared.event.RoomEvent.{RoomEvent as ARoomEvent};
ghost use Rattle.model_room.specs.Room.{StandsAt};
ghost use Rattle.sync_play.specs.Print.{last_line};
ghost use Rattle.sync_steps.specs.Machine as machines;
ghost use Rattle.text_lines.specs.Fault.{IsFaultOf};
ghost use Rattle.text_lines.specs.Lexer.{lines_of};
ghost use Rattle.text_room.specs.Output.{IsPrinted, last_lines, room_output, output_of, begins_several};
ghost use Rattle.text_room.specs.Walk.{rest_walk};

use crate::walk::{Rest, next_stride, open};
use model_events::event::Object;
use model_room::room::Room;
use std::alloc::{AllocError, Allocator};
use sync_play::print::{print_event, print_last};
use sync_steps::steps::Machine;
use text_lines::by_value_type;
use text_lines::fault::TextFault;
use text_lines::integer::TextInteger;
use text_lines::lexer::next_line;
use text_lines::several::is_several;

/// Plays what is left of a text, and prints its events.
fn play_rest<T: TextInteger, A: Allocator, B: Allocator>(
    room: &mut Room<T, A>,
    names: &[&[u8]],
    objects: &[Object<T>],
    rest: &mut Rest<'_, T>,
    out: &mut String<B>,
) -> Result<(), TextFault>
    requires countable { rest.old.line + length rest.old.lines.now < 2 ^ 64 }
    ensures { (parties : ℕ) (past : List (ARoomEvent T)) → StandsAt T.arithmetic objects.now parties past room.old →
        IsPrinted T.arithmetic T.numerals (map (λ name. name.now) names.now) objects.now parties past
        (rest_walk T.arithmetic T.numerals (map (λ name. name.now) names.now) objects.now parties past rest.old) (string_bytes out.old) (string_bytes out.new) room.new result }
{
    while let Some(stride) = next_stride(room, names, objects, rest)? {
        // Of a spin no try prints anything.
        print_event(out, &stride.step.event.event)?;
    }
    Ok(())
}

/// Prints the last line of an object, behind its name.
fn print_last_of<T: TextInteger, A: Allocator + Copy>(
    alloc: A,
    out: &mut Vec<u8, A>,
    machine: &Machine<T, A>,
    name: &[u8],
) -> Result<(), AllocError>
    ensures { (o : AnObject T) (parties : ℕ) (past : List (AnEvent T)) → machines.StandsAt T.arithmetic o parties past machine.now →
        OnOk result (out.new.items ≡ (out.old.items ++ name.now) ++ (codes " " ++ last_line T.arithmetic T.numerals o past)) }
{
    out.extend_from_slice(name)?;
    let mut line = String::new(alloc);
    line.push_str(" ")?;
    print_last(&mut line, machine)?;
    out.extend_from_slice(line.as_bytes())?;
    Ok(())
}

/// Prints the last line of each object, behind its name.
fn print_lasts<T: TextInteger, A: Allocator + Copy>(
    alloc: A,
    out: &mut Vec<u8, A>,
    room: &Room<T, A>,
    names: &[&[u8]],
) -> Result<(), AllocError>
    ensures { (objects : List (AnObject T)) (parties : ℕ) (past : List (ARoomEvent T)) → StandsAt T.arithmetic objects parties past room.now →
        OnOk result (out.new.items ≡ out.old.items ++ last_lines T.arithmetic T.numerals 0 (map (λ name. name.now) names.now) objects past) }
{
    for object in 0..names.len() {
        if let Some(machine) = room.machine(object) {
            print_last_of(alloc, out, machine, names[object])?;
        }
    }
    Ok(())
}

/// Plays a text of several objects, whose values are of this type.
fn play_several<T: TextInteger, A: Allocator + Copy>(
    alloc: A,
    text: &[u8],
) -> Result<Vec<u8, A>, TextFault>
    ensures played { IfOk result (λ bytes. room_output T.arithmetic T.numerals (lines_of text.now) ≡ Ok bytes.items) }
    ensures fault { IfErr result (λ e. IsFaultOf e (room_output T.arithmetic T.numerals (lines_of text.now))) }
{
    let (group, mut rest) = open::<T, A>(alloc, text)?;
    let mut room = Room::new(alloc, &group.objects, group.parties)?;
    let mut out = String::new(alloc);
    play_rest(&mut room, &group.names, &group.objects, &mut rest, &mut out)?;
    let mut bytes = out.into_bytes();
    print_lasts(alloc, &mut bytes, &room, &group.names)?;
    Ok(bytes)
}

/// Whether a text is one of several objects.
pub fn begins_several(text: &[u8]) -> bool
    ensures { result ≡ begins_several (lines_of text.now) }
{
    match next_line(text) {
        Some((line, _)) => is_several(line),
        None => false,
    }
}

/// Plays a text: what its events print and the last line of each object, or the fault of its first faulty line.
///
/// It is played stride by stride, so beside the objects it takes memory for the output alone. Both are made with this allocator, which a
/// reference to one may be.
pub fn play_text<A: Allocator + Copy>(alloc: A, text: &[u8]) -> Result<Vec<u8, A>, TextFault>
    ensures played { IfOk result (λ bytes. output_of text.now ≡ Ok bytes.items) }
    ensures fault { IfErr result (λ e. IsFaultOf e (output_of text.now)) }
{
    if begins_several(text) {
        by_value_type!(text, play_several<A>(alloc, text))
    } else {
        sync_play::play_text(alloc, text)
    }
}
