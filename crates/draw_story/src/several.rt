//! What the steps of a text of several objects were.
ghost use Rattle.std.specs.Prelude.{◌≡◌, ◌+◌, ◌++◌, ◌^◌, ◌<◌, [], ℕ, List, length, map, IfOk, OnOk, IfErr, codes, string_bytes};
ghost use Rattle.model_events.specs.declared.event.Event.{Event as AnEvent};
ghost use Rattle.model_events.specs.declared.event.Object.{Object as AnObject};
ghost use Rattle.model_room.specs.declared.event.RoomEvent.{RoomEvent as ARoomEvent};
ghost use Rattle.model_room.specs.Room.{StandsAt};
ghost use Rattle.sync_play.specs.Print.{last_line};
ghost use Rattle.sync_steps.specs.Machine as machines;
ghost use Rattle.text_lines.specs.Fault.{IsFaultOf};
ghost use Rattle.text_lines.specs.Lexer.{lines_of};
ghost use Rattle.text_room.specs.Output.{last_lines, room_output};
ghost use Rattle.text_room.specs.Walk.{nothing, told};
ghost use Rattle.text_trace.specs.Each.{for_each};
ghost use Rattle.text_trace.specs.Several.{rows_of};
ghost use Rattle.draw_story.specs.Story.{object_shown, object_at, output_of, HasTold, HasOutput, IsOfOpened, EndsEach, IsStoryOf, OfOpened};
ghost use Rattle.draw_story.specs.Story as meaning;

use crate::story::{MOST_STEPS, Story, StoryObject, object_of, story_of};
use model_room::room::Room;
use std::alloc::{AllocError, Global};
use sync_play::print::print_last;
use sync_steps::steps::Machine;
use text_lines::fault::TextFault;
use text_lines::integer::TextInteger;
use text_room::walk::{Group, Rest, open};
use text_trace::several::{Setting, add_steps, shown_names, titles_of};
use text_trace::table::text_at;

/// The objects of a room in which no step was made yet, by their names.
fn objects_of<T: TextInteger>(
    alloc: Global,
    setting: &Setting<'_, '_, T>,
    room: &Room<T>,
) -> Result<Vec<StoryObject<T>>, AllocError>
    ensures { (parties : ℕ) → StandsAt T.arithmetic setting.now.objects.now parties [] room.now →
        IfOk result (λ objects. map object_shown objects.items ≡ for_each (object_at T.arithmetic (map string_bytes setting.now.shown.now)) 0 setting.now.objects.now) }
{
    let mut objects = Vec::new(alloc);
    for object in 0..setting.objects.len() {
        if let Some(machine) = room.machine(object) {
            let name = text_at(setting.shown, object);
            objects.push(object_of(alloc, name, machine)?)?;
        }
    }
    Ok(objects)
}

/// Prints the last line of an object, behind its name.
fn print_last_of<T: TextInteger>(
    out: &mut String,
    machine: &Machine<T>,
    name: &str,
) -> Result<(), AllocError>
    ensures { (o : AnObject T) (parties : ℕ) (past : List (AnEvent T)) → machines.StandsAt T.arithmetic o parties past machine.now →
        OnOk result (string_bytes out.new ≡ (string_bytes out.old ++ name.now) ++ (codes " " ++ last_line T.arithmetic T.numerals o past)) }
{
    write!(out, "{name} ")?;
    print_last(out, machine)
}

/// The last line of each object, behind its name.
fn last_lines<T: TextInteger>(
    alloc: Global,
    names: &[String],
    room: &Room<T>,
) -> Result<String, AllocError>
    ensures { (objects : List (AnObject T)) (parties : ℕ) (past : List (ARoomEvent T)) → StandsAt T.arithmetic objects parties past room.now →
        IfOk result (λ last. string_bytes last ≡ last_lines T.arithmetic T.numerals 0 (map string_bytes names.now) objects past) }
{
    let mut last = String::new(alloc);
    for object in 0..names.len() {
        if let Some(machine) = room.machine(object) {
            print_last_of(&mut last, machine, names[object].as_str())?;
        }
    }
    Ok(last)
}

/// Plays what is left of a text that names these objects.
fn play_group<T: TextInteger>(
    alloc: Global,
    text: &[u8],
    moves: &[u8],
    group: &Group<'_, T>,
    rest: &mut Rest<'_, T>,
) -> Result<Story<T>, TextFault>
    requires countable { rest.old.line + length rest.old.lines.now < 2 ^ 64 }
    requires left { rest.old.left ≡ nothing }
    ensures story { IfOk result (IsStoryOf T.arithmetic T.numerals (told group.now rest.old)) }
    ensures fault { IfErr result (λ e. IsFaultOf e (output_of T.arithmetic T.numerals (told group.now rest.old))) }
{
    let shown = shown_names(alloc, &group.names)?;
    let setting = Setting {
        names: &group.names,
        shown: &shown,
        objects: &group.objects,
        parties: group.parties,
    };
    let titles = titles_of(alloc, setting.shown)?;
    let mut room = Room::new(alloc, setting.objects, setting.parties)?;
    let objects = objects_of(alloc, &setting, &room)?;
    let mut rows = Vec::new(alloc);
    match add_steps(
        alloc,
        &setting,
        &mut room,
        rest,
        Some(MOST_STEPS),
        &mut rows,
    )? {
        None => {
            let last = last_lines(alloc, setting.shown, &room)?;
            Ok(story_of(
                alloc,
                text,
                moves,
                objects,
                setting.parties,
                &titles,
                &rows,
                last,
            )?)
        }
        Some(found) => Err(TextFault::from(found)),
    }
}

/// Plays a text of several objects whose values are of this type: what its steps were, and what is told beside them in these lines; or the fault
/// of its first faulty line.
pub fn play<T: TextInteger>(alloc: Global, text: &[u8], moves: &[u8]) -> Result<Story<T>, TextFault>
    ensures told { IfOk result (λ story. HasTold (rows_of T.arithmetic T.numerals (lines_of text.now)) story) }
    ensures opened { IfOk result (λ story. OfOpened T.numerals (lines_of text.now) (λ found. IsOfOpened T.arithmetic found story)) }
    ensures left_out { IfOk result (λ story. story.left_out ≡ meaning.left_out (rows_of T.arithmetic T.numerals (lines_of text.now)).rows) }
    ensures last { IfOk result (λ story. OfOpened T.numerals (lines_of text.now) (λ found. EndsEach T.arithmetic T.numerals found story)) }
    ensures played { OnOk result (HasOutput (room_output T.arithmetic T.numerals (lines_of text.now))) }
    ensures fault { IfErr result (λ e. IsFaultOf e (room_output T.arithmetic T.numerals (lines_of text.now))) }
{
    let (group, mut rest) = open::<T, Global>(alloc, text)?;
    let story = play_group(alloc, text, moves, &group, &mut rest)?;
    Ok(story)
}
