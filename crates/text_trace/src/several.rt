//! Traces a text of several objects.
ghost use Rattle.std.specs.Prelude.{◌≡◌, ◌+◌, ◌++◌, ◌^◌, ◌<◌, [], ℕ, List, length, map, OnOk, IfOk, codes, string_bytes};
ghost use Rattle.std.specs.Str.Lossy.{utf8_lossy};
ghost use Rattle.model_events.specs.declared.event.Object.{Object as AnObject};
ghost use Rattle.model_room.specs.declared.event.RoomEvent.{RoomEvent as ARoomEvent};
ghost use Rattle.model_room.specs.Room.{StandsAt};
ghost use Rattle.text_lines.specs.Lexer.{lines_of};
ghost use Rattle.text_room.specs.Walk.{nothing, told};
ghost use Rattle.text_trace.specs.Each.{for_each};
ghost use Rattle.text_trace.specs.Cells.{or_dash, texts_of};
ghost use Rattle.text_trace.specs.Printing.{IsBlank};
ghost use Rattle.text_trace.specs.Several as meaning;
ghost use Rattle.text_trace.specs.Table.{text_at};
ghost use Rattle.text_trace.specs.Trace.{rows_told};

use crate::cells::{
    Cells, add_words, blank, or_dash, print_act, print_holders, print_number, print_standing,
};
use crate::rows::{Row, add, trim};
use crate::table::text_at;
use crate::trace::{Rows, no_rows};
use model_events::event::Object;
use model_events::hold::HoldKind;
use model_room::room::Room;
use std::alloc::{AllocError, Global};
use text_lines::fault::{FaultyLine, TextFault};
use text_lines::integer::TextInteger;
use text_room::walk::{Group, Rest, Step, next_stride, open};

/// The objects of a text, the names that its lines call them by, these as text, and how many parties share them.
#[derive(Drop)]
pub struct Setting<'s, 't, T> {
    pub names: &'s [&'t [u8]],
    pub shown: &'s [String],
    pub objects: &'s [Object<T>],
    pub parties: usize,
}

/// The names of objects as text: what is no UTF-8 in them as U+FFFD.
pub fn shown_names(alloc: Global, names: &[&[u8]]) -> Result<Vec<String>, AllocError>
    ensures { IfOk result (λ shown. map string_bytes shown.items ≡ map (λ name. utf8_lossy name.now) names.now) }
{
    let mut shown = Vec::new(alloc);
    for name in names {
        shown.push(String::from_utf8_lossy(alloc, name)?)?;
    }
    Ok(shown)
}

/// The title of the words of an object.
fn title_of(alloc: Global, name: &str) -> Result<String, AllocError>
    ensures { IfOk result (λ title. string_bytes title ≡ meaning.title_of name.now) }
{
    format!(in alloc; "{name}.word")
}

/// The titles of the words of all objects.
pub fn titles_of(alloc: Global, names: &[String]) -> Result<Vec<String>, AllocError>
    ensures { IfOk result (λ titles. map string_bytes titles.items ≡ meaning.titles_of (map string_bytes names.now)) }
{
    let mut titles = Vec::new(alloc);
    for name in names {
        titles.push(title_of(alloc, name.as_str())?)?;
    }
    Ok(titles)
}

/// What a party holds of an object.
fn hold_at<T: TextInteger>(room: &Room<T>, object: usize, party: usize) -> Option<HoldKind>
    ensures { (objects : List (AnObject T)) (parties : ℕ) (past : List (ARoomEvent T)) → StandsAt T.arithmetic objects parties past room.now →
        result ≡ meaning.hold_at T.arithmetic objects past object party }
{
    match room.machine(object) {
        Some(machine) => machine.hold(party),
        None => None,
    }
}

/// What the words of each object hold.
fn add_all_words<T: TextInteger>(
    alloc: Global,
    texts: &mut Vec<String>,
    objects: &[Object<T>],
    room: &Room<T>,
) -> Result<(), AllocError>
    requires { texts.old.items ≡ [] }
    ensures { (parties : ℕ) (past : List (ARoomEvent T)) → StandsAt T.arithmetic objects.now parties past room.now →
        OnOk result (map string_bytes texts.new.items ≡ for_each (meaning.words_there T.arithmetic T.numerals past) 0 objects.now) }
{
    for object in 0..objects.len() {
        if let Some(machine) = room.machine(object) {
            add_words(alloc, texts, machine)?;
        }
    }
    Ok(())
}

/// Who holds what of each object.
fn print_all_holders<T: TextInteger>(
    text: &mut String,
    names: &[String],
    objects: &[Object<T>],
    parties: usize,
    room: &Room<T>,
) -> Result<(), AllocError>
    requires { string_bytes text.old ≡ [] }
    ensures { (past : List (ARoomEvent T)) → StandsAt T.arithmetic objects.now parties past room.now →
        OnOk result (string_bytes text.new ≡ meaning.holders_of_each T.arithmetic (map string_bytes names.now) parties past 0 objects.now []) }
{
    for object in 0..objects.len() {
        if let Some(machine) = room.machine(object) {
            let name = text_at(names, object);
            print_holders(text, objects[object], name, parties, machine)?;
        }
    }
    Ok(())
}

/// Prints who holds what, or `-` where nobody does.
fn print_all_holds<T: TextInteger>(
    text: &mut String,
    names: &[String],
    objects: &[Object<T>],
    parties: usize,
    room: &Room<T>,
) -> Result<(), AllocError>
    requires { string_bytes text.old ≡ [] }
    ensures { (past : List (ARoomEvent T)) → StandsAt T.arithmetic objects.now parties past room.now →
        OnOk result (string_bytes text.new ≡ or_dash (meaning.holders_of_each T.arithmetic (map string_bytes names.now) parties past 0 objects.now [])) }
{
    print_all_holders(text, names, objects, parties, room)?;
    or_dash(text)
}

/// Of which object an act is.
fn print_object(out: &mut String, names: &[String], object: usize) -> Result<(), AllocError>
    ensures { OnOk result (string_bytes out.new ≡ string_bytes out.old ++ (text_at (map string_bytes names.now) object ++ codes ": ")) }
{
    out.push_str(text_at(names, object))?;
    out.push_str(": ")
}

/// A step as one of its object alone.
fn step_there<T: Copy>(step: Step<T>) -> sync_play::walk::Step<T>
    ensures { result ≡ meaning.step_there step }
{
    sync_play::walk::Step {
        line: step.line,
        event: step.event.event,
    }
}

/// Fills the cells of the step that the room made last, which stands there already.
fn fill<T: TextInteger>(
    alloc: Global,
    cells: &mut Cells<T>,
    setting: &Setting<'_, '_, T>,
    room: &Room<T>,
    step: Step<T>,
) -> Result<(), AllocError>
    requires { IsBlank step.event.object (meaning.step_there step) cells.old }
    ensures { (past : List (ARoomEvent T)) → StandsAt T.arithmetic setting.now.objects.now setting.now.parties past room.now →
        OnOk result (texts_of cells.new ≡ meaning.cells_in T.arithmetic T.numerals setting.now past step) }
{
    let object = step.event.object;
    let event = step.event.event;
    cells.hold = hold_at(room, object, event.party);
    print_number(&mut cells.line, step.line as u128)?;
    print_number(&mut cells.party, event.party as u128 + 1)?;
    print_object(&mut cells.act, setting.shown, object)?;
    print_act(&mut cells.act, event.act)?;
    add_all_words(alloc, &mut cells.words, setting.objects, room)?;
    print_all_holds(
        &mut cells.holds,
        setting.shown,
        setting.objects,
        setting.parties,
        room,
    )?;
    print_standing(&mut cells.call, event.act, event.then)
}

/// The cells of the step that the room made last.
fn cells_of<T: TextInteger>(
    alloc: Global,
    setting: &Setting<'_, '_, T>,
    room: &Room<T>,
    step: Step<T>,
) -> Result<Cells<T>, AllocError>
    ensures { (past : List (ARoomEvent T)) → StandsAt T.arithmetic setting.now.objects.now setting.now.parties past room.now →
        IfOk result (λ cells. texts_of cells ≡ meaning.cells_in T.arithmetic T.numerals setting.now past step) }
{
    let mut cells = blank(alloc, step.event.object, step_there(step));
    fill(alloc, &mut cells, setting, room, step)?;
    Ok(cells)
}

/// Adds the rows of the steps that are left of a text of several objects, as `add_steps` of one object does.
pub fn add_steps<T: TextInteger>(
    alloc: Global,
    setting: &Setting<'_, '_, T>,
    room: &mut Room<T>,
    rest: &mut Rest<'_, T>,
    most: Option<usize>,
    rows: &mut Vec<Row<T>>,
) -> Result<Option<FaultyLine>, AllocError>
    requires countable { rest.old.line + length rest.old.lines.now < 2 ^ 64 }
    ensures added { (past : List (ARoomEvent T)) → StandsAt T.arithmetic setting.now.objects.now setting.now.parties past room.old →
        IfOk result (meaning.HasAdded T.arithmetic T.numerals most setting.now past rest.old rows.old.items rows.new.items) }
    ensures stands { (past : List (ARoomEvent T)) → StandsAt T.arithmetic setting.now.objects.now setting.now.parties past room.old →
        IfOk result (meaning.HasPlayed T.arithmetic T.numerals setting.now past rest.old room.new) }
{
    loop {
        match next_stride(room, setting.names, setting.objects, rest) {
            Ok(Some(stride)) => {
                let cells = cells_of(alloc, setting, room, stride.step)?;
                add(rows, cells, stride.times)?;
                trim(rows, most)?;
            }
            Ok(None) => return Ok(None),
            Err(fault) => return Ok(Some(fault)),
        }
    }
}

/// The rows of the steps of a text of these objects.
fn rows_after<T: TextInteger>(
    alloc: Global,
    setting: &Setting<'_, '_, T>,
    rest: &mut Rest<'_, T>,
) -> Result<Rows<T>, AllocError>
    requires countable { rest.old.line + length rest.old.lines.now < 2 ^ 64 }
    ensures { IfOk result (λ found. rows_told found ≡ meaning.rows_from T.arithmetic T.numerals setting.now rest.old) }
{
    let titles = titles_of(alloc, setting.shown)?;
    let mut room = Room::new(alloc, setting.objects, setting.parties)?;
    let mut rows = Vec::new(alloc);
    let fault = add_steps(alloc, setting, &mut room, rest, None, &mut rows)?;
    Ok(Rows {
        titles,
        rows,
        fault,
    })
}

/// The rows of the steps of a text that names these objects.
fn rows_of_group<T: TextInteger>(
    alloc: Global,
    group: &Group<'_, T>,
    rest: &mut Rest<'_, T>,
) -> Result<Rows<T>, AllocError>
    requires countable { rest.old.line + length rest.old.lines.now < 2 ^ 64 }
    requires left { rest.old.left ≡ nothing }
    ensures { IfOk result (λ found. rows_told found ≡ meaning.rows_opened T.arithmetic T.numerals (told group.now rest.old)) }
{
    let shown = shown_names(alloc, &group.names)?;
    let setting = Setting {
        names: &group.names,
        shown: &shown,
        objects: &group.objects,
        parties: group.parties,
    };
    rows_after(alloc, &setting, rest)
}

/// The rows of a text of several objects.
pub(crate) fn rows_of<T: TextInteger>(alloc: Global, text: &[u8]) -> Result<Rows<T>, AllocError>
    ensures { IfOk result (λ found. rows_told found ≡ meaning.rows_of T.arithmetic T.numerals (lines_of text.now)) }
{
    match open::<T, Global>(alloc, text) {
        Ok((group, mut rest)) => rows_of_group(alloc, &group, &mut rest),
        Err(TextFault::Line { line, fault }) => Ok(no_rows(alloc, FaultyLine { line, fault })),
        Err(TextFault::Memory) => Err(AllocError),
    }
}
