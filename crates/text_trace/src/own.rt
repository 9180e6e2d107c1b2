//! Traces a text that begins with the table of a lock of one's own.
ghost use Rattle.std.specs.Prelude.{◌≡◌, ◌+◌, ◌++◌, ◌^◌, ◌<◌, [], length, map, OnOk, IfOk, string_bytes};
ghost use Rattle.std.specs.Fmt.{decimal};
ghost use Rattle.own_play.specs.Machine.{state_of};
ghost use Rattle.own_play.specs.Output.{told, value_at};
ghost use Rattle.own_play.specs.Walk.{rest_walk};
ghost use Rattle.sync_play.specs.Walk.{nothing};
ghost use Rattle.text_lines.specs.Lexer.{lines_of};
ghost use Rattle.text_own.specs.Table.{told_lock};
ghost use Rattle.text_trace.specs.Cells.{or_dash, texts_of};
ghost use Rattle.text_trace.specs.Own as meaning;
ghost use Rattle.text_trace.specs.Printing.{IsBlank};
ghost use Rattle.text_trace.specs.Rows.{entries};
ghost use Rattle.text_trace.specs.Trace.{rows_told};

use crate::cells::{
    Cells, add_holder, blank, or_dash, print_number, print_numbers, print_standing, print_told,
    said_of,
};
use crate::rows::{Row, add};
use crate::several::shown_names;
use crate::table::text_at;
use crate::trace::{Rows, no_rows};
use model_events::event::{Act, Object, Word};
use model_events::hold::HoldKind;
use model_events::words::Words;
use own_play::machine::{Machine, Party, start};
use own_play::print::value_at;
use own_play::text::{Opened, open};
use own_play::walk::next_step;
use std::alloc::{AllocError, Global};
use sync_play::walk::{Rest, Step};
use text_lines::fault::{FaultyLine, TextFault};
use text_own::OwnLock;

/// The place of a word among those that a table names.
fn place_of(word: Word) -> usize
    ensures { result ≡ meaning.place_of word }
{
    match word {
        Word::State => 0,
        Word::Counter => 1,
        Word::Waiters => 2,
        Word::Value => 3,
        Word::Low => 4,
        Word::High => 5,
    }
}

/// An act on a word, by its name.
fn print_verb(out: &mut String, names: &[String], verb: &str, word: Word) -> Result<(), AllocError>
    ensures { OnOk result (string_bytes out.new ≡ string_bytes out.old ++ meaning.verb_words (map string_bytes names.now) verb.now word) }
{
    out.push_str(verb)?;
    out.push_str(" ")?;
    out.push_str(text_at(names, place_of(word)))
}

/// What an act does to which word, if it does.
fn print_access(out: &mut String, names: &[String], act: Act<u64>) -> Result<(), AllocError>
    ensures { OnOk result (string_bytes out.new ≡ string_bytes out.old ++ meaning.access_words (map string_bytes names.now) act) }
{
    match act {
        Act::Load { word, .. } => print_verb(out, names, "load", word),
        Act::Store { word, .. } => print_verb(out, names, "store", word),
        Act::Swap { word, .. } => print_verb(out, names, "swap", word),
        Act::Add { word, .. } => print_verb(out, names, "add", word),
        Act::Exchange { word, .. } => print_verb(out, names, "exchange", word),
        _ => Ok(()),
    }
}

/// What a step did, and the values that it told and put.
fn print_act(out: &mut String, names: &[String], act: Act<u64>) -> Result<(), AllocError>
    ensures { OnOk result (string_bytes out.new ≡ string_bytes out.old ++ meaning.act_words (map string_bytes names.now) act) }
{
    print_access(out, names, act)?;
    print_numbers(out, act)?;
    out.push_str(said_of(act))?;
    print_told(out, act)
}

/// What a party holds.
fn hold_at(parties: &[Party], party: usize) -> Option<HoldKind>
    ensures { result ≡ meaning.hold_at parties.now party }
{
    match parties.get(party) {
        Some(party) => party.hold,
        None => None,
    }
}

/// Adds those that hold the lock.
fn print_holders(text: &mut String, parties: &[Party]) -> Result<(), AllocError>
    requires { string_bytes text.old ≡ [] }
    ensures { OnOk result (string_bytes text.new ≡ meaning.holders parties.now (length parties.now)) }
{
    for party in 0..parties.len() {
        let hold = hold_at(parties, party);
        add_holder(text, Object::<u64>::ReaderLock, "", party, hold)?;
    }
    Ok(())
}

/// What a word holds, as a text.
fn value_text(alloc: Global, words: &Words, place: usize) -> Result<String, AllocError>
    ensures { IfOk result (λ text. string_bytes text ≡ decimal (value_at words.now place)) }
{
    let mut text = String::new(alloc);
    print_number(&mut text, value_at(words, place) as u128)?;
    Ok(text)
}

/// What the first words hold, so many.
fn add_words(
    alloc: Global,
    texts: &mut Vec<String>,
    count: usize,
    words: &Words,
) -> Result<(), AllocError>
    requires { texts.old.items ≡ [] }
    ensures { OnOk result (map string_bytes texts.new.items ≡ meaning.values words.now count) }
{
    for place in 0..count {
        texts.push(value_text(alloc, words, place)?)?;
    }
    Ok(())
}

/// Fills the cells of the step that the machine made last, which stands there already.
fn fill(
    alloc: Global,
    cells: &mut Cells<u64>,
    names: &[String],
    machine: &Machine,
    step: Step<u64>,
) -> Result<(), AllocError>
    requires { IsBlank 0 step cells.old }
    ensures { OnOk result (texts_of cells.new ≡ meaning.cells_at (map string_bytes names.now) (record { step = step; after = state_of machine.now })) }
{
    let event = step.event;
    cells.hold = hold_at(&machine.parties, event.party);
    print_number(&mut cells.line, step.line as u128)?;
    print_number(&mut cells.party, event.party as u128 + 1)?;
    print_act(&mut cells.act, names, event.act)?;
    add_words(alloc, &mut cells.words, names.len(), &machine.words)?;
    print_holders(&mut cells.holds, &machine.parties)?;
    or_dash(&mut cells.holds)?;
    print_standing(&mut cells.call, event.act, event.then)
}

/// The cells of the step that the machine made last.
fn cells_of(
    alloc: Global,
    names: &[String],
    machine: &Machine,
    step: Step<u64>,
) -> Result<Cells<u64>, AllocError>
    ensures { IfOk result (λ cells. texts_of cells ≡ meaning.cells_at (map string_bytes names.now) (record { step = step; after = state_of machine.now })) }
{
    let mut cells = blank(alloc, 0, step);
    fill(alloc, &mut cells, names, machine, step)?;
    Ok(cells)
}

/// Adds the rows of the steps that are left of a text, and tells the line with a fault that ends them early, if there is one.
fn add_steps(
    alloc: Global,
    lock: &OwnLock<'_>,
    names: &[String],
    machine: &mut Machine,
    rest: &mut Rest<'_, u64>,
    rows: &mut Vec<Row<u64>>,
) -> Result<Option<FaultyLine>, AllocError>
    requires countable { rest.old.line + length rest.old.lines.now < 2 ^ 64 }
    ensures { IfOk result (λ fault. meaning.traced (map string_bytes names.now) (rest_walk (told_lock lock.now) rest.old (state_of machine.old)) (entries rows.old.items)
        ≡ record { titles = map string_bytes names.now; rows = entries rows.new.items; fault = fault }) }
{
    loop {
        match next_step(machine, lock, rest) {
            Ok(Some(step)) => {
                let cells = cells_of(alloc, names, machine, step)?;
                add(rows, cells, 1)?;
            }
            Ok(None) => return Ok(None),
            Err(fault) => return Ok(Some(fault)),
        }
    }
}

/// The rows of the lines behind the one that opens a lock.
fn rows_after(alloc: Global, opened: &Opened<'_>) -> Result<Rows<u64>, AllocError>
    requires left { opened.now.rest.left ≡ nothing }
    requires countable { opened.now.rest.line + length opened.now.rest.lines.now < 2 ^ 64 }
    ensures { IfOk result (λ found. rows_told found ≡ meaning.rows_begun (told opened.now)) }
{
    let titles = shown_names(alloc, &opened.lock.names)?;
    let mut machine = start(alloc, &opened.lock, opened.parties)?;
    let mut rest = opened.rest;
    let mut rows = Vec::new(alloc);
    let fault = add_steps(
        alloc,
        &opened.lock,
        &titles,
        &mut machine,
        &mut rest,
        &mut rows,
    )?;
    Ok(Rows {
        titles,
        rows,
        fault,
    })
}

/// The rows of a text that begins with a table, where marks are blanks.
pub(crate) fn rows_of(alloc: Global, text: &[u8]) -> Result<Rows<u64>, AllocError>
    ensures { IfOk result (λ found. rows_told found ≡ meaning.rows_of (lines_of text.now)) }
{
    match open(alloc, text) {
        Ok(opened) => rows_after(alloc, &opened),
        Err(TextFault::Line { line, fault }) => Ok(no_rows(alloc, FaultyLine { line, fault })),
        Err(TextFault::Memory) => Err(AllocError),
    }
}
