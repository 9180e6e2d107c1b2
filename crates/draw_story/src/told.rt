//! What is told beside a text: moves that no step of an object shows, in the lines that `sync-explore --told` adds behind it.
use crate::story::{lines_of, plain};
use std::alloc::{AllocError, Global};
use text_lines::lexer::{is, next_word, wide_number};
use text_trace::rows::Row;

/// What a party does beside the objects.
#[derive(Clone, Copy, PartialEq, Eq)]
pub enum Deed {
    /// It changes a variable.
    Sets,
    /// It reads variables.
    Reads,
    /// It falls asleep at its closure.
    Sleeps,
    /// Its wake finds this party asleep.
    Wakes(usize),
    /// It is about to make a step on a variable.
    Intends,
}

/// What a variable holds.
#[derive(Drop)]
pub struct Holding {
    pub name: String,
    pub value: u64,
}

/// A move beside the objects.
#[derive(Drop)]
pub struct Aside {
    /// How many rows come before this one.
    pub row: u32,
    /// The line of the text behind which it comes, counted from 1.
    pub after: u64,
    pub party: usize,
    pub deed: Deed,
    /// The move in words, without its party.
    pub words: String,
    /// What it puts into a variable, or finds there.
    pub held: Vec<Holding>,
}

/// A line that tells such a move.
#[derive(Clone, Copy)]
struct Move<'a> {
    party: usize,
    deed: Deed,
    /// What stands behind the party.
    words: &'a [u8],
}

/// The party that a number names, counted from 0.
fn party_of(word: &[u8]) -> Option<usize> {
    usize::try_from(wide_number(word)?.checked_sub(1)?).ok()
}

/// The value that a number names.
fn value_of(word: &[u8]) -> Option<u64> {
    u64::try_from(wide_number(word)?).ok()
}

/// What stands behind so many words.
fn behind(line: &[u8], words: usize) -> &[u8] {
    let mut rest = line;
    for _ in 0..words {
        let Some((_, after)) = next_word(rest) else {
            return b"";
        };
        rest = after;
    }
    rest
}

/// The wake of a party, as `1's wake finds 2`.
fn wake_of<'a>(party: &[u8], words: &'a [u8]) -> Option<Move<'a>> {
    let (woken, _) = next_word(behind(words, 2))?;
    Some(Move {
        party: party_of(party)?,
        deed: Deed::Wakes(party_of(woken)?),
        words,
    })
}

/// What a word behind the party tells; `None` where it is one of the text.
fn deed_of(word: &[u8]) -> Option<Deed> {
    if is(word, b"sets") {
        Some(Deed::Sets)
    } else if is(word, b"reads") {
        Some(Deed::Reads)
    } else if is(word, b"falls") {
        Some(Deed::Sleeps)
    } else if is(word, b"is") {
        Some(Deed::Intends)
    } else {
        None
    }
}

/// The move that a line tells; `None` where it is a line of the text.
fn move_of(line: &[u8]) -> Option<Move<'_>> {
    let (_, line) = line.split_first()?;
    let (first, words) = next_word(line)?;
    if let Some(party) = first.strip_suffix(b"'s") {
        return wake_of(party, words);
    }
    let (second, _) = next_word(words)?;
    Some(Move {
        party: party_of(first)?,
        deed: deed_of(second)?,
        words,
    })
}

/// Adds what a variable holds, if its name and a number are the next words.
fn add_held(alloc: Global, held: &mut Vec<Holding>, words: &[u8]) -> Result<(), AllocError> {
    if let Some((name, after)) = next_word(words)
        && let Some((number, _)) = next_word(after)
        && let Some(value) = value_of(number)
    {
        held.push(Holding {
            name: plain(alloc, name)?,
            value,
        })?;
    }
    Ok(())
}

/// What variables hold, by the words of a step on them: a name and a number, once or twice.
fn held_in(alloc: Global, told: &Move<'_>) -> Result<Vec<Holding>, AllocError> {
    let mut held = Vec::new(alloc);
    if told.deed == Deed::Sets || told.deed == Deed::Reads {
        add_held(alloc, &mut held, behind(told.words, 1))?;
        add_held(alloc, &mut held, behind(told.words, 3))?;
    }
    Ok(held)
}

/// How many of these lines are lines of the text once more.
fn repeated(told: &[&[u8]]) -> u64 {
    let mut count: u64 = 0;
    for line in told {
        if move_of(line).is_none() {
            count = count.saturating_add(1);
        }
    }
    count
}

/// How many of these rows are of lines up to this one.
fn rows_up_to<T: Copy>(rows: &[Row<T>], line: u64) -> u32 {
    let mut count: u32 = 0;
    for row in rows {
        if row.cells.step.line <= line {
            count = count.saturating_add(1);
        }
    }
    count
}

/// How many asides come before a line.
pub(crate) fn asides_before(asides: &[Aside], line: u64) -> u32 {
    let mut count: u32 = 0;
    for aside in asides {
        if aside.after < line {
            count = count.saturating_add(1);
        }
    }
    count
}

fn aside_of(alloc: Global, told: &Move<'_>, row: u32, after: u64) -> Result<Aside, AllocError> {
    Ok(Aside {
        row,
        after,
        party: told.party,
        deed: told.deed,
        words: plain(alloc, told.words)?,
        held: held_in(alloc, told)?,
    })
}

/// The moves that these lines tell of a text of so many lines, of which these are the rows. Its last lines stand among them once more.
fn placed<T: Copy>(
    alloc: Global,
    lines: usize,
    rows: &[Row<T>],
    told: &[&[u8]],
) -> Result<Vec<Aside>, AllocError> {
    let mut asides = Vec::new(alloc);
    let mut after = (lines as u64).saturating_sub(repeated(told));
    let mut before: u32 = 0;
    for line in told {
        match move_of(line) {
            Some(told) => {
                let row = rows_up_to(rows, after).saturating_add(before);
                asides.push(aside_of(alloc, &told, row, after)?)?;
                before = before.saturating_add(1);
            }
            None => after = after.saturating_add(1),
        }
    }
    Ok(asides)
}

/// The moves that are told of a text of so many lines, of which these are the rows.
pub(crate) fn asides_of<T: Copy>(
    alloc: Global,
    lines: usize,
    rows: &[Row<T>],
    told: &[u8],
) -> Result<Vec<Aside>, AllocError> {
    let told = lines_of(alloc, told)?;
    placed(alloc, lines, rows, &told)
}
