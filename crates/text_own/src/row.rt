//! What the line of a row says.
ghost use Rattle.std.specs.Prelude.{◌≡◌, map};
ghost use Rattle.text_lines.specs.Lexer.{words_of};
ghost use Rattle.text_own.specs.Row as meaning;

use model_events::event::{Wake, Word};
use model_events::hold::HoldKind;
use model_own::{HoldChange, Next, Number, Operation, Row, Test, Way};
use text_lines::fault::LineFault;
use text_lines::lexer::{is, next_word, nothing, number_within};
use text_lines::several::place_of;

/// What was read of a line, and the rest of it.
type Read<'t, V> = Result<(V, &'t [u8]), LineFault>;

/// What a step does, without its words and numbers.
#[derive(Clone, Copy)]
pub(crate) enum Verb {
    Load,
    Store,
    Swap,
    Add,
    Subtract,
    Exchange,
    Wake,
}

pub(crate) fn verb_of(word: &[u8]) -> Option<Verb>
    ensures { result ≡ meaning.verb_of word.now }
{
    if is(word, b"load") {
        Some(Verb::Load)
    } else if is(word, b"store") {
        Some(Verb::Store)
    } else if is(word, b"swap") {
        Some(Verb::Swap)
    } else if is(word, b"add") {
        Some(Verb::Add)
    } else if is(word, b"sub") {
        Some(Verb::Subtract)
    } else if is(word, b"exchange") {
        Some(Verb::Exchange)
    } else if is(word, b"wake") {
        Some(Verb::Wake)
    } else {
        None
    }
}

/// A number, or `found`: what the step before was told.
fn number_in(line: &[u8]) -> Read<'_, Number>
    ensures { meaning.read result ≡ meaning.number_in (words_of line.now) }
{
    let Some((word, rest)) = next_word(line) else {
        return Err(LineFault::BadLine);
    };
    if is(word, b"found") {
        return Ok((Number::Kept(0), rest));
    }
    let number = number_within(0, u64::MAX, word)?;
    Ok((Number::Is(number), rest))
}

/// A number alone.
fn plain_in(line: &[u8]) -> Read<'_, u64>
    ensures { meaning.read result ≡ meaning.plain_in (words_of line.now) }
{
    let Some((word, rest)) = next_word(line) else {
        return Err(LineFault::BadLine);
    };
    let number = number_within(0, u64::MAX, word)?;
    Ok((number, rest))
}

/// The word at a place among those that a text names.
pub fn word_at(at: usize) -> Option<Word>
    ensures { result ≡ meaning.word_at at }
{
    match at {
        0 => Some(Word::State),
        1 => Some(Word::Counter),
        2 => Some(Word::Waiters),
        3 => Some(Word::Value),
        4 => Some(Word::Low),
        5 => Some(Word::High),
        _ => None,
    }
}

/// The word of a name.
fn word_named(names: &[&[u8]], name: &[u8]) -> Result<Word, LineFault>
    ensures { result ≡ meaning.word_named (map (λ n. n.now) names.now) name.now }
{
    let Some(at) = place_of(names, name) else {
        return Err(LineFault::BadLine);
    };
    match word_at(at) {
        Some(word) => Ok(word),
        None => Err(LineFault::BadLine),
    }
}

/// A word of the lock.
fn on_in<'t>(names: &[&[u8]], line: &'t [u8]) -> Read<'t, Word>
    ensures { meaning.read result ≡ meaning.on_in (map (λ n. n.now) names.now) (words_of line.now) }
{
    let Some((name, rest)) = next_word(line) else {
        return Err(LineFault::BadLine);
    };
    let word = word_named(names, name)?;
    Ok((word, rest))
}

/// A word of the lock, and a number.
fn on_with_number<'t>(names: &[&[u8]], line: &'t [u8]) -> Read<'t, (Word, Number)>
    ensures { meaning.read result ≡ meaning.on_with_number (map (λ n. n.now) names.now) (words_of line.now) }
{
    let (word, rest) = on_in(names, line)?;
    let (number, rest) = number_in(rest)?;
    Ok(((word, number), rest))
}

/// Whom a wake wakes.
fn wake_in(line: &[u8]) -> Read<'_, Wake>
    ensures { meaning.read result ≡ meaning.wake_in (words_of line.now) }
{
    let Some((word, rest)) = next_word(line) else {
        return Err(LineFault::BadLine);
    };
    if is(word, b"one") {
        Ok((Wake::One, rest))
    } else if is(word, b"all") {
        Ok((Wake::All, rest))
    } else {
        Err(LineFault::BadLine)
    }
}

/// What a step does: a verb, and its words and numbers.
fn operation_in<'t>(verb: Verb, names: &[&[u8]], line: &'t [u8]) -> Read<'t, Operation>
    ensures { meaning.read result ≡ meaning.operation_by verb (map (λ n. n.now) names.now) (words_of line.now) }
{
    match verb {
        Verb::Load => {
            let (word, rest) = on_in(names, line)?;
            Ok((Operation::Load(word), rest))
        }
        Verb::Store => {
            let ((word, put), rest) = on_with_number(names, line)?;
            Ok((Operation::Store(word, put), rest))
        }
        Verb::Swap => {
            let ((word, put), rest) = on_with_number(names, line)?;
            Ok((Operation::Swap(word, put), rest))
        }
        Verb::Add => {
            let ((word, more), rest) = on_with_number(names, line)?;
            Ok((Operation::Add(word, more), rest))
        }
        Verb::Subtract => {
            let ((word, less), rest) = on_with_number(names, line)?;
            Ok((Operation::Subtract(word, less), rest))
        }
        Verb::Exchange => {
            let ((word, from), rest) = on_with_number(names, line)?;
            let (to, rest) = number_in(rest)?;
            Ok((Operation::Exchange(word, from, to), rest))
        }
        Verb::Wake => {
            let (wake, rest) = wake_in(line)?;
            Ok((Operation::Wake(wake), rest))
        }
    }
}

/// The row of a label.
fn row_in<'t>(labels: &[&[u8]], line: &'t [u8]) -> Read<'t, u64>
    ensures { meaning.read result ≡ meaning.row_in (map (λ l. l.now) labels.now) (words_of line.now) }
{
    let Some((label, rest)) = next_word(line) else {
        return Err(LineFault::BadLine);
    };
    match place_of(labels, label) {
        Some(row) => Ok((row as u64, rest)),
        None => Err(LineFault::BadLine),
    }
}

/// A word that has to stand there.
fn past<'t>(name: &[u8], line: &'t [u8]) -> Result<&'t [u8], LineFault>
    ensures { meaning.rest_of result ≡ meaning.past name.now (words_of line.now) }
{
    match next_word(line) {
        Some((word, rest)) if is(word, name) => Ok(rest),
        _ => Err(LineFault::BadLine),
    }
}

/// How a call goes on.
fn next_in<'t>(labels: &[&[u8]], line: &'t [u8]) -> Read<'t, Next>
    ensures { meaning.read result ≡ meaning.next_in (map (λ l. l.now) labels.now) (words_of line.now) }
{
    let Some((word, rest)) = next_word(line) else {
        return Err(LineFault::BadLine);
    };
    if is(word, b"at") {
        let (row, rest) = row_in(labels, rest)?;
        Ok((Next::At(row), rest))
    } else if is(word, b"refused") {
        let (row, rest) = row_in(labels, rest)?;
        let rest = past(b"told", rest)?;
        let (seen, rest) = number_in(rest)?;
        Ok((Next::Refused(row, seen), rest))
    } else if is(word, b"success") {
        Ok((Next::Success, rest))
    } else if is(word, b"interrupted") {
        Ok((Next::Interrupted, rest))
    } else if is(word, b"done") {
        Ok((Next::Done, rest))
    } else {
        Err(LineFault::BadLine)
    }
}

/// The kind of a hold.
fn kind_in(line: &[u8]) -> Read<'_, HoldKind>
    ensures { meaning.read result ≡ meaning.kind_in (words_of line.now) }
{
    let Some((word, rest)) = next_word(line) else {
        return Err(LineFault::BadLine);
    };
    if is(word, b"write") {
        Ok((HoldKind::Write, rest))
    } else if is(word, b"read") {
        Ok((HoldKind::Read, rest))
    } else {
        Err(LineFault::BadLine)
    }
}

/// What becomes of the hold: it is taken, ended, or, where nothing is said of it, kept.
fn change_in(line: &[u8]) -> Read<'_, HoldChange>
    ensures { meaning.read result ≡ meaning.change_in (words_of line.now) }
{
    let Some((word, rest)) = next_word(line) else {
        return Ok((HoldChange::Keeps, line));
    };
    if is(word, b"hold") {
        let (kind, rest) = kind_in(rest)?;
        Ok((HoldChange::Takes(kind), rest))
    } else if is(word, b"ends") {
        let rest = past(b"hold", rest)?;
        Ok((HoldChange::Ends, rest))
    } else {
        Ok((HoldChange::Keeps, line))
    }
}

/// A way that a step may go.
fn way_in<'t>(labels: &[&[u8]], line: &'t [u8]) -> Read<'t, Way>
    ensures { meaning.read result ≡ meaning.way_in (map (λ l. l.now) labels.now) (words_of line.now) }
{
    let (next, rest) = next_in(labels, line)?;
    let (change, rest) = change_in(rest)?;
    Ok((Way { change, next }, rest))
}

/// A row whose step goes one way.
fn one_way(labels: &[&[u8]], operation: Operation, line: &[u8]) -> Result<Row, LineFault>
    ensures { result ≡ meaning.one_way (map (λ l. l.now) labels.now) operation (words_of line.now) }
{
    let (way, rest) = way_in(labels, line)?;
    nothing(rest)?;
    Ok(Row {
        operation,
        test: Test::Is(Number::Is(0)),
        passed: way,
        failed: way,
    })
}

/// A row whose step goes one of two ways, by a test.
fn two_ways(
    labels: &[&[u8]],
    operation: Operation,
    test: Test,
    line: &[u8],
) -> Result<Row, LineFault>
    ensures { result ≡ meaning.two_ways (map (λ l. l.now) labels.now) operation test (words_of line.now) }
{
    let (passed, rest) = way_in(labels, line)?;
    let rest = past(b"else", rest)?;
    let (failed, rest) = way_in(labels, rest)?;
    nothing(rest)?;
    Ok(Row {
        operation,
        test,
        passed,
        failed,
    })
}

/// A row whose step does this: a test, where there is one, and the ways.
fn ways_in(labels: &[&[u8]], operation: Operation, line: &[u8]) -> Result<Row, LineFault>
    ensures { result ≡ meaning.ways_in (map (λ l. l.now) labels.now) operation (words_of line.now) }
{
    let Some((word, rest)) = next_word(line) else {
        return Err(LineFault::BadLine);
    };
    if is(word, b"is") {
        let (number, rest) = number_in(rest)?;
        two_ways(labels, operation, Test::Is(number), rest)
    } else if is(word, b"below") {
        let (number, rest) = plain_in(rest)?;
        two_ways(labels, operation, Test::Below(number), rest)
    } else if is(word, b"odd") {
        two_ways(labels, operation, Test::Odd, rest)
    } else {
        one_way(labels, operation, line)
    }
}

/// The row of a line, behind its label and its verb.
pub(crate) fn row_of(
    names: &[&[u8]],
    labels: &[&[u8]],
    verb: Verb,
    line: &[u8],
) -> Result<Row, LineFault>
    ensures { result ≡ meaning.row_of (map (λ n. n.now) names.now) (map (λ l. l.now) labels.now) verb (words_of line.now) }
{
    let (operation, rest) = operation_in(verb, names, line)?;
    ways_in(labels, operation, rest)
}
