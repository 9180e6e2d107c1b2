//! What would be right in a line of a lock of one's own.

use crate::sentence;
use crate::words::{
    Added, cut_word, first_word, has, has_comment, is_no_number, of_comment, say, unmarked,
};
use model_events::event::Object;
use text_lines::fault::{FaultyLine, LineFault};
use text_lines::lexer::{is, next_line, next_word};

const STEPS: &[u8] = b"load store swap add sub exchange wake";

const CALLS: &[u8] = b"lock try_lock unlock";

/// Whether a text is one of a lock of one's own.
pub fn begins_own(text: &[u8]) -> bool {
    match next_line(text) {
        Some((line, _)) => is(first_word(line), b"object"),
        None => false,
    }
}

/// The word of a line behind so many.
fn word_behind(line: &[u8], count: usize) -> &[u8] {
    let mut rest = line;
    for _ in 0..count {
        rest = cut_word(rest).1;
    }
    unmarked(first_word(rest))
}

/// The line behind the second that begins with this name, counted from 1. 0 where there is none.
fn opening_line(text: &[u8], name: &[u8]) -> u64 {
    let mut rest = text;
    for number in 1..text.len() {
        let Some((line, behind)) = next_line(rest) else {
            break;
        };
        if number > 2 && is(unmarked(first_word(line)), name) {
            return number as u64;
        }
        rest = behind;
    }
    0
}

/// Whether a line behind the second begins with this name.
fn begins_a_line(question: &[u8], name: &[u8]) -> bool {
    opening_line(question, name) > 0
}

/// The first row to which a line leads and that no line has. Empty where there is none.
fn unknown_row<'t>(question: &[u8], line: &'t [u8]) -> &'t [u8] {
    let mut rest = line;
    let mut is_led = false;
    for _ in 0..line.len() {
        let Some((word, behind)) = next_word(rest) else {
            break;
        };
        let word = unmarked(word);
        if is_led && !begins_a_line(question, word) {
            return word;
        }
        is_led = is(word, b"at") || is(word, b"refused");
        rest = behind;
    }
    b""
}

/// The word behind the first `refused` of a line.
fn refused_row(line: &[u8]) -> &[u8] {
    let mut rest = line;
    for _ in 0..line.len() {
        let (word, behind) = cut_word(rest);
        if is(word, b"refused") {
            return unmarked(first_word(behind));
        }
        rest = behind;
    }
    b""
}

/// The word of a row's step, where the second line does not name it. Empty where it does.
fn unknown_word<'t>(question: &[u8], line: &'t [u8]) -> &'t [u8] {
    let (_, behind) = next_line(question).unwrap_or((b"", b""));
    let (names, _) = next_line(behind).unwrap_or((b"", b""));
    let word = word_behind(line, 2);
    if is(word_behind(line, 1), b"wake") || has(names, word) {
        b""
    } else {
        word
    }
}

/// Of a row.
fn of_row(out: &mut Vec<u8>, question: &[u8], line: &[u8]) -> Added {
    let (word, row) = (unknown_word(question, line), unknown_row(question, line));
    if !word.is_empty() {
        say(out, b"the second line names no word `", word, b"`")
    } else if !row.is_empty() {
        say(out, b"there is no row `", row, b"`")
    } else {
        of_ways(out, line)
    }
}

/// Of a row whose word and rows are there.
fn of_ways(out: &mut Vec<u8>, line: &[u8]) -> Added {
    if has(line, b"refused") && !has(line, b"told") {
        let words = b"a refusal says what its wait closure is told, a number or `found`: refused ";
        return say(out, words, refused_row(line), b", told found");
    }
    let has_test = has(line, b"is") || has(line, b"below") || has(line, b"odd");
    out.extend_from_slice(if has_test && !has(line, b"else") {
        b"a test has two ways: is 0: at take; else at look"
    } else if has(line, b"else") && !has_test {
        b"before `else` stand a test and its way: is 0: at take; else at look"
    } else {
        b"a row is `<name>: <step>; <way>`, or `<name>: <step>; <test>: <way>; else <way>`, and its name is new: take: exchange state 0 1; is 0: success, hold write; else at look"
    })
}

/// Of a line behind the words.
fn of_line(out: &mut Vec<u8>, question: &[u8], line: &[u8]) -> Added {
    let (first, second) = (word_behind(line, 0), word_behind(line, 1));
    if has_comment(line) {
        of_comment(out, line)
    } else if first.is_empty() {
        out.extend_from_slice(b"the last line asks: never two holders")
    } else if has(b"find never", first) {
        out.extend_from_slice(b"one question is asked, in the last line: never two holders")
    } else if has(CALLS, first) && has(STEPS, second) {
        let words = b"a call's line names its first row, and the step stands in that row's line: ";
        say(out, words, first, b": look")
    } else if has(CALLS, first) && !second.is_empty() && !begins_a_line(question, second) {
        say(out, b"there is no row `", second, b"`")
    } else if has(CALLS, first) {
        out.extend_from_slice(
            b"a call has the name of its first row, and stands once: lock: look, or unlock: free, needs hold",
        )
    } else if has(STEPS, second) {
        of_row(out, question, line)
    } else if has(b"cas compare_exchange cmpxchg", second) {
        say(
            out,
            b"there is no step `",
            second,
            b"`, but `exchange`: exchange state 0 1",
        )
    } else if second.is_empty() {
        out.extend_from_slice(b"behind a name stands the first row of a call, or the step of a row")
    } else {
        say(out, b"there is no step `", second, b"`, but ")?;
        out.extend_from_slice(STEPS)?;
        out.extend_from_slice(b"; and the calls are lock, try_lock, unlock")
    }
}

/// Adds what would be right in the place of a line with this fault.
pub fn advise(out: &mut Vec<u8>, question: &[u8], line: &[u8], found: FaultyLine) -> Added {
    match (found.fault, found.line) {
        (LineFault::BadNumber, 2) => out.extend_from_slice(
            b"a number has digits alone, and is at most 18446744073709551615",
        ),
        (LineFault::BadNumber, _) => out.extend_from_slice(
            b"a number has digits alone, and is at most 18446744073709551615, or it is `found`; behind `below` it has digits",
        ),
        (_, 1) => out.extend_from_slice(b"a lock of one's own begins with its name: object futex"),
        (_, 2) => out.extend_from_slice(
            b"the second line names the lock's words, six at most, each with what it holds at first: words state 0, tries 0",
        ),
        _ => of_line(out, question, line),
    }
}

/// Of a line that plays the lock of a text.
fn of_played(out: &mut Vec<u8>, text: &[u8], line: &[u8], found: FaultyLine) -> Added {
    let call = word_behind(line, 1);
    match found.fault {
        LineFault::BadLine if has(CALLS, call) && !begins_a_line(text, call) => {
            say(out, b"the table has no call `", call, b"`")
        }
        LineFault::NoParty => out.extend_from_slice(
            b"the parties are numbered from 1, and the line behind the table says how many there are",
        ),
        _ => sentence::advise(out, Some(Object::Mutex), line, found),
    }
}

/// Adds what would be right in the place of a line with this fault, of a text that plays its lock.
pub fn advise_played(out: &mut Vec<u8>, text: &[u8], line: &[u8], found: FaultyLine) -> Added {
    let (object, _) = next_line(text).unwrap_or((b"", b""));
    let name = word_behind(object, 1);
    let opening = opening_line(text, name);
    let (first, second) = (word_behind(line, 0), word_behind(line, 1));
    let opens = first.is_empty() || is(first, b"never") || !is_no_number(second);
    if 0 < opening && opening < found.line {
        of_played(out, text, line, found)
    } else if opening == found.line || 2 < found.line && opens {
        say(
            out,
            b"behind the table stand the lock's name, and 1 to 64 parties: ",
            name,
            b" 2",
        )
    } else {
        advise(out, text, line, found)
    }
}
