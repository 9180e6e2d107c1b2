//! Calls as a question names them: of one object by their own names, of several behind their object's name and a dot.

use crate::items::next_token;
use crate::near::nearest_call;
use crate::objects::noun;
use crate::repeat::repeat;
use crate::sentence::list_calls;
use crate::several::begins_several;
use crate::variables::{add_names, given, has_variable, object_of};
use crate::words::{
    Added, Spot, Told, bare, cut, either, first_word, front_of, has, has_mark, is_no_number,
    parentheses, run_of, say, tell,
};
use model_events::event::{Call, Object};
use std::alloc::AllocError;
use text_lines::call;
use text_lines::lexer::{is, next_line};
use text_lines::objects::calls_of;

/// The object of whose call this word is the name, with that of the object before a dot where there are several, and the call's own name.
pub fn called<'a>(at: Spot<'_>, word: &'a [u8]) -> Option<(Object<()>, &'a [u8])> {
    if !begins_several(at.question) {
        return Some((at.object, word));
    }
    let (name, rest) = run_of(word, b".", false);
    Some((object_of(at.question, name)?, rest.strip_prefix(b".")?))
}

/// How many numbers follow a call of this name. `None` where the object has none.
pub fn numbers_of(object: Object<()>, name: &[u8]) -> Option<usize> {
    match call::named(name, calls_of(&object))? {
        Call::CompareExchange((), ()) | Call::CompareExchangeWeak((), ()) => Some(2),
        Call::Post(_)
        | Call::Store(())
        | Call::Swap(())
        | Call::FetchAdd(())
        | Call::FetchSub(())
        | Call::FetchAnd(())
        | Call::FetchOr(())
        | Call::FetchXor(())
        | Call::FetchNand(())
        | Call::FetchMax(())
        | Call::FetchMin(()) => Some(1),
        _ => Some(0),
    }
}

/// A call that is meant: its object, with the name of that where there are several, and its own name.
#[derive(Clone, Copy)]
pub struct Meant<'a> {
    pub object: Object<()>,
    pub name: &'a [u8],
    pub call: &'a [u8],
}

/// A call of an object that a word is, or nearly is, or is elsewhere.
fn meant_of<'a>(
    object: Object<()>,
    name: &'a [u8],
    word: &'a [u8],
    nearly: bool,
) -> Option<Meant<'a>> {
    let call = either(nearly, first_word(nearest_call(object, word)), word);
    numbers_of(object, call)?;
    Some(Meant { object, name, call })
}

/// The same of the first object of a question that has such a call.
fn meant_of_any<'a>(question: &'a [u8], word: &'a [u8], nearly: bool) -> Option<Meant<'a>> {
    let mut rest = question;
    for _ in 0..question.len() {
        let (line, after) = next_line(rest)?;
        rest = after;
        let (name, _) = given(line);
        if let Some(object) = object_of(question, name) {
            let found = meant_of(object, name, word, nearly);
            if found.is_some() {
                return found;
            }
        }
    }
    None
}

/// The first of these, or else the other.
fn or<'a>(one: Option<Meant<'a>>, other: Option<Meant<'a>>) -> Option<Meant<'a>> {
    match one {
        Some(meant) => Some(meant),
        None => other,
    }
}

/// What stands in a word's parentheses, or else the word behind it.
fn argument_of<'a>(word: &[u8], left: &'a [u8], behind: &'a [u8]) -> &'a [u8] {
    let inside = parentheses(left).0;
    either(has_mark(word, b"("), inside, bare(first_word(behind)))
}

/// The call that the first of these words is to name, as other languages write it.
pub fn call_meant<'a>(at: Spot<'a>, left: &'a [u8]) -> Option<Meant<'a>> {
    let (word, behind) = next_token(left).unwrap_or((b"", b""));
    let (first, second) = cut(word);
    let own = either(second.is_empty(), first, second);
    if !begins_several(at.question) {
        let whole = meant_of(at.object, b"", front_of(word, b"(,;:."), true);
        return or(whole, meant_of(at.object, b"", own, true));
    }
    let argument = argument_of(word, left, behind);
    let name = either(second.is_empty(), argument, first);
    match object_of(at.question, name) {
        Some(object) => or(
            meant_of(object, name, own, false),
            meant_of(object, name, own, true),
        ),
        None if second.is_empty() => or(
            meant_of_any(at.question, own, false),
            meant_of_any(at.question, own, true),
        ),
        None => None,
    }
}

/// Adds so many of the numbers that stand among these words, and 1 for each that is missing, 0 before another.
fn add_numbers(out: &mut Vec<u8>, words: &[u8], count: usize) -> Added {
    let mut left = words;
    let mut missing = count;
    for _ in 0..words.len() {
        let (word, rest) = run_of(left, b" \t,", false);
        let (_, rest) = run_of(rest, b",", true);
        if word.is_empty() || missing == 0 || is_no_number(word) {
            break;
        }
        out.push(b' ')?;
        repeat(out, word)?;
        missing -= 1;
        left = rest;
    }
    out.extend_from_slice(match missing {
        0 => b"",
        1 => b" 1",
        _ => b" 0 1",
    })
}

/// What is left behind a call's parentheses, without what other languages chain to it there, as `.unwrap()`.
fn unchained(rest: &[u8]) -> &[u8] {
    match rest.first() {
        Some(b'.' | b'?' | b';') => run_of(rest, b", \t", false).1,
        _ => rest,
    }
}

/// Adds a call, with the numbers that it wants, and tells what is left of a line behind it.
fn add_call<'a>(
    out: &mut Vec<u8>,
    at: Spot<'_>,
    meant: Meant<'_>,
    left: &'a [u8],
) -> Result<&'a [u8], AllocError> {
    let (word, behind) = next_token(left).unwrap_or((b"", b""));
    let opens = has_mark(word, b"(");
    let (inside, closed) = parentheses(left);
    let inside = either(opens, inside, behind);
    let rest = unchained(either(opens, closed, behind));
    out.push(b' ')?;
    if !meant.name.is_empty() {
        repeat(out, meant.name)?;
        out.push(b'.')?;
    }
    repeat(out, meant.call)?;
    let wanted = numbers_of(meant.object, meant.call).unwrap_or(0);
    let (argument, after) = next_token(rest).unwrap_or((b"", rest));
    let names_object = object_of(at.question, argument).is_some();
    let rest = either(names_object, after, rest);
    // Numbers without parentheses stand in the line behind.
    if opens || is_no_number(bare(first_word(rest))) {
        add_numbers(out, inside, wanted)?;
    } else if wanted == 0 {
        return Ok(next_token(rest).unwrap_or((b"", rest)).1);
    }
    Ok(rest)
}

/// Adds what is left of a line, with each of its calls as a question has it.
fn add_calls(out: &mut Vec<u8>, at: Spot<'_>) -> Added {
    let mut left = at.left;
    for _ in 0..at.left.len() {
        let Some((word, behind)) = next_token(left) else {
            break;
        };
        match call_meant(at, left) {
            Some(meant) if !is_item(at, word) => left = add_call(out, at, meant, left)?,
            _ => {
                say(out, either(is(word, b","), b"", b" "), word, b"")?;
                left = behind;
            }
        }
    }
    Ok(())
}

/// Whether a word stands in items for itself.
fn is_item(at: Spot<'_>, word: &[u8]) -> bool {
    let is_call = match called(at, word) {
        Some((object, call)) => numbers_of(object, call).is_some(),
        None => false,
    };
    is_call
        || has(b"if while last then set add sub ( ) ,", word)
        || !is_no_number(word)
        || has_variable(at.question, word)
}

/// Whether a wait of a condition variable names another object, as its mutex elsewhere.
fn names_mutex(at: Spot<'_>, meant: Meant<'_>) -> bool {
    let inside = argument_of(at.word, at.left, at.behind);
    let is_other = !is(inside, meant.name) && object_of(at.question, inside).is_some();
    matches!(meant.object, Object::Condvar) && is_other
}

/// Of a word that is to be a call, and is written as other languages write it, or, where that is asked, nearly is one. Whether it is so.
pub fn of_calls(out: &mut Vec<u8>, at: Spot<'_>, nearly: bool) -> Told {
    let (_, second) = cut(at.word);
    let is_marked = has_mark(at.word, b":>(") || !begins_several(at.question) && !second.is_empty();
    let Some(meant) = call_meant(at, at.left) else {
        return Ok(false);
    };
    if !is_marked && !nearly {
        return Ok(false);
    }
    let dotted = has_mark(at.word, b".:>") && !second.is_empty();
    let own = either(dotted, second, front_of(at.word, b"(,;"));
    let words: &[u8] = if !is(own, meant.call) && names_mutex(at, meant) {
        b"there is no `$1`, but `$2`, and a condition variable has a mutex of its own: $l"
    } else if !is(own, meant.call) {
        b"there is no `$1`, but `$2`: $l"
    } else if is_marked && has_mark(parentheses(at.left).0, b"|{.") {
        b"a call is its name alone, and what stands in its parentheses is not asked about: $l"
    } else if is_marked {
        b"a call is its name alone, and behind it the numbers that it wants: $l"
    } else {
        b"a call is begun by its object's name and its own: $l"
    };
    tell(out, at, words, &[own, meant.call])?;
    add_calls(out, at)?;
    Ok(true)
}

/// Of a word that is to begin an item about several objects, and begins none. Whether there are several.
pub fn of_objects(out: &mut Vec<u8>, at: Spot<'_>) -> Told {
    if !begins_several(at.question) {
        return Ok(false);
    }
    let (name, call) = cut(at.word);
    if let Some(object) = object_of(at.question, name) {
        let words = b"there is no call `$w`: $1 has the calls ";
        tell(out, at, words, &[noun(object)])?;
        list_calls(out, b"", object)?;
        return Ok(true);
    }
    let words: &[u8] = if has_mark(name, b"[") {
        b"there are no arrays: each object has a name of its own, as `let m_0 mutex`"
    } else if call.is_empty() {
        b"no item begins with `$1`: each is a call, which its object's name begins, as one.lock, or set, add, sub, if, while, last or ( .. )"
    } else {
        b"there is no object `$1`: a line before names each, as `let $1 mutex`"
    };
    tell(out, at, words, &[name])?;
    add_names(out, at.question, b"; the names are ")?;
    Ok(true)
}
