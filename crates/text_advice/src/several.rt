//! What would be right in a line of a text of several objects.

use crate::from_line;
use crate::near::{nearest, nearest_call};
use crate::objects::{first_value, first_words, noun, numbers_after, questions_objects, verbs_of};
use crate::question::of_line;
use crate::sentence::{
    OF_QUESTION, is_of_question, list_calls, object_elsewhere, of_any_party, of_number,
};
use crate::variables::{add_names, named, object_of};
use crate::words::{
    Added, Spot, before, cut, cut_word, either, first_spot, first_word, front_of, has, has_comment,
    has_mark, is_no_number, of_comment, run_of, say, second_spot, show, tell,
};
use model_events::event::Object;
use text_lines::command::is_known;
use text_lines::fault::{FaultyLine, LineFault};
use text_lines::lexer::{is, next_line};
use text_lines::several::{is_several, may_name};
use text_lines::value_type::object_named;

/// Whether a text is one of several objects.
pub fn begins_several(text: &[u8]) -> bool {
    is_several(next_line(text).unwrap_or((b"", b"")).0)
}

/// The object that a word is, or nearly is, or is elsewhere. Empty where there is none.
fn object_like(word: &[u8]) -> &'static [u8] {
    let word = front_of(word, b"(<:;,[{");
    match object_elsewhere(word) {
        [] if matches!(object_named(word), Some(Object::Atomic(_))) => b"atomic_u64",
        [] => nearest(questions_objects(), word),
        other => other,
    }
}

/// The first of these words that is to be an object, and what is left from it on. Empty where there is none.
fn kind_in(words: &[u8]) -> (&'static [u8], &[u8]) {
    let mut left = words;
    for _ in 0..words.len() {
        let (word, rest) = cut_word(left);
        let kind = object_like(word);
        if word.is_empty() || !kind.is_empty() {
            return (kind, left);
        }
        left = rest;
    }
    (b"", b"")
}

/// What is said of a line that gives this name to an object, called so by the first of the words that are left, behind these lines.
fn said_of_let(out: &mut Vec<u8>, text: &[u8], name: &[u8], kind: &[u8], left: &[u8]) -> Added {
    let word = first_word(left);
    let clean = front_of(name, b",:[=");
    if name.is_empty() || kind.is_empty() {
        out.extend_from_slice(b"`let` has a name, and then its object, one of ")?;
        out.extend_from_slice(questions_objects())
    } else if has_mark(left, b",") || has_mark(name, b",") {
        out.extend_from_slice(b"a line names one object")
    } else if has_mark(name, b"[") || has_mark(word, b"[") {
        out.extend_from_slice(b"there are no arrays: each object has a name and a line of its own")
    } else if !is(word, kind) {
        say(out, b"there is no `", word, b"`, but `")?;
        say(out, b"", kind, b"`")
    } else if !may_name(&[], clean) {
        out.extend_from_slice(
            b"a name begins with a small letter, has no `.`, and is none of and, word, counter, waiters, value, race",
        )
    } else if !named(text, clean, false).0.is_empty() {
        say(out, b"there is a `", clean, b"` already")
    } else if let Some(object) = object_named(kind) {
        out.extend_from_slice(b"`let` has a name, and then its object; ")?;
        out.extend_from_slice(noun(object))?;
        out.extend_from_slice(b" has ")?;
        out.extend_from_slice(first_value(object, kind))
    } else {
        Ok(())
    }
}

/// Of a line that begins with `let`, behind these.
fn of_let(out: &mut Vec<u8>, text: &[u8], line: &[u8]) -> Added {
    let (first, behind) = cut_word(cut_word(line).1);
    let is_turned = has(questions_objects(), first);
    let (second, more) = cut_word(behind);
    let passes = is_turned || is(first, b"mut");
    let (name, rest) = if passes {
        (second, more)
    } else {
        (first, behind)
    };
    let (kind, left) = kind_in(either(is_turned, cut_word(line).1, rest));
    said_of_let(out, text, name, kind, left)?;
    let clean = front_of(name, b",:[=");
    let kind = either(kind.is_empty(), b"mutex", kind);
    let front: &[u8] = if clean.is_empty() {
        b"m"
    } else if !may_name(&[], clean) {
        b"my_"
    } else if named(text, clean, false).0.is_empty() {
        b""
    } else {
        b"other_"
    };
    let is_array = has_mark(name, b"[") || has_mark(first_word(left), b"[");
    let array = either(is_array, b"_0", b"");
    let (_, value) = run_of(left, b" \t(<:;,[{", false);
    let (number, _) = run_of(run_of(value, b"0123456789", false).1, b"0123456789", true);
    let has_value = object_named(kind).is_some_and(|object| first_words(object).len() > 2);
    let value = either(number.is_empty() || is_array, b"2", number);
    let value = either(has_value, value, b"");
    let (_, more) = run_of(cut_word(line).1, b",", false);
    let mark = either(more.is_empty(), b"", b"`");
    say(out, b": ", mark, b"let ")?;
    say(out, front, front_of(clean, b"."), array)?;
    add_kind(out, kind, value)?;
    add_others(out, more, kind, value)?;
    out.extend_from_slice(mark)
}

/// Adds an object and its value, where it has one.
fn add_kind(out: &mut Vec<u8>, kind: &[u8], value: &[u8]) -> Added {
    say(out, b" ", kind, either(value.is_empty(), b"", b" "))?;
    say(out, b"", value, b"")
}

/// Adds, of each further name that a line gives to an object of this kind, that a line gives it.
fn add_others(out: &mut Vec<u8>, names: &[u8], kind: &[u8], value: &[u8]) -> Added {
    let mut rest = names;
    for _ in 0..names.len() {
        let (name, more) = run_of(run_of(rest, b", \t", true).1, b", \t", false);
        if may_name(&[], name) && object_like(name).is_empty() {
            say(out, b"` and `let ", name, b"")?;
            add_kind(out, kind, value)?;
        }
        rest = more;
    }
    Ok(())
}

/// Of a word that is to be `<name>.<call>`.
fn of_call(out: &mut Vec<u8>, text: &[u8], at: Spot<'_>) -> Added {
    let (name, call) = cut(at.word);
    let Some(object) = object_of(text, name) else {
        out.extend_from_slice(
            b"a call is begun by its object's name and its own, as one.lock; the names are: ",
        )?;
        return add_names(out, text, b"");
    };
    let near = nearest_call(object, call);
    let second = first_word(at.behind);
    let marks = before(at.word, name.len().saturating_add(call.len()));
    let goes_on = !second.is_empty() && is_no_number(second);
    if is(call, b"wait") && !near.is_empty() {
        let words =
            b"to begin the call, write $1.start_wait; its closure is answered without a name: $f$2";
        tell(out, at, words, &[name, call])
    } else if has(verbs_of(object), call) {
        let words = b"what moves a call on has no name before it: $f$1$b";
        tell(out, at, words, &[call])
    } else if is_known(object, call) && (marks.len() > 1 || goes_on) {
        let words = b"a line begins one call, by its object's name and its own: $f$1.$2";
        tell(out, at, words, &[name, call])
    } else if is_known(object, call) {
        out.extend_from_slice(numbers_after(object))
    } else if near.is_empty() {
        out.extend_from_slice(noun(object))?;
        list_calls(out, b" has the calls ", object)
    } else {
        say(out, b"there is no `", call, b"`, but `")?;
        say(out, near, b"`", b"")
    }
}

/// Of a line of a party whose words say nothing.
fn of_words(out: &mut Vec<u8>, text: &[u8], at: Spot<'_>) -> Added {
    let begins = object_of(text, cut(at.word).0).is_some() || is_known(at.object, at.word);
    let words = b"`let` names an object";
    if is_of_question(at) {
        out.extend_from_slice(OF_QUESTION)
    } else if is_no_number(at.word) && has(questions_objects(), first_word(at.behind)) {
        show(out, words, &[b"let ", at.line])
    } else if is_no_number(at.word) && has(questions_objects(), at.word) {
        let (name, value) = cut_word(at.behind);
        show(out, words, &[b"let ", name, b" ", at.word, value])
    } else if is_no_number(at.word) && of_number(out, at, begins, b"")? {
        Ok(())
    } else {
        of_call(out, text, second_spot(at))
    }
}

/// Of a line of a party.
fn of_party(out: &mut Vec<u8>, text: &[u8], line: &[u8], fault: LineFault) -> Added {
    match fault {
        LineFault::NoObject | LineFault::BadLine | LineFault::BadNumber => {
            of_words(out, text, first_spot(Object::Mutex, b"", line))
        }
        _ => of_any_party(out, line, fault),
    }
}

/// The first object that a line names before a dot, or else the first that there is.
fn object_in(question: &[u8], line: &[u8]) -> Object<()> {
    let mut found = Object::Mutex;
    let mut at = first_spot(found, b"", line);
    for _ in 0..line.len() {
        at = second_spot(at);
        if let Some(object) = object_of(question, cut(at.word).0) {
            found = object;
            break;
        }
    }
    found
}

/// Adds what would be right in the place of a line with this fault, of a question about several objects.
pub fn advise_asked(out: &mut Vec<u8>, question: &[u8], line: &[u8], found: FaultyLine) -> Added {
    if found.line == 1 && found.fault == LineFault::NoObject {
        return out.extend_from_slice(
            b"a question is about an object at least: behind the first line one is missing, as `let m mutex`",
        );
    }
    let (first, rest) = cut_word(line);
    let (_, value) = cut_word(rest);
    let names_object = is(first, b"let")
        && (!kind_in(rest).0.is_empty() || first_word(value).is_empty());
    if found.line == 1 || names_object && !has_comment(line) {
        return advise(out, question, line, found);
    }
    let before = before(question, from_line(question, found.line).len());
    of_line(
        out,
        first_spot(object_in(before, line), before, line),
        found,
    )
}

/// Adds what would be right in the place of a line with this fault, of a text of several objects.
pub fn advise(out: &mut Vec<u8>, text: &[u8], line: &[u8], found: FaultyLine) -> Added {
    if has_comment(line) {
        of_comment(out, line)
    } else if found.line == 1 {
        out.extend_from_slice(b"the first line has 1 to 64 parties: parties 2")
    } else if is(first_word(line), b"let") {
        of_let(out, before(text, from_line(text, found.line).len()), line)
    } else {
        of_party(out, text, line, found.fault)
    }
}
