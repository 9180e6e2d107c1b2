//! The sentence that says what would be right in the place of a line with a fault.

use crate::near::{nearest, nearest_call};
use crate::objects::{
    answers, first_value, first_words, noun, numbers_after, texts_objects, verbs_of,
};
use crate::words::{
    Added, Spot, Told, cut, cut_word, either, first_spot, first_word, front_of, has, has_comment,
    has_mark, is_no_number, mean, number_in, of_comment, parentheses, put, say, second_spot, show,
    tell,
};
use model_events::event::{Call, Object};
use text_lines::call::{name_of, named};
use text_lines::command::is_known;
use text_lines::fault::{FaultyLine, LineFault};
use text_lines::lexer::{is, number_within};
use text_lines::objects::calls_of;
use text_lines::several::is_several;

/// Adds words, and then the names of all calls of the object, with commas between.
pub fn list_calls(out: &mut Vec<u8>, words: &[u8], object: Object<()>) -> Added {
    let mut lead = words;
    for call in calls_of(&object) {
        out.extend_from_slice(lead)?;
        out.extend_from_slice(name_of(call).as_bytes())?;
        lead = b", ";
    }
    Ok(())
}

/// Adds words, and then all that a line may ask of the object: its calls, and the verbs of a call under way.
pub fn list_asked(out: &mut Vec<u8>, words: &[u8], object: Object<()>) -> Added {
    list_calls(out, words, object)?;
    out.extend_from_slice(b"; a call under way: ")?;
    out.extend_from_slice(verbs_of(object))
}

/// Adds that the object has no such call.
pub fn no_call(out: &mut Vec<u8>, at: Spot<'_>) -> Added {
    tell(out, at, b"$1 has no call `$w`", &[noun(at.object)])
}

/// Of a call with parentheses behind its name, or an object's name before it, as other languages write it; what comes behind is kept, or not.
/// Whether it is one.
pub fn of_method(out: &mut Vec<u8>, at: Spot<'_>, keeps: bool) -> Told {
    let (first, second) = cut(at.word);
    let name = if second.is_empty() { first } else { second };
    let known = is_known(at.object, name);
    let near = nearest_call(at.object, name);
    let call = if known { name } else { near };
    if call.is_empty() || !has_mark(at.word, b":>(") && second.is_empty() {
        return Ok(false);
    }
    let opens = has_mark(at.word, b"(");
    let (inside, behind) = parentheses(at.left);
    let inside = either(opens, inside, b"");
    let rest = either(keeps, either(opens, behind, at.behind), b"");
    let takes = !is_no_number(front_of(inside, b","));
    let words = b"a call is its name alone, and behind it the numbers that it wants: $l $1$2$3$4";
    let (gap, inside) = (either(takes, b" ", b""), either(takes, inside, b""));
    tell(out, at, words, &[call, gap, inside, rest])?;
    Ok(true)
}

/// Of a line that does not begin with a party's number, though one sees which it has, or that it begins with what a party does, behind which
/// the line goes on so. Whether it is so.
pub fn of_number(out: &mut Vec<u8>, at: Spot<'_>, begins: bool, behind: &[u8]) -> Told {
    let first: &[u8] = b"a party's number comes first";
    let number = number_in(at.word);
    let (second, rest) = cut_word(at.behind);
    if !number.is_empty() {
        put(out, b"a party's number is a word of its own", at, number)?;
    } else if begins && !is_no_number(second) {
        show(out, first, &[second, b" ", at.word, rest])?;
    } else if begins {
        show(out, first, &[b"1 ", at.word, behind])?;
    } else if !is_no_number(second) && !first_word(rest).is_empty() {
        show(out, first, &[second, rest])?;
    } else {
        return Ok(false);
    }
    Ok(true)
}

/// What is said of a line of a question.
pub const OF_QUESTION: &[u8] =
    b"such a line is a question's, which `sync-explore` reads; `let` is also one of a text that begins with `parties 2`";

/// Whether a line is one of a question.
pub fn is_of_question(at: Spot<'_>) -> bool {
    let verbs = b"set add sub if while last may aborts sleeps serves";
    has(b"let find never begin", at.word) || has(verbs, first_word(at.behind))
}

/// Of a line with this verb, whose words are no command of the object.
fn of_verb(out: &mut Vec<u8>, at: Spot<'_>) -> Added {
    let verb = nearest(verbs_of(at.object), at.word);
    let call = nearest_call(at.object, at.word);
    let (second, rest) = cut_word(at.behind);
    let goes_on = !is_no_number(second) && is_known(at.object, first_word(rest));
    let joins = goes_on || is_known(at.object, second) || has(b"and & && then ->", second);
    if of_method(out, at, false)? {
        Ok(())
    } else if has_mark(at.word, b",;") || is_known(at.object, at.word) && joins {
        let words = b"a line asks one thing, and a line of its own the next: $f$1";
        tell(out, at, words, &[front_of(at.word, b",;")])
    } else if is(at.word, b"run") && !is_no_number(second) {
        put(out, b"`run` has no number, but `go` has", at, b"go")
    } else if is_known(at.object, at.word) {
        out.extend_from_slice(numbers_after(at.object))
    } else if !call.is_empty() {
        mean(out, at, call)
    } else if !verb.is_empty() {
        mean(out, at, verb)
    } else {
        no_call(out, at)?;
        list_asked(out, b": ", at.object)
    }
}

/// Of a line whose words are no command of the object.
fn of_bad_line(out: &mut Vec<u8>, at: Spot<'_>) -> Added {
    if has_comment(at.line) {
        of_comment(out, at.line)
    } else if is_of_question(at) {
        out.extend_from_slice(OF_QUESTION)
    } else if !is_no_number(at.word) && !first_word(at.behind).is_empty() {
        of_verb(out, second_spot(at))
    } else if is_no_number(at.word) && of_number(out, at, is_known(at.object, at.word), b"")? {
        Ok(())
    } else {
        let words = b"a line begins with the number of a party, and then says what it does: ";
        list_asked(out, words, at.object)
    }
}

/// Whether a line asks for so many steps.
fn counts_steps(line: &[u8]) -> bool {
    let (verb, rest) = cut_word(cut_word(line).1);
    is(verb, b"go") && !first_word(rest).is_empty()
}

/// Whether a line answers `wait` at an object that has a call of this name in Rust, which a text begins by another.
fn means_to_begin(object: Object<()>, line: &[u8]) -> bool {
    is(first_word(cut_word(line).1), b"wait") && named(b"start_wait", calls_of(&object)).is_some()
}

/// Of a first line that names this object.
pub fn of_first_line(out: &mut Vec<u8>, object: Object<()>, line: &[u8]) -> Added {
    let name = first_word(line);
    if has_comment(line) {
        return of_comment(out, line);
    }
    let (noun, value) = (noun(object), first_value(object, name));
    let words = b"$1's first line has 1 to 64 parties, and $2: $w";
    let at = first_spot(object, b"", line);
    tell(out, at, words, &[noun, value])?;
    let parties = first_word(at.behind);
    if first_words(object).len() == 2 || number_within(1, 64, parties).is_err() {
        return out.extend_from_slice(first_words(object));
    }
    say(out, b" ", parties, b" ")?;
    let is_barrier = matches!(object, Object::Barrier(_));
    out.extend_from_slice(either(is_barrier, parties, b"0"))
}

/// Of a line that a party cannot do, of whichever object.
pub fn of_any_party(out: &mut Vec<u8>, line: &[u8], fault: LineFault) -> Added {
    out.extend_from_slice(match fault {
        LineFault::NoParty =>
            b"the parties are numbered from 1, and the first line says how many there are",
        LineFault::Busy => b"the party has a call under way: `go` and `run` move it on",
        LineFault::Holding => b"the party has a hold already: `unlock` gives it back",
        LineFault::NoHold => b"the party has no hold, and this call needs one",
        LineFault::Idle if counts_steps(line) => {
            b"the call ended before these steps, or none was under way: `run` goes to its end"
        }
        LineFault::Idle => {
            b"the party has no call under way, and begins one by its object's name and its own"
        }
        LineFault::Waiting => {
            b"the call waits at its closure, which answers `wait` or `abort`; an atomic's `some` and a value, or `none`"
        }
        LineFault::StepLimit => {
            b"in 100000 steps the call came to no end: another party may have to move first"
        }
        _ => b"no closure waits for this answer: `go` and `run` move a call on",
    })
}

/// Of a line after the first.
fn of_line(out: &mut Vec<u8>, object: Object<()>, line: &[u8], fault: LineFault) -> Added {
    match fault {
        LineFault::NoObject | LineFault::BadLine | LineFault::BadNumber => {
            of_bad_line(out, first_spot(object, b"", line))
        }
        LineFault::Idle if !counts_steps(line) => {
            let words = b"the party has no call under way, and begins one by its name: ";
            list_calls(out, words, object)
        }
        LineFault::NotWaiting if means_to_begin(object, line) => {
            out.extend_from_slice(b"to begin the call, write start_wait")
        }
        LineFault::Waiting => out.extend_from_slice(answers(object)),
        _ => of_any_party(out, line, fault),
    }
}

/// What is said of a question that begins with one object, and names another.
pub const ONE_OBJECT: &[u8] =
    b"a question about several objects begins with `parties 2`, and names each: let one mutex";

/// The object that has this name elsewhere. Empty where there is none.
pub fn object_elsewhere(name: &[u8]) -> &'static [u8] {
    if has(b"rwlock RwLock RWLock rw_lock shared_mutex", name) {
        b"rwwriter"
    } else if is(name, b"cv") {
        b"condvar"
    } else {
        b""
    }
}

/// Of the first line of a text or a question that names no object which it may be about.
pub fn no_object(out: &mut Vec<u8>, line: &[u8], what: &[u8], objects: &[u8]) -> Added {
    let at = first_spot(Object::Mutex, b"", line);
    let name = front_of(at.word, b"(<:;");
    let near = match object_elsewhere(name) {
        [] => nearest(objects, name),
        other => other,
    };
    let asks = is(what, b"a question");
    if line.starts_with(b"\xef\xbb\xbf") {
        out.extend_from_slice(b"the first line has a byte-order mark")
    } else if has_comment(line) {
        let words = b"$1 has no comments, and begins with its object";
        tell(out, at, words, &[what])
    } else if is_several(line) || is(at.word, b"let") && asks {
        out.extend_from_slice(ONE_OBJECT)
    } else if is(at.word, b"let") {
        out.extend_from_slice(b"a text that names its objects begins with `parties 2`")
    } else if !near.is_empty() {
        mean(out, at, near)
    } else {
        let words =
            b"$1 begins with its object: $2; of several objects with `parties 2`, of a lock of your own with `object futex`";
        tell(out, at, words, &[what, objects])
    }
}

/// Adds what would be right in the place of a line with this fault, of a text of this object.
pub fn advise(
    out: &mut Vec<u8>,
    object: Option<Object<()>>,
    line: &[u8],
    found: FaultyLine,
) -> Added {
    match object {
        None => no_object(out, line, b"a text", texts_objects()),
        Some(object) if found.line == 1 => of_first_line(out, object, line),
        Some(object) => of_line(out, object, line, found.fault),
    }
}
