//! What would be right where a party's line looks at the answer of a call.

use crate::calls::called;
use crate::changes::names_atomic;
use crate::items::{begins_item, numbers_behind};
use crate::near::nearest;
use crate::objects::answers_of;
use crate::words::{
    Added, Spot, before, cut_word, either, first_word, has, has_mark, insert, mean, none_here,
    repeat_all, run_of, show, tell,
};
use model_events::event::Object;
use text_lines::lexer::is;

/// Of an answer of a call, or `last`, in a test of variables.
pub fn no_look(out: &mut Vec<u8>, at: Spot<'_>) -> Added {
    let rest = either(is(at.word, b"last"), at.behind, at.left);
    let (answer, rest) = cut_word(run_of(rest, b"=", true).1);
    let (then, behind) = cut_word(rest);
    let rest = either(is(then, b"then"), behind, rest);
    let words = b"`last` looks at an answer: $1 last $2 then$3";
    let front = before(at.line, at.item.len());
    tell(out, at, words, &[front, answer, rest])
}

/// The answer of this call that came in, or, where that is denied, of one that did not. Empty where there is none.
fn answer_of<'a>(at: Spot<'a>, call: &'a [u8], denies: bool) -> &'a [u8] {
    match called(at, call) {
        Some((Object::Once, _)) => either(denies, b"false", b"true"),
        Some((object, _)) if has(answers_of(object), b"success") => {
            either(denies, b"interrupted", b"success")
        }
        _ => b"",
    }
}

/// A look at the answer of a call, in the place of a test: what the call has behind its name, the answer, whether it is denied, and what is left.
#[derive(Clone, Copy)]
pub struct Looked<'a> {
    numbers: &'a [u8],
    /// Of an exchange that came in the word before the answer.
    ok: &'a [u8],
    pub answer: &'a [u8],
    denies: bool,
    rest: &'a [u8],
}

/// How a call is looked at that is left with what comes behind it.
pub fn looked_at<'a>(at: Spot<'a>, call: &'a [u8], rest: &'a [u8], denies: bool) -> Looked<'a> {
    let rest = rest.strip_prefix(b",").unwrap_or(rest);
    let exchanges = numbers_behind(at, call) == Some(2);
    let (first, behind) = cut_word(rest);
    let after = either(exchanges, cut_word(behind).1, rest);
    let (joint, behind) = cut_word(after);
    let fails = has(b"fails failed err is_err", joint);
    let compares = has(b"= == is !=", joint);
    let (compared, more) = cut_word(behind);
    let rest_behind = either(compares, more, behind);
    let (then, tested) = cut_word(rest_behind);
    let told = either(is(then, b"then"), tested, rest_behind);
    let answer = either(compares, compared, answer_of(at, call, false));
    Looked {
        numbers: before(rest, after.len()),
        ok: either(exchanges, b"ok ", b""),
        answer: either(exchanges, first, answer),
        denies: denies || fails || is(joint, b"!="),
        rest: either(
            compares || fails || has(b"then succeeds", joint),
            told,
            after,
        ),
    }
}

/// The first item of those that are left, and what is left behind it.
fn first_item(left: &[u8]) -> (&[u8], &[u8]) {
    if is(first_word(left), b"(") {
        (left, b"")
    } else {
        run_of(left, b",", false)
    }
}

/// Of a call in the place of a test, or of one that is denied, and what is left behind it.
pub fn no_look_at<'a>(
    out: &mut Vec<u8>,
    at: Spot<'a>,
    call: &'a [u8],
    rest: &'a [u8],
    denies: bool,
) -> Added {
    let Looked {
        numbers,
        ok,
        answer,
        denies,
        rest,
    } = looked_at(at, call, rest, denies);
    let loops = is(first_word(at.item), b"while");
    let other = answer_of(at, call, true);
    let front = before(at.line, at.item.len());
    let (item, behind) = first_item(rest);
    let none = item.is_empty();
    let loads = names_atomic(at, call) && !has_mark(call, b".");
    let comma = either(loads, b".load, last ", b", last ");
    let words: &[u8] = b"a test looks at variables, and `last` at the answer of a call before it";
    if !loops && (!denies || !other.is_empty() && ok.is_empty()) {
        let answer = either(denies, other, answer);
        let rest = either(rest.is_empty(), b" ..", rest);
        let parts = [
            front, b" ", call, numbers, comma, ok, answer, b" then", rest,
        ];
        return show(out, words, &parts);
    }
    let (begin, end, close): (&[u8], &[u8], &[u8]) = match (loops, denies) {
        (true, true) => (b" while on = 1 ( ", b" then set on 0", b" )"),
        (true, false) if none => (b" while on = 1 ( set on 0, ", b" then set on 1", b" )"),
        (true, false) => (
            b" while on = 1 ( set on 0, ",
            b" then ( set on 1, ",
            b" ) )",
        ),
        _ => (b" set on 1, ", b" then set on 0", b""),
    };
    let on = either(denies && !none, b", if on = 1 ", b"");
    let more = b"$1, with a line `let on 1` before: $2$3$4$5$6";
    tell(out, at, more, &[words, front, begin, call, numbers, comma])?;
    repeat_all(out, &[ok, answer, end, on, item, close, behind])
}

/// Of a word that is to be an answer, and is none of the object.
pub fn no_answer(out: &mut Vec<u8>, at: Spot<'_>) -> Added {
    let near = nearest(answers_of(at.object), at.word);
    if has(b"= ==", at.word) {
        none_here(out, at)
    } else if is(at.word, b",") {
        tell(out, at, b"behind an answer stands `then`: $l then$b", &[])
    } else if is(at.word, b")") || begins_item(at, at.word) {
        insert(out, b"behind an answer stands `then`", at, b" then")
    } else if !near.is_empty() {
        mean(out, at, near)
    } else {
        let words = b"no call answers `$w` here; the answers are $1";
        tell(out, at, words, &[answers_of(at.object)])
    }
}
