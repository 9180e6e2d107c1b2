//! What would be right where a party's line in a question has a fault: it is read up to the first word that cannot stand there.

use crate::calls::{call_meant, called, numbers_of, of_calls, of_objects};
use crate::changes::{names_atomic, no_change, operand};
use crate::closures::{show_closures, tells_of_closures};
use crate::looks::no_answer;
use crate::near::nearest;
use crate::objects::answers_of;
use crate::repeat::{lacks_blanks, show_apart};
use crate::sentence::{list_calls, no_call};
use crate::strangers::{COUNTED, no_act, of_stranger};
use crate::test::{
    is_guard, no_else, no_joint, no_relation, no_test, no_value, no_variable, no_wait,
};
use crate::variables::has_variable;
use crate::words::{
    Added, Spot, bare, before_left, before_word, cut, either, first_word, front_of, has, has_like,
    has_mark, insert, is_no_number, mean, no_number, none_here, second_spot, swap, tell,
};
use text_lines::lexer::{is, next_word};

/// What comes next in a party's line.
#[derive(Clone, Copy)]
enum Next {
    /// An item; the item behind a test.
    Item,
    Tested,
    /// The words of a test.
    Variable,
    Relation,
    Value,
    /// The words of an answer behind `last`, up to `then`.
    Answer,
    /// What follows `set`, `add` and `sub`.
    Changed,
    Amount,
    /// What follows a call.
    TwoNumbers,
    Number,
    /// A comma, or a closing parenthesis: an item has ended.
    Behind,
}

/// The words with which items begin that are no calls, and lines about closures.
const WORDS: &[u8] = b"if while last set add sub may aborts sleeps serves";

/// How many numbers follow a call of this name. `None` where there is none.
pub fn numbers_behind(at: Spot<'_>, word: &[u8]) -> Option<usize> {
    let (object, name) = called(at, word)?;
    numbers_of(object, name)
}

/// What follows a call of this name. `None` where there is none.
fn behind_call(at: Spot<'_>, word: &[u8]) -> Option<Next> {
    match numbers_behind(at, word)? {
        0 => Some(Next::Behind),
        1 => Some(Next::Number),
        _ => Some(Next::TwoNumbers),
    }
}

/// What follows the first word of an item. `None` where no item begins so.
fn behind_first(at: Spot<'_>, word: &[u8]) -> Option<Next> {
    if has(b"if while", word) {
        Some(Next::Variable)
    } else if is(word, b"last") {
        Some(Next::Answer)
    } else if has(b"set add sub", word) {
        Some(Next::Changed)
    } else if is(word, b"(") {
        Some(Next::Item)
    } else {
        behind_call(at, word)
    }
}

/// Whether an item begins with this word.
pub fn begins_item(at: Spot<'_>, word: &[u8]) -> bool {
    behind_first(at, word).is_some()
}

/// Whether a party's line may begin with this word.
pub fn begins_items(at: Spot<'_>, word: &[u8]) -> bool {
    begins_item(at, word) || tells_of_closures(word)
}

/// Whether an item ends before this word.
pub fn ends_item(word: &[u8]) -> bool {
    is(word, b",") || is(word, b")")
}

/// This, where something is so.
fn only(so: bool, next: Next) -> Option<Next> {
    if so { Some(next) } else { None }
}

/// Whether a word stands in an answer: of the object that it names before a dot, or of any, where there are several.
fn is_of_answer(at: Spot<'_>, word: &[u8]) -> bool {
    match called(at, word) {
        Some((object, answer)) => has_like(answers_of(object), answer),
        None => has_like(
            b"success interrupted held done ok full err true false 7",
            word,
        ),
    }
}

/// What follows a word of an answer, or `then`.
fn behind_answer(at: Spot<'_>, word: &[u8]) -> Option<Next> {
    if is(word, b"then") {
        Some(Next::Tested)
    } else {
        only(is_of_answer(at, word), Next::Answer)
    }
}

/// What follows a word, if it can stand here, behind so many parentheses that are open.
fn behind(at: Spot<'_>, next: Next, open: usize) -> Option<Next> {
    let word = at.word;
    match next {
        Next::Item | Next::Tested => behind_first(at, word),
        Next::Variable => only(has_variable(at.question, word), Next::Relation),
        Next::Relation => only(has(b"= != < >", word), Next::Value),
        Next::Value => {
            only(
                !is_no_number(word) || has_variable(at.question, word),
                Next::Tested,
            )
        }
        Next::Answer => behind_answer(at, word),
        Next::Changed => only(has_variable(at.question, word), Next::Amount),
        Next::Amount => {
            only(
                !is_no_number(word) || has_variable(at.question, word),
                Next::Behind,
            )
        }
        Next::TwoNumbers => only(!is_no_number(word), Next::Number),
        Next::Number => only(!is_no_number(word), Next::Behind),
        Next::Behind => {
            if is(word, b",") {
                Some(Next::Item)
            } else {
                only(is(word, b")") && open > 0, Next::Behind)
            }
        }
    }
}

/// The next word, and what is left behind it. A comma at the end of a word is a word of its own.
pub fn next_token(left: &[u8]) -> Option<(&[u8], &[u8])> {
    let (word, behind) = next_word(left)?;
    match word.split_last() {
        Some((b',', front)) if !front.is_empty() => {
            let comma = left.len().saturating_sub(behind.len()).saturating_sub(1);
            Some((front, &left[comma..]))
        }
        _ => Some((word, behind)),
    }
}

/// What is said of an item that is missing before a parenthesis, or the line's end.
const NO_ITEM: &[u8] =
    b"an item is missing; with a line `let idle 0` before, `set idle 0` does nothing";

/// Of a word that is to begin an item, and begins none.
fn no_item(out: &mut Vec<u8>, at: Spot<'_>) -> Added {
    let near = nearest(WORDS, at.word);
    let is_bullet = has(b"- *", at.word) && begins_items(at, bare(first_word(at.behind)));
    if is(at.word, b",") || is_bullet {
        none_here(out, at)
    } else if is(at.word, b")") {
        insert(out, NO_ITEM, at, b" set idle 0")
    } else if tells_of_closures(at.left) {
        show_closures(out, first_word(at.line), at.left)
    } else if has(b"and & && or || then else ->", at.word) {
        no_joint(out, at)
    } else if !is_no_number(at.word) && !is(first_word(at.behind), b"times") {
        other_party(out, at)
    } else if is_guard(at, at.left) {
        no_wait(out, at, at.left)
    } else if has_variable(at.question, operand(at.left).0) || names_atomic(at, at.left) {
        no_change(out, at, at.left)
    } else if of_stranger(out, at)? {
        Ok(())
    } else if tells_of_closures(near) && has_mark(before_word(at), b",") {
        show_closures(out, first_word(at.line), near)
    } else if of_calls(out, at, true)? {
        Ok(())
    } else if !near.is_empty() {
        mean(out, at, near)
    } else if of_objects(out, at)? {
        Ok(())
    } else {
        no_call(out, at)?;
        let words =
            b"; items begin with if, while, last, set, add, sub, a parenthesis, or a call: ";
        list_calls(out, words, at.object)
    }
}

/// Of a number where a party's line goes on, as if another party's began.
fn other_party(out: &mut Vec<u8>, at: Spot<'_>) -> Added {
    let words = b"each party has a line of its own: $1";
    tell(out, at, words, &[bare(before_left(at))])
}

/// Of a word that is to be a number of a call, and is none.
fn no_number_of_call(out: &mut Vec<u8>, at: Spot<'_>, numbers: &[u8]) -> Added {
    if (is(at.word, b",") || has(b"= :=", at.word)) && !is_no_number(bare(first_word(at.behind))) {
        none_here(out, at)
    } else if at.word.is_empty() || ends_item(at.word) {
        insert(out, b"a number is missing behind the call", at, numbers)
    } else {
        no_number(out, at.word)
    }
}

/// Of a word behind an item that is no comma.
fn no_comma(out: &mut Vec<u8>, at: Spot<'_>) -> Added {
    if is(at.word, b")") {
        swap(out, b"no parenthesis is open here", at, b"")
    } else if !is_no_number(at.word) && begins_items(at, bare(first_word(at.behind))) {
        other_party(out, at)
    } else if is(first_word(at.behind), b"times") {
        out.extend_from_slice(COUNTED)
    } else if !is_no_number(at.word) {
        swap(out, b"no number follows here", at, b"")
    } else if has(b"SeqCst Relaxed Acquire Release AcqRel", cut(at.word).0)
        || at.word.starts_with(b"Ordering")
    {
        let words = b"no ordering is said: all steps are sequentially consistent: $l$b";
        tell(out, at, words, &[])
    } else if is(at.word, b"else") {
        no_else(out, at)
    } else if has(b"and then & && ->", at.word) {
        swap(out, b"a comma parts two items", at, b",")
    } else if has(b"+ -", at.word) && has(b"set add sub", first_word(at.item)) {
        no_change(out, at, at.item)
    } else if begins_items(at, at.word)
        || !nearest(WORDS, at.word).is_empty()
        || call_meant(at, at.left).is_some()
    {
        insert(out, b"a comma parts two items", at, b",")
    } else {
        let words = b"behind an item comes a comma or a closing parenthesis, and not `$w`";
        tell(out, at, words, &[])
    }
}

/// Words that are looked at with what stands in their parentheses.
const SPEAKS: &[u8] = b"assert assert! sleep usleep sleep_for thread::sleep";

/// Whether a word is several, but for a change of a variable as other languages write it, and a test in parentheses.
fn is_glued(at: Spot<'_>, next: Next) -> bool {
    let speaks = match next {
        Next::Item | Next::Tested => {
            has_variable(at.question, operand(at.word).0)
                || has(SPEAKS, front_of(at.word, b"("))
                || is_guard(at, at.left)
        }
        Next::Variable => {
            at.word.starts_with(b"(")
                || at.word.starts_with(b"!")
                || behind_call(at, front_of(at.word, b"(")).is_some()
        }
        Next::Amount => has_mark(at.word, b"+-"),
        _ => false,
    };
    !speaks && !is(at.word, b"->") && lacks_blanks(at.word)
}

/// Of a word that cannot stand here.
fn no_word(out: &mut Vec<u8>, at: Spot<'_>, next: Next) -> Added {
    if matches!(next, Next::Item | Next::Tested) && of_calls(out, at, false)? {
        return Ok(());
    }
    if is(front_of(at.word, b";,"), b"{}") {
        let tests = matches!(next, Next::Relation);
        let item = either(tests, b" = 1 set idle 0", b" set idle 0");
        return swap(out, NO_ITEM, at, item);
    }
    if is_glued(at, next) {
        let words =
            b"a comma and a blank part items, and blanks stand round parentheses and relations";
        return show_apart(out, words, &[at.line]);
    }
    let idles = has(b"wait sleep yield spin", at.word) && call_meant(at, at.left).is_none();
    match next {
        Next::Tested if idles => no_act(out, at),
        Next::Item | Next::Tested => no_item(out, at),
        Next::Variable | Next::Changed => no_variable(out, at),
        Next::Relation => no_relation(out, at),
        Next::Value | Next::Amount => no_value(out, at),
        Next::Answer => no_answer(out, at),
        Next::TwoNumbers => no_number_of_call(out, at, b" 0 1"),
        Next::Number => no_number_of_call(out, at, b" 1"),
        Next::Behind => no_comma(out, at),
    }
}

/// Adds so many closing parentheses.
fn close(out: &mut Vec<u8>, open: usize) -> Added {
    for _ in 0..open {
        out.extend_from_slice(b" )")?;
    }
    Ok(())
}

/// Of a line that ends where this comes next.
fn no_more(out: &mut Vec<u8>, at: Spot<'_>, next: Next, open: usize) -> Added {
    match next {
        Next::Item => out.extend_from_slice(b"an item is missing at the end of the line"),
        Next::Tested => insert(out, NO_ITEM, at, b" set idle 0"),
        Next::Variable | Next::Relation | Next::Value => no_test(out),
        Next::Answer => {
            let words = b"behind `last` stand an answer ($1), `then`, and an item";
            tell(out, at, words, &[answers_of(at.object)])
        }
        Next::Changed | Next::Amount => {
            out.extend_from_slice(b"a variable and a value follow `set`, `add` and `sub`: set x 1")
        }
        Next::TwoNumbers | Next::Number => no_word(out, at, next),
        Next::Behind if open > 0 => {
            let words = b"a parenthesis is not closed; where the line's end closes it: $1";
            tell(out, at, words, &[at.line])?;
            close(out, open)
        }
        Next::Behind => out.extend_from_slice(
            b"`last` looks at a call of the party that comes before it",
        ),
    }
}

/// How many parentheses are open behind a word.
fn open_behind(open: usize, word: &[u8]) -> usize {
    if is(word, b"(") {
        open.saturating_add(1)
    } else if is(word, b")") {
        open.saturating_sub(1)
    } else {
        open
    }
}

/// Of a party's line, which is read from here on.
pub fn of_items(out: &mut Vec<u8>, line: Spot<'_>) -> Added {
    let mut at = line;
    let mut next = Next::Item;
    let mut open = 0;
    for _ in 0..line.line.len() {
        let Some((word, rest)) = next_token(at.behind) else {
            break;
        };
        at = Spot {
            word,
            behind: rest,
            ..second_spot(at)
        };
        let Some(then) = behind(at, next, open) else {
            return no_word(out, at, next);
        };
        if matches!(next, Next::Item | Next::Tested) {
            at.item = at.left;
            if matches!(then, Next::Variable | Next::Answer) {
                at.test = at.left;
            }
        }
        next = then;
        open = open_behind(open, word);
    }
    let end = Spot {
        left: b"",
        word: b"",
        behind: b"",
        ..at
    };
    no_more(out, end, next, open)
}
