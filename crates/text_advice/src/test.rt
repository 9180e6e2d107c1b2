//! What would be right where a party's line has a test, a wait for one, or a value.

use crate::changes::{names_atomic, no_change};
use crate::items::{begins_items, ends_item, next_token, numbers_behind};
use crate::looks::{looked_at, no_look, no_look_at};
use crate::objects::answers_of;
use crate::repeat::show_apart;
use crate::several::begins_several;
use crate::variables::{add_variables, has_variable, named, object_of};
use crate::words::{
    Added, Spot, bare, before, cut_word, either, first_word, front_of, has, has_mark, insert,
    is_no_number, is_odd_number, mean, no_number, none_here, parentheses, run_of, say, show, tell,
    tell_of,
};
use model_events::event::Object;
use text_lines::lexer::is;

/// The number after this one, or, where that is not asked, before it. Empty where it is above 9, or there is none.
fn beside(number: &[u8], after: bool) -> &[u8] {
    let mut rest = either(after, b"0 1 2 3 4 5 6 7 8 9 10", b"9 8 7 6 5 4 3 2 1 0");
    for _ in 0..10 {
        let (other, behind) = cut_word(rest);
        if is(other, number) {
            return first_word(behind);
        }
        rest = behind;
    }
    b""
}

/// The relation and the value of the contrary of a test. Empty where there are none.
pub fn contrary<'a>(relation: &[u8], value: &'a [u8]) -> (&'a [u8], &'a [u8]) {
    let up = is(relation, b">");
    let other = beside(value, up);
    match relation {
        b"=" | b"==" => (b" != ", value),
        b"!=" => (b" = ", value),
        b"<" | b">" if !other.is_empty() => (either(up, b" < ", b" > "), other),
        _ => (b"", b""),
    }
}

/// The variable, the relation and the value of a test, in parentheses or not, and what is left behind it.
fn test_in(words: &[u8]) -> (&[u8], &[u8], &[u8], &[u8]) {
    let (open, rest) = run_of(words, b"(", true);
    let (variable, rest) = run_of(rest, b" \t=!<>(),;", false);
    let (relation, rest) = run_of(rest, b"=!<>", true);
    let (value, rest) = run_of(rest, b" \t(),;", false);
    let (_, closed) = run_of(rest, b")", true);
    (
        variable,
        relation,
        value,
        either(open.is_empty(), rest, closed),
    )
}

/// Whether words are a test of a variable, as a guard or a wait has it elsewhere.
pub fn is_guard(at: Spot<'_>, words: &[u8]) -> bool {
    let (variable, relation, value, _) = test_in(words);
    let is_marked = is(relation, b"==") || has_mark(words, b"(") && !relation.is_empty();
    is_marked && !value.is_empty() && has_variable(at.question, variable)
}

/// What is said of guards.
pub const GUARDS: &[u8] =
    b"there are no guards: a test stands before its item, as `if x = 0 set x 1`";

/// What is said of a loop without end.
pub const ENDLESS: &[u8] = b"a loop without end, with a line `let on 1` before, is `while on = 1`";

/// What is said of a test.
const OF_TEST: &[u8] = b"a test is a variable, one of =, !=, <, >, and a value";

/// Of a line that ends in a test.
pub fn no_test(out: &mut Vec<u8>) -> Added {
    show(out, OF_TEST, &[b"if x = 0 .."])
}

/// Of an `else`, by the test before it.
pub fn no_else(out: &mut Vec<u8>, at: Spot<'_>) -> Added {
    let words = b"there is no `else`: a second test looks again, for the contrary";
    let (variable, relation, value, _) = test_in(cut_word(at.test).1);
    let (middle, end) = contrary(relation, value);
    if middle.is_empty() {
        return out.extend_from_slice(words);
    }
    let front = bare(before(at.line, at.left.len()));
    show(
        out,
        words,
        &[front, b", if ", variable, middle, end, at.behind],
    )
}

/// Of a wait until this test holds.
pub fn no_wait<'a>(out: &mut Vec<u8>, at: Spot<'a>, test: &'a [u8]) -> Added {
    let (variable, relation, value, rest) = test_in(test);
    let (middle, end) = contrary(relation, value);
    let sleeps = matches!(at.object, Object::Condvar) && !begins_several(at.question);
    let item = either(sleeps, b" start_wait", b" set idle 0");
    out.extend_from_slice(b"a wait for a variable is a loop")?;
    out.extend_from_slice(either(sleeps, b"", b", with a line `let idle 0` before"))?;
    if middle.is_empty() || variable.is_empty() {
        return say(out, b": while x = 0", item, b"");
    }
    let (joint, behind) = cut_word(rest);
    let joins = has(b"-> ; then", joint);
    let rest = either(joins, behind, rest);
    let gap = either(joins || begins_items(at, bare(first_word(rest))), b",", b"");
    let words = b": $fwhile $1$2$3$4$5$6";
    tell(out, at, words, &[variable, middle, end, item, gap, rest])
}

/// Of what is to hold where it stands.
pub fn no_assertion(out: &mut Vec<u8>, at: Spot<'_>) -> Added {
    let words =
        b"with a line `let bad 0` before, an item looks, and the last line asks `never bad 1`: ";
    let (test, behind) = parentheses(at.left);
    let closes = has_mark(at.word, b"(");
    let (variable, relation, value, rest) = test_in(either(closes, test, at.behind));
    let (middle, end) = contrary(relation, value);
    out.extend_from_slice(words)?;
    if middle.is_empty() || variable.is_empty() {
        return out.extend_from_slice(b"if x > 2 set bad 1");
    }
    let rest = either(closes, behind, rest);
    let words = b"$fif $1$2$3 set bad 1$4";
    tell(out, at, words, &[variable, middle, end, rest])
}

/// Of an `or` between two tests, of which the first is that of the item.
fn no_or(out: &mut Vec<u8>, at: Spot<'_>) -> Added {
    let words =
        b"a test has no `or`; with a line `let any 0` before there may stand: $1 set any 0, if$2 set any 1, if$3 set any 1, if any = 1$4";
    let front = before(at.line, at.item.len());
    let one = before(cut_word(at.item).1, at.left.len());
    let behind = cut_word(cut_word(cut_word(at.behind).1).1).1;
    let other = before(at.behind, behind.len());
    tell(out, at, words, &[front, one, other, behind])
}

/// What is said of a joint behind the test of a loop, where one of two is to hold, and where both are.
const OF_LOOPS: &[u8] =
    b"or || % a `while` has one test; two want a variable more, at first 1: while on = 1 ( set on 0, if x = 0 set on 1, if y = 0 set on 1, if on = 1 .. )
and & && then -> % a `while` has one test; two want a variable more, at first 1: while on = 1 ( set on 0, if x = 0 if y = 0 ( set on 1, .. ) )";

/// Of a word that joins items or tests elsewhere.
pub fn no_joint(out: &mut Vec<u8>, at: Spot<'_>) -> Added {
    let first = first_word(at.item);
    if is(at.word, b"else") {
        no_else(out, at)
    } else if is(at.word, b"then") {
        tell(out, at, b"a `then` stands behind `last` alone: $l$b", &[])
    } else if is(first, b"while") && tell_of(out, at, OF_LOOPS)? {
        Ok(())
    } else if is(first, b"if") && has(b"or ||", at.word) {
        no_or(out, at)
    } else if is(first, b"if") {
        let words = b"a test has no `and`, but its item may be a test: $fif$b";
        tell(out, at, words, &[])
    } else {
        tell(out, at, b"a comma parts two items: $l$b", &[])
    }
}

/// The variable that a test denies, and what comes behind it. Empty where it denies none.
fn denied<'a>(at: Spot<'a>) -> (&'a [u8], &'a [u8]) {
    if has(b"not !", at.word) {
        cut_word(at.behind)
    } else {
        (at.word.strip_prefix(b"!").unwrap_or(b""), at.behind)
    }
}

/// Adds that no variable has this name.
pub fn unknown_variable(out: &mut Vec<u8>, at: Spot<'_>) -> Added {
    let words = b"there is no variable `$w`: a line before names each, as `let x 0`";
    tell(out, at, words, &[])?;
    add_variables(out, at.question)
}

/// Of a word that is to name a variable, and names none.
pub fn no_variable(out: &mut Vec<u8>, at: Spot<'_>) -> Added {
    let (near, _) = named(at.question, at.word, true);
    let (first, answers) = (first_word(at.item), answers_of(at.object));
    let (name, rest) = denied(at);
    let denies = !name.is_empty();
    let call = front_of(either(denies, name, at.word), b"(");
    let behind = either(denies, rest, at.behind);
    let calls = numbers_behind(at, call).is_some() || names_atomic(at, call);
    let tests = calls && has(b"if while", first);
    if is(at.word, b"::") {
        out.extend_from_slice(GUARDS)
    } else if calls && has(b"set add sub", first) {
        no_change(out, at, at.item)
    } else if tests && !looked_at(at, call, behind, denies).answer.is_empty() {
        no_look_at(out, at, call, behind, denies)
    } else if object_of(at.question, at.word).is_some() {
        tell(out, at, b"`$w` is an object, and no variable", &[])
    } else if has_variable(at.question, name) {
        let words = b"a test compares with a value: $l $1 = 0$2";
        tell(out, at, words, &[name, rest])
    } else if at.word.starts_with(b"(") {
        let (test, rest) = parentheses(at.left);
        let words = b"no parentheses stand round a test";
        show_apart(
            out,
            words,
            &[before(at.line, at.left.len()), b" ", test, rest],
        )
    } else if is(first, b"while") && has(b"true 1", at.word) {
        tell(out, at, b"$1: $fon = 1$b", &[ENDLESS])
    } else if is(first, b"if") && (is(at.word, b"last") || has(answers, at.word)) {
        no_look(out, at)
    } else if !is_no_number(at.word) || ends_item(at.word) || begins_items(at, at.word) {
        tell(out, at, b"a variable stands here, and not `$w`", &[])?;
        add_variables(out, at.question)
    } else if has_variable(at.question, near) {
        mean(out, at, near)
    } else {
        unknown_variable(out, at)
    }
}

/// What is said of words that stand for a value.
const OF_VALUES: &[u8] = b"= := to by % no `$w` stands here: $l$b
, ) % a value is missing before `$w`
true yes % a value is a number or a variable: $f1$b
false no % a value is a number or a variable: $f0$b";

/// Of a word that is to be a number or a variable, and is neither.
pub fn no_value(out: &mut Vec<u8>, at: Spot<'_>) -> Added {
    let front = front_of(at.word, b":");
    let is_odd = is_odd_number(at.word);
    if is(at.word, b",") && !is_no_number(bare(first_word(at.behind))) {
        none_here(out, at)
    } else if tell_of(out, at, OF_VALUES)? {
        Ok(())
    } else if !is_no_number(front) {
        let words = b"a value is a number or a variable: $f$1$b";
        tell(out, at, words, &[front])
    } else if has(b"+= -= + -", at.word) || has_mark(at.word, b"+-") && !is_odd {
        no_change(out, at, at.item)
    } else if is_odd {
        no_number(out, at.word)
    } else {
        no_variable(out, at)
    }
}

/// What is said of words that stand for a relation.
const OF_RELATIONS: &[u8] = b"<> % a test has one of =, !=, <, >: $f!=$b
is equals eq % a test is a variable, one of =, !=, <, >, and a value: $f=$b";

/// Of a word that is to be a relation, and is none.
pub fn no_relation(out: &mut Vec<u8>, at: Spot<'_>) -> Added {
    let (value, rest) = cut_word(at.behind);
    let up = has(b"<= =<", at.word);
    let other = beside(value, up);
    if is(at.word, b"==") {
        show_apart(out, b"`=` is written once", &[at.line])
    } else if is(at.word, b"is") && is(value, b"not") {
        tell(out, at, b"$1: $f!=$2", &[OF_TEST, rest])
    } else if tell_of(out, at, OF_RELATIONS)? {
        Ok(())
    } else if has(b"<= >= => =<", at.word) {
        out.extend_from_slice(
            b"a test has one of =, !=, <, >, and `<= 3` is `< 4`, `>= 3` is `> 2`",
        )?;
        let line = either(other.is_empty(), b"", b": $l$1$2$3");
        tell(out, at, line, &[either(up, b" < ", b" > "), other, rest])
    } else {
        insert(
            out,
            OF_TEST,
            at,
            either(begins_items(at, at.word), b" = 1", b" ="),
        )
    }
}
