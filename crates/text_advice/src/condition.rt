//! What would be right where a question asks for a moment that is none of its object.

use crate::calls::called;
use crate::near::nearest;
use crate::objects::{noun, terms_of};
use crate::repeat::repeat;
use crate::several::begins_several;
use crate::variables::{add_names, add_variables, given, has_variable, named, object_of};
use crate::words::{
    Added, Spot, Told, before_left, before_word, cut, cut_word, either, first_word, front_of, has,
    has_like, has_mark, insert, is_no_number, is_odd_number, mean, no_number, none_here, number_in,
    put, run_of, say, second_spot, show, swap, tell, tell_of,
};
use text_lines::lexer::{is, next_line};

/// The terms that every object has.
const OF_ALL: &[u8] = b"1 for ever, 1 stuck, stuck, ends";

/// Whether a word stands in a term of the object, or, where there are several, of any of them, or of one that it names.
fn is_of_object(at: Spot<'_>) -> bool {
    match called(at, at.word) {
        Some((object, word)) => has_like(terms_of(object), word),
        None => has(
            b"success interrupted held done aborted waits holds sleeps ok full err true false",
            at.word,
        ),
    }
}

/// Whether a word stands in a term of the object, or of a variable.
fn is_of_term(at: Spot<'_>) -> bool {
    is_of_object(at)
        || has(OF_ALL, at.word)
        || has(b"and race", at.word)
        || !is_no_number(at.word)
        || has_variable(at.question, at.word)
}

/// Adds the terms of the object, or of several.
fn list_terms(out: &mut Vec<u8>, at: Spot<'_>) -> Added {
    if begins_several(at.question) {
        let words =
            b"a term about an object names it, as 1 holds one.write, one.word 1, 1 one.success, 1 items.waits; others are $1";
        tell(out, at, words, &[OF_ALL])?;
        return add_names(out, at.question, b", x 0, race x; the names are ");
    }
    let (noun, terms) = (noun(at.object), terms_of(at.object));
    let words = b"$1's terms are $2, $3; a variable's are x 0, race x";
    tell(out, at, words, &[noun, terms, OF_ALL])?;
    add_variables(out, at.question)
}

/// Words elsewhere, the term for which they stand, and a word of it that the terms of an object have.
const ELSEWHERE: &[(&[u8], &[u8], &[u8])] = &[
    (
        b"fails failed fail refused error timeout times gives",
        b"interrupted",
        b"interrupted",
    ),
    (b"read reads reading", b"holds read", b"read"),
    (
        b"write writes writing locks locked owns has",
        b"holds write",
        b"write",
    ),
    (
        b"unlocks unlocked released returns returned finished",
        b"done",
        b"done",
    ),
    (b"asleep sleeping", b"sleeps for ever", b"sleeps"),
    (b"waiting blocks", b"waits", b"waits"),
];

/// Of a word for which a term of the object stands. Whether it is one.
fn of_elsewhere(out: &mut Vec<u8>, at: Spot<'_>, last: &[u8]) -> Told {
    for (words, term, key) in ELSEWHERE {
        if has(words, at.word) && has(terms_of(at.object), key) {
            mean_term(out, at, last, term)?;
            return Ok(true);
        }
    }
    Ok(false)
}

/// Adds that a word stands for this term, of party 1 where the word before names none, and how the line should be.
fn mean_term(out: &mut Vec<u8>, at: Spot<'_>, last: &[u8], term: &[u8]) -> Added {
    let (next, rest) = cut_word(at.behind);
    let behind = either(has(b"up out lock mutex", next), rest, at.behind);
    let party = either(is_no_number(last), b"1 ", b"");
    let words = b"there is no `$w`, but `$1`: $f$2$1$3";
    tell(out, at, words, &[term, party, behind])
}

/// Of several parties at once.
fn of_both(out: &mut Vec<u8>, at: Spot<'_>) -> Added {
    let near = nearest(OF_PARTIES, first_word(at.behind));
    if !near.is_empty() {
        let words = b"a term is about one party: $f1 $1 and 2 $1";
        return tell(out, at, words, &[near]);
    }
    tell(out, at, b"a term is about one party: $f1 holds", &[])?;
    add_hold(out, at, b"")?;
    out.extend_from_slice(b" and 2 holds")?;
    add_hold(out, at, b"")
}

/// Words that part terms of which one holds.
const OR: &[u8] = b"or || \\/";

/// Whether some of these words is one of those.
fn has_word(words: &[u8], list: &[u8]) -> bool {
    let mut rest = words;
    for _ in 0..words.len() {
        let (word, behind) = cut_word(rest);
        if has(list, word) {
            return true;
        }
        rest = behind;
    }
    false
}

/// Of `never` behind a party: what it never does, or that the condition begins with it.
fn of_never(out: &mut Vec<u8>, at: Spot<'_>) -> Added {
    let (next, rest) = cut_word(at.behind);
    let front = before_word(at);
    if has(b"ends end terminates stops finishes", next) {
        show(out, b"who never ends is `stuck`", &[front, b"stuck", rest])
    } else if has(OF_PARTIES, next) || has(b"holds sleeps", next) {
        let (_, party) = cut_word(front);
        show(out, b"`never` comes first", &[b"never", party, next, rest])
    } else {
        let words = b"what never comes is `for ever`";
        show(out, words, &[front, b"for ever"])
    }
}

/// What is said of a word alone.
const ALONE: &[u8] =
    b"party thread process is equals on the data variable % no `$w` stands here: $l$b
& && /\\ % `and` joins terms: $fand$b
deadlock deadlocked hang hangs blocked % the term is `stuck`: $fstuck$b
livelock starvation starves starved fairness % no term asks whether a call will end: `stuck` asks whether it no longer can
forever % there is no `forever`, but `for ever`: $ffor ever$b";

/// Of a relation behind this word. Whether there is one.
fn of_relation(out: &mut Vec<u8>, at: Spot<'_>, last: &[u8]) -> Told {
    let (name, value) = run_of(at.word, b"=", false);
    let (next, rest) = cut_word(at.behind);
    let first = first_word(at.line);
    let is_variable = has_variable(at.question, last);
    if has(b"= ==", at.word) && has(ENDS_OF_TERMS, last) && is_variable {
        let words = b"no party stands before a variable: $1 $2 $3$4";
        tell(out, at, words, &[first, last, next, rest])?;
    } else if has(b"= ==", at.word) && has(ENDS_OF_TERMS, last) {
        tell(out, at, b"behind `$1` comes no number: $l$2", &[last, rest])?;
    } else if has(b"= ==", at.word) {
        tell(out, at, b"a condition has no `=`: $l", &[])?;
        add_terms(out, at, at.behind, last)?;
    } else if !value.is_empty() && !has_mark(at.word, b"!<>") {
        let (_, value) = run_of(value, b"=", true);
        let words = b"a condition has no `=`: $f$1 $2$b";
        tell(out, at, words, &[name, value])?;
    } else if has_mark(at.word, b"=!<>") && is_variable && has_word(at.line, b"ends") {
        let words =
            b"a condition has no relation: ask of each value in a question of its own, as `$2 ends and $1 1`";
        tell(out, at, words, &[last, first])?;
    } else if has_mark(at.word, b"=!<>") && is_variable {
        let words =
            b"a condition has no relation: with a line `let bad 0` before, an item looks, as `if $1 $w $2 set bad 1`: $3 bad 1";
        tell(out, at, words, &[last, next, first])?;
    } else if has_mark(at.word, b"=!<>") {
        out.extend_from_slice(
            b"a condition has no relation: an item looks, as `if x > 2 set bad 1`, and `find bad 1` asks for that",
        )?;
    } else {
        return Ok(false);
    }
    Ok(true)
}

/// Of a word for which a question has another, behind this one. Whether it is one.
fn of_stranger(out: &mut Vec<u8>, at: Spot<'_>, last: &[u8]) -> Told {
    let (_, value) = run_of(at.word, b"=", false);
    let holds = has(terms_of(at.object), b"holds");
    let returns = has(b"returns gets answers", at.word);
    if has(b"not ~", at.word) || at.word.starts_with(b"!") && value.is_empty() {
        out.extend_from_slice(
            b"a condition has no `not`, and says what holds: `never` asks if it cannot",
        )?;
    } else if has_word(at.left, OR) {
        out.extend_from_slice(b"a condition has no `or`: ask of each in a question of its own")?;
    } else if of_relation(out, at, last)? {} else if returns
        && has(OF_PARTIES, first_word(at.behind))
    {
        none_here(out, at)?;
    } else if is(at.word, b"two") && has_variable(at.question, last) {
        tell(out, at, b"a number has digits alone: $f2$b", &[])?;
    } else if has(b"both two", at.word) && holds {
        of_both(out, at)?;
    } else if is(at.word, b"never") && !is_no_number(last) {
        of_never(out, at)?;
    } else if tell_of(out, at, ALONE)? {} else if has_mark(at.word, b"()") {
        out.extend_from_slice(b"a condition has no parentheses: `and` joins its terms")?;
    } else if at.word.ends_with(b";") || at.word.ends_with(b".") {
        put(out, b"no mark ends a line", at, front_of(at.word, b";."))?;
    } else if has_mark(at.word, b",") {
        let word = front_of(at.word, b",");
        tell(out, at, b"`and` joins terms: $f$1 and$b", &[word])?;
    } else if has(b"holds both two", at.word) {
        let words =
            b"$1 has no holds: count who is inside, by `add in 1` and `sub in 1`, and ask of that: in 2";
        tell(out, at, words, &[noun(at.object)])?;
    } else {
        return of_elsewhere(out, at, last);
    }
    Ok(true)
}

/// Of a word with an object's name, where there are several, or a name that no object has. Whether it is one.
fn of_dotted(out: &mut Vec<u8>, at: Spot<'_>) -> Told {
    let (name, own) = cut(at.word);
    let Some(object) = object_of(at.question, name) else {
        if own.is_empty() || !begins_several(at.question) {
            return Ok(false);
        }
        say(out, b"there is no object `", name, b"`")?;
        add_names(out, at.question, b"; the names are ")?;
        return Ok(true);
    };
    let (next, rest) = cut_word(at.behind);
    let near = nearest(terms_of(object), own);
    if own.is_empty() && has(terms_of(object), next) {
        let words = b"an object's name stands before a dot: $f1 $1.$2$3";
        tell(out, at, words, &[name, next, rest])?;
    } else if !near.is_empty() {
        say(out, b"there is no `", own, b"`, but `")?;
        out.extend_from_slice(near)?;
        tell(out, at, b"`: $f$1.", &[name])?;
        say(out, near, at.behind, b"")?;
    } else {
        let words = b"no term has `$w`: $1's terms are $2";
        tell(out, at, words, &[noun(object), terms_of(object)])?;
    }
    Ok(true)
}

/// Of a word that stands in no term.
fn no_term(out: &mut Vec<u8>, at: Spot<'_>) -> Added {
    let (variable, _) = named(at.question, at.word, true);
    let term = nearest(terms_of(at.object), at.word);
    let of_all = nearest(b"for ever stuck ends race", at.word);
    let number = number_in(at.word);
    if !number.is_empty() {
        put(out, b"a party's number is a word of its own", at, number)
    } else if is_odd_number(at.word) {
        no_number(out, at.word)
    } else if of_dotted(out, at)? {
        Ok(())
    } else if has_variable(at.question, variable) {
        mean(out, at, variable)
    } else if !term.is_empty() {
        mean(out, at, term)
    } else if !of_all.is_empty() {
        mean(out, at, of_all)
    } else {
        say(out, b"no term has `", at.word, b"`: ")?;
        list_terms(out, at)
    }
}

/// The first object of a question that a party may hold, or else the first.
fn name_of_lock(question: &[u8], holds: bool) -> &[u8] {
    let mut rest = question;
    let mut first: &[u8] = b"";
    for _ in 0..question.len() {
        let Some((line, after)) = next_line(rest) else {
            break;
        };
        rest = after;
        let (name, _) = given(line);
        if let Some(object) = object_of(question, name) {
            if !holds || has(terms_of(object), b"holds") {
                return name;
            }
            first = name;
        }
    }
    first
}

/// Of a hold or a word of an object, of several, that names none. Whether it is one.
fn of_nameless(out: &mut Vec<u8>, at: Spot<'_>, last: &[u8]) -> Told {
    if !begins_several(at.question) {
        return Ok(false);
    }
    let front = before_word(at);
    let (next, after) = cut_word(at.behind);
    let has_hold = has(b"read write", at.word);
    let is_hold = is(last, b"holds") && (has_hold || at.word.is_empty() || is(at.word, b"and"));
    let is_object = object_of(at.question, at.word).is_some();
    let lock = name_of_lock(at.question, true);
    let words = b"where there are several objects, a hold names its own";
    if is_hold {
        let line = either(has_hold, b"$1: $f$2.$w$b", b"$1: $l $2.write$r");
        tell(out, at, line, &[words, lock])?;
    } else if is_object && is(last, b"holds") {
        out.extend_from_slice(b"a hold is `read` or `write`: ")?;
        repeat(out, before_left(at))?;
        add_terms(out, at, at.left, last)?;
    } else if is(own_word(at, at.word), b"holds") && has_mark(at.word, b".") {
        let kind = either(is(next, b"read"), b".read", b".write");
        let rest = either(has(b"read write", next), after, at.behind);
        show(out, words, &[front, b"holds ", cut(at.word).0, kind, rest])?;
    } else if object_of(at.question, next).is_some() && has(b"has owns locks", at.word) {
        let words = b"a hold is `read` or `write`: $fholds $1.write$2";
        tell(out, at, words, &[next, after])?;
    } else if is_object && !is_no_number(next) {
        let words = b"a word of the object holds a number: $f$w.word$b";
        tell(out, at, words, &[])?;
    } else if is(last, b"and") && has(b"word counter waiters value", at.word) {
        let name = name_of_lock(at.question, false);
        let words = b"where there are several objects, a word names its own: $f$1.$w$b";
        tell(out, at, words, &[name])?;
    } else {
        return Ok(false);
    }
    Ok(true)
}

/// Words with which terms end, and none goes on behind.
const ENDS_OF_TERMS: &[u8] =
    b"success interrupted done aborted waits read write ever stuck ends held";

/// The terms of a party that are one word.
const OF_PARTIES: &[u8] = b"success interrupted done aborted waits stuck full true false";

/// Whether a term has ended before this word.
fn ends_term(word: &[u8]) -> bool {
    is(word, b"and") || word.is_empty()
}

/// Of the first word of a term, where it should be the second. Whether it is so.
fn of_order(out: &mut Vec<u8>, at: Spot<'_>) -> Told {
    let (second, rest) = cut_word(at.behind);
    let is_party = has(OF_PARTIES, at.word) && !is_no_number(second);
    let is_race = has_variable(at.question, at.word) && is(second, b"race");
    let turned = (is_party || is_race) && ends_term(first_word(rest));
    if turned {
        let words = b"these words stand the other way round";
        show(out, words, &[before_word(at), second, b" ", at.word, rest])?;
    }
    Ok(turned)
}

/// Of `for ever` behind a term of a party, which it is itself: before the word behind that term.
fn of_ever(out: &mut Vec<u8>, term: Spot<'_>) -> Added {
    let (word, rest) = cut_word(term.behind);
    let rest = either(is(word, b"for"), cut_word(rest).1, rest);
    let words = b"`for ever` is a term by itself: $ffor ever$1";
    tell(out, term, words, &[rest])
}

/// Of the object of this name behind a term of a party, before the words behind that: its name stands before, if the term may name one.
fn of_place(out: &mut Vec<u8>, term: Spot<'_>, last: &[u8], name: &[u8], rest: &[u8]) -> Added {
    let front = before_word(term);
    if has(b"sleeps stuck ever", last) || object_of(term.question, name).is_none() {
        let ever = either(is(last, b"sleeps"), b" for ever", b"");
        let words = b"the term names no object";
        show(out, words, &[front, term.word, ever, rest])
    } else {
        let words = b"an object's name stands before a dot";
        show(out, words, &[front, name, b".", term.word, rest])
    }
}

/// What is wanted between a word and the next. Empty where that may stand there.
fn between(at: Spot<'_>, last: &[u8]) -> &'static [u8] {
    let ends = ends_term(at.word);
    if is(last, b"holds") && ends {
        b" write"
    } else if has(ENDS_OF_TERMS, last)
        && (!is_no_number(at.word) || has_variable(at.question, at.word))
    {
        b" and"
    } else if is(last, b"sleeps") && !has(b"for forever", at.word) {
        b" for ever"
    } else if is(last, b"race") && ends {
        b" x"
    } else if ends && is_no_number(last) && has_variable(at.question, last) {
        either(is(first_word(at.line), b"never"), b" 1", b" 0")
    } else if is(last, b"and")
        && has(
            b"success interrupted done aborted waits holds ok full true false",
            own_word(at, at.word),
        )
    {
        b" 1"
    } else {
        b""
    }
}

/// Adds of which kind a hold is, of the object of this name, or of one.
fn add_hold(out: &mut Vec<u8>, at: Spot<'_>, name: &[u8]) -> Added {
    if !begins_several(at.question) {
        return out.extend_from_slice(b" write");
    }
    let named = object_of(at.question, name).is_some();
    let lock = either(named, name, name_of_lock(at.question, true));
    say(out, b" ", lock, b".write")
}

/// Adds what is left of a condition behind this word, with its joints and its holds as a question has them.
fn add_terms<'a>(out: &mut Vec<u8>, at: Spot<'_>, left: &'a [u8], last: &'a [u8]) -> Added {
    let (mut left, mut last) = (left, last);
    for _ in 0..left.len() {
        let (word, rest) = cut_word(left);
        let own = own_word(at, word);
        if is(last, b"holds") && !has(b"read write", own) {
            add_hold(out, at, word)?;
        }
        if word.is_empty() {
            break;
        }
        if has(b"& && /\\", word) {
            out.extend_from_slice(b" and")?;
        } else if !has(b"= ==", word)
            && (!is(last, b"holds") || has(b"read write", own) || is(own, b"and"))
        {
            say(out, b" ", word, b"")?;
        }
        last = own;
        left = rest;
    }
    Ok(())
}

/// A word without the name of its object.
fn own_word<'a>(at: Spot<'_>, word: &'a [u8]) -> &'a [u8] {
    match called(at, word) {
        Some((_, own)) => own,
        None => word,
    }
}

/// Of a condition, which is read from here on.
pub fn of_condition(out: &mut Vec<u8>, line: Spot<'_>) -> Added {
    let mut at = line;
    let mut term = line;
    let mut last: &[u8] = b"and";
    let mut first = true;
    for _ in 0..line.line.len() {
        term = at;
        at = second_spot(at);
        let word = at.word;
        if of_nameless(out, at, last)? || is(last, b"and") && of_order(out, at)? {
            return Ok(());
        }
        if has(b"for forever", word) && has(OF_PARTIES, last) {
            return of_ever(out, term);
        }
        if is(word, b"and") && first && !is_no_number(last) {
            let (_, term) = cut_word(at.behind);
            return insert(out, b"a term is about one party", at, term);
        }
        if is(last, b"holds") && !has(b"and read write", own_word(at, word)) && !word.is_empty() {
            out.extend_from_slice(b"a hold is `read` or `write`: ")?;
            repeat(out, before_left(at))?;
            return add_terms(out, at, at.left, last);
        }
        if !first && !is_no_number(last) && !is_no_number(word) {
            return swap(out, b"one number stands here", at, b"");
        }
        let (name, rest) = cut_word(at.behind);
        let places = has(b"at on in", word) && !has_variable(at.question, word);
        if places && (has(OF_PARTIES, last) || has(b"sleeps ever", last)) {
            return of_place(out, term, last, name, rest);
        }
        let is_next = !first && !is_no_number(last) && has_variable(at.question, word);
        let missing = either(is_next, b" and", between(at, last));
        if !missing.is_empty() {
            out.extend_from_slice(b"a word is missing: ")?;
            say(out, b"", before_left(at), missing)?;
            return add_terms(out, at, at.left, own_word(at, first_word(missing)));
        }
        if word.is_empty() {
            break;
        }
        if !is_of_term(at) || has(b"read write", word) && !is(last, b"holds") {
            return if of_stranger(out, at, last)? {
                Ok(())
            } else {
                no_term(out, at)
            };
        }
        first = is(last, b"and");
        last = own_word(at, word);
    }
    list_terms(out, at)
}
