//! What would be right where a party's line changes a variable, or reads one, as other languages write it.

use crate::items::next_token;
use crate::variables::{has_variable, object_of};
use crate::words::{
    Added, Spot, Told, before, cut_word, either, has, has_mark, run_of, show, tell,
};
use model_events::event::Object;
use text_lines::lexer::is;

/// What is said of a sum.
pub const NO_SUM: &[u8] =
    b"a value is a number or a variable, and no sum: `add` and `sub` change a variable";

/// The name or number behind signs, as in `++x` and `+= 1`, and what is left behind it.
pub fn operand(words: &[u8]) -> (&[u8], &[u8]) {
    run_of(run_of(words, b"+-=:*", true).1, b" \t,;:()+-='", false)
}

/// Whether these words begin with the name of an atomic, and no call of it.
pub fn names_atomic(at: Spot<'_>, words: &[u8]) -> bool {
    let object = object_of(at.question, operand(words).0);
    matches!(object, Some(Object::Atomic(_)))
}

/// Of a change of a variable as other languages write it, in the place of the item that is left here, or behind its `set`.
pub fn no_change<'a>(out: &mut Vec<u8>, at: Spot<'a>, item: &'a [u8]) -> Added {
    let (first, behind) = cut_word(item);
    let changes = has(b"set add sub", first);
    let (change, rest) = run_of(either(changes, behind, item), b",()", false);
    let (name, more) = operand(change);
    let (value, more) = operand(more);
    let (amount, _) = operand(more);
    if has(b"if while", first) || !amount.is_empty() && !is(value, name) {
        return out.extend_from_slice(NO_SUM);
    }
    let (verb, call): (&[u8], &[u8]) = if has_mark(change, b"+") || changes && is(first, b"add") {
        (b" add ", b".fetch_add ")
    } else if has_mark(change, b"-") || changes && is(first, b"sub") {
        (b" sub ", b".fetch_sub ")
    } else {
        (b" set ", b".store ")
    };
    let amount = either(amount.is_empty(), value, amount);
    let amount = either(amount.is_empty(), b"1", amount);
    let gap = either(has_mark(rest, b"()"), b" ", b"");
    let front = before(at.line, item.len());
    if object_of(at.question, name).is_some() {
        let words = b"an atomic is changed by its calls";
        return show(out, words, &[front, b" ", name, call, amount, gap, rest]);
    }
    let words = b"a variable changes by `set`, `add` or `sub`, and has no sums";
    show(out, words, &[front, verb, name, b" ", amount, gap, rest])
}

/// How a change of a variable is said that has this name elsewhere, of the variable, and before what is left. Empty where there is none.
fn change_elsewhere(word: &[u8]) -> &'static [u8] {
    if has(b"inc incr increment", word) {
        b"a variable changes by `set`, `add` or `sub`: $fadd $1 1$2"
    } else if has(b"dec decr decrement", word) {
        b"a variable changes by `set`, `add` or `sub`: $fsub $1 1$2"
    } else if has(b"write assign put", word) {
        b"a variable changes by `set`, `add` or `sub`: $fset $1$2"
    } else if has(b"read get print", word) {
        b"a variable is read by a test, or as a value, with a line `let r 0` before: $fset r $1$2"
    } else {
        b""
    }
}

/// Of a variable behind a word that is no item's. Whether there is one.
pub fn no_verb(out: &mut Vec<u8>, at: Spot<'_>) -> Told {
    let words = change_elsewhere(at.word);
    let (name, rest) = next_token(at.behind).unwrap_or((b"", b""));
    let is_one = !words.is_empty() && has_variable(at.question, name);
    if is_one {
        tell(out, at, words, &[name, rest])?;
    }
    Ok(is_one)
}
