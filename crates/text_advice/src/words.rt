//! A word at which a line goes wrong, and what is said of it.

ghost use Rattle.std.specs.Prelude.{◌≤◌, length};

use crate::near::named_in;
use crate::repeat::repeat;
use model_events::event::Object;
use std::alloc::AllocError;
use text_lines::lexer::{is, next_line, next_word, number_within};

/// What comes of adding words; and whether there were some.
pub type Added = Result<(), AllocError>;

pub type Told = Result<bool, AllocError>;

/// A word of a line, of a question about this object.
#[derive(Clone, Copy)]
pub struct Spot<'a> {
    pub object: Object<()>,
    /// What stands before the line.
    pub question: &'a [u8],
    pub line: &'a [u8],
    /// What is left of the line, from this word on.
    pub left: &'a [u8],
    pub word: &'a [u8],
    /// What is left behind it.
    pub behind: &'a [u8],
    /// What is left of the line from the item on in which the word is, or which it is to begin.
    pub item: &'a [u8],
    /// What is left of it from the last test on.
    pub test: &'a [u8],
}

/// What stands in a line before so many bytes of its end.
pub fn before(line: &[u8], bytes: usize) -> &[u8] {
    &line[..line.len().saturating_sub(bytes)]
}

/// What stands in the line before the word.
pub fn before_word<'a>(at: Spot<'a>) -> &'a [u8] {
    before(at.line, at.behind.len().saturating_add(at.word.len()))
}

/// What stands in the line before the word and the blanks before it.
pub fn before_left<'a>(at: Spot<'a>) -> &'a [u8] {
    before(at.line, at.left.len())
}

/// Adds a sentence about a word of the text.
pub fn say(out: &mut Vec<u8>, front: &[u8], word: &[u8], end: &[u8]) -> Added {
    out.extend_from_slice(front)?;
    repeat(out, word)?;
    out.extend_from_slice(end)
}

/// Adds a sentence, and how the line should be, of these parts.
pub fn show(out: &mut Vec<u8>, words: &[u8], parts: &[&[u8]]) -> Added {
    out.extend_from_slice(words)?;
    out.extend_from_slice(b": ")?;
    repeat_all(out, parts)
}

pub fn repeat_all(out: &mut Vec<u8>, parts: &[&[u8]]) -> Added {
    for part in parts {
        repeat(out, part)?;
    }
    Ok(())
}

/// The same of the line with this in the place of the word.
pub fn put(out: &mut Vec<u8>, words: &[u8], at: Spot<'_>, new: &[u8]) -> Added {
    show(out, words, &[before_word(at), new, at.behind])
}

/// The same, with this before the blanks that are before the word.
pub fn insert(out: &mut Vec<u8>, words: &[u8], at: Spot<'_>, new: &[u8]) -> Added {
    show(out, words, &[before_left(at), new, at.left])
}

/// The same, with this in the place of the word and of the blanks before it.
pub fn swap(out: &mut Vec<u8>, words: &[u8], at: Spot<'_>, new: &[u8]) -> Added {
    show(out, words, &[before_left(at), new, at.behind])
}

/// Adds that the word does not stand here, and the line without it.
pub fn none_here(out: &mut Vec<u8>, at: Spot<'_>) -> Added {
    say(out, b"no `", at.word, b"`")?;
    swap(out, b" stands here", at, b"")
}

/// Where a word has the first byte that is among these marks, or is not, or its end.
fn mark_at(word: &[u8], marks: &[u8], among: bool) -> usize
    ensures { result ≤ length word.now }
{
    word.iter()
        .position(|byte| marks.contains(byte) == among)
        .unwrap_or(word.len())
        .min(word.len())
}

/// Whether a word has one of these marks.
pub fn has_mark(word: &[u8], marks: &[u8]) -> bool {
    mark_at(word, marks, true) < word.len()
}

/// What a word has before the first of these marks.
pub fn front_of<'a>(word: &'a [u8], marks: &[u8]) -> &'a [u8] {
    &word[..mark_at(word, marks, true)]
}

/// What comes next in a line, behind blanks, as long as its bytes are among these, or are not; and what is left behind it.
pub fn run_of<'a>(left: &'a [u8], marks: &[u8], among: bool) -> (&'a [u8], &'a [u8]) {
    let left = &left[mark_at(left, b" \t", false)..];
    let end = mark_at(left, marks, !among);
    (&left[..end], &left[end..])
}

/// What the first parentheses that are left in a line have in them, and what is left behind them.
pub fn parentheses(left: &[u8]) -> (&[u8], &[u8]) {
    let (_, opened) = run_of(left, b"(", false);
    let (inside, closed) = run_of(run_of(opened, b"(", true).1, b")", false);
    (inside, run_of(closed, b")", true).1)
}

/// The number that a word has beside a letter or a mark, or two. Empty where it has no such.
pub fn number_in(word: &[u8]) -> &[u8] {
    let (_, rest) = run_of(word, b"0123456789", false);
    let (number, rest) = run_of(rest, b"0123456789", true);
    let beside = word.len().saturating_sub(number.len());
    let has_one = 0 < beside && beside <= 2 && !has_mark(rest, b"0123456789");
    if has_one { number } else { b"" }
}

/// Adds that a word stands for this one, and how the line should be.
pub fn mean(out: &mut Vec<u8>, at: Spot<'_>, near: &[u8]) -> Added {
    say(out, b"there is no `", at.word, b"`, but `")?;
    repeat(out, near)?;
    put(out, b"`", at, near)
}

/// One of two.
pub fn either<'a>(so: bool, one: &'a [u8], other: &'a [u8]) -> &'a [u8] {
    if so { one } else { other }
}

/// What a mark of a sentence stands for: of the line what stands before the word (`f`), and before its blanks (`l`), the word (`w`), what is
/// left behind it (`b`), and with it (`r`); or the part of this number.
fn part_of<'a>(at: Spot<'a>, mark: u8, parts: &[&'a [u8]]) -> &'a [u8] {
    match mark {
        b'f' => before_word(at),
        b'l' => before_left(at),
        b'w' => at.word,
        b'b' => at.behind,
        b'r' => at.left,
        _ => match parts.get(usize::from(mark.saturating_sub(b'1'))) {
            Some(part) => part,
            None => b"",
        },
    }
}

/// Adds a sentence, in which `$` and a mark stand for a part.
pub fn tell<'a>(out: &mut Vec<u8>, at: Spot<'a>, sentence: &[u8], parts: &[&'a [u8]]) -> Added {
    let mut marks = false;
    for byte in sentence {
        if marks {
            repeat(out, part_of(at, *byte, parts))?;
        } else if *byte != b'$' {
            out.push(*byte)?;
        }
        marks = !marks && *byte == b'$';
    }
    Ok(())
}

/// Adds the sentence that these rows have of the word. Each has a line: words, ` % `, and a sentence. Whether there is one.
pub fn tell_of(out: &mut Vec<u8>, at: Spot<'_>, rows: &[u8]) -> Told {
    let mut rest = rows;
    for _ in 0..rows.len() {
        let Some((row, more)) = next_line(rest) else {
            break;
        };
        rest = more;
        let (words, sentence) = run_of(row, b"%", false);
        if has(words, at.word) {
            tell(out, at, run_of(sentence, b"% ", true).1, &[])?;
            return Ok(true);
        }
    }
    Ok(false)
}

/// A word without the comma at its end.
pub fn bare(word: &[u8]) -> &[u8] {
    match word.strip_suffix(b",") {
        Some(front) if !front.is_empty() => front,
        _ => word,
    }
}

/// A word without the mark at its end.
pub fn unmarked(word: &[u8]) -> &[u8] {
    match word.split_last() {
        Some((b',' | b':' | b';', front)) if !front.is_empty() => front,
        _ => word,
    }
}

/// The first word of a line, and what is left behind it. Empty where it has none.
pub fn cut_word(line: &[u8]) -> (&[u8], &[u8]) {
    next_word(line).unwrap_or((b"", b""))
}

/// The first word of a line. Empty where it has none.
pub fn first_word(line: &[u8]) -> &[u8] {
    cut_word(line).0
}

/// Whether these words have this one.
pub fn has(list: &[u8], word: &[u8]) -> bool {
    !named_in(list, word, false).is_empty()
}

/// Whether these words have this one; a number, where they have `7`.
pub fn has_like(list: &[u8], word: &[u8]) -> bool {
    has(list, word) || has(list, b"7") && !is_no_number(word)
}

/// Whether a word begins a comment in many languages.
fn is_comment(word: &[u8]) -> bool {
    word.starts_with(b"#") || word.starts_with(b"//") || word.starts_with(b"/*") || is(word, b"--")
}

/// What a line has from its first comment on. Empty where it has none.
fn comment_in(line: &[u8]) -> &[u8] {
    let mut rest = line;
    for _ in 0..line.len() {
        let Some((word, after)) = next_word(rest) else {
            break;
        };
        if is_comment(word) {
            return rest;
        }
        rest = after;
    }
    &[]
}

pub fn has_comment(line: &[u8]) -> bool {
    !comment_in(line).is_empty()
}

/// Adds that there are no comments, and the line without its first.
pub fn of_comment(out: &mut Vec<u8>, line: &[u8]) -> Added {
    match before(line, comment_in(line).len()) {
        [] => out.extend_from_slice(b"there are no comments"),
        rest => show(out, b"there are no comments", &[rest]),
    }
}

/// A line, at its first word.
pub fn first_spot<'a>(object: Object<()>, question: &'a [u8], line: &'a [u8]) -> Spot<'a> {
    let (word, behind) = cut_word(line);
    Spot {
        object,
        question,
        line,
        left: line,
        word,
        behind,
        item: line,
        test: b"",
    }
}

/// The word behind this one.
pub fn second_spot<'a>(at: Spot<'a>) -> Spot<'a> {
    let (word, behind) = cut_word(at.behind);
    Spot {
        left: at.behind,
        word,
        behind,
        ..at
    }
}

/// Adds what a number is.
pub fn no_number(out: &mut Vec<u8>, word: &[u8]) -> Added {
    let words = b"a number is 0 to 18446744073709551615, in decimal digits, and not `";
    say(out, words, word, b"`")
}

/// The name before a call, and the call's own, in a word as `one.lock`, or as other languages write it: `one->lock()`, `one::lock`.
pub fn cut(word: &[u8]) -> (&[u8], &[u8]) {
    let (name, rest) = run_of(word, b".:->(,;", false);
    let (_, call) = run_of(rest, b".:->", true);
    (name, front_of(call, b"(,;"))
}

/// Whether a word is no number at all.
pub fn is_no_number(word: &[u8]) -> bool {
    number_within(0, u64::MAX, word).is_err()
}

/// Whether a word is no number, and begins as one.
pub fn is_odd_number(word: &[u8]) -> bool {
    let first = before(word, word.len().saturating_sub(1));
    is_no_number(word) && has_mark(first, b"0123456789+-")
}

/// The first and the last of several parties, as `1..3` names them.
pub fn ends_of(word: &[u8]) -> Option<(u64, u64)> {
    let (first, rest) = run_of(word, b".", false);
    let last = rest.strip_prefix(b"..")?;
    match (
        number_within(0, u64::MAX, first),
        number_within(0, u64::MAX, last),
    ) {
        (Ok(first), Ok(last)) => Some((first, last)),
        _ => None,
    }
}

/// Whether a word names a party, or several.
pub fn names_parties(word: &[u8]) -> bool {
    !is_no_number(word) || ends_of(word).is_some()
}
