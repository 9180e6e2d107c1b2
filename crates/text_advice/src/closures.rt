//! What would be right in a line about a party's closures, and what is said of them in another.

use crate::items::{ends_item, next_token};
use crate::objects::closures_of;
use crate::question::ASKED;
use crate::words::{
    Added, Spot, bare, cut_word, either, first_word, has, has_mark, say, show, tell,
};
use text_lines::lexer::is;

/// What is said of closures in a line with items.
const OF_CLOSURES: &[u8] = b"what is said of closures stands in a line of its own";

/// Whether words begin as what is said of closures.
pub fn tells_of_closures(words: &[u8]) -> bool {
    has(b"may aborts sleeps serves", bare(first_word(words)))
}

/// How many of these words begin what is said of closures.
fn count_closures(words: &[u8]) -> usize {
    let mut count: usize = 0;
    let mut rest = words;
    for _ in 0..words.len() {
        let (word, behind) = cut_word(rest);
        count = count.saturating_add(usize::from(tells_of_closures(word)));
        rest = behind;
    }
    count
}

/// Adds a line of this party for each part of these words that is said of closures.
pub fn show_closures(out: &mut Vec<u8>, party: &[u8], words: &[u8]) -> Added {
    let mark = either(count_closures(words) > 1, b"`", b"");
    let mut lead: &[u8] = b": ";
    let mut opens = false;
    let mut rest = words;
    out.extend_from_slice(OF_CLOSURES)?;
    for _ in 0..words.len() {
        let (word, behind) = next_token(rest).unwrap_or((b"", b""));
        rest = behind;
        let begins = tells_of_closures(word);
        if opens && (begins || ends_item(word) || has(b"and ;", word) || word.is_empty()) {
            out.extend_from_slice(mark)?;
            opens = false;
        }
        if begins {
            say(out, lead, mark, party)?;
            lead = b" and ";
            opens = true;
        }
        if opens {
            say(out, b" ", word, b"")?;
        }
    }
    out.extend_from_slice(either(opens, mark, b""))
}

/// Of a line about closures.
pub fn of_closures(out: &mut Vec<u8>, at: Spot<'_>) -> Added {
    let (verb, said) = cut_word(at.behind);
    if has_mark(at.line, b",") || count_closures(at.behind) > 1 {
        show_closures(out, at.word, at.behind)
    } else if is(verb, b"may") && has(b"sleep sleeps", first_word(said)) {
        show(out, OF_CLOSURES, &[at.word, b" sleeps"])
    } else if is(verb, b"sleeps") && has(b"for forever", first_word(said)) {
        show(out, ASKED, &[b"never ", at.word, b" sleeps for ever"])
    } else if is(verb, b"sleeps") && has_mark(said, b"0123456789") {
        let words =
            b"no time is said; who gives up at a deadline has a line `$w may abort` more: $w sleeps";
        tell(out, at, words, &[])
    } else {
        let words = b"a line about a party's closures says one of these, and nothing else: $1";
        tell(out, at, words, &[closures_of(at.object)])
    }
}
