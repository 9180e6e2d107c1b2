//! The names that `let` lines of a text or a question give.

use crate::near::is_near;
use crate::words::{Added, cut_word, first_word, say};
use model_events::event::Object;
use text_lines::lexer::{is, next_line};
use text_lines::value_type::object_named;

/// The name that a line gives, and what is left behind it. Empty where it gives none.
pub fn given(line: &[u8]) -> (&[u8], &[u8]) {
    let (first, rest) = cut_word(line);
    if is(first, b"let") {
        cut_word(rest)
    } else {
        (b"", b"")
    }
}

/// The name that a word is, or, where that is asked, nearly is, and what is left of its line. Empty where there is none.
pub fn named<'a>(text: &'a [u8], word: &[u8], nearly: bool) -> (&'a [u8], &'a [u8]) {
    let mut rest = text;
    for _ in 0..text.len() {
        let Some((line, after)) = next_line(rest) else {
            break;
        };
        rest = after;
        let (name, behind) = given(line);
        if is(name, word) || nearly && is_near(word, name) {
            return (name, behind);
        }
    }
    (b"", b"")
}

/// The object that a text gives this name.
pub fn object_of(text: &[u8], name: &[u8]) -> Option<Object<()>> {
    object_named(first_word(named(text, name, false).1))
}

/// Whether a question names this variable.
pub fn has_variable(question: &[u8], name: &[u8]) -> bool {
    !named(question, name, false).0.is_empty() && object_of(question, name).is_none()
}

/// Adds the names that a text gives, with this before the first, and commas between.
pub fn add_names(out: &mut Vec<u8>, text: &[u8], lead: &[u8]) -> Added {
    add_given(out, text, lead, true)
}

/// The same, of objects too, or of variables alone.
fn add_given(out: &mut Vec<u8>, text: &[u8], lead: &[u8], all: bool) -> Added {
    let mut lead = lead;
    let mut rest = text;
    for _ in 0..text.len() {
        let Some((line, after)) = next_line(rest) else {
            break;
        };
        rest = after;
        let (name, _) = given(line);
        if !name.is_empty() && (all || object_of(text, name).is_none()) {
            say(out, lead, name, b"")?;
            lead = b", ";
        }
    }
    Ok(())
}

/// Adds the variables that a question names.
pub fn add_variables(out: &mut Vec<u8>, question: &[u8]) -> Added {
    add_given(out, question, b"; the variables are ", false)
}
