//! What is repeated of a text.
ghost use Rattle.std.specs.Prelude.{◌<◌};

use std::alloc::AllocError;

/// How many bytes of a text are repeated at most.
const MOST: usize = 200;

/// A digit of a number in sixteens.
fn digit_of(n: u8) -> u8
    requires is_digit { n < 16 }
{
    if n < 10 { b'0' + n } else { b'a' - 10 + n }
}

/// Whether a terminal takes this byte for a character, and nothing more.
fn is_plain(byte: u8) -> bool {
    byte >= b' ' && byte <= b'~'
}

/// Adds a byte, or its number; a tab, which parts words as a blank does, as a blank.
fn add_byte(out: &mut Vec<u8>, byte: u8) -> Result<(), AllocError> {
    if is_plain(byte) || byte == b'\t' {
        out.push(byte.max(b' '))?;
        Ok(())
    } else {
        out.extend_from_slice(&[b'\\', b'x', digit_of(byte / 16), digit_of(byte % 16)])
    }
}

fn dots(words: &[u8]) -> &'static [u8] {
    if words.len() > MOST { b".." } else { b"" }
}

/// Adds words of a text, up to 200 bytes of them and then two dots. What a terminal may take for more than a character is told by its number, `\x1b`.
pub fn repeat(out: &mut Vec<u8>, words: &[u8]) -> Result<(), AllocError> {
    for byte in words.iter().take(MOST) {
        add_byte(out, *byte)?;
    }
    out.extend_from_slice(dots(words))
}

fn is_parenthesis(byte: u8) -> bool {
    b"()".contains(&byte)
}

fn is_relation(byte: u8) -> bool {
    b"=!<>".contains(&byte)
}

/// Whether a blank is missing between these bytes: it stands round parentheses and relations, and behind a comma.
fn lacks_blank(one: u8, other: u8) -> bool {
    let parts = one == b','
        || is_parenthesis(one)
        || is_parenthesis(other)
        || is_relation(one) != is_relation(other);
    parts && !b" \t".contains(&one) && !b" \t,".contains(&other)
}

/// The mark that stands for another in a question.
fn mark_for(byte: u8) -> u8 {
    match byte {
        b';' => b',',
        b'{' => b'(',
        b'}' => b')',
        _ => byte,
    }
}

/// Whether a word has a mark that stands for another, or lacks a blank.
pub fn lacks_blanks(word: &[u8]) -> bool {
    let mut last = b' ';
    for byte in word {
        if mark_for(*byte) != *byte || lacks_blank(last, *byte) {
            return true;
        }
        last = *byte;
    }
    false
}

/// The first byte of words behind blanks, as a question's mark. A comma where there is none.
fn next_mark(words: &[u8]) -> u8 {
    for byte in words {
        if !b" \t".contains(byte) {
            return mark_for(*byte);
        }
    }
    b','
}

/// Whether words have braces with nothing between.
fn has_empty_braces(words: &[u8]) -> bool {
    let mut last = b' ';
    for byte in words {
        if last == b'{' && *byte == b'}' {
            return true;
        }
        if !b" \t".contains(byte) {
            last = *byte;
        }
    }
    false
}

/// Adds a sentence, and a line of these parts as a question has them.
pub fn show_apart(out: &mut Vec<u8>, sentence: &[u8], parts: &[&[u8]]) -> Result<(), AllocError> {
    out.extend_from_slice(sentence)?;
    if parts.iter().any(|part| has_empty_braces(part)) {
        out.extend_from_slice(b"; with a line `let idle 0` before, `set idle 0` does nothing")?;
    }
    out.extend_from_slice(b": ")?;
    for part in parts {
        repeat_apart(out, part)?;
    }
    Ok(())
}

/// Adds a byte of words, behind this one, with the blank that is missing; `=` is written once.
fn add_apart(out: &mut Vec<u8>, last: u8, byte: u8) -> Result<(), AllocError> {
    if lacks_blank(last, byte) {
        out.push(b' ')?;
    }
    if byte == b'=' && last == b'=' {
        return Ok(());
    }
    add_byte(out, byte)
}

/// Adds words of a text as a question has them, with its marks and blanks. No comma closes, but one stands behind braces, which do nothing where
/// they are empty. A call has no parentheses.
fn repeat_apart(out: &mut Vec<u8>, words: &[u8]) -> Result<(), AllocError> {
    let mut last = b' ';
    let mut is_empty = false;
    for place in 0..words.len().min(MOST) {
        let byte = mark_for(words[place]);
        let next = next_mark(&words[place + 1..]);
        let ends = b",)".contains(&next);
        if is_empty {
            is_empty = byte != b')';
        } else if byte == b'(' && next == b')' {
            if words[place] == b'{' || !last.is_ascii_alphanumeric() {
                let gap: &[u8] = if lacks_blank(last, byte) { b" " } else { b"" };
                out.extend_from_slice(gap)?;
                out.extend_from_slice(b"set idle 0")?;
            }
            is_empty = true;
            last = b')';
        } else if byte != b',' || !ends {
            add_apart(out, last, byte)?;
            last = byte;
        }
        if words[place] == b'}' && !ends {
            out.push(b',')?;
            last = b',';
        }
    }
    out.extend_from_slice(dots(words))
}
