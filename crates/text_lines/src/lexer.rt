//! The lines of a text, the words of a line, and the numbers that words write.
ghost use Rattle.std.specs.Prelude.{◌≡◌, ◌<◌, ◌≤◌, ◌==◌, ◌^◌, true, length, not, position, IfSome, IfOk};
ghost use Rattle.std.specs.Str.{bytes_eq};
ghost use Rattle.text_lines.specs.Lexer as meaning;

use crate::fault::LineFault;
use crate::integer::TextInteger;

/// The place of the first line feed.
fn feed_at(text: &[u8]) -> Option<usize>
    ensures { result ≡ position (λ byte. byte == 10) text.now }
{
    text.iter().position(|byte| *byte == b'\n')
}

/// The line without the carriage return at its end, where it has one.
fn without_return(line: &[u8]) -> &[u8]
    ensures { result.now ≡ meaning.cut_line line.now }
{
    let Some((last, front)) = line.split_last() else {
        return line;
    };
    if *last == b'\r' { front } else { line }
}

/// The first line of a text, without its end, and the text after it. `None` where the text is empty.
pub fn next_line(text: &[u8]) -> Option<(&[u8], &[u8])>
    ensures lines { meaning.lines_of text.now ≡ meaning.lines_from result }
    ensures shorter { IfSome result (λ found. length found.1.now < length text.now) }
{
    if text.is_empty() {
        return None;
    }
    match feed_at(text) {
        Some(end) => Some((without_return(&text[..end]), &text[end + 1..])),
        None => Some((text, &[])),
    }
}

fn is_blank(byte: u8) -> bool
    ensures { result ≡ meaning.is_blank byte }
{
    byte == b' ' || byte == b'\t'
}

/// The place of the first byte that is no blank.
fn word_at(line: &[u8]) -> Option<usize>
    ensures { result ≡ position (λ byte. not (meaning.is_blank byte)) line.now }
{
    line.iter().position(|byte| !is_blank(*byte))
}

/// The place of the first blank.
fn blank_at(line: &[u8]) -> Option<usize>
    ensures { result ≡ position meaning.is_blank line.now }
{
    line.iter().position(|byte| is_blank(*byte))
}

/// The first word of a line, and the line after it. `None` where no word is left.
pub fn next_word(line: &[u8]) -> Option<(&[u8], &[u8])>
    ensures { meaning.words_of line.now ≡ meaning.words_from result }
{
    let start = word_at(line)?;
    let words = &line[start..];
    match blank_at(words) {
        Some(end) => Some((&words[..end], &words[end..])),
        None => Some((words, &[])),
    }
}

/// Whether a word is this one.
pub fn is(word: &[u8], name: &[u8]) -> bool
    ensures { result ≡ bytes_eq word.now name.now }
{
    word == name
}

/// The number of a word of decimal digits, where it fits 64 bits.
fn number(word: &[u8]) -> Option<u64>
    ensures { result ≡ meaning.fitting (2 ^ 64) (meaning.number_of word.now) }
{
    match u64::try_from(wide_number(word)?) {
        Ok(number) => Some(number),
        Err(_) => None,
    }
}

/// The number of a word of decimal digits, where it fits 128 bits.
pub fn wide_number(word: &[u8]) -> Option<u128>
    ensures { result ≡ meaning.fitting (2 ^ 128) (meaning.number_of word.now) }
{
    if word.is_empty() {
        return None;
    }
    let mut number: u128 = 0;
    for byte in word {
        if !byte.is_ascii_digit() {
            return None;
        }
        number = number
            .checked_mul(10)?
            .checked_add(u128::from(*byte - b'0'))?;
    }
    Some(number)
}

/// The number of a word of decimal digits, with a minus before them where it is negative, where it fits 128 bits with a sign.
pub fn signed_number(word: &[u8]) -> Option<i128>
    ensures { result ≡ meaning.fitting_signed true (meaning.signed_of word.now) }
{
    let (first, digits) = word.split_first()?;
    if *first == b'-' {
        0i128.checked_sub_unsigned(wide_number(digits)?)
    } else {
        0i128.checked_add_unsigned(wide_number(word)?)
    }
}

/// The number of a word, in a range.
pub fn number_within(low: u64, high: u64, word: &[u8]) -> Result<u64, LineFault>
    ensures read { result ≡ meaning.number_within low high word.now }
    ensures within { IfOk result (λ number. number ≤ high) }
{
    match number(word) {
        Some(number) if low <= number && number <= high => Ok(number),
        _ => Err(LineFault::BadNumber),
    }
}

/// Nothing is left of a line.
pub fn nothing(rest: &[u8]) -> Result<(), LineFault>
    ensures { result ≡ meaning.nothing (meaning.words_of rest.now) }
{
    match next_word(rest) {
        None => Ok(()),
        Some(_) => Err(LineFault::BadLine),
    }
}

/// The number that alone is left of a line, in a range.
pub fn only_number(low: u64, high: u64, rest: &[u8]) -> Result<u64, LineFault>
    ensures number { result ≡ meaning.only_number low high (meaning.words_of rest.now) }
    ensures within { IfOk result (λ n. n ≤ high) }
{
    let Some((word, rest)) = next_word(rest) else {
        return Err(LineFault::BadLine);
    };
    match next_word(rest) {
        None => number_within(low, high, word),
        Some(_) => Err(LineFault::BadLine),
    }
}

/// The two values that alone are left of a line.
pub fn only_two_values<T: TextInteger>(rest: &[u8]) -> Result<(T, T), LineFault>
    ensures { result ≡ meaning.only_two T.numerals.value_of (meaning.words_of rest.now) }
{
    let Some((first, rest)) = next_word(rest) else {
        return Err(LineFault::BadLine);
    };
    let Some((second, rest)) = next_word(rest) else {
        return Err(LineFault::BadLine);
    };
    match next_word(rest) {
        None => {
            let first = T::parse(first)?;
            let second = T::parse(second)?;
            Ok((first, second))
        }
        Some(_) => Err(LineFault::BadLine),
    }
}

/// The value that alone is left of a line.
pub fn only_value<T: TextInteger>(rest: &[u8]) -> Result<T, LineFault>
    ensures { result ≡ meaning.only T.numerals.value_of (meaning.words_of rest.now) }
{
    let Some((word, rest)) = next_word(rest) else {
        return Err(LineFault::BadLine);
    };
    match next_word(rest) {
        None => T::parse(word),
        Some(_) => Err(LineFault::BadLine),
    }
}
