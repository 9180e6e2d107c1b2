//! The last line: what each word of a lock of one's own holds, by its name, and how many exchanges failed.
ghost use Rattle.std.specs.Prelude.{◌≡◌, ◌++◌, [], get_or, map, OnOk};
ghost use Rattle.own_play.specs.Output as meaning;
ghost use Rattle.own_play.specs.Machine.{state_of};
ghost use Rattle.text_own.specs.Table.{told_lock};

use crate::machine::Machine;
use model_events::words::Words;
use std::alloc::{AllocError, Global};
use text_own::{OwnLock, word_at};

/// What the word at a place holds, and 0 where there is none.
pub fn value_at(words: &Words, at: usize) -> u64
    ensures { result ≡ meaning.value_at words.now at }
{
    match word_at(at) {
        Some(word) => words.get(word),
        None => 0,
    }
}

/// Prints the name of a word, and what it holds.
fn print_word(alloc: Global, out: &mut Vec<u8>, name: &[u8], value: u64) -> Result<(), AllocError>
    ensures { OnOk result (out.new.items ≡ out.old.items ++ meaning.word_words name.now value) }
{
    let mut number = String::new(alloc);
    write!(number, " {value} ")?;
    out.extend_from_slice(name)?;
    out.extend_from_slice(number.as_bytes())
}

fn name_at<'t>(names: &[&'t [u8]], at: usize) -> &'t [u8]
    ensures { result.now ≡ get_or (map (λ n. n.now) names.now) at [] }
{
    match names.get(at) {
        Some(name) => name,
        None => b"",
    }
}

/// Prints so the word at a place, if there is one.
fn print_at(
    alloc: Global,
    out: &mut Vec<u8>,
    names: &[&[u8]],
    words: &Words,
    at: usize,
) -> Result<(), AllocError>
    ensures { OnOk result (out.new.items ≡ out.old.items ++ meaning.words_at words.now (map (λ n. n.now) names.now) at) }
{
    let name = name_at(names, at);
    if name.is_empty() {
        return Ok(());
    }
    print_word(alloc, out, name, value_at(words, at))
}

/// Prints so each word.
fn print_words(
    alloc: Global,
    out: &mut Vec<u8>,
    names: &[&[u8]],
    words: &Words,
) -> Result<(), AllocError>
    ensures { OnOk result (out.new.items ≡ meaning.words_onto words.now (map (λ n. n.now) names.now) out.old.items) }
{
    print_at(alloc, out, names, words, 0)?;
    print_at(alloc, out, names, words, 1)?;
    print_at(alloc, out, names, words, 2)?;
    print_at(alloc, out, names, words, 3)?;
    print_at(alloc, out, names, words, 4)?;
    print_at(alloc, out, names, words, 5)
}

/// Prints the last line.
pub fn print_last(
    alloc: Global,
    out: &mut Vec<u8>,
    lock: &OwnLock<'_>,
    machine: &Machine,
) -> Result<(), AllocError>
    ensures { OnOk result (out.new.items ≡ meaning.last_onto (told_lock lock.now) (state_of machine.now) out.old.items) }
{
    let failed = machine.failed;
    let mut number = String::new(alloc);
    writeln!(number, "failed {failed}")?;
    print_words(alloc, out, &lock.names, &machine.words)?;
    out.extend_from_slice(number.as_bytes())
}
