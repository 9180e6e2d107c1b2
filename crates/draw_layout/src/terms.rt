//! What the values of an object's words mean, in its own terms: a row for each object.
use model_barrier::{count_of, epoch_of};
use std::alloc::AllocError;
use sync_steps::steps::{Object, Word};

/// What a band shows.
#[derive(Clone, Copy, PartialEq, Eq)]
pub enum Shown {
    /// What a word holds.
    Word(Word),
    /// The value that the two data words of an atomic have.
    Value,
}

/// What the bands of an object show.
pub fn shown_of<T>(object: &Object<T>) -> &'static [Shown] {
    match object {
        Object::Mutex
        | Object::Spin
        | Object::Semaphore(_)
        | Object::Barrier(_)
        | Object::ReaderLock
        | Object::Once
        | Object::Lazy(_) => &[Shown::Word(Word::State)],
        Object::WriterLock => &[Shown::Word(Word::State), Shown::Word(Word::Counter)],
        Object::Condvar => &[
            Shown::Word(Word::State),
            Shown::Word(Word::Waiters),
            Shown::Word(Word::Value),
        ],
        Object::Atomic(_) => &[Shown::Word(Word::State), Shown::Value],
    }
}

/// Where a word is shown.
pub fn shown_at(word: Word) -> Shown {
    match word {
        Word::Low | Word::High => Shown::Value,
        Word::State | Word::Counter | Word::Waiters | Word::Value => Shown::Word(word),
    }
}

/// How a band is named.
pub fn band_name<T>(object: &Object<T>, shown: Shown) -> &'static str {
    match shown {
        Shown::Word(word) => name_of(object, word),
        Shown::Value => "value",
    }
}

/// How a word is named.
pub fn name_of<T>(object: &Object<T>, word: Word) -> &'static str {
    match word {
        Word::State => state_name(object),
        Word::Counter => "counter",
        Word::Waiters => "waiters",
        Word::Value => "permits",
        Word::Low => "low half",
        Word::High => "high half",
    }
}

fn state_name<T>(object: &Object<T>) -> &'static str {
    match object {
        Object::Mutex
        | Object::Spin
        | Object::ReaderLock
        | Object::WriterLock
        | Object::Condvar
        | Object::Atomic(_) => "lock",
        Object::Semaphore(_) => "permits",
        Object::Barrier(_) => "arrived",
        Object::Once | Object::Lazy(_) => "closure",
    }
}

/// Says what a value of a word means.
pub fn say_value<T>(
    out: &mut String,
    object: &Object<T>,
    word: Word,
    value: u64,
) -> Result<(), AllocError> {
    match word {
        Word::State => say_state(out, object, value),
        Word::Counter | Word::Waiters | Word::Value | Word::Low | Word::High => {
            write!(out, "{value}")
        }
    }
}

fn say_state<T>(out: &mut String, object: &Object<T>, value: u64) -> Result<(), AllocError> {
    match object {
        Object::Mutex | Object::Spin | Object::Condvar => say_mutex(out, value),
        Object::Semaphore(_) => write!(out, "{value}"),
        Object::Barrier(number_of_waiters) => say_barrier(out, *number_of_waiters, value),
        Object::ReaderLock | Object::Atomic(_) => say_reader_lock(out, value),
        Object::WriterLock => say_writer_lock(out, value),
        Object::Once | Object::Lazy(_) => say_once(out, value),
    }
}

fn say_mutex(out: &mut String, value: u64) -> Result<(), AllocError> {
    match value {
        0 => write!(out, "free"),
        1 => write!(out, "locked"),
        _ => write!(out, "{value}"),
    }
}

fn say_barrier(out: &mut String, number_of_waiters: u32, value: u64) -> Result<(), AllocError> {
    let round = epoch_of(value);
    let arrived = count_of(value);
    write!(out, "round {round}: {arrived}/{number_of_waiters}")
}

fn say_readers(out: &mut String, count: u64) -> Result<(), AllocError> {
    match count {
        1 => write!(out, "1 reader"),
        _ => write!(out, "{count} readers"),
    }
}

fn say_reader_lock(out: &mut String, value: u64) -> Result<(), AllocError> {
    match value {
        0 => write!(out, "free"),
        u64::MAX => write!(out, "write"),
        readers => say_readers(out, readers),
    }
}

/// Twice the number of readers, and a mark that is 0 or 1.
fn say_writer_lock(out: &mut String, value: u64) -> Result<(), AllocError> {
    match value {
        0 => write!(out, "free"),
        1 => write!(out, "mark"),
        u64::MAX => write!(out, "write"),
        _ => {
            say_readers(out, value / 2)?;
            if value % 2 == 1 {
                write!(out, ", mark")?;
            }
            Ok(())
        }
    }
}

fn say_once(out: &mut String, value: u64) -> Result<(), AllocError> {
    match value {
        0 => write!(out, "not begun"),
        1 => write!(out, "runs"),
        2 => write!(out, "has run"),
        _ => write!(out, "{value}"),
    }
}
