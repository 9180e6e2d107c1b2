//! The words of an object.
ghost use Rattle.std.specs.Prelude.{◌≡◌, ℕ, ◌+◌, ◌-◌, ◌^◌, min, if◌then◌else◌};
ghost use Rattle.model_events.specs.declared.event.Word.{Word as AnyWord};
ghost use Rattle.model_events.specs.Past.{same_word, word_after, failures_by};
ghost use Rattle.model_events.specs.Rows.{carried_out};

use crate::event::{Act, Word};
use crate::row::Intent;

/// The words of an object; those that it does not have stay 0.
#[derive(Clone, Copy)]
pub struct Words {
    pub state: u64,
    pub counter: u64,
    pub waiters: u64,
    pub value: u64,
    pub low: u64,
    pub high: u64,
}

impl Words {
    ghost use Rattle.model_events.specs.WordsAt.{word_at};

    /// What the word holds.
    #[inline(always)]
    pub fn get(&self, word: Word) -> u64
        ensures { result ≡ word_at self.now word }
    {
        match word {
            Word::State => self.state,
            Word::Counter => self.counter,
            Word::Waiters => self.waiters,
            Word::Value => self.value,
            Word::Low => self.low,
            Word::High => self.high,
        }
    }

    /// The act of a step that is to do this, at these words.
    #[inline(always)]
    pub fn carry_out<T>(&self, intent: Intent<T>) -> Act<T>
        ensures { result ≡ carried_out intent (word_at self.now) }
    {
        match intent {
            Intent::Load(word) => Act::Load {
                word,
                seen: self.get(word),
            },
            Intent::Store { word, put } => Act::Store { word, put },
            Intent::Swap { word, put } => Act::Swap {
                word,
                old: self.get(word),
                put,
            },
            Intent::Add { word, more } => {
                let old = self.get(word);
                Act::Add {
                    word,
                    old,
                    put: old.wrapping_add(more),
                }
            }
            Intent::Subtract { word, less } => {
                let old = self.get(word);
                Act::Add {
                    word,
                    old,
                    put: old.wrapping_sub(less),
                }
            }
            Intent::Exchange { word, from, to } => {
                let found = self.get(word);
                Act::Exchange {
                    word,
                    from,
                    to,
                    found,
                    done: found == from,
                }
            }
            Intent::Wake(wake) => Act::Woke(wake),
            Intent::End => Act::Ended,
            Intent::ReadCell(value) => Act::ReadCell(value),
        }
    }

    /// Writes what the act puts.
    #[inline(always)]
    pub fn apply<T>(&mut self, act: &Act<T>)
        ensures { (word : AnyWord) → word_at self.new word ≡ word_after word act.now (word_at self.old word) }
    {
        match *act {
            Act::Store { word, put } => self.put(word, put),
            Act::Swap { word, put, .. } => self.put(word, put),
            Act::Add { word, put, .. } => self.put(word, put),
            Act::Exchange {
                word,
                to,
                done: true,
                ..
            } => self.put(word, to),
            _ => {}
        }
    }

    #[inline(always)]
    fn put(&mut self, word: Word, put: u64)
        ensures { (other : AnyWord) →
            word_at self.new other ≡ (if same_word word other then put else word_at self.old other) }
    {
        match word {
            Word::State => self.state = put,
            Word::Counter => self.counter = put,
            Word::Waiters => self.waiters = put,
            Word::Value => self.value = put,
            Word::Low => self.low = put,
            Word::High => self.high = put,
        }
    }
}

/// The count of exchanges that failed, after the act; it stops at 2^64 - 1.
#[inline(always)]
pub fn failed_after<T>(failed: u64, act: &Act<T>) -> u64
    ensures { (count : ℕ) → failed ≡ min count (2 ^ 64 - 1) →
        result ≡ min (failures_by act.now + count) (2 ^ 64 - 1) }
{
    match act {
        Act::Exchange { done: false, .. } => failed.saturating_add(1),
        _ => failed,
    }
}
