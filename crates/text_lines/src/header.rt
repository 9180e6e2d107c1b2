//! What the first line names.
ghost use Rattle.std.specs.Prelude.{◌≡◌, ⊤};
ghost use Rattle.text_lines.specs.Lexer.{words_of};
ghost use Rattle.text_lines.specs.Header as meaning;

use crate::fault::LineFault;
use crate::integer::TextInteger;
use crate::lexer::{next_word, number_within};
use crate::objects::{object_named, opened};
use model_events::event::Object;
use std::alloc::AllocError;

/// How many parties an object has at most.
pub const MOST_PARTIES: u64 = 64;

/// An object, and how many parties use it.
#[derive(Copy)]
pub struct Header<T> {
    pub object: Object<T>,
    pub parties: usize,
}

impl<T: Copy> Clone for Header<T> {
    ghost is_clone = { λ x y. y ≡ x };

    ghost is_infallible = { λ _. ⊤ };

    fn clone(&self) -> Result<Self, AllocError> {
        Ok(*self)
    }
}

impl<T: TextInteger> Header<T> {
    /// Reads the first line: `<object> <parties>`, and a value where the object is opened with one.
    ///
    /// Another first word is `NoObject`, another count of words `BadLine`, and then a number that is none or out of its range
    /// `BadNumber`. There may be 1 to 64 parties.
    #[tactic(auto, unfolding(crate::specs::Header::header_of))]
    pub fn parse(line: &[u8]) -> Result<Header<T>, LineFault>
        ensures value { result ≡ meaning.header_of T.numerals (words_of line.now) }
    {
        let Some((name, rest)) = next_word(line) else {
            return Err(LineFault::NoObject);
        };
        let Some(object) = object_named::<T>(name) else {
            return Err(LineFault::NoObject);
        };
        let Some((parties, rest)) = next_word(rest) else {
            return Err(LineFault::BadLine);
        };
        let object = opened(object, rest)?;
        let parties = number_within(1, MOST_PARTIES, parties)? as usize;
        Ok(Header { object, parties })
    }
}
