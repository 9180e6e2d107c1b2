//! Markup: text and closed elements, one after the other.
ghost use Rattle.std.specs.Prelude.{[], string_bytes};
ghost use Rattle.draw_markup.specs.Tree.{IsMarkup};

use crate::words::Words;
use std::alloc::{AllocError, Global};

/// Text and elements, each of which is closed, and no group.
#[derive(Drop)]
pub struct Markup {
    pub(crate) alloc: Global,
    pub(crate) bytes: String,
    ghost closed: { ∥ IsMarkup [] (string_bytes bytes) ∥₁ },
}

impl Markup {
    /// Nothing yet.
    #[tactic(auto, using(crate::proofs::Trees::markup_none))]
    pub fn new(alloc: Global) -> Markup {
        Markup {
            alloc,
            bytes: String::new(alloc),
        }
    }

    /// This markup more. Where memory runs out, nothing more.
    pub fn add(&mut self, more: &Markup) -> Result<(), AllocError> {
        self.bytes.push_str(more.as_str())
    }

    /// This text more. Where memory runs out, nothing more.
    pub fn add_words(&mut self, words: &Words) -> Result<(), AllocError> {
        self.bytes.push_str(words.as_str())
    }

    /// This text more. Where memory runs out, nothing more.
    pub fn say(&mut self, text: &str) -> Result<(), AllocError> {
        let words = Words::of(self.alloc, text)?;
        self.add_words(&words)
    }

    /// The bytes.
    pub fn as_str(&self) -> &str
        ensures { ∥ IsMarkup [] result.now ∥₁ }
    {
        self.bytes.as_str()
    }
}
