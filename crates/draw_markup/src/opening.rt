//! An element whose attributes are being written.
ghost use Rattle.std.specs.Prelude.{◌≡◌, [], List, ℕ, IfOk, string_bytes};
ghost use Rattle.draw_markup.specs.Tree.{IsOpening, IsMarkup, IsElement};
ghost use Rattle.draw_markup.specs.Group.{titles_of};

use crate::group::{Group, push_groups};
use crate::markup::Markup;
use crate::name::{Key, Tag, key_name, tag_name};
use crate::words::Words;
use std::alloc::{AllocError, Global};

/// An element of which nothing is written but its attributes so far. It is closed by [`Opening::around`].
#[derive(Drop)]
pub struct Opening {
    alloc: Global,
    /// What the element is.
    pub tag: Tag,
    bytes: String,
    ghost open: { ∥ IsOpening tag (string_bytes bytes) ∥₁ },
}

impl Opening {
    /// An element without attributes yet.
    #[tactic(auto, using(crate::proofs::Trees::opening_first))]
    pub fn new(alloc: Global, tag: Tag) -> Result<Opening, AllocError>
        ensures { IfOk result (λ opening. opening.tag ≡ tag) }
    {
        let mut bytes = String::from_str(alloc, "<")?;
        bytes.push_str(tag_name(tag))?;
        Ok(Opening { alloc, tag, bytes })
    }

    /// An attribute more, with this value.
    #[tactic(auto, using(crate::proofs::Trees::opening_more))]
    pub fn with_words(self, key: Key, value: &Words) -> Result<Opening, AllocError>
        ensures { IfOk result (λ opening. opening.tag ≡ self.tag) }
    {
        let Opening {
            alloc,
            tag,
            mut bytes,
        } = self;
        bytes.push_str(" ")?;
        bytes.push_str(key_name(key))?;
        bytes.push_str("=\"")?;
        bytes.push_str(value.as_str())?;
        bytes.push_str("\"")?;
        Ok(Opening { alloc, tag, bytes })
    }

    /// An attribute more, with this text.
    pub fn with(self, key: Key, value: &str) -> Result<Opening, AllocError>
        ensures { IfOk result (λ opening. opening.tag ≡ self.tag) }
    {
        let words = Words::of(self.alloc, value)?;
        self.with_words(key, &words)
    }

    /// An attribute more, with this number.
    pub fn at(self, key: Key, value: u64) -> Result<Opening, AllocError>
        ensures { IfOk result (λ opening. opening.tag ≡ self.tag) }
    {
        let digits = format!(in self.alloc; "{value}")?;
        self.with(key, digits.as_str())
    }

    /// The element whole: with nothing inside, and closed.
    pub fn empty(self) -> Result<Markup, AllocError> {
        let nothing = Markup::new(self.alloc);
        self.around(&nothing)
    }

    /// The element whole: with this text inside, and closed.
    pub fn saying(self, text: &str) -> Result<Markup, AllocError> {
        let mut inside = Markup::new(self.alloc);
        inside.say(text)?;
        self.around(&inside)
    }

    /// The element whole: with this inside, and closed.
    #[tactic(auto, using(crate::proofs::Trees::markup_of_element))]
    pub fn around(self, inside: &Markup) -> Result<Markup, AllocError> {
        let alloc = self.alloc;
        let bytes = self.whole(inside)?;
        Ok(Markup { alloc, bytes })
    }

    /// The bytes of the element whole.
    pub fn whole(self, inside: &Markup) -> Result<String, AllocError>
        ensures { IfOk result (λ bytes. ∥ IsElement self.tag [] (string_bytes bytes) ∥₁) }
    {
        self.close(inside.as_str())
    }

    /// The bytes of the element whole: with these groups inside, in order, each on a line of its own, after and before other markup.
    pub fn whole_with(
        self,
        before: &Markup,
        groups: &[Group<'_>],
        after: &Markup,
    ) -> Result<String, AllocError>
        ensures { IfOk result (λ bytes. ∥ IsElement self.tag (titles_of groups.now) (string_bytes bytes) ∥₁) }
    {
        let mut inside = String::from_str(self.alloc, before.as_str())?;
        push_groups(&mut inside, groups)?;
        inside.push_str(after.as_str())?;
        self.close(inside.as_str())
    }

    /// The bytes of the element with this inside, and closed.
    fn close(self, inside: &str) -> Result<String, AllocError>
        ensures { (titles : List (List ℕ)) → ∥ IsMarkup titles inside.now ∥₁ →
            IfOk result (λ bytes. ∥ IsElement self.tag titles (string_bytes bytes) ∥₁) }
    {
        let Opening { tag, mut bytes, .. } = self;
        bytes.push_str(">")?;
        bytes.push_str(inside)?;
        bytes.push_str("</")?;
        bytes.push_str(tag_name(tag))?;
        bytes.push_str(">")?;
        Ok(bytes)
    }
}
