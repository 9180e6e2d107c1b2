//! Text, with each special character escaped.
ghost use Rattle.std.specs.Prelude.{◌≡◌, ◌++◌, OnOk, string_bytes};
ghost use Rattle.std.specs.List.{flat_map};
ghost use Rattle.std.specs.Str.{chars, encode_utf8_all};
ghost use Rattle.draw_markup.specs.Tree.{IsWords, shown};

use std::alloc::{AllocError, Global};

/// Text as markup has it: in an element, or as the value of an attribute.
#[derive(Drop)]
pub struct Words {
    bytes: String,
    ghost escaped: { ∥ IsWords (string_bytes bytes) ∥₁ },
}

/// Writes a character as markup has it.
fn push_shown(bytes: &mut String, char: char) -> Result<(), AllocError>
    ensures { OnOk result (string_bytes bytes.new ≡ string_bytes bytes.old ++ shown char) }
{
    match char {
        '"' => bytes.push_str("&quot;"),
        '&' => bytes.push_str("&amp;"),
        '\'' => bytes.push_str("&#39;"),
        '<' => bytes.push_str("&lt;"),
        '>' => bytes.push_str("&gt;"),
        '\u{0}'..='\u{9}' | '\u{b}'..='\u{1f}' | '\u{fffe}' | '\u{ffff}' => bytes.push_str("?"),
        _ => bytes.push(char),
    }
}

/// Writes text as markup has it.
pub(crate) fn push_words(bytes: &mut String, text: &str) -> Result<(), AllocError>
    ensures shown { OnOk result (string_bytes bytes.new ≡ string_bytes bytes.old ++ flat_map shown (chars text.now)) }
    ensures text { encode_utf8_all (chars text.now) ≡ text.now }
{
    for char in text.chars() {
        push_shown(bytes, char)?;
    }
    Ok(())
}

impl Words {
    /// This text.
    #[tactic(auto, using(crate::proofs::Trees::words_of))]
    pub fn of(alloc: Global, text: &str) -> Result<Words, AllocError> {
        let mut bytes = String::new(alloc);
        push_words(&mut bytes, text)?;
        Ok(Words { bytes })
    }

    /// The text.
    pub fn as_str(&self) -> &str
        ensures { ∥ IsWords result.now ∥₁ }
    {
        self.bytes.as_str()
    }
}
