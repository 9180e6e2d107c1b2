//! A law of the definitions of a text.
ghost use Rattle.text_lines.specs.HeaderLaw.{FirstLinesOpen};

/// A first line opens the object that it names, for as many parties as it says, with the value that it writes, whatever the type of
/// that. It says so of the definitions alone, and does nothing.
#[tactic(auto, using(crate::proofs::HeaderLaws::first_lines_open))]
pub fn first_lines_open()
    ensures { FirstLinesOpen }
{}
