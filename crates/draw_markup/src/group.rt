//! Groups, each with a title.
ghost use Rattle.std.specs.Prelude.{◌++◌, ◌∷◌, [], ℕ, List, OnOk, string_bytes};
ghost use Rattle.draw_markup.specs.Tree.{IsMarkup};
ghost use Rattle.draw_markup.specs.Group.{titles_of};

use crate::markup::Markup;
use crate::words::push_words;
use std::alloc::AllocError;

/// What stands together under a title, which a browser shows where one points at it.
#[derive(Drop)]
pub struct Group<'t> {
    pub title: &'t str,
    pub inside: Markup,
}

/// Writes a group, on a line of its own.
fn push_group(bytes: &mut String, group: &Group<'_>) -> Result<(), AllocError>
    ensures { (titles : List (List ℕ)) → ∥ IsMarkup titles (string_bytes bytes.old) ∥₁ →
        OnOk result (∥ IsMarkup (titles ++ group.now.title.now ∷ []) (string_bytes bytes.new) ∥₁) }
{
    bytes.push_str("<g><title>")?;
    push_words(bytes, group.title)?;
    bytes.push_str("</title>")?;
    bytes.push_str(group.inside.as_str())?;
    bytes.push_str("</g>\n")?;
    Ok(())
}

/// Writes groups, in order, each on a line of its own.
pub(crate) fn push_groups(bytes: &mut String, groups: &[Group<'_>]) -> Result<(), AllocError>
    ensures { (titles : List (List ℕ)) → ∥ IsMarkup titles (string_bytes bytes.old) ∥₁ →
        OnOk result (∥ IsMarkup (titles ++ titles_of groups.now) (string_bytes bytes.new) ∥₁) }
{
    for group in groups {
        push_group(bytes, group)?;
    }
    Ok(())
}
