//! How a picture looks, in a light and in a dark page.
use crate::shape::{line, path, put, with_numbers};
use draw_markup::markup::Markup;
use draw_markup::name::{Key, Tag};
use draw_markup::opening::Opening;
use std::alloc::{AllocError, Global};

/// The style of every element, by its class. Every colour has a name, and two values, for a light and for a dark page. It stands twice,
/// plain first, for viewers that know no names of colours.
const STYLE: &str = "
svg{max-width:100%;height:auto;--ink:#1f2328;--soft:#656d76;--line:#d0d7de;--call:#eaf3fe;--edge:#54a0ff;--hold:#1f7a4d;--wait:#95600f;--bad:#b42318;--paper:#fff;--w0:#f3f4f6;--w1:#dbeafe;--w2:#fde68a;--w3:#fecdd3}
@media(prefers-color-scheme:dark){svg{--ink:#e6edf3;--soft:#9198a1;--line:#30363d;--call:#13243a;--edge:#3b82f6;--hold:#3fb27f;--wait:#e3b341;--bad:#ff7b72;--paper:#0d1117;--w0:#21262d;--w1:#1f3a5f;--w2:#5c4813;--w3:#5c1f2b}}
text{font:12px ui-monospace,SFMono-Regular,Menlo,Consolas,monospace;fill:#1f2328;fill:var(--ink)}.soft{fill:#656d76;fill:var(--soft)}.head{font-weight:700}.granted{fill:#1f7a4d;fill:var(--hold);font-weight:700}.refused{fill:#b42318;fill:var(--bad);font-weight:700}.waiting{fill:#95600f;fill:var(--wait)}.end{text-anchor:end}.mid{text-anchor:middle}
.paper{fill:#fff;fill:var(--paper)}.rule,.lane{stroke:#d0d7de;stroke:var(--line)}.call{fill:#eaf3fe;fill:var(--call);stroke:#54a0ff;stroke:var(--edge)}.open{fill:#eaf3fe;fill:var(--call);stroke:#54a0ff;stroke:var(--edge);stroke-dasharray:5 4}.read{stroke:#656d76;stroke:var(--soft);stroke-dasharray:2 3}.write,.wake{stroke:#1f2328;stroke:var(--ink);marker-end:url(#tip)}.vain{stroke:#656d76;stroke:var(--soft);stroke-dasharray:3 2;marker-end:url(#tip)}.done{fill:#1f2328;fill:var(--ink)}.look{fill:#fff;fill:var(--paper);stroke:#1f2328;stroke:var(--ink);stroke-width:1.5}.failed{stroke:#b42318;stroke:var(--bad);stroke-width:1.5}.last{fill:none;stroke:#b42318;stroke:var(--bad);stroke-width:1.5;stroke-dasharray:3 2}.stand{fill:url(#hatch)}.hatch{stroke:#95600f;stroke:var(--wait);stroke-width:2;opacity:.45}.tip{fill:#1f2328;fill:var(--ink)}.writer{fill:#1f7a4d;fill:var(--hold);stroke:#1f7a4d;stroke:var(--hold)}.reader{fill:#fff;fill:var(--paper);stroke:#1f7a4d;stroke:var(--hold);stroke-width:1.5}.zero{fill:#f3f4f6;fill:var(--w0)}.first{fill:#dbeafe;fill:var(--w1)}.second{fill:#fde68a;fill:var(--w2)}.third{fill:#fecdd3;fill:var(--w3)}.band{stroke:#d0d7de;stroke:var(--line)}
";

/// The style, as an element.
fn style(alloc: Global) -> Result<Markup, AllocError> {
    Opening::new(alloc, Tag::Style)?.saying(STYLE)
}

/// An element that others name.
fn named(alloc: Global, tag: Tag, name: &str) -> Result<Opening, AllocError> {
    Opening::new(alloc, tag)?.with(Key::Id, name)
}

/// A pattern of lines that go up.
fn pattern(alloc: Global) -> Result<Opening, AllocError> {
    let pattern = named(alloc, Tag::Pattern, "hatch")?;
    with_numbers(pattern, (Key::Width, 6), (Key::Height, 6))?
        .with(Key::Units, "userSpaceOnUse")?
        .with(Key::Transform, "rotate(45)")
}

/// The hatch of a stand.
fn hatch(alloc: Global) -> Result<Markup, AllocError> {
    let stroke = line(alloc, "hatch", (0, 0), (0, 6))?.empty()?;
    pattern(alloc)?.around(&stroke)
}

/// A marker that points along its line.
fn marker(alloc: Global) -> Result<Opening, AllocError> {
    let marker = named(alloc, Tag::Marker, "tip")?.with(Key::ViewBox, "0 0 8 8")?;
    let placed = with_numbers(marker, (Key::RefX, 7), (Key::RefY, 4))?;
    with_numbers(placed, (Key::MarkerWidth, 7), (Key::MarkerHeight, 7))?.with(Key::Orient, "auto")
}

/// The tip of an arrow.
fn tip(alloc: Global) -> Result<Markup, AllocError> {
    let outline = path(alloc, "tip", "M0,0L8,4L0,8z")?.empty()?;
    marker(alloc)?.around(&outline)
}

/// The hatch and the tip.
fn hatch_and_tip(alloc: Global) -> Result<Markup, AllocError> {
    let mut both = hatch(alloc)?;
    both.add(&tip(alloc)?)?;
    Ok(both)
}

/// What other elements name.
fn definitions(alloc: Global) -> Result<Markup, AllocError> {
    let both = hatch_and_tip(alloc)?;
    Opening::new(alloc, Tag::Defs)?.around(&both)
}

/// Draws what all else refers to.
pub fn draw_style(alloc: Global, picture: &mut Markup) -> Result<(), AllocError> {
    put(picture, style(alloc)?)?;
    put(picture, definitions(alloc)?)
}
