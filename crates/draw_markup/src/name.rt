//! The names of elements and of their attributes.
ghost use Rattle.std.specs.Prelude.{◌≡◌};
ghost use Rattle.draw_markup.specs.Tree.{tag_words, key_words};

/// What an element is.
#[derive(Clone, Copy)]
pub enum Tag {
    Svg,
    Title,
    Style,
    Defs,
    Pattern,
    Marker,
    Rect,
    Line,
    Circle,
    Path,
    Text,
}

/// The name of an element.
pub fn tag_name(tag: Tag) -> &'static str
    ensures { result.now ≡ tag_words tag }
{
    match tag {
        Tag::Svg => "svg",
        Tag::Title => "title",
        Tag::Style => "style",
        Tag::Defs => "defs",
        Tag::Pattern => "pattern",
        Tag::Marker => "marker",
        Tag::Rect => "rect",
        Tag::Line => "line",
        Tag::Circle => "circle",
        Tag::Path => "path",
        Tag::Text => "text",
    }
}

/// What an attribute of an element is.
#[derive(Clone, Copy)]
pub enum Key {
    Namespace,
    ViewBox,
    Width,
    Height,
    Role,
    Id,
    Class,
    X,
    Y,
    X1,
    Y1,
    X2,
    Y2,
    CenterX,
    CenterY,
    Radius,
    Rounding,
    Outline,
    Units,
    Transform,
    RefX,
    RefY,
    MarkerWidth,
    MarkerHeight,
    Orient,
}

/// The name of an attribute.
pub fn key_name(key: Key) -> &'static str
    ensures { result.now ≡ key_words key }
{
    match key {
        Key::Namespace => "xmlns",
        Key::ViewBox => "viewBox",
        Key::Width => "width",
        Key::Height => "height",
        Key::Role => "role",
        Key::Id => "id",
        Key::Class => "class",
        Key::X => "x",
        Key::Y => "y",
        Key::X1 => "x1",
        Key::Y1 => "y1",
        Key::X2 => "x2",
        Key::Y2 => "y2",
        Key::CenterX => "cx",
        Key::CenterY => "cy",
        Key::Radius => "r",
        Key::Rounding => "rx",
        Key::Outline => "d",
        Key::Units => "patternUnits",
        Key::Transform => "patternTransform",
        Key::RefX => "refX",
        Key::RefY => "refY",
        Key::MarkerWidth => "markerWidth",
        Key::MarkerHeight => "markerHeight",
        Key::Orient => "orient",
    }
}
