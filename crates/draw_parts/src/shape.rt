//! The elements that a picture is made of.
use draw_markup::markup::Markup;
use draw_markup::name::{Key, Tag};
use draw_markup::opening::Opening;
use std::alloc::{AllocError, Global};

/// An element of a class.
fn of_class(alloc: Global, tag: Tag, class: &str) -> Result<Opening, AllocError> {
    Opening::new(alloc, tag)?.with(Key::Class, class)
}

/// An element with two numbers more.
pub fn with_numbers(
    shape: Opening,
    first: (Key, u64),
    second: (Key, u64),
) -> Result<Opening, AllocError> {
    shape.at(first.0, first.1)?.at(second.0, second.1)
}

/// An element at a place.
fn placed(shape: Opening, x: u64, y: u64) -> Result<Opening, AllocError> {
    with_numbers(shape, (Key::X, x), (Key::Y, y))
}

/// A rectangle.
pub fn rect(
    alloc: Global,
    class: &str,
    left: u64,
    top: u64,
    width: u64,
    height: u64,
) -> Result<Opening, AllocError> {
    let corner = placed(of_class(alloc, Tag::Rect, class)?, left, top)?;
    with_numbers(corner, (Key::Width, width), (Key::Height, height))
}

/// A line from one place to another.
pub fn line(
    alloc: Global,
    class: &str,
    from: (u64, u64),
    to: (u64, u64),
) -> Result<Opening, AllocError> {
    let line = of_class(alloc, Tag::Line, class)?;
    let begun = with_numbers(line, (Key::X1, from.0), (Key::Y1, from.1))?;
    with_numbers(begun, (Key::X2, to.0), (Key::Y2, to.1))
}

/// A circle round a place.
pub fn circle(
    alloc: Global,
    class: &str,
    x: u64,
    y: u64,
    radius: u64,
) -> Result<Opening, AllocError> {
    let circle = of_class(alloc, Tag::Circle, class)?;
    with_numbers(circle, (Key::CenterX, x), (Key::CenterY, y))?.at(Key::Radius, radius)
}

/// A way of lines.
pub fn path(alloc: Global, class: &str, outline: &str) -> Result<Opening, AllocError> {
    of_class(alloc, Tag::Path, class)?.with(Key::Outline, outline)
}

/// Words at a place.
fn text(alloc: Global, class: &str, x: u64, y: u64) -> Result<Opening, AllocError> {
    placed(of_class(alloc, Tag::Text, class)?, x, y)
}

/// Puts an element into a picture, on a line of its own.
pub fn put(picture: &mut Markup, element: Markup) -> Result<(), AllocError> {
    picture.add(&element)?;
    picture.say("\n")
}

/// Puts an element with nothing inside into a picture.
pub fn put_shape(picture: &mut Markup, shape: Opening) -> Result<(), AllocError> {
    put(picture, shape.empty()?)
}

/// The title of an element.
pub fn title_of(alloc: Global, title: &str) -> Result<Markup, AllocError> {
    Opening::new(alloc, Tag::Title)?.saying(title)
}

/// Puts an element with a title into a picture, which a browser shows where one points at it.
pub fn put_titled(
    alloc: Global,
    picture: &mut Markup,
    shape: Opening,
    title: &str,
) -> Result<(), AllocError> {
    let title = title_of(alloc, title)?;
    put(picture, shape.around(&title)?)
}

/// Puts words at a place of a picture.
pub fn put_text(
    alloc: Global,
    picture: &mut Markup,
    class: &str,
    x: u64,
    y: u64,
    words: &str,
) -> Result<(), AllocError> {
    put(picture, text(alloc, class, x, y)?.saying(words)?)
}
