//! How wide words are.
ghost use Rattle.std.specs.Prelude.{◌<◌};

/// How wide a text is, at 12 pixels in a font whose characters are equally wide.
pub fn text_width(text: &str) -> u32
    ensures { result < 8000 }
{
    match u32::try_from(text.chars().count()) {
        Ok(count) if count < 1000 => count * 29 / 4 + 1,
        _ => 7251,
    }
}
