//! The integer type of a text's values.
ghost use Rattle.std.specs.Prelude.{◌≡◌};
ghost use Rattle.text_lines.specs.Lexer.{lines_of};
ghost use Rattle.text_lines.specs.ValueTypes as meaning;

use crate::integer::TextInteger;
use crate::lexer::{next_line, next_word};
use crate::objects;
use model_events::event::Object;

/// An integer type that the values of a text may be.
#[derive(Clone, Copy)]
pub enum ValueType {
    U64,
    U128,
    I64,
    I128,
}

/// The type of an object's values by its name: that of an atomic's, and of every other object `u64`.
fn type_named(name: &[u8]) -> ValueType
    ensures { result ≡ meaning.type_named name.now }
{
    if u128::is_atomic(name) {
        ValueType::U128
    } else if i64::is_atomic(name) {
        ValueType::I64
    } else if i128::is_atomic(name) {
        ValueType::I128
    } else {
        ValueType::U64
    }
}

/// The object of this name, of whichever type its values are. It brings no values here: it stands for all of its name.
pub fn object_named(name: &[u8]) -> Option<Object<()>>
    ensures { result ≡ meaning.object_of_name name.now }
{
    match type_named(name) {
        ValueType::U64 => objects::object_named::<u64>(name),
        ValueType::U128 => objects::object_named::<u128>(name),
        ValueType::I64 => objects::object_named::<i64>(name),
        ValueType::I128 => objects::object_named::<i128>(name),
    }
}

/// The type of a text's values, by the object that its first line names.
pub fn type_of(text: &[u8]) -> ValueType
    ensures { result ≡ meaning.type_of_lines (lines_of text.now) }
{
    let Some((line, _)) = next_line(text) else {
        return ValueType::U64;
    };
    match next_word(line) {
        Some((name, _)) => type_named(name),
        None => ValueType::U64,
    }
}

/// Calls a function whose first parameter is the type of values, with the type of a text's values.
#[macro_export]
macro_rules! by_value_type {
    ($text:expr, $function:ident $(<$further:ty>)? ($($argument:expr),*)) => {
        match $crate::value_type::type_of($text) {
            $crate::value_type::ValueType::U64 => $function::<u64 $(, $further)?>($($argument),*),
            $crate::value_type::ValueType::U128 => $function::<u128 $(, $further)?>($($argument),*),
            $crate::value_type::ValueType::I64 => $function::<i64 $(, $further)?>($($argument),*),
            $crate::value_type::ValueType::I128 => $function::<i128 $(, $further)?>($($argument),*),
        }
    };
}
