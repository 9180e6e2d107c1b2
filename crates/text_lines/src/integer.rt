//! The integers that the values of a text may be.
ghost use Rattle.std.specs.Prelude.{◌≡◌, ◌++◌, true, false, OnOk, string_bytes};
ghost use Rattle.std.specs.Str.{bytes_eq};
ghost use Rattle.text_lines.specs.Numerals.{Numerals, ReadsValues, u64_numerals, u128_numerals, i64_numerals, i128_numerals};
ghost use Rattle.text_lines.specs.NumeralLaws as laws;

use crate::fault::LineFault;
use crate::lexer::{is, number_within, signed_number, wide_number};
use model_events::atomic::internal::AtomicInteger;
use std::alloc::{AllocError, Allocator};

/// An integer type whose values a text can write.
pub trait TextInteger: AtomicInteger {
    /// How a text writes its values.
    ghost numerals: { Numerals Self };

    /// Whether this is the name of an atomic that holds such values.
    fn is_atomic(name: &[u8]) -> bool
        ensures { result ≡ bytes_eq name.now numerals.atomic };

    /// The value that a word writes in decimal. A word that is no number and one that is beyond the type are `BadNumber`.
    fn parse(word: &[u8]) -> Result<Self, LineFault>
        ensures { result ≡ numerals.value_of word.now };

    /// Prints the value in decimal.
    fn print<A: Allocator>(self, out: &mut String<A>) -> Result<(), AllocError>
        ensures { OnOk result (string_bytes out.new ≡ string_bytes out.old ++ numerals.decimal_of self) };

    /// Whatever a word writes is a value of the type.
    ghost reads: { ReadsValues Self.AtomicInteger.arithmetic numerals };
}

impl TextInteger for u64 {
    ghost numerals = { u64_numerals };

    ghost reads = { laws.unsigned_reads u64_numerals.atomic false };

    fn is_atomic(name: &[u8]) -> bool {
        is(name, b"atomic_u64")
    }

    fn parse(word: &[u8]) -> Result<Self, LineFault> {
        number_within(0, u64::MAX, word)
    }

    fn print<A: Allocator>(self, out: &mut String<A>) -> Result<(), AllocError> {
        write!(out, "{self}")
    }
}

impl TextInteger for u128 {
    ghost numerals = { u128_numerals };

    ghost reads = { laws.unsigned_reads u128_numerals.atomic true };

    fn is_atomic(name: &[u8]) -> bool {
        is(name, b"atomic_u128")
    }

    fn parse(word: &[u8]) -> Result<Self, LineFault> {
        match wide_number(word) {
            Some(number) => Ok(number),
            None => Err(LineFault::BadNumber),
        }
    }

    fn print<A: Allocator>(self, out: &mut String<A>) -> Result<(), AllocError> {
        write!(out, "{self}")
    }
}

impl TextInteger for i64 {
    ghost numerals = { i64_numerals };

    ghost reads = { laws.signed_reads i64_numerals.atomic false };

    fn is_atomic(name: &[u8]) -> bool {
        is(name, b"atomic_i64")
    }

    fn parse(word: &[u8]) -> Result<Self, LineFault> {
        let Some(number) = signed_number(word) else {
            return Err(LineFault::BadNumber);
        };
        match i64::try_from(number) {
            Ok(number) => Ok(number),
            Err(_) => Err(LineFault::BadNumber),
        }
    }

    fn print<A: Allocator>(self, out: &mut String<A>) -> Result<(), AllocError> {
        i128::from(self).print(out)
    }
}

impl TextInteger for i128 {
    ghost numerals = { i128_numerals };

    ghost reads = { laws.signed_reads i128_numerals.atomic true };

    fn is_atomic(name: &[u8]) -> bool {
        is(name, b"atomic_i128")
    }

    fn parse(word: &[u8]) -> Result<Self, LineFault> {
        match signed_number(word) {
            Some(number) => Ok(number),
            None => Err(LineFault::BadNumber),
        }
    }

    fn print<A: Allocator>(self, out: &mut String<A>) -> Result<(), AllocError> {
        write!(out, "{self}")
    }
}
