//! What the integers of the atomics have in common.
ghost use Rattle.std.specs.Prelude.{◌≡◌, ℕ, List};
ghost use Rattle.std.specs.Ordering.{ord_max, ord_min};
ghost use Rattle.model_events.specs.Arithmetic.{Arithmetic, IsValue, IsClosed};

use std::fmt::Debug;
use std::ops::{BitAnd, BitOr, BitXor, Not};

/// An integer type that an atomic may hold, as in the Rust crate's `atomic::internal`.
///
/// A value goes into two 64-bit words: its two's complement bits, the low word first. A type of 64 bits has 0 as its
/// high word. All operators may be used on all values; the laws below say what they give.
pub trait AtomicInteger: Copy
    + Send
    + Ord
    + Debug
    + BitAnd<Output = Self>
    + BitOr<Output = Self>
    + BitXor<Output = Self>
    + Not<Output = Self> {
    /// The type's name, as `u64`.
    const NAME: &'static str;

    // What that is.
    ghost shown_name: { List ℕ };

    /// The type's name. A constant has no clause; this one has.
    fn type_name() -> &'static str
        ensures name { result.now ≡ shown_name };

    /// What the type's operators compute.
    ghost arithmetic: { Arithmetic Self };

    /// The two words of the value. `from_words` gives it back.
    fn to_words(self) -> (u64, u64)
        ensures low { result.0 ≡ arithmetic.low self }
        ensures high { result.1 ≡ arithmetic.high self }
        ensures value { IsValue arithmetic self };

    /// The value of two words. A type of 64 bits ignores `high`.
    fn from_words(low: u64, high: u64) -> Self
        ensures given { result ≡ arithmetic.of_words low high }
        ensures value { IsValue arithmetic result };

    /// The wrapped sum, and whether it wrapped.
    fn overflowing_add(self, rhs: Self) -> (Self, bool)
        ensures sum { result.0 ≡ arithmetic.add self rhs }
        ensures wrapped { result.1 ≡ arithmetic.add_wraps self rhs };

    /// The wrapped difference, and whether it wrapped.
    fn overflowing_sub(self, rhs: Self) -> (Self, bool)
        ensures difference { result.0 ≡ arithmetic.subtract self rhs }
        ensures wrapped { result.1 ≡ arithmetic.subtract_wraps self rhs };

    /// The operators on bits may be used on all values.
    ghost can_and: { (x y : Self) → Self.can_bitand x y };

    ghost can_or: { (x y : Self) → Self.can_bitor x y };

    ghost can_xor: { (x y : Self) → Self.can_bitxor x y };

    ghost can_invert: { (x : Self) → Self.can_not x };

    /// They give what `arithmetic` says.
    ghost and_gives: { (x y r : Self) → Self.bitand_gives x y r → r ≡ arithmetic.and x y };

    ghost or_gives: { (x y r : Self) → Self.bitor_gives x y r → r ≡ arithmetic.or x y };

    ghost xor_gives: { (x y r : Self) → Self.bitxor_gives x y r → r ≡ arithmetic.xor x y };

    ghost inverse_gives: { (x r : Self) → Self.not_gives x r → r ≡ arithmetic.inverse x };

    /// So do the comparisons.
    ghost greater_gives: { (x y : Self) → ord_max Self.cmp x y ≡ arithmetic.greater x y };

    ghost lesser_gives: { (x y : Self) → ord_min Self.cmp x y ≡ arithmetic.lesser x y };

    ghost same_gives: { (x y : Self) → Self.eq x y ≡ arithmetic.same x y };

    /// All operators lead from values of the type to values of the type.
    ghost closed: { IsClosed arithmetic };
}
