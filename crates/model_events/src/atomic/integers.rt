//! The integers that an atomic may hold.
ghost use Rattle.model_events.specs.Integers.{u64_arithmetic, u128_arithmetic, i64_arithmetic, i128_arithmetic};
ghost use Rattle.std.specs.Prelude.{true, false, codes};
ghost use Rattle.std.proofs.Common.{rules};
ghost use Rattle.model_events.specs.IntegerLaws as laws;

use super::internal::AtomicInteger;

/// How many values a 64-bit word has.
const WORD_VALUES: u128 = 1 << 64;

impl AtomicInteger for u64 {
    const NAME: &'static str = "u64";

    ghost shown_name = { codes "u64" };

    ghost arithmetic = { u64_arithmetic };

    ghost can_and = { Prim.search rules };

    ghost can_or = { Prim.search rules };

    ghost can_xor = { Prim.search rules };

    ghost can_invert = { Prim.search rules };

    ghost and_gives = { Prim.search rules };

    ghost or_gives = { Prim.search rules };

    ghost xor_gives = { Prim.search rules };

    ghost inverse_gives = { Prim.search rules };

    ghost greater_gives = { Prim.search rules };

    ghost lesser_gives = { Prim.search rules };

    ghost same_gives = { Prim.search rules };

    ghost closed = { laws.unsigned_closed false };

    fn type_name() -> &'static str {
        Self::NAME
    }

    fn to_words(self) -> (u64, u64) {
        (self, 0)
    }

    fn from_words(low: u64, _high: u64) -> Self {
        low
    }

    fn overflowing_add(self, rhs: Self) -> (Self, bool) {
        u64::overflowing_add(self, rhs)
    }

    fn overflowing_sub(self, rhs: Self) -> (Self, bool) {
        u64::overflowing_sub(self, rhs)
    }
}

impl AtomicInteger for u128 {
    const NAME: &'static str = "u128";

    ghost shown_name = { codes "u128" };

    ghost arithmetic = { u128_arithmetic };

    ghost can_and = { Prim.search rules };

    ghost can_or = { Prim.search rules };

    ghost can_xor = { Prim.search rules };

    ghost can_invert = { Prim.search rules };

    ghost and_gives = { Prim.search rules };

    ghost or_gives = { Prim.search rules };

    ghost xor_gives = { Prim.search rules };

    ghost inverse_gives = { Prim.search rules };

    ghost greater_gives = { Prim.search rules };

    ghost lesser_gives = { Prim.search rules };

    ghost same_gives = { Prim.search rules };

    ghost closed = { laws.unsigned_closed true };

    fn type_name() -> &'static str {
        Self::NAME
    }

    fn to_words(self) -> (u64, u64) {
        ((self % WORD_VALUES) as u64, (self / WORD_VALUES) as u64)
    }

    fn from_words(low: u64, high: u64) -> Self {
        high as u128 * WORD_VALUES + low as u128
    }

    fn overflowing_add(self, rhs: Self) -> (Self, bool) {
        u128::overflowing_add(self, rhs)
    }

    fn overflowing_sub(self, rhs: Self) -> (Self, bool) {
        u128::overflowing_sub(self, rhs)
    }
}

impl AtomicInteger for i64 {
    const NAME: &'static str = "i64";

    ghost shown_name = { codes "i64" };

    ghost arithmetic = { i64_arithmetic };

    ghost can_and = { Prim.search rules };

    ghost can_or = { Prim.search rules };

    ghost can_xor = { Prim.search rules };

    ghost can_invert = { Prim.search rules };

    ghost and_gives = { Prim.search rules };

    ghost or_gives = { Prim.search rules };

    ghost xor_gives = { Prim.search rules };

    ghost inverse_gives = { Prim.search rules };

    ghost greater_gives = { Prim.search rules };

    ghost lesser_gives = { Prim.search rules };

    ghost same_gives = { Prim.search rules };

    ghost closed = { laws.signed_closed false };

    fn type_name() -> &'static str {
        Self::NAME
    }

    fn to_words(self) -> (u64, u64) {
        (self.cast_unsigned(), 0)
    }

    fn from_words(low: u64, _high: u64) -> Self {
        low.cast_signed()
    }

    fn overflowing_add(self, rhs: Self) -> (Self, bool) {
        i64::overflowing_add(self, rhs)
    }

    fn overflowing_sub(self, rhs: Self) -> (Self, bool) {
        i64::overflowing_sub(self, rhs)
    }
}

impl AtomicInteger for i128 {
    const NAME: &'static str = "i128";

    ghost shown_name = { codes "i128" };

    ghost arithmetic = { i128_arithmetic };

    ghost can_and = { Prim.search rules };

    ghost can_or = { Prim.search rules };

    ghost can_xor = { Prim.search rules };

    ghost can_invert = { Prim.search rules };

    ghost and_gives = { Prim.search rules };

    ghost or_gives = { Prim.search rules };

    ghost xor_gives = { Prim.search rules };

    ghost inverse_gives = { Prim.search rules };

    ghost greater_gives = { Prim.search rules };

    ghost lesser_gives = { Prim.search rules };

    ghost same_gives = { Prim.search rules };

    ghost closed = { laws.signed_closed true };

    fn type_name() -> &'static str {
        Self::NAME
    }

    fn to_words(self) -> (u64, u64) {
        self.cast_unsigned().to_words()
    }

    fn from_words(low: u64, high: u64) -> Self {
        u128::from_words(low, high).cast_signed()
    }

    fn overflowing_add(self, rhs: Self) -> (Self, bool) {
        i128::overflowing_add(self, rhs)
    }

    fn overflowing_sub(self, rhs: Self) -> (Self, bool) {
        i128::overflowing_sub(self, rhs)
    }
}
