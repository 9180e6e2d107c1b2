//! The words that closures see.
ghost use Rattle.std.specs.Prelude.{◌≡◌, ℕ};
ghost use Rattle.atomic_table.specs.Seated.{TableId};

use running_passes::{Rule, Word};

/// A word of an object, as closures see it.
pub trait Shown {
    // The object that it is a word of.
    ghost object: { Self → TableId };

    // Which of its words it is.
    ghost index: { Self → ℕ };
}

/// What a word is shown as: the word itself, or one of several that a closure is made for.
pub trait OfWord<T: Shown>: Shown + Drop + Sized {
    /// Shows this word.
    fn of(word: T) -> Self
        ensures object { Self.Shown.object result ≡ T.object word }
        ensures index { Self.Shown.index result ≡ T.index word };
}

/// A word of a table, which is of that object.
impl<K, T: Rule<(), K>> Shown for Word<'_, K, T> {
    ghost use Rattle.running_model.specs.Shown.{object_shown, index_shown};

    ghost object = { object_shown };

    ghost index = { index_shown };
}

/// A word, shown as itself.
impl<'t, K, T: Rule<(), K>> OfWord<Word<'t, K, T>> for Word<'t, K, T> {
    #[inline(always)]
    fn of(word: Word<'t, K, T>) -> Word<'t, K, T> {
        word
    }
}

/// As what objects show their words, for as long as they are lent.
pub trait Shows<'t, T: Shown> {
    type As: OfWord<T>;
}

/// Each object shows its own word.
pub struct OwnWords;

impl<'t, T: OfWord<T>> Shows<'t, T> for OwnWords {
    type As = T;
}

/// A word as closures see it, sealed: a closure is handed it where a call of the model stands at that, and nobody else can open it.
#[derive(Drop)]
pub struct Sealed<X> {
    pub(crate) shown: X,
}

impl<X> Sealed<X> {
    /// Seals this word.
    #[inline(always)]
    pub fn of(word: X) -> Sealed<X>
        ensures { result.shown ≡ word }
    {
        Sealed { shown: word }
    }
}
