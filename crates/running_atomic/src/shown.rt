//! An atomic's value, to be printed.
use model_events::atomic::internal::AtomicInteger;
use std::fmt::{Debug, Display, Error, Formatter, Write};

/// The value that an atomic had when it was loaded, which prints as `Atomic<u64> { value: 3 }`.
#[derive(Drop)]
pub struct AtomicShown<T: AtomicInteger> {
    pub(crate) value: T,
}

impl<T: AtomicInteger> Display for AtomicShown<T> {
    ghost use Rattle.running_atomic.specs.AtomicShown.{shown_text};

    ghost output = { λ shown. shown_text T.shown_name (T.debug_output shown.value) };

    fn fmt<W: Write>(&self, f: &mut Formatter<W>) -> Result<(), Error> {
        write!(
            f,
            "Atomic<{}> {{ value: {:?} }}",
            T::type_name(),
            self.value
        )
    }
}

impl<T: AtomicInteger> Debug for AtomicShown<T> {
    fn fmt<W: Write>(&self, f: &mut Formatter<W>) -> Result<(), Error> {
        Display::fmt(self, f)
    }
}
