//! The closure before it is called, and what is known of its value after.
ghost use Rattle.running_lazy_lock.specs.Given.{IsGiven};

use crate::gives::Gives;
use boxcar::slot::SlotRule;
use running_spin_lock::SpinPass;
use std::marker::{Model, PhantomData};

/// The closure, of which `may` is kept.
#[derive(Drop)]
pub(crate) struct Init<T, F, G: Gives<T, F>> {
    pub(crate) make: F,
    pub(crate) by: PhantomData<(T, G)>,
}

impl<T, F, G: Gives<T, F>> Model for Init<T, F, G> {
    ghost Value = { F };

    ghost view = { λ init. init.make };

    ghost invariant = { λ init. G.may init.make };
}

/// What is known of the value in its slot: such a closure gives it.
pub(crate) struct Given<F, G> {
    by: PhantomData<(F, G)>,
}

impl<T, F, G: Gives<T, F>> SlotRule<T> for Given<F, G> {
    ghost holds = { λ _ value. IsGiven G.may G.gives value };
}

impl<T, F, G: Gives<T, F>> Init<T, F, G> {
    ghost use Rattle.std.specs.Prelude.{◌≡◌};

    /// The closure, which was kept.
    pub(crate) fn into_closure(self) -> F
        ensures same { result ≡ self }
        ensures kept { G.may result }
    {
        let Init { make, by: _ } = self;
        make
    }

    /// The value that the closure gives. It is lent the pass of the closure's lock, so no guard of that stands.
    pub(crate) fn call(self, _unlocked: &SpinPass) -> T
    where
        F: FnOnce() -> T,
        requires keeps { (f : F) → G.may f → F.IsAlwaysCallable f × ((value : T) → F.post f value → G.gives f value) }
        ensures made { IsGiven G.may F.post result }
        ensures given { IsGiven G.may G.gives result }
    {
        let make = self.into_closure();
        make()
    }
}
