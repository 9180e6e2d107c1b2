//! What locking would answer where a holder panicked.

/// What would be answered with the guard where a holder panicked. Nothing panics here, so no lock makes one.
#[derive(Debug, Drop)]
pub struct PoisonError<T> {
    guard: T,
}

impl<T> PoisonError<T> {
    ghost use Rattle.std.specs.Prelude.{◌≡◌};
    ghost use Rattle.running_spin_lock.specs.Poison.{guard_of};

    /// An error with this guard in it.
    pub fn new(guard: T) -> PoisonError<T>
        ensures { guard_of result ≡ guard }
    {
        PoisonError { guard }
    }

    /// The guard of `new`.
    pub fn into_inner(self) -> T
        ensures { result ≡ guard_of self }
    {
        let PoisonError { guard } = self;
        guard
    }
}

/// What locking answers.
pub type LockResult<G> = Result<G, PoisonError<G>>;
