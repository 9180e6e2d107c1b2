//! Why a run of the program ended early.
ghost use Rattle.std.specs.Prelude.{◌≡◌};

use std::alloc::{AllocError, AllocFailed};
use std::fmt;

/// Why a run of the program ended early.
#[derive(Clone, Copy, Debug, PartialEq, Eq)]
pub enum BenchFault {
    /// The input is no number of rounds, or one above the limit. Nothing was written.
    Rounds,
    /// The reader failed. Nothing was written.
    Read,
    /// The writer failed. A beginning of the table may have been written.
    Write,
    /// The clock could not be read. Nothing was written.
    Clock,
    /// An operation did not do what it does with one thread, so its figures would mean nothing. Nothing was written.
    Refused,
    /// Memory ran out. Nothing was written.
    Memory,
}

impl BenchFault {
    /// The exit status: 2 for a fault of the input, else 1.
    pub fn status(&self) -> u8 {
        match self {
            BenchFault::Rounds => 2,
            _ => 1,
        }
    }
}

impl fmt::Display for BenchFault {
    fn fmt<W: fmt::Write>(&self, f: &mut fmt::Formatter<W>) -> fmt::Result {
        match self {
            BenchFault::Rounds => write!(f, "bad number of rounds"),
            BenchFault::Read => write!(f, "reading failed"),
            BenchFault::Write => write!(f, "writing failed"),
            BenchFault::Clock => write!(f, "the clock failed"),
            BenchFault::Refused => write!(f, "an operation was refused"),
            BenchFault::Memory => write!(f, "no memory"),
        }
    }
}

impl From<AllocError> for BenchFault {
    ghost use Rattle.bench_table.specs.declared.fault.BenchFault.TheVariants as faults;

    ghost from_gives = { λ _ e. e ≡ faults.Memory };

    fn from(_error: AllocError) -> BenchFault {
        BenchFault::Memory
    }
}

impl<T: Drop> From<AllocFailed<T>> for BenchFault {
    ghost use Rattle.bench_table.specs.declared.fault.BenchFault.TheVariants as faults;

    ghost from_gives = { λ _ e. e ≡ faults.Memory };

    fn from(_error: AllocFailed<T>) -> BenchFault {
        BenchFault::Memory
    }
}
