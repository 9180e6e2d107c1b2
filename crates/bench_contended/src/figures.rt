//! What a race comes to.
use std::fmt;
use std::time::Duration;

/// How often all threads together operated, and those that did least and most often.
#[derive(Clone, Copy)]
pub struct Counts {
    pub all: u64,
    pub least: u64,
    pub most: u64,
}

impl Counts {
    /// The figures of a race that took so long, in which all threads together used so much of the processors.
    pub fn figures(self, took: Duration, used: Duration) -> Figures {
        let all = u128::from(self.all);
        Figures {
            per_second: quotient(all * 1_000_000_000, took.as_nanos()),
            nanos: quotient(used.as_nanos(), all),
            least_to_most: quotient(u128::from(self.least) * 100, u128::from(self.most)),
        }
    }
}

/// So much among so many, rounded down; all of it where there are none.
fn quotient(whole: u128, parts: u128) -> u64 {
    u64::try_from(whole / parts.max(1)).unwrap_or(u64::MAX)
}

/// What is printed of a race, rounded down.
#[derive(Clone, Copy, Debug, PartialEq, Eq)]
pub struct Figures {
    /// Operations a second.
    pub per_second: u64,
    /// Nanoseconds of a processor that one took.
    pub nanos: u64,
    /// What the thread made that was served least, in hundredths of what the one made that was served most.
    pub least_to_most: u64,
}

/// The names of the columns of a row.
pub const HEAD: &str =
    "line\tthreads\tsection ns\toperations a second\tprocessor ns an operation\tleast to most %";

/// A row of the table.
#[derive(Clone, Copy)]
pub struct Row {
    pub name: &'static str,
    pub threads: usize,
    /// How many nanoseconds of work stand inside a critical section, and outside.
    pub section: u64,
    pub figures: Figures,
}

impl fmt::Display for Row {
    fn fmt<W: fmt::Write>(&self, f: &mut fmt::Formatter<W>) -> fmt::Result {
        let Row {
            name,
            threads,
            section,
            figures: Figures {
                per_second,
                nanos,
                least_to_most,
            },
        } = self;
        write!(
            f,
            "{name}\t{threads}\t{section}\t{per_second}\t{nanos}\t{least_to_most}"
        )
    }
}
