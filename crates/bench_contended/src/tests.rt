use crate::figures::{Counts, Figures, Row};
use crate::line::LINES;
use std::test::Fail;
use std::time::Duration;

/// The counts of a race, how many nanoseconds it took and how many of the processors it used, and its figures.
const RACES: [([u64; 3], u64, u64, [u64; 3]); 5] = [
    (
        [100, 40, 60],
        1_000_000_000,
        2_000_000_000,
        [100, 20_000_000, 66],
    ),
    ([3, 1, 2], 2_000_000_000, 10, [1, 3, 50]),
    ([7, 7, 7], 1_000, 700, [7_000_000, 100, 100]),
    ([0, 0, 0], 1_000_000_000, 5, [0, 5, 0]),
    ([8, 0, 8], 0, 0, [8_000_000_000, 0, 0]),
];

fn figures([per_second, nanos, least_to_most]: [u64; 3]) -> Figures {
    Figures {
        per_second,
        nanos,
        least_to_most,
    }
}

#[test]
fn figures_of_a_race(rt: HostRuntime) {
    for ([all, least, most], took, used, want) in RACES {
        let counts = Counts { all, least, most };
        let got = counts.figures(Duration::from_nanos(took), Duration::from_nanos(used));
        assert_eq!(rt; got, figures(want));
    }
}

/// What the row of each line prints.
const ROWS: [&str; 10] = [
    "std mutex\t8\t100\t5000000\t200\t97",
    "mutex, yielding\t8\t100\t5000000\t200\t97",
    "mutex, on the word\t8\t100\t5000000\t200\t97",
    "mutex, at sleepers\t8\t100\t5000000\t200\t97",
    "guarded value, at sleepers\t8\t100\t5000000\t200\t97",
    "std rwlock, nine reads to a write\t8\t100\t5000000\t200\t97",
    "writer-preferring lock, at sleepers, nine reads to a write\t8\t100\t5000000\t200\t97",
    "value that many read, at sleepers, nine reads to a write\t8\t100\t5000000\t200\t97",
    "crossbeam_channel, send and receive\t8\t100\t5000000\t200\t97",
    "job_queue, put and take\t8\t100\t5000000\t200\t97",
];

#[test]
fn rows_of_all_lines(rt: HostRuntime) -> Result<(), Fail> {
    for (line, want) in LINES.iter().zip(ROWS) {
        let row = Row {
            name: line.name(),
            threads: 8,
            section: 100,
            figures: figures([5_000_000, 200, 97]),
        };
        let printed = format!(in rt.alloc(); "{row}")?;
        assert_eq!(rt; printed.as_str(), want);
    }
    Ok(())
}

/// Each line is raced once, by two threads for ten milliseconds: both come in.
#[test]
fn each_line_serves_two(rt: HostRuntime) -> Result<(), Fail> {
    for line in LINES {
        let figures = line.race(&rt, rt.alloc(), 2, 1, Duration::from_millis(10))?;
        assert!(rt; figures.per_second > 0, "{}", line.name());
    }
    Ok(())
}
