use crate::tests::benched;
use std::alloc::{AllocError, Global};
use std::cell::Cell;
use std::io;
use std::sync::Wait;
use std::test::Fail;
use std::time::{Clock, Duration};

/// The names of the lines, in the order of the table.
const NAMES: [&str; 43] = [
    "bare exchange store",
    "std mutex lock unlock",
    "mutex lock unlock",
    "mutex try_lock unlock",
    "mutex new drop",
    "bare load exchange subtract",
    "std rwlock read unlock",
    "std rwlock write unlock",
    "rwlock reader read unlock",
    "rwlock reader write unlock",
    "bare load exchange subtract test",
    "bare load exchange store add",
    "rwlock writer read unlock",
    "rwlock writer write unlock",
    "rwvalue read unlock",
    "rwvalue write unlock",
    "semaphore try_wait post",
    "semaphore value",
    "bare load exchange",
    "std barrier of one",
    "barrier of one",
    "std once_lock get",
    "once after",
    "bare swaps",
    "bare exchange add store",
    "std mutex add unlock",
    "spin lock unlock",
    "guarded add unlock",
    "lazy force",
    "bare load exchange loads subtract",
    "atomic u64 load",
    "atomic u128 load",
    "bare exchange stores",
    "atomic u64 store",
    "bare exchange loads stores",
    "atomic u64 fetch_add",
    "atomic u128 fetch_add",
    "atomic u64 compare_exchange",
    "bare load add",
    "std condvar notify_one",
    "condvar notify_one",
    "crossbeam_channel send receive",
    "job_queue put take",
];

const HEAD: &str = "name\tmedian\tlower tenth\tupper tenth\n";

/// A clock that goes on by so many nanoseconds at each reading.
#[derive(Drop)]
struct Steps<'a, R: Wait> {
    rt: &'a R,
    step: u64,
    read: Cell<u64>,
}

impl<R: Wait> Wait for Steps<'_, R> {}

impl<R: Wait> Clock for Steps<'_, R> {
    fn monotonic(&self) -> io::Result<Duration> {
        let next = self.read.get().saturating_add(self.step);
        self.read.set(next);
        Ok(Duration::from_nanos(next))
    }

    fn since_1970(&self) -> io::Result<Duration> {
        self.monotonic()
    }
}

#[test]
fn no_rounds_print_the_head(rt: HostRuntime) -> Result<(), Fail> {
    let table = benched(&rt, rt.alloc(), b" 0\n")?;
    assert_eq!(rt; table.as_str(), HEAD);
    Ok(())
}

/// How many rounds are asked for, what each took, in nanoseconds, and the figure of each line. A round makes 100000 operations.
const ROUNDS: [(&[u8], u64, &str); 2] = [(b"1", 4_999, "0.04"), (b"2", 100_005_000, "1000.05")];

/// The table each of whose lines has three times this figure.
fn table_of(alloc: Global, figure: &str) -> Result<String, AllocError> {
    let mut table = String::from_str(alloc, HEAD)?;
    for name in &NAMES {
        writeln!(table, "{name}\t{figure}\t{figure}\t{figure}")?;
    }
    Ok(table)
}

#[test]
fn a_line_has_a_name_and_three_figures(rt: HostRuntime) -> Result<(), Fail> {
    for (rounds, step, figure) in ROUNDS {
        let clock = Steps {
            rt: &rt,
            step,
            read: Cell::new(0),
        };
        let table = benched(&clock, rt.alloc(), rounds)?;
        let wanted = table_of(rt.alloc(), figure)?;
        assert_eq!(rt; table.as_str(), wanted.as_str());
    }
    Ok(())
}

/// Whether this is a number with two decimal places.
fn is_figure(text: &str) -> bool {
    match text.split_once('.') {
        Some((whole, hundredths)) => {
            whole.parse::<u64>().is_ok()
                && hundredths.len() == 2
                && hundredths.parse::<u64>().is_ok()
        }
        None => false,
    }
}

/// The median in the line of a table that has this name, where it is both tenths too, as it is of one round.
fn only_figure<'l>(line: &'l str, name: &str) -> Option<&'l str> {
    let (found, figures) = line.split_once('\t')?;
    let (median, tenths) = figures.split_once('\t')?;
    if found == name && tenths.split_once('\t') == Some((median, median)) {
        Some(median)
    } else {
        None
    }
}

/// The first name whose line is not that of one round, or the line after the last name's; `None` where the table is one of one round.
fn other_line(table: &str) -> Option<&str> {
    let mut lines = table.lines();
    let _head = lines.next();
    for name in &NAMES {
        let figure = only_figure(lines.next().unwrap_or(""), name).unwrap_or("");
        if !is_figure(figure) {
            return Some(*name);
        }
    }
    lines.next()
}

#[test]
fn a_round_of_the_real_clock_has_every_line(rt: HostRuntime) -> Result<(), Fail> {
    let table = benched(&rt, rt.alloc(), b"1")?;
    assert_eq!(rt; other_line(table.as_str()), None);
    Ok(())
}
