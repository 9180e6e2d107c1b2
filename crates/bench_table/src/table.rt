//! The table that is printed: a head, and a line for each line that was measured.
//!
//! The columns of a line are parted by one tab: its name, the median, the lower and the upper tenth of the nanoseconds that
//! an operation took. A figure has two decimals.

use crate::measure::Column;
use crate::tenths::Tenths;
use std::alloc::AllocError;

/// The first line, which is also printed where no round was run.
pub const HEAD: &str = "name\tmedian\tlower tenth\tupper tenth\n";

/// Prints a figure, given in hundredths.
fn print_figure(out: &mut String, hundredths: u64) -> Result<(), AllocError> {
    let whole = hundredths / 100;
    let first = hundredths / 10 % 10;
    let second = hundredths % 10;
    write!(out, "{whole}.{first}{second}")
}

/// Prints the figures of a line, parted by tabs.
fn print_tenths(out: &mut String, tenths: Tenths) -> Result<(), AllocError> {
    print_figure(out, tenths.median)?;
    write!(out, "\t")?;
    print_figure(out, tenths.lower)?;
    write!(out, "\t")?;
    print_figure(out, tenths.upper)
}

/// Prints the line of the table of this name.
fn print_line(out: &mut String, name: &str, tenths: Tenths) -> Result<(), AllocError> {
    write!(out, "{name}\t")?;
    print_tenths(out, tenths)?;
    writeln!(out)
}

/// Prints the line of the table for a column, whose figures it puts in order. Without figures it has none.
fn print_column(out: &mut String, column: &mut Column) -> Result<(), AllocError> {
    if column.figures.is_empty() {
        return Ok(());
    }
    let tenths = Tenths::of(&mut column.figures);
    print_line(out, column.line.name(), tenths)
}

/// Prints the lines of the table, one for each column, and puts the figures of each in order.
pub fn print_columns(out: &mut String, columns: &mut [Column]) -> Result<(), AllocError> {
    for column in columns.iter_mut() {
        print_column(out, column)?;
    }
    Ok(())
}
