//! Measures how long the operations of the running types take, in one thread, and prints a table.
//!
//! The number of rounds comes from standard input, and the table goes to standard output (`bench_table` says how it looks). A round
//! runs each line once, many operations of it, and gives one figure for it. With 0 rounds the table is its head alone.
//! A fault is told on standard error in one line. The exit status is 2 for a fault of the input, and 1 where anything else
//! failed.
#![tactic(auto)]

use bench_table::run::run;
use std::process::ExitCode;

fn main(rt: HostRuntime) -> ExitCode {
    match run(&rt, rt.alloc(), &mut rt.stdin(), &mut rt.stdout()) {
        Ok(()) => ExitCode::SUCCESS,
        Err(fault) => {
            let _ = eprintln!(rt; "{fault}");
            ExitCode::from(fault.status())
        }
    }
}
