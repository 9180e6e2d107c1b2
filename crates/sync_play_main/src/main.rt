//! Plays a schedule text, of one object, of several or of a lock of one's own, read from standard input, and writes what its events print to
//! standard output.
//!
//! A fault is told on standard error in one line. The exit status is 0 where the text was played, 2 for a fault of the text,
//! and 1 where reading, writing or memory failed.
#![tactic(auto)]

use own_play::run;
use std::process::ExitCode;

fn main(rt: HostRuntime) -> ExitCode {
    match run(rt.alloc(), &mut rt.stdin(), &mut rt.stdout()) {
        Ok(()) => ExitCode::SUCCESS,
        Err(fault) => {
            let _ = eprintln!(rt; "{fault}");
            ExitCode::from(fault.status())
        }
    }
}
