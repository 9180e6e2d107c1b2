//! Traces a schedule text, read from standard input: writes each step of its run, a row each, to standard output.
//!
//! A fault is told on standard error in one line, after the trace up to it; of a fault of the text its line follows, and a sentence that
//! says what would be right there. The exit status is 0 where the text was played, 2 for a fault of the text, and 1 where reading, writing
//! or memory failed.
#![tactic(auto)]

use std::io::Write;
use std::process::ExitCode;
use text_advice::trace::run;

fn main(rt: HostRuntime) -> ExitCode {
    match run(rt.alloc(), &mut rt.stdin(), &mut rt.stdout()) {
        Ok(()) => ExitCode::SUCCESS,
        Err(failed) => {
            let fault = failed.fault;
            let _ = eprintln!(rt; "{fault}");
            if let Some(advice) = &failed.advice {
                let _ = rt.stderr().write_all(advice);
            }
            ExitCode::from(fault.status())
        }
    }
}
