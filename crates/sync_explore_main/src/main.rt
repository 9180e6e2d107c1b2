//! Explores every schedule of a program, read from standard input. With the argument `--told` it tells the moves behind its answer, and with
//! `progress` meanwhile how far it has come.
//!
//! A fault is told on standard error in one line; of a fault of the question its line follows, and a sentence that says what would be right
//! there.
#![tactic(auto)]

mod progress;

use explore_client::run::run;
use explore_text::fault::ExploreFault;
use progress::Progress;
use std::env;
use std::io::Write;
use std::process::ExitCode;

fn main(rt: HostRuntime) -> ExitCode {
    let mut tells = false;
    let mut shows = false;
    if let Ok(args) = env::args(&rt) {
        for argument in args {
            tells |= argument.as_str() == "--told";
            shows |= argument.as_str() == "progress";
        }
    }
    let mut progress = Progress::new(&rt, shows);
    match run(
        rt.alloc(),
        &mut rt.stdin(),
        &mut rt.stdout(),
        tells,
        &mut progress,
    ) {
        Ok(answered) => {
            let _ = rt.stderr().write_all(&answered.aside);
            ExitCode::from(answered.verdict.status())
        }
        Err(unanswered) => {
            let fault = unanswered.fault;
            let _ = eprintln!(rt; "{fault}");
            if matches!(fault, ExploreFault::Search(_)) {
                progress.tell_end();
            }
            if let Some(advice) = &unanswered.advice {
                let _ = rt.stderr().write_all(advice);
            }
            ExitCode::from(fault.status())
        }
    }
}
