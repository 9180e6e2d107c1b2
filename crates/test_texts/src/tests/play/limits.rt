//! Runs of a party that another lets go on in the end. Within a line of a text nobody else moves, so no text has such a run.
use std::alloc::{AllocError, Global};
use std::test::Fail;
use sync_play::player::next_events;
use sync_steps::steps::{Answer, Call, Input, Machine, Object, Then};
use text_lines::command::{Command, STEP_LIMIT, Task};
use text_lines::fault::LineFault;

/// A run of party 2.
struct Run {
    object: Object<u64>,
    /// What comes before it.
    first: &'static [(usize, Input<u64>)],
    /// What comes after so many of its steps, and lets its call end.
    last: &'static [(usize, Input<u64>)],
    /// How its next step then goes.
    ends: [(u64, &'static str); 3],
}

const RUNS: [Run; 2] = [
    // Party 1 has the lock, and unlocks it.
    Run {
        object: Object::Spin,
        first: &[
            (0, Input::Begin(Call::Lock)),
            (0, Input::Go),
            (1, Input::Begin(Call::Lock)),
        ],
        last: &[(0, Input::Begin(Call::Unlock)), (0, Input::Go)],
        ends: [(0, "success"), (99999, "success"), (100000, "step limit")],
    },
    // The closure of party 1 runs, and ends.
    Run {
        object: Object::Once,
        first: &[
            (0, Input::Begin(Call::CallOnce)),
            (0, Input::Go),
            (0, Input::Go),
            (1, Input::Begin(Call::CallOnce)),
        ],
        last: &[(0, Input::Go), (0, Input::Go)],
        ends: [(99998, "done"), (99999, "done"), (100000, "step limit")],
    },
];

/// Gives these inputs to their parties. Whether the machine takes all.
fn takes_all(machine: &mut Machine<u64>, inputs: &[(usize, Input<u64>)]) -> bool {
    for (party, input) in inputs {
        if machine.step(*party, *input).is_err() {
            return false;
        }
    }
    true
}

/// Party 2 makes so many steps. Whether its call goes on after each.
fn goes_on(machine: &mut Machine<u64>, steps: u64) -> bool {
    let mut left = Command {
        party: 1,
        task: Task::Go(steps),
    };
    for _ in 0..steps {
        match next_events(machine, &mut left) {
            Ok(Some(found)) if matches!(found.event.then, Then::GoesOn) => {}
            Ok(None) => return true,
            _ => return false,
        }
    }
    true
}

/// What party 2 does next that has made so many steps of its run.
fn next_of_run(machine: &mut Machine<u64>, steps: u64) -> &'static str {
    let mut left = Command {
        party: 1,
        task: Task::Run(STEP_LIMIT.saturating_sub(steps)),
    };
    match next_events(machine, &mut left) {
        Ok(Some(found)) => {
            match found.event.then {
                Then::Answers(Answer::Done) => "done",
                Then::Answers(Answer::Success) => "success",
                _ => "goes on",
            }
        }
        Ok(None) => "nothing",
        Err(LineFault::StepLimit) => "step limit",
        Err(_) => "another fault",
    }
}

/// How the step of a run goes that comes after so many.
fn step_after(alloc: Global, run: &Run, steps: u64) -> Result<&'static str, AllocError> {
    let mut machine = Machine::<u64>::new(alloc, run.object, 2)?;
    if takes_all(&mut machine, run.first)
        && goes_on(&mut machine, steps)
        && takes_all(&mut machine, run.last)
    {
        Ok(next_of_run(&mut machine, steps))
    } else {
        Ok("it ends before")
    }
}

#[test]
fn a_run_ends_at_its_limit(rt: HostRuntime) -> Result<(), Fail> {
    for run in &RUNS {
        for (steps, next) in &run.ends {
            assert_eq!(rt; step_after(rt.alloc(), run, *steps)?, *next);
        }
    }
    Ok(())
}
