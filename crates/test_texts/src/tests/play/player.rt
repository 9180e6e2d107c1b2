use std::alloc::AllocError;
use std::test::Fail;
use sync_play::player::next_events;
use sync_play::print::{print_event, print_last};
use sync_steps::steps::{Machine, Object};
use text_lines::command::{Command, Task};
use text_lines::fault::LineFault;
use text_lines::header::Header;

#[test]
fn a_header_is_read(rt: HostRuntime) -> Result<(), Fail> {
    let header = Header::<u64>::parse(b"semaphore 64 5")
        .ok()
        .ok_or("it is one")?;
    assert!(rt; matches!(header.object, Object::Semaphore(5)));
    assert_eq!(rt; header.parties, 64);
    Ok(())
}

/// Plays a line of a mutex one event at a time, and prints each: how many there are, if each is one step of party 1.
fn print_events(
    machine: &mut Machine<u64>,
    out: &mut String,
    line: &[u8],
) -> Result<Option<u64>, AllocError> {
    let Ok(Some(mut left)) = Command::parse(Object::Mutex, line) else {
        return Ok(None);
    };
    for events in 0..10u64 {
        match next_events(machine, &mut left) {
            Ok(Some(found)) if found.times == 1 && found.event.party == 0 => {
                print_event(out, &found.event)?;
            }
            Ok(None) => return Ok(Some(events)),
            _ => return Ok(None),
        }
    }
    Ok(None)
}

#[test]
fn events_one_at_a_time(rt: HostRuntime) -> Result<(), Fail> {
    let mut machine = Machine::<u64>::new(rt.alloc(), Object::Mutex, 2)?;
    let mut out = String::new(rt.alloc());
    for (line, events) in [("1 lock", 1), ("1 go", 1), ("1 unlock", 1), ("1 run", 2)] {
        let printed = print_events(&mut machine, &mut out, line.as_bytes())?;
        assert_eq!(rt; printed, Some(events));
    }
    print_last(&mut out, &machine)?;
    assert_eq!(rt;
        out.as_str(),
        "1 success\n1 wakes one\n1 done\nword 0 failed 0\n"
    );
    Ok(())
}

/// Whether a line of a semaphore that asks for a run is refused, since the party is idle, and asks for the same afterwards.
fn refuses_idle(machine: &mut Machine<u64>) -> bool {
    let Ok(Some(mut left)) = Command::parse(Object::Semaphore(3), b" 1 run") else {
        return false;
    };
    let is_refused = match next_events(machine, &mut left) {
        Err(LineFault::Idle) => true,
        Ok(_) | Err(_) => false,
    };
    is_refused && left.party == 0 && matches!(left.task, Task::Run(100000))
}

#[test]
fn a_refused_command_keeps_its_machine(rt: HostRuntime) -> Result<(), Fail> {
    let mut machine = Machine::<u64>::new(rt.alloc(), Object::Semaphore(3), 1)?;
    let is_refused = refuses_idle(&mut machine);
    assert_eq!(rt; (is_refused, machine.word()), (true, 3));
    Ok(())
}
