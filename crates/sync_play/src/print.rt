//! What an event prints, and the last line.
ghost use Rattle.std.specs.Prelude.{◌≡◌, ◌++◌, ℕ, List, OnOk, string_bytes};
ghost use Rattle.model_events.specs.declared.event.Event.{Event as AnEvent};
ghost use Rattle.model_events.specs.declared.event.Object.{Object as AnObject};
ghost use Rattle.sync_steps.specs.Machine.{StandsAt};
ghost use Rattle.sync_steps.specs.Runs.{word_in};
ghost use Rattle.sync_play.specs.Print.{answer_words, party_words, wake_line, then_line, event_lines, further_words, last_line};

use std::alloc::{AllocError, Allocator};
use sync_steps::steps::{Act, Answer, Event, Machine, Object, Then, Wake};
use text_lines::integer::TextInteger;

/// Prints what a call answers.
pub fn print_answer<T: TextInteger, A: Allocator>(
    out: &mut String<A>,
    answer: Answer<T>,
) -> Result<(), AllocError>
    ensures { OnOk result (string_bytes out.new ≡ string_bytes out.old ++ answer_words T.numerals answer) }
{
    match answer {
        Answer::Success => out.push_str("success"),
        Answer::Interrupted => out.push_str("interrupted"),
        Answer::InterruptedHeld => out.push_str("interrupted held"),
        Answer::Done => out.push_str("done"),
        Answer::Ok => out.push_str("ok"),
        Answer::Full => out.push_str("full"),
        Answer::Number(number) => write!(out, "{number}"),
        Answer::Flag(true) => out.push_str("true"),
        Answer::Flag(false) => out.push_str("false"),
        Answer::Value(value) => value.print(out),
        Answer::OkOld(old) => {
            out.push_str("ok ")?;
            old.print(out)
        }
        Answer::ErrOld(old) => {
            out.push_str("err ")?;
            old.print(out)
        }
    }
}

/// Prints the number of a party, which is counted from 0 here and from 1 in a text, and a space.
///
/// A number of one digit is there already: to write one out takes longer than a step.
#[tactic(auto, using(crate::proofs::PrintLaws::number_printed))]
fn print_number<A: Allocator>(out: &mut String<A>, party: usize) -> Result<(), AllocError>
    ensures { OnOk result (string_bytes out.new ≡ string_bytes out.old ++ party_words party) }
{
    match party {
        0 => out.push_str("1 "),
        1 => out.push_str("2 "),
        2 => out.push_str("3 "),
        3 => out.push_str("4 "),
        4 => out.push_str("5 "),
        5 => out.push_str("6 "),
        6 => out.push_str("7 "),
        7 => out.push_str("8 "),
        8 => out.push_str("9 "),
        _ => {
            // Wide, so that the number of every party can be counted from 1.
            let number = party as u128 + 1;
            write!(out, "{number} ")
        }
    }
}

/// A call of a wake closure, by a party counted from 0.
#[inline(never)]
fn print_wake<A: Allocator>(out: &mut String<A>, party: usize, wake: Wake) -> Result<(), AllocError>
    ensures { OnOk result (string_bytes out.new ≡ string_bytes out.old ++ wake_line party wake) }
{
    print_number(out, party)?;
    match wake {
        Wake::One => out.push_str("wakes one\n"),
        Wake::All => out.push_str("wakes all\n"),
    }
}

/// How the call of a party stands then.
#[inline(never)]
fn print_then<T: TextInteger, A: Allocator>(
    out: &mut String<A>,
    party: usize,
    then: Then<T>,
) -> Result<(), AllocError>
    ensures { OnOk result (string_bytes out.new ≡ string_bytes out.old ++ then_line T.numerals party then) }
{
    match then {
        Then::GoesOn => Ok(()),
        Then::Waits(seen) => {
            print_number(out, party)?;
            writeln!(out, "waits {seen}")
        }
        Then::Chooses(old) => {
            print_number(out, party)?;
            out.push_str("chooses ")?;
            old.print(out)?;
            out.push_str("\n")
        }
        Then::Answers(answer) => {
            print_number(out, party)?;
            print_answer(out, answer)?;
            out.push_str("\n")
        }
    }
}

/// Prints what an event prints: a call of a wake closure, a stand at a closure, or an answer.
///
/// Most events print nothing, so what prints stands apart.
#[inline(always)]
pub fn print_event<T: TextInteger, A: Allocator>(
    out: &mut String<A>,
    event: &Event<T>,
) -> Result<(), AllocError>
    ensures { OnOk result (string_bytes out.new ≡ string_bytes out.old ++ event_lines T.numerals event.now) }
{
    if let Act::Woke(wake) = event.act {
        print_wake(out, event.party, wake)?;
    }
    match event.then {
        Then::GoesOn => Ok(()),
        then => print_then(out, event.party, then),
    }
}

/// Prints the words that the last line tells after the first.
pub fn print_further_words<T: TextInteger, A: Allocator, B: Allocator>(
    out: &mut String<A>,
    machine: &Machine<T, B>,
) -> Result<(), AllocError>
    ensures { (o : AnObject T) (parties : ℕ) (past : List (AnEvent T)) → StandsAt T.arithmetic o parties past machine.now →
        OnOk result (string_bytes out.new ≡ string_bytes out.old ++ further_words T.arithmetic T.numerals o (word_in T.arithmetic o past)) }
{
    match machine.object() {
        Object::WriterLock => {
            let counter = machine.counter();
            write!(out, " counter {counter}")
        }
        Object::Condvar => {
            let waiters = machine.waiters();
            let value = machine.value();
            write!(out, " waiters {waiters} value {value}")
        }
        Object::Atomic(_) => {
            let (low, high) = machine.low_high();
            write!(out, " value ")?;
            T::from_words(low, high).print(out)
        }
        _ => Ok(()),
    }
}

/// Prints the last line: the words of the object, and how many exchanges failed.
pub fn print_last<T: TextInteger, A: Allocator, B: Allocator>(
    out: &mut String<A>,
    machine: &Machine<T, B>,
) -> Result<(), AllocError>
    ensures { (o : AnObject T) (parties : ℕ) (past : List (AnEvent T)) → StandsAt T.arithmetic o parties past machine.now →
        OnOk result (string_bytes out.new ≡ string_bytes out.old ++ last_line T.arithmetic T.numerals o past) }
{
    let word = machine.word();
    let failed = machine.failed();
    write!(out, "word {word}")?;
    print_further_words(out, machine)?;
    writeln!(out, " failed {failed}")
}
