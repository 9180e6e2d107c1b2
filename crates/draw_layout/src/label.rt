//! A step in words, and how it is marked.
use crate::terms::{name_of, say_value};
use crate::value::{DataWords, ends_a_value};
use draw_story::story::{Story, StoryObject, StoryStep};
use std::alloc::{AllocError, Global};
use sync_play::print::print_answer;
use sync_steps::WaitAction;
use sync_steps::steps::{Act, Answer, Object, Then, Wake, Word};
use text_lines::integer::TextInteger;

/// How a step is marked.
#[derive(Clone, Copy, PartialEq, Eq)]
pub enum Mark {
    /// Not at all: a call begins.
    None,
    /// A load, the answer of a closure, or the end of one.
    Look,
    /// An exchange that was done.
    Done,
    /// An exchange that failed, or a swap that changed nothing.
    Failed,
    /// A store, an add, or a swap that changed something.
    Written,
    /// A wake.
    Wake,
}

/// How what became of a call is told.
#[derive(Clone, Copy, PartialEq, Eq)]
pub enum Tone {
    Granted,
    Refused,
    Waiting,
}

/// A word that a step reads or writes. A swap that puts what it found is told as a read.
#[derive(Clone, Copy)]
pub struct Reach {
    pub word: Word,
    pub writes: bool,
}

/// How a step is marked.
pub fn mark_of<T: Copy>(act: &Act<T>) -> Mark {
    match act {
        Act::Begun(_) => Mark::None,
        Act::Load { .. } | Act::Answered(_) | Act::Chosen(_) | Act::Ended | Act::ReadCell(_) =>
            Mark::Look,
        Act::Swap { old, put, .. } if *old == *put => Mark::Failed,
        Act::Store { .. } | Act::Swap { .. } | Act::Add { .. } => Mark::Written,
        Act::Exchange { done: true, .. } => Mark::Done,
        Act::Exchange { done: false, .. } => Mark::Failed,
        Act::Woke(_) => Mark::Wake,
    }
}

/// The word that a step reads or writes, where it is one on a word.
pub fn reach_of<T: Copy>(act: &Act<T>) -> Option<Reach> {
    match *act {
        Act::Load { word, .. } => Some(Reach {
            word,
            writes: false,
        }),
        Act::Store { word, .. } | Act::Add { word, .. } => Some(Reach { word, writes: true }),
        Act::Swap { word, old, put } => Some(Reach {
            word,
            writes: old != put,
        }),
        Act::Exchange { word, done, .. } => Some(Reach { word, writes: done }),
        Act::Begun(_)
        | Act::Woke(_)
        | Act::Answered(_)
        | Act::Chosen(_)
        | Act::Ended
        | Act::ReadCell(_) => None,
    }
}

/// How a call has ended or waits, if it does not go on.
pub fn tone_of<T: Copy>(then: &Then<T>) -> Option<Tone> {
    match then {
        Then::GoesOn => None,
        Then::Waits(_) | Then::Chooses(_) => Some(Tone::Waiting),
        Then::Answers(Answer::Interrupted)
        | Then::Answers(Answer::InterruptedHeld)
        | Then::Answers(Answer::Full) => Some(Tone::Refused),
        Then::Answers(_) => Some(Tone::Granted),
    }
}

/// A count, with a comma after its thousands.
fn say_count(out: &mut String, count: u64) -> Result<(), AllocError> {
    if count < 1000 {
        write!(out, "{count}")
    } else {
        let thousands = count / 1000;
        let rest = count % 1000;
        write!(out, "{thousands},{rest:03}")
    }
}

/// Says which word a step is on; the first word of an object goes without its name.
fn say_word<T: Copy>(out: &mut String, object: &Object<T>, word: Word) -> Result<(), AllocError> {
    if word == Word::State {
        return Ok(());
    }
    let name = name_of(object, word);
    write!(out, "{name} ")
}

/// Says a word and what a value of it means.
fn say_seen<T: Copy>(
    out: &mut String,
    object: &Object<T>,
    word: Word,
    value: u64,
) -> Result<(), AllocError> {
    say_word(out, object, word)?;
    say_value(out, object, word, value)
}

/// What a step did, in the object's terms.
fn say_act<T: TextInteger>(
    out: &mut String,
    object: &Object<T>,
    act: &Act<T>,
) -> Result<(), AllocError> {
    match *act {
        Act::Begun(_) => Ok(()),
        Act::Load { word, seen } => say_doing(out, "sees ", object, word, seen),
        Act::Store { word, put } => say_doing(out, "stores ", object, word, put),
        Act::Swap { word, old, put } if old == put => say_doing(out, "found ", object, word, old),
        Act::Swap { word, old, put } | Act::Add { word, old, put } => {
            say_change(out, object, word, old, put)
        }
        Act::Exchange {
            word,
            from,
            to,
            done: true,
            ..
        } => say_change(out, object, word, from, to),
        Act::Exchange { word, found, .. } => say_doing(out, "found ", object, word, found),
        Act::Woke(Wake::One) => out.push_str("wakes one"),
        Act::Woke(Wake::All) => out.push_str("wakes all"),
        Act::Answered(WaitAction::Continue) => out.push_str("Continue"),
        Act::Answered(WaitAction::Abort) => out.push_str("Abort"),
        Act::Chosen(Some(value)) => say_choice(out, "chooses ", value),
        Act::Chosen(None) => out.push_str("chooses none"),
        Act::Ended => out.push_str("its closure ends"),
        Act::ReadCell(value) => say_choice(out, "reads ", value),
    }
}

/// Says what is done with a value of a word.
fn say_doing<T: Copy>(
    out: &mut String,
    verb: &str,
    object: &Object<T>,
    word: Word,
    value: u64,
) -> Result<(), AllocError> {
    out.push_str(verb)?;
    say_seen(out, object, word, value)
}

/// Says what is done with a value of a closure or of a cell.
fn say_choice<T: TextInteger>(out: &mut String, verb: &str, value: T) -> Result<(), AllocError> {
    out.push_str(verb)?;
    value.print(out)
}

/// Says what a word had, and what is put there.
fn say_change<T: Copy>(
    out: &mut String,
    object: &Object<T>,
    word: Word,
    old: u64,
    put: u64,
) -> Result<(), AllocError> {
    say_seen(out, object, word, old)?;
    write!(out, " → ")?;
    say_value(out, object, word, put)
}

/// Says the value of an atomic, where a step is on the second of its two data words.
fn say_whole_value<T: TextInteger>(
    out: &mut String,
    story: &Story<T>,
    object: &StoryObject<T>,
    step: &StoryStep<T>,
) -> Result<(), AllocError> {
    if !ends_a_value(&step.event.act) {
        return Ok(());
    }
    let value: T = DataWords::after(story, step.object, object, step.row).value();
    say_choice(out, ": value ", value)
}

/// Says how often a step was made, where it was more than once.
fn say_times(out: &mut String, count: u64) -> Result<(), AllocError> {
    if count <= 1 {
        return Ok(());
    }
    out.push_str(" × ")?;
    say_count(out, count)
}

/// Says what a step did, and how often.
fn say_step<T: TextInteger>(
    out: &mut String,
    story: &Story<T>,
    step: &StoryStep<T>,
) -> Result<(), AllocError> {
    if let Some(object) = story.objects.get(step.object) {
        say_act(out, &object.object, &step.event.act)?;
        say_whole_value(out, story, object, step)?;
    }
    say_times(out, step.count)
}

/// What a step did, and how often; of the second of two data words also the value.
pub fn label_of<T: TextInteger>(
    alloc: Global,
    story: &Story<T>,
    step: &StoryStep<T>,
) -> Result<String, AllocError> {
    let mut out = String::new(alloc);
    say_step(&mut out, story, step)?;
    Ok(out)
}

/// Says that the call of a step then waits or chooses, or what it answers.
fn say_outcome<T: TextInteger>(out: &mut String, then: &Then<T>) -> Result<(), AllocError> {
    match *then {
        Then::GoesOn => Ok(()),
        Then::Waits(_) => out.push_str("waits"),
        Then::Chooses(_) => out.push_str("chooses"),
        Then::Answers(answer) => {
            if tone_of(then) == Some(Tone::Refused) {
                out.push_str("✕ ")?;
            }
            print_answer(out, answer)
        }
    }
}

/// That the call of a step then waits or chooses, or what it answers; nothing where it goes on.
pub fn outcome_of<T: TextInteger>(alloc: Global, then: &Then<T>) -> Result<String, AllocError> {
    let mut out = String::new(alloc);
    say_outcome(&mut out, then)?;
    Ok(out)
}
