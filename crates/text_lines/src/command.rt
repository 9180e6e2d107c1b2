//! What a line after the first asks, and of whom.
ghost use Rattle.std.specs.Prelude.{◌≡◌, ◌||◌, is_some, ⊤};
ghost use Rattle.text_lines.specs.Lexer.{find, words_of};
ghost use Rattle.text_lines.specs.Call.{named as call_of_name};
ghost use Rattle.text_lines.specs.Objects.{calls_of as listed_calls};
ghost use Rattle.text_lines.specs.Command as meaning;

use crate::call::named;
use crate::fault::LineFault;
use crate::integer::TextInteger;
use crate::lexer::{
    is, next_word, nothing, number_within, only_number, only_two_values, only_value,
};
use crate::objects::calls_of;
use model_events::WaitAction;
use model_events::event::{Call, Input, Object};
use std::alloc::AllocError;

/// How many steps a line makes at most.
pub const STEP_LIMIT: u64 = 100000;

/// What is asked of a party, or what is left of it.
#[derive(Copy)]
pub enum Task<T> {
    /// One input.
    Give(Input<T>),
    /// So many steps.
    Go(u64),
    /// Steps until the call has answered or stands at a closure, and at most so many.
    Run(u64),
}

impl<T: Copy> Clone for Task<T> {
    ghost is_clone = { λ x y. y ≡ x };

    ghost is_infallible = { λ _. ⊤ };

    fn clone(&self) -> Result<Self, AllocError> {
        Ok(*self)
    }
}

/// A party, counted from 0, and what is asked of it.
#[derive(Copy)]
pub struct Command<T> {
    pub party: usize,
    pub task: Task<T>,
}

impl<T: Copy> Clone for Command<T> {
    ghost is_clone = { λ x y. y ≡ x };

    ghost is_infallible = { λ _. ⊤ };

    fn clone(&self) -> Result<Self, AllocError> {
        Ok(*self)
    }
}

/// What a verb that every object knows asks, and the numbers that follow it.
#[derive(Copy)]
pub(crate) enum Form<T> {
    /// This task; no number follows.
    Alone(Task<T>),
    /// Steps: one, or as many as the number says that may follow.
    Steps,
    /// An answer of the choice closure, with its value.
    Choice,
}

impl<T: Copy> Clone for Form<T> {
    ghost is_clone = { λ x y. y ≡ x };

    ghost is_infallible = { λ _. ⊤ };

    fn clone(&self) -> Result<Self, AllocError> {
        Ok(*self)
    }
}

/// The verbs that every object knows.
#[inline(always)]
pub(crate) fn verb<T>(name: &[u8]) -> Option<Form<T>>
    ensures { result ≡ find name.now meaning.verbs }
{
    if is(name, b"go") {
        Some(Form::Steps)
    } else if is(name, b"run") {
        Some(Form::Alone(Task::Run(STEP_LIMIT)))
    } else if is(name, b"wait") {
        Some(Form::Alone(Task::Give(Input::Answer(WaitAction::Continue))))
    } else if is(name, b"abort") {
        Some(Form::Alone(Task::Give(Input::Answer(WaitAction::Abort))))
    } else if is(name, b"some") {
        Some(Form::Choice)
    } else if is(name, b"none") {
        Some(Form::Alone(Task::Give(Input::Choose(None))))
    } else {
        None
    }
}

/// Whether this is a verb that a text knows of the object: one of those of every object, or one of its calls.
pub fn is_known<T: Copy>(object: Object<T>, name: &[u8]) -> bool
    ensures { result ≡ is_some (find name.now (meaning.verbs {T = T})) || is_some (call_of_name name.now (listed_calls object)) }
{
    verb::<T>(name).is_some() || named(name, calls_of(&object)).is_some()
}

/// As many steps as the number says, or one where none follows.
fn steps<T>(rest: &[u8]) -> Result<Task<T>, LineFault>
    ensures { result ≡ meaning.steps_asked (words_of rest.now) }
{
    match next_word(rest) {
        None => Ok(Task::Go(1)),
        Some(_) => Ok(Task::Go(only_number(1, STEP_LIMIT, rest)?)),
    }
}

/// The task that a verb of every object asks with the words after it.
pub(crate) fn with_numbers<T: TextInteger>(form: Form<T>, rest: &[u8]) -> Result<Task<T>, LineFault>
    ensures { result ≡ meaning.task_by T.numerals form (words_of rest.now) }
{
    match form {
        Form::Alone(task) => {
            nothing(rest)?;
            Ok(task)
        }
        Form::Steps => steps(rest),
        Form::Choice => {
            let value = only_value(rest)?;
            Ok(Task::Give(Input::Choose(Some(value))))
        }
    }
}

/// What follows the name of a call.
#[derive(Clone, Copy)]
enum Values {
    Nothing,
    /// A number of permits.
    Permits,
    /// A value.
    One,
    /// Two values.
    Two,
}

fn values_of(call: Call<()>) -> Values
    ensures { result ≡ meaning.values_of call }
{
    match call {
        Call::Post(_) => Values::Permits,
        Call::Store(())
        | Call::Swap(())
        | Call::FetchAdd(())
        | Call::FetchSub(())
        | Call::FetchAnd(())
        | Call::FetchOr(())
        | Call::FetchXor(())
        | Call::FetchNand(())
        | Call::FetchMax(())
        | Call::FetchMin(()) => Values::One,
        Call::CompareExchange((), ()) | Call::CompareExchangeWeak((), ()) => Values::Two,
        _ => Values::Nothing,
    }
}

/// A call that brings no value.
fn alone<T>(call: Call<()>) -> Call<T>
    ensures { result ≡ meaning.alone call }
{
    match call {
        Call::Lock => Call::Lock,
        Call::TryLock => Call::TryLock,
        Call::BlockingLock => Call::BlockingLock,
        Call::Unlock => Call::Unlock,
        Call::Value => Call::Value,
        Call::Wait => Call::Wait,
        Call::TryWait => Call::TryWait,
        Call::ReadLock => Call::ReadLock,
        Call::TryReadLock => Call::TryReadLock,
        Call::WriteLock => Call::WriteLock,
        Call::TryWriteLock => Call::TryWriteLock,
        Call::NotifyOne => Call::NotifyOne,
        Call::NotifyAll => Call::NotifyAll,
        Call::CallOnce => Call::CallOnce,
        Call::IsCompleted => Call::IsCompleted,
        Call::Force => Call::Force,
        Call::Load => Call::Load,
        _ => Call::FetchUpdate,
    }
}

/// A call that brings one value.
fn with_one<T>(call: Call<()>, value: T) -> Call<T>
    ensures { result ≡ meaning.with_one call value }
{
    match call {
        Call::Store(()) => Call::Store(value),
        Call::Swap(()) => Call::Swap(value),
        Call::FetchAdd(()) => Call::FetchAdd(value),
        Call::FetchSub(()) => Call::FetchSub(value),
        Call::FetchAnd(()) => Call::FetchAnd(value),
        Call::FetchOr(()) => Call::FetchOr(value),
        Call::FetchXor(()) => Call::FetchXor(value),
        Call::FetchNand(()) => Call::FetchNand(value),
        Call::FetchMax(()) => Call::FetchMax(value),
        _ => Call::FetchMin(value),
    }
}

/// A call that brings two.
fn with_two<T>(call: Call<()>, from: T, to: T) -> Call<T>
    ensures { result ≡ meaning.with_two call from to }
{
    match call {
        Call::CompareExchange((), ()) => Call::CompareExchange(from, to),
        _ => Call::CompareExchangeWeak(from, to),
    }
}

/// The call with the values that follow its name.
fn with_values<T: TextInteger>(call: Call<()>, rest: &[u8]) -> Result<Call<T>, LineFault>
    ensures { result ≡ meaning.with_values T.numerals call (words_of rest.now) }
{
    match values_of(call) {
        Values::Nothing => {
            nothing(rest)?;
            Ok(alone(call))
        }
        Values::Permits => {
            let permits = only_number(0, u64::MAX, rest)?;
            Ok(Call::Post(permits))
        }
        Values::One => {
            let value = only_value(rest)?;
            Ok(with_one(call, value))
        }
        Values::Two => {
            let (from, to) = only_two_values(rest)?;
            Ok(with_two(call, from, to))
        }
    }
}

/// The call of an object that a line names, with its values.
pub(crate) fn call_named<T: TextInteger>(
    calls: &[Call<()>],
    name: &[u8],
    rest: &[u8],
) -> Result<Task<T>, LineFault>
    ensures { result ≡ meaning.call_if T.numerals (call_of_name name.now calls.now) (words_of rest.now) }
{
    match named(name, calls) {
        Some(call) => Ok(Task::Give(Input::Begin(with_values(call, rest)?))),
        None => Err(LineFault::BadLine),
    }
}

/// What the words of a verb and after it ask of the object.
#[tactic(auto, unfolding(crate::specs::Command::task_of))]
fn task_of<T: TextInteger>(
    object: Object<T>,
    name: &[u8],
    rest: &[u8],
) -> Result<Task<T>, LineFault>
    ensures { result ≡ meaning.task_of T.numerals object name.now (words_of rest.now) }
{
    match verb(name) {
        Some(form) => with_numbers(form, rest),
        None => call_named(calls_of(&object), name, rest),
    }
}

/// The party of this number; in a text the parties are counted from 1.
pub(crate) fn party(number: u64) -> Result<usize, LineFault>
    ensures { result ≡ meaning.party_of number }
{
    match number {
        0 => Err(LineFault::NoParty),
        _ => Ok((number - 1) as usize),
    }
}

impl<T: TextInteger> Command<T> {
    /// Reads a line after the first: `<party> <verb>`, and the numbers that the verb wants. `None` where the line has no word.
    ///
    /// An unknown verb and another count of words are `BadLine`, then a number that is none or out of its range is
    /// `BadNumber`, and then party 0 is `NoParty`. A party that the object has not is refused when the command is played.
    #[tactic(auto, unfolding(crate::specs::Command::command_of))]
    pub fn parse(object: Object<T>, line: &[u8]) -> Result<Option<Command<T>>, LineFault>
        ensures { result ≡ meaning.command_of T.numerals object (words_of line.now) }
    {
        let Some((number, rest)) = next_word(line) else {
            return Ok(None);
        };
        let Some((name, rest)) = next_word(rest) else {
            return Err(LineFault::BadLine);
        };
        let task = task_of(object, name, rest)?;
        let number = number_within(0, u64::MAX, number)?;
        let party = party(number)?;
        Ok(Some(Command { party, task }))
    }
}
