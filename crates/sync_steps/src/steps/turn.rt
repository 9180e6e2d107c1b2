//! One turn of a party: what an input makes it do.
ghost use Rattle.std.specs.Prelude.{◌≡◌};
ghost use Rattle.model_events.specs.WordsAt.{word_at};
ghost use Rattle.model_events.specs.Arithmetic.{IsValue};
ghost use Rattle.model_events.specs.Moves.{is_locking, CallValues, InputValues};
ghost use Rattle.sync_steps.specs.Machine.Turns.{new_hold, moved_on, begin_turn, go_turn, answer_turn, choose_turn, TurnsTo};

use super::place::{Closure, Doing, Party, Place, grant, needs_hold};
use model_events::WaitAction;
use model_events::atomic::internal::AtomicInteger;
use model_events::event::{Act, Call, Input, Object, StepFault, Then, Word};
use model_events::hold::HoldKind;
use model_events::row::After;
use model_events::words::Words;

/// Whether the call takes a hold of a lock.
fn is_locking<T>(call: &Call<T>) -> bool
    ensures { result ≡ is_locking call.now }
{
    matches!(
        call,
        Call::Lock
            | Call::TryLock
            | Call::BlockingLock
            | Call::ReadLock
            | Call::TryReadLock
            | Call::WriteLock
            | Call::TryWriteLock
    )
}

/// The hold of a party after an act of its call.
#[inline(always)]
fn hold_after<T: AtomicInteger>(
    object: &Object<T>,
    call: &Call<T>,
    act: &Act<T>,
    hold: Option<HoldKind>,
) -> Option<HoldKind>
    ensures { result ≡ new_hold T.arithmetic object.now call.now act.now hold }
{
    match act {
        Act::Store {
            word: Word::State,
            ..
        }
        | Act::Add {
            word: Word::State,
            ..
        } => None,
        Act::Exchange {
            word: Word::State,
            from,
            to,
            done: true,
            ..
        } => grant(object, call, *from, *to).or(hold),
        Act::Swap {
            word: Word::State,
            old: 0,
            put,
        } => grant(object, call, 0, *put).or(hold),
        _ => hold,
    }
}

/// Moves the call of a party on after a step of it, in place.
#[inline(always)]
fn move_on<T: Copy>(doing: &mut Option<Doing<T>>, after: &After<T, Place<T>>)
    ensures { doing.new ≡ moved_on doing.old after.now }
{
    match doing {
        Some(doing) => match after {
            After::At(place) => {
                doing.place = *place;
                doing.stands = None;
            }
            After::Waits(place, _) => {
                doing.place = *place;
                doing.stands = Some(Closure::Wait);
            }
            After::Chooses(place, _) => {
                doing.place = *place;
                doing.stands = Some(Closure::Choice);
            }
            After::Ends(_) => {}
        },
        None => {}
    }
    if let After::Ends(_) = after {
        *doing = None;
    }
}

/// A party begins a call.
pub fn begin<T: AtomicInteger>(
    object: &Object<T>,
    party: &mut Party<T>,
    call: Call<T>,
) -> Result<(Act<T>, Then<T>), StepFault>
    ensures { TurnsTo (begin_turn T.arithmetic object.now party.old call) party.old party.new result }
{
    if party.doing.is_some() {
        return Err(StepFault::Busy);
    }
    let Some(place) = Place::begin(object, &call) else {
        return Err(StepFault::OtherObject);
    };
    if is_locking(&call) && party.hold.is_some() {
        return Err(StepFault::Holding);
    }
    if needs_hold(object, &call) && party.hold.is_none() {
        return Err(StepFault::NoHold);
    }
    party.doing = Some(Doing {
        call,
        place,
        stands: None,
    });
    Ok((Act::Begun(call), Then::GoesOn))
}

/// A party makes the step at the place of its call. Of all turns it is the one that comes by the million: so what the step does not
/// change stays where it is.
#[inline(always)]
pub fn go<T: AtomicInteger>(
    object: &Object<T>,
    party: &mut Party<T>,
    words: &Words,
) -> Result<(Act<T>, Then<T>), StepFault>
    ensures { TurnsTo (go_turn T.arithmetic object.now party.old (word_at words.now)) party.old party.new result }
{
    let Some(doing) = &party.doing else {
        return Err(StepFault::Idle);
    };
    if doing.stands.is_some() {
        return Err(StepFault::WaitingForAnswer);
    }
    let act = words.carry_out(doing.place.intent(party.hold));
    let after = doing.place.after(act.told());
    party.hold = hold_after(object, &doing.call, &act, party.hold);
    move_on(&mut party.doing, &after);
    Ok((act, after.outcome()))
}

/// The wait closure of a party answers.
pub fn answer<T: AtomicInteger>(
    party: &mut Party<T>,
    action: WaitAction,
) -> Result<(Act<T>, Then<T>), StepFault>
    ensures { TurnsTo (answer_turn T.arithmetic party.old action) party.old party.new result }
{
    let Some(doing) = party.doing else {
        return Err(StepFault::NotWaiting);
    };
    if doing.stands != Some(Closure::Wait) {
        return Err(StepFault::NotWaiting);
    }
    party.doing = Some(Doing {
        call: doing.call,
        place: doing.place.answered(action),
        stands: None,
    });
    Ok((Act::Answered(action), Then::GoesOn))
}

/// The choice closure of a party answers.
pub fn choose<T: AtomicInteger>(
    party: &mut Party<T>,
    choice: Option<T>,
) -> Result<(Act<T>, Then<T>), StepFault>
    ensures { TurnsTo (choose_turn T.arithmetic party.old choice) party.old party.new result }
{
    let Some(doing) = party.doing else {
        return Err(StepFault::NotWaiting);
    };
    if doing.stands != Some(Closure::Choice) {
        return Err(StepFault::NotWaiting);
    }
    party.doing = Some(Doing {
        call: doing.call,
        place: doing.place.chosen(choice),
        stands: None,
    });
    Ok((Act::Chosen(choice), Then::GoesOn))
}

/// What an input brings are values of its type. It reads them, and does nothing else.
#[inline(always)]
pub(crate) fn read_values<T: AtomicInteger>(input: &Input<T>)
    ensures { InputValues T.arithmetic input.now }
{
    match input {
        Input::Begin(call) => read_call(call),
        Input::Choose(Some(value)) => read_value(*value),
        Input::Choose(None) | Input::Go | Input::Answer(_) => {}
    }
}

#[inline(always)]
fn read_call<T: AtomicInteger>(call: &Call<T>)
    ensures { CallValues T.arithmetic call.now }
{
    match call {
        Call::Post(n) => {
            let _n = *n;
        }
        Call::Store(value)
        | Call::Swap(value)
        | Call::FetchAdd(value)
        | Call::FetchSub(value)
        | Call::FetchAnd(value)
        | Call::FetchOr(value)
        | Call::FetchXor(value)
        | Call::FetchNand(value)
        | Call::FetchMax(value)
        | Call::FetchMin(value) => read_value(*value),
        Call::CompareExchange(current, new) | Call::CompareExchangeWeak(current, new) => {
            read_value(*current);
            read_value(*new);
        }
        _ => {}
    }
}

/// A value that was read is one of its type.
#[inline(always)]
pub(crate) fn read_value<T: AtomicInteger>(value: T)
    ensures { IsValue T.arithmetic value }
{
    let _words = value.to_words();
}
