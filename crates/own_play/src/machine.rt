//! A lock of one's own and its parties: what an input makes of them, by the rows.
ghost use Rattle.std.specs.Prelude.{◌≡◌, IfOk};
ghost use Rattle.own_play.specs.Machine as meaning;
ghost use Rattle.text_own.specs.Judge.{entries_of};
ghost use Rattle.text_own.specs.Table.{told_lock};

use model_events::WaitAction;
use model_events::event::{Act, Call, Event, Input, StepFault, Then, Word};
use model_events::hold::HoldKind;
use model_events::patience::Patience;
use model_events::row::After;
use model_events::words::Words;
use model_own::{Entry, HoldChange, OwnPlace, Row, Way, after, answered, intent, way_at};
use std::alloc::{AllocError, Global};
use text_own::{Calls, OwnLock};

/// A call under way: where it is, and whether it stands at its wait closure.
#[derive(Clone, Copy)]
pub struct Doing {
    pub place: OwnPlace,
    pub waits: bool,
}

/// A party: the call that it has under way, and its hold.
#[derive(Clone, Copy)]
pub struct Party {
    pub doing: Option<Doing>,
    pub hold: Option<HoldKind>,
}

/// A lock and its parties at a moment: the parties, numbered from 0, the words, and how many exchanges failed.
#[derive(Drop)]
pub struct Machine {
    pub parties: Vec<Party>,
    pub words: Words,
    pub failed: u64,
}

/// What a party did, and the party after that.
type Turn = Result<(Event<u64>, Party), StepFault>;

/// Where a call begins, if the lock has it.
pub(crate) fn entry_of(calls: &Calls, call: &Call<u64>) -> Option<Entry>
    ensures { result ≡ entries_of calls.now call.now }
{
    match call {
        Call::Lock => calls.lock,
        Call::TryLock => calls.try_lock,
        Call::Unlock => calls.unlock,
        _ => None,
    }
}

fn first_place(entry: &Entry) -> OwnPlace
    ensures { result ≡ meaning.first_of entry.now }
{
    OwnPlace {
        row: entry.row,
        kept: 0,
        patience: Patience {
            spins: 0,
            keep: true,
        },
    }
}

/// A party begins a call.
fn begin(calls: &Calls, number: usize, party: Party, call: Call<u64>) -> Turn
    ensures { result ≡ meaning.begin_turn calls.now number party call }
{
    if party.doing.is_some() {
        return Err(StepFault::Busy);
    }
    let Some(entry) = entry_of(calls, &call) else {
        return Err(StepFault::OtherObject);
    };
    if entry.takes_hold && party.hold.is_some() {
        return Err(StepFault::Holding);
    }
    if entry.needs_hold && party.hold.is_none() {
        return Err(StepFault::NoHold);
    }
    let doing = Doing {
        place: first_place(&entry),
        waits: false,
    };
    Ok((
        Event {
            party: number,
            act: Act::Begun(call),
            then: Then::GoesOn,
        },
        Party {
            doing: Some(doing),
            hold: party.hold,
        },
    ))
}

/// The call after a step of it.
fn doing_after(after: &After<u64, OwnPlace>) -> Option<Doing>
    ensures { result ≡ meaning.doing_after after.now }
{
    match after {
        After::At(place) => Some(Doing {
            place: *place,
            waits: false,
        }),
        After::Waits(place, _) | After::Chooses(place, _) => Some(Doing {
            place: *place,
            waits: true,
        }),
        After::Ends(_) => None,
    }
}

/// The hold after a step that went this way.
fn hold_after(way: Option<Way>, hold: Option<HoldKind>) -> Option<HoldKind>
    ensures { result ≡ meaning.hold_after way hold }
{
    match way {
        Some(way) => match way.change {
            HoldChange::Keeps => hold,
            HoldChange::Takes(kind) => Some(kind),
            HoldChange::Ends => None,
        },
        None => hold,
    }
}

/// A party makes the step of its row.
fn go(rows: &[Row], number: usize, party: Party, words: &Words) -> Turn
    ensures { result ≡ meaning.go_turn rows.now number party words.now }
{
    let Some(doing) = party.doing else {
        return Err(StepFault::Idle);
    };
    if doing.waits {
        return Err(StepFault::WaitingForAnswer);
    }
    let place = doing.place;
    let act = words.carry_out(intent(rows, &place));
    let told = act.told();
    let way = way_at(rows, &place, told);
    let after = after(rows, &place, told);
    Ok((
        Event {
            party: number,
            act,
            then: after.outcome(),
        },
        Party {
            doing: doing_after(&after),
            hold: hold_after(way, party.hold),
        },
    ))
}

/// The wait closure of a party answers.
fn answer(number: usize, party: Party, action: WaitAction) -> Turn
    ensures { result ≡ meaning.answer_turn number party action }
{
    let Some(doing) = party.doing else {
        return Err(StepFault::NotWaiting);
    };
    if !doing.waits {
        return Err(StepFault::NotWaiting);
    }
    let doing = Doing {
        place: answered(&doing.place, action),
        waits: false,
    };
    Ok((
        Event {
            party: number,
            act: Act::Answered(action),
            then: Then::GoesOn,
        },
        Party {
            doing: Some(doing),
            hold: party.hold,
        },
    ))
}

/// What an input makes of a party.
fn turn(lock: &OwnLock<'_>, number: usize, party: Party, words: &Words, input: Input<u64>) -> Turn
    ensures { result ≡ meaning.turn (told_lock lock.now) number party words.now input }
{
    match input {
        Input::Begin(call) => begin(&lock.calls, number, party, call),
        Input::Go => go(&lock.rows, number, party, words),
        Input::Answer(action) => answer(number, party, action),
        Input::Choose(_) => Err(StepFault::NotWaiting),
    }
}

/// What an act leaves in a word that held this value.
fn word_after(word: Word, act: &Act<u64>, value: u64) -> u64
    ensures { result ≡ meaning.after_act word act.now value }
{
    match act {
        Act::Store { word: on, put } => if_on(*on, word, *put, value),
        Act::Swap { word: on, put, .. } => if_on(*on, word, *put, value),
        Act::Add { word: on, put, .. } => if_on(*on, word, *put, value),
        Act::Exchange {
            word: on,
            to,
            done: true,
            ..
        } => if_on(*on, word, *to, value),
        _ => value,
    }
}

fn if_on(on: Word, word: Word, put: u64, value: u64) -> u64
    ensures { result ≡ meaning.if_on on word put value }
{
    if on == word { put } else { value }
}

/// The words after what an act puts.
fn applied(words: &Words, act: &Act<u64>) -> Words
    ensures { result ≡ meaning.words_after act.now words.now }
{
    Words {
        state: word_after(Word::State, act, words.state),
        counter: word_after(Word::Counter, act, words.counter),
        waiters: word_after(Word::Waiters, act, words.waiters),
        value: word_after(Word::Value, act, words.value),
        low: word_after(Word::Low, act, words.low),
        high: word_after(Word::High, act, words.high),
    }
}

/// The count of exchanges that failed, after an act; it stops at 2^64 - 1.
fn failed_after(failed: u64, act: &Act<u64>) -> u64
    ensures { result ≡ meaning.failed_after act.now failed }
{
    match act {
        Act::Exchange { done: false, .. } => failed.saturating_add(1),
        _ => failed,
    }
}

/// Plays one input of a party, counted from 0: the event that it gives by the rows, or why it is refused. After a fault the machine is as it was.
#[tactic(auto, using(crate::proofs::MachineLaws::within, crate::proofs::MachineLaws::stepped_so))]
pub fn step(
    machine: &mut Machine,
    lock: &OwnLock<'_>,
    number: usize,
    input: Input<u64>,
) -> Result<Event<u64>, StepFault>
    ensures { meaning.with_state result machine.new ≡ meaning.step (told_lock lock.now) (meaning.state_of machine.old) number input }
{
    let Some(party) = machine.parties.get(number).copied() else {
        return Err(StepFault::NoParty);
    };
    match turn(lock, number, party, &machine.words, input) {
        Ok((event, party)) => {
            machine.parties[number] = party;
            machine.words = applied(&machine.words, &event.act);
            machine.failed = failed_after(machine.failed, &event.act);
            Ok(event)
        }
        Err(fault) => Err(fault),
    }
}

fn opening_at(opening: &[u64], at: usize) -> u64
    ensures { result ≡ meaning.opening_at opening.now at }
{
    match opening.get(at) {
        Some(value) => *value,
        None => 0,
    }
}

/// A lock whose words hold what they open with, and whose parties have begun no call.
pub fn start(alloc: Global, lock: &OwnLock<'_>, parties: usize) -> Result<Machine, AllocError>
    ensures { IfOk result (λ machine. meaning.state_of machine ≡ meaning.start (told_lock lock.now) parties) }
{
    let party = Party {
        doing: None,
        hold: None,
    };
    let opening = &lock.opening;
    let words = Words {
        state: opening_at(opening, 0),
        counter: opening_at(opening, 1),
        waiters: opening_at(opening, 2),
        value: opening_at(opening, 3),
        low: opening_at(opening, 4),
        high: opening_at(opening, 5),
    };
    Ok(Machine {
        parties: vec![in alloc; party; parties]?,
        words,
        failed: 0,
    })
}
