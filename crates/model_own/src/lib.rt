//! A lock of one's own: its table of steps as rows that are data, read by one function each, and a test of rows. Rows that pass it are those of
//! a lock with one holder at most, in every run of any number of parties.
#![tactic(auto)]

ghost use Rattle.std.specs.Prelude.{◌≡◌, ℕ, true, List, slice_get};
ghost use Rattle.model_events.specs.declared.event.Event.{Event as AnEvent};
ghost use Rattle.model_events.specs.declared.event.Word.{Word as AWord};
ghost use Rattle.model_events.specs.Arithmetic.{Arithmetic};
ghost use Rattle.model_events.specs.Laws.{IsExclusive};
ghost use Rattle.model_own.specs.declared.Row.{Row as ARow};
ghost use Rattle.model_own.specs.declared.Role.{Role as ARole};
ghost use Rattle.model_own.specs.Rows.{Entries, number, passes, intent_of, intent_in, way_of, way_in, told_or, led_to, after_in, answered_in, own_table};
ghost use Rattle.model_own.specs.Holds.{IsOwnPast, own_holds};
ghost use Rattle.model_own.specs.OneHolder.{asks_for, if_kept, if_ended, if_taken_at_zero, if_ended_at, stores, swaps, exchanges, works, is_on, leaves, is_in, is_out, fits_role, fits_next, fits_ways, fits_row, Fit, fits_begin, fits_entry, IsOwnLock, AnswersTell};

use model_events::WaitAction;
use model_events::event::{Answer, Wake, Word};
use model_events::hold::HoldKind;
use model_events::patience::Patience;
use model_events::row::{After, Intent};

/// A number that a row names.
#[derive(Clone, Copy, PartialEq, Eq)]
pub enum Number {
    /// This one.
    Is(u64),
    /// What the step that led to the row was told, and so much more; it wraps.
    Kept(u64),
}

/// A test of what a step was told. One that was told nothing fails it.
#[derive(Clone, Copy)]
pub enum Test {
    Is(Number),
    Below(u64),
    Odd,
}

/// What a step does, on which word.
#[derive(Clone, Copy)]
pub enum Operation {
    Load(Word),
    Store(Word, Number),
    Swap(Word, Number),
    Add(Word, Number),
    Subtract(Word, Number),
    /// Puts the second number where it finds the first.
    Exchange(Word, Number, Number),
    Wake(Wake),
}

/// What a step changes in its party's hold.
#[derive(Clone, Copy)]
pub enum HoldChange {
    Keeps,
    Takes(HoldKind),
    Ends,
}

/// How a call goes on.
#[derive(Clone, Copy)]
pub enum Next {
    /// From this row; what the step was told is kept.
    At(u64),
    /// It was refused. It spins, and then asks its wait closure, which is told the number; it goes on from this row, or gives up, once the
    /// closure has answered `Abort`.
    Refused(u64, Number),
    Success,
    Interrupted,
    Done,
}

/// One of the two ways that a step may go.
#[derive(Clone, Copy)]
pub struct Way {
    pub change: HoldChange,
    pub next: Next,
}

/// A row: what its step does, a test of what that was told, and the ways that it goes where the test passes, and where not.
#[derive(Clone, Copy)]
pub struct Row {
    pub operation: Operation,
    pub test: Test,
    pub passed: Way,
    pub failed: Way,
}

/// Where a call begins, and what its party has to have for that.
#[derive(Clone, Copy)]
pub struct Entry {
    pub row: u64,
    /// It takes a hold, so its party may have none.
    pub takes_hold: bool,
    /// It ends a hold, so its party must have one.
    pub needs_hold: bool,
}

/// Where a call is: its row, what it keeps, and how long it spins yet.
#[derive(Clone, Copy, PartialEq, Eq)]
pub struct OwnPlace {
    pub row: u64,
    pub kept: u64,
    pub patience: Patience,
}

fn number_of(of: Number, kept: u64) -> u64
    ensures { result ≡ number of kept }
{
    match of {
        Number::Is(n) => n,
        Number::Kept(more) => kept.wrapping_add(more),
    }
}

fn passes(test: Test, kept: u64, told: Option<u64>) -> bool
    ensures { result ≡ passes test kept told }
{
    let Some(found) = told else {
        return false;
    };
    match test {
        Test::Is(of) => found == number_of(of, kept),
        Test::Below(n) => found < n,
        Test::Odd => found % 2 == 1,
    }
}

fn row_at(rows: &[Row], at: u64) -> Option<Row>
    ensures { result ≡ slice_get rows.now at }
{
    rows.get(at as usize).copied()
}

/// What the step at a place is to do. Where there is no row the call ends.
pub fn intent<T>(rows: &[Row], place: &OwnPlace) -> Intent<T>
    ensures { result ≡ intent_in rows.now place.now }
{
    let Some(row) = row_at(rows, place.row) else {
        return Intent::End;
    };
    let kept = place.kept;
    match row.operation {
        Operation::Load(word) => Intent::Load(word),
        Operation::Store(word, put) => Intent::Store {
            word,
            put: number_of(put, kept),
        },
        Operation::Swap(word, put) => Intent::Swap {
            word,
            put: number_of(put, kept),
        },
        Operation::Add(word, more) => Intent::Add {
            word,
            more: number_of(more, kept),
        },
        Operation::Subtract(word, less) => Intent::Subtract {
            word,
            less: number_of(less, kept),
        },
        Operation::Exchange(word, from, to) => Intent::Exchange {
            word,
            from: number_of(from, kept),
            to: number_of(to, kept),
        },
        Operation::Wake(wake) => Intent::Wake(wake),
    }
}

/// The way that the step at a place goes, by what it was told: what becomes of its party's hold, and how the call goes on.
pub fn way_at(rows: &[Row], place: &OwnPlace, told: Option<u64>) -> Option<Way>
    ensures { result ≡ way_in rows.now place.now told }
{
    let row = row_at(rows, place.row)?;
    if passes(row.test, place.kept, told) {
        Some(row.passed)
    } else {
        Some(row.failed)
    }
}

fn led_to<T>(place: &OwnPlace, told: Option<u64>, next: Next) -> After<T, OwnPlace>
    ensures { result ≡ led_to place.now told next }
{
    let kept = place.kept;
    match next {
        Next::At(row) => After::At(OwnPlace {
            row,
            kept: told.unwrap_or(kept),
            patience: place.patience,
        }),
        Next::Refused(row, seen) => {
            match place
                .patience
                .refused(number_of(seen, told.unwrap_or(kept)))
            {
                After::At(patience) => After::At(OwnPlace {
                    row,
                    kept,
                    patience,
                }),
                After::Waits(patience, seen) => After::Waits(
                    OwnPlace {
                        row,
                        kept,
                        patience,
                    },
                    seen,
                ),
                After::Chooses(patience, old) => {
                    After::Chooses(
                        OwnPlace {
                            row,
                            kept,
                            patience,
                        },
                        old,
                    )
                }
                After::Ends(answer) => After::Ends(answer),
            }
        }
        Next::Success => After::Ends(Answer::Success),
        Next::Interrupted => After::Ends(Answer::Interrupted),
        Next::Done => After::Ends(Answer::Done),
    }
}

/// How the call goes on, by what the step was told.
pub fn after<T>(rows: &[Row], place: &OwnPlace, told: Option<u64>) -> After<T, OwnPlace>
    ensures { result ≡ after_in rows.now place.now told }
{
    match way_at(rows, place, told) {
        Some(way) => led_to(place, told, way.next),
        None => After::Ends(Answer::Done),
    }
}

/// Where the call goes on once its wait closure has answered.
pub fn answered(place: &OwnPlace, action: WaitAction) -> OwnPlace
    ensures { result ≡ answered_in place.now action }
{
    OwnPlace {
        row: place.row,
        kept: place.kept,
        patience: place.patience.answered(action),
    }
}

/// Whether the party of a row has the hold: that is what a test of rows rests on, and what whoever asks for it brings.
#[derive(Clone, Copy)]
pub enum Role {
    /// It has none.
    Out,
    /// It has it.
    In,
    /// Either.
    Any,
}

fn asks_for(n: u64, test: Test) -> bool
    ensures { result ≡ asks_for n test }
{
    match test {
        Test::Is(of) => match of {
            Number::Is(m) => n == m,
            Number::Kept(_) => false,
        },
        Test::Below(_) => false,
        Test::Odd => false,
    }
}

fn if_kept(role: Role, row: &Row) -> Option<(Role, Role)>
    ensures { result ≡ if_kept role row.now }
{
    match (row.passed.change, row.failed.change) {
        (HoldChange::Keeps, HoldChange::Keeps) => Some((role, role)),
        _ => None,
    }
}

fn if_ended(row: &Row) -> Option<(Role, Role)>
    ensures { result ≡ if_ended row.now }
{
    match (row.passed.change, row.failed.change) {
        (HoldChange::Ends, HoldChange::Ends) => Some((Role::Out, Role::Out)),
        _ => None,
    }
}

fn if_taken_at_zero(row: &Row) -> Option<(Role, Role)>
    ensures { result ≡ if_taken_at_zero row.now }
{
    match (row.passed.change, row.failed.change) {
        (HoldChange::Takes(HoldKind::Write), HoldChange::Keeps) if asks_for(0, row.test) => {
            Some((Role::In, Role::Out))
        }
        _ => None,
    }
}

fn if_ended_at(n: u64, row: &Row) -> Option<(Role, Role)>
    ensures { result ≡ if_ended_at n row.now }
{
    match (row.passed.change, row.failed.change) {
        (HoldChange::Ends, HoldChange::Keeps) if asks_for(n, row.test) => {
            Some((Role::Out, Role::In))
        }
        _ => None,
    }
}

fn stores(role: Role, put: u64, row: &Row) -> Option<(Role, Role)>
    ensures { result ≡ stores role put row.now }
{
    match (role, put) {
        (Role::In, 0) => if_ended(row),
        (Role::In, _) => if_kept(Role::In, row),
        _ => None,
    }
}

fn swaps(role: Role, put: u64, row: &Row) -> Option<(Role, Role)>
    ensures { result ≡ swaps role put row.now }
{
    match (role, put) {
        (Role::Out, 0) => None,
        (Role::Out, _) => if_taken_at_zero(row),
        _ => stores(role, put, row),
    }
}

fn exchanges(role: Role, from: u64, to: u64, row: &Row) -> Option<(Role, Role)>
    ensures { result ≡ exchanges role from to row.now }
{
    match (role, from, to) {
        (_, 0, 0) => None,
        (Role::Out, 0, _) => if_taken_at_zero(row),
        (_, 0, _) => None,
        (Role::In, _, 0) => if_ended_at(from, row),
        (_, _, 0) => None,
        _ => if_kept(role, row),
    }
}

fn works(role: Role, row: &Row) -> Option<(Role, Role)>
    ensures { result ≡ works role row.now.operation row.now }
{
    match row.operation {
        Operation::Load(_) | Operation::Wake(_) => if_kept(role, row),
        Operation::Store(_, Number::Is(put)) => stores(role, put, row),
        Operation::Swap(_, Number::Is(put)) => swaps(role, put, row),
        Operation::Exchange(_, Number::Is(from), Number::Is(to)) => exchanges(role, from, to, row),
        _ => None,
    }
}

fn is_on(word: Word, operation: Operation) -> bool
    ensures { result ≡ is_on word operation }
{
    match operation {
        Operation::Load(on)
        | Operation::Store(on, _)
        | Operation::Swap(on, _)
        | Operation::Add(on, _)
        | Operation::Subtract(on, _)
        | Operation::Exchange(on, _, _) => on == word,
        Operation::Wake(_) => false,
    }
}

/// The roles in which a row leaves its party where its test passes, and where not; `None` where no lock may have it.
pub fn leaves(word: Word, role: Role, row: &Row) -> Option<(Role, Role)>
    ensures { result ≡ leaves word role row.now }
{
    if is_on(word, row.operation) {
        works(role, row)
    } else {
        if_kept(role, row)
    }
}

fn is_in(role: Role) -> bool
    ensures { result ≡ is_in role }
{
    matches!(role, Role::In)
}

fn is_out(role: Role) -> bool
    ensures { result ≡ is_out role }
{
    matches!(role, Role::Out)
}

fn fits_role(role: Role, at: Option<Role>) -> bool
    ensures { result ≡ fits_role role at }
{
    matches!(
        (role, at),
        (_, Some(Role::Any)) | (Role::Out, None | Some(Role::Out)) | (Role::In, Some(Role::In))
    )
}

fn role_at(roles: &[Role], at: u64) -> Option<Role>
    ensures { result ≡ slice_get roles.now at }
{
    roles.get(at as usize).copied()
}

fn fits_next(roles: &[Role], role: Role, next: Next) -> bool
    ensures { result ≡ fits_next roles.now role next }
{
    match next {
        Next::At(row) => fits_role(role, role_at(roles, row)),
        Next::Refused(row, _) => is_out(role) && fits_role(role, role_at(roles, row)),
        Next::Success => is_in(role),
        Next::Interrupted | Next::Done => is_out(role),
    }
}

fn fits_row(word: Word, roles: &[Role], role: Role, row: &Row) -> bool
    ensures { result ≡ fits_ways roles.now (leaves word role row.now) row.now }
{
    match leaves(word, role, row) {
        Some((passed, failed)) => {
            fits_next(roles, passed, row.passed.next) && fits_next(roles, failed, row.failed.next)
        }
        None => false,
    }
}

/// Whether a row fits its role. Where there is neither, that is so too.
pub fn fits_at(word: Word, roles: &[Role], rows: &[Row], at: usize) -> bool
    ensures { result ≡ fits_row word roles.now (slice_get roles.now at) (slice_get rows.now at) }
{
    match (roles.get(at), rows.get(at)) {
        (Some(role), Some(row)) => fits_row(word, roles, *role, row),
        (None, None) => true,
        _ => false,
    }
}

/// Whether these rows are those of a lock with one holder at most, whose answers tell who holds it, by these roles and this word, whatever else
/// they do. `false` says nothing: other roles or another word may show it.
pub fn is_lock(word: Word, roles: &[Role], rows: &[Row]) -> bool
    ensures { result ≡ true → Fit word roles.now rows.now }
{
    if roles.len() != rows.len() {
        return false;
    }
    for at in 0..rows.len() {
        if !fits_at(word, roles, rows, at) {
            return false;
        }
    }
    true
}

/// Whether a call may begin there.
pub fn fits_entry(roles: &[Role], entry: &Entry) -> bool
    ensures { result ≡ fits_entry roles.now entry.now }
{
    match role_at(roles, entry.row) {
        Some(Role::Any) => true,
        None | Some(Role::Out) => entry.takes_hold,
        Some(Role::In) => entry.needs_hold,
    }
}

/// A lock whose rows and entries fit, and whose word opens with 0, has one holder at most, at every prefix of every run of any number of
/// parties. Whoever's call is answered `Success` has the hold then, and whoever's is answered otherwise has none. Says so, and does nothing.
pub fn any_such_lock_has_one_holder<T>()
    ensures one { (z : Arithmetic T) (word : AWord) (opening : AWord → ℕ) (entries : Entries T) (roles : List ARole) (rows : List ARow) (parties : ℕ) (past : List (AnEvent T)) →
        IsOwnLock word opening entries roles rows → IsOwnPast z opening entries rows parties past → IsExclusive (own_holds (own_table opening entries rows) rows past) }
    ensures answers { (z : Arithmetic T) (word : AWord) (opening : AWord → ℕ) (entries : Entries T) (roles : List ARole) (rows : List ARow) (parties : ℕ) (past : List (AnEvent T)) →
        IsOwnLock word opening entries roles rows → IsOwnPast z opening entries rows parties past → AnswersTell (own_table opening entries rows) rows past }
{}
