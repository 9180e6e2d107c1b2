//! Whether the rows of a lock show that it has one holder at most.
ghost use Rattle.std.specs.Prelude.{◌≡◌, ◌&&◌, ℕ, true, false, IfOk, IfSome, Some, slice_get};
ghost use Rattle.model_own.specs.OneHolder.{fits_call, fits_row};
ghost use Rattle.text_own.specs.Judge.{HasOneHolder, IsSo, can_begin, fits_calls, takes_hold};
ghost use Rattle.text_own.specs.Table.{told_lock};

use crate::row::word_at;
use crate::table::{Calls, OwnLock, push};
use model_events::event::Word;
use model_own::{
    Entry, HoldChange, Next, Operation, Role, Row, any_such_lock_has_one_holder, fits_at,
    fits_entry, is_lock, leaves,
};
use std::alloc::{AllocError, Global};

/// The role in which a row is made once it is also led to in another; `None` where that changes nothing.
fn joined(known: Option<Role>, role: Role) -> Option<Role> {
    match (known, role) {
        (None, _) => Some(role),
        (Some(Role::Any), _) | (Some(Role::Out), Role::Out) | (Some(Role::In), Role::In) => None,
        _ => Some(Role::Any),
    }
}

/// The rows that are led to, each with the role that its party has there.
#[derive(Drop)]
struct Open {
    rows: Vec<(u64, Role)>,
}

impl Open {
    fn lead(&mut self, next: Next, role: Role) -> Result<(), AllocError> {
        match next {
            Next::At(row) | Next::Refused(row, _) => push(&mut self.rows, (row, role)),
            Next::Success | Next::Interrupted | Next::Done => Ok(()),
        }
    }

    fn begin(&mut self, entry: Option<Entry>) -> Result<(), AllocError> {
        match entry {
            Some(entry) if entry.needs_hold => push(&mut self.rows, (entry.row, Role::In)),
            Some(entry) => push(&mut self.rows, (entry.row, Role::Out)),
            None => Ok(()),
        }
    }
}

/// The roles in which the calls come to the rows, where they do. No clause says so: whoever has them tests them.
fn known_roles(
    alloc: Global,
    word: Word,
    calls: &Calls,
    rows: &[Row],
) -> Result<Vec<Option<Role>>, AllocError> {
    let mut known: Vec<Option<Role>> = Vec::new(alloc);
    for _ in rows {
        push(&mut known, None)?;
    }
    let mut open = Open {
        rows: Vec::new(alloc),
    };
    open.begin(calls.lock)?;
    open.begin(calls.try_lock)?;
    open.begin(calls.unlock)?;
    // Each row changes twice at most, and leads to two.
    for _ in 0..rows.len().saturating_mul(4).saturating_add(3) {
        let Some((at, role)) = open.rows.pop() else {
            break;
        };
        let at = at as usize;
        let (Some(row), Some(slot)) = (rows.get(at), known.get_mut(at)) else {
            continue;
        };
        let Some(role) = joined(*slot, role) else {
            continue;
        };
        *slot = Some(role);
        if let Some((passed, failed)) = leaves(word, role, row) {
            open.lead(row.passed.next, passed)?;
            open.lead(row.failed.next, failed)?;
        }
    }
    Ok(known)
}

fn roles_of(alloc: Global, known: &[Option<Role>]) -> Result<Vec<Role>, AllocError> {
    let mut roles = Vec::new(alloc);
    for role in known {
        push(&mut roles, role.unwrap_or(Role::Out))?;
    }
    Ok(roles)
}

fn fits(roles: &[Role], entry: Option<Entry>) -> bool
    ensures { result ≡ fits_call roles.now entry }
{
    match entry {
        Some(entry) => fits_entry(roles, &entry),
        None => true,
    }
}

fn fits_all(roles: &[Role], calls: &Calls) -> bool
    ensures { result ≡ fits_calls roles.now calls.now }
{
    fits(roles, calls.lock) && fits(roles, calls.try_lock) && fits(roles, calls.unlock)
}

fn opens_with_zero(opening: &[u64], at: usize) -> bool
    ensures { result ≡ true → slice_get opening.now at ≡ Some 0 }
{
    match opening.get(at) {
        Some(first) => *first == 0,
        None => false,
    }
}

/// Whether the word at this place shows it.
fn shows(alloc: Global, lock: &OwnLock<'_>, at: usize) -> Result<bool, AllocError>
    ensures { IfOk result (λ shown. shown ≡ true → HasOneHolder (told_lock lock.now)) }
{
    let Some(word) = word_at(at) else {
        return Ok(false);
    };
    if !opens_with_zero(&lock.opening, at) {
        return Ok(false);
    }
    let known = known_roles(alloc, word, &lock.calls, &lock.rows)?;
    let roles = roles_of(alloc, &known)?;
    if is_lock(word, &roles, &lock.rows) && fits_all(&roles, &lock.calls) {
        any_such_lock_has_one_holder::<u64>();
        return Ok(true);
    }
    Ok(false)
}

/// Why a row does not fit.
#[derive(Clone, Copy)]
pub enum Misfit {
    /// No call comes to it.
    Unreached,
    /// Its step or a hold that it changes is none of a party without the hold, of one with it, or of both.
    Without,
    With,
    Both,
    /// It is answered, or refused, as who has the hold then is not.
    Answer,
}

/// What the rows of a lock say of its holders.
#[derive(Clone, Copy)]
pub enum Verdict {
    /// One has the hold at most.
    Proved,
    /// No call takes the hold.
    NoCall,
    /// No row takes it on a word that is 0 at first.
    NoWord,
    /// The row at this place does not fit.
    Row(usize, Misfit),
}

fn takes_hold(entry: Option<Entry>) -> bool
    ensures { result ≡ takes_hold entry }
{
    match entry {
        Some(entry) => entry.takes_hold,
        None => false,
    }
}

/// Whether a call takes the hold.
fn can_begin(calls: &Calls) -> bool
    ensures { result ≡ can_begin calls.now }
{
    takes_hold(calls.lock) || takes_hold(calls.try_lock)
}

/// Whether some word shows it.
fn is_shown(alloc: Global, lock: &OwnLock<'_>) -> Result<bool, AllocError>
    ensures { IfOk result (λ shown. shown ≡ true → HasOneHolder (told_lock lock.now)) }
{
    for at in 0..lock.names.len() {
        if shows(alloc, lock, at)? {
            return Ok(true);
        }
    }
    Ok(false)
}

fn word_of(operation: Operation) -> Option<Word> {
    match operation {
        Operation::Load(word)
        | Operation::Store(word, _)
        | Operation::Swap(word, _)
        | Operation::Add(word, _)
        | Operation::Subtract(word, _)
        | Operation::Exchange(word, _, _) => Some(word),
        Operation::Wake(_) => None,
    }
}

fn takes(change: HoldChange) -> bool {
    matches!(change, HoldChange::Takes(_))
}

/// Whether a row takes the hold on a word.
fn takes_on(word: Word, row: &Row) -> bool {
    word_of(row.operation) == Some(word) && (takes(row.passed.change) || takes(row.failed.change))
}

/// The first row that does not fit these roles.
fn misfit_at(word: Word, roles: &[Role], rows: &[Row]) -> Option<usize>
    ensures { IfSome result (λ at. fits_row word roles.now (slice_get roles.now at) (slice_get rows.now at) ≡ false) }
{
    for at in 0..rows.len() {
        if !fits_at(word, roles, rows, at) {
            return Some(at);
        }
    }
    None
}

/// Why a row does not fit: the role in which calls come to it, if they do, and what its step may lead to in that.
fn why_of(word: Word, known: Option<Role>, row: Option<&Row>) -> Misfit {
    let (Some(role), Some(row)) = (known, row) else {
        return Misfit::Unreached;
    };
    match (leaves(word, role, row), role) {
        (Some(_), _) => Misfit::Answer,
        (None, Role::Out) => Misfit::Without,
        (None, Role::In) => Misfit::With,
        (None, Role::Any) => Misfit::Both,
    }
}

/// Why a word does not show it.
fn why_not(alloc: Global, word: Word, lock: &OwnLock<'_>) -> Result<Verdict, AllocError>
    ensures { IfOk result (λ verdict. IsSo (told_lock lock.now) verdict) }
{
    let known = known_roles(alloc, word, &lock.calls, &lock.rows)?;
    let roles = roles_of(alloc, &known)?;
    let Some(at) = misfit_at(word, &roles, &lock.rows) else {
        return Ok(Verdict::NoWord);
    };
    let role = known.get(at).copied().unwrap_or(None);
    Ok(Verdict::Row(at, why_of(word, role, lock.rows.get(at))))
}

/// The word of a lock that is 0 at first, on which a row takes the hold.
fn told_by(lock: &OwnLock<'_>) -> Option<Word> {
    for at in 0..lock.names.len() {
        let word = word_at(at)?;
        if opens_with_zero(&lock.opening, at) && lock.rows.iter().any(|row| takes_on(word, row)) {
            return Some(word);
        }
    }
    None
}

/// What the rows of a lock say of its holders: whether they show, by some word, that in every run of any number of parties one has the hold at most,
/// and that the answers tell who; and, if not, where they do not by the word on which the hold is taken.
pub fn verdict_of(alloc: Global, lock: &OwnLock<'_>) -> Result<Verdict, AllocError>
    ensures { IfOk result (λ verdict. IsSo (told_lock lock.now) verdict) }
{
    if !can_begin(&lock.calls) {
        return Ok(Verdict::NoCall);
    }
    let shown = is_shown(alloc, lock)?;
    if shown {
        return Ok(Verdict::Proved);
    }
    match told_by(lock) {
        Some(word) => why_not(alloc, word, lock),
        None => Ok(Verdict::NoWord),
    }
}
