//! Parties at a guarded number, and at a condition variable where its changes are waited for.
ghost use Rattle.std.specs.Prelude.{◌≡◌, IfOk};
ghost use Rattle.running_passes.specs.Parts.{IsWhole};
ghost use Rattle.running_condvar.specs.CondShown.{IsCondPass};
ghost use Rattle.running_guarded.specs.GuardedShown.{IsGuardedPass, part_of};

use super::wake_nobody_at_value;
use running_condvar::{CondPass, ConditionVariable};
use running_guarded::{Guarded, GuardedPass};
use std::alloc::{AllocError, Global};
use std::mem;
use std::sync::Wait;
use std::sync::atomic::{AtomicU64, Ordering};

/// A guarded number, and its pass.
pub(super) fn new_guarded(
    alloc: Global,
    number: u64,
) -> Result<(Guarded<u64>, GuardedPass), AllocError>
    ensures own { IfOk result (λ made. IsGuardedPass made.0 made.1 × IsWhole (part_of made.1)) }
{
    match Guarded::new(alloc, number) {
        Ok(made) => Ok(made),
        Err((error, _)) => Err(error),
    }
}

/// A guarded number, and two parts of its pass.
pub(super) fn in_two_parts(
    alloc: Global,
    number: u64,
) -> Result<(Guarded<u64>, GuardedPass, GuardedPass), AllocError>
    ensures own { IfOk result (λ made. IsGuardedPass made.0 made.1 × IsGuardedPass made.0 made.2) }
{
    let (guarded, pass) = new_guarded(alloc, number)?;
    match pass.split(&guarded) {
        Ok((one, two)) => Ok((guarded, one, two)),
        Err(_) => unreachable!(),
    }
}

/// A guarded number, and the condition variable of its changes.
#[derive(Drop)]
pub(super) struct Shared {
    pub(super) number: Guarded<u64>,
    pub(super) changed: ConditionVariable,
}

impl Shared {
    /// Both, with a pass for each.
    pub(super) fn new(
        alloc: Global,
        number: u64,
    ) -> Result<(Shared, GuardedPass, CondPass), AllocError>
        ensures own { IfOk result (λ made. IsGuardedPass made.0.number made.1 × IsCondPass made.0.changed made.2) }
    {
        let (changed, changed_pass) = ConditionVariable::new(alloc)?;
        let (number, pass) = new_guarded(alloc, number)?;
        Ok((Shared { number, changed }, pass, changed_pass))
    }

    /// A party with these passes.
    pub(super) fn party(&self, number: GuardedPass, changed: CondPass) -> Party<'_>
        requires own { IsGuardedPass self.now.number number × IsCondPass self.now.changed changed }
        ensures here { result.shared.now ≡ self.now }
    {
        Party {
            shared: self,
            number,
            changed,
        }
    }

    /// Two parties with parts of these passes.
    pub(super) fn two_parties(
        &self,
        number: GuardedPass,
        changed: CondPass,
    ) -> (Party<'_>, Party<'_>)
        requires own { IsGuardedPass self.now.number number × IsCondPass self.now.changed changed }
    {
        let Ok((number, other_number)) = number.split(&self.number) else {
            unreachable!()
        };
        let Ok((changed, other_changed)) = changed.split(&self.changed) else {
            unreachable!()
        };
        (
            self.party(number, changed),
            self.party(other_number, other_changed),
        )
    }
}

/// A party at both.
#[derive(Drop)]
pub(super) struct Party<'s> {
    pub(super) shared: &'s Shared,
    pub(super) number: GuardedPass,
    pub(super) changed: CondPass,
    ghost own: { IsGuardedPass shared.now.number number × IsCondPass shared.now.changed changed },
}

/// Changes the number to this, and notifies. What it was; the calls of the closure that wakes all are counted.
pub(super) fn change_to<R: Wait>(
    rt: &R,
    party: &mut Party<'_>,
    woken: &AtomicU64,
    number: u64,
) -> u64 {
    let shared = party.shared;
    shared.number.change(
        rt,
        &mut party.number,
        wake_nobody_at_value,
        &shared.changed,
        &mut party.changed,
        |_| {
            woken.fetch_add(1, Ordering::SeqCst);
        },
        |value| mem::replace(value, number),
    )
}
