//! What a granted lock gives.
ghost use Rattle.std.specs.Prelude.{◌≡◌, ◌<◌, ℕ, Bool, true};

use crate::rw_reader::PlayedRwReader;
use running_passes::Pass;

/// A pass of a reader-writer lock, which counts its holds of each kind.
pub trait RwPass {
    // How many of its read holds stand.
    ghost reads: { Self → ℕ };

    // How many of its write holds stand.
    ghost writes: { Self → ℕ };

    // Whether a party of it has a read hold in the model that the lock plays, or a write hold.
    ghost has_read: { Self → Bool };

    ghost has_write: { Self → Bool };
}

impl RwPass for Pass<PlayedRwReader> {
    ghost use Rattle.model_events.specs.declared.hold.HoldKind.TheVariants as kinds;
    ghost use Rattle.running_model.specs.Passes.{parties_of, counts_of};
    ghost use Rattle.running_rw_hold.specs.Held.{read_holds, write_holds};
    ghost use Rattle.running_model.specs.Holding.{is_holding};
    ghost use Rattle.model_rw_reader.specs.Table.{rw_reader_table};

    ghost reads = { λ p. read_holds (counts_of p) };

    ghost writes = { λ p. write_holds (counts_of p) };

    ghost has_read = { λ p. is_holding rw_reader_table kinds.Read (parties_of p) };

    ghost has_write = { λ p. is_holding rw_reader_table kinds.Write (parties_of p) };
}

/// The right to unlock what this pass, which is lent to it, locked for reading.
pub struct ReadHold<'p, P: RwPass> {
    pass: &'p mut P,
    ghost on: { 0 < P.reads pass.now },
    ghost has: { P.has_read pass.now ≡ true },
}

/// The right to unlock what this pass, which is lent to it, locked for writing.
pub struct WriteHold<'p, P: RwPass> {
    pass: &'p mut P,
    ghost on: { P.writes pass.now ≡ 1 },
    ghost has: { P.has_write pass.now ≡ true },
}

/// A reader-writer lock is locked by the pass that is lent to the hold. A hold must be spent, by `unlock` at the lock that it came
/// from.
pub enum RwHold<'p, P: RwPass> {
    /// For reading: other passes may have read holds beside it, and no pass has a write hold.
    Read(ReadHold<'p, P>),
    /// For writing: no other pass has a hold.
    Write(WriteHold<'p, P>),
}

/// The pass has locked for reading, and is lent to its hold.
#[inline(always)]
pub fn read_hold<'p, P: RwPass>(pass: &'p mut P) -> ReadHold<'p, P>
    requires on { 0 < P.reads pass.old }
    requires has { P.has_read pass.old ≡ true }
    ensures same_reference { result.pass.ghost_name ≡ pass.entry.ghost_name }
    ensures same_pass { result.pass.now ≡ pass.old }
{
    ReadHold { pass }
}

/// The pass has locked for writing, and is lent to its hold.
#[inline(always)]
pub fn write_hold<'p, P: RwPass>(pass: &'p mut P) -> WriteHold<'p, P>
    requires on { P.writes pass.old ≡ 1 }
    requires has { P.has_write pass.old ≡ true }
    ensures same_reference { result.pass.ghost_name ≡ pass.entry.ghost_name }
    ensures same_pass { result.pass.now ≡ pass.old }
{
    WriteHold { pass }
}

/// The pass that was lent to a hold which is about to be unlocked.
#[inline(always)]
pub fn end_read_hold<'p, P: RwPass>(hold: ReadHold<'p, P>) -> &'p mut P
    ensures same_reference { result.ghost_name ≡ hold.entry.pass.ghost_name }
    ensures same_pass { result.now ≡ hold.entry.pass.now }
{
    let ReadHold { pass } = hold;
    pass
}

/// The pass that was lent to a hold which is about to be unlocked.
#[inline(always)]
pub fn end_write_hold<'p, P: RwPass>(hold: WriteHold<'p, P>) -> &'p mut P
    ensures same_reference { result.ghost_name ≡ hold.entry.pass.ghost_name }
    ensures same_pass { result.now ≡ hold.entry.pass.now }
{
    let WriteHold { pass } = hold;
    pass
}
