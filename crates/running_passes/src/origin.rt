//! Where the passes of an object come from.
ghost use Rattle.std.specs.Prelude.{◌≡◌, ◌<◌};

use crate::rule::{Rule, SumRule};
use crate::view::View;
use atomic_table::Table;
use std::alloc::{Allocator, Global};

/// What the passes of an object come from: they are split and joined here, and no step can be made. A type over `Words` gives it to
/// its users by `Deref`.
#[derive(Drop)]
pub struct Origin<K, T: Rule<(), K>, A: Allocator = Global> {
    pub(crate) table: Table<(), View<T>, K, SumRule<T>, A>,
    ghost some_word: { 0 < table.shared.table_id.words },
    ghost no_slot: { table.shared.table_id.slots ≡ 0 },
}
