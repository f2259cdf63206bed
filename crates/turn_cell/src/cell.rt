//! The table after a turn cell.
ghost use Rattle.std.specs.Prelude.{◌≡◌};

use crate::bells::Bells;
use crate::board::{Core, Known, OneHistory, Terms};
use crate::object::Object;
use atomic_table::Table;
use std::alloc::Global;
use std::snapshot::Snapshot;

/// The table of one word and one slot.
#[derive(Drop)]
pub struct Board<O: Object> {
    pub(crate) table: Table<Option<Core<O>>, Known<O>, Snapshot<Terms<O>>, OneHistory<O>, Global>,
    pub(crate) bells: Bells,
    ghost one: { (table.shared.table_id.words ≡ 1) × (table.shared.table_id.slots ≡ 1) },
}
