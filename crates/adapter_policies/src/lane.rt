//! The lanes of a pool.
ghost use Rattle.std.specs.Prelude.{◌≡◌, IfOk};
ghost use Rattle.toml.specs.View.{table_view};
ghost use Rattle.config_tables.specs.Fault.{Judged};
ghost use Rattle.config_tables.specs.Judging.{table_fault, rule_fault};
ghost use Rattle.adapter_policies.specs.Schema.{lane_rules};
ghost use Rattle.adapter_policies.specs.Tables.{lane_at};

use crate::priorities::due_priority;
use config_tables::{Entry, SetupError, due_number, known_keys};
use orb_base::Priority;
use std::alloc::Global;
use toml::Table;

/// A lane, as its table says it.
#[derive(Clone, Copy, Debug, PartialEq, Eq)]
pub struct LaneTable {
    pub priority: Priority,
    pub statics: u8,
    pub dynamics: u8,
}

impl Entry for LaneTable {
    ghost fault = { table_fault rule_fault lane_rules };

    ghost Means = { λ ms lane. lane ≡ lane_at ms };

    fn read(alloc: Global, path: &str, table: &Table) -> Result<LaneTable, SetupError> {
        read_lane(alloc, path, table)
    }
}

/// The lane that a table says.
#[tactic(auto, using(config_tables::proofs::Judging::refuses_first, config_tables::proofs::Judging::refuses_later))]
fn read_lane(alloc: Global, path: &str, table: &Table) -> Result<LaneTable, SetupError>
    ensures judged { Judged result (table_fault rule_fault lane_rules path.now (table_view table.now)) }
    ensures value { IfOk result (λ lane. lane ≡ lane_at (table_view table.now)) }
{
    known_keys(alloc, path, table, &["priority", "static", "dynamic"])?;
    let priority = due_priority(alloc, path, table, "priority")?;
    let statics = due_number(alloc, path, table, "static", 0, 64)?;
    let dynamics = due_number(alloc, path, table, "dynamic", 0, 64)?;
    Ok(LaneTable {
        priority,
        statics: statics as u8,
        dynamics: dynamics as u8,
    })
}
