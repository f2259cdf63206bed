//! The rows of a map.
ghost use Rattle.std.specs.Prelude.{◌≡◌, IfOk};
ghost use Rattle.toml.specs.View.{table_view};
ghost use Rattle.config_tables.specs.Fault.{Judged};
ghost use Rattle.config_tables.specs.Judging.{table_fault, rule_fault};
ghost use Rattle.adapter_policies.specs.Schema.{row_rules};
ghost use Rattle.adapter_policies.specs.Tables.{row_of};

use crate::priorities::due_priority;
use config_tables::{Entry, SetupError, due_native, known_keys};
use orb_base::Priority;
use std::alloc::Global;
use toml::Table;

/// A row of a map, as its table says it.
#[derive(Clone, Copy, Debug, PartialEq, Eq)]
pub struct RowTable {
    pub low: Priority,
    pub high: Priority,
    pub native: i32,
}

impl Entry for RowTable {
    ghost fault = { table_fault rule_fault row_rules };

    ghost Means = { λ ms row. row ≡ row_of ms };

    fn read(alloc: Global, path: &str, table: &Table) -> Result<RowTable, SetupError> {
        read_row(alloc, path, table)
    }
}

/// The row that a table says.
#[tactic(auto, using(config_tables::proofs::Judging::refuses_first, config_tables::proofs::Judging::refuses_later))]
fn read_row(alloc: Global, path: &str, table: &Table) -> Result<RowTable, SetupError>
    ensures judged { Judged result (table_fault rule_fault row_rules path.now (table_view table.now)) }
    ensures value { IfOk result (λ row. row ≡ row_of (table_view table.now)) }
{
    known_keys(alloc, path, table, &["low", "high", "native"])?;
    let low = due_priority(alloc, path, table, "low")?;
    let high = due_priority(alloc, path, table, "high")?;
    let native = due_native(alloc, path, table, "native")?;
    Ok(RowTable { low, high, native })
}
