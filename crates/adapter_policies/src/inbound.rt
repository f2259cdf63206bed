//! The rows of an adapter's transform.
ghost use Rattle.std.specs.Prelude.{◌≡◌, IfOk};
ghost use Rattle.toml.specs.View.{table_view};
ghost use Rattle.config_tables.specs.Fault.{Judged};
ghost use Rattle.config_tables.specs.Judging.{table_fault, rule_fault};
ghost use Rattle.adapter_policies.specs.Schema.{inbound_rules};
ghost use Rattle.adapter_policies.specs.Tables.{inbound_of};

use crate::priorities::due_priority;
use config_tables::{Entry, SetupError, known_keys};
use orb_base::Priority;
use std::alloc::Global;
use toml::Table;

/// A row of a transform, as its table says it: the ends of its band may be reversed.
#[derive(Clone, Copy, Debug, PartialEq, Eq)]
pub struct InboundTable {
    pub low: Priority,
    pub high: Priority,
    /// The priority that takes the place of those of the band.
    pub to: Priority,
}

impl Entry for InboundTable {
    ghost fault = { table_fault rule_fault inbound_rules };

    ghost Means = { λ ms row. row ≡ inbound_of ms };

    fn read(alloc: Global, path: &str, table: &Table) -> Result<InboundTable, SetupError> {
        read_inbound_row(alloc, path, table)
    }
}

/// The row that a table says.
#[tactic(auto, using(config_tables::proofs::Judging::refuses_first, config_tables::proofs::Judging::refuses_later))]
fn read_inbound_row(alloc: Global, path: &str, table: &Table) -> Result<InboundTable, SetupError>
    ensures judged { Judged result (table_fault rule_fault inbound_rules path.now (table_view table.now)) }
    ensures value { IfOk result (λ row. row ≡ inbound_of (table_view table.now)) }
{
    known_keys(alloc, path, table, &["low", "high", "to"])?;
    let low = due_priority(alloc, path, table, "low")?;
    let high = due_priority(alloc, path, table, "high")?;
    let to = due_priority(alloc, path, table, "to")?;
    Ok(InboundTable { low, high, to })
}
