//! The bands of an adapter.
ghost use Rattle.std.specs.Prelude.{◌≡◌, IfOk};
ghost use Rattle.toml.specs.View.{table_view};
ghost use Rattle.config_tables.specs.Fault.{Judged};
ghost use Rattle.config_tables.specs.Judging.{table_fault, rule_fault};
ghost use Rattle.adapter_policies.specs.Schema.{band_rules};
ghost use Rattle.adapter_policies.specs.Tables.{band_of};

use crate::priorities::due_priority;
use config_tables::{Entry, SetupError, known_keys};
use orb_base::Priority;
use std::alloc::Global;
use toml::Table;

/// A band of an adapter, as its table says it: its ends may be reversed.
#[derive(Clone, Copy, Debug, PartialEq, Eq)]
pub struct BandTable {
    pub low: Priority,
    pub high: Priority,
}

impl Entry for BandTable {
    ghost fault = { table_fault rule_fault band_rules };

    ghost Means = { λ ms band. band ≡ band_of ms };

    fn read(alloc: Global, path: &str, table: &Table) -> Result<BandTable, SetupError> {
        read_band(alloc, path, table)
    }
}

/// The band that a table says.
#[tactic(auto, using(config_tables::proofs::Judging::refuses_first, config_tables::proofs::Judging::refuses_later))]
fn read_band(alloc: Global, path: &str, table: &Table) -> Result<BandTable, SetupError>
    ensures judged { Judged result (table_fault rule_fault band_rules path.now (table_view table.now)) }
    ensures value { IfOk result (λ band. band ≡ band_of (table_view table.now)) }
{
    known_keys(alloc, path, table, &["low", "high"])?;
    let low = due_priority(alloc, path, table, "low")?;
    let high = due_priority(alloc, path, table, "high")?;
    Ok(BandTable { low, high })
}
