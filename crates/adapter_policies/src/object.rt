//! Objects.
ghost use Rattle.std.specs.Prelude.{◌≡◌, IfOk};
ghost use Rattle.toml.specs.View.{table_view};
ghost use Rattle.config_tables.specs.Fault.{Judged};
ghost use Rattle.config_tables.specs.Judging.{table_fault, key_fault};
ghost use Rattle.adapter_policies.specs.Schema.{object_rules};
ghost use Rattle.adapter_policies.specs.Tables.{object_of};

use crate::priorities::free_priority;
use config_tables::{Entry, SetupError, due_text, known_keys};
use orb_base::{Priority, Text};
use std::alloc::Global;
use toml::Table;

/// An object, as its table says it.
#[derive(Drop)]
pub struct ObjectTable {
    pub key: Text,
    /// The name of its adapter.
    pub adapter: Text,
    /// The identifier of its interface.
    pub interface: Text,
    /// Its own priority, if it has one.
    pub priority: Option<Priority>,
}

impl Entry for ObjectTable {
    ghost fault = { table_fault key_fault object_rules };

    ghost Means = { λ ms object. object ≡ object_of ms };

    fn read(alloc: Global, path: &str, table: &Table) -> Result<ObjectTable, SetupError> {
        read_object(alloc, path, table)
    }
}

/// The object that a table says.
#[tactic(auto, using(config_tables::proofs::Judging::refuses_first, config_tables::proofs::Judging::refuses_later))]
pub fn read_object(alloc: Global, path: &str, table: &Table) -> Result<ObjectTable, SetupError>
    ensures judged { Judged result (table_fault key_fault object_rules path.now (table_view table.now)) }
    ensures value { IfOk result (λ object. object ≡ object_of (table_view table.now)) }
{
    known_keys(
        alloc,
        path,
        table,
        &["key", "adapter", "interface", "priority"],
    )?;
    let key = due_text(alloc, path, table, "key", 1, 64)?;
    let adapter = due_text(alloc, path, table, "adapter", 0, usize::MAX)?;
    let interface = due_text(alloc, path, table, "interface", 0, usize::MAX)?;
    let priority = free_priority(alloc, path, table, "priority")?;
    Ok(ObjectTable {
        key,
        adapter,
        interface,
        priority,
    })
}
