//! Adapters.
ghost use Rattle.std.specs.Prelude.{◌≡◌, IfOk, codes, map};
ghost use Rattle.toml.specs.Data.{get_member};
ghost use Rattle.toml.specs.View.{table_view};
ghost use Rattle.config_tables.specs.Fault.{Judged};
ghost use Rattle.config_tables.specs.Judging.{table_fault, rule_fault, key_fault, list_fault};
ghost use Rattle.config_tables.specs.Path.{key_path};
ghost use Rattle.config_tables.specs.Standing.{is_free};
ghost use Rattle.config_tables.specs.Values.{tables_at};
ghost use Rattle.adapter_policies.specs.Schema.{band_rules, inbound_rules, adapter_rules};
ghost use Rattle.adapter_policies.specs.Tables.{band_of, inbound_of, model_named, adapter_of};

use crate::band::BandTable;
use crate::inbound::InboundTable;
use crate::priorities::due_priority;
use config_tables::{Entry, SetupError, due_text, due_word, free_entries, known_keys};
use orb_base::{Priority, PriorityModel, Text};
use std::alloc::Global;
use std::marker::Model;
use toml::Table;

/// An adapter, as its table says it.
#[derive(Drop)]
pub struct AdapterTable {
    pub name: Text,
    pub model: PriorityModel,
    pub priority: Priority,
    pub bands: Vec<BandTable>,
    /// The rows of its transform, if it has one.
    pub inbound: Vec<InboundTable>,
}

impl Model for AdapterTable {
    ghost use Rattle.adapter_policies.specs.Tables.{AdapterSaid};

    ghost Value = { AdapterSaid };

    ghost view = { λ a. record {
      name = a.name;
      model = a.model;
      priority = a.priority;
      bands = a.bands.items;
      inbound = a.inbound.items;
    } };
}

impl Entry for AdapterTable {
    ghost fault = { table_fault key_fault adapter_rules };

    ghost Means = { λ ms adapter. adapter ≡ adapter_of ms };

    fn read(alloc: Global, path: &str, table: &Table) -> Result<AdapterTable, SetupError> {
        read_adapter(alloc, path, table)
    }
}

/// The adapter that a table says.
#[tactic(auto, using(config_tables::proofs::Judging::refuses_first, config_tables::proofs::Judging::refuses_later))]
pub fn read_adapter(alloc: Global, path: &str, table: &Table) -> Result<AdapterTable, SetupError>
    ensures judged { Judged result (table_fault key_fault adapter_rules path.now (table_view table.now)) }
    ensures value { IfOk result (λ adapter. adapter ≡ adapter_of (table_view table.now)) }
{
    known_keys(
        alloc,
        path,
        table,
        &["name", "model", "priority", "bands", "inbound"],
    )?;
    let name = due_text(alloc, path, table, "name", 0, usize::MAX)?;
    let model = due_word(
        alloc,
        path,
        table,
        "model",
        &["CLIENT_PROPAGATED", "SERVER_DECLARED"],
    )?;
    let priority = due_priority(alloc, path, table, "priority")?;
    let bands = read_bands(alloc, path, table)?;
    let inbound = read_inbound(alloc, path, table)?;
    Ok(AdapterTable {
        name,
        model: model_named(model),
        priority,
        bands,
        inbound,
    })
}

/// The bands of an adapter.
fn read_bands(alloc: Global, path: &str, table: &Table) -> Result<Vec<BandTable>, SetupError>
    ensures judged { Judged result (list_fault (table_fault rule_fault band_rules) 1 16 (key_path path.now (codes "bands")) is_free
        (get_member (codes "bands") (table_view table.now))) }
    ensures value { IfOk result (λ bands. bands.items ≡ map band_of (tables_at (get_member (codes "bands") (table_view table.now)))) }
{
    free_entries(alloc, path, table, "bands", (1, 16))
}

/// The rows of an adapter's transform.
fn read_inbound(alloc: Global, path: &str, table: &Table) -> Result<Vec<InboundTable>, SetupError>
    ensures judged { Judged result (list_fault (table_fault rule_fault inbound_rules) 1 32 (key_path path.now (codes "inbound")) is_free
        (get_member (codes "inbound") (table_view table.now))) }
    ensures value { IfOk result (λ rows. rows.items
        ≡ map inbound_of (tables_at (get_member (codes "inbound") (table_view table.now)))) }
{
    free_entries(alloc, path, table, "inbound", (1, 32))
}

/// The model of a word.
fn model_named(word: &str) -> PriorityModel
    ensures { result ≡ model_named word.now }
{
    if word == "CLIENT_PROPAGATED" {
        PriorityModel::ClientPropagated
    } else {
        PriorityModel::ServerDeclared
    }
}
