//! The server.
ghost use Rattle.std.specs.Prelude.{◌≡◌, IfOk};
ghost use Rattle.toml.specs.Data.{get_member};
ghost use Rattle.toml.specs.View.{table_view};
ghost use Rattle.config_tables.specs.Fault.{Judged};
ghost use Rattle.config_tables.specs.Held.{number_of, where_there};
ghost use Rattle.config_tables.specs.Judging.{table_fault, key_fault};
ghost use Rattle.config_tables.specs.Path.{key_path};
ghost use Rattle.config_tables.specs.Rules.{number};
ghost use Rattle.config_tables.specs.Standing.{is_free};
ghost use Rattle.config_tables.specs.Values.{fault_at, key_cause, scalar_cause};
ghost use Rattle.adapter_policies.specs.Schema.{server_rules};
ghost use Rattle.adapter_policies.specs.Tables.{server_of};

use config_tables::{SetupError, free_number, known_keys};
use std::alloc::Global;
use toml::Table;

/// The limits of a server, as its table says them: the defaults aren't put in yet.
#[derive(Clone, Copy, Debug, PartialEq, Eq)]
pub struct ServerTable {
    pub slots: Option<u8>,
    pub per_slot: Option<u8>,
    pub max_calls: Option<u32>,
    pub max_bytes: Option<u32>,
}

/// The limits that a table says.
#[tactic(auto, using(config_tables::proofs::Judging::refuses_first, config_tables::proofs::Judging::refuses_later))]
pub fn read_server(alloc: Global, path: &str, table: &Table) -> Result<ServerTable, SetupError>
    ensures judged { Judged result (table_fault key_fault server_rules path.now (table_view table.now)) }
    ensures value { IfOk result (λ server. server ≡ server_of (table_view table.now)) }
{
    known_keys(
        alloc,
        path,
        table,
        &["slots", "per_slot", "max_calls", "max_bytes"],
    )?;
    let slots = free_count(alloc, path, table, "slots", 16)?;
    let per_slot = free_count(alloc, path, table, "per_slot", 128)?;
    let max_calls = free_number(alloc, path, table, "max_calls", 1, 65_536)?;
    let max_bytes = free_number(alloc, path, table, "max_bytes", 1, 67_108_864)?;
    Ok(ServerTable {
        slots,
        per_slot,
        max_calls,
        max_bytes,
    })
}

/// A number from 1 on that may be there.
fn free_count(
    alloc: Global,
    path: &str,
    table: &Table,
    key: &str,
    high: u8,
) -> Result<Option<u8>, SetupError>
    ensures judged { Judged result (fault_at (key_path path.now key.now)
        (key_cause (scalar_cause (number 1 high)) is_free (get_member key.now (table_view table.now)))) }
    ensures value { IfOk result (λ n. n ≡ where_there number_of (get_member key.now (table_view table.now))) }
{
    match free_number(alloc, path, table, key, 1, u32::from(high))? {
        Some(n) => Ok(Some(n as u8)),
        None => Ok(None),
    }
}
