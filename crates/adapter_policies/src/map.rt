//! The map.
ghost use Rattle.std.specs.Prelude.{◌≡◌, IfOk, codes, map};
ghost use Rattle.toml.specs.Data.{get_member};
ghost use Rattle.toml.specs.View.{table_view};
ghost use Rattle.config_tables.specs.Fault.{Judged};
ghost use Rattle.config_tables.specs.Held.{number_at, native_at};
ghost use Rattle.config_tables.specs.Judging.{table_fault, key_fault};
ghost use Rattle.config_tables.specs.Rules.{says, key_of, one, entries, native};
ghost use Rattle.config_tables.specs.Standing.{holds};
ghost use Rattle.config_tables.specs.Values.{tables_at};
ghost use Rattle.adapter_policies.specs.Schema.{any_length, priority, if_linear, if_table, row_rules, map_rules};
ghost use Rattle.adapter_policies.specs.Tables.{row_of, map_of};

use crate::priorities::priority_where;
use crate::row::RowTable;
use config_tables::{SetupError, due_word, entries_where, known_keys, member, native_where};
use orb_base::Priority;
use std::alloc::Global;
use std::marker::Model;
use toml::Table;

/// The map, as its table says it. A linear one has no rows, and the ends of a table map are 0.
#[derive(Drop)]
pub struct MapTable {
    pub linear: bool,
    pub corba_low: Priority,
    pub corba_high: Priority,
    pub native_low: i32,
    pub native_high: i32,
    pub rows: Vec<RowTable>,
}

impl Model for MapTable {
    ghost use Rattle.adapter_policies.specs.Tables.{MapSaid};

    ghost Value = { MapSaid };

    ghost view = { λ m. record {
      linear = m.linear;
      corba_low = m.corba_low;
      corba_high = m.corba_high;
      native_low = m.native_low;
      native_high = m.native_high;
      rows = m.rows.items;
    } };
}

/// The map that a table says.
#[tactic(auto, using(config_tables::proofs::Judging::refuses_first, config_tables::proofs::Judging::refuses_later))]
pub fn read_map(alloc: Global, path: &str, table: &Table) -> Result<MapTable, SetupError>
    ensures judged { Judged result (table_fault key_fault map_rules path.now (table_view table.now)) }
    ensures value { IfOk result (λ m. m ≡ map_of (table_view table.now)) }
{
    known_keys(
        alloc,
        path,
        table,
        &[
            "kind",
            "corba_low",
            "corba_high",
            "native_low",
            "native_high",
            "rows",
        ],
    )?;
    due_word(alloc, path, table, "kind", &["linear", "table"])?;
    let corba_low = read_corba(alloc, path, table, "corba_low")?;
    let corba_high = read_corba(alloc, path, table, "corba_high")?;
    let native_low = read_native(alloc, path, table, "native_low")?;
    let native_high = read_native(alloc, path, table, "native_high")?;
    let rows = read_rows(alloc, path, table)?;
    Ok(MapTable {
        linear: is_of_kind(table, "linear"),
        corba_low,
        corba_high,
        native_low,
        native_high,
        rows,
    })
}

/// Whether a map is of a kind.
fn is_of_kind(table: &Table, word: &str) -> bool
    ensures { result ≡ holds (says (codes "kind") word.now) (table_view table.now) }
{
    let Some(value) = member(table, "kind") else {
        return false;
    };
    match value.as_str() {
        Some(kind) => kind == word,
        None => false,
    }
}

/// An end of the CORBA priorities of a linear map.
fn read_corba(alloc: Global, path: &str, table: &Table, key: &str) -> Result<Priority, SetupError>
    ensures judged { Judged result (key_fault (key_of key.now if_linear (one priority)) path.now (table_view table.now)) }
    ensures value { IfOk result (λ p. p ≡ number_at key.now (table_view table.now)) }
{
    priority_where(alloc, path, table, key, is_of_kind(table, "linear"))
}

/// An end of the native priorities of a linear map.
fn read_native(alloc: Global, path: &str, table: &Table, key: &str) -> Result<i32, SetupError>
    ensures judged { Judged result (key_fault (key_of key.now if_linear (one native)) path.now (table_view table.now)) }
    ensures value { IfOk result (λ n. n ≡ native_at key.now (table_view table.now)) }
{
    native_where(alloc, path, table, key, is_of_kind(table, "linear"))
}

/// The rows of a table map.
fn read_rows(alloc: Global, path: &str, table: &Table) -> Result<Vec<RowTable>, SetupError>
    ensures judged { Judged result (key_fault (key_of (codes "rows") if_table (entries 0 any_length row_rules)) path.now (table_view table.now)) }
    ensures value { IfOk result (λ rows. rows.items ≡ map row_of (tables_at (get_member (codes "rows") (table_view table.now)))) }
{
    entries_where(
        alloc,
        path,
        table,
        "rows",
        (0, usize::MAX),
        is_of_kind(table, "table"),
    )
}
