//! Lists of tables, each read by the rules of its kind.
ghost use Rattle.std.specs.Prelude.{◌≡◌, ◌≤◌, ℕ, List, Option, IfOk, length, vec_len};
ghost use Rattle.toml.specs.Data.{Members, get_member};
ghost use Rattle.toml.specs.View.{table_view, items_view};
ghost use Rattle.config_tables.specs.Fault.{Fault, Judged};
ghost use Rattle.config_tables.specs.Judging.{entries_fault, list_fault};
ghost use Rattle.config_tables.specs.Values.{tables_in, tables_at};
ghost use Rattle.config_tables.specs.Path.{entry_path, key_path};
ghost use Rattle.config_tables.specs.Standing.{is_free, due_exactly};
ghost use Rattle.config_tables.specs.Means.{EachMeans};

use crate::fault::SetupError;
use crate::lists::{free_list, list_where};
use crate::paths::{entry_path, key_path};
use std::alloc::Global;
use toml::{Table, Value};

/// What an entry of a list is read as.
pub trait Entry: Drop + Sized {
    ghost fault: { List ℕ → Members → Option Fault };

    ghost Means: { Members → Self → Type 0 };

    /// Reads the table at a path.
    fn read(alloc: Global, path: &str, table: &Table) -> Result<Self, SetupError>
        ensures judged { Judged result (fault path.now (table_view table.now)) }
        ensures value { IfOk result (Means (table_view table.now)) };
}

/// Reads the tables of a list at a path.
pub fn read_entries<E: Entry>(
    alloc: Global,
    path: &str,
    list: &[Value],
) -> Result<Vec<E>, SetupError>
    ensures judged { Judged result (entries_fault E.fault path.now 0 (tables_in (items_view list.now))) }
    ensures value { IfOk result (λ es. EachMeans E.Means (tables_in (items_view list.now)) es.items) }
    ensures few { IfOk result (λ es. vec_len es ≤ length list.now) }
{
    let mut entries = Vec::new(alloc);
    for value in list {
        let Some(table) = value.as_table() else {
            continue
        };
        let entry = read_entry(alloc, path, entries.len(), table)?;
        if entries.push(entry).is_err() {
            return Err(SetupError::NoMemory);
        }
    }
    Ok(entries)
}

/// Reads the entry of a number.
fn read_entry<E: Entry>(alloc: Global, path: &str, n: usize, table: &Table) -> Result<E, SetupError>
    ensures judged { Judged result (E.fault (entry_path path.now n) (table_view table.now)) }
    ensures value { IfOk result (E.Means (table_view table.now)) }
{
    match entry_path(alloc, path, n) {
        Ok(path) => E::read(alloc, path.as_str(), table),
        Err(_) => Err(SetupError::NoMemory),
    }
}

/// Reads the tables of the list at a key of the table at a path.
pub fn read_list<E: Entry>(
    alloc: Global,
    path: &str,
    key: &str,
    list: &[Value],
) -> Result<Vec<E>, SetupError>
    ensures judged { Judged result (entries_fault E.fault (key_path path.now key.now) 0 (tables_in (items_view list.now))) }
    ensures value { IfOk result (λ es. EachMeans E.Means (tables_in (items_view list.now)) es.items) }
{
    match key_path(alloc, path, key) {
        Ok(path) => read_entries(alloc, path.as_str(), list),
        Err(_) => Err(SetupError::NoMemory),
    }
}

/// Reads the tables of a list that may be there. There are none where it isn't there.
#[tactic(auto, using(crate::proofs::Judging::refuses_first, crate::proofs::Judging::refuses_later))]
pub fn free_entries<E: Entry>(
    alloc: Global,
    path: &str,
    table: &Table,
    key: &str,
    range: (usize, usize),
) -> Result<Vec<E>, SetupError>
    ensures judged { Judged result (list_fault E.fault range.0 range.1 (key_path path.now key.now) is_free
        (get_member key.now (table_view table.now))) }
    ensures value { IfOk result (λ es. EachMeans E.Means (tables_at (get_member key.now (table_view table.now))) es.items) }
{
    let Some(list) = free_list(alloc, path, table, key, range.0, range.1)? else {
        return Ok(Vec::new(alloc));
    };
    read_list(alloc, path, key, list.as_slice())
}

/// Reads the tables of a list that has to be there exactly where something holds. There are none where it isn't there.
#[tactic(auto, using(crate::proofs::Judging::refuses_first, crate::proofs::Judging::refuses_later))]
pub fn entries_where<E: Entry>(
    alloc: Global,
    path: &str,
    table: &Table,
    key: &str,
    range: (usize, usize),
    holds: bool,
) -> Result<Vec<E>, SetupError>
    ensures judged { Judged result (list_fault E.fault range.0 range.1 (key_path path.now key.now) (due_exactly holds)
        (get_member key.now (table_view table.now))) }
    ensures value { IfOk result (λ es. EachMeans E.Means (tables_at (get_member key.now (table_view table.now))) es.items) }
{
    let Some(list) = list_where(alloc, path, table, key, range, holds)? else {
        return Ok(Vec::new(alloc));
    };
    read_list(alloc, path, key, list.as_slice())
}
