//! Keys that hold tables or lists of tables. Each reader judges its key by its rule, and gives what the key holds.
ghost use Rattle.std.specs.Prelude.{◌≡◌, ◌≤◌, IfOk, Some, length, option_map};
ghost use Rattle.toml.specs.Data.{get_member, array, table};
ghost use Rattle.toml.specs.View.{view, table_view, items_view};
ghost use Rattle.config_tables.specs.Fault.{Judged};
ghost use Rattle.config_tables.specs.Path.{key_path};
ghost use Rattle.config_tables.specs.Standing.{is_due, is_free, due_exactly};
ghost use Rattle.config_tables.specs.Values.{fault_at, key_cause, list_cause, table_cause};

use crate::fault::{ConfigCause, SetupError};
use crate::members::{excluded, member};
use crate::paths::refuse_key;
use crate::scalars::{list_in, table_in};
use std::alloc::Global;
use toml::Table;
use toml::value::Array;

/// A list of tables that may be there.
pub fn free_list<'a>(
    alloc: Global,
    path: &str,
    table: &'a Table,
    key: &str,
    low: usize,
    high: usize,
) -> Result<Option<&'a Array>, SetupError>
    ensures judged { Judged result (fault_at (key_path path.now key.now)
        (key_cause (list_cause low high) is_free (get_member key.now (table_view table.now)))) }
    ensures value { IfOk result (λ found. option_map (λ list. array (items_view list.now.items)) found
        ≡ get_member key.now (table_view table.now)) }
{
    match member(table, key) {
        None => Ok(None),
        Some(value) => match list_in(value, low, high) {
            Ok(list) => Ok(Some(list)),
            Err(cause) => Err(refuse_key(alloc, path, key, cause)),
        },
    }
}

/// A list of tables that has to be there.
pub fn due_list<'a>(
    alloc: Global,
    path: &str,
    table: &'a Table,
    key: &str,
    low: usize,
    high: usize,
) -> Result<&'a Array, SetupError>
    ensures judged { Judged result (fault_at (key_path path.now key.now)
        (key_cause (list_cause low high) is_due (get_member key.now (table_view table.now)))) }
    ensures value { IfOk result (λ list. get_member key.now (table_view table.now) ≡ Some (array (items_view list.now.items))) }
    ensures range { IfOk result (λ list. length list.now.items ≤ high) }
{
    match member(table, key) {
        None => Err(refuse_key(alloc, path, key, ConfigCause::Missing)),
        Some(value) => match list_in(value, low, high) {
            Ok(list) => Ok(list),
            Err(cause) => Err(refuse_key(alloc, path, key, cause)),
        },
    }
}

/// A list of tables that has to be there exactly where something holds. None where it isn't there.
pub fn list_where<'a>(
    alloc: Global,
    path: &str,
    table: &'a Table,
    key: &str,
    range: (usize, usize),
    holds: bool,
) -> Result<Option<&'a Array>, SetupError>
    ensures judged { Judged result (fault_at (key_path path.now key.now)
        (key_cause (list_cause range.0 range.1) (due_exactly holds) (get_member key.now (table_view table.now)))) }
    ensures value { IfOk result (λ found. option_map (λ list. array (items_view list.now.items)) found
        ≡ get_member key.now (table_view table.now)) }
{
    if holds {
        return match due_list(alloc, path, table, key, range.0, range.1) {
            Ok(list) => Ok(Some(list)),
            Err(e) => Err(e),
        };
    }
    match excluded(alloc, path, table, key) {
        Ok(()) => Ok(None),
        Err(e) => Err(e),
    }
}

/// A table that may be there.
pub fn free_table<'a>(
    alloc: Global,
    path: &str,
    within: &'a Table,
    key: &str,
) -> Result<Option<&'a Table>, SetupError>
    ensures judged { Judged result (fault_at (key_path path.now key.now)
        (key_cause table_cause is_free (get_member key.now (table_view within.now)))) }
    ensures value { IfOk result (λ found. option_map (λ t. table (table_view t.now)) found
        ≡ get_member key.now (table_view within.now)) }
{
    match member(within, key) {
        None => Ok(None),
        Some(value) => match table_in(value) {
            Ok(table) => Ok(Some(table)),
            Err(cause) => Err(refuse_key(alloc, path, key, cause)),
        },
    }
}

/// A table that has to be there.
pub fn due_table<'a>(
    alloc: Global,
    path: &str,
    within: &'a Table,
    key: &str,
) -> Result<&'a Table, SetupError>
    ensures judged { Judged result (fault_at (key_path path.now key.now)
        (key_cause table_cause is_due (get_member key.now (table_view within.now)))) }
    ensures value { IfOk result (λ t. get_member key.now (table_view within.now) ≡ Some (table (table_view t.now))) }
{
    match member(within, key) {
        None => Err(refuse_key(alloc, path, key, ConfigCause::Missing)),
        Some(value) => match table_in(value) {
            Ok(table) => Ok(table),
            Err(cause) => Err(refuse_key(alloc, path, key, cause)),
        },
    }
}
