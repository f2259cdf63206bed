//! Keys that hold numbers or truth values. Each reader judges its key by its rule, and gives what the key holds.
ghost use Rattle.std.specs.Prelude.{◌≡◌, ◌≤◌, IfOk, IfSome};
ghost use Rattle.toml.specs.Data.{get_member};
ghost use Rattle.toml.specs.View.{view, table_view};
ghost use Rattle.config_tables.specs.Fault.{Judged};
ghost use Rattle.config_tables.specs.Path.{key_path};
ghost use Rattle.config_tables.specs.Held.{number_of, number_at, native_at, truth_at, where_there};
ghost use Rattle.config_tables.specs.Rules.{number, native, truth};
ghost use Rattle.config_tables.specs.Standing.{is_due, is_free, due_exactly};
ghost use Rattle.config_tables.specs.Values.{fault_at, key_cause, scalar_cause};

use crate::fault::{ConfigCause, SetupError};
use crate::members::{excluded, member};
use crate::paths::refuse_key;
use crate::scalars::{native_in, number_in, truth_in};
use std::alloc::Global;
use toml::Table;

/// A number that has to be there.
pub fn due_number(
    alloc: Global,
    path: &str,
    table: &Table,
    key: &str,
    low: u32,
    high: u32,
) -> Result<u32, SetupError>
    ensures judged { Judged result (fault_at (key_path path.now key.now)
        (key_cause (scalar_cause (number low high)) is_due (get_member key.now (table_view table.now)))) }
    ensures value { IfOk result (λ n. n ≡ number_at key.now (table_view table.now)) }
    ensures range { IfOk result (λ n. n ≤ high) }
{
    match member(table, key) {
        None => Err(refuse_key(alloc, path, key, ConfigCause::Missing)),
        Some(value) => match number_in(value, low, high) {
            Ok(n) => Ok(n),
            Err(cause) => Err(refuse_key(alloc, path, key, cause)),
        },
    }
}

/// A number that may be there.
pub fn free_number(
    alloc: Global,
    path: &str,
    table: &Table,
    key: &str,
    low: u32,
    high: u32,
) -> Result<Option<u32>, SetupError>
    ensures judged { Judged result (fault_at (key_path path.now key.now)
        (key_cause (scalar_cause (number low high)) is_free (get_member key.now (table_view table.now)))) }
    ensures value { IfOk result (λ n. n ≡ where_there number_of (get_member key.now (table_view table.now))) }
    ensures range { IfOk result (λ found. IfSome found (λ n. n ≤ high)) }
{
    match member(table, key) {
        None => Ok(None),
        Some(value) => match number_in(value, low, high) {
            Ok(n) => Ok(Some(n)),
            Err(cause) => Err(refuse_key(alloc, path, key, cause)),
        },
    }
}

/// A 32-bit number with a sign that has to be there.
pub fn due_native(alloc: Global, path: &str, table: &Table, key: &str) -> Result<i32, SetupError>
    ensures judged { Judged result (fault_at (key_path path.now key.now)
        (key_cause (scalar_cause native) is_due (get_member key.now (table_view table.now)))) }
    ensures value { IfOk result (λ n. n ≡ native_at key.now (table_view table.now)) }
{
    match member(table, key) {
        None => Err(refuse_key(alloc, path, key, ConfigCause::Missing)),
        Some(value) => match native_in(value) {
            Ok(n) => Ok(n),
            Err(cause) => Err(refuse_key(alloc, path, key, cause)),
        },
    }
}

/// A number that has to be there exactly where something holds. It is 0 where it isn't there.
pub fn number_where(
    alloc: Global,
    path: &str,
    table: &Table,
    key: &str,
    range: (u32, u32),
    holds: bool,
) -> Result<u32, SetupError>
    ensures judged { Judged result (fault_at (key_path path.now key.now)
        (key_cause (scalar_cause (number range.0 range.1)) (due_exactly holds) (get_member key.now (table_view table.now)))) }
    ensures value { IfOk result (λ n. n ≡ number_at key.now (table_view table.now)) }
    ensures range { IfOk result (λ n. n ≤ range.1) }
{
    if holds {
        return due_number(alloc, path, table, key, range.0, range.1);
    }
    match excluded(alloc, path, table, key) {
        Ok(()) => Ok(0),
        Err(e) => Err(e),
    }
}

/// A 32-bit number with a sign that has to be there exactly where something holds. It is 0 where it isn't there.
pub fn native_where(
    alloc: Global,
    path: &str,
    table: &Table,
    key: &str,
    holds: bool,
) -> Result<i32, SetupError>
    ensures judged { Judged result (fault_at (key_path path.now key.now)
        (key_cause (scalar_cause native) (due_exactly holds) (get_member key.now (table_view table.now)))) }
    ensures value { IfOk result (λ n. n ≡ native_at key.now (table_view table.now)) }
{
    if holds {
        return due_native(alloc, path, table, key);
    }
    match excluded(alloc, path, table, key) {
        Ok(()) => Ok(0),
        Err(e) => Err(e),
    }
}

/// A truth value that may be there. It is false where it isn't.
pub fn free_truth(alloc: Global, path: &str, table: &Table, key: &str) -> Result<bool, SetupError>
    ensures judged { Judged result (fault_at (key_path path.now key.now)
        (key_cause (scalar_cause truth) is_free (get_member key.now (table_view table.now)))) }
    ensures value { IfOk result (λ b. b ≡ truth_at key.now (table_view table.now)) }
{
    match member(table, key) {
        None => Ok(false),
        Some(value) => match truth_in(value) {
            Ok(b) => Ok(b),
            Err(cause) => Err(refuse_key(alloc, path, key, cause)),
        },
    }
}
