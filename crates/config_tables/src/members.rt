//! Which keys a table has.
ghost use Rattle.std.specs.Prelude.{◌≡◌, OnOk, None, is_some, option_map, option_copied, map, string_bytes, not};
ghost use Rattle.std.specs.List.{list_any, find};
ghost use Rattle.std.specs.BTreeMap.{keys};
ghost use Rattle.toml.specs.Data.{get_member};
ghost use Rattle.toml.specs.View.{view, table_view};
ghost use Rattle.config_tables.specs.Fault.{Judged};
ghost use Rattle.config_tables.specs.Keys.{unknown_fault, same_text};
ghost use Rattle.config_tables.specs.Path.{key_path};
ghost use Rattle.config_tables.specs.Rules.{number};
ghost use Rattle.config_tables.specs.Standing.{is_excluded};
ghost use Rattle.config_tables.specs.Values.{fault_at, key_cause, scalar_cause};

use crate::fault::{ConfigCause, SetupError};
use crate::paths::refuse_key;
use crate::scalars::is_one_of;
use std::alloc::Global;
use toml::{Table, Value};

/// What a key holds.
pub fn member<'a>(table: &'a Table, key: &str) -> Option<&'a Value>
    ensures { option_map (λ v. view v.now) result ≡ get_member key.now (table_view table.now) }
{
    table.get(key)
}

/// Whether a table has a key.
pub fn stands(table: &Table, key: &str) -> bool
    ensures { result ≡ is_some (get_member key.now (table_view table.now)) }
{
    member(table, key).is_some()
}

/// Judges that each key is one of these.
pub fn known_keys(
    alloc: Global,
    path: &str,
    table: &Table,
    known: &[&str],
) -> Result<(), SetupError>
    ensures { Judged result (unknown_fault (map (λ k. k.now) known.now) path.now (table_view table.now)) }
{
    match unknown_key(table, known) {
        None => Ok(()),
        Some(key) => Err(refuse_key(alloc, path, key.as_str(), ConfigCause::UnknownKey)),
    }
}

/// The first key that is none of these.
fn unknown_key<'a>(table: &'a Table, known: &[&str]) -> Option<&'a String>
    ensures { option_copied result ≡ find (λ k. not (list_any (λ l. same_text l.now (string_bytes k)) known.now)) (keys table.now) }
{
    table.keys().find(|key| !is_one_of(known, key.as_str()))
}

/// Judges that a key is not there.
pub fn excluded(alloc: Global, path: &str, table: &Table, key: &str) -> Result<(), SetupError>
    ensures absent { OnOk result (get_member key.now (table_view table.now) ≡ None) }
    ensures judged { Judged result (fault_at (key_path path.now key.now)
        (key_cause (scalar_cause (number 0 0)) is_excluded (get_member key.now (table_view table.now)))) }
{
    match member(table, key) {
        None => Ok(()),
        Some(_) => Err(refuse_key(alloc, path, key, ConfigCause::WrongKind)),
    }
}
