//! Keys that hold texts. Each reader judges its key by its rule, and gives what the key holds.
ghost use Rattle.std.specs.Prelude.{◌≡◌, IfOk, MatchResult, Some, map};
ghost use Rattle.toml.specs.Data.{get_member, string};
ghost use Rattle.toml.specs.View.{view, table_view};
ghost use Rattle.config_tables.specs.Fault.{Judged};
ghost use Rattle.config_tables.specs.Path.{key_path};
ghost use Rattle.config_tables.specs.Held.{text_of, text_at, where_there};
ghost use Rattle.config_tables.specs.Rules.{text, word};
ghost use Rattle.config_tables.specs.Standing.{is_due, is_free, due_at_least};
ghost use Rattle.config_tables.specs.Values.{fault_at, key_cause, scalar_cause};

use crate::fault::{ConfigCause, SetupError};
use crate::members::{member, stands};
use crate::paths::refuse_key;
use crate::scalars::{text_in, word_in};
use orb_base::Text;
use std::alloc::Global;
use toml::Table;

/// A text that has to be there.
pub fn due_text(
    alloc: Global,
    path: &str,
    table: &Table,
    key: &str,
    low: usize,
    high: usize,
) -> Result<Text, SetupError>
    ensures judged { Judged result (fault_at (key_path path.now key.now)
        (key_cause (scalar_cause (text low high)) is_due (get_member key.now (table_view table.now)))) }
    ensures value { IfOk result (λ t. t ≡ text_at key.now (table_view table.now)) }
{
    match member(table, key) {
        None => Err(refuse_key(alloc, path, key, ConfigCause::Missing)),
        Some(value) => match text_in(value, low, high) {
            Ok(s) => copied(alloc, s),
            Err(cause) => Err(refuse_key(alloc, path, key, cause)),
        },
    }
}

/// A text that may be there.
pub fn free_text(
    alloc: Global,
    path: &str,
    table: &Table,
    key: &str,
    low: usize,
    high: usize,
) -> Result<Option<Text>, SetupError>
    ensures judged { Judged result (fault_at (key_path path.now key.now)
        (key_cause (scalar_cause (text low high)) is_free (get_member key.now (table_view table.now)))) }
    ensures value { IfOk result (λ t. t ≡ where_there text_of (get_member key.now (table_view table.now))) }
{
    match member(table, key) {
        None => Ok(None),
        Some(value) => match text_in(value, low, high) {
            Ok(s) => Ok(Some(copied(alloc, s)?)),
            Err(cause) => Err(refuse_key(alloc, path, key, cause)),
        },
    }
}

/// A text that has to be there where something holds, and may be there elsewhere.
pub fn text_along(
    alloc: Global,
    path: &str,
    table: &Table,
    key: &str,
    range: (usize, usize),
    holds: bool,
) -> Result<Option<Text>, SetupError>
    ensures judged { Judged result (fault_at (key_path path.now key.now)
        (key_cause (scalar_cause (text range.0 range.1)) (due_at_least holds) (get_member key.now (table_view table.now)))) }
    ensures value { IfOk result (λ t. t ≡ where_there text_of (get_member key.now (table_view table.now))) }
{
    if holds && !stands(table, key) {
        return Err(refuse_key(alloc, path, key, ConfigCause::Missing));
    }
    free_text(alloc, path, table, key, range.0, range.1)
}

/// One of some words, which has to be there.
pub fn due_word<'a>(
    alloc: Global,
    path: &str,
    table: &'a Table,
    key: &str,
    words: &[&str],
) -> Result<&'a str, SetupError>
    ensures judged { Judged result (fault_at (key_path path.now key.now)
        (key_cause (scalar_cause (word (map (λ w. w.now) words.now))) is_due (get_member key.now (table_view table.now)))) }
    ensures value { IfOk result (λ s. get_member key.now (table_view table.now) ≡ Some (string s.now)) }
{
    match member(table, key) {
        None => Err(refuse_key(alloc, path, key, ConfigCause::Missing)),
        Some(value) => match word_in(value, words) {
            Ok(s) => Ok(s),
            Err(cause) => Err(refuse_key(alloc, path, key, cause)),
        },
    }
}

/// A text of its own with these bytes, which hold no NUL.
fn copied(alloc: Global, s: &str) -> Result<Text, SetupError>
    ensures { MatchResult result (λ t. t ≡ s.now) (λ e. e ≡ SetupError.NoMemory) }
{
    match Text::new(alloc, s.as_bytes()) {
        Ok(text) => Ok(text),
        Err(_) => Err(SetupError::NoMemory),
    }
}
