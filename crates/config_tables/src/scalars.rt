//! What a value holds, by its kind.
ghost use Rattle.std.specs.Prelude.{◌≡◌, ◌≤◌, nat_eq, pos, MatchResult, is_some, length, map, Some, None};
ghost use Rattle.std.specs.List.{list_any, list_all};
ghost use Rattle.toml.specs.Data.{integer, string, boolean, array, table, as_table};
ghost use Rattle.toml.specs.View.{view, items_view, table_view};
ghost use Rattle.config_tables.specs.Keys.{is_among, same_text};
ghost use Rattle.config_tables.specs.Rules.{number, text, native, truth, word};
ghost use Rattle.config_tables.specs.Values.{scalar_cause, list_cause, table_cause};

use crate::fault::ConfigCause;
use toml::value::Array;
use toml::{Table, Value};

/// A number of a range.
pub fn number_in(value: &Value, low: u32, high: u32) -> Result<u32, ConfigCause>
    ensures { MatchResult result
        (λ n. (view value.now ≡ integer (pos n)) × (n ≤ high) × (scalar_cause (number low high) (view value.now) ≡ None))
        (λ cause. scalar_cause (number low high) (view value.now) ≡ Some cause) }
{
    match value.as_integer() {
        None => Err(ConfigCause::WrongKind),
        Some(n) => {
            if n < low as i64 || (high as i64) < n {
                return Err(ConfigCause::OutOfRange);
            }
            Ok(n as u32)
        }
    }
}

/// A 32-bit number with a sign.
pub fn native_in(value: &Value) -> Result<i32, ConfigCause>
    ensures { MatchResult result
        (λ z. (view value.now ≡ integer z) × (scalar_cause native (view value.now) ≡ None))
        (λ cause. scalar_cause native (view value.now) ≡ Some cause) }
{
    match value.as_integer() {
        None => Err(ConfigCause::WrongKind),
        Some(n) => {
            if n < -2_147_483_648 || 2_147_483_647 < n {
                return Err(ConfigCause::OutOfRange);
            }
            Ok(n as i32)
        }
    }
}

/// A truth value.
pub fn truth_in(value: &Value) -> Result<bool, ConfigCause>
    ensures { MatchResult result
        (λ b. (view value.now ≡ boolean b) × (scalar_cause truth (view value.now) ≡ None))
        (λ cause. scalar_cause truth (view value.now) ≡ Some cause) }
{
    match value.as_bool() {
        None => Err(ConfigCause::WrongKind),
        Some(b) => Ok(b),
    }
}

/// One of some words.
pub fn word_in<'a>(value: &'a Value, words: &[&str]) -> Result<&'a str, ConfigCause>
    ensures { MatchResult result
        (λ s. (view value.now ≡ string s.now) × (scalar_cause (word (map (λ w. w.now) words.now)) (view value.now) ≡ None))
        (λ cause. scalar_cause (word (map (λ w. w.now) words.now)) (view value.now) ≡ Some cause) }
{
    match value.as_str() {
        None => Err(ConfigCause::WrongKind),
        Some(s) => {
            if !is_word(words, s) {
                return Err(ConfigCause::OutOfRange);
            }
            Ok(s)
        }
    }
}

/// Whether a text is one of some words.
fn is_word(words: &[&str], text: &str) -> bool
    ensures { result ≡ is_among (map (λ w. w.now) words.now) text.now }
{
    is_one_of(words, text)
}

/// Whether a text is one of these.
pub fn is_one_of(words: &[&str], text: &str) -> bool
    ensures { result ≡ list_any (λ w. same_text w.now text.now) words.now }
{
    words.iter().any(|w| *w == text)
}

/// A text of a length in bytes, without a NUL.
pub fn text_in(value: &Value, low: usize, high: usize) -> Result<&str, ConfigCause>
    ensures { MatchResult result
        (λ s. (view value.now ≡ string s.now) × (scalar_cause (text low high) (view value.now) ≡ None))
        (λ cause. scalar_cause (text low high) (view value.now) ≡ Some cause) }
{
    match value.as_str() {
        None => Err(ConfigCause::WrongKind),
        Some(s) => {
            if s.len() < low || high < s.len() || has_nul(s.as_bytes()) {
                return Err(ConfigCause::OutOfRange);
            }
            Ok(s)
        }
    }
}

/// Whether a byte is 0.
fn has_nul(bytes: &[u8]) -> bool
    ensures { result ≡ list_any (λ b. nat_eq b 0) bytes.now }
{
    bytes.iter().any(|b| *b == 0)
}

/// Whether each value is a table.
fn are_tables(list: &[Value]) -> bool
    ensures { result ≡ list_all (λ v. is_some (as_table (view v))) list.now }
{
    list.iter().all(|v| v.is_table())
}

/// A list of tables, of so many.
#[tactic(auto, using(crate::proofs::Tables::listed, crate::proofs::Tables::listed_other))]
pub fn list_in(value: &Value, low: usize, high: usize) -> Result<&Array, ConfigCause>
    ensures { MatchResult result
        (λ list. (view value.now ≡ array (items_view list.now.items)) × (length list.now.items ≤ high) × (list_cause low high (view value.now) ≡ None))
        (λ cause. list_cause low high (view value.now) ≡ Some cause) }
{
    match value.as_array() {
        None => Err(ConfigCause::WrongKind),
        Some(list) => {
            if !are_tables(list) {
                return Err(ConfigCause::WrongKind);
            }
            if list.len() < low || high < list.len() {
                return Err(ConfigCause::OutOfRange);
            }
            Ok(list)
        }
    }
}

/// A table.
pub fn table_in(value: &Value) -> Result<&Table, ConfigCause>
    ensures { MatchResult result
        (λ t. (view value.now ≡ table (table_view t.now)) × (table_cause (view value.now) ≡ None))
        (λ cause. table_cause (view value.now) ≡ Some cause) }
{
    match value.as_table() {
        None => Err(ConfigCause::WrongKind),
        Some(table) => Ok(table),
    }
}
