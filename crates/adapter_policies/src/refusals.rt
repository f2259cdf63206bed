//! Refusals where a relation of a configuration fails.
ghost use Rattle.std.specs.Prelude.{◌≡◌, IfOk, codes, string_bytes};
ghost use Rattle.config_tables.specs.Fault.{Judged};
ghost use Rattle.adapter_policies.specs.Found.{adapter_key, bands_path, entry_fault, entry_key_fault, fault_where, inbound_path};

use config_tables::{ConfigCause, SetupError, entry_path, key_path, refuse_at, refuse_key};
use std::alloc::{AllocError, Global};

/// Refuses a path where something holds.
pub fn refuse_where(
    alloc: Global,
    holds: bool,
    path: &str,
    cause: ConfigCause,
) -> Result<(), SetupError>
    ensures { Judged result (fault_where holds path.now cause) }
{
    if holds {
        return Err(refuse_at(alloc, path, cause));
    }
    Ok(())
}

/// Refuses the entry of a number, where there is one, of the list at a path.
pub fn refuse_entry(
    alloc: Global,
    path: &str,
    cause: ConfigCause,
    found: Option<usize>,
) -> Result<(), SetupError>
    ensures { Judged result (entry_fault path.now cause found) }
{
    match found {
        None => Ok(()),
        Some(n) => match entry_path(alloc, path, n) {
            Ok(entry) => Err(refuse_at(alloc, entry.as_str(), cause)),
            Err(_) => Err(SetupError::NoMemory),
        },
    }
}

/// Refuses a key of the entry of a number, where there is one, of the list at a path.
pub fn refuse_entry_key(
    alloc: Global,
    path: &str,
    key: &str,
    cause: ConfigCause,
    found: Option<usize>,
) -> Result<(), SetupError>
    ensures { Judged result (entry_key_fault path.now key.now cause found) }
{
    match found {
        None => Ok(()),
        Some(n) => match entry_path(alloc, path, n) {
            Ok(entry) => Err(refuse_key(alloc, entry.as_str(), key, cause)),
            Err(_) => Err(SetupError::NoMemory),
        },
    }
}

/// Refuses a key of the adapter of a number where something holds.
pub fn refuse_adapter_where(
    alloc: Global,
    holds: bool,
    n: usize,
    key: &str,
    cause: ConfigCause,
) -> Result<(), SetupError>
    ensures { Judged result (fault_where holds (adapter_key n key.now) cause) }
{
    if !holds {
        return Ok(());
    }
    match adapter_key(alloc, n, key) {
        Ok(path) => Err(refuse_at(alloc, path.as_str(), cause)),
        Err(_) => Err(SetupError::NoMemory),
    }
}

/// Refuses the band of a number, where there is one, of the adapter of a number.
pub fn refuse_band(
    alloc: Global,
    n: usize,
    cause: ConfigCause,
    found: Option<usize>,
) -> Result<(), SetupError>
    ensures { Judged result (entry_fault (bands_path n) cause found) }
{
    if found.is_none() {
        return Ok(());
    }
    match adapter_key(alloc, n, "bands") {
        Ok(path) => refuse_entry(alloc, path.as_str(), cause, found),
        Err(_) => Err(SetupError::NoMemory),
    }
}

/// Refuses the row of a number, where there is one, of the transform of the adapter of a number.
pub fn refuse_row(
    alloc: Global,
    n: usize,
    cause: ConfigCause,
    found: Option<usize>,
) -> Result<(), SetupError>
    ensures { Judged result (entry_fault (inbound_path n) cause found) }
{
    if found.is_none() {
        return Ok(());
    }
    match adapter_key(alloc, n, "inbound") {
        Ok(path) => refuse_entry(alloc, path.as_str(), cause, found),
        Err(_) => Err(SetupError::NoMemory),
    }
}

/// Refuses the priority that the row of a number gives, where there is one, of the transform of the adapter of a number.
pub fn refuse_row_to(
    alloc: Global,
    n: usize,
    cause: ConfigCause,
    found: Option<usize>,
) -> Result<(), SetupError>
    ensures { Judged result (entry_key_fault (inbound_path n) (codes "to") cause found) }
{
    if found.is_none() {
        return Ok(());
    }
    match adapter_key(alloc, n, "inbound") {
        Ok(path) => refuse_entry_key(alloc, path.as_str(), "to", cause, found),
        Err(_) => Err(SetupError::NoMemory),
    }
}

/// The path of a key of the adapter of a number.
fn adapter_key(alloc: Global, n: usize, key: &str) -> Result<String, AllocError>
    ensures { IfOk result (λ s. string_bytes s ≡ adapter_key n key.now) }
{
    let entry = entry_path(alloc, "adapter", n)?;
    key_path(alloc, entry.as_str(), key)
}
