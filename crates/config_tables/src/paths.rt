//! Paths of keys and entries, and refusals at them.
ghost use Rattle.std.specs.Prelude.{◌≡◌, ◌<◌, IfOk, IfSome, MatchResult, length, string_bytes, Some};
ghost use Rattle.orb_base.specs.NulFree.{nul_at};
ghost use Rattle.config_tables.specs.Path.{key_path, entry_path, up_to_nul};
ghost use Rattle.config_tables.specs.Fault.{Refuses, at_path};

use crate::fault::{ConfigCause, ConfigFault, SetupError};
use orb_base::{Text, first_nul};
use std::alloc::{AllocError, Global};

/// The path of a key of the table at a path.
pub fn key_path(alloc: Global, path: &str, key: &str) -> Result<String, AllocError>
    ensures { IfOk result (λ s. string_bytes s ≡ key_path path.now key.now) }
{
    if path.is_empty() {
        return String::from_str(alloc, key);
    }
    format!(in alloc; "{path}.{key}")
}

/// The path of an entry of the list at a path. Entries are numbered from 0.
pub fn entry_path(alloc: Global, path: &str, n: usize) -> Result<String, AllocError>
    ensures { IfOk result (λ s. string_bytes s ≡ entry_path path.now n) }
{
    format!(in alloc; "{path}[{n}]")
}

/// The refusal at a key of the table at a path.
pub fn refuse_key(alloc: Global, path: &str, key: &str, cause: ConfigCause) -> SetupError
    ensures { Refuses result (Some (at_path (key_path path.now key.now) cause)) }
{
    match key_path(alloc, path, key) {
        Ok(path) => refuse_at(alloc, path.as_str(), cause),
        Err(_) => SetupError::NoMemory,
    }
}

/// The refusal at a path.
pub fn refuse_at(alloc: Global, path: &str, cause: ConfigCause) -> SetupError
    ensures { Refuses result (Some (at_path path.now cause)) }
{
    match shown(alloc, path) {
        Ok(path) => SetupError::Refused(ConfigFault { cause, path }),
        Err(e) => e,
    }
}

/// The path as a text, which ends where a NUL is.
fn shown(alloc: Global, path: &str) -> Result<Text, SetupError>
    ensures { MatchResult result (λ t. t ≡ up_to_nul path.now) (λ e. e ≡ SetupError.NoMemory) }
{
    match Text::new(alloc, until_nul(path.as_bytes())) {
        Ok(text) => Ok(text),
        Err(_) => Err(SetupError::NoMemory),
    }
}

/// The bytes before the first NUL, or all.
fn until_nul(bytes: &[u8]) -> &[u8]
    ensures { result.now ≡ up_to_nul bytes.now }
{
    match first_nul(bytes) {
        Some(end) => &bytes[..end],
        None => bytes,
    }
}
