//! The limits of a map.

/// Keys of a map.
pub const MAX_KEYS: usize = 1_024;

/// Callers that share a map.
pub const MAX_CALLERS: u32 = 4;

/// Calls that each of them makes.
pub const MAX_CALLS: u32 = 16_384;

/// Entries of a history that has the calls of all of them.
pub const MAX_ENTRIES: u32 = 65_536;
