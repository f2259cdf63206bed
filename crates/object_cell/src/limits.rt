//! The limits of an object that keeps a value.

/// Slots that share one object.
pub const MAX_SLOTS: u32 = 16;
