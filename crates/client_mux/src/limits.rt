//! The limits of a shared link, each with its unit.

/// Callers of one link.
pub const MAX_CALLERS: u8 = 16;

/// Seats that are split from the first one: those of the callers, the writer and the reader.
pub const MAX_SEATS: u32 = 18;

/// Calls that one caller starts.
pub const MAX_STARTS: usize = 64;

/// Calls of one link: those that its callers start.
pub const MAX_CALLS: usize = 1_024;

/// Requests and cancels that are sent over one link: one of each for a call.
pub const MAX_SENDS: usize = 2_048;

/// Replies that arrive over one link.
pub const MAX_ARRIVALS: usize = 4_096;

/// Entries of the history of one link: five for each call, its replies, one for each caller that leaves, two losses, and the
/// last Next.
pub const MAX_ENTRIES: u32 = 9_235;
