//! The limits of requests to a name service, in bytes.

/// A key that is bound, which has at least one byte.
pub const MAX_KEY: usize = 256;

/// A target that a key is bound to.
pub const MAX_TARGET: usize = 4_096;

/// Where the body of a request or of a reply begins, its header being so long.
pub const BODY_PLACE: usize = 24;

/// A text that a reply's body has room for, beside its length and its NUL.
pub const MAX_ANSWERED: usize = 262_115;
