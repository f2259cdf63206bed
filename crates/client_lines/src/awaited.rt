//! What a client awaits.

/// The id of the request that binds a band.
pub const BIND_ID: u32 = 1;

/// The id of a call before which no band is bound.
pub const FIRST_ID: u32 = 1;

/// The id of a call after a bind.
pub const NEXT_ID: u32 = 2;

/// What a client awaits from its connection.
#[derive(Clone, Copy, Debug, PartialEq, Eq)]
pub enum Awaited {
    /// The reply to the bind.
    Bind,
    /// The reply to the call.
    Call,
    /// Nothing more.
    Nothing,
}
