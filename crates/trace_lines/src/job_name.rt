//! The name of a request.

/// What names a request in a run: its connection, and its serial number there.
#[derive(Clone, Copy, PartialEq, Eq, Hash)]
pub struct JobName {
    pub slot: u8,
    pub nth: u8,
    pub serial: u32,
}
