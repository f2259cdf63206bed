//! What a call of a net asks beside the host.

/// The port of a call, and of a listen the number of slots and of the links of each at most.
#[derive(Clone, Copy, Debug, PartialEq, Eq)]
pub struct Wanted {
    pub port: u16,
    pub slots: Option<(u8, u32)>,
}
