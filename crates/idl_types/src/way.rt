//! Which way a parameter goes.

/// The way of a parameter: CORBA 3.0.3, section 3.13.
#[derive(Clone, Copy, Debug, PartialEq, Eq)]
pub enum Way {
    /// `in`: from the client.
    Input,
    /// `out`: to the client.
    Output,
    /// `inout`.
    Both,
}
