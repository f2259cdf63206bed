//! The meaning of one message.

use giop_messages::Fault;

/// What one message of a connection means.
#[derive(Debug, Drop)]
pub enum Means<B, C> {
    /// The reading goes on: what is settled from the next message on, and the call that is made, if one is.
    Goes { bound: B, call: Option<C> },
    /// The other side ends the connection.
    Ends,
    /// The message is refused for this cause, and the connection is broken.
    Breaks(Fault),
}
