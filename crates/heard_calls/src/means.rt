//! The meaning of one message.

use giop_messages::Fault;
use lane_machine::LaneCall;
use orb_base::Band;

/// What one message of a connection means.
#[derive(Debug, Drop)]
pub enum Means {
    /// The connection goes on: the band that is bound from the next message on, and the call that is made, if one is.
    Goes {
        band: Option<Band>,
        call: Option<LaneCall>,
    },
    /// The other side ends the connection: by CloseConnection or MessageError.
    Ends,
    /// The message is refused for this cause, and the connection is broken.
    Breaks(Fault),
}
