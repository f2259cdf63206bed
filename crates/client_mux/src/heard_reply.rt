//! A reply as it was read.

use giop_messages::Reply;
use orb_base::Order;

/// A reply with the byte order of its message, in which its body is to be read (CORBA 3.0.3, section 15.4.3).
#[derive(Debug, Drop)]
pub struct HeardReply {
    pub order: Order,
    pub reply: Reply,
}
