//! Whole messages.

use crate::locate::Locate;
use crate::located::Located;
use crate::reply::Reply;
use crate::request::Request;

/// One message: CORBA 3.0.3, section 15.4.
#[derive(Debug, Drop)]
pub enum Message {
    /// A request.
    Request(Request),
    /// A reply.
    Reply(Reply),
    /// A CancelRequest, with the request's id.
    Cancel(u32),
    /// A LocateRequest.
    Locate(Locate),
    /// A LocateReply.
    Located(Located),
    /// A CloseConnection.
    Close,
    /// A MessageError.
    Error,
}
