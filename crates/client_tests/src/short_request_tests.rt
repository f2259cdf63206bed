//! The request of a message.

use crate::calls::message;
use giop_messages::Message;
use link_callers::short_request;
use std::alloc::Global;
use std::test::*;

/// Whether the request of a message is given, as it is.
fn gives_a_request(alloc: Global) -> Option<bool> {
    let request = short_request(message(alloc)?)?;
    Some(
        request.id == 0
            && request.flags == 3
            && request.operation.as_slice() == b"current".as_slice(),
    )
}

/// Whether there is none in a message.
fn gives_none(message: Message) -> bool {
    short_request(message).is_none()
}

#[test]
fn a_request_is_given(rt: HostRuntime) {
    assert!(rt; gives_a_request(rt.alloc()) == Some(true));
}

#[test]
fn other_messages_have_none(rt: HostRuntime) {
    assert!(rt; gives_none(Message::Close) && gives_none(Message::Cancel(7)));
}
