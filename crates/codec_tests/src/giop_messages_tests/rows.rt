//! Messages as their borrowed parts, with the bytes that they are spelled as.

use super::vectors::*;
use giop_messages::Located;
use orb_base::Order;

/// A number and bytes, as of a context, a profile or a component.
pub(crate) type Item = (u32, &'static [u8]);

/// A request for an object by its key, of which a reply is due.
pub(crate) struct Asked {
    pub id: u32,
    pub key: &'static [u8],
    pub operation: &'static [u8],
    pub context: Option<Item>,
    pub body: &'static [u8],
}

/// A reply.
pub(crate) struct Replied {
    pub id: u32,
    pub status: u32,
    pub context: Option<Item>,
    pub body: &'static [u8],
}

/// A target by a whole reference.
pub(crate) struct Reference {
    pub index: u32,
    pub type_id: &'static [u8],
    pub profiles: &'static [Item],
}

/// A target.
pub(crate) enum Aim {
    Key(&'static [u8]),
    Profile(Item),
    Reference(Reference),
}

/// A message.
pub(crate) enum Said {
    Request(Asked),
    Reply(Replied),
    Cancel(u32),
    Locate(u32, Aim),
    Located(Located),
    Close,
    Error,
}

/// A message with its byte order and its bytes.
pub(crate) struct Row {
    pub order: Order,
    pub bytes: &'static [u8],
    pub said: Said,
}

/// Requests: without a context; with a priority in either order; with the ends of a band; with a body after a pad.
pub(crate) const REQUESTS: &[Row] = &[
    Row {
        order: Order::Big,
        bytes: PING_REQUEST,
        said: Said::Request(Asked {
            id: 1,
            key: b"ping",
            operation: b"current",
            context: None,
            body: b"",
        }),
    },
    Row {
        order: Order::Little,
        bytes: LITTLE_ENDIAN_PING,
        said: Said::Request(Asked {
            id: 1,
            key: b"ping",
            operation: b"current",
            context: Some((10, b"\x01\0\x07\0")),
            body: b"",
        }),
    },
    Row {
        order: Order::Big,
        bytes: PRIORITY_REQUEST,
        said: Said::Request(Asked {
            id: 7,
            key: b"ping",
            operation: b"current",
            context: Some((10, b"\0\0\0\x14")),
            body: b"",
        }),
    },
    Row {
        order: Order::Big,
        bytes: BIND_BAND_REQUEST,
        said: Said::Request(Asked {
            id: 1,
            key: b"ping",
            operation: b"_bind_priority_band",
            context: Some((11, b"\0\0\0\x64\0\xc8")),
            body: b"",
        }),
    },
    Row {
        order: Order::Big,
        bytes: TWICE_REQUEST,
        said: Said::Request(Asked {
            id: 1,
            key: b"v",
            operation: b"twice",
            context: None,
            body: b"\0\0\0\x15",
        }),
    },
];

/// Replies in either order, and of the greatest status without a body.
pub(crate) const REPLIES: &[Row] = &[
    Row {
        order: Order::Big,
        bytes: PING_REPLY,
        said: Said::Reply(Replied {
            id: 1,
            status: 0,
            context: None,
            body: b"\0\x64",
        }),
    },
    Row {
        order: Order::Little,
        bytes: LITTLE_ENDIAN_PING_REPLY,
        said: Said::Reply(Replied {
            id: 1,
            status: 0,
            context: None,
            body: b"\x07\0",
        }),
    },
    Row {
        order: Order::Big,
        bytes: TWICE_REPLY,
        said: Said::Reply(Replied {
            id: 1,
            status: 0,
            context: None,
            body: b"\0\0\0\x2a",
        }),
    },
    Row {
        order: Order::Big,
        bytes: GREATEST_STATUS,
        said: Said::Reply(Replied {
            id: 9,
            status: 5,
            context: None,
            body: b"",
        }),
    },
];

/// Questions by each form of target.
pub(crate) const TARGETS: &[Row] = &[
    Row {
        order: Order::Big,
        bytes: LOCATE_PING,
        said: Said::Locate(5, Aim::Key(b"ping")),
    },
    Row {
        order: Order::Big,
        bytes: LOCATE_BY_PROFILE,
        said: Said::Locate(5, Aim::Profile((7, b"abc"))),
    },
    Row {
        order: Order::Little,
        bytes: LITTLE_ENDIAN_LOCATE,
        said: Said::Locate(5, Aim::Profile((7, b"abc"))),
    },
    Row {
        order: Order::Big,
        bytes: LOCATE_BY_REFERENCE,
        said: Said::Locate(
            5,
            Aim::Reference(Reference {
                index: 1,
                type_id: b"T",
                profiles: &[(0, b"a"), (1, b"")],
            }),
        ),
    },
];

/// An answer where an object is, a CancelRequest, and what is a header alone.
pub(crate) const SHORT: &[Row] = &[
    Row {
        order: Order::Big,
        bytes: OBJECT_HERE,
        said: Said::Located(Located { id: 5, status: 1 }),
    },
    Row {
        order: Order::Big,
        bytes: CANCEL_REQUEST,
        said: Said::Cancel(5),
    },
    Row {
        order: Order::Big,
        bytes: CLOSE_CONNECTION,
        said: Said::Close,
    },
    Row {
        order: Order::Big,
        bytes: MESSAGE_ERROR,
        said: Said::Error,
    },
];
