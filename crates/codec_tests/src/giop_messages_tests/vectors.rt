//! Messages that were laid out by hand by the rules of CORBA 3.0.3, section 15.4.

/// A request for `current` of the object `ping`, with the number 1.
pub(crate) const PING_REQUEST: &[u8] =
    b"GIOP\x01\x02\0\0\0\0\0$\0\0\0\x01\x03\0\0\0\0\0\0\0\0\0\0\x04ping\0\0\0\x08current\0\0\0\0\0";

/// The short 100 as its reply.
pub(crate) const PING_REPLY: &[u8] = b"GIOP\x01\x02\0\x01\0\0\0\x0e\0\0\0\x01\0\0\0\0\0\0\0\0\0d";

/// The request in the little order, with the priority 7 in a service context.
pub(crate) const LITTLE_ENDIAN_PING: &[u8] =
    b"GIOP\x01\x02\x01\0\x30\0\0\0\x01\0\0\0\x03\0\0\0\0\0\0\0\x04\0\0\0ping\x08\0\0\0current\0\x01\0\0\0\x0a\0\0\0\x04\0\0\0\x01\0\x07\0";

/// The short 7 as its reply.
pub(crate) const LITTLE_ENDIAN_PING_REPLY: &[u8] =
    b"GIOP\x01\x02\x01\x01\x0e\0\0\0\x01\0\0\0\0\0\0\0\0\0\0\0\x07\0";

/// The request with the number 7 and the priority 20 in a service context.
pub(crate) const PRIORITY_REQUEST: &[u8] =
    b"GIOP\x01\x02\0\0\0\0\0\x30\0\0\0\x07\x03\0\0\0\0\0\0\0\0\0\0\x04ping\0\0\0\x08current\0\0\0\0\x01\0\0\0\x0a\0\0\0\x04\0\0\0\x14";

/// A reply of the exception OBJECT_NOT_EXIST, with the minor code 1.
pub(crate) const OBJECT_NOT_EXIST_REPLY: &[u8] =
    b"GIOP\x01\x02\0\x01\0\0\0@\0\0\0\x01\0\0\0\x02\0\0\0\0\0\0\0'IDL:omg.org/CORBA/OBJECT_NOT_EXIST:1.0\0\0\0\0\0\x01\0\0\0\x01";

/// A reply of the exception INV_POLICY, with the minor code 3.
pub(crate) const NO_LANE_REPLY: &[u8] =
    b"GIOP\x01\x02\0\x01\0\0\0<\0\0\0\x01\0\0\0\x02\0\0\0\0\0\0\0!IDL:omg.org/CORBA/INV_POLICY:1.0\0\0\0\0\0\0\0\x03\0\0\0\x01";

/// A reply of the exception TRANSIENT, with the minor code 1, of the request 3.
pub(crate) const TRANSIENT_REPLY: &[u8] =
    b"GIOP\x01\x02\0\x01\0\0\0\x38\0\0\0\x03\0\0\0\x02\0\0\0\0\0\0\0 IDL:omg.org/CORBA/TRANSIENT:1.0\0\0\0\0\x01\0\0\0\x01";

/// A request that binds the band from 100 to 200 by a service context.
pub(crate) const BIND_BAND_REQUEST: &[u8] =
    b"GIOP\x01\x02\0\0\0\0\0>\0\0\0\x01\x03\0\0\0\0\0\0\0\0\0\0\x04ping\0\0\0\x14_bind_priority_band\0\0\0\0\x01\0\0\0\x0b\0\0\0\x06\0\0\0d\0\xc8";

/// A request for `twice` of the object `v`: the long 21 is its body, after a pad.
pub(crate) const TWICE_REQUEST: &[u8] =
    b"GIOP\x01\x02\0\0\0\0\0(\0\0\0\x01\x03\0\0\0\0\0\0\0\0\0\0\x01v\0\0\0\0\0\0\x06twice\0\0\0\0\0\0\0\0\0\0\x15";

/// The long 42 as its reply.
pub(crate) const TWICE_REPLY: &[u8] =
    b"GIOP\x01\x02\0\x01\0\0\0\x10\0\0\0\x01\0\0\0\0\0\0\0\0\0\0\0*";

/// A LocateRequest by the key `ping`.
pub(crate) const LOCATE_PING: &[u8] =
    b"GIOP\x01\x02\0\x03\0\0\0\x10\0\0\0\x05\0\0\0\0\0\0\0\x04ping";

/// A LocateRequest by a profile of the tag 7.
pub(crate) const LOCATE_BY_PROFILE: &[u8] =
    b"GIOP\x01\x02\0\x03\0\0\0\x13\0\0\0\x05\0\x01\0\0\0\0\0\x07\0\0\0\x03abc";

/// A LocateRequest by the second profile of a reference of the type `T`.
pub(crate) const LOCATE_BY_REFERENCE: &[u8] =
    b"GIOP\x01\x02\0\x03\0\0\0,\0\0\0\x05\0\x02\0\0\0\0\0\x01\0\0\0\x02T\0\0\0\0\0\0\x02\0\0\0\0\0\0\0\x01a\0\0\0\0\0\0\x01\0\0\0\0";

/// The LocateRequest by a profile in the little order.
pub(crate) const LITTLE_ENDIAN_LOCATE: &[u8] =
    b"GIOP\x01\x02\x01\x03\x13\0\0\0\x05\0\0\0\x01\0\0\0\x07\0\0\0\x03\0\0\0abc";

/// The LocateReply that the object is here.
pub(crate) const OBJECT_HERE: &[u8] = b"GIOP\x01\x02\0\x04\0\0\0\x08\0\0\0\x05\0\0\0\x01";

/// A CancelRequest.
pub(crate) const CANCEL_REQUEST: &[u8] = b"GIOP\x01\x02\0\x02\0\0\0\x04\0\0\0\x05";

/// A CloseConnection.
pub(crate) const CLOSE_CONNECTION: &[u8] = b"GIOP\x01\x02\0\x05\0\0\0\0";

/// A MessageError.
pub(crate) const MESSAGE_ERROR: &[u8] = b"GIOP\x01\x02\0\x06\0\0\0\0";

/// Two pings, of the numbers 1 and 2. That of number 1 comes in three fragments, and the other one between them.
pub(crate) const INTERLEAVED_FRAGMENTS: &[u8] =
    b"GIOP\x01\x02\x02\0\0\0\0\x0c\0\0\0\x01\x03\0\0\0\0\0\0\0GIOP\x01\x02\0\0\0\0\0$\0\0\0\x02\x03\0\0\0\0\0\0\0\0\0\0\x04ping\0\0\0\x08current\0\0\0\0\0GIOP\x01\x02\x02\x07\0\0\0\x14\0\0\0\x01\0\0\0\x04ping\0\0\0\x08currGIOP\x01\x02\0\x07\0\0\0\x0c\0\0\0\x01ent\0\0\0\0\0";

/// A ping with reserved flag bits, reserved octets and a pad of other content than 0.
pub(crate) const RESERVED_PLACES: &[u8] =
    b"GIOP\x01\x02\xfc\0\0\0\0\x24\0\0\0\x01\x03\x01\x02\x03\0\0\xff\xee\0\0\0\x04ping\0\0\0\x08current\0\0\0\0\0";

/// A request that ends within the pad before its body.
pub(crate) const PAD_ALONE: &[u8] =
    b"GIOP\x01\x02\0\0\0\0\0\x2a\0\0\0\x01\x03\0\0\0\0\0\0\0\0\0\0\x05hello\x01\x02\x03\0\0\0\x08current\0\0\0\0\0\x07\x07";

/// The same with the whole pad, and a body of one byte.
pub(crate) const PAD_AND_BODY: &[u8] =
    b"GIOP\x01\x02\0\0\0\0\0\x2d\0\0\0\x01\x03\0\0\0\0\0\0\0\0\0\0\x05hello\x01\x02\x03\0\0\0\x08current\0\0\0\0\0\x07\x07\x07\x07\x09";

/// A reply of the greatest status, without contexts and body.
pub(crate) const GREATEST_STATUS: &[u8] =
    b"GIOP\x01\x02\0\x01\0\0\0\x0c\0\0\0\x09\0\0\0\x05\0\0\0\0";
