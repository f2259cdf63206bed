//! Requests to a name service and its replies, laid out by hand: CORBA 3.0.3, sections 15.4.2 and 15.4.3. All are big-endian.

/// Four slots of 32 connections each, and the service's object.
pub const SETUP: &[u8] =
    b"server = { slots = 4, per_slot = 32 }\npool = { static = 1, dynamic = 0, default_priority = 100 }\nadapter = [{ name = \"main\", model = \"CLIENT_PROPAGATED\", priority = 100 }]\nobject = [{ key = \"NameService\", adapter = \"main\", interface = \"IDL:Orb/Names:1.0\" }]\n";

/// What follows the id of a request of an operation, up to its body at place 56: a reply is due after it, and no context is there.
pub const BIND: &[u8] = b"\x03\0\0\0\0\0\0\0\0\0\0\x0bNameService\0\0\0\0\x05bind\0\0\0\0\0\0\0\0";

pub const REBIND: &[u8] = b"\x03\0\0\0\0\0\0\0\0\0\0\x0bNameService\0\0\0\0\x07rebind\0\0\0\0\0\0";

pub const RESOLVE: &[u8] = b"\x03\0\0\0\0\0\0\0\0\0\0\x0bNameService\0\0\0\0\x08resolve\0\0\0\0\0";

pub const UNBIND: &[u8] = b"\x03\0\0\0\0\0\0\0\0\0\0\x0bNameService\0\0\0\0\x07unbind\0\0\0\0\0\0";

pub const NEXT: &[u8] = b"\x03\0\0\0\0\0\0\0\0\0\0\x0bNameService\0\0\0\0\x05next\0\0\0\0\0\0\0\0";

pub const SIZE: &[u8] = b"\x03\0\0\0\0\0\0\0\0\0\0\x0bNameService\0\0\0\0\x05size\0\0\0\0\0\0\0\0";

pub const IS_A: &[u8] = b"\x03\0\0\0\0\0\0\0\0\0\0\x0bNameService\0\0\0\0\x06_is_a\0\0\0\0\0\0\0";

/// An operation that the service hasn't, and one of an object that isn't there.
pub const LIST: &[u8] = b"\x03\0\0\0\0\0\0\0\0\0\0\x0bNameService\0\0\0\0\x05list\0\0\0\0\0\0\0\0";

pub const ELSEWHERE: &[u8] =
    b"\x03\0\0\0\0\0\0\0\0\0\0\x0bNameServer \0\0\0\0\x05size\0\0\0\0\0\0\0\0";

/// Headers of requests with their ids, by the lengths of their bodies.
pub const NONE_1: &[u8] = b"GIOP\x01\x02\0\0\0\0\0\x2c\0\0\0\x01";

pub const NONE_2: &[u8] = b"GIOP\x01\x02\0\0\0\0\0\x2c\0\0\0\x02";

pub const FIVE_1: &[u8] = b"GIOP\x01\x02\0\0\0\0\0\x31\0\0\0\x01";

pub const FIVE_5: &[u8] = b"GIOP\x01\x02\0\0\0\0\0\x31\0\0\0\x05";

pub const SIX_2: &[u8] = b"GIOP\x01\x02\0\0\0\0\0\x32\0\0\0\x02";

pub const SIX_3: &[u8] = b"GIOP\x01\x02\0\0\0\0\0\x32\0\0\0\x03";

pub const SIX_4: &[u8] = b"GIOP\x01\x02\0\0\0\0\0\x32\0\0\0\x04";

pub const FOURTEEN_1: &[u8] = b"GIOP\x01\x02\0\0\0\0\0\x3a\0\0\0\x01";

pub const FOURTEEN_3: &[u8] = b"GIOP\x01\x02\0\0\0\0\0\x3a\0\0\0\x03";

pub const OF_44_1: &[u8] = b"GIOP\x01\x02\0\0\0\0\0\x58\0\0\0\x01";

pub const OF_270_1: &[u8] = b"GIOP\x01\x02\0\0\0\0\x01\x3a\0\0\0\x01";

pub const OF_305_1: &[u8] = b"GIOP\x01\x02\0\0\0\0\x01\x5d\0\0\0\x01";

pub const OF_4109_1: &[u8] = b"GIOP\x01\x02\0\0\0\0\x10\x39\0\0\0\x01";

pub const OF_4110_2: &[u8] = b"GIOP\x01\x02\0\0\0\0\x10\x3a\0\0\0\x02";

/// Bodies: one text, and a key with its target.
pub const EMPTY: &[u8] = b"\0\0\0\x01\0";

pub const A: &[u8] = b"\0\0\0\x02a\0";

pub const B: &[u8] = b"\0\0\0\x02b\0";

pub const C: &[u8] = b"\0\0\0\x02c\0";

pub const D: &[u8] = b"\0\0\0\x02d\0";

pub const CUT: &[u8] = b"\0\0\0\x02a";

pub const A_X: &[u8] = b"\0\0\0\x02a\0\0\0\0\0\0\x02x\0";

pub const A_Y: &[u8] = b"\0\0\0\x02a\0\0\0\0\0\0\x02y\0";

pub const B_X: &[u8] = b"\0\0\0\x02b\0\0\0\0\0\0\x02x\0";

pub const C_X: &[u8] = b"\0\0\0\x02c\0\0\0\0\0\0\x02x\0";

pub const D_X: &[u8] = b"\0\0\0\x02d\0\0\0\0\0\0\x02x\0";

pub const NO_KEY_X: &[u8] = b"\0\0\0\x01\0\0\0\0\0\0\0\x02x\0";

pub const NAMING_CONTEXT: &[u8] = b"\0\0\0\x28IDL:omg.org/CosNaming/NamingContext:1.0\0";

/// Replies by their ids: nothing is returned, a text, a number, or a truth.
pub const BARE_1: &[u8] = b"GIOP\x01\x02\0\x01\0\0\0\x0c\0\0\0\x01\0\0\0\0\0\0\0\0";

pub const BARE_3: &[u8] = b"GIOP\x01\x02\0\x01\0\0\0\x0c\0\0\0\x03\0\0\0\0\0\0\0\0";

pub const X_2: &[u8] = b"GIOP\x01\x02\0\x01\0\0\0\x12\0\0\0\x02\0\0\0\0\0\0\0\0\0\0\0\x02x\0";

pub const A_5: &[u8] = b"GIOP\x01\x02\0\x01\0\0\0\x12\0\0\0\x05\0\0\0\0\0\0\0\0\0\0\0\x02a\0";

pub const ZERO_2: &[u8] = b"GIOP\x01\x02\0\x01\0\0\0\x10\0\0\0\x02\0\0\0\0\0\0\0\0\0\0\0\0";

pub const ONE_2: &[u8] = b"GIOP\x01\x02\0\x01\0\0\0\x10\0\0\0\x02\0\0\0\0\0\0\0\0\0\0\0\x01";

pub const FALSE_1: &[u8] = b"GIOP\x01\x02\0\x01\0\0\0\x0d\0\0\0\x01\0\0\0\0\0\0\0\0\0";

/// Exceptions of the service.
pub const BOUND_3: &[u8] =
    b"GIOP\x01\x02\0\x01\0\0\0\x29\0\0\0\x03\0\0\0\x01\0\0\0\0\0\0\0\x19IDL:Orb/AlreadyBound:1.0\0";

pub const NOT_FOUND_1: &[u8] =
    b"GIOP\x01\x02\0\x01\0\0\0\x25\0\0\0\x01\0\0\0\x01\0\0\0\0\0\0\0\x15IDL:Orb/NotFound:1.0\0";

pub const NOT_FOUND_4: &[u8] =
    b"GIOP\x01\x02\0\x01\0\0\0\x25\0\0\0\x04\0\0\0\x01\0\0\0\0\0\0\0\x15IDL:Orb/NotFound:1.0\0";

/// Exceptions of the system: IMP_LIMIT completed MAYBE, and MARSHAL, BAD_OPERATION and OBJECT_NOT_EXIST completed NO, each of minor 1.
pub const LIMIT_1: &[u8] =
    b"GIOP\x01\x02\0\x01\0\0\0\x38\0\0\0\x01\0\0\0\x02\0\0\0\0\0\0\0\x20IDL:omg.org/CORBA/IMP_LIMIT:1.0\0\0\0\0\x01\0\0\0\x02";

pub const LIMIT_2: &[u8] =
    b"GIOP\x01\x02\0\x01\0\0\0\x38\0\0\0\x02\0\0\0\x02\0\0\0\0\0\0\0\x20IDL:omg.org/CORBA/IMP_LIMIT:1.0\0\0\0\0\x01\0\0\0\x02";

pub const MARSHAL_1: &[u8] =
    b"GIOP\x01\x02\0\x01\0\0\0\x38\0\0\0\x01\0\0\0\x02\0\0\0\0\0\0\0\x1eIDL:omg.org/CORBA/MARSHAL:1.0\0\0\0\0\0\0\x01\0\0\0\x01";

pub const OPERATION_1: &[u8] =
    b"GIOP\x01\x02\0\x01\0\0\0\x3c\0\0\0\x01\0\0\0\x02\0\0\0\0\0\0\0\x24IDL:omg.org/CORBA/BAD_OPERATION:1.0\0\0\0\0\x01\0\0\0\x01";

pub const NOT_EXIST_1: &[u8] =
    b"GIOP\x01\x02\0\x01\0\0\0\x40\0\0\0\x01\0\0\0\x02\0\0\0\0\0\0\0\x27IDL:omg.org/CORBA/OBJECT_NOT_EXIST:1.0\0\0\0\0\0\x01\0\0\0\x01";
