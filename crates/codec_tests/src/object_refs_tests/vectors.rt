//! References, octet by octet from CORBA 3.0.3, sections 13.6.2 and 15.7.2, and as another broker writes them.

/// A reference to `ping` at 127.0.0.1 port 2809, with the policy of a client's priorities at 100.
pub const PING: &[u8] =
    b"IOR:000000000000001149444c3a4f72622f50696e673a312e3000000000000000010000000000000042000102000000\
    000a3132372e302e302e31000af90000000470696e6700000001000000020000001a0000000000000001000000280000\
    000a00000000000000000064";

/// The data of its one profile.
pub const PROFILE: &[u8] =
    b"\0\x01\x02\0\0\0\0\x0a127.0.0.1\0\x0a\xf9\0\0\0\x04ping\0\0\0\x01\0\0\0\x02\0\0\0\x1a\0\0\
    \0\0\0\0\0\x01\0\0\0(\0\0\0\x0a\0\0\0\0\0\0\0\0\0d";

/// The data of the one component of that, TAG_POLICIES.
pub const POLICIES: &[u8] = b"\0\0\0\0\0\0\0\x01\0\0\0(\0\0\0\x0a\0\0\0\0\0\0\0\0\0d";

/// A profile of the host `h`, the port 2809 and the key `k`, without components.
pub const SMALL: &[u8] = b"\0\x01\x02\0\0\0\0\x02h\0\x0a\xf9\0\0\0\x01k\0\0\0\0\0\0\0";

/// The same of version 1.0, which has no components.
pub const OLDEST: &[u8] = b"\0\x01\0\0\0\0\0\x02h\0\x0a\xf9\0\0\0\x01k";

/// A reference that another broker wrote, and what it tells of it.
pub struct Foreign {
    pub text: &'static [u8],
    pub type_id: &'static [u8],
    pub host: &'static [u8],
    pub port: u16,
    pub key: &'static [u8],
    pub tags: &'static [u32],
}

/// References that omniORB 4.2.5 wrote, in the little order, with what its `catior` tells of them.
pub const FOREIGN: &[Foreign] = &[
    Foreign {
        text: b"IOR:010000001100000049444c3a4f72622f50696e673a312e3000000000010000000000000054000000010102000a00\
        00003139322e302e322e3700f90a0400000070696e670200000000000000080000000100000000545441010000001c00\
        000001000000010001000100000001000105090101000100000009010100",
        type_id: b"IDL:Orb/Ping:1.0",
        host: b"192.0.2.7",
        port: 2809,
        key: b"ping",
        tags: &[0, 1],
    },
    Foreign {
        text: b"IOR:010000001100000049444c3a4f72622f50696e673a312e3000000000010000000000000070000000010102000a00\
        00003132372e302e302e3100b9710400000070696e670300000000000000080000000100000000545441010000001c00\
        0000010000000100010001000000010001050901010001000000090101000300000014000000010000000a0000003132\
        372e302e302e3100ba71",
        type_id: b"IDL:Orb/Ping:1.0",
        host: b"127.0.0.1",
        port: 29113,
        key: b"ping",
        tags: &[0, 1, 3],
    },
    Foreign {
        text: b"IOR:010000000c00000049444c3a612f423a312e3000010000000000000060000000010102000d000000686f73742e65\
        78616d706c650000ffff0c0000006b08be156d31522c0000000102000000000000000800000001000000005454410100\
        00001c00000001000000010001000100000001000105090101000100000009010100",
        type_id: b"IDL:a/B:1.0",
        host: b"host.example",
        port: 65535,
        key: b"\x6b\x08\xbe\x15\x6d\x31\x52\x2c\0\0\0\x01",
        tags: &[0, 1],
    },
    Foreign {
        text: b"IOR:010000002b00000049444c3a6f6d672e6f72672f436f734e616d696e672f4e616d696e67436f6e74657874457874\
        3a312e30000001000000000000006c000000010102000a0000003139322e302e322e32003fe90b0000004e616d655365\
        7276696365000300000000000000080000000100000000545441010000001c0000000100000001000100010000000100\
        0105090101000100000009010100035454410800000012be086b010041b1",
        type_id: b"IDL:omg.org/CosNaming/NamingContextExt:1.0",
        host: b"192.0.2.2",
        port: 59711,
        key: b"NameService",
        tags: &[0, 1, 0x4154_5403],
    },
];
