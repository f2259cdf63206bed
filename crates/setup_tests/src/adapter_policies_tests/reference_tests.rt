//! References of objects, byte by byte in big order, by hand.

use super::tests::{Due, built_in_comes, whole_comes};
use adapter_policies::*;
use object_refs::Ior;
use orb_base::Text;
use std::alloc::Global;
use std::test::*;

/// An object by its number, the host and the port where it is published, and what its reference has: a repository id and one profile
/// of IIOP, with these bytes.
#[derive(Clone, Copy)]
pub struct Published {
    number: u16,
    host: &'static [u8],
    port: u16,
    id: &'static [u8],
    profile: &'static [u8],
}

/// The object `ping` at 127.0.0.1:2809 under CLIENT_PROPAGATED at 100.
const PING: Published = Published {
    number: 0,
    host: b"127.0.0.1",
    port: 2809,
    id: b"IDL:Orb/Ping:1.0",
    profile: &[
        0, 1, 2, 0, 0, 0, 0, 10, b'1', b'2', b'7', b'.', b'0', b'.', b'0', b'.', b'1', 0, 0x0a,
        0xf9, 0, 0, 0, 4, b'p', b'i', b'n', b'g', 0, 0, 0, 1, 0, 0, 0, 2, 0, 0, 0, 26, 0, 0, 0, 0,
        0, 0, 0, 1, 0, 0, 0, 40, 0, 0, 0, 10, 0, 0, 0, 0, 0, 0, 0, 0, 0, 100,
    ],
};

/// The object `b` of its own priority 10 at h:1, under SERVER_DECLARED with a band from 0 to 10.
const BANDED: Published = Published {
    number: 1,
    host: b"h",
    port: 1,
    id: b"j",
    profile: &[
        0, 1, 2, 0, 0, 0, 0, 2, b'h', 0, 0, 1, 0, 0, 0, 1, b'b', 0, 0, 0, 0, 0, 0, 1, 0, 0, 0, 2,
        0, 0, 0, 48, 0, 0, 0, 0, 0, 0, 0, 2, 0, 0, 0, 40, 0, 0, 0, 10, 0, 0, 0, 0, 0, 0, 0, 1, 0,
        10, 0, 0, 0, 0, 0, 45, 0, 0, 0, 12, 0, 0, 0, 0, 0, 0, 0, 1, 0, 0, 0, 10,
    ],
};

/// Whether a reference has what is published.
fn is_of(ior: &Ior, row: Published) -> bool {
    match ior.profiles.get(0) {
        Some(tagged) => {
            ior.type_id.as_slice() == row.id
                && ior.profiles.len() == 1
                && tagged.tag == 0
                && tagged.bytes.as_slice() == row.profile
        }
        None => false,
    }
}

/// Whether a setup has the object, and its reference at a host.
fn is_published_at(alloc: Global, setup: &Setup, host: &Text, row: Published) -> bool {
    if setup.object(row.number).is_none() || host.len() > 255 {
        return false;
    }
    match setup.reference(alloc, row.number, host, row.port) {
        Ok(ior) => is_of(&ior, row),
        Err(_) => false,
    }
}

/// Whether a setup has the object, and its reference.
pub fn is_published(alloc: Global, setup: &Setup, row: Published) -> bool {
    match Text::new(alloc, row.host) {
        Ok(host) => is_published_at(alloc, setup, &host, row),
        Err(_) => false,
    }
}

#[test]
fn a_reference_tells_the_model(rt: HostRuntime) {
    assert!(rt; built_in_comes(rt.alloc(), Due::Published(PING)));
}

#[test]
fn a_reference_tells_the_bands(rt: HostRuntime) {
    assert!(rt; whole_comes(rt.alloc(), Due::Published(BANDED)));
}
