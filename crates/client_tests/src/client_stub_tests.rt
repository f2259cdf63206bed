//! Remote objects by hand, and the band that a call to each binds.

use client_stub::*;
use object_refs::{RefCause, RefError, RefFault};
use orb_base::{Band, Priority, PriorityModel};
use std::alloc::Global;
use std::test::*;

/// The ends of a band, or none.
pub type Ends = Option<(i16, i16)>;

/// The band with these ends, or None where they have none.
pub fn band(ends: Ends) -> Option<Option<Band>> {
    match ends {
        Some((low, high)) => {
            let band = Band::new(Priority::new(low)?, Priority::new(high)?)?;
            Some(Some(band))
        }
        None => Some(None),
    }
}

/// What a text means: host, port, key, repository id, model with the server's priority, and how many bands there are.
type Told = (
    &'static [u8],
    u16,
    &'static [u8],
    &'static [u8],
    Option<(PriorityModel, i16)>,
    Option<usize>,
);

/// A text, and what it means.
type Meant = (&'static [u8], Told);

fn has_model(remote: &Remote, want: Option<(PriorityModel, i16)>) -> bool {
    match (remote.model, want) {
        (Some((model, server)), Some((named, level))) => model == named && server.get() == level,
        (None, None) => true,
        _ => false,
    }
}

fn has_bands(remote: &Remote, want: Option<usize>) -> bool {
    match (&remote.bands, want) {
        (Some(bands), Some(count)) => bands.as_slice().len() == count,
        (None, None) => true,
        _ => false,
    }
}

fn is_told(remote: &Remote, told: &Told) -> bool {
    let (host, port, key, type_id, model, bands) = told;
    remote.host.as_slice() == *host
        && remote.port == *port
        && remote.key.as_slice() == *key
        && remote.type_id.as_slice() == *type_id
        && has_model(remote, *model)
        && has_bands(remote, *bands)
}

fn all_are_meant(alloc: Global, rows: &[Meant]) -> bool {
    for (text, told) in rows {
        match remote_of(alloc, text) {
            Ok(remote) if is_told(&remote, told) => (),
            _ => return false,
        }
    }
    true
}

const CLIENT: PriorityModel = PriorityModel::ClientPropagated;

const SERVER: PriorityModel = PriorityModel::ServerDeclared;

/// The address of the object of each URL below.
const PING: Told = (b"127.0.0.1", 2809, b"ping", b"", None, None);

const URLS: &[Meant] = &[
    (b"corbaloc::1.2@127.0.0.1/ping", PING),
    (b"corbaloc:iiop:1.2@127.0.0.1:2809/p%69ng", PING),
    (b"corbaloc::1.2@h:1/", (b"h", 1, b"", b"", None, None)),
];

#[test]
fn a_url_tells_an_address_and_a_key_alone(rt: HostRuntime) {
    assert!(rt; all_are_meant(rt.alloc(), URLS));
}

/// Bands from 100 to 200 and from 0 to 99, at a server that declares 32767.
const DECLARED: &[u8] =
    b"IOR:000000000000000a49444c3a543a312e3000000000000001000000000000005400010200000000026800000100000003006b25000000000100000002000000340000000000000002000000280000000a00000000000000017fff00000000002d000000100000000000000002006400c800000063";

const REFERENCES: &[Meant] = &[
    (
        b"IOR:000000000000001149444c3a4f72622f50696e673a312e3000000000000000010000000000000042000102000000000a3132372e302e302e31000af90000000470696e6700000001000000020000001a0000000000000001000000280000000a00000000000000000064",
        (
            b"127.0.0.1",
            2809,
            b"ping",
            b"IDL:Orb/Ping:1.0",
            Some((CLIENT, 100)),
            None,
        ),
    ),
    (
        DECLARED,
        (
            b"h",
            1,
            b"\0k%",
            b"IDL:T:1.0",
            Some((SERVER, 32767)),
            Some(2),
        ),
    ),
    (
        b"IOR:010000000a00000049444c3a543a312e3000000003000000010000000100000001000000000000005600000001010300020000006800ffff010000006b00000001000000020000003600000001000000030000002c000000000000002d0000000c000000010000000100000005000500280000000a0000000100000001000000000000000000000000000000",
        (b"h", 65535, b"k", b"IDL:T:1.0", Some((SERVER, 0)), Some(1)),
    ),
    (
        b"IOR:000000000000000a49444c3a543a312e30000000000000010000000000000056000102000000000268000001000000016b00000000000001000000020000003600000000000000020000002d000000140000000000000003000700090000000300030004000000280000000a00000000000000000007",
        (b"h", 1, b"k", b"IDL:T:1.0", Some((CLIENT, 7)), None),
    ),
    (
        b"IOR:000000000000000a49444c3a543a312e3000000000000001000000000000004a000102000000000268000001000000016b00000000000001000000020000002a00000000000000020000002d000000080000000000000000000000280000000a00000000000000000007",
        (b"h", 1, b"k", b"IDL:T:1.0", Some((CLIENT, 7)), Some(0)),
    ),
];

#[test]
fn a_reference_tells_its_policies_too(rt: HostRuntime) {
    assert!(rt; all_are_meant(rt.alloc(), REFERENCES));
}

/// A text, and why it is refused at which place.
type Refused = (&'static [u8], RefCause, usize);

const REFUSED: &[Refused] = &[
    (b"", RefCause::NoPrefix, 0),
    (b"CORBALOC::1.2@h/k", RefCause::NoPrefix, 0),
    (b"corbaloc:h/k", RefCause::NoPrefix, 0),
    (b"corbaloc::1.1@h/k", RefCause::BadVersion, 10),
    (b"corbaloc::1.2@h:0/k", RefCause::BadPort, 16),
    (b"IOR:000", RefCause::OddHex, 7),
    (b"IOR:000g", RefCause::BadHex, 7),
];

fn all_are_refused(alloc: Global, rows: &[Refused]) -> bool {
    for (text, cause, place) in rows {
        let fault = RefFault {
            cause: *cause,
            place: *place,
        };
        match remote_of(alloc, text) {
            Err(error) if error == RefError::Refused(fault) => (),
            _ => return false,
        }
    }
    true
}

#[test]
fn a_text_without_a_reading_is_refused(rt: HostRuntime) {
    assert!(rt; all_are_refused(rt.alloc(), REFUSED));
}

fn all_are_meant_or_full(alloc: Global, rows: &[Meant]) -> bool {
    for (text, told) in rows {
        match remote_of(alloc, text) {
            Ok(remote) if is_told(&remote, told) => (),
            Err(RefError::NoMemory) => (),
            _ => return false,
        }
    }
    true
}

fn all_are_refused_or_full(alloc: Global, rows: &[Refused]) -> bool {
    for (text, cause, place) in rows {
        let fault = RefFault {
            cause: *cause,
            place: *place,
        };
        match remote_of(alloc, text) {
            Err(error) if error == RefError::Refused(fault) => (),
            Err(RefError::NoMemory) => (),
            _ => return false,
        }
    }
    true
}

#[test]
fn out_of_memory_no_other_object_is_told(rt: HostRuntime) {
    assert!(rt; all_are_meant_or_full(rt.alloc(), URLS));
    assert!(rt; all_are_meant_or_full(rt.alloc(), REFERENCES));
    assert!(rt; all_are_refused_or_full(rt.alloc(), REFUSED));
}

/// A model with the server's priority, the given priority, and the band to bind or none, or None for a refusal.
type Bound = (Option<(PriorityModel, i16)>, Option<i16>, Option<Ends>);

/// A priority, or None where it is none.
pub fn level(priority: Option<i16>) -> Option<Option<Priority>> {
    match priority {
        Some(level) => Some(Some(Priority::new(level)?)),
        None => Some(None),
    }
}

/// Whether a call to the remote binds so.
fn binds(remote: &Remote, row: &Bound) -> Option<bool> {
    let (_, given, want) = row;
    let answer = band_for(remote, level(*given)?);
    match want {
        Some(ends) => Some(answer == Ok(band(*ends)?)),
        None => Some(answer == Err(NoBand)),
    }
}

/// The remote with another model.
fn modelled(mut remote: Remote, model: Option<(PriorityModel, i16)>) -> Option<Remote> {
    remote.model = match model {
        Some((model, server)) => Some((model, Priority::new(server)?)),
        None => None,
    };
    Some(remote)
}

fn is_bound(alloc: Global, text: &[u8], row: &Bound) -> Option<bool> {
    let remote = modelled(remote_of(alloc, text).ok()?, row.0)?;
    binds(&remote, row)
}

fn all_are_bound(alloc: Global, text: &[u8], rows: &[Bound]) -> bool {
    for row in rows {
        if is_bound(alloc, text, row) != Some(true) {
            return false;
        }
    }
    true
}

const BOUND: &[Bound] = &[
    (Some((SERVER, 150)), Some(50), Some(Some((100, 200)))),
    (Some((SERVER, 201)), Some(50), None),
    (Some((CLIENT, 150)), Some(50), Some(Some((0, 99)))),
    (Some((CLIENT, 150)), None, Some(Some((100, 200)))),
    (Some((CLIENT, 150)), Some(201), None),
    (Some((CLIENT, 201)), None, None),
    (None, Some(200), Some(Some((100, 200)))),
    (None, Some(201), None),
    (None, None, Some(Some((0, 99)))),
];

#[test]
fn the_priority_that_counts_chooses_the_band(rt: HostRuntime) {
    assert!(rt; all_are_bound(rt.alloc(), DECLARED, BOUND));
}

const UNBOUND: &[Bound] = &[
    (Some((SERVER, 150)), Some(50), Some(None)),
    (None, Some(32767), Some(None)),
    (None, None, Some(None)),
];

#[test]
fn without_bands_none_is_bound(rt: HostRuntime) {
    assert!(rt; all_are_bound(rt.alloc(), b"corbaloc::1.2@h/k", UNBOUND));
}
