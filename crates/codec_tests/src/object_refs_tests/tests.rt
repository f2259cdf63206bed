//! Object URLs: CORBA 3.0.3, section 13.6.10.

use object_refs::*;
use std::alloc::Global;
use std::test::*;

/// The text of an object URL, and the host, port and key that it names.
const LOCATIONS: &[(&[u8], &[u8], u16, &[u8])] = &[
    (
        b"corbaloc:iiop:1.2@127.0.0.1:2810/ping",
        b"127.0.0.1",
        2810,
        b"ping",
    ),
    (b"corbaloc::1.2@127.0.0.1/ping", b"127.0.0.1", 2809, b"ping"),
    (b"corbaloc::1.2@h/a%2Fb", b"h", 2809, b"a/b"),
    (b"corbaloc::1.2@h/%00%fF%25", b"h", 2809, b"\0\xff%"),
    (b"corbaloc::1.2@h/a/b:c,d[", b"h", 2809, b"a/b:c,d["),
    (b"corbaloc::1.2@h/", b"h", 2809, b""),
    (b"corbaloc::1.2@a b\xff:1/k", b"a b\xff", 1, b"k"),
    (b"corbaloc::1.2@h:00080/k", b"h", 80, b"k"),
];

fn is_location(alloc: Global, text: &[u8], host: &[u8], port: u16, key: &[u8]) -> bool {
    match parse_corbaloc(alloc, text) {
        Ok(location) => {
            location.host.as_slice() == host
                && location.port == port
                && location.key.as_slice() == key
        }
        Err(_) => false,
    }
}

fn are_locations(alloc: Global, rows: &[(&[u8], &[u8], u16, &[u8])]) -> bool {
    for (text, host, port, key) in rows {
        if !is_location(alloc, text, host, *port, key) {
            return false;
        }
    }
    true
}

#[test]
fn object_urls_name_locations(rt: HostRuntime) {
    assert!(rt; are_locations(rt.alloc(), LOCATIONS));
}

/// Digits, the most of them, and the port that they are.
const PORTS: &[(&[u8], usize, Option<u16>)] = &[
    (b"1", 1, Some(1)),
    (b"65535", 5, Some(65_535)),
    (b"000080", 6, Some(80)),
    (b"000080", 5, None),
    (b"65536", 5, None),
    (b"00000", 5, None),
    (b"", 5, None),
    (b"8a", 5, None),
    (b"80", 0, None),
];

fn are_ports(rows: &[(&[u8], usize, Option<u16>)]) -> bool {
    for (digits, most, port) in rows {
        if port_number(digits, *most) != *port {
            return false;
        }
    }
    true
}

#[test]
fn digits_are_ports(rt: HostRuntime) {
    assert!(rt; are_ports(PORTS));
}

/// Texts that name no location, with the cause and its place.
const NO_LOCATIONS: &[(&[u8], RefCause, usize)] = &[
    (b"", RefCause::NoPrefix, 0),
    (b"corbaloc:", RefCause::NoPrefix, 0),
    (b"corbaloc:rir:/ping", RefCause::NoPrefix, 0),
    (b"CORBALOC::1.2@h/a", RefCause::NoPrefix, 0),
    (b"corbaloc:IIOP:1.2@h/a", RefCause::NoPrefix, 0),
    (b"corbaname::1.2@h/a", RefCause::NoPrefix, 0),
    (b"corbaloc:iiop:1.1@h/a", RefCause::BadVersion, 14),
    (b"corbaloc::h/a", RefCause::BadVersion, 10),
    (b"corbaloc::", RefCause::BadVersion, 10),
    (b"corbaloc::1.2", RefCause::BadVersion, 10),
    (b"corbaloc::1.20@h/a", RefCause::BadVersion, 10),
    (b"corbaloc::1.2@", RefCause::BadHost, 14),
    (b"corbaloc::1.2@/a", RefCause::BadHost, 14),
    (b"corbaloc::1.2@:1/a", RefCause::BadHost, 14),
    (b"corbaloc::1.2@h", RefCause::BadHost, 14),
    (b"corbaloc:iiop:1.2@h,:1.2@i/a", RefCause::BadHost, 18),
    (b"corbaloc::1.2@[::1]/a", RefCause::BadHost, 14),
    (b"corbaloc::1.2@h\0/a", RefCause::BadHost, 14),
    (b"corbaloc::1.2@h:", RefCause::BadPort, 16),
    (b"corbaloc::1.2@h:/a", RefCause::BadPort, 16),
    (b"corbaloc::1.2@h:0/a", RefCause::BadPort, 16),
    (b"corbaloc::1.2@h:65536/a", RefCause::BadPort, 16),
    (b"corbaloc::1.2@h:000080/a", RefCause::BadPort, 16),
    (b"corbaloc::1.2@h:+80/a", RefCause::BadPort, 16),
    (b"corbaloc::1.2@h:8x/a", RefCause::BadPort, 16),
    (b"corbaloc::1.2@h:80", RefCause::BadPort, 16),
    (b"corbaloc::1.2@h/a%2", RefCause::BadEscape, 16),
    (b"corbaloc::1.2@h:80/a%2g%zz", RefCause::BadEscape, 19),
];

fn is_fault(alloc: Global, text: &[u8], cause: RefCause, place: usize) -> bool {
    match parse_corbaloc(alloc, text) {
        Ok(_) => false,
        Err(told) => told == RefError::Refused(RefFault { cause, place }),
    }
}

fn are_faults(alloc: Global, rows: &[(&[u8], RefCause, usize)]) -> bool {
    for (text, cause, place) in rows {
        if !is_fault(alloc, text, *cause, *place) {
            return false;
        }
    }
    true
}

#[test]
fn a_part_without_reading_is_at_fault(rt: HostRuntime) {
    assert!(rt; are_faults(rt.alloc(), NO_LOCATIONS));
}

/// Puts an object URL whose host is so many times `h`. False where memory is wanting.
fn put_url(text: &mut Vec<u8>, len: usize) -> bool {
    if text.extend_from_slice(b"corbaloc::1.2@").is_err() {
        return false;
    }
    for _ in 0..len {
        if text.push(b'h').is_err() {
            return false;
        }
    }
    text.extend_from_slice(b"/k").is_ok()
}

/// Whether the text names a host of this length.
fn has_host_of(alloc: Global, text: &[u8], len: usize) -> bool {
    match parse_corbaloc(alloc, text) {
        Ok(location) => location.host.len() == len,
        Err(_) => false,
    }
}

fn reads_host_of_255(alloc: Global) -> bool {
    let mut text = Vec::new(alloc);
    put_url(&mut text, 255) && has_host_of(alloc, text.as_slice(), 255)
}

fn refuses_host_of_256(alloc: Global) -> bool {
    let mut text = Vec::new(alloc);
    put_url(&mut text, 256) && is_fault(alloc, text.as_slice(), RefCause::BadHost, 14)
}

#[test]
fn a_host_has_at_most_255_bytes(rt: HostRuntime) {
    assert!(rt; reads_host_of_255(rt.alloc()));
    assert!(rt; refuses_host_of_256(rt.alloc()));
}
