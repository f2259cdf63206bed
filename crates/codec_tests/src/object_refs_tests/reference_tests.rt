//! Stringified references and IIOP profiles, against octets that were spelled out by hand from CORBA 3.0.3, sections
//! 13.6.2 and 15.7.2.
ghost use Rattle.std.specs.Prelude.{◌≡◌, ◌≤◌, ◌⊎◌, [], IfSome};
ghost use Rattle.cdr_core.specs.Lists.{AreCounted, item_of_tagged};
ghost use Rattle.object_refs.specs.Layout.{IsCountedProfile, IsCountedReference};

use super::vectors::{FOREIGN, Foreign, OLDEST, PING, POLICIES, PROFILE, SMALL};
use cdr_core::CdrCause;
use object_refs::*;
use orb_base::{List, Octets, Tagged, Text};
use std::alloc::Global;
use std::test::*;

/// A tag and what it tells of.
type Item = (u32, &'static [u8]);

fn octets(alloc: Global, bytes: &[u8]) -> Option<Octets>
    ensures { IfSome result (λ o. o.items ≡ bytes.now) }
{
    let vec = Vec::from_slice(alloc, bytes).ok()?;
    Some(List::from_vec(vec))
}

fn text(alloc: Global, bytes: &[u8]) -> Option<Text>
    ensures { IfSome result (λ t. t ≡ bytes.now) }
{
    match Text::new(alloc, bytes) {
        Ok(text) => Some(text),
        Err(_) => None,
    }
}

/// Puts tagged data after those that are there. False where memory is wanting.
fn put(alloc: Global, list: &mut List<Tagged>, tag: u32, bytes: &[u8]) -> bool {
    match octets(alloc, bytes) {
        Some(bytes) => list.push(Tagged { tag, bytes }).is_ok(),
        None => false,
    }
}

fn put_all(alloc: Global, list: &mut List<Tagged>, items: &[Item]) -> bool {
    for (tag, bytes) in items {
        if !put(alloc, list, *tag, bytes) {
            return false;
        }
    }
    true
}

/// A reference with these profiles.
fn with_profiles(alloc: Global, items: &[Item]) -> Option<Ior> {
    let mut profiles = List::new(alloc);
    if !put_all(alloc, &mut profiles, items) {
        return None;
    }
    let type_id = text(alloc, b"IDL:T:1.0")?;
    Some(Ior { type_id, profiles })
}

fn are_tagged(list: &List<Tagged>, items: &[Item]) -> bool {
    if list.len() != items.len() {
        return false;
    }
    for (i, item) in items.iter().enumerate() {
        match list.get(i) {
            Some(tagged) => {
                if (tagged.tag, tagged.bytes.as_slice()) != *item {
                    return false;
                }
            }
            None => return false,
        }
    }
    true
}

/// Whether the text is read as a reference of this type and these profiles.
fn is_read(alloc: Global, text: &[u8], type_id: &[u8], profiles: &[Item]) -> bool {
    match parse_ior(alloc, text) {
        Ok(ior) => ior.type_id.as_slice() == type_id && are_tagged(&ior.profiles, profiles),
        Err(_) => false,
    }
}

#[test]
fn a_text_is_read_as_a_reference(rt: HostRuntime) {
    assert!(rt;
        is_read(
            rt.alloc(),
            PING,
            b"IDL:Orb/Ping:1.0",
            &[(IIOP_TAG, PROFILE)]
        )
    );
}

/// References of no type and without profiles.
const EITHER_CASES: &[&[u8]] = &[
    b"ior:00000000000000010000000000000000",
    b"iOr:00000000000000010000000000000000",
    b"IOR:010000000100000000FFffFF00000000",
];

fn are_empty(alloc: Global, texts: &[&[u8]]) -> bool {
    for text in texts {
        if !is_read(alloc, text, b"", &[]) {
            return false;
        }
    }
    true
}

#[test]
fn a_prefix_may_be_in_either_case(rt: HostRuntime) {
    assert!(rt; are_empty(rt.alloc(), EITHER_CASES));
}

/// What a profile tells but its version.
struct Told {
    host: &'static [u8],
    port: u16,
    key: &'static [u8],
    components: &'static [Item],
}

fn tells(profile: &IiopProfile, minor: u8, told: &Told) -> bool {
    (profile.minor, profile.port) == (minor, told.port)
        && profile.host.as_slice() == told.host
        && profile.key.as_slice() == told.key
        && are_tagged(&profile.components, told.components)
}

/// Whether the first profile of IIOP of a reference tells this.
fn first_tells(alloc: Global, ior: &Ior, minor: u8, told: &Told) -> bool {
    match first_iiop(alloc, ior) {
        Ok(profile) => tells(&profile, minor, told),
        Err(_) => false,
    }
}

/// The same of a reference with these profiles.
fn first_of_tells(alloc: Global, profiles: &[Item], minor: u8, told: &Told) -> bool {
    match with_profiles(alloc, profiles) {
        Some(ior) => first_tells(alloc, &ior, minor, told),
        None => false,
    }
}

const OF_PING: Told = Told {
    host: b"127.0.0.1",
    port: 2809,
    key: b"ping",
    components: &[(2, POLICIES)],
};

#[test]
fn its_profile_is_read(rt: HostRuntime) {
    assert!(rt; first_of_tells(rt.alloc(), &[(IIOP_TAG, PROFILE)], 2, &OF_PING));
}

/// Texts that are no references, with the cause and its place.
const NO_REFERENCES: &[(&[u8], RefCause, usize)] = &[
    (b"", RefCause::NoPrefix, 0),
    (b"IOR", RefCause::NoPrefix, 0),
    (b"IOS:0", RefCause::NoPrefix, 0),
    (b"corbaloc::1.2@h/k", RefCause::NoPrefix, 0),
    (b"IOR:0", RefCause::OddHex, 5),
    (b"IOR:g", RefCause::OddHex, 5),
    (b"IOR:g0", RefCause::BadHex, 4),
    (b"IOR:000g", RefCause::BadHex, 7),
    (b"IOR:00 0", RefCause::BadHex, 6),
    (b"IOR:", RefCause::Cdr(CdrCause::Short), 0),
    (b"IOR:02", RefCause::Cdr(CdrCause::BadBool), 0),
    (b"IOR:00", RefCause::Cdr(CdrCause::Short), 4),
    (
        b"IOR:0000000000000000",
        RefCause::Cdr(CdrCause::BadString),
        4,
    ),
    (b"IOR:0000000000000002", RefCause::Cdr(CdrCause::TooMany), 4),
    (
        b"IOR:00000000000000010000000000000001",
        RefCause::Cdr(CdrCause::TooMany),
        12,
    ),
];

/// Whether a reading was refused so.
fn is_fault(error: RefError, cause: RefCause, place: usize) -> bool {
    error == RefError::Refused(RefFault { cause, place })
}

fn is_no_reference(alloc: Global, text: &[u8], cause: RefCause, place: usize) -> bool {
    match parse_ior(alloc, text) {
        Ok(_) => false,
        Err(error) => is_fault(error, cause, place),
    }
}

fn are_no_references(alloc: Global, rows: &[(&[u8], RefCause, usize)]) -> bool {
    for (text, cause, place) in rows {
        if !is_no_reference(alloc, text, *cause, *place) {
            return false;
        }
    }
    true
}

#[test]
fn other_texts_are_no_references(rt: HostRuntime) {
    assert!(rt; are_no_references(rt.alloc(), NO_REFERENCES));
    assert!(rt; is_no_reference(rt.alloc(), &PING[..215], RefCause::OddHex, 215));
}

/// Profiles of a reference whose first one of IIOP has a reading, with its minor version.
const PROFILES: &[(&[Item], u8)] = &[
    (&[(0, SMALL)], 2),
    (
        &[(
            0,
            b"\0\x01\x03\0\0\0\0\x02h\0\x0a\xf9\0\0\0\x01k\0\0\0\0\0\0\0",
        )],
        3,
    ),
    (
        &[(
            0,
            b"\x01\x01\x02\xff\x02\0\0\0h\0\xf9\x0a\x01\0\0\0k\xff\xff\xff\0\0\0\0behind",
        )],
        2,
    ),
    (&[(1, b"\x02"), (0, SMALL)], 2),
    (&[(0, SMALL), (0, b"\x02")], 2),
];

const OF_SMALL: Told = Told {
    host: b"h",
    port: 2809,
    key: b"k",
    components: &[],
};

fn first_of_each_tells(alloc: Global, rows: &[(&[Item], u8)]) -> bool {
    for (profiles, minor) in rows {
        if !first_of_tells(alloc, profiles, *minor, &OF_SMALL) {
            return false;
        }
    }
    true
}

#[test]
fn the_first_profile_of_iiop_counts(rt: HostRuntime) {
    assert!(rt; first_of_each_tells(rt.alloc(), PROFILES));
}

/// Profiles of a reference that have no reading: none of IIOP, no byte, an order byte of 2, cut short; versions 1.0,
/// 0.9 and 2.0; 1.1 with its components; and without them, which goes before the version, and before a later profile.
const NO_PROFILES: &[(&[Item], RefCause, usize)] = &[
    (&[], RefCause::NoIiop, 0),
    (&[(1, SMALL), (2, SMALL)], RefCause::NoIiop, 0),
    (&[(0, b"")], RefCause::Cdr(CdrCause::Short), 0),
    (&[(0, b"\x02\x01\x02")], RefCause::Cdr(CdrCause::BadBool), 0),
    (
        &[(0, b"\0\x01\x02\0\0\0\0\x02h\0\x0a")],
        RefCause::Cdr(CdrCause::Short),
        10,
    ),
    (&[(0, OLDEST)], RefCause::BadVersion, 0),
    (
        &[(0, b"\0\0\x09\0\0\0\0\x02h\0\x0a\xf9\0\0\0\x01k")],
        RefCause::BadVersion,
        0,
    ),
    (
        &[(
            0,
            b"\0\x02\0\0\0\0\0\x02h\0\x0a\xf9\0\0\0\x01k\0\0\0\0\0\0\0",
        )],
        RefCause::BadVersion,
        0,
    ),
    (
        &[(
            0,
            b"\0\x01\x01\0\0\0\0\x02h\0\x0a\xf9\0\0\0\x01k\0\0\0\0\0\0\0",
        )],
        RefCause::BadVersion,
        0,
    ),
    (
        &[
            (0, b"\0\x01\x01\0\0\0\0\x02h\0\x0a\xf9\0\0\0\x01k"),
            (0, SMALL),
        ],
        RefCause::Cdr(CdrCause::Short),
        20,
    ),
];

/// Whether a reference has no first profile of IIOP, for this cause.
fn has_no_first(alloc: Global, ior: &Ior, cause: RefCause, place: usize) -> bool {
    match first_iiop(alloc, ior) {
        Ok(_) => false,
        Err(error) => is_fault(error, cause, place),
    }
}

fn is_no_first_of(alloc: Global, profiles: &[Item], cause: RefCause, place: usize) -> bool {
    match with_profiles(alloc, profiles) {
        Some(ior) => has_no_first(alloc, &ior, cause, place),
        None => false,
    }
}

fn are_no_first(alloc: Global, rows: &[(&[Item], RefCause, usize)]) -> bool {
    for (profiles, cause, place) in rows {
        if !is_no_first_of(alloc, profiles, *cause, *place) {
            return false;
        }
    }
    true
}

#[test]
fn other_profiles_are_at_fault(rt: HostRuntime) {
    assert!(rt; are_no_first(rt.alloc(), NO_PROFILES));
}

fn are_tags(list: &List<Tagged>, tags: &[u32]) -> bool {
    if list.len() != tags.len() {
        return false;
    }
    for (i, tag) in tags.iter().enumerate() {
        match list.get(i) {
            Some(tagged) => {
                if tagged.tag != *tag {
                    return false;
                }
            }
            None => return false,
        }
    }
    true
}

fn tells_foreign(profile: &IiopProfile, foreign: &Foreign) -> bool {
    profile.host.as_slice() == foreign.host
        && profile.port == foreign.port
        && profile.key.as_slice() == foreign.key
        && are_tags(&profile.components, foreign.tags)
}

fn first_is_foreign(alloc: Global, ior: &Ior, foreign: &Foreign) -> bool {
    match first_iiop(alloc, ior) {
        Ok(profile) => tells_foreign(&profile, foreign),
        Err(_) => false,
    }
}

fn is_foreign(alloc: Global, foreign: &Foreign) -> bool {
    match parse_ior(alloc, foreign.text) {
        Ok(ior) => {
            ior.type_id.as_slice() == foreign.type_id && first_is_foreign(alloc, &ior, foreign)
        }
        Err(_) => false,
    }
}

fn are_foreign(alloc: Global, rows: &[Foreign]) -> bool {
    for foreign in rows {
        if !is_foreign(alloc, foreign) {
            return false;
        }
    }
    true
}

#[test]
fn references_of_another_broker_are_read(rt: HostRuntime) {
    assert!(rt; are_foreign(rt.alloc(), FOREIGN));
}

/// The reference whose text is `PING`.
fn ping(alloc: Global) -> Option<Ior>
    ensures { IfSome result (λ r. IsCountedReference r) }
{
    let bytes = octets(alloc, PROFILE)?;
    let type_id = text(alloc, b"IDL:Orb/Ping:1.0")?;
    let mut profiles = List::new(alloc);
    let tag = IIOP_TAG;
    profiles.push(Tagged { tag, bytes }).ok()?;
    Some(Ior { type_id, profiles })
}

fn writes_ping(alloc: Global) -> bool {
    match ping(alloc) {
        Some(ior) => match ior_text(alloc, &ior) {
            Ok(written) => written.as_slice() == PING,
            Err(_) => false,
        },
        None => false,
    }
}

#[test]
fn a_reference_is_written(rt: HostRuntime) {
    assert!(rt; writes_ping(rt.alloc()));
}

/// The components of the profile of `PING`.
fn policies(alloc: Global) -> Option<List<Tagged>>
    ensures { IfSome result (λ l. AreCounted item_of_tagged l.items) }
{
    let bytes = octets(alloc, POLICIES)?;
    let mut components = List::new(alloc);
    components.push(Tagged { tag: 2, bytes }).ok()?;
    Some(components)
}

fn newest(alloc: Global) -> Option<IiopProfile>
    ensures counted { IfSome result (λ p. IsCountedProfile p) }
    ensures version { IfSome result (λ p. p.minor ≡ 2) }
{
    let components = policies(alloc)?;
    let host = text(alloc, b"127.0.0.1")?;
    let key = octets(alloc, b"ping")?;
    Some(IiopProfile {
        minor: 2,
        host,
        port: 2809,
        key,
        components,
    })
}

fn oldest(alloc: Global) -> Option<IiopProfile>
    ensures counted { IfSome result (λ p. IsCountedProfile p) }
    ensures version { IfSome result (λ p. p.components ≡ []) }
{
    let host = text(alloc, b"h")?;
    let key = octets(alloc, b"k")?;
    Some(IiopProfile {
        minor: 0,
        host,
        port: 2809,
        key,
        components: List::new(alloc),
    })
}

/// Whether the profile is written so, with the tag of IIOP.
fn is_written(alloc: Global, profile: &IiopProfile, bytes: &[u8]) -> bool
    requires counted { IsCountedProfile profile.now }
    requires version { (1 ≤ profile.now.minor) ⊎ (profile.now.components ≡ []) }
{
    match write_iiop(alloc, profile) {
        Ok(tagged) => tagged.tag == IIOP_TAG && tagged.bytes.as_slice() == bytes,
        Err(_) => false,
    }
}

fn writes_newest(alloc: Global) -> bool {
    match newest(alloc) {
        Some(profile) => is_written(alloc, &profile, PROFILE),
        None => false,
    }
}

#[test]
fn a_profile_is_written(rt: HostRuntime) {
    assert!(rt; writes_newest(rt.alloc()));
}

fn writes_oldest(alloc: Global) -> bool {
    match oldest(alloc) {
        Some(profile) => is_written(alloc, &profile, OLDEST),
        None => false,
    }
}

#[test]
fn the_oldest_profile_is_written_without_components(rt: HostRuntime) {
    assert!(rt; writes_oldest(rt.alloc()));
}

/// Errors, as they are printed.
const PRINTED: &[(RefError, &str)] = &[
    (
        RefError::Refused(RefFault {
            cause: RefCause::Cdr(CdrCause::Short),
            place: 20,
        }),
        "20: Short",
    ),
    (RefError::NoMemory, "out of memory"),
];

fn is_printed(alloc: Global, error: RefError, text: &str) -> bool {
    match format!(in alloc; "{error}") {
        Ok(printed) => printed.as_str() == text,
        Err(_) => false,
    }
}

fn are_printed(alloc: Global, rows: &[(RefError, &str)]) -> bool {
    for (error, text) in rows {
        if !is_printed(alloc, *error, text) {
            return false;
        }
    }
    true
}

#[test]
fn a_fault_prints_its_place_and_cause(rt: HostRuntime) {
    assert!(rt; are_printed(rt.alloc(), PRINTED));
}
