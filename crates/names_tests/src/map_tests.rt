//! Stories of the map: own profile of a name service.

use name_map::*;
use orb_base::{Arc, Text};
use std::alloc::Global;
use std::test::*;
use turn_cell::Object;

/// A call of plain values.
#[derive(Clone, Copy)]
enum Ask {
    Bind(&'static [u8], &'static [u8]),
    Rebind(&'static [u8], &'static [u8]),
    Resolve(&'static [u8]),
    Unbind(&'static [u8]),
    Next(&'static [u8]),
    Size,
}

/// A reply of plain values.
#[derive(Clone, Copy)]
enum Want {
    Stored,
    Target(&'static [u8]),
    Key(&'static [u8]),
    Count(u32),
    AlreadyBound,
    NoRoom,
    NotFound,
}

fn shared(alloc: Global, bytes: &[u8]) -> Option<Arc<Text>> {
    let text = Text::new(alloc, bytes).ok()?;
    Arc::new(alloc, text).ok()
}

fn call_of(alloc: Global, ask: Ask) -> Option<NamesCall> {
    match ask {
        Ask::Bind(key, target) => Some(NamesCall::Bind {
            key: shared(alloc, key)?,
            target: shared(alloc, target)?,
        }),
        Ask::Rebind(key, target) => Some(NamesCall::Rebind {
            key: shared(alloc, key)?,
            target: shared(alloc, target)?,
        }),
        Ask::Resolve(key) => Some(NamesCall::Resolve {
            key: shared(alloc, key)?,
        }),
        Ask::Unbind(key) => Some(NamesCall::Unbind {
            key: shared(alloc, key)?,
        }),
        Ask::Next(after) => Some(NamesCall::Next {
            after: shared(alloc, after)?,
        }),
        Ask::Size => Some(NamesCall::Size),
    }
}

fn is_as_wanted(reply: &NamesReply, want: Want) -> bool {
    match (reply, want) {
        (NamesReply::Stored, Want::Stored) => true,
        (NamesReply::Target(text), Want::Target(bytes)) => text.get().as_slice() == bytes,
        (NamesReply::Key(text), Want::Key(bytes)) => text.get().as_slice() == bytes,
        (NamesReply::Count(n), Want::Count(count)) => *n == count,
        (NamesReply::AlreadyBound, Want::AlreadyBound) => true,
        (NamesReply::NoRoom, Want::NoRoom) => true,
        (NamesReply::NotFound, Want::NotFound) => true,
        _ => false,
    }
}

/// Whether a call is answered so, to the history and to the caller.
fn answers(alloc: Global, map: &mut NamesCell, ask: Ask, want: Want) -> bool {
    let Some(call) = call_of(alloc, ask) else {
        return false;
    };
    match map.apply(&call) {
        Ok((one, other)) => is_as_wanted(&one, want) && is_as_wanted(&other, want),
        Err(_) => false,
    }
}

/// Whether a new map answers the calls of a story so.
fn goes(alloc: Global, story: &[(Ask, Want)]) -> bool {
    let Ok(mut map) = NamesCell::new(alloc) else {
        return false;
    };
    for (ask, want) in story {
        if !answers(alloc, &mut map, *ask, *want) {
            return false;
        }
    }
    true
}

const BINDS: &[(Ask, Want)] = &[
    (Ask::Resolve(b"a"), Want::NotFound),
    (Ask::Bind(b"a", b"x"), Want::Stored),
    (Ask::Resolve(b"a"), Want::Target(b"x")),
    (Ask::Bind(b"a", b"y"), Want::AlreadyBound),
    (Ask::Resolve(b"a"), Want::Target(b"x")),
    (Ask::Unbind(b"b"), Want::NotFound),
    (Ask::Next(b""), Want::Key(b"a")),
    (Ask::Rebind(b"a", b"y"), Want::Stored),
    (Ask::Resolve(b"a"), Want::Target(b"y")),
    (Ask::Size, Want::Count(1)),
    (Ask::Rebind(b"b", b""), Want::Stored),
    (Ask::Resolve(b"b"), Want::Target(b"")),
    (Ask::Size, Want::Count(2)),
    (Ask::Unbind(b"a"), Want::Stored),
    (Ask::Resolve(b"a"), Want::NotFound),
    (Ask::Unbind(b"a"), Want::NotFound),
    (Ask::Size, Want::Count(1)),
];

#[test]
fn a_key_is_bound_once_and_bound_anew(rt: HostRuntime) {
    assert!(rt; goes(rt.alloc(), BINDS));
}

const WALK: &[(Ask, Want)] = &[
    (Ask::Next(b""), Want::NotFound),
    (Ask::Bind(b"\xff", b"last"), Want::Stored),
    (Ask::Bind(b"b", b"1"), Want::Stored),
    (Ask::Bind(b"ab", b"2"), Want::Stored),
    (Ask::Bind(b"a", b"3"), Want::Stored),
    (Ask::Bind(b"\x7f", b"4"), Want::Stored),
    (Ask::Bind(b"\x80", b"5"), Want::Stored),
    (Ask::Bind(b"B", b"6"), Want::Stored),
    (Ask::Next(b""), Want::Key(b"B")),
    (Ask::Next(b"B"), Want::Key(b"a")),
    (Ask::Next(b"a"), Want::Key(b"ab")),
    (Ask::Next(b"aa"), Want::Key(b"ab")),
    (Ask::Next(b"ab"), Want::Key(b"b")),
    (Ask::Next(b"abc"), Want::Key(b"b")),
    (Ask::Next(b"b"), Want::Key(b"\x7f")),
    (Ask::Next(b"\x7f"), Want::Key(b"\x80")),
    (Ask::Next(b"\x80"), Want::Key(b"\xff")),
    (Ask::Next(b"\xff"), Want::NotFound),
    (Ask::Unbind(b"ab"), Want::Stored),
    (Ask::Next(b"a"), Want::Key(b"b")),
];

#[test]
fn next_walks_the_keys_in_the_order_of_their_bytes(rt: HostRuntime) {
    assert!(rt; goes(rt.alloc(), WALK));
}

/// Binds a key of two bytes above 15.
fn bind_pair(alloc: Global, map: &mut NamesCell, high: u8, low: u8) -> Option<()> {
    let call = NamesCall::Bind {
        key: shared(alloc, &[high, low])?,
        target: shared(alloc, b"t")?,
    };
    let (reply, _) = map.apply(&call).ok()?;
    if matches!(reply, NamesReply::Stored) {
        Some(())
    } else {
        None
    }
}

/// Binds 1,024 keys of two bytes above 15, whose second byte goes fastest.
fn fill(alloc: Global, map: &mut NamesCell) -> Option<()> {
    for high in 16u8..32 {
        for low in 16u8..80 {
            bind_pair(alloc, map, high, low)?;
        }
    }
    Some(())
}

const FULL: &[(Ask, Want)] = &[
    (Ask::Size, Want::Count(1_024)),
    (Ask::Bind(b"a", b"x"), Want::NoRoom),
    (Ask::Rebind(b"a", b"x"), Want::NoRoom),
    (Ask::Resolve(b"a"), Want::NotFound),
    (Ask::Size, Want::Count(1_024)),
    (Ask::Bind(b"\x10\x10", b"x"), Want::AlreadyBound),
    (Ask::Rebind(b"\x10\x10", b"x"), Want::Stored),
    (Ask::Resolve(b"\x10\x10"), Want::Target(b"x")),
    (Ask::Resolve(b"\x1f\x4f"), Want::Target(b"t")),
    (Ask::Size, Want::Count(1_024)),
    (Ask::Next(b"\x1f\x4e"), Want::Key(b"\x1f\x4f")),
    (Ask::Next(b"\x1f\x4f"), Want::NotFound),
    (Ask::Unbind(b"\x18\x20"), Want::Stored),
    (Ask::Size, Want::Count(1_023)),
    (Ask::Rebind(b"a", b"x"), Want::Stored),
    (Ask::Size, Want::Count(1_024)),
    (Ask::Next(b"\x1f\x4f"), Want::Key(b"a")),
    (Ask::Bind(b"b", b"x"), Want::NoRoom),
];

/// Whether a map of 1,024 keys answers the calls of a story so.
fn goes_when_full(alloc: Global, story: &[(Ask, Want)]) -> bool {
    let Ok(mut map) = NamesCell::new(alloc) else {
        return false;
    };
    if fill(alloc, &mut map).is_none() {
        return false;
    }
    for (ask, want) in story {
        if !answers(alloc, &mut map, *ask, *want) {
            return false;
        }
    }
    true
}

#[test]
fn a_full_map_takes_no_new_key(rt: HostRuntime) {
    assert!(rt; goes_when_full(rt.alloc(), FULL));
}

#[test]
fn only_the_first_seat_has_heirs(rt: HostRuntime) {
    assert!(rt; NamesCell::heir_of(0, 0) == Some(1));
    assert!(rt; NamesCell::heir_of(0, 3) == Some(4));
    assert!(rt; NamesCell::heir_of(0, 4) == None);
    assert!(rt; NamesCell::heir_of(1, 0) == None);
}
