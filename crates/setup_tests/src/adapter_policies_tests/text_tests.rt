//! Texts and lists of a configuration: what is no TOML, values of other kinds, and the greatest counts.

use super::tests::{Due, all_accepted, all_refused, comes};
use adapter_policies::*;
use std::alloc::Global;
use std::fmt::Write;
use std::test::*;

const SERVED: &str =
    "\nadapter = [{ name = \"main\", model = \"CLIENT_PROPAGATED\", priority = 1 }]\nobject = [{ key = \"ping\", adapter = \"main\", interface = \"i\" }]\n";

const POOL: &str = "pool = { static = 1, dynamic = 0, default_priority = 1 }\n";

/// Texts that are no TOML, before an adapter and an object.
const NO_TOML: &[(&str, ConfigCause, &str)] = &[
    (
        "pool = { static = 1, static = 1 }",
        ConfigCause::NotToml,
        "",
    ),
    ("[pool]\n[pool]", ConfigCause::NotToml, ""),
    (
        "pool = { static = 9223372036854775808 }",
        ConfigCause::NotToml,
        "",
    ),
    ("pool = { static = 1979-13-27 }", ConfigCause::NotToml, ""),
];

/// Values of another kind than their key's, after a pool and before an adapter and an object.
const KINDS: &[(&str, ConfigCause, &str)] = &[
    ("server = 1979-05-27", ConfigCause::WrongKind, "server"),
    (
        "server = { slots = 1979-05-27T07:32:00Z }",
        ConfigCause::WrongKind,
        "server.slots",
    ),
    (
        "server = { max_calls = 1.0 }",
        ConfigCause::WrongKind,
        "server.max_calls",
    ),
    (
        "server = { max_bytes = nan }",
        ConfigCause::WrongKind,
        "server.max_bytes",
    ),
    (
        "server = { per_slot = true }",
        ConfigCause::WrongKind,
        "server.per_slot",
    ),
    (
        "map = { kind = \"linear\", rows = [], corba_low = 0, corba_high = 1, native_low = 0, native_high = 1 }",
        ConfigCause::WrongKind,
        "map.rows",
    ),
];

/// Bytes that are no text, so no TOML.
const NO_TEXT: &[&[u8]] = &[b"# \xff\n", b"\xc0\x80"];

/// A byte order mark is no part of the text, before a pool.
const MARKED: &[&str] = &["\u{feff}", "\u{feff}# a configuration\r\n"];

#[test]
fn what_is_no_toml_is_told_so(rt: HostRuntime) {
    assert!(rt; all_refused(rt.alloc(), "", SERVED, NO_TOML));
}

fn all_broken(alloc: Global) -> bool {
    for bytes in NO_TEXT {
        if !comes(alloc, bytes, Due::Refused(ConfigCause::NotToml, "")) {
            return false;
        }
    }
    true
}

#[test]
fn bytes_that_are_no_text_are_no_toml(rt: HostRuntime) {
    assert!(rt; all_broken(rt.alloc()));
}

#[test]
fn a_value_has_its_keys_kind(rt: HostRuntime) {
    assert!(rt; all_refused(rt.alloc(), POOL, SERVED, KINDS));
}

fn all_marked(alloc: Global) -> bool {
    for mark in MARKED {
        if !all_accepted(alloc, mark, SERVED, &[POOL]) {
            return false;
        }
    }
    true
}

#[test]
fn a_byte_order_mark_is_passed_over(rt: HostRuntime) {
    assert!(rt; all_marked(rt.alloc()));
}

/// What is before the objects.
const LISTED: &str =
    "pool = { static = 1, dynamic = 0, default_priority = 1 }\nadapter = [{ name = \"main\", model = \"CLIENT_PROPAGATED\", priority = 1 }]\nobject = [";

/// Puts so many objects after a text. Whether there was memory.
fn puts_objects(text: &mut String, count: u32) -> bool {
    for n in 0..count {
        let done = write!(
            text,
            "{{ key = \"k{n}\", adapter = \"main\", interface = \"i\" }},"
        );
        if done.is_err() {
            return false;
        }
    }
    true
}

/// A configuration of so many objects.
fn objects(alloc: Global, count: u32) -> Option<String> {
    let mut text = String::new(alloc);
    if text.push_str(LISTED).is_ok()
        && puts_objects(&mut text, count)
        && text.push_str("]\n").is_ok()
    {
        Some(text)
    } else {
        None
    }
}

/// Whether this comes of a configuration of so many objects.
fn comes_of_many(alloc: Global, count: u32, due: Due) -> bool {
    match objects(alloc, count) {
        Some(text) => comes(alloc, text.as_bytes(), due),
        None => false,
    }
}

#[test]
fn there_are_up_to_1024_objects(rt: HostRuntime) {
    assert!(rt; comes_of_many(rt.alloc(), 1024, Due::Numbered(b"k1023", 1023)));
    assert!(rt;
        comes_of_many(
            rt.alloc(),
            1025,
            Due::Refused(ConfigCause::OutOfRange, "object")
        )
    );
}
