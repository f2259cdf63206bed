//! Keys at both ends of their ranges, and one past each, judged by hand from the table of keys.

use super::tests::{all_accepted, all_refused};
use adapter_policies::*;
use std::test::*;

const SERVED: &str =
    "\nadapter = [{ name = \"main\", model = \"CLIENT_PROPAGATED\", priority = 100 }]\nobject = [{ key = \"ping\", adapter = \"main\", interface = \"i\" }]\n";

const POOL: &str = "pool = { static = 1, dynamic = 0, default_priority = 1 }\n";

const OBJECT: &str =
    "pool = { static = 1, dynamic = 0, default_priority = 1 }\nadapter = [{ name = \"main\", model = \"SERVER_DECLARED\", priority = 1 }]\nobject = [{ adapter = \"main\", interface = \"i\", ";

/// Pools with a number at an end of its range.
const POOLS: &[&str] = &[
    "pool = { static = 0, dynamic = 64, default_priority = 0 }",
    "pool = { static = 64, dynamic = 0, default_priority = 32767 }",
    "pool = { static = 1, dynamic = 0, default_priority = 1, buffering = true, max_buffered_requests = 1, max_request_buffer_size = 1 }",
    "pool = { static = 1, dynamic = 0, default_priority = 1, buffering = true, max_buffered_requests = 4096, max_request_buffer_size = 16777216 }",
    "pool = { lanes = [{ priority = 0, static = 1, dynamic = 0 }, { priority = 100, static = 1, dynamic = 0 }, { priority = 32767, static = 1, dynamic = 0 }] }",
];

/// Pools with a number one past an end of its range.
const POOLS_PAST: &[(&str, ConfigCause, &str)] = &[
    (
        "pool = { static = -1 }",
        ConfigCause::OutOfRange,
        "pool.static",
    ),
    (
        "pool = { static = 65 }",
        ConfigCause::OutOfRange,
        "pool.static",
    ),
    (
        "pool = { static = 1, dynamic = 0, default_priority = 32768 }",
        ConfigCause::OutOfRange,
        "pool.default_priority",
    ),
    (
        "pool = { buffering = true, max_buffered_requests = 0 }",
        ConfigCause::OutOfRange,
        "pool.max_buffered_requests",
    ),
    (
        "pool = { buffering = true, max_buffered_requests = 4097 }",
        ConfigCause::OutOfRange,
        "pool.max_buffered_requests",
    ),
    (
        "pool = { buffering = true, max_buffered_requests = 1, max_request_buffer_size = 0 }",
        ConfigCause::OutOfRange,
        "pool.max_request_buffer_size",
    ),
    (
        "pool = { buffering = true, max_buffered_requests = 1, max_request_buffer_size = 16777217 }",
        ConfigCause::OutOfRange,
        "pool.max_request_buffer_size",
    ),
    (
        "pool = { lanes = [{ priority = 32768 }] }",
        ConfigCause::OutOfRange,
        "pool.lanes[0].priority",
    ),
];

/// Servers and maps with numbers at an end of their ranges.
const HEADS: &[&str] = &[
    "server = { slots = 1, per_slot = 128 }",
    "server = { slots = 16, per_slot = 1 }",
    "server = { max_calls = 1, max_bytes = 1 }",
    "server = { max_calls = 65536, max_bytes = 67108864 }",
    "map = { kind = \"linear\", corba_low = 0, corba_high = 32767, native_low = -2147483648, native_high = 2147483647 }",
    "map = { kind = \"table\", rows = [{ low = 0, high = 32767, native = -2147483648 }] }",
];

/// Servers and maps with a number one past an end of its range.
const HEADS_PAST: &[(&str, ConfigCause, &str)] = &[
    (
        "server = { slots = 0 }",
        ConfigCause::OutOfRange,
        "server.slots",
    ),
    (
        "server = { slots = 17 }",
        ConfigCause::OutOfRange,
        "server.slots",
    ),
    (
        "server = { per_slot = 129 }",
        ConfigCause::OutOfRange,
        "server.per_slot",
    ),
    (
        "server = { max_calls = 65537 }",
        ConfigCause::OutOfRange,
        "server.max_calls",
    ),
    (
        "server = { max_bytes = 67108865 }",
        ConfigCause::OutOfRange,
        "server.max_bytes",
    ),
    (
        "map = { kind = \"linear\", corba_low = 0, corba_high = 32768 }",
        ConfigCause::OutOfRange,
        "map.corba_high",
    ),
    (
        "map = { kind = \"linear\", corba_low = 0, corba_high = 1, native_low = -2147483649 }",
        ConfigCause::OutOfRange,
        "map.native_low",
    ),
    (
        "map = { kind = \"table\", rows = [{ low = 0, high = 1, native = 2147483648 }] }",
        ConfigCause::OutOfRange,
        "map.rows[0].native",
    ),
];

/// What an object says of its key and priority, at an end of a range: keys have 1 to 64 bytes.
const OBJECTS: &[&str] = &[
    "key = \"k\", priority = 0 }]",
    "key = \"k\", priority = 32767 }]",
    "key = \"0123456789abcdef0123456789abcdef0123456789abcdef0123456789abcdef\" }]",
    "key = \"\\u00e9123456789abcdef0123456789abcdef0123456789abcdef0123456789abcde\" }]",
];

/// The same, one past an end.
const OBJECTS_PAST: &[(&str, ConfigCause, &str)] = &[
    ("key = \"\" }]", ConfigCause::OutOfRange, "object[0].key"),
    (
        "key = \"0123456789abcdef0123456789abcdef0123456789abcdef0123456789abcdefg\" }]",
        ConfigCause::OutOfRange,
        "object[0].key",
    ),
    (
        "key = \"\\u00e9123456789abcdef0123456789abcdef0123456789abcdef0123456789abcdef\" }]",
        ConfigCause::OutOfRange,
        "object[0].key",
    ),
    (
        "key = \"a\\u0000b\" }]",
        ConfigCause::OutOfRange,
        "object[0].key",
    ),
    (
        "key = \"k\", priority = 32768 }]",
        ConfigCause::OutOfRange,
        "object[0].priority",
    ),
];

#[test]
fn pools_hold_up_to_both_ends(rt: HostRuntime) {
    assert!(rt; all_accepted(rt.alloc(), "", SERVED, POOLS));
}

#[test]
fn pools_end_one_past(rt: HostRuntime) {
    assert!(rt; all_refused(rt.alloc(), "", SERVED, POOLS_PAST));
}

#[test]
fn servers_and_maps_hold_up_to_both_ends(rt: HostRuntime) {
    assert!(rt; all_accepted(rt.alloc(), POOL, SERVED, HEADS));
}

#[test]
fn servers_and_maps_end_one_past(rt: HostRuntime) {
    assert!(rt; all_refused(rt.alloc(), POOL, SERVED, HEADS_PAST));
}

#[test]
fn objects_hold_up_to_both_ends(rt: HostRuntime) {
    assert!(rt; all_accepted(rt.alloc(), OBJECT, "", OBJECTS));
}

#[test]
fn objects_end_one_past(rt: HostRuntime) {
    assert!(rt; all_refused(rt.alloc(), OBJECT, "", OBJECTS_PAST));
}
