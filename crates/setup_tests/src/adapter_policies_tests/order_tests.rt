//! Configurations with several faults: the first one in the order of the causes is given.

use super::tests::all_refused;
use adapter_policies::*;
use std::test::*;

const OBJECT: &str =
    "\nadapter = [{ name = \"a\", model = \"CLIENT_PROPAGATED\", priority = 1 }]\nobject = [{ key = \"k\", adapter = \"a\", interface = \"i\" }]\n";

const POOL: &str = "pool = { static = 1, dynamic = 0, default_priority = 1 }\n";

const LANES: &str =
    "pool = { lanes = [{ priority = 1, static = 1, dynamic = 0 }, { priority = 5, static = 1, dynamic = 0 }] }\n";

/// Faults of the pool, the server and the map, each with the fault of a later cause beside it.
const PARTS: &[(&str, ConfigCause, &str)] = &[
    (
        "pool = { odd = 1, static = 65 }\nserver = { even = 1 }",
        ConfigCause::UnknownKey,
        "pool.odd",
    ),
    (
        "pool = { lanes = [{ priority = 9, static = 0, dynamic = 0 }, { priority = 8, static = 64, dynamic = 1 }] }",
        ConfigCause::LaneOrder,
        "pool.lanes[1].priority",
    ),
    (
        "pool = { lanes = [{ priority = 1, static = 64, dynamic = 1 }, { priority = 2, static = 0, dynamic = 0 }] }",
        ConfigCause::NoThread,
        "pool.lanes[1]",
    ),
    (
        "pool = { lanes = [{ priority = 1, static = 40, dynamic = 0 }, { priority = 2, static = 20, dynamic = 5 }] }\nserver = { slots = 2, per_slot = 65 }",
        ConfigCause::TooManyThreads,
        "pool",
    ),
    (
        "pool = { borrowing = true, static = 1, dynamic = 0, default_priority = 1 }\nserver = { slots = 16, per_slot = 9 }",
        ConfigCause::SlotLimit,
        "server",
    ),
    (
        "pool = { borrowing = true, static = 0, dynamic = 2, default_priority = 1 }\nmap = { kind = \"linear\", corba_low = 2, corba_high = 1, native_low = 0, native_high = 1 }",
        ConfigCause::BorrowWithoutLanes,
        "pool.borrowing",
    ),
];

/// Faults of adapters and objects, each with the fault of a later cause beside it; the last three have no native priority, of the
/// pool, of an adapter, of an object.
const LINKS: &[(&str, ConfigCause, &str)] = &[
    (
        "adapter = [{ name = \"a\", model = \"SERVER_DECLARED\", priority = 1, bands = [{ low = 1, high = 5 }, { low = 5, high = 9 }] }, { name = \"a\", model = \"SERVER_DECLARED\", priority = 1, bands = [{ low = 2, high = 1 }] }]\nobject = [{ key = \"k\", adapter = \"a\", interface = \"i\" }]",
        ConfigCause::BandEmpty,
        "adapter[1].bands[0]",
    ),
    (
        "adapter = [{ name = \"a\", model = \"SERVER_DECLARED\", priority = 1 }, { name = \"a\", model = \"SERVER_DECLARED\", priority = 1, bands = [{ low = 1, high = 9 }, { low = 20, high = 30 }, { low = 3, high = 4 }] }]\nobject = [{ key = \"k\", adapter = \"a\", interface = \"i\" }]",
        ConfigCause::BandOverlap,
        "adapter[1].bands[2]",
    ),
    (
        "adapter = [{ name = \"a\", model = \"CLIENT_PROPAGATED\", priority = 1 }]\nobject = [{ key = \"k\", adapter = \"\", interface = \"i\" }, { key = \"l\", adapter = \"a\", interface = \"i\", priority = 1 }, { key = \"l\", adapter = \"a\", interface = \"i\" }]",
        ConfigCause::Duplicate,
        "object[2].key",
    ),
    (
        "adapter = [{ name = \"a\", model = \"CLIENT_PROPAGATED\", priority = 1 }]\nobject = [{ key = \"k\", adapter = \"a\", interface = \"i\", priority = 1 }, { key = \"l\", adapter = \"\", interface = \"i\" }]",
        ConfigCause::UnknownAdapter,
        "object[1].adapter",
    ),
    (
        "map = { kind = \"linear\", corba_low = 2, corba_high = 9, native_low = 0, native_high = 1 }\nadapter = [{ name = \"a\", model = \"SERVER_DECLARED\", priority = 10 }]\nobject = [{ key = \"k\", adapter = \"a\", interface = \"i\", priority = 11 }]",
        ConfigCause::NoNative,
        "pool.default_priority",
    ),
    (
        "map = { kind = \"linear\", corba_low = 1, corba_high = 9, native_low = 0, native_high = 1 }\nadapter = [{ name = \"a\", model = \"SERVER_DECLARED\", priority = 9 }, { name = \"b\", model = \"CLIENT_PROPAGATED\", priority = 10 }]\nobject = [{ key = \"k\", adapter = \"a\", interface = \"i\", priority = 11 }]",
        ConfigCause::NoNative,
        "adapter[1].priority",
    ),
    (
        "map = { kind = \"linear\", corba_low = 1, corba_high = 9, native_low = 0, native_high = 1 }\nadapter = [{ name = \"a\", model = \"SERVER_DECLARED\", priority = 9 }]\nobject = [{ key = \"k\", adapter = \"a\", interface = \"i\" }, { key = \"l\", adapter = \"a\", interface = \"i\", priority = 11 }]",
        ConfigCause::NoNative,
        "object[1].priority",
    ),
];

/// Faults of priorities, lanes and the map, after lanes 1 and 5, each with a fault that comes later beside it.
const LEVELS: &[(&str, ConfigCause, &str)] = &[
    (
        "adapter = [{ name = \"a\", model = \"CLIENT_PROPAGATED\", priority = 1 }, { name = \"b\", model = \"SERVER_DECLARED\", priority = 2 }]\nobject = [{ key = \"k\", adapter = \"b\", interface = \"i\", priority = 3 }, { key = \"l\", adapter = \"a\", interface = \"i\", priority = 5 }]",
        ConfigCause::PriorityNotAllowed,
        "object[1].priority",
    ),
    (
        "object = [{ key = \"k\", adapter = \"b\", interface = \"i\", priority = 3 }]\nadapter = [{ name = \"b\", model = \"SERVER_DECLARED\", priority = 5 }, { name = \"a\", model = \"CLIENT_PROPAGATED\", priority = 2 }]\nmap = { kind = \"table\", rows = [] }",
        ConfigCause::PriorityNotALane,
        "adapter[1].priority",
    ),
    (
        "adapter = [{ name = \"a\", model = \"SERVER_DECLARED\", priority = 1, bands = [{ low = 2, high = 4 }] }]\nobject = [{ key = \"k\", adapter = \"a\", interface = \"i\" }]\nmap = { kind = \"table\", rows = [{ low = 0, high = 4, native = 0 }] }",
        ConfigCause::NoNative,
        "pool.lanes[1].priority",
    ),
    (
        "adapter = [{ name = \"a\", model = \"SERVER_DECLARED\", priority = 1, bands = [{ low = 0, high = 2 }, { low = 6, high = 32767 }] }]\nobject = [{ key = \"k\", adapter = \"a\", interface = \"i\" }]",
        ConfigCause::BandWithoutLane,
        "adapter[0].bands[1]",
    ),
];

#[test]
fn the_first_fault_of_a_part_is_told(rt: HostRuntime) {
    assert!(rt; all_refused(rt.alloc(), "", OBJECT, PARTS));
}

#[test]
fn the_first_fault_between_names_is_told(rt: HostRuntime) {
    assert!(rt; all_refused(rt.alloc(), POOL, "", LINKS));
}

#[test]
fn the_first_fault_of_a_priority_is_told(rt: HostRuntime) {
    assert!(rt; all_refused(rt.alloc(), LANES, "", LEVELS));
}
