//! Configurations, each judged by hand from the rules of its keys and relations.

use super::reference_tests::{Published, is_published};
use adapter_policies::*;
use orb_base::{Priority, PriorityModel};
use std::alloc::Global;
use std::test::*;

const POOL: &str = "pool = { static = 1, dynamic = 0, default_priority = 1 }\n";

const SERVED: &str =
    "\n[[adapter]]\nname = \"main\"\nmodel = \"CLIENT_PROPAGATED\"\npriority = 100\n[[object]]\nkey = \"ping\"\nadapter = \"main\"\ninterface = \"IDL:Orb/Ping:1.0\"\n";

const LANES: &str =
    "[pool]\nborrowing = true\nbuffering = true\nmax_buffered_requests = 3\nmax_request_buffer_size = 120\nlanes = [{ priority = 10, static = 1, dynamic = 0 }, { priority = 20, static = 1, dynamic = 2 }]\n[[adapter]]\nname = \"low\"\nmodel = \"CLIENT_PROPAGATED\"\npriority = 10\n";

const FIRST: &str = "[[object]]\nkey = \"a\"\nadapter = \"low\"\ninterface = \"i\"\n";

/// Texts that are refused by the keys of the document or of its tables.
const DOCUMENTS: &[(&str, ConfigCause, &str)] = &[
    ("pool = ", ConfigCause::NotToml, ""),
    ("a = 1\na = 1", ConfigCause::NotToml, ""),
    (
        "pool = { odd = 1 }\nodd = 1\neven = 2",
        ConfigCause::UnknownKey,
        "even",
    ),
    ("idl = \"m.idl\"", ConfigCause::Missing, "scripts"),
    (
        "scripts = \"m.srv\"\nidl = 1",
        ConfigCause::WrongKind,
        "idl",
    ),
    ("map = { odd = 1 }", ConfigCause::Missing, "pool"),
    ("pool = []", ConfigCause::WrongKind, "pool"),
    (
        "pool = {}\nadapter = []",
        ConfigCause::OutOfRange,
        "adapter",
    ),
    (
        "pool = {}\nadapter = [{}]\nobject = [1]",
        ConfigCause::WrongKind,
        "object",
    ),
    (
        "pool = {}\nadapter = [{}]\nobject = [{}]",
        ConfigCause::Missing,
        "pool.static",
    ),
];

/// Pools that are refused, before an adapter and an object.
const POOLS: &[(&str, ConfigCause, &str)] = &[
    ("lanes = []", ConfigCause::OutOfRange, "pool.lanes"),
    (
        "static = 1\ndynamic = 65",
        ConfigCause::OutOfRange,
        "pool.dynamic",
    ),
    ("static = 1.0", ConfigCause::WrongKind, "pool.static"),
    (
        "buffering = true",
        ConfigCause::Missing,
        "pool.max_buffered_requests",
    ),
    (
        "max_request_buffer_size = 1",
        ConfigCause::WrongKind,
        "pool.max_request_buffer_size",
    ),
    (
        "lanes = [{ priority = 1, static = 1, dynamic = 0 }]\nstatic = 1",
        ConfigCause::WrongKind,
        "pool.static",
    ),
    (
        "lanes = [{ priority = 1, static = 1 }]",
        ConfigCause::Missing,
        "pool.lanes[0].dynamic",
    ),
    (
        "static = 0\ndynamic = 0\ndefault_priority = 1",
        ConfigCause::NoThread,
        "pool",
    ),
    (
        "static = 64\ndynamic = 1\ndefault_priority = 1",
        ConfigCause::TooManyThreads,
        "pool",
    ),
    (
        "borrowing = true\nstatic = 1\ndynamic = 0\ndefault_priority = 1",
        ConfigCause::BorrowWithoutLanes,
        "pool.borrowing",
    ),
    (
        "lanes = [{ priority = 10, static = 1, dynamic = 0 }, { priority = 10, static = 0, dynamic = 0 }]",
        ConfigCause::LaneOrder,
        "pool.lanes[1].priority",
    ),
    (
        "lanes = [{ priority = 10, static = 1, dynamic = 0 }, { priority = 20, static = 0, dynamic = 0 }]",
        ConfigCause::NoThread,
        "pool.lanes[1]",
    ),
];

/// Servers and maps that are refused, after a pool.
const HEADS: &[(&str, ConfigCause, &str)] = &[
    (
        "server = { slots = 2, per_slot = 65 }",
        ConfigCause::SlotLimit,
        "server",
    ),
    (
        "server = { per_slot = 33 }",
        ConfigCause::SlotLimit,
        "server",
    ),
    (
        "server = { slots = 17 }",
        ConfigCause::OutOfRange,
        "server.slots",
    ),
    (
        "map = { kind = \"square\" }",
        ConfigCause::OutOfRange,
        "map.kind",
    ),
    (
        "map = { kind = \"table\" }",
        ConfigCause::Missing,
        "map.rows",
    ),
    (
        "map = { kind = \"linear\", corba_low = 2, corba_high = 1, native_low = 0, native_high = 1 }",
        ConfigCause::BadMap,
        "map",
    ),
    (
        "map = { kind = \"table\", rows = [{ low = 1, high = 9, native = 0 }, { low = 9, high = 10, native = 1 }] }",
        ConfigCause::BadMap,
        "map",
    ),
    (
        "map = { kind = \"table\", rows = [] }",
        ConfigCause::NoNative,
        "pool.default_priority",
    ),
    (
        "map = { kind = \"table\", rows = [{ low = 1, high = 9, native = -3 }] }",
        ConfigCause::NoNative,
        "adapter[0].priority",
    ),
];

/// A second adapter and a first object, which are refused between an adapter and an object.
const PAIRS: &[(&str, ConfigCause, &str)] = &[
    (
        "[[adapter]]\nname = \"high\"\nmodel = \"CLIENT\"\npriority = 20\n[[object]]\nkey = \"b\"\nadapter = \"high\"\ninterface = \"i\"\n",
        ConfigCause::OutOfRange,
        "adapter[1].model",
    ),
    (
        "[[adapter]]\nname = \"high\"\nmodel = \"SERVER_DECLARED\"\npriority = 20\n[[object]]\nkey = \"\"\nadapter = \"high\"\ninterface = \"i\"\n",
        ConfigCause::OutOfRange,
        "object[0].key",
    ),
    (
        "[[adapter]]\nname = \"high\"\nmodel = \"SERVER_DECLARED\"\npriority = 20\nbands = [{ low = 0, high = 9 }, { low = 9, high = 1 }]\n[[object]]\nkey = \"b\"\nadapter = \"high\"\ninterface = \"i\"\n",
        ConfigCause::BandEmpty,
        "adapter[1].bands[1]",
    ),
    (
        "[[adapter]]\nname = \"high\"\nmodel = \"SERVER_DECLARED\"\npriority = 20\nbands = [{ low = 0, high = 10 }, { low = 10, high = 20 }]\n[[object]]\nkey = \"b\"\nadapter = \"high\"\ninterface = \"i\"\n",
        ConfigCause::BandOverlap,
        "adapter[1].bands[1]",
    ),
    (
        "[[adapter]]\nname = \"low\"\nmodel = \"SERVER_DECLARED\"\npriority = 20\n[[object]]\nkey = \"b\"\nadapter = \"high\"\ninterface = \"i\"\n",
        ConfigCause::Duplicate,
        "adapter[1].name",
    ),
    (
        "[[adapter]]\nname = \"high\"\nmodel = \"SERVER_DECLARED\"\npriority = 20\n[[object]]\nkey = \"a\"\nadapter = \"none\"\ninterface = \"i\"\n",
        ConfigCause::Duplicate,
        "object[1].key",
    ),
    (
        "[[adapter]]\nname = \"high\"\nmodel = \"SERVER_DECLARED\"\npriority = 20\n[[object]]\nkey = \"b\"\nadapter = \"none\"\ninterface = \"i\"\n",
        ConfigCause::UnknownAdapter,
        "object[0].adapter",
    ),
    (
        "[[adapter]]\nname = \"high\"\nmodel = \"SERVER_DECLARED\"\npriority = 20\n[[object]]\nkey = \"b\"\nadapter = \"low\"\ninterface = \"i\"\npriority = 10\n",
        ConfigCause::PriorityNotAllowed,
        "object[0].priority",
    ),
    (
        "[[adapter]]\nname = \"high\"\nmodel = \"SERVER_DECLARED\"\npriority = 15\n[[object]]\nkey = \"b\"\nadapter = \"high\"\ninterface = \"i\"\n",
        ConfigCause::PriorityNotALane,
        "adapter[1].priority",
    ),
    (
        "[[adapter]]\nname = \"high\"\nmodel = \"SERVER_DECLARED\"\npriority = 20\n[[object]]\nkey = \"b\"\nadapter = \"high\"\ninterface = \"i\"\npriority = 15\n",
        ConfigCause::PriorityNotALane,
        "object[0].priority",
    ),
    (
        "[[adapter]]\nname = \"high\"\nmodel = \"SERVER_DECLARED\"\npriority = 20\nbands = [{ low = 0, high = 10 }, { low = 21, high = 30 }]\n[[object]]\nkey = \"b\"\nadapter = \"high\"\ninterface = \"i\"\n",
        ConfigCause::BandWithoutLane,
        "adapter[1].bands[1]",
    ),
];

/// What is due of a configuration.
#[derive(Clone, Copy)]
pub enum Due {
    /// It is refused with this cause at this path.
    Refused(ConfigCause, &'static str),
    /// It is a setup.
    Accepted,
    /// In its setup the object of this key has this number.
    Numbered(&'static [u8], u16),
    /// Its setup has the pool, the limits, the objects, the adapters and the map of the configuration with each table.
    Whole,
    /// Its setup is the built-in one.
    BuiltIn,
    /// Its setup has this object with its reference.
    Published(Published),
}

/// Whether this fault is due.
fn tells(error: &SetupError, due: Due) -> bool {
    match (error, due) {
        (SetupError::Refused(fault), Due::Refused(cause, path)) => {
            fault.cause == cause && fault.path.as_slice() == path.as_bytes()
        }
        _ => false,
    }
}

/// Whether this setup is due.
fn holds(alloc: Global, setup: &Setup, due: Due) -> bool {
    match due {
        Due::Refused(..) => false,
        Due::Accepted => true,
        Due::Numbered(key, number) => setup.find(key) == Some(number),
        Due::Whole => {
            has_limits(setup) && has_objects(setup) && has_adapters(setup) && has_map(setup)
        }
        Due::BuiltIn => is_built_in(setup),
        Due::Published(row) => is_published(alloc, setup, row),
    }
}

/// Whether this comes of a configuration.
pub fn comes(alloc: Global, text: &[u8], due: Due) -> bool {
    match read_setup(alloc, text) {
        Ok(setup) => holds(alloc, &setup, due),
        Err(error) => tells(&error, due),
    }
}

/// Whether this comes of a text between two others.
fn comes_between(alloc: Global, before: &str, text: &str, behind: &str, due: Due) -> bool {
    match format!(in alloc; "{before}{text}{behind}") {
        Ok(text) => comes(alloc, text.as_bytes(), due),
        Err(_) => false,
    }
}

/// Whether each text between two others is refused with its cause at its path.
pub fn all_refused(
    alloc: Global,
    before: &str,
    behind: &str,
    rows: &[(&str, ConfigCause, &'static str)],
) -> bool {
    for (text, cause, path) in rows {
        if !comes_between(alloc, before, text, behind, Due::Refused(*cause, path)) {
            return false;
        }
    }
    true
}

/// Whether each text between two others is a configuration.
pub fn all_accepted(alloc: Global, before: &str, behind: &str, texts: &[&str]) -> bool {
    for text in texts {
        if !comes_between(alloc, before, text, behind, Due::Accepted) {
            return false;
        }
    }
    true
}

#[test]
fn a_document_is_judged_key_by_key(rt: HostRuntime) {
    assert!(rt; all_refused(rt.alloc(), "", "", DOCUMENTS));
}

#[test]
fn a_pool_is_judged_key_by_key(rt: HostRuntime) {
    assert!(rt; all_refused(rt.alloc(), "[pool]\n", SERVED, POOLS));
}

#[test]
fn a_pool_a_server_and_a_map_hold_together(rt: HostRuntime) {
    assert!(rt; all_refused(rt.alloc(), POOL, SERVED, HEADS));
}

#[test]
fn adapters_and_objects_fit_together(rt: HostRuntime) {
    assert!(rt; all_refused(rt.alloc(), LANES, FIRST, PAIRS));
}

const FILES: &str = "idl = \"m.idl\"\nscripts = \"m.srv\"\n";

const REST: &str =
    "[server]\nslots = 3\nmax_calls = 7\n[map]\nkind = \"linear\"\ncorba_low = 0\ncorba_high = 99\nnative_low = -10\nnative_high = -1\n[[adapter]]\nname = \"high\"\nmodel = \"SERVER_DECLARED\"\npriority = 20\nbands = [{ low = 0, high = 10 }]\n[[object]]\nkey = \"a\"\nadapter = \"high\"\ninterface = \"i\"\n[[object]]\nkey = \"b\"\nadapter = \"high\"\ninterface = \"j\"\npriority = 10\n";

/// Whether this comes of the configuration with each table.
pub fn whole_comes(alloc: Global, due: Due) -> bool {
    comes_between(alloc, FILES, LANES, REST, due)
}

/// Whether this comes of no configuration.
pub fn built_in_comes(alloc: Global, due: Due) -> bool {
    match Setup::built_in(alloc) {
        Ok(setup) => holds(alloc, &setup, due),
        Err(_) => false,
    }
}

/// Whether there is an object at a place, of this adapter and priority.
fn is_served(setup: &Setup, place: u16, adapter: u8, priority: i16) -> bool {
    match setup.object(place) {
        Some(object) => object.adapter == adapter && object.priority.get() == priority,
        None => false,
    }
}

/// Whether the setup with each table has its pool, its limits and its files.
fn has_limits(setup: &Setup) -> bool {
    let pool = setup.pool();
    pool.laned
        && pool.borrowing
        && pool.buffering
        && pool.lanes.len() == 2
        && pool.max_requests == 3
        && pool.max_bytes == 120
        && pool.run_calls == 7
        && pool.run_bytes == 67_108_864
        && setup.slots() == 3
        && setup.per_slot() == 42
        && setup.idl().is_some()
        && setup.scripts().is_some()
}

/// Whether that setup has its two objects, and no third.
fn has_objects(setup: &Setup) -> bool {
    setup.find(b"b") == Some(1)
        && setup.find(b"c") == None
        && is_served(setup, 0, 1, 20)
        && is_served(setup, 1, 1, 10)
        && setup.object(2).is_none()
}

/// Whether its second adapter is the last, and has its model and a band.
fn has_adapters(setup: &Setup) -> bool {
    match setup.adapter(1) {
        Some(adapter) => {
            adapter.model == PriorityModel::ServerDeclared
                && adapter.bands.len() == 1
                && setup.adapter(2).is_none()
        }
        None => false,
    }
}

/// Whether its map takes 20 to -8.
fn has_map(setup: &Setup) -> bool {
    match Priority::new(20) {
        Some(priority) => setup.map().to_native(priority) == Some(-8),
        None => false,
    }
}

#[test]
fn a_setup_has_its_pool_limits_objects_adapters_and_map(rt: HostRuntime) {
    assert!(rt; whole_comes(rt.alloc(), Due::Whole));
}

/// Whether a setup has one lane, the limits where none are said, and an object `ping`.
fn is_built_in(setup: &Setup) -> bool {
    setup.find(b"ping") == Some(0)
        && setup.pool().lanes.len() == 1
        && setup.slots() == 1
        && setup.per_slot() == 128
        && is_served(setup, 0, 0, 100)
}

#[test]
fn the_built_in_setup_has_ping(rt: HostRuntime) {
    assert!(rt; built_in_comes(rt.alloc(), Due::BuiltIn));
}

/// Whether a setup has 4 slots of 32 connections, and the object `NameService` alone, of the interface of the name service.
fn is_of_names(setup: &Setup) -> bool {
    setup.slots() == 4
        && setup.per_slot() == 32
        && setup.find(b"NameService") == Some(0)
        && setup.find(b"ping") == None
        && setup.object(1).is_none()
        && is_served(setup, 0, 0, 100)
        && match setup.object(0) {
            Some(object) => object.interface.as_slice() == b"IDL:Orb/Names:1.0".as_slice(),
            None => false,
        }
}

/// Whether the setup of the name service is so.
fn names_come(alloc: Global) -> bool {
    match Setup::names(alloc) {
        Ok(setup) => is_of_names(&setup),
        Err(_) => false,
    }
}

#[test]
fn the_setup_of_the_name_service_has_its_one_object(rt: HostRuntime) {
    assert!(rt; names_come(rt.alloc()));
}
