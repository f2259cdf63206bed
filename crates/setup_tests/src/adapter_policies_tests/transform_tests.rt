//! Transforms of adapters: the rows that a configuration may have, and the first fault of those that it may not.

use super::tests::{all_accepted, all_refused};
use adapter_policies::*;
use orb_base::Priority;
use std::alloc::{AllocError, Global};
use std::test::*;

/// Lanes 10 and 20, and an object of the adapter `prop`.
const LANES: &str =
    "pool = { lanes = [{ priority = 10, static = 1, dynamic = 0 }, { priority = 20, static = 1, dynamic = 0 }] }\nobject = [{ key = \"ping\", adapter = \"prop\", interface = \"i\" }]\n";

/// Native priorities for 0 to 100 alone, no lanes, and an object of the adapter `prop`.
const MAPPED: &str =
    "pool = { static = 1, dynamic = 0, default_priority = 1 }\nmap = { kind = \"linear\", corba_low = 0, corba_high = 100, native_low = 0, native_high = 100 }\nobject = [{ key = \"ping\", adapter = \"prop\", interface = \"i\" }]\n";

/// The transform of the adapter `prop`, which is CLIENT_PROPAGATED at 10, up to its rows.
const ROWS: &str =
    "adapter = [{ name = \"prop\", model = \"CLIENT_PROPAGATED\", priority = 10, inbound = ";

/// Transforms that an adapter of lanes 10 and 20 may have, in any order of their rows.
const ACCEPTED: &[&str] = &[
    "[{ low = 0, high = 49, to = 10 }, { low = 50, high = 100, to = 20 }] }]",
    "[{ low = 50, high = 100, to = 20 }, { low = 0, high = 49, to = 10 }] }]",
    "[{ low = 0, high = 32767, to = 20 }] }]",
    "[{ low = 7, high = 7, to = 20 }], bands = [{ low = 20, high = 30 }] }]",
];

/// Rows that have no reading.
const UNREAD: &[(&str, ConfigCause, &str)] = &[
    ("[] }]", ConfigCause::OutOfRange, "adapter[0].inbound"),
    ("1 }]", ConfigCause::WrongKind, "adapter[0].inbound"),
    ("[1] }]", ConfigCause::WrongKind, "adapter[0].inbound"),
    (
        "[{ low = 0, high = 49 }] }]",
        ConfigCause::Missing,
        "adapter[0].inbound[0].to",
    ),
    (
        "[{ low = 0, high = 49, to = 10 }, { low = 50, high = 100, to = 20, odd = 1 }] }]",
        ConfigCause::UnknownKey,
        "adapter[0].inbound[1].odd",
    ),
    (
        "[{ low = 0, high = 32768, to = 10 }] }]",
        ConfigCause::OutOfRange,
        "adapter[0].inbound[0].high",
    ),
    (
        "[{ low = 0, high = 49, to = -1 }] }]",
        ConfigCause::OutOfRange,
        "adapter[0].inbound[0].to",
    ),
    // The rows are judged after the bands.
    (
        "[], bands = [] }]",
        ConfigCause::OutOfRange,
        "adapter[0].bands",
    ),
];

/// Rows that don't hold together.
const UNLAWFUL: &[(&str, ConfigCause, &str)] = &[
    (
        "[{ low = 0, high = 49, to = 10 }, { low = 100, high = 50, to = 20 }] }]",
        ConfigCause::BandEmpty,
        "adapter[0].inbound[1]",
    ),
    (
        "[{ low = 0, high = 50, to = 10 }, { low = 50, high = 100, to = 20 }] }]",
        ConfigCause::BandOverlap,
        "adapter[0].inbound[1]",
    ),
    (
        "[{ low = 0, high = 49, to = 10 }, { low = 50, high = 100, to = 15 }] }]",
        ConfigCause::PriorityNotALane,
        "adapter[0].inbound[1].to",
    ),
    // No client need send into the band.
    (
        "[{ low = 32767, high = 32767, to = 32767 }] }]",
        ConfigCause::PriorityNotALane,
        "adapter[0].inbound[0].to",
    ),
    (
        "[{ low = 0, high = 49, to = 10 }, { low = 50, high = 100, to = 20 }] }, { name = \"decl\", model = \"SERVER_DECLARED\", priority = 20, inbound = [{ low = 0, high = 1, to = 10 }] }]",
        ConfigCause::TransformNotAllowed,
        "adapter[1].inbound",
    ),
    // Two faults: the smaller cause, whichever adapter has it.
    (
        "[{ low = 0, high = 50, to = 10 }, { low = 50, high = 100, to = 20 }] }, { name = \"b\", model = \"CLIENT_PROPAGATED\", priority = 20, inbound = [{ low = 1, high = 0, to = 10 }] }]",
        ConfigCause::BandEmpty,
        "adapter[1].inbound[0]",
    ),
    (
        "[{ low = 0, high = 50, to = 11 }, { low = 50, high = 100, to = 20 }] }]",
        ConfigCause::BandOverlap,
        "adapter[0].inbound[1]",
    ),
    (
        "[{ low = 0, high = 50, to = 11 }] }, { name = \"decl\", model = \"SERVER_DECLARED\", priority = 20, inbound = [{ low = 0, high = 1, to = 10 }] }]",
        ConfigCause::PriorityNotALane,
        "adapter[0].inbound[0].to",
    ),
    (
        "[{ low = 0, high = 50, to = 10 }] }, { name = \"decl\", model = \"SERVER_DECLARED\", priority = 20, bands = [{ low = 0, high = 9 }], inbound = [{ low = 0, high = 1, to = 10 }] }]",
        ConfigCause::BandWithoutLane,
        "adapter[1].bands[0]",
    ),
    // Two faults of one cause: the bands of an adapter, then its rows, then the next adapter; of priorities the adapter's own, then
    // those of its rows.
    (
        "[{ low = 1, high = 0, to = 10 }], bands = [{ low = 10, high = 10 }, { low = 2, high = 1 }] }]",
        ConfigCause::BandEmpty,
        "adapter[0].bands[1]",
    ),
    (
        "[{ low = 0, high = 5, to = 10 }, { low = 3, high = 9, to = 10 }] }, { name = \"b\", model = \"CLIENT_PROPAGATED\", priority = 20, bands = [{ low = 0, high = 10 }, { low = 10, high = 20 }] }]",
        ConfigCause::BandOverlap,
        "adapter[0].inbound[1]",
    ),
    (
        "[{ low = 0, high = 5, to = 11 }] }, { name = \"b\", model = \"CLIENT_PROPAGATED\", priority = 21 }]",
        ConfigCause::PriorityNotALane,
        "adapter[0].inbound[0].to",
    ),
    (
        "[{ low = 0, high = 5, to = 10 }] }, { name = \"b\", model = \"CLIENT_PROPAGATED\", priority = 21, inbound = [{ low = 0, high = 5, to = 22 }] }]",
        ConfigCause::PriorityNotALane,
        "adapter[1].priority",
    ),
];

/// Rows that give a priority without a native one.
const UNMAPPED: &[(&str, ConfigCause, &str)] = &[
    (
        "[{ low = 101, high = 200, to = 100 }, { low = 0, high = 100, to = 101 }] }]",
        ConfigCause::NoNative,
        "adapter[0].inbound[1].to",
    ),
    (
        "[{ low = 0, high = 100, to = 101 }] }, { name = \"decl\", model = \"SERVER_DECLARED\", priority = 102, inbound = [{ low = 0, high = 1, to = 10 }] }]",
        ConfigCause::NoNative,
        "adapter[0].inbound[0].to",
    ),
];

/// A text after another one.
fn joined(alloc: Global, first: &str, second: &str) -> Result<String, AllocError> {
    format!(in alloc; "{first}{second}")
}

/// Whether each of these texts is refused after the lanes 10 and 20.
fn is_refused_after_lanes(alloc: Global, rows: &[(&str, ConfigCause, &'static str)]) -> bool {
    match joined(alloc, LANES, ROWS) {
        Ok(before) => all_refused(alloc, before.as_str(), "", rows),
        Err(_) => false,
    }
}

/// Whether each of these texts is refused after the map.
fn is_refused_after_a_map(alloc: Global, rows: &[(&str, ConfigCause, &'static str)]) -> bool {
    match joined(alloc, MAPPED, ROWS) {
        Ok(before) => all_refused(alloc, before.as_str(), "", rows),
        Err(_) => false,
    }
}

fn is_accepted_after_lanes(alloc: Global, texts: &[&str]) -> bool {
    match joined(alloc, LANES, ROWS) {
        Ok(before) => all_accepted(alloc, before.as_str(), "", texts),
        Err(_) => false,
    }
}

#[test]
fn a_transform_has_rows_that_are_apart(rt: HostRuntime) {
    assert!(rt; is_accepted_after_lanes(rt.alloc(), ACCEPTED));
}

#[test]
fn a_transform_is_judged_key_by_key(rt: HostRuntime) {
    assert!(rt; is_refused_after_lanes(rt.alloc(), UNREAD));
}

#[test]
fn the_first_fault_of_transforms_is_the_one_reported(rt: HostRuntime) {
    assert!(rt; is_refused_after_lanes(rt.alloc(), UNLAWFUL));
    assert!(rt; is_refused_after_a_map(rt.alloc(), UNMAPPED));
}

/// The adapter of a transform, before its rows, each of which is a table of its own.
const TABLES: &str = "[[adapter]]\nname = \"prop\"\nmodel = \"CLIENT_PROPAGATED\"\npriority = 10\n";

/// So many rows, each of one priority, after a text.
fn rows_after(alloc: Global, before: &str, rows: u16) -> Result<String, AllocError> {
    let mut text = String::new(alloc);
    text.push_str(before)?;
    for level in 0..rows {
        let row = format!(in alloc;
            "[[adapter.inbound]]\nlow = {level}\nhigh = {level}\nto = 10\n"
        )?;
        text.push_str(row.as_str())?;
    }
    Ok(text)
}

/// Whether a transform of so many rows is accepted after the lanes 10 and 20.
fn takes(alloc: Global, rows: u16) -> bool {
    match rows_after(alloc, TABLES, rows) {
        Ok(text) => all_accepted(alloc, LANES, "", &[text.as_str()]),
        Err(_) => false,
    }
}

/// Whether a transform of so many rows is out of range.
fn is_too_long(alloc: Global, rows: u16) -> bool {
    match rows_after(alloc, TABLES, rows) {
        Ok(text) => all_refused(
            alloc,
            LANES,
            "",
            &[(text.as_str(), ConfigCause::OutOfRange, "adapter[0].inbound")],
        ),
        Err(_) => false,
    }
}

#[test]
fn a_transform_has_32_rows_at_most(rt: HostRuntime) {
    assert!(rt; takes(rt.alloc(), 32));
    assert!(rt; is_too_long(rt.alloc(), 33));
}

/// What becomes of a priority that a client sends to the first adapter of a text: kept as a number, or none.
fn becomes(alloc: Global, text: &str, level: i16) -> Option<i16> {
    match read_setup(alloc, text.as_bytes()) {
        Ok(setup) => {
            let adapter = setup.adapter(0)?;
            let mapped = adapter.inbound.inbound(Priority::new(level)?)?;
            Some(mapped.get())
        }
        Err(_) => None,
    }
}

/// A priority that is sent, and what the two rows of the first accepted text make of it.
const MADE: &[(i16, Option<i16>)] = &[
    (0, Some(10)),
    (49, Some(10)),
    (50, Some(20)),
    (70, Some(20)),
    (100, Some(20)),
    (101, None),
    (32767, None),
];

fn each_becomes(alloc: Global, text: &str) -> bool {
    for (sent, want) in MADE {
        if becomes(alloc, text, *sent) != *want {
            return false;
        }
    }
    true
}

/// Whether the adapter of these rows has the transform of the two rows.
fn is_made(alloc: Global, rows: &str) -> bool {
    match joined(alloc, ROWS, rows) {
        Ok(rows) => match joined(alloc, LANES, rows.as_str()) {
            Ok(text) => each_becomes(alloc, text.as_str()),
            Err(_) => false,
        },
        Err(_) => false,
    }
}

/// Whether an adapter without the key keeps what is sent.
fn is_kept(alloc: Global) -> bool {
    match joined(alloc, LANES, TABLES) {
        Ok(text) => becomes(alloc, text.as_str(), 101) == Some(101),
        Err(_) => false,
    }
}

#[test]
fn an_adapter_has_the_transform_of_its_rows(rt: HostRuntime) {
    // The order of the rows has no meaning.
    assert!(rt; is_made(rt.alloc(), ACCEPTED[0]));
    assert!(rt; is_made(rt.alloc(), ACCEPTED[1]));
    assert!(rt; is_kept(rt.alloc()));
}
