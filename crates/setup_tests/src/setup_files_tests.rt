//! A setup and its servants from files in memory.
use orb_base::{List, MemFile, MemFiles, Text};
use setup_files::*;
use std::alloc::Global;
use std::test::*;

/// A configuration of two objects.
const TWO: &[u8] =
    b"pool = { static = 1, dynamic = 0, default_priority = 1 }\nadapter = [{ name = \"a\", model = \"SERVER_DECLARED\", priority = 1 }]\nobject = [{ key = \"k\", adapter = \"a\", interface = \"IDL:Orb/Ping:1.0\" }, { key = \"l\", adapter = \"a\", interface = \"IDL:Orb/Ping:1.0\" }]\n";

/// What is due: a setup with so many objects, or no file, or a configuration that is refused.
#[derive(Clone, Copy)]
enum Due {
    Objects(u16),
    Absent,
    Refused,
}

/// The bytes of the file `c`, the name that is asked for, if any, and what is due.
struct Row {
    config: &'static [u8],
    name: Option<&'static [u8]>,
    due: Due,
}

const ROWS: &[Row] = &[
    Row {
        config: TWO,
        name: None,
        due: Due::Objects(1),
    },
    Row {
        config: TWO,
        name: Some(b"c"),
        due: Due::Objects(2),
    },
    Row {
        config: TWO,
        name: Some(b"d"),
        due: Due::Absent,
    },
    Row {
        config: b"pool = 1\n",
        name: Some(b"c"),
        due: Due::Refused,
    },
];

/// A store with this one file.
fn store_of(alloc: Global, config: &[u8]) -> Option<MemFiles> {
    let bytes = List::from_vec(Vec::from_slice(alloc, config).ok()?);
    let name = Text::new(alloc, b"c").ok()?;
    let mut files = List::new(alloc);
    match files.push(MemFile { name, bytes }) {
        Ok(()) => Some(MemFiles::new(files, List::new(alloc))),
        Err(_) => None,
    }
}

/// Whether a setup has so many objects, one at least.
fn has_objects(broker: &Broker, count: u16) -> bool {
    count > 0 && broker.setup.object(count - 1).is_some() && broker.setup.object(count).is_none()
}

/// Whether this came of the files.
fn is_due(ended: &Result<Broker, SetupEnd>, due: Due) -> bool {
    match ended {
        Ok(broker) => matches!(due, Due::Objects(count) if has_objects(broker, count)),
        Err(SetupEnd::Absent) => matches!(due, Due::Absent),
        Err(SetupEnd::Refused(_)) => matches!(due, Due::Refused),
        Err(_) => false,
    }
}

fn named_comes(alloc: Global, files: &mut MemFiles, name: &[u8], due: Due) -> bool {
    match Text::new(alloc, name) {
        Ok(name) => is_due(&read_broker(alloc, files, Some(&name)), due),
        Err(_) => false,
    }
}

fn row_comes(alloc: Global, row: &Row) -> bool {
    let Some(mut files) = store_of(alloc, row.config) else {
        return false;
    };
    match row.name {
        Some(name) => named_comes(alloc, &mut files, name, row.due),
        None => is_due(&read_broker(alloc, &mut files, None), row.due),
    }
}

fn all_come(alloc: Global, rows: &[Row]) -> bool {
    for row in rows {
        if !row_comes(alloc, row) {
            return false;
        }
    }
    true
}

#[test]
fn a_configuration_gives_a_setup_with_servants(rt: HostRuntime) {
    assert!(rt; all_come(rt.alloc(), ROWS));
}
