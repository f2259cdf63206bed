//! The lines of objects over memory, and what a missing or faulty configuration gives.

use adapter_policies::{ConfigCause, ConfigFault};
use object_lines::*;
use orb_base::{List, MemFile, MemFiles, MemSink, Text};
use setup_files::SetupEnd;
use setup_servants::{ServingFault, TextRole};
use std::alloc::Global;
use std::test::*;

/// The line of the built-in object at 127.0.0.1:2809.
const PING: &[u8] =
    b"ping IOR:000000000000001149444c3a4f72622f50696e673a312e3000000000000000010000000000000042000102000000000a3132372e302e302e31000af90000000470696e6700000001000000020000001a0000000000000001000000280000000a00000000000000000064\n";

/// The built-in setup as a file.
const BUILT_IN: &str =
    "pool = { static = 1, dynamic = 0, default_priority = 100 }\nserver = { slots = 1 }\nadapter = [{ name = \"main\", model = \"CLIENT_PROPAGATED\", priority = 100 }]\nobject = [{ key = \"ping\", adapter = \"main\", interface = \"IDL:Orb/Ping:1.0\" }]\n";

/// A configuration whose second object is of an interface that no servant serves.
const UNSERVED: &str =
    "pool = { static = 1, dynamic = 0, default_priority = 1 }\nadapter = [{ name = \"a\", model = \"SERVER_DECLARED\", priority = 1 }]\nobject = [{ key = \"k\", adapter = \"a\", interface = \"IDL:Orb/Ping:1.0\" }, { key = \"l\", adapter = \"a\", interface = \"IDL:M/V:1.0\" }]\n";

/// A configuration with files of interfaces and scripts.
const FILED: &str =
    "idl = \"m.idl\"\nscripts = \"m.srv\"\npool = { static = 1, dynamic = 0, default_priority = 1 }\nadapter = [{ name = \"a\", model = \"SERVER_DECLARED\", priority = 1 }]\nobject = [{ key = \"v\", adapter = \"a\", interface = \"IDL:M/V:1.0\" }]\n";

/// How the lines are due to come out. A refused configuration, and an object without a servant, have a cause and a path.
#[derive(Clone, Copy)]
enum Due {
    Done,
    Refused(ConfigCause, &'static str),
    Unfiled(TextRole),
    Absent,
    ReadFault,
    WriteFault,
}

/// Whether there is no setup with servants for this reason.
fn ends_so(end: &SetupEnd, due: Due) -> bool {
    match end {
        SetupEnd::Refused(fault) => tells(fault, due),
        SetupEnd::Unserved(ServingFault::Object(fault)) => tells(fault, due),
        SetupEnd::Unserved(ServingFault::Absent(role)) => {
            matches!(due, Due::Unfiled(want) if want == *role)
        }
        SetupEnd::Absent => matches!(due, Due::Absent),
        SetupEnd::ReadFault => matches!(due, Due::ReadFault),
        _ => false,
    }
}

/// Whether they came out so.
fn is_due(end: &AtEnd, due: Due) -> bool {
    match end {
        AtEnd::Done => matches!(due, Due::Done),
        AtEnd::NoBroker(end) => ends_so(end, due),
        AtEnd::WriteFault => matches!(due, Due::WriteFault),
        AtEnd::NoMemory => false,
    }
}

/// Whether a fault has the cause and the path that are due.
fn tells(fault: &ConfigFault, due: Due) -> bool {
    match due {
        Due::Refused(cause, path) => {
            fault.cause == cause && fault.path.as_slice() == path.as_bytes()
        }
        _ => false,
    }
}

/// One run: the configuration in the file `c`, the name of the one that is asked for, if any, the address, the reads of files that
/// fail, how many bytes the writes take at most and which of them fail, how the lines come out, and what was written.
struct Row {
    config: &'static str,
    name: Option<&'static [u8]>,
    at: &'static [u8],
    failed_reads: &'static [u64],
    writes: &'static [usize],
    failed_writes: &'static [u64],
    due: Due,
    held: &'static [u8],
}

fn file_of(alloc: Global, config: &str) -> Option<MemFile> {
    let bytes = List::from_vec(Vec::from_slice(alloc, config.as_bytes()).ok()?);
    match Text::new(alloc, b"c") {
        Ok(name) => Some(MemFile { name, bytes }),
        Err(_) => None,
    }
}

/// The store of a row's one file.
fn store_of(alloc: Global, row: &Row) -> Option<MemFiles> {
    let failing = List::from_vec(Vec::from_slice(alloc, row.failed_reads).ok()?);
    let file = file_of(alloc, row.config)?;
    let mut files = List::new(alloc);
    match files.push(file) {
        Ok(()) => Some(MemFiles::new(files, failing)),
        Err(_) => None,
    }
}

fn sink_of(alloc: Global, row: &Row) -> Option<MemSink> {
    let cuts = Vec::from_slice(alloc, row.writes).ok()?;
    match Vec::from_slice(alloc, row.failed_writes) {
        Ok(failing) => Some(MemSink::new(alloc, List::from_vec(cuts), List::from_vec(failing))),
        Err(_) => None,
    }
}

/// Whether the lines of the configuration of a name come out as is due.
fn comes(
    alloc: Global,
    files: &mut MemFiles,
    name: Option<&Text>,
    at: &Address,
    row: &Row,
) -> bool {
    let Some(mut sink) = sink_of(alloc, row) else {
        return false;
    };
    let end = at_run(alloc, files, &mut sink, name, at);
    is_due(&end, row.due) && sink.held() == row.held
}

fn comes_at(alloc: Global, files: &mut MemFiles, at: &Address, row: &Row) -> bool {
    let Some(name) = row.name else {
        return comes(alloc, files, None, at, row);
    };
    match Text::new(alloc, name) {
        Ok(name) => comes(alloc, files, Some(&name), at, row),
        Err(_) => false,
    }
}

fn row_comes(alloc: Global, row: &Row) -> bool {
    let Ok(Some(at)) = read_address(alloc, row.at) else {
        return false;
    };
    match store_of(alloc, row) {
        Some(mut files) => comes_at(alloc, &mut files, &at, row),
        None => false,
    }
}

fn all_come(alloc: Global, rows: &[Row]) -> bool {
    for row in rows {
        if !row_comes(alloc, row) {
            return false;
        }
    }
    true
}

/// Without a configuration, and by one.
const WRITTEN: &[Row] = &[
    Row {
        config: "",
        name: None,
        at: b"127.0.0.1:2809",
        failed_reads: &[],
        writes: &[],
        failed_writes: &[],
        due: Due::Done,
        held: PING,
    },
    Row {
        config: BUILT_IN,
        name: Some(b"c"),
        at: b"127.0.0.1:2809",
        failed_reads: &[],
        writes: &[],
        failed_writes: &[],
        due: Due::Done,
        held: PING,
    },
];

#[test]
fn the_built_in_object_and_that_of_a_configuration_have_their_line(rt: HostRuntime) {
    assert!(rt; all_come(rt.alloc(), WRITTEN));
}

/// An object without a servant, a fault of the configuration, and a file of interfaces that is not there.
const REFUSED: &[Row] = &[
    Row {
        config: UNSERVED,
        name: Some(b"c"),
        at: b"127.0.0.1:2809",
        failed_reads: &[],
        writes: &[],
        failed_writes: &[],
        due: Due::Refused(ConfigCause::UnknownInterface, "object[1].interface"),
        held: b"",
    },
    Row {
        config: "pool = 1",
        name: Some(b"c"),
        at: b"127.0.0.1:2809",
        failed_reads: &[],
        writes: &[],
        failed_writes: &[],
        due: Due::Refused(ConfigCause::WrongKind, "pool"),
        held: b"",
    },
    Row {
        config: FILED,
        name: Some(b"c"),
        at: b"127.0.0.1:2809",
        failed_reads: &[],
        writes: &[],
        failed_writes: &[],
        due: Due::Unfiled(TextRole::Idl),
        held: b"",
    },
];

#[test]
fn what_is_wrong_with_a_configuration_is_told(rt: HostRuntime) {
    assert!(rt; all_come(rt.alloc(), REFUSED));
}

/// A name that no file has, a store that fails, and a sink that fails at its second write.
const FAILED: &[Row] = &[
    Row {
        config: BUILT_IN,
        name: Some(b"d"),
        at: b"h:1",
        failed_reads: &[],
        writes: &[],
        failed_writes: &[],
        due: Due::Absent,
        held: b"",
    },
    Row {
        config: BUILT_IN,
        name: Some(b"c"),
        at: b"h:1",
        failed_reads: &[0],
        writes: &[],
        failed_writes: &[],
        due: Due::ReadFault,
        held: b"",
    },
    Row {
        config: BUILT_IN,
        name: Some(b"c"),
        at: b"127.0.0.1:2809",
        failed_reads: &[],
        writes: &[4],
        failed_writes: &[1],
        due: Due::WriteFault,
        held: b"ping",
    },
];

#[test]
fn a_file_that_is_absent_and_a_device_that_fails_are_told(rt: HostRuntime) {
    assert!(rt; all_come(rt.alloc(), FAILED));
}

/// Words that are no address.
const NO_ADDRESSES: &[&[u8]] = &[
    b"",
    b"h",
    b":1",
    b"h:",
    b"h:0",
    b"h:65536",
    b"h:+1",
    b"h:00000000001",
    b"h:1:2",
    b"a\0b:1",
];

fn none_is_an_address(alloc: Global) -> bool {
    for word in NO_ADDRESSES {
        if !matches!(read_address(alloc, word), Ok(None)) {
            return false;
        }
    }
    true
}

fn is_address(alloc: Global, word: &[u8], host: &[u8], port: u16) -> bool {
    match read_address(alloc, word) {
        Ok(Some(at)) => at.host.as_slice() == host && at.port == port,
        _ => false,
    }
}

#[test]
fn an_address_has_a_host_and_a_port(rt: HostRuntime) {
    assert!(rt; none_is_an_address(rt.alloc()));
    assert!(rt; is_address(rt.alloc(), b"localhost:0000065535", b"localhost", 65_535));
}
