//! Setups over memory: what serves them, and each fault with its place. Lines and columns were counted by hand.

use adapter_policies::{Setup, read_setup};
use dynamic_servants::Servants;
use idl_grammar::{IdlCause, IdlFault};
use orb_base::{List, MemFile, MemFiles, Text};
use script_checks::{CheckCause, CheckFault};
use servant_scripts::ScriptFault;
use setup_servants::*;
use std::alloc::Global;
use std::test::*;

/// Two objects, of the built-in interface and of one of the file's.
const FILED: &str =
    "idl = \"m.idl\"\nscripts = \"m.srv\"\npool = { static = 1, dynamic = 0, default_priority = 1 }\nadapter = [{ name = \"a\", model = \"SERVER_DECLARED\", priority = 1 }]\nobject = [{ key = \"p\", adapter = \"a\", interface = \"IDL:Orb/Ping:1.0\" }, { key = \"v\", adapter = \"a\", interface = \"IDL:M/V:1.0\" }]\n";

/// The same, and a third object, of an interface for which `SCRIPT` has no servant.
const UNSERVED: &str =
    "idl = \"m.idl\"\nscripts = \"m.srv\"\npool = { static = 1, dynamic = 0, default_priority = 1 }\nadapter = [{ name = \"a\", model = \"SERVER_DECLARED\", priority = 1 }]\nobject = [{ key = \"p\", adapter = \"a\", interface = \"IDL:Orb/Ping:1.0\" }, { key = \"v\", adapter = \"a\", interface = \"IDL:M/V:1.0\" }, { key = \"w\", adapter = \"a\", interface = \"IDL:M/W:1.0\" }]\n";

/// An object of an interface that isn't built in, without files.
const UNFILED: &str =
    "pool = { static = 1, dynamic = 0, default_priority = 1 }\nadapter = [{ name = \"a\", model = \"SERVER_DECLARED\", priority = 1 }]\nobject = [{ key = \"v\", adapter = \"a\", interface = \"IDL:M/V:1.0\" }]\n";

const IDL: &[u8] =
    b"module M {\n  interface V { long twice(in long x); };\n  interface W { void done(); };\n};\n";

/// The result of `twice` is of a type that isn't declared.
const BAD_IDL: &[u8] = b"module M {\n  interface V { Gone twice(in long x); };\n};\n";

const SCRIPT: &[u8] = b"servant M::V { op twice(x) { return x * 2; } }\n";

/// An operand is missing before the `;`.
const BAD_SCRIPT: &[u8] = b"servant M::V { op twice(x) { return x * ; } }\n";

/// The parameter has another name than in the IDL.
const UNCHECKED: &[u8] = b"servant M::V { op twice(y) { return y * 2; } }\n";

const PING: &str = "IDL:Orb/Ping:1.0";

const V: &str = "IDL:M/V:1.0";

const W: &str = "IDL:M/W:1.0";

/// The content of a file, if it is there: these bytes, or so many spaces.
#[derive(Clone, Copy)]
enum Content {
    Absent,
    Bytes(&'static [u8]),
    Spaces(usize),
}

/// What is in the store: the two files, and the numbers of the reads that fail.
#[derive(Clone, Copy)]
struct Stored {
    idl: Content,
    scripts: Content,
    failing: &'static [u64],
}

fn bytes_of(alloc: Global, content: Content) -> Option<Vec<u8>> {
    match content {
        Content::Absent => None,
        Content::Bytes(bytes) => Vec::from_slice(alloc, bytes).ok(),
        Content::Spaces(count) => vec![in alloc; b' '; count].ok(),
    }
}

fn file_of(alloc: Global, name: &str, content: Content) -> Option<MemFile> {
    let bytes = List::from_vec(bytes_of(alloc, content)?);
    match Text::new(alloc, name.as_bytes()) {
        Ok(name) => Some(MemFile { name, bytes }),
        Err(_) => None,
    }
}

/// Puts a file after the others, where it has content. Whether there was memory.
fn puts(alloc: Global, files: &mut List<MemFile>, name: &str, content: Content) -> bool {
    match file_of(alloc, name, content) {
        Some(file) => files.push(file).is_ok(),
        None => matches!(content, Content::Absent),
    }
}

fn store_of(alloc: Global, stored: Stored) -> Option<MemFiles> {
    let mut files = List::new(alloc);
    if !puts(alloc, &mut files, "m.idl", stored.idl)
        || !puts(alloc, &mut files, "m.srv", stored.scripts)
    {
        return None;
    }
    match Vec::from_slice(alloc, stored.failing) {
        Ok(failing) => Some(MemFiles::new(files, List::from_vec(failing))),
        Err(_) => None,
    }
}

/// What is due: servants, with interfaces and whether they serve them, or a fault.
#[derive(Clone, Copy)]
enum Due {
    Serves(&'static [(&'static str, bool)]),
    Idl(IdlFault),
    Script(ScriptFault),
    Check(CheckFault),
    Object(&'static str),
    Absent(TextRole),
    TooLong(TextRole),
    Unread,
}

/// Whether these servants are due.
fn serves(servants: &Servants, due: Due) -> bool {
    let Due::Serves(interfaces) = due else {
        return false;
    };
    for (interface, want) in interfaces {
        if servants.serves(interface.as_bytes()) != *want {
            return false;
        }
    }
    true
}

/// Whether this fault is due.
fn tells(fault: &ServingFault, due: Due) -> bool {
    match due {
        Due::Serves(_) => false,
        Due::Idl(want) => matches!(fault, ServingFault::Idl(got) if *got == want),
        Due::Script(want) => matches!(fault, ServingFault::Script(got) if *got == want),
        Due::Check(want) => matches!(fault, ServingFault::Check(got) if *got == want),
        Due::Object(path) => {
            matches!(fault, ServingFault::Object(got) if got.path.as_slice() == path.as_bytes())
        }
        Due::Absent(want) => matches!(fault, ServingFault::Absent(got) if *got == want),
        Due::TooLong(want) => matches!(fault, ServingFault::TooLong(got) if *got == want),
        Due::Unread => matches!(fault, ServingFault::ReadFault),
    }
}

/// Whether this comes of a setup over a store.
fn comes(alloc: Global, setup: &Setup, stored: Stored, due: Due) -> bool {
    let Some(mut store) = store_of(alloc, stored) else {
        return false;
    };
    match servants_of(alloc, &mut store, setup) {
        Ok(servants) => serves(&servants, due),
        Err(fault) => tells(&fault, due),
    }
}

/// Whether this comes of a configuration over a store.
fn is_due(alloc: Global, config: &str, stored: Stored, due: Due) -> bool {
    match read_setup(alloc, config.as_bytes()) {
        Ok(setup) => comes(alloc, &setup, stored, due),
        Err(_) => false,
    }
}

const EMPTY: Stored = Stored {
    idl: Content::Absent,
    scripts: Content::Absent,
    failing: &[],
};

/// Whether servants of these interfaces come of the built-in setup, without files.
fn built_in_serves(alloc: Global, interfaces: &'static [(&'static str, bool)]) -> bool {
    match Setup::built_in(alloc) {
        Ok(setup) => comes(alloc, &setup, EMPTY, Due::Serves(interfaces)),
        Err(_) => false,
    }
}

const BUILT_IN: &[(&str, bool)] = &[(PING, true), (V, false)];

#[test]
fn without_files_the_built_in_interface_is_served(rt: HostRuntime) {
    assert!(rt; built_in_serves(rt.alloc(), BUILT_IN));
}

/// Whether this comes of each configuration over a store of both files.
fn all_due(alloc: Global, rows: &[(&'static [u8], &'static [u8], &str, Due)]) -> bool {
    for (idl, scripts, config, due) in rows {
        let stored = Stored {
            idl: Content::Bytes(idl),
            scripts: Content::Bytes(scripts),
            failing: &[],
        };
        if !is_due(alloc, config, stored, *due) {
            return false;
        }
    }
    true
}

/// Texts of interfaces and of scripts, a configuration, and what comes of them.
const SERVED: &[(&[u8], &[u8], &str, Due)] = &[(
    IDL,
    SCRIPT,
    FILED,
    Due::Serves(&[(PING, true), (V, true), (W, false)]),
)];

#[test]
fn scripts_serve_the_interfaces_of_a_file(rt: HostRuntime) {
    assert!(rt; all_due(rt.alloc(), SERVED));
}

const GONE: Due = Due::Idl(IdlFault {
    cause: IdlCause::Unknown,
    line: 2,
    column: 17,
});

const NO_OPERAND: Due = Due::Script(ScriptFault {
    line: 1,
    column: 41,
});

const OTHER_NAME: Due = Due::Check(CheckFault {
    cause: CheckCause::ParameterNames,
    line: 1,
    column: 25,
});

/// The same, with the first fault of each.
const FAULTS: &[(&[u8], &[u8], &str, Due)] = &[
    (BAD_IDL, SCRIPT, FILED, GONE),
    (BAD_IDL, BAD_SCRIPT, FILED, GONE),
    (IDL, BAD_SCRIPT, FILED, NO_OPERAND),
    (IDL, BAD_SCRIPT, UNSERVED, NO_OPERAND),
    (IDL, UNCHECKED, FILED, OTHER_NAME),
    (IDL, UNCHECKED, UNSERVED, OTHER_NAME),
    (IDL, SCRIPT, UNSERVED, Due::Object("object[2].interface")),
    (IDL, b"", FILED, Due::Object("object[1].interface")),
    (IDL, SCRIPT, UNFILED, Due::Object("object[0].interface")),
];

#[test]
fn the_first_fault_is_told(rt: HostRuntime) {
    assert!(rt; all_due(rt.alloc(), FAULTS));
}

/// One byte more than a text may have.
const LONG: Content = Content::Spaces(1_048_577);

/// What is stored for `UNSERVED`: the texts of interfaces and of scripts and the reads that fail, with what is given.
const UNREAD: &[(Content, Content, &[u64], Due)] = &[
    (
        Content::Absent,
        Content::Bytes(SCRIPT),
        &[],
        Due::Absent(TextRole::Idl),
    ),
    (
        Content::Absent,
        Content::Absent,
        &[],
        Due::Absent(TextRole::Idl),
    ),
    (
        Content::Bytes(IDL),
        Content::Absent,
        &[],
        Due::Absent(TextRole::Scripts),
    ),
    (Content::Bytes(BAD_IDL), Content::Absent, &[], GONE),
    (
        LONG,
        Content::Bytes(BAD_SCRIPT),
        &[],
        Due::TooLong(TextRole::Idl),
    ),
    (
        Content::Bytes(IDL),
        LONG,
        &[],
        Due::TooLong(TextRole::Scripts),
    ),
    (Content::Bytes(BAD_IDL), LONG, &[], GONE),
    (
        Content::Bytes(IDL),
        Content::Bytes(SCRIPT),
        &[0],
        Due::Unread,
    ),
    (
        Content::Bytes(IDL),
        Content::Bytes(SCRIPT),
        &[1],
        Due::Unread,
    ),
    // The interfaces are read first, and the scripts aren't read where these are refused.
    (
        Content::Bytes(BAD_IDL),
        Content::Bytes(SCRIPT),
        &[0],
        Due::Unread,
    ),
    (Content::Bytes(BAD_IDL), Content::Bytes(SCRIPT), &[1], GONE),
];

fn all_unread(alloc: Global) -> bool {
    for (idl, scripts, failing, due) in UNREAD {
        let stored = Stored {
            idl: *idl,
            scripts: *scripts,
            failing,
        };
        if !is_due(alloc, UNSERVED, stored, *due) {
            return false;
        }
    }
    true
}

#[test]
fn a_text_that_is_not_read_is_told(rt: HostRuntime) {
    assert!(rt; all_unread(rt.alloc()));
}
