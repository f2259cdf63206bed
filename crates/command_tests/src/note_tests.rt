//! The lines that notes print.

use crate::cause_tests::is_line;
use client_calls::SystemException;
use client_runs::LocalFault;
use config_tables::{ConfigCause, ConfigFault};
use giop_messages::Fault;
use idl_grammar::{IdlCause, IdlFault};
use object_refs::{RefCause, RefFault};
use orb_base::Text;
use orb_command::{Answered, Note, Role, without_words};
use script_checks::{CheckCause, CheckFault};
use script_grammar::ScriptFault;
use std::alloc::Global;
use std::io;

/// A note that holds no text.
#[derive(Clone, Copy)]
enum Plain {
    Nothing,
    Usage,
    ReadFault,
    WriteFault,
    NetFault,
    Memory,
    Limit,
    Forward(u32),
    Peer(u64, Fault),
    PeerBody,
    Closed,
    Local(LocalFault),
    TooLong(Role),
    Absent(Role),
    Input(u64, Fault),
    Reference(RefFault),
    Script(ScriptFault),
    Check(CheckFault),
    Idl(IdlFault),
    Trace(u64),
    Audit(u32, u32),
}

const LINES: &[(Plain, &str)] = &[
    (Plain::Nothing, ""),
    (Plain::Usage, "usage"),
    (Plain::ReadFault, "read fault"),
    (Plain::WriteFault, "write fault"),
    (Plain::NetFault, "network fault"),
    (Plain::Input(0, Fault::Cut), "input: offset 0: Cut"),
    (
        Plain::Input(4_294_967_296, Fault::BadStatus),
        "input: offset 4294967296: BadStatus",
    ),
    (
        Plain::Reference(RefFault {
            cause: RefCause::OddHex,
            place: 215,
        }),
        "reference: 215: OddHex",
    ),
    (Plain::TooLong(Role::Config), "refused: config: TooLong"),
    (Plain::Absent(Role::Config), "absent: config"),
    (Plain::TooLong(Role::Idl), "refused: idl: TooLong"),
    (Plain::Absent(Role::Idl), "absent: idl"),
    (Plain::Absent(Role::Scripts), "absent: scripts"),
    (
        Plain::Script(ScriptFault { line: 1, column: 9 }),
        "refused: scripts: 1:9: Expected",
    ),
    (
        Plain::Check(CheckFault {
            cause: CheckCause::NotSettable,
            line: 2,
            column: 7,
        }),
        "refused: scripts: 2:7: NotSettable",
    ),
    (
        Plain::Idl(IdlFault {
            cause: IdlCause::Clash,
            line: 1,
            column: 8,
        }),
        "refused: idl: 1:8: Clash",
    ),
    (Plain::Trace(168), "trace: offset 168"),
    (Plain::Trace(4_294_967_296), "trace: offset 4294967296"),
    (Plain::Audit(0, 1), "audit: run 0 entry 1"),
    (
        Plain::Audit(2, 4_294_967_295),
        "audit: run 2 entry 4294967295",
    ),
    (Plain::Memory, "memory"),
    (Plain::Limit, "limit"),
    (Plain::Forward(3), "remote: status 3"),
    (
        Plain::Peer(12, Fault::WrongWay),
        "peer: offset 12: WrongWay",
    ),
    (Plain::PeerBody, "peer: body"),
    (Plain::Closed, "closed"),
    (
        Plain::Local(LocalFault::BadReference),
        "local: BadReference",
    ),
    (Plain::Local(LocalFault::NoInterface), "local: NoInterface"),
    (Plain::Local(LocalFault::NoOperation), "local: NoOperation"),
    (
        Plain::Local(LocalFault::BadArguments),
        "local: BadArguments",
    ),
    (Plain::Local(LocalFault::NoBand), "local: NoBand"),
    (Plain::Local(LocalFault::SharedBand), "local: SharedBand"),
];

fn note_of(plain: Plain) -> Note {
    match plain {
        Plain::Nothing => Note::Nothing,
        Plain::Usage => Note::Usage,
        Plain::ReadFault => Note::ReadFault,
        Plain::WriteFault => Note::WriteFault,
        Plain::NetFault => Note::NetFault,
        Plain::Memory => Note::Memory,
        Plain::Limit => Note::Limit,
        Plain::Forward(status) => Note::Forward(status),
        Plain::Peer(offset, fault) => Note::Peer(offset, fault),
        Plain::PeerBody => Note::PeerBody,
        Plain::Closed => Note::Closed,
        Plain::Local(fault) => Note::Local(fault),
        Plain::TooLong(role) => Note::TooLong(role),
        Plain::Absent(role) => Note::Absent(role),
        Plain::Input(offset, fault) => Note::Input(offset, fault),
        Plain::Reference(fault) => Note::Reference(fault),
        Plain::Script(fault) => Note::Script(fault),
        Plain::Check(fault) => Note::Check(fault),
        Plain::Idl(fault) => Note::Idl(fault),
        Plain::Trace(offset) => Note::Trace(offset),
        Plain::Audit(run, entry) => Note::Audit(run, entry),
    }
}

fn is_printed(alloc: Global, plain: Plain, line: &str) -> bool {
    let note = note_of(plain);
    is_line(alloc, &note, line, "")
}

fn all_are_printed(alloc: Global) -> bool {
    for (plain, line) in LINES {
        if !is_printed(alloc, *plain, line) {
            return false;
        }
    }
    true
}

#[test]
fn each_note_has_its_line(rt: HostRuntime) {
    assert!(rt; all_are_printed(rt.alloc()));
}

/// A system exception with its numbers, and an exception of an IDL file by its id alone, in which a blank is shown as `%20`.
fn exceptions_are_printed(alloc: Global) -> bool {
    let (Ok(system), Ok(user)) = (
        Text::new(alloc, b"IDL:omg.org/CORBA/TRANSIENT:1.0"),
        Text::new(alloc, b"IDL:Plant/Out Of Range:1.0"),
    ) else {
        return false;
    };
    let system = Note::System(SystemException {
        id: system,
        minor: 4_294_967_295,
        completed: 1,
    });
    let user = Note::User(user);
    is_line(
        alloc,
        &system,
        "remote: IDL:omg.org/CORBA/TRANSIENT:1.0 minor 4294967295 completed 1",
        "",
    ) && is_line(alloc, &user, "remote: IDL:Plant/Out%20Of%20Range:1.0", "")
}

#[test]
fn an_exception_of_the_peer_has_its_line(rt: HostRuntime) {
    assert!(rt; exceptions_are_printed(rt.alloc()));
}

/// The path and the cause of a refused configuration, and its line.
const PATHS: &[(&[u8], ConfigCause, &str)] = &[
    (
        b"pool.lanes[1].priority",
        ConfigCause::LaneOrder,
        "refused: config: pool.lanes[1].priority: LaneOrder",
    ),
    (b"", ConfigCause::NotToml, "refused: config: : NotToml"),
    (
        b"a b",
        ConfigCause::UnknownKey,
        "refused: config: a%20b: UnknownKey",
    ),
];

fn has_its_path(alloc: Global, path: &[u8], cause: ConfigCause, line: &str) -> bool {
    match Text::new(alloc, path) {
        Ok(path) => {
            let note = Note::Config(ConfigFault { cause, path });
            is_line(alloc, &note, line, "")
        }
        Err(_) => false,
    }
}

fn all_have_their_paths(alloc: Global) -> bool {
    for (path, cause, line) in PATHS {
        if !has_its_path(alloc, path, *cause, line) {
            return false;
        }
    }
    true
}

#[test]
fn a_refused_configuration_has_its_path(rt: HostRuntime) {
    assert!(rt; all_have_their_paths(rt.alloc()));
}

/// Why the words of the command line can't be had, and the status and the line of that.
const WORDLESS: &[(io::ErrorKind, u8, &str)] = &[
    (io::ErrorKind::OutOfMemory, 12, "memory"),
    (io::ErrorKind::InvalidData, 1, "usage"),
];

fn ends_so(alloc: Global, kind: io::ErrorKind, status: u8, line: &str) -> bool {
    let fault = io::Error::from(kind);
    let answered: Answered<(), (), ()> = without_words(alloc, &fault);
    answered.status == status && is_line(alloc, &answered.note, line, "")
}

fn all_end_so(alloc: Global) -> bool {
    for (kind, status, line) in WORDLESS {
        if !ends_so(alloc, *kind, *status, line) {
            return false;
        }
    }
    true
}

#[test]
fn words_that_cannot_be_had_have_their_status(rt: HostRuntime) {
    assert!(rt; all_end_so(rt.alloc()));
}
