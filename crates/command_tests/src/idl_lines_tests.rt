//! Listings over memory: of the built-in module, and of texts in files.

use crate::text_streams_tests::devices::{sink, store};
use idl_grammar::{IdlCause, IdlFault};
use idl_lines::*;
use idl_types::Repository;
use orb_base::{MemFiles, MemSink, Text};
use std::alloc::Global;
use text_streams::WriteAll;

/// The listing of the built-in module.
const BUILT_IN: &[u8] =
    b"interface IDL:Orb/Ping:1.0\nop current in 0 out 0 raises 0\nop echo in 1 out 0 raises 0\nop note in 0 out 0 raises 0\n";

/// Whether a repository's listing comes to this, and the sink holds these bytes then.
fn is_listed(
    alloc: Global,
    repository: &Repository,
    out: &mut MemSink,
    came: WriteAll,
    held: &[u8],
) -> bool {
    match write_listing(alloc, out, repository) {
        Ok(written) => written == came && out.held() == held,
        Err(_) => false,
    }
}

/// The same of the built-in module.
fn lists_built_in(alloc: Global, out: &mut MemSink, came: WriteAll, held: &[u8]) -> bool {
    match Repository::new(alloc).with_ping() {
        Ok(built_in) => is_listed(alloc, &built_in, out, came, held),
        Err(_) => false,
    }
}

fn lists_nothing(alloc: Global, out: &mut MemSink) -> bool {
    is_listed(alloc, &Repository::new(alloc), out, WriteAll::Whole, b"")
}

/// The listings of an empty repository, and then of the built-in module.
fn lists_whole(alloc: Global) -> bool {
    match sink(alloc, &[], &[]) {
        Ok(mut out) => {
            lists_nothing(alloc, &mut out)
                && lists_built_in(alloc, &mut out, WriteAll::Whole, BUILT_IN)
        }
        Err(_) => false,
    }
}

#[test]
fn a_repository_has_its_listing(rt: HostRuntime) {
    assert!(rt; lists_whole(rt.alloc()));
}

fn lists_a_front(alloc: Global) -> bool {
    match sink(alloc, &[9], &[1]) {
        Ok(mut out) => lists_built_in(alloc, &mut out, WriteAll::Failed, b"interface"),
        Err(_) => false,
    }
}

#[test]
fn a_write_that_fails_leaves_a_front(rt: HostRuntime) {
    assert!(rt; lists_a_front(rt.alloc()));
}

/// A run over a store with the file `f`, and what comes of it.
struct Row {
    /// The name of the file that is listed.
    name: &'static [u8],
    /// The text of the file `f`.
    text: &'static str,
    /// How many blanks are after it.
    blanks: usize,
    /// The reads of files that fail.
    failed_reads: &'static [u64],
    writes: &'static [usize],
    failed_writes: &'static [u64],
    end: IdlEnd,
    output: &'static str,
}

/// An empty file, over devices that cut nothing and never fail.
const PLAIN: Row = Row {
    name: b"f",
    text: "",
    blanks: 0,
    failed_reads: &[],
    writes: &[],
    failed_writes: &[],
    end: IdlEnd::Done,
    output: "",
};

/// Whether a run over these files comes out, and writes, as a row says.
fn runs(alloc: Global, files: &mut MemFiles, name: &Text, row: &Row) -> bool {
    match sink(alloc, row.writes, row.failed_writes) {
        Ok(mut out) => {
            idl_run(alloc, files, name, &mut out) == row.end && out.held() == row.output.as_bytes()
        }
        Err(_) => false,
    }
}

fn holds(alloc: Global, row: &Row) -> bool {
    let Ok(name) = Text::new(alloc, row.name) else {
        return false;
    };
    match store(
        alloc,
        &[("f", row.text.as_bytes())],
        row.blanks,
        row.failed_reads,
    ) {
        Ok(mut files) => runs(alloc, &mut files, &name, row),
        Err(_) => false,
    }
}

fn all_hold(alloc: Global, rows: &[Row]) -> bool {
    for row in rows {
        if !holds(alloc, row) {
            return false;
        }
    }
    true
}

const THINGS: &[Row] = &[
    Row {
        text: "",
        output: "",
        ..PLAIN
    },
    Row {
        text: "const long C = 1;",
        output: "const IDL:C:1.0\n",
        ..PLAIN
    },
    Row {
        text: "typedef long T;",
        output: "type IDL:T:1.0\n",
        ..PLAIN
    },
    Row {
        text: "enum E { a, b };",
        output: "type IDL:E:1.0\n",
        ..PLAIN
    },
    Row {
        text: "struct S { long a; };",
        output: "type IDL:S:1.0\n",
        ..PLAIN
    },
    Row {
        text: "exception X { long a; };",
        output: "exception IDL:X:1.0\n",
        ..PLAIN
    },
    Row {
        text: "interface I {};",
        output: "interface IDL:I:1.0\n",
        ..PLAIN
    },
    Row {
        text: "module M { const long C = 1; };",
        output: "const IDL:M/C:1.0\n",
        ..PLAIN
    },
];

#[test]
fn each_kind_of_thing_has_its_word(rt: HostRuntime) {
    assert!(rt; all_hold(rt.alloc(), THINGS));
}

const OPERATIONS: &[Row] = &[
    Row {
        text: "module M { interface V { long twice(in long x); }; };",
        output: "interface IDL:M/V:1.0\nop twice in 1 out 0 raises 0\n",
        ..PLAIN
    },
    Row {
        text: "interface V { void f(inout long x, out long y); };",
        output: "interface IDL:V:1.0\nop f in 1 out 2 raises 0\n",
        ..PLAIN
    },
    Row {
        text: "exception X {}; interface V { oneway void f(); void g() raises (X); };",
        output: "exception IDL:X:1.0\ninterface IDL:V:1.0\nop f in 0 out 0 raises 0\nop g in 0 out 0 raises 1\n",
        ..PLAIN
    },
    Row {
        text: "interface V { attribute long a; readonly attribute long b; };",
        output: "interface IDL:V:1.0\nop _get_a in 0 out 0 raises 0\nop _set_a in 1 out 0 raises 0\nop _get_b in 0 out 0 raises 0\n",
        ..PLAIN
    },
];

#[test]
fn each_operation_has_its_counts(rt: HostRuntime) {
    assert!(rt; all_hold(rt.alloc(), OPERATIONS));
}

const INHERITED: &[Row] = &[Row {
    text: "interface A { void f(); }; interface B : A { void g(); };",
    output: "interface IDL:A:1.0\nop f in 0 out 0 raises 0\ninterface IDL:B:1.0\nop f in 0 out 0 raises 0\nop g in 0 out 0 raises 0\n",
    ..PLAIN
}];

#[test]
fn inherited_operations_come_first(rt: HostRuntime) {
    assert!(rt; all_hold(rt.alloc(), INHERITED));
}

const REFUSED: &[Row] = &[
    Row {
        text: "const long C = 1;\n  long x;",
        end: IdlEnd::Refused(IdlFault {
            cause: IdlCause::Expected,
            line: 2,
            column: 3,
        }),
        ..PLAIN
    },
    Row {
        text: "typedef T U; const long C = c;",
        end: IdlEnd::Refused(IdlFault {
            cause: IdlCause::Unknown,
            line: 1,
            column: 9,
        }),
        ..PLAIN
    },
    Row {
        text: "module Orb { const long x = 1; };",
        end: IdlEnd::Refused(IdlFault {
            cause: IdlCause::Clash,
            line: 1,
            column: 8,
        }),
        ..PLAIN
    },
];

#[test]
fn the_first_fault_is_told_with_its_place(rt: HostRuntime) {
    assert!(rt; all_hold(rt.alloc(), REFUSED));
}

const UNREAD: &[Row] = &[
    Row {
        name: b"g",
        end: IdlEnd::Absent,
        ..PLAIN
    },
    Row {
        failed_reads: &[0],
        end: IdlEnd::ReadFault,
        ..PLAIN
    },
    Row {
        blanks: 1_048_577,
        end: IdlEnd::TooLong,
        ..PLAIN
    },
];

#[test]
fn a_file_that_is_not_read_is_told(rt: HostRuntime) {
    assert!(rt; all_hold(rt.alloc(), UNREAD));
}

const UNWRITTEN: &[Row] = &[Row {
    text: "const long C = 1;",
    writes: &[5],
    failed_writes: &[1],
    end: IdlEnd::WriteFault,
    output: "const",
    ..PLAIN
}];

#[test]
fn a_listing_that_fails_leaves_a_front(rt: HostRuntime) {
    assert!(rt; all_hold(rt.alloc(), UNWRITTEN));
}
