//! `orb pipe --config` and `orb refs --at` over memory, by interfaces and scripts that the configuration names: what the servants of a
//! script answer, and each fault of the two texts with its place. Lines and columns were counted by hand.

use super::at_tests::FILED;
use super::rows::{EMPTY, Left, Row, first_wrong, holds};
use std::alloc::Global;
use std::sync::Wait;
use std::thread::Threads;

const IDL: &[u8] =
    b"module M {\n  exception Low { short least; };\n  interface V { short limited(in short wish, out boolean cut) raises (Low); };\n};\n";

const SCRIPT: &[u8] =
    b"servant M::V {\n  op limited(wish, cut) {\n    if wish < 0 { raise M::Low { least = 0 }; }\n    set cut = wish > 100;\n    if wish > 100 { return 100; }\n    return wish;\n  }\n}\n";

/// The type of the result isn't declared.
const BAD_IDL: &[u8] = b"module M {\n  interface V { Gone limited(in short wish); };\n};\n";

/// An operand is missing before the `;`.
const BAD_SCRIPT: &[u8] = b"servant M::V {\n  op limited(wish, cut) { return wish * ; }\n}\n";

/// The first parameter has another name than in the IDL.
const UNCHECKED: &[u8] = b"servant M::V {\n  op limited(hope, cut) { return hope; }\n}\n";

/// No servant for the interface of the configuration's object.
const NO_SERVANT: &[u8] = b"";

/// Requests of `v` of ids 1 to 4: `limited` of 150 and of -1, with a body of one byte, and `gone`.
const ASKED: &[u8] =
    b"GIOP\x01\x02\0\0\0\0\0\x26\0\0\0\x01\x03\0\0\0\0\0\0\0\0\0\0\x01v\0\0\0\0\0\0\x08limited\0\0\0\0\0\0\x96GIOP\x01\x02\0\0\0\0\0\x26\0\0\0\x02\x03\0\0\0\0\0\0\0\0\0\0\x01v\0\0\0\0\0\0\x08limited\0\0\0\0\0\xff\xffGIOP\x01\x02\0\0\0\0\0\x25\0\0\0\x03\x03\0\0\0\0\0\0\0\0\0\0\x01v\0\0\0\0\0\0\x08limited\0\0\0\0\0\0GIOP\x01\x02\0\0\0\0\0\x24\0\0\0\x04\x03\0\0\0\0\0\0\0\0\0\0\x01v\0\0\0\0\0\0\x05gone\0\0\0\0\0\0\0\0";

/// The replies: 100, cut; the exception with 0; MARSHAL and BAD_OPERATION, each of minor 1, completed NO.
const ANSWERED: &[u8] =
    b"GIOP\x01\x02\0\x01\0\0\0\x0f\0\0\0\x01\0\0\0\0\0\0\0\0\0\x64\x01GIOP\x01\x02\0\x01\0\0\0\x20\0\0\0\x02\0\0\0\x01\0\0\0\0\0\0\0\x0eIDL:M/Low:1.0\0\0\0GIOP\x01\x02\0\x01\0\0\0\x38\0\0\0\x03\0\0\0\x02\0\0\0\0\0\0\0\x1eIDL:omg.org/CORBA/MARSHAL:1.0\0\0\0\0\0\0\x01\0\0\0\x01GIOP\x01\x02\0\x01\0\0\0\x3c\0\0\0\x04\0\0\0\x02\0\0\0\0\0\0\0\x24IDL:omg.org/CORBA/BAD_OPERATION:1.0\0\0\0\0\x01\0\0\0\x01";

/// The line of `v` at 127.0.0.1:2809, under SERVER_DECLARED at 1, worked by hand.
const V: &[u8] =
    b"v IOR:000000000000000c49444c3a4d2f563a312e3000000000010000000000000042000102000000000a3132372e302e302e31000af9000000017600000000000001000000020000001a0000000000000001000000280000000a00000000000000010001\n";

const PIPE: &[&str] = &["pipe", "--config", "c"];

const REFS: &[&str] = &["refs", "--at", "127.0.0.1:2809", "--config", "c"];

/// The pipe by the configuration `c` and the two texts that it names.
const SERVED: Row<'static> = Row {
    words: PIPE,
    files: &[("c", FILED), ("m.idl", IDL), ("m.srv", SCRIPT)],
    input: ASKED,
    ..EMPTY
};

const ANSWERS: &[Row<'static>] = &[
    Row {
        story: "replies of a script",
        output: ANSWERED,
        ..SERVED
    },
    Row {
        story: "the reference of an object of a script",
        words: REFS,
        output: V,
        ..SERVED
    },
];

/// The same where nothing is piped.
const UNPIPED: Row<'static> = Row {
    left: Left::NoPipe,
    ..SERVED
};

/// Each fault of the files, of the interfaces, of the scripts and of their check.
const FAULTS: &[Row<'static>] = &[
    Row {
        story: "IDL that isn't there",
        files: &[("c", FILED), ("m.srv", SCRIPT)],
        status: 10,
        note: "Absent(Idl)",
        ..UNPIPED
    },
    Row {
        story: "scripts that aren't there",
        files: &[("c", FILED), ("m.idl", IDL)],
        status: 10,
        note: "Absent(Scripts)",
        ..UNPIPED
    },
    Row {
        story: "a type that isn't declared",
        files: &[("c", FILED), ("m.idl", BAD_IDL)],
        status: 2,
        note: "Idl(IdlFault { cause: Unknown, line: 2, column: 17 })",
        ..UNPIPED
    },
    Row {
        story: "an operand that is missing",
        files: &[("c", FILED), ("m.idl", IDL), ("m.srv", BAD_SCRIPT)],
        status: 2,
        note: "Script(ScriptFault { line: 2, column: 41 })",
        ..UNPIPED
    },
    Row {
        story: "a parameter of another name",
        files: &[("c", FILED), ("m.idl", IDL), ("m.srv", UNCHECKED)],
        status: 2,
        note: "Check(CheckFault { cause: ParameterNames, line: 2, column: 14 })",
        ..UNPIPED
    },
];

/// The store fails at each of the three files in its turn, and an object has no servant.
const UNSERVED: &[Row<'static>] = &[
    Row {
        story: "a configuration that can't be read",
        failed_files: &[0],
        status: 3,
        note: "ReadFault",
        ..SERVED
    },
    Row {
        story: "IDL that can't be read",
        failed_files: &[1],
        status: 3,
        note: "ReadFault",
        ..SERVED
    },
    Row {
        story: "scripts that can't be read",
        failed_files: &[2],
        status: 3,
        note: "ReadFault",
        ..SERVED
    },
    Row {
        story: "an object without a servant",
        files: &[("c", FILED), ("m.idl", IDL), ("m.srv", NO_SERVANT)],
        status: 2,
        note: "Config(UnknownInterface at object[0].interface)",
        ..SERVED
    },
];

/// The story of the first of these rows that doesn't hold by the words of `refs`, or nothing.
fn first_wrong_of_refs<R: Wait + Threads + Sync>(
    rt: &R,
    alloc: Global,
    rows: &[Row<'static>],
) -> &'static str {
    for row in rows {
        let of_refs = Row {
            words: REFS,
            ..*row
        };
        if !holds(rt, alloc, &of_refs) {
            return row.story;
        }
    }
    ""
}

/// Of both commands each fault of a text is given, and nothing runs or is written then.
#[test]
fn servants_of_scripts_answer_and_texts_have_their_faults(rt: HostRuntime) {
    assert_eq!(rt; first_wrong(&rt, rt.alloc(), ANSWERS), "");
    assert_eq!(rt; first_wrong(&rt, rt.alloc(), UNSERVED), "");
    assert_eq!(rt; first_wrong(&rt, rt.alloc(), FAULTS), "");
    assert_eq!(rt; first_wrong_of_refs(&rt, rt.alloc(), FAULTS), "");
}
