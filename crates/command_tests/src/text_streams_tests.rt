//! Whole reads and writes over memory, and octets as they are shown.

pub mod devices;

use self::devices::{list, sink, source};
use orb_base::{CountingSink, MemSource};
use std::alloc::Global;
use text_streams::*;

/// What a whole read came to.
#[derive(Clone, Copy)]
enum Came {
    /// These bytes.
    Whole(&'static [u8]),
    TooLong,
    Failed,
}

/// Whole reads of an input whose reads are cut and fail as said, each of them of so many bytes at most.
struct Reads {
    input: &'static [u8],
    cuts: &'static [usize],
    failed: &'static [u64],
    came: &'static [(usize, Came)],
}

const READS: &[Reads] = &[
    Reads {
        input: b"GIOP",
        cuts: &[],
        failed: &[],
        came: &[(4, Came::Whole(b"GIOP"))],
    },
    Reads {
        input: b"GIOP",
        cuts: &[1, 2],
        failed: &[],
        came: &[(4, Came::Whole(b"GIOP"))],
    },
    Reads {
        input: b"GIOP",
        cuts: &[3],
        failed: &[],
        came: &[(9, Came::Whole(b"GIOP"))],
    },
    Reads {
        input: b"",
        cuts: &[],
        failed: &[],
        came: &[(0, Came::Whole(b""))],
    },
    Reads {
        input: b"GIOP",
        cuts: &[],
        failed: &[],
        came: &[(3, Came::TooLong)],
    },
    Reads {
        input: b"G",
        cuts: &[],
        failed: &[],
        came: &[(0, Came::TooLong)],
    },
    Reads {
        input: b"GIOP",
        cuts: &[2],
        failed: &[1],
        came: &[(4, Came::Failed)],
    },
    Reads {
        input: b"GIOP",
        cuts: &[],
        failed: &[0],
        came: &[(4, Came::Failed)],
    },
];

/// Whether a whole read came to this.
fn comes_to(read: &ReadAll, came: Came) -> bool {
    match read {
        ReadAll::Whole(bytes) => matches!(came, Came::Whole(want) if bytes.as_slice() == want),
        ReadAll::TooLong => matches!(came, Came::TooLong),
        ReadAll::Failed(_) => matches!(came, Came::Failed),
        ReadAll::NoMemory => false,
    }
}

fn reads_on(alloc: Global, source: &mut MemSource, came: &[(usize, Came)]) -> bool {
    for (limit, came) in came {
        if !comes_to(&read_all(alloc, *limit, source), *came) {
            return false;
        }
    }
    true
}

fn is_read(alloc: Global, row: &Reads) -> bool {
    let Ok(input) = list(alloc, row.input) else {
        return false;
    };
    match source(alloc, input, row.cuts, row.failed) {
        Ok(mut source) => reads_on(alloc, &mut source, row.came),
        Err(_) => false,
    }
}

fn all_read(alloc: Global, rows: &[Reads]) -> bool {
    for row in rows {
        if !is_read(alloc, row) {
            return false;
        }
    }
    true
}

#[test]
fn an_input_is_read_to_its_end(rt: HostRuntime) {
    assert!(rt; all_read(rt.alloc(), READS));
}

const READ_ON: &[Reads] = &[Reads {
    input: b"corbaloc",
    cuts: &[],
    failed: &[],
    came: &[(5, Came::TooLong), (5, Came::Whole(b"oc"))],
}];

/// One more byte than the limit is taken, and no more.
#[test]
fn one_byte_more_is_taken(rt: HostRuntime) {
    assert!(rt; all_read(rt.alloc(), READ_ON));
}

/// A whole write to a sink whose writes are cut and fail as said, and what the sink holds then.
struct Write {
    bytes: &'static [u8],
    cuts: &'static [usize],
    failed: &'static [u64],
    came: WriteAll,
    held: &'static [u8],
}

const WRITES: &[Write] = &[
    Write {
        bytes: b"reply",
        cuts: &[],
        failed: &[],
        came: WriteAll::Whole,
        held: b"reply",
    },
    Write {
        bytes: b"reply",
        cuts: &[1, 2, 1],
        failed: &[],
        came: WriteAll::Whole,
        held: b"reply",
    },
    Write {
        bytes: b"reply",
        cuts: &[],
        failed: &[0],
        came: WriteAll::Failed,
        held: b"",
    },
    Write {
        bytes: b"reply",
        cuts: &[2, 1],
        failed: &[2],
        came: WriteAll::Failed,
        held: b"rep",
    },
];

fn is_written(alloc: Global, row: &Write) -> bool {
    match sink(alloc, row.cuts, row.failed) {
        Ok(mut sink) => write_all(&mut sink, row.bytes) == row.came && sink.held() == row.held,
        Err(_) => false,
    }
}

fn all_written(alloc: Global, rows: &[Write]) -> bool {
    for row in rows {
        if !is_written(alloc, row) {
            return false;
        }
    }
    true
}

#[test]
fn all_bytes_are_written(rt: HostRuntime) {
    assert!(rt; all_written(rt.alloc(), WRITES));
}

const NO_BYTE: &[Write] = &[Write {
    bytes: b"",
    cuts: &[],
    failed: &[0],
    came: WriteAll::Whole,
    held: b"",
}];

fn counts_its_bytes() -> bool {
    let mut counting = CountingSink::new();
    write_all(&mut counting, b"seven..") == WriteAll::Whole && counting.bytes() == 7
}

#[test]
fn no_byte_is_no_write(rt: HostRuntime) {
    assert!(rt; all_written(rt.alloc(), NO_BYTE));
    assert!(rt; counts_its_bytes());
}

/// Octets, and the text that they are shown as.
const SHOWN: &[(&[u8], &str)] = &[
    (b"", ""),
    (b"ping", "ping"),
    (b"!~/:+", "!~/:+"),
    (b"a b%", "a%20b%25"),
    (b"\0\n\x1f\x7f", "%00%0A%1F%7F"),
    (b"\x80\xaf\xff", "%80%AF%FF"),
];

fn is_shown(alloc: Global, octets: &[u8], text: &str) -> bool {
    match shown(octets).to_string(alloc) {
        Ok(shown) => shown.as_str() == text,
        Err(_) => false,
    }
}

fn all_shown(alloc: Global, rows: &[(&[u8], &str)]) -> bool {
    for (octets, text) in rows {
        if !is_shown(alloc, octets, text) {
            return false;
        }
    }
    true
}

#[test]
fn octets_that_are_not_plain_are_escaped(rt: HostRuntime) {
    assert!(rt; all_shown(rt.alloc(), SHOWN));
}
