//! Texts of runs by hand, read.

use orb_base::Octets;
use std::alloc::Global;
use trace_runs::*;

/// The trace of one ping through a pipe, of 167 bytes.
const PING: &[u8] =
    b"pool 0 0 0 0 0 65536 67108864 1 128\nlane 0 1 0\n0 offer 0.0 0 1 2 100 0 48 run 0\n0 take 0 0\n0 finish 0 0 2\n0 collect 0.0 answered 0\n0 end 0.0 quiet\n0 leave 0\nentries 6\n";

/// Its summary, of 59 bytes.
const SUMMARY: &[u8] = b"calls 1 run 1 lent 0 kept 0 full 0 removed 0 connections 1\n";

/// Two texts, one after the other.
fn joined(alloc: Global, first: &[u8], second: &[u8]) -> Option<Octets> {
    let mut text = Octets::new(alloc);
    if text.append(first).is_err() || text.append(second).is_err() {
        return None;
    }
    Some(text)
}

/// Whether a run with so many entries is read, with or without its summary, from so many bytes.
fn is_run(
    alloc: Global,
    first: &[u8],
    second: &[u8],
    entries: usize,
    summed: bool,
    bytes: usize,
) -> bool {
    let Some(text) = joined(alloc, first, second) else {
        return false;
    };
    match read_run(alloc, text.as_slice()) {
        Ok(RunRead::Run { run, len }) => {
            run.lines.len() == entries && run.summed == summed && len == bytes
        }
        _ => false,
    }
}

#[test]
fn a_run_is_read_with_its_summary_or_without(rt: HostRuntime) {
    assert!(rt;
        is_run(rt.alloc(), PING, b"", 6, false, 167)
            && is_run(rt.alloc(), PING, SUMMARY, 6, true, 226)
            && is_run(rt.alloc(), PING, PING, 6, false, 167)
            && is_run(rt.alloc(), PING, b"calls 2", 6, false, 167)
    );
}

/// Whether the first line at fault begins at this offset.
fn is_at_fault(alloc: Global, text: &[u8], offset: usize) -> bool {
    match read_run(alloc, text) {
        Ok(RunRead::AtFault(at)) => at == offset,
        _ => false,
    }
}

/// Texts with the offset of the first line at fault.
const FAULTS: &[(&[u8], usize)] = &[
    (b"\n", 0),
    (b"lane 0 1 0\n", 0),
    (b"pool 0 1 0 0 0 65536 67108864 1 128\n", 0),
    (b"pool 0 0 0 1 0 65536 67108864 1 128\n", 0),
    (b"pool 0 0 0 0 0 65536 67108864 1 129\n", 0),
    (b"pool 0 0 0 0 0 65536 67108864 0 128\n", 0),
    (b"pool 0 0 0 0 0 65536 67108864 1 128\nentries 0\n", 36),
    (b"pool 0 0 0 0 0 65536 67108864 1 128\n0 leave 0\n", 36),
    (b"pool 0 0 0 0 0 65536 67108864 1 128\nlane 0 0 0\n", 36),
    (b"pool 0 0 0 0 0 65536 67108864 1 128\nlane 0 65 0\n", 36),
    (
        b"pool 0 0 0 0 0 65536 67108864 1 128\nlane 0 1 0\nlane 1 1 0\n",
        47,
    ),
    (
        b"pool 1 0 0 0 0 65536 67108864 1 128\nlane 5 1 0\nlane 5 1 0\n",
        47,
    ),
    (
        b"pool 0 0 0 0 0 65536 67108864 1 128\nlane 0 1 0\n0 leave 1\n",
        47,
    ),
    (
        b"pool 0 0 0 0 0 65536 67108864 1 128\nlane 0 1 0\n0 take 1 ended\n",
        47,
    ),
    (
        b"pool 0 0 0 0 0 65536 67108864 1 128\nlane 0 1 0\n0 end 0.128 quiet\n",
        47,
    ),
    (
        b"pool 0 0 0 0 0 65536 67108864 1 128\nlane 0 1 0\nentries 1\n",
        47,
    ),
    (
        b"pool 0 0 0 0 0 65536 67108864 1 128\nlane 0 1 0\n0 leave 00\n",
        47,
    ),
];

#[test]
fn the_first_line_at_fault_is_told(rt: HostRuntime) {
    assert!(rt;
        FAULTS
            .iter()
            .all(|row| is_at_fault(rt.alloc(), row.0, row.1))
    );
}

/// Whether lines are lacking from this offset on.
fn is_lacking(alloc: Global, text: &[u8], offset: usize) -> bool {
    match read_run(alloc, text) {
        Ok(RunRead::Lacking(at)) => at == offset,
        _ => false,
    }
}

#[test]
fn lines_that_are_lacking_are_told(rt: HostRuntime) {
    let (short, _) = PING.split_at(157);
    let (cut, _) = PING.split_at(166);
    assert!(rt;
        is_lacking(rt.alloc(), short, 157)
            && is_lacking(rt.alloc(), cut, 157)
            && is_lacking(rt.alloc(), b"x", 0)
    );
}

#[test]
fn an_empty_text_has_nothing(rt: HostRuntime) {
    assert!(rt; matches!(read_run(rt.alloc(), b""), Ok(RunRead::Nothing)));
}
