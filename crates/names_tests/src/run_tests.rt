//! Runs of a name service over memory: what each connection wrote, and the line of the run.
ghost use Rattle.std.specs.Prelude.{IfSome};
ghost use Rattle.orb_base.specs.Outside.{IsNewSource, IsNewSink};

use crate::messages::*;
use adapter_policies::{Setup, read_setup};
use link_slots::SlotEnd;
use names_runs::{NamesRun, WroteLine, names_run, write_line};
use orb_base::{List, MemAcceptor, MemLink, MemSink, MemSource, Octets, Sink, Source};
use std::alloc::Global;
use std::collections::LinkedList;
use std::sync::Wait;
use std::test::*;
use std::thread::Threads;

/// The inputs of the links of the four slots, what the connections write, in order of the slots, and the line.
struct Row {
    inputs: [&'static [&'static [u8]]; 4],
    outputs: &'static [&'static [&'static [u8]]],
    line: &'static [u8],
}

const K256: &[u8] = &[b'k'; 256];

const K257: &[u8] = &[b'k'; 257];

const K300: &[u8] = &[b'k'; 300];

const K4096: &[u8] = &[b'k'; 4096];

const K4097: &[u8] = &[b'k'; 4097];

/// One connection binds, resolves, binds again, takes out what isn't there, and asks for the first key.
const STORY: &[Row] = &[Row {
    inputs: [
        &[
            FOURTEEN_1, BIND, A_X, SIX_2, RESOLVE, A, FOURTEEN_3, BIND, A_Y, SIX_4, UNBIND, B,
            FIVE_5, NEXT, EMPTY,
        ],
        &[],
        &[],
        &[],
    ],
    outputs: &[&[BARE_1, X_2, BOUND_3, NOT_FOUND_4, A_5], &[], &[], &[]],
    line: b"names 1 calls 5 connections 4\n",
}];

/// Four slots at once, each with a key of its own, which it takes out at last.
const AT_ONCE: &[Row] = &[Row {
    inputs: [
        &[FOURTEEN_1, BIND, A_X, SIX_2, RESOLVE, A, SIX_3, UNBIND, A],
        &[FOURTEEN_1, BIND, B_X, SIX_2, RESOLVE, B, SIX_3, UNBIND, B],
        &[FOURTEEN_1, BIND, C_X, SIX_2, RESOLVE, C, SIX_3, UNBIND, C],
        &[FOURTEEN_1, BIND, D_X, SIX_2, RESOLVE, D, SIX_3, UNBIND, D],
    ],
    outputs: &[
        &[BARE_1, X_2, BARE_3],
        &[BARE_1, X_2, BARE_3],
        &[BARE_1, X_2, BARE_3],
        &[BARE_1, X_2, BARE_3],
    ],
    line: b"names 0 calls 12 connections 4\n",
}];

/// Keys of 0, 256 and 257 bytes, and targets of 4,096 and 4,097. What breaks a limit doesn't reach the map.
const LIMITS: &[Row] = &[
    Row {
        inputs: [&[FOURTEEN_1, BIND, NO_KEY_X, NONE_2, SIZE], &[], &[], &[]],
        outputs: &[&[LIMIT_1, ZERO_2], &[], &[], &[]],
        line: b"names 0 calls 1 connections 4\n",
    },
    Row {
        inputs: [
            &[
                OF_270_1,
                BIND,
                b"\0\0\x01\x01",
                K256,
                b"\0\0\0\0\0\0\0\x02x\0",
                NONE_2,
                SIZE,
            ],
            &[],
            &[],
            &[],
        ],
        outputs: &[&[BARE_1, ONE_2], &[], &[], &[]],
        line: b"names 1 calls 2 connections 4\n",
    },
    Row {
        inputs: [
            &[
                OF_270_1,
                BIND,
                b"\0\0\x01\x02",
                K257,
                b"\0\0\0\0\0\0\x02x\0",
                NONE_2,
                SIZE,
            ],
            &[],
            &[],
            &[],
        ],
        outputs: &[&[LIMIT_1, ZERO_2], &[], &[], &[]],
        line: b"names 0 calls 1 connections 4\n",
    },
    Row {
        inputs: [
            &[
                OF_4109_1,
                BIND,
                b"\0\0\0\x02a\0\0\0\0\0\x10\x01",
                K4096,
                b"\0",
                NONE_2,
                SIZE,
            ],
            &[],
            &[],
            &[],
        ],
        outputs: &[&[BARE_1, ONE_2], &[], &[], &[]],
        line: b"names 1 calls 2 connections 4\n",
    },
    // The key is bound already, but the limit is judged first.
    Row {
        inputs: [
            &[
                FOURTEEN_1,
                BIND,
                A_X,
                OF_4110_2,
                BIND,
                b"\0\0\0\x02a\0\0\0\0\0\x10\x02",
                K4097,
                b"\0",
            ],
            &[],
            &[],
            &[],
        ],
        outputs: &[&[BARE_1, LIMIT_2], &[], &[], &[]],
        line: b"names 1 calls 1 connections 4\n",
    },
    // Any text may be asked for.
    Row {
        inputs: [
            &[OF_305_1, RESOLVE, b"\0\0\x01\x2d", K300, b"\0"],
            &[],
            &[],
            &[],
        ],
        outputs: &[&[NOT_FOUND_1], &[], &[], &[]],
        line: b"names 0 calls 1 connections 4\n",
    },
];

/// What has an answer without the map.
const APART: &[Row] = &[
    Row {
        inputs: [&[NONE_1, LIST], &[], &[], &[]],
        outputs: &[&[OPERATION_1], &[], &[], &[]],
        line: b"names 0 calls 0 connections 4\n",
    },
    Row {
        inputs: [&[NONE_1, ELSEWHERE], &[], &[], &[]],
        outputs: &[&[NOT_EXIST_1], &[], &[], &[]],
        line: b"names 0 calls 0 connections 4\n",
    },
    Row {
        inputs: [&[FIVE_1, BIND, CUT], &[], &[], &[]],
        outputs: &[&[MARSHAL_1], &[], &[], &[]],
        line: b"names 0 calls 0 connections 4\n",
    },
    Row {
        inputs: [&[OF_44_1, IS_A, NAMING_CONTEXT], &[], &[], &[]],
        outputs: &[&[FALSE_1], &[], &[], &[]],
        line: b"names 0 calls 0 connections 4\n",
    },
];

fn setup_of(alloc: Global) -> Option<Setup> {
    match read_setup(alloc, SETUP) {
        Ok(setup) => Some(setup),
        Err(_) => None,
    }
}

/// Puts these parts after the bytes, in order.
pub(crate) fn put(bytes: &mut Octets, parts: &[&[u8]]) -> Option<()> {
    for part in parts {
        if bytes.append(part).is_err() {
            return None;
        }
    }
    Some(())
}

/// These parts, one after another.
fn joined(alloc: Global, parts: &[&[u8]]) -> Option<Octets> {
    let mut bytes = Octets::new(alloc);
    put(&mut bytes, parts)?;
    Some(bytes)
}

/// A source of these parts, of which each read gives 4,096 bytes at most.
fn source_of(alloc: Global, parts: &[&[u8]]) -> Option<MemSource>
    ensures { IfSome result (λ s. IsNewSource (⟦<MemSource as Source>⟧.state s)) }
{
    let bytes = joined(alloc, parts)?;
    match vec![in alloc; 4096; bytes.len()] {
        Ok(cuts) => Some(MemSource::new(bytes, List::from_vec(cuts), List::new(alloc))),
        Err(_) => None,
    }
}

/// Puts an acceptor of one link with this input after the others.
fn add_slot(alloc: Global, slots: &mut List<MemAcceptor>, input: &[&[u8]]) -> Option<()> {
    let source = source_of(alloc, input)?;
    let sink = MemSink::new(alloc, List::new(alloc), List::new(alloc));
    let mut links = LinkedList::new(alloc);
    links.push_back(MemLink::new(source, sink)).ok()?;
    slots
        .push(MemAcceptor::new(links, 32, List::new(alloc)))
        .ok()
}

/// A run over links of these inputs, one for each of the four slots.
fn run_of<R: Wait + Threads + Sync>(
    rt: &R,
    alloc: Global,
    inputs: &[&[&[u8]]],
) -> Option<NamesRun<MemSource, MemSink>> {
    let setup = setup_of(alloc)?;
    let mut slots = List::new(alloc);
    for input in inputs {
        add_slot(alloc, &mut slots, input)?;
    }
    if slots.len() != 4 {
        return None;
    }
    names_run(rt, alloc, &setup, &mut slots).ok()
}

/// Whether a sink holds these parts and was closed, once.
fn holds(alloc: Global, sink: &MemSink, parts: &[&[u8]]) -> bool {
    match joined(alloc, parts) {
        Some(output) => sink.held() == output.as_slice() && sink.closes == 1,
        None => false,
    }
}

/// Whether the connections of a run wrote these parts, in order of the slots, and each slot came to its end.
fn wrote_all(alloc: Global, run: &NamesRun<MemSource, MemSink>, outputs: &[&[&[u8]]]) -> bool {
    let conns = run.conns.as_slice();
    if conns.len() != outputs.len() {
        return false;
    }
    for (log, parts) in conns.iter().zip(outputs) {
        if !holds(alloc, &log.sink, parts) {
            return false;
        }
    }
    run.slots.as_slice() == [SlotEnd::Done, SlotEnd::Done, SlotEnd::Done, SlotEnd::Done].as_slice()
}

/// Whether the line of a run is this one.
fn has_line(alloc: Global, run: &NamesRun<MemSource, MemSink>, line: &[u8]) -> bool {
    let mut out = MemSink::new(alloc, List::new(alloc), List::new(alloc));
    write_line(alloc, &mut out, run) == WroteLine::Whole && out.held() == line
}

/// Whether a run over these inputs writes these outputs, and has this line.
pub(crate) fn comes_out<R: Wait + Threads + Sync>(
    rt: &R,
    alloc: Global,
    inputs: &[&[&[u8]]],
    outputs: &[&[&[u8]]],
    line: &[u8],
) -> bool {
    match run_of(rt, alloc, inputs) {
        Some(run) => wrote_all(alloc, &run, outputs) && has_line(alloc, &run, line),
        None => false,
    }
}

/// Whether each row comes out so.
fn all_come_out<R: Wait + Threads + Sync>(rt: &R, alloc: Global, rows: &[Row]) -> bool {
    for row in rows {
        if !comes_out(rt, alloc, row.inputs.as_slice(), row.outputs, row.line) {
            return false;
        }
    }
    true
}

#[test]
fn names_are_bound_resolved_and_taken_out(rt: HostRuntime) {
    assert!(rt; all_come_out(&rt, rt.alloc(), STORY));
}

#[test]
fn four_slots_share_one_map(rt: HostRuntime) {
    assert!(rt; all_come_out(&rt, rt.alloc(), AT_ONCE));
}

#[test]
fn limits_are_judged_before_the_map(rt: HostRuntime) {
    assert!(rt; all_come_out(&rt, rt.alloc(), LIMITS));
}

#[test]
fn some_answers_need_no_map(rt: HostRuntime) {
    assert!(rt; all_come_out(&rt, rt.alloc(), APART));
}
