//! Loads over configurations in memory: the line that tells them, and how they come out.

use load_runs::{FragmentLen, LoadCount, LoadEnd, LoadPlan, load_of_setup};
use orb_base::{List, MemFile, MemFiles, MemSink, Text};
use pipe_runs::Batch;
use setup_files::{Broker, read_broker};
use std::alloc::Global;
use std::test::*;

/// Lanes 10, 20 and 30 of one static thread each, with borrowing and room for 500 requests, and `ping` under CLIENT_PROPAGATED.
const DAY: &[u8] =
    b"pool = { borrowing = true, buffering = true, max_buffered_requests = 500, max_request_buffer_size = 1000000, lanes = [{ priority = 10, static = 1, dynamic = 0 }, { priority = 20, static = 1, dynamic = 0 }, { priority = 30, static = 1, dynamic = 0 }] }\nadapter = [{ name = \"prop\", model = \"CLIENT_PROPAGATED\", priority = 10 }]\nobject = [{ key = \"ping\", adapter = \"prop\", interface = \"IDL:Orb/Ping:1.0\" }]\n";

/// One thread without lanes, room for two requests, and a run that hears three calls.
const THREE_CALLS: &[u8] =
    b"server = { max_calls = 3 }\npool = { static = 1, dynamic = 0, default_priority = 100, buffering = true, max_buffered_requests = 2, max_request_buffer_size = 1024 }\nadapter = [{ name = \"main\", model = \"CLIENT_PROPAGATED\", priority = 100 }]\nobject = [{ key = \"ping\", adapter = \"main\", interface = \"IDL:Orb/Ping:1.0\" }]\n";

/// One thread without lanes, and `ping` whose server declares its priority.
const DECLARED: &[u8] =
    b"pool = { static = 1, dynamic = 0, default_priority = 100 }\nadapter = [{ name = \"main\", model = \"SERVER_DECLARED\", priority = 100 }]\nobject = [{ key = \"ping\", adapter = \"main\", interface = \"IDL:Orb/Ping:1.0\" }]\n";

/// One thread without lanes, and a map in which the priorities from 200 on have no native one.
const FEW_NATIVES: &[u8] =
    b"map = { kind = \"linear\", corba_low = 0, corba_high = 199, native_low = 0, native_high = 199 }\npool = { static = 1, dynamic = 0, default_priority = 100 }\nadapter = [{ name = \"main\", model = \"CLIENT_PROPAGATED\", priority = 100 }]\nobject = [{ key = \"ping\", adapter = \"main\", interface = \"IDL:Orb/Ping:1.0\" }]\n";

/// A load: its configuration, if there is one, what it is to be, how it comes out, and its line.
struct Row {
    config: Option<&'static [u8]>,
    seed: u32,
    count: u32,
    batch: u16,
    fragment: Option<u32>,
    end: LoadEnd,
    line: &'static [u8],
}

const DAYS: &[Row] = &[
    Row {
        config: Some(DAY),
        seed: 1,
        count: 500,
        batch: 10,
        fragment: None,
        end: LoadEnd::Done,
        line: b"requests 500 run 83 lent 67 kept 350 full 0 replies 500 in 34000 out 12500\n",
    },
    Row {
        config: Some(DAY),
        seed: 1,
        count: 500,
        batch: 10,
        fragment: Some(32),
        end: LoadEnd::Done,
        line: b"requests 500 run 83 lent 67 kept 350 full 0 replies 500 in 58000 out 12500\n",
    },
];

/// Three requests in one group, to lanes by their seeds: 20, 30 and 30, of which the last one is lent the thread of 10; or 10, 20 and 20,
/// of which the last one waits. The greatest seed doesn't wrap.
const SEEDS: &[Row] = &[
    Row {
        config: Some(DAY),
        seed: 1,
        count: 3,
        batch: 3,
        fragment: None,
        end: LoadEnd::Done,
        line: b"requests 3 run 2 lent 1 kept 0 full 0 replies 3 in 204 out 75\n",
    },
    Row {
        config: Some(DAY),
        seed: 0,
        count: 3,
        batch: 3,
        fragment: None,
        end: LoadEnd::Done,
        line: b"requests 3 run 2 lent 0 kept 1 full 0 replies 3 in 204 out 75\n",
    },
    Row {
        config: Some(DAY),
        seed: 4_294_967_295,
        count: 3,
        batch: 3,
        fragment: None,
        end: LoadEnd::Done,
        line: b"requests 3 run 2 lent 0 kept 1 full 0 replies 3 in 204 out 75\n",
    },
];

/// One request, many, and two in a group of which the second finds no thread and may not wait: its reply has 68 bytes.
const COUNTS: &[Row] = &[
    Row {
        config: None,
        seed: 1,
        count: 1,
        batch: 1,
        fragment: None,
        end: LoadEnd::Done,
        line: b"requests 1 run 1 lent 0 kept 0 full 0 replies 1 in 68 out 25\n",
    },
    Row {
        config: None,
        seed: 1,
        count: 4096,
        batch: 1,
        fragment: None,
        end: LoadEnd::Done,
        line: b"requests 4096 run 4096 lent 0 kept 0 full 0 replies 4096 in 278528 out 102400\n",
    },
    Row {
        config: None,
        seed: 1,
        count: 2,
        batch: 2,
        fragment: None,
        end: LoadEnd::Done,
        line: b"requests 2 run 1 lent 0 kept 0 full 1 replies 2 in 136 out 93\n",
    },
];

/// A request of 68 bytes: in pieces of 32, 32, 32 and 20 bytes; of 24, five times 24 and 20; of 64 and 20; and in one. One of 56 bytes
/// in one of that length, and in pieces of 48 and 24.
const PIECES: &[Row] = &[
    Row {
        config: None,
        seed: 1,
        count: 1,
        batch: 1,
        fragment: Some(32),
        end: LoadEnd::Done,
        line: b"requests 1 run 1 lent 0 kept 0 full 0 replies 1 in 116 out 25\n",
    },
    Row {
        config: None,
        seed: 1,
        count: 1,
        batch: 1,
        fragment: Some(24),
        end: LoadEnd::Done,
        line: b"requests 1 run 1 lent 0 kept 0 full 0 replies 1 in 164 out 25\n",
    },
    Row {
        config: None,
        seed: 1,
        count: 1,
        batch: 1,
        fragment: Some(64),
        end: LoadEnd::Done,
        line: b"requests 1 run 1 lent 0 kept 0 full 0 replies 1 in 84 out 25\n",
    },
    Row {
        config: None,
        seed: 1,
        count: 1,
        batch: 1,
        fragment: Some(72),
        end: LoadEnd::Done,
        line: b"requests 1 run 1 lent 0 kept 0 full 0 replies 1 in 68 out 25\n",
    },
    Row {
        config: None,
        seed: 1,
        count: 1,
        batch: 1,
        fragment: Some(262_144),
        end: LoadEnd::Done,
        line: b"requests 1 run 1 lent 0 kept 0 full 0 replies 1 in 68 out 25\n",
    },
    Row {
        config: Some(DECLARED),
        seed: 1,
        count: 1,
        batch: 1,
        fragment: Some(56),
        end: LoadEnd::Done,
        line: b"requests 1 run 1 lent 0 kept 0 full 0 replies 1 in 56 out 25\n",
    },
    Row {
        config: Some(DECLARED),
        seed: 1,
        count: 1,
        batch: 1,
        fragment: Some(48),
        end: LoadEnd::Done,
        line: b"requests 1 run 1 lent 0 kept 0 full 0 replies 1 in 72 out 25\n",
    },
];

/// A server that declares its priority is sent none. A request whose priority, seed and more, has no native one is answered by the
/// reading side, with a reply of 76 bytes, and isn't offered.
const SETUPS: &[Row] = &[
    Row {
        config: Some(DECLARED),
        seed: 4_294_967_295,
        count: 2,
        batch: 1,
        fragment: None,
        end: LoadEnd::Done,
        line: b"requests 2 run 2 lent 0 kept 0 full 0 replies 2 in 112 out 50\n",
    },
    Row {
        config: Some(FEW_NATIVES),
        seed: 199,
        count: 2,
        batch: 1,
        fragment: None,
        end: LoadEnd::Done,
        line: b"requests 1 run 1 lent 0 kept 0 full 0 replies 2 in 136 out 101\n",
    },
    Row {
        config: Some(FEW_NATIVES),
        seed: 32_767,
        count: 2,
        batch: 1,
        fragment: None,
        end: LoadEnd::Done,
        line: b"requests 1 run 1 lent 0 kept 0 full 0 replies 2 in 136 out 101\n",
    },
];

/// A run that closes at its fourth call: three replies and CloseConnection, of 12 bytes. The input counts whole.
const CLOSES: &[Row] = &[
    Row {
        config: Some(THREE_CALLS),
        seed: 1,
        count: 5,
        batch: 1,
        fragment: None,
        end: LoadEnd::Closed,
        line: b"requests 3 run 3 lent 0 kept 0 full 0 replies 3 in 340 out 87\n",
    },
    Row {
        config: Some(THREE_CALLS),
        seed: 1,
        count: 3,
        batch: 1,
        fragment: None,
        end: LoadEnd::Done,
        line: b"requests 3 run 3 lent 0 kept 0 full 0 replies 3 in 204 out 75\n",
    },
    Row {
        config: Some(THREE_CALLS),
        seed: 1,
        count: 5,
        batch: 1,
        fragment: Some(32),
        end: LoadEnd::Closed,
        line: b"requests 3 run 3 lent 0 kept 0 full 0 replies 3 in 580 out 87\n",
    },
];

/// A store with this one file, named `c`.
fn store_of(alloc: Global, config: &[u8]) -> Option<MemFiles> {
    let bytes = List::from_vec(Vec::from_slice(alloc, config).ok()?);
    let name = Text::new(alloc, b"c").ok()?;
    let mut files = List::new(alloc);
    match files.push(MemFile { name, bytes }) {
        Ok(()) => Some(MemFiles::new(files, List::new(alloc))),
        Err(_) => None,
    }
}

/// The setup and the servants of a configuration, or the built-in ones.
fn broker_of(alloc: Global, config: Option<&[u8]>) -> Option<Broker> {
    let mut files = store_of(alloc, config.unwrap_or(b""))?;
    let name = Text::new(alloc, b"c").ok()?;
    let asked = match config {
        Some(_) => Some(&name),
        None => None,
    };
    read_broker(alloc, &mut files, asked).ok()
}

/// What the load of a row is to be.
fn plan_of(row: &Row) -> Option<LoadPlan> {
    let fragment = match row.fragment {
        Some(bytes) => Some(FragmentLen::new(bytes)?),
        None => None,
    };
    Some(LoadPlan {
        seed: row.seed,
        count: LoadCount::new(row.count)?,
        batch: Batch::new(row.batch)?,
        fragment,
    })
}

/// A sink whose first write fails, or none.
fn sink_of(alloc: Global, fails: bool) -> Option<MemSink> {
    let failing: &[u64] = if fails { &[0] } else { &[] };
    let failing = List::from_vec(Vec::from_slice(alloc, failing).ok()?);
    Some(MemSink::new(alloc, List::new(alloc), failing))
}

/// How a load comes out.
fn load(alloc: Global, broker: &Broker, plan: &LoadPlan, out: &mut MemSink) -> LoadEnd {
    load_of_setup(alloc, &broker.setup, &broker.servants, plan, out)
}

/// How a load comes out; none where it writes anything else than this.
fn outcome(
    alloc: Global,
    broker: &Broker,
    plan: &LoadPlan,
    fails: bool,
    written: &[u8],
) -> Option<LoadEnd> {
    let mut out = sink_of(alloc, fails)?;
    let end = load(alloc, broker, plan, &mut out);
    if out.held() == written {
        Some(end)
    } else {
        None
    }
}

/// The same of the load of a plan for a configuration.
fn planned(
    alloc: Global,
    config: Option<&[u8]>,
    plan: &LoadPlan,
    fails: bool,
    written: &[u8],
) -> Option<LoadEnd> {
    let broker = broker_of(alloc, config)?;
    outcome(alloc, &broker, plan, fails, written)
}

/// The same of the load of a row.
fn outcome_of(alloc: Global, row: &Row, fails: bool, written: &[u8]) -> Option<LoadEnd> {
    match plan_of(row) {
        Some(plan) => planned(alloc, row.config, &plan, fails, written),
        None => None,
    }
}

fn comes_out(alloc: Global, row: &Row) -> bool {
    outcome_of(alloc, row, false, row.line) == Some(row.end)
}

fn all_come(alloc: Global, rows: &[Row]) -> bool {
    rows.iter().all(|row| comes_out(alloc, row))
}

fn fails_to_write(alloc: Global, row: &Row) -> bool {
    outcome_of(alloc, row, true, b"") == Some(LoadEnd::WriteFault)
}

#[test]
fn a_day_is_told_whole_and_in_pieces(rt: HostRuntime) {
    assert!(rt; all_come(rt.alloc(), DAYS));
}

#[test]
fn the_seed_chooses_the_lanes(rt: HostRuntime) {
    assert!(rt; all_come(rt.alloc(), SEEDS));
}

#[test]
fn one_request_and_many_are_told(rt: HostRuntime) {
    assert!(rt; all_come(rt.alloc(), COUNTS));
}

#[test]
fn requests_are_split_where_they_are_longer(rt: HostRuntime) {
    assert!(rt; all_come(rt.alloc(), PIECES));
}

#[test]
fn the_setup_decides_what_is_sent_and_offered(rt: HostRuntime) {
    assert!(rt; all_come(rt.alloc(), SETUPS));
}

#[test]
fn a_run_that_closes_is_told_all_the_same(rt: HostRuntime) {
    assert!(rt; all_come(rt.alloc(), CLOSES));
}

/// A failed write goes before a limit of the run.
#[test]
fn a_line_may_not_be_written(rt: HostRuntime) {
    assert!(rt; CLOSES.iter().all(|row| fails_to_write(rt.alloc(), row)));
}

/// Numbers of requests, and whether a load may have so many.
const LOAD_COUNTS: &[(u32, bool)] = &[(0, false), (1, true), (65_536, true), (65_537, false)];

#[test]
fn a_load_has_one_request_to_65536(rt: HostRuntime) {
    assert!(rt;
        LOAD_COUNTS
            .iter()
            .all(|row| LoadCount::new(row.0).is_some() == row.1)
    );
}

/// Lengths of pieces, and whether pieces may be so long.
const FRAGMENT_LENS: &[(u32, bool)] = &[
    (0, false),
    (16, false),
    (23, false),
    (24, true),
    (28, false),
    (32, true),
    (262_144, true),
    (262_152, false),
];

#[test]
fn pieces_have_24_bytes_to_262144_in_eights(rt: HostRuntime) {
    assert!(rt;
        FRAGMENT_LENS
            .iter()
            .all(|row| FragmentLen::new(row.0).is_some() == row.1)
    );
}
