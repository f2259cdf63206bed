//! The audit over memory: the verdicts on traces by hand, of which one line is another, and what is at fault in what is no trace.

use orb_base::{List, MemSink, MemSource, NoMemory, Octets};
use std::alloc::Global;
use trace_audit::*;

/// The lines of a run with every kind of line and of reply: two slots of two connections, two lanes of a thread each, a thread that is
/// lent, two requests that wait, of which one is withdrawn, and a run that closes after its eighth call.
pub(crate) const EVERY: &[&[u8]] = &[
    b"pool 1 1 1 2 1000 8 67108864 2 2",
    b"lane 10 1 0",
    b"lane 20 1 0",
    b"1 offer 0.0 0 1 2 20 1 60 run 1",
    b"1 offer 0.0 1 2 1 20 1 60 lent 0",
    b"2 offer 1.0 0 1 2 10 0 60 kept",
    b"2 offer 1.0 1 2 2 20 1 60 kept",
    b"2 offer 1.0 2 3 2 20 1 60 full",
    b"2 cancel 1.0 1 removed",
    b"2 cancel 1.0 9 nothing",
    b"1 post 0.0 7 posted",
    b"81 collect 0.0 early 1",
    b"81 collect 0.0 posted 7",
    b"3 take 0 1",
    b"4 take 1 0",
    b"4 finish 1 0 3",
    b"4 take 1 3",
    b"3 finish 0 1 0",
    b"1 offer 0.0 3 3 2 20 1 60 closing",
    b"1 end 0.0 shut",
    b"2 post 1.0 4 closing",
    b"2 end 1.0 bad",
    b"1 cancel 0.1 5 closing",
    b"1 end 0.1 quiet",
    b"81 collect 0.0 answered 0",
    b"81 collect 0.0 close",
    b"4 finish 1 3 2",
    b"209 collect 1.0 transient 4",
    b"209 collect 1.0 answered 3",
    b"209 collect 1.0 error",
    b"82 collect 0.1 done",
    b"1 leave 0",
    b"2 leave 1",
    b"3 take 0 ended",
    b"4 take 1 ended",
    b"entries 32",
];

/// What comes of a run of which one line is another.
#[derive(Clone, Copy)]
pub(crate) enum Comes {
    /// That line is at fault.
    Fault,
    /// The line of this number is at fault.
    Later(usize),
    /// The entry of this number is the first wrong one.
    Wrong(u32),
    /// Each step is allowed, but some call was not its caller's.
    Unfit,
    /// Each step is allowed, and each call was its caller's.
    Fit,
}

/// Lines that are in the place of another one, with the number of that, from 0, and what comes of it.
pub(crate) const CHANGES: &[(usize, &[u8], Comes)] = &[
    // Lends without lanes.
    (0, b"pool 0 1 1 2 1000 8 67108864 2 2", Comes::Fault),
    // Nothing is lent.
    (0, b"pool 1 0 1 2 1000 8 67108864 2 2", Comes::Wrong(1)),
    // Limits of what may wait where nothing may.
    (0, b"pool 1 1 0 2 1000 8 67108864 2 2", Comes::Fault),
    (0, b"pool 1 1 1 1 1000 8 67108864 2 2", Comes::Wrong(3)),
    (0, b"pool 1 1 1 2 60 8 67108864 2 2", Comes::Wrong(3)),
    (0, b"pool 1 1 1 2 1000 7 67108864 2 2", Comes::Wrong(7)),
    (0, b"pool 1 1 1 2 1000 9 67108864 2 2", Comes::Wrong(15)),
    (0, b"pool 1 1 1 2 1000 8 299 2 2", Comes::Wrong(4)),
    (0, b"pool 1 1 1 2 1000 8 300 2 2", Comes::Fit),
    (0, b"pool 1 1 1 2 1000 8 67108864 1 2", Comes::Later(5)),
    (0, b"pool 1 1 1 2 1000 8 67108864 3 2", Comes::Wrong(30)),
    (0, b"pool 1 1 1 2 1000 8 67108864 2 1", Comes::Later(22)),
    (0, b"pool 1 1 1 2 1000 8 67108864 2 3", Comes::Fit),
    (0, b"pool 1 1 1 2 1000 8 67108864 2", Comes::Fault),
    (1, b"lane 10 0 0", Comes::Fault),
    (1, b"lane 10 65 0", Comes::Fault),
    (1, b"lane 20 1 0", Comes::Later(2)),
    (1, b"lane 10 2 0", Comes::Wrong(0)),
    (1, b"lane 11 1 0", Comes::Wrong(2)),
    (2, b"lane 10 1 0", Comes::Fault),
    (3, b"2 offer 0.0 0 1 2 20 1 60 run 1", Comes::Unfit),
    (3, b"1 offer 0.1 0 1 2 20 1 60 run 1", Comes::Wrong(21)),
    (3, b"1 offer 0.0 1 1 2 20 1 60 run 1", Comes::Unfit),
    (3, b"1 offer 0.0 0 2 2 20 1 60 run 1", Comes::Fit),
    (3, b"1 offer 0.0 0 1 1 20 1 60 run 1", Comes::Wrong(8)),
    (3, b"1 offer 0.0 0 1 3 20 1 60 run 1", Comes::Fault),
    (3, b"1 offer 0.0 0 1 2 21 1 60 run 1", Comes::Wrong(0)),
    (3, b"1 offer 0.0 0 1 2 20 0 60 run 1", Comes::Wrong(0)),
    (3, b"1 offer 0.0 0 1 2 20 2 60 run 1", Comes::Fault),
    (3, b"1 offer 0.0 0 1 2 20 1 61 run 1", Comes::Fit),
    (3, b"1 offer 0.0 0 1 2 20 1 60 run 0", Comes::Wrong(0)),
    (3, b"1 offer 0.0 0 1 2 20 1 60 run 2", Comes::Fault),
    (3, b"1 offer 0.0 0 1 2 20 1 60 lent 1", Comes::Wrong(0)),
    (3, b"1 offer 0.0 0 1 2 20 1 60 kept", Comes::Wrong(0)),
    (3, b"1 offer 0.0 0 1 2 20 1 60 full", Comes::Wrong(0)),
    (3, b"1 offer 0.0 0 1 2 20 1 60 closing", Comes::Wrong(0)),
    (3, b"01 offer 0.0 0 1 2 20 1 60 run 1", Comes::Fault),
    (3, b"+1 offer 0.0 0 1 2 20 1 60 run 1", Comes::Fault),
    (3, b"1  offer 0.0 0 1 2 20 1 60 run 1", Comes::Fault),
    (3, b"1 offer 0.0 0 1 2 20 1 60 run 1 ", Comes::Fault),
    (3, b"1 offer 0.0 0 1 2 20 1 60 run 1\r", Comes::Fault),
    (3, b"1 offer 0.0 0 1 2 20 1 60 ran 1", Comes::Fault),
    (3, b"", Comes::Fault),
    (3, b"\xff", Comes::Fault),
    (4, b"1 offer 0.0 1 2 1 20 1 60 run 0", Comes::Wrong(1)),
    (4, b"1 offer 0.0 1 2 1 20 1 60 kept", Comes::Wrong(1)),
    (5, b"2 offer 1.0 0 1 2 10 0 60 full", Comes::Wrong(2)),
    (6, b"2 offer 1.0 1 2 2 20 1 60 full", Comes::Wrong(3)),
    (7, b"2 offer 1.0 2 3 2 20 1 60 kept", Comes::Wrong(4)),
    (8, b"2 cancel 1.0 1 nothing", Comes::Wrong(5)),
    (8, b"2 cancel 1.0 2 removed", Comes::Wrong(13)),
    (9, b"2 cancel 1.0 9 removed", Comes::Wrong(6)),
    (9, b"2 cancel 1.0 2 nothing", Comes::Wrong(6)),
    (10, b"1 post 0.0 7 closing", Comes::Wrong(7)),
    (10, b"1 post 0.1 7 posted", Comes::Wrong(9)),
    (11, b"81 collect 0.0 early 0", Comes::Wrong(8)),
    // No such Offer.
    (11, b"81 collect 0.0 early 9", Comes::Wrong(8)),
    (11, b"81 collect 0.0 answered 1", Comes::Wrong(8)),
    (11, b"82 collect 0.0 early 1", Comes::Unfit),
    (12, b"81 collect 0.0 posted 8", Comes::Wrong(9)),
    (13, b"3 take 0 0", Comes::Wrong(10)),
    (13, b"3 take 1 1", Comes::Wrong(10)),
    (13, b"4 take 0 1", Comes::Unfit),
    (13, b"3 take 0 ended", Comes::Wrong(10)),
    (13, b"3 take 2 1", Comes::Fault),
    (15, b"4 finish 1 1 3", Comes::Wrong(12)),
    (15, b"3 finish 0 0 3", Comes::Wrong(12)),
    (15, b"4 finish 1 0 4", Comes::Fit),
    (15, b"4 finish 1 0 262120", Comes::Fit),
    (15, b"4 finish 1 0 262121", Comes::Wrong(12)),
    (15, b"4 finish 1 0 4294967296", Comes::Fault),
    (16, b"4 take 1 2", Comes::Wrong(13)),
    (18, b"1 offer 0.0 3 3 2 20 1 60 full", Comes::Wrong(15)),
    (19, b"1 end 0.0 quiet", Comes::Wrong(22)),
    (19, b"1 end 0.1 shut", Comes::Wrong(20)),
    (21, b"2 end 1.0 shut", Comes::Wrong(26)),
    (24, b"81 collect 0.0 answered 1", Comes::Wrong(21)),
    (25, b"81 collect 0.0 done", Comes::Wrong(22)),
    (27, b"209 collect 1.0 transient 3", Comes::Wrong(24)),
    (27, b"209 collect 1.0 answered 3", Comes::Wrong(24)),
    (29, b"209 collect 1.0 done", Comes::Wrong(26)),
    (31, b"1 leave 1", Comes::Wrong(29)),
    (33, b"3 take 0 3", Comes::Wrong(30)),
    (35, b"entries 31", Comes::Fault),
    (35, b"entries 33", Comes::Fault),
    (35, b"entries 032", Comes::Fault),
];

/// Puts a line after the text.
fn put_line(text: &mut Octets, line: &[u8]) -> Result<(), NoMemory> {
    text.append(line)?;
    text.append(b"\n")
}

/// The text of the run with another line in the place of one, and the offset of the line of a number.
pub(crate) fn changed(
    alloc: Global,
    at: usize,
    other: &[u8],
    of: usize,
) -> Result<(Octets, usize), NoMemory> {
    let mut text = Octets::new(alloc);
    let mut offset = 0;
    for (i, line) in EVERY.iter().enumerate() {
        if i == of {
            offset = text.len();
        }
        let line = if i == at { other } else { *line };
        put_line(&mut text, line)?;
    }
    Ok((text, offset))
}

/// What an audit says of bytes that are read at once.
fn audited(alloc: Global, bytes: Octets) -> Result<List<Verdict>, AuditFault> {
    let mut source = MemSource::new(bytes, List::new(alloc), List::new(alloc));
    audit(alloc, &mut source)
}

/// Whether the line of a number is at fault, where one line is another.
fn is_at_fault(alloc: Global, at: usize, other: &[u8], of: usize) -> bool {
    let Ok((text, offset)) = changed(alloc, at, other, of) else {
        return false;
    };
    match audited(alloc, text) {
        Err(AuditFault::NotTrace(at)) => at == offset as u64,
        _ => false,
    }
}

/// The one verdict on the run of which one line is another.
fn verdict_on(alloc: Global, at: usize, other: &[u8]) -> Option<Verdict> {
    let (text, _) = changed(alloc, at, other, 0).ok()?;
    let verdicts = audited(alloc, text).ok()?;
    match verdicts.as_slice() {
        [verdict] => Some(*verdict),
        _ => None,
    }
}

/// Whether the run is judged so, of which one line is another.
fn is_judged(alloc: Global, at: usize, other: &[u8], wrong: Option<u32>, is_fit: bool) -> bool {
    match verdict_on(alloc, at, other) {
        Some(verdict) => {
            verdict.entries == 32 && verdict.first_wrong == wrong && verdict.fit == is_fit
        }
        None => false,
    }
}

/// Whether this comes of a run of which one line is another.
fn comes_so(alloc: Global, change: &(usize, &[u8], Comes)) -> bool {
    let (at, other, comes) = *change;
    match comes {
        Comes::Fault => is_at_fault(alloc, at, other, at),
        Comes::Later(of) => is_at_fault(alloc, at, other, of),
        Comes::Wrong(entry) => is_judged(alloc, at, other, Some(entry), false),
        Comes::Unfit => is_judged(alloc, at, other, None, false),
        Comes::Fit => is_judged(alloc, at, other, None, true),
    }
}

/// The number of the first change of which something else comes, or that of all changes.
fn first_other(alloc: Global, changes: &[(usize, &[u8], Comes)]) -> usize {
    for (i, change) in changes.iter().enumerate() {
        if !comes_so(alloc, change) {
            return i;
        }
    }
    changes.len()
}

#[test]
fn each_changed_line_has_its_verdict(rt: HostRuntime) {
    assert_eq!(rt; first_other(rt.alloc(), CHANGES), CHANGES.len());
}

/// The trace of one ping through a pipe, but for its last line, of 168 bytes; and that line.
const PING: &[u8] =
    b"pool 0 0 0 0 0 65536 67108864 1 128\nlane 100 1 0\n0 offer 0.0 0 1 2 100 0 48 run 0\n0 take 0 0\n0 finish 0 0 2\n0 collect 0.0 answered 0\n0 end 0.0 quiet\n0 collect 0.0 done\n";

const SIX: &[u8] = b"entries 6\n";

/// Its summary.
const SUMMARY: &[u8] = b"calls 1 run 1 lent 0 kept 0 full 0 removed 0 connections 1\n";

/// The trace of three urgent requests over two lanes: the second is lent the thread of the lower lane, and the third waits. Between the
/// parts is how the second is answered.
const URGENT: &[u8] =
    b"pool 1 1 1 3 120 65536 67108864 4 32\nlane 10 1 0\nlane 20 1 0\n0 offer 0.0 0 1 2 20 1 60 run 1\n0 offer 0.0 1 2 2 20 1 60 ";

const URGENT_LATER: &[u8] =
    b"\n0 offer 0.0 2 3 2 20 1 60 kept\n0 take 0 1\n0 finish 0 1 0\n0 take 0 2\n0 finish 0 2 0\n0 take 1 0\n0 finish 1 0 0\n0 collect 0.0 answered 1\n0 collect 0.0 answered 2\n0 collect 0.0 answered 0\n0 end 0.0 quiet\n0 collect 0.0 done\nentries 14\n";

/// The trace of a served ping, with one more call of its worker before the last line, or without.
const SERVED: &[u8] =
    b"pool 0 0 0 0 0 65536 67108864 1 1\nlane 5 1 0\n1 offer 0.0 0 1 2 7 0 48 run 0\n2 take 0 0\n2 finish 0 0 2\n81 collect 0.0 answered 0\n1 end 0.0 quiet\n81 collect 0.0 done\n1 leave 0\n2 take 0 ended\n";

/// Two requests that are alike: the first runs, and the second is refused. Between the parts is the number of the answer.
const ALIKE: &[u8] =
    b"pool 0 0 0 0 0 65536 67108864 1 128\nlane 100 1 0\n0 offer 0.0 0 1 2 100 0 48 run 0\n0 offer 0.0 0 1 2 100 0 48 full\n0 take 0 1\n0 finish 0 0 2\n0 collect 0.0 transient 1\n0 collect 0.0 answered ";

const ALIKE_LATER: &[u8] = b"\n0 end 0.0 quiet\n0 collect 0.0 done\nentries 8\n";

/// One audit: the parts of the input, where its reads are cut and fail, which write fails, how it ends, and what is written.
#[derive(Clone, Copy)]
struct Row {
    parts: &'static [&'static [u8]],
    cuts: &'static [usize],
    failed_reads: &'static [u64],
    failed_writes: &'static [u64],
    end: AuditEnd,
    output: &'static [u8],
}

/// An audit of nothing, over devices that never fail, read at once.
const PLAIN: Row = Row {
    parts: &[],
    cuts: &[],
    failed_reads: &[],
    failed_writes: &[],
    end: AuditEnd::Legal,
    output: b"",
};

/// A ping through the pipe: one caller for all calls is no seat.
const PIPED: Row = Row {
    parts: &[PING, SIX],
    output: b"run 0 legal yes fit no entries 6 lent 0 longest 0\n",
    ..PLAIN
};

const ROWS: &[Row] = &[
    PLAIN,
    PIPED,
    Row {
        parts: &[PING, SIX, SUMMARY],
        ..PIPED
    },
    // Reads of 1, 7 and 4,096 bytes.
    Row {
        cuts: &[1; 256],
        ..PIPED
    },
    Row {
        cuts: &[7; 64],
        ..PIPED
    },
    Row {
        cuts: &[4096],
        ..PIPED
    },
    Row {
        parts: &[URGENT, b"lent 0", URGENT_LATER],
        output: b"run 0 legal yes fit no entries 14 lent 1 longest 3\n",
        ..PLAIN
    },
    Row {
        parts: &[URGENT, b"kept", URGENT_LATER],
        end: AuditEnd::Wrong(WrongEntry { run: 0, entry: 1 }),
        output: b"run 0 legal no fit no entries 14 lent 0 longest 0\n",
        ..PLAIN
    },
    Row {
        parts: &[SERVED, b"entries 8\n"],
        output: b"run 0 legal yes fit yes entries 8 lent 0 longest 0\n",
        ..PLAIN
    },
    // A worker that takes once more after it has ended.
    Row {
        parts: &[SERVED, b"2 take 0 ended\nentries 9\n"],
        output: b"run 0 legal yes fit no entries 9 lent 0 longest 0\n",
        ..PLAIN
    },
    // A connection that ends twice.
    Row {
        parts: &[PING, b"0 end 0.0 quiet\nentries 7\n"],
        end: AuditEnd::Wrong(WrongEntry { run: 0, entry: 6 }),
        output: b"run 0 legal no fit no entries 7 lent 0 longest 0\n",
        ..PLAIN
    },
    // Two requests that are alike are one to the machine, though their numbers differ; the length of an answer goes by the number.
    Row {
        parts: &[ALIKE, b"0", ALIKE_LATER],
        output: b"run 0 legal yes fit no entries 8 lent 0 longest 0\n",
        ..PLAIN
    },
    Row {
        parts: &[ALIKE, b"1", ALIKE_LATER],
        end: AuditEnd::Wrong(WrongEntry { run: 0, entry: 5 }),
        output: b"run 0 legal no fit no entries 8 lent 0 longest 0\n",
        ..PLAIN
    },
    // Runs one after another, with their summaries or without; the first wrong one is reported.
    Row {
        parts: &[
            PING,
            SIX,
            SUMMARY,
            URGENT,
            b"kept",
            URGENT_LATER,
            SERVED,
            b"entries 8\n",
            URGENT,
            b"run 0",
            URGENT_LATER,
        ],
        end: AuditEnd::Wrong(WrongEntry { run: 1, entry: 1 }),
        output: b"run 0 legal yes fit no entries 6 lent 0 longest 0\nrun 1 legal no fit no entries 14 lent 0 longest 0\nrun 2 legal yes fit yes entries 8 lent 0 longest 0\nrun 3 legal no fit no entries 14 lent 0 longest 0\n",
        ..PLAIN
    },
    // Without its last line a run lacks lines at the end of the input; a part of a line is at fault at its first byte.
    Row {
        parts: &[PING],
        end: AuditEnd::NotTrace(168),
        ..PLAIN
    },
    Row {
        parts: &[PING, b"entries 6"],
        end: AuditEnd::NotTrace(168),
        ..PLAIN
    },
    Row {
        parts: &[PING, SIX, PING],
        end: AuditEnd::NotTrace(346),
        ..PLAIN
    },
    // After a run comes its own summary once, or the first line of another run.
    Row {
        parts: &[
            PING,
            SIX,
            b"calls 2 run 1 lent 0 kept 0 full 0 removed 0 connections 1\n",
        ],
        end: AuditEnd::NotTrace(178),
        ..PLAIN
    },
    Row {
        parts: &[
            PING,
            SIX,
            b"requests 1 run 1 lent 0 kept 0 full 0 replies 1 in 68 out 25\n",
        ],
        end: AuditEnd::NotTrace(178),
        ..PLAIN
    },
    Row {
        parts: &[PING, SIX, SUMMARY, SUMMARY],
        end: AuditEnd::NotTrace(237),
        ..PLAIN
    },
    Row {
        parts: &[SUMMARY],
        end: AuditEnd::NotTrace(0),
        ..PLAIN
    },
    // A seventeenth lane.
    Row {
        parts: &[
            b"pool 1 0 0 0 0 65536 67108864 1 128\nlane 1 1 0\nlane 2 1 0\nlane 3 1 0\nlane 4 1 0\nlane 5 1 0\nlane 6 1 0\nlane 7 1 0\nlane 8 1 0\nlane 9 1 0\n",
            b"lane 10 1 0\nlane 11 1 0\nlane 12 1 0\nlane 13 1 0\nlane 14 1 0\nlane 15 1 0\nlane 16 1 0\nlane 17 1 0\n",
        ],
        end: AuditEnd::NotTrace(219),
        ..PLAIN
    },
    // A failed read ends the audit, unless a whole line before it is at fault.
    Row {
        failed_reads: &[0],
        end: AuditEnd::ReadFault,
        output: b"",
        ..PIPED
    },
    Row {
        failed_reads: &[1],
        end: AuditEnd::ReadFault,
        output: b"",
        ..PIPED
    },
    Row {
        parts: &[PING, b"entries 6"],
        failed_reads: &[1],
        end: AuditEnd::ReadFault,
        ..PLAIN
    },
    Row {
        parts: &[PING, SIX, b"entries 6\n"],
        failed_reads: &[1],
        end: AuditEnd::NotTrace(178),
        ..PLAIN
    },
    // A failed write comes before the first wrong entry.
    Row {
        parts: &[URGENT, b"kept", URGENT_LATER],
        failed_writes: &[0],
        end: AuditEnd::WriteFault,
        ..PLAIN
    },
];

/// A list of these.
fn list<T: Copy>(alloc: Global, items: &[T]) -> Result<List<T>, NoMemory> {
    Ok(List::from_vec(Vec::from_slice(alloc, items)?))
}

/// The bytes of these parts, one after another.
fn joined(alloc: Global, parts: &[&[u8]]) -> Result<Octets, NoMemory> {
    let mut bytes = Octets::new(alloc);
    for part in parts {
        bytes.append(part)?;
    }
    Ok(bytes)
}

/// The devices of a row.
fn devices(alloc: Global, row: &Row) -> Result<(MemSource, MemSink), NoMemory> {
    let bytes = joined(alloc, row.parts)?;
    let cuts = list(alloc, row.cuts)?;
    let source = MemSource::new(bytes, cuts, list(alloc, row.failed_reads)?);
    let failing = list(alloc, row.failed_writes)?;
    Ok((source, MemSink::new(alloc, List::new(alloc), failing)))
}

/// Whether an audit ends and writes as a row says.
fn audits(alloc: Global, row: &Row) -> bool {
    let Ok((mut source, mut sink)) = devices(alloc, row) else {
        return false;
    };
    match audit_run(alloc, &mut source, &mut sink) {
        Ok(end) => end == row.end && sink.held() == row.output,
        Err(_) => false,
    }
}

/// The number of the first row that doesn't hold, or that of all rows.
fn first_wrong(alloc: Global, rows: &[Row]) -> usize {
    for (i, row) in rows.iter().enumerate() {
        if !audits(alloc, row) {
            return i;
        }
    }
    rows.len()
}

#[test]
fn each_input_has_its_lines(rt: HostRuntime) {
    assert_eq!(rt; first_wrong(rt.alloc(), ROWS), ROWS.len());
}
