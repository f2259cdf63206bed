//! A line of a trace, by its words.
ghost use Rattle.std.specs.Prelude.{◌≡◌, map};
ghost use Rattle.trace_reading.specs.RowReading as Spec;

use crate::actions::read_action;
use crate::row::{Flags, Head, Limits, Row};
use crate::words::{
    count_number, flag_number, long_number, parts_of, priority_number, small_number,
};
use orb_base::LaneSpec;
use trace_lines::TraceLine;

/// What a pool allows.
fn read_flags(laned: &[u8], borrowing: &[u8], buffering: &[u8]) -> Option<Flags>
    ensures { result ≡ Spec.flags_in laned.now borrowing.now buffering.now }
{
    let laned = flag_number(laned)?;
    let borrowing = flag_number(borrowing)?;
    let buffering = flag_number(buffering)?;
    Some(Flags {
        laned,
        borrowing,
        buffering,
    })
}

/// The limits of what may wait, and of a run.
fn read_limits(requests: &[u8], bytes: &[u8], calls: &[u8], run: &[u8]) -> Option<Limits>
    ensures { result ≡ Spec.limits_in requests.now bytes.now calls.now run.now }
{
    let max_requests = long_number(requests)?;
    let max_bytes = long_number(bytes)?;
    let run_calls = long_number(calls)?;
    let run_bytes = long_number(run)?;
    Some(Limits {
        max_requests,
        max_bytes,
        run_calls,
        run_bytes: u64::from(run_bytes),
    })
}

/// What a run opened with, but for its lanes, of its parts.
fn head_of(
    flags: Option<Flags>,
    limits: Option<Limits>,
    slots: &[u8],
    per_slot: &[u8],
) -> Option<Row>
    ensures { result ≡ Spec.head_by flags limits slots.now per_slot.now }
{
    let flags = flags?;
    let limits = limits?;
    let slots = small_number(slots)?;
    let per_slot = small_number(per_slot)?;
    Some(Row::Pool(Head {
        flags,
        limits,
        slots,
        per_slot,
    }))
}

/// The words of the first line after what the pool allows.
fn head_after(flags: Option<Flags>, words: &[&[u8]]) -> Option<Row>
    ensures { result ≡ Spec.head_after flags (map (λ word. word.now) words.now) }
{
    match words {
        [requests, bytes, calls, run, slots, per_slot] => {
            let limits = read_limits(requests, bytes, calls, run);
            head_of(flags, limits, slots, per_slot)
        }
        _ => None,
    }
}

/// The first line.
fn read_head(words: &[&[u8]]) -> Option<Row>
    ensures { result ≡ Spec.head_in (map (λ word. word.now) words.now) }
{
    match words {
        [laned, borrowing, buffering, words @ ..] => {
            let flags = read_flags(laned, borrowing, buffering);
            head_after(flags, words)
        }
        _ => None,
    }
}

/// A lane.
fn read_lane(words: &[&[u8]]) -> Option<Row>
    ensures { result ≡ Spec.lane_in (map (λ word. word.now) words.now) }
{
    match words {
        [priority, statics, dynamics] => {
            let priority = priority_number(priority)?;
            let statics = small_number(statics)?;
            let dynamics = small_number(dynamics)?;
            Some(Row::Lane(LaneSpec {
                priority,
                statics,
                dynamics,
            }))
        }
        _ => None,
    }
}

/// How many entries there are.
fn read_count(words: &[&[u8]]) -> Option<Row>
    ensures { result ≡ Spec.count_in (map (λ word. word.now) words.now) }
{
    match words {
        [entries] => {
            let entries = count_number(entries)?;
            Some(Row::Count(entries))
        }
        _ => None,
    }
}

/// An entry, by its caller and the words after that.
fn read_entry(caller: &[u8], words: &[&[u8]]) -> Option<Row>
    ensures { result ≡ Spec.entry_in caller.now (map (λ word. word.now) words.now) }
{
    match words {
        [verb, words @ ..] => {
            let caller = long_number(caller)?;
            let action = read_action(verb, words)?;
            Some(Row::Entry(TraceLine { caller, action }))
        }
        [] => None,
    }
}

/// A line, by its first word and the words after that.
fn read_row(first: &[u8], words: &[&[u8]]) -> Option<Row>
    ensures { result ≡ Spec.row_in first.now (map (λ word. word.now) words.now) }
{
    if first == b"pool".as_slice() {
        read_head(words)
    } else if first == b"lane".as_slice() {
        read_lane(words)
    } else if first == b"entries".as_slice() {
        read_count(words)
    } else {
        read_entry(first, words)
    }
}

/// A line, by its words.
fn row_of(words: &[&[u8]]) -> Option<Row>
    ensures { result ≡ Spec.row_of (map (λ word. word.now) words.now) }
{
    match words {
        [first, words @ ..] => read_row(first, words),
        [] => None,
    }
}

/// A line of a trace but its summary, without its line feed. None where the text is no such line. Work grows with the line, up to as
/// many words as a line has; it takes no memory.
pub fn read_line(line: &[u8]) -> Option<Row>
    ensures { result ≡ Spec.line_in line.now }
{
    let words = parts_of(line, b' ')?;
    row_of(words.as_slice())
}
