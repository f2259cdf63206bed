//! Lines of traces by hand, read.

use orb_base::Octets;
use std::alloc::Global;
use trace_reading::*;

/// Lines of entries that are read, one of each kind and with the greatest numbers.
const ENTRIES: &[&[u8]] = &[
    b"0 offer 0.0 0 1 2 100 0 48 run 0",
    b"4294967295 offer 255.255 4294967295 4294967295 0 32767 255 4294967295 lent 255",
    b"3 offer 1.2 3 4 1 5 6 7 kept",
    b"3 offer 1.2 3 4 1 5 6 7 full",
    b"3 offer 1.2 3 4 1 5 6 7 closing",
    b"10 post 0.1 20 posted",
    b"10 post 0.1 20 closing",
    b"10 cancel 0.1 20 removed",
    b"10 cancel 0.1 20 nothing",
    b"10 cancel 0.1 20 closing",
    b"0 take 0 0",
    b"1 take 63 4294967295",
    b"1 take 7 ended",
    b"0 finish 0 0 2",
    b"0 collect 0.0 answered 0",
    b"0 collect 0.0 early 10",
    b"0 collect 0.0 transient 4294967295",
    b"0 collect 0.0 posted 4294967295",
    b"0 collect 0.0 close",
    b"0 collect 0.0 error",
    b"0 collect 0.0 done",
    b"0 end 0.0 quiet",
    b"0 end 0.0 bad",
    b"0 end 0.0 shut",
    b"1 leave 0",
];

/// Whether a line is read as an entry, which is printed as the line.
fn is_printed_back(alloc: Global, line: &[u8]) -> bool {
    let Some(Row::Entry(entry)) = read_line(line) else {
        return false;
    };
    let mut want = Octets::new(alloc);
    if want.append(line).is_err() || want.append(b"\n").is_err() {
        return false;
    }
    match entry.to_string(alloc) {
        Ok(text) => text.as_bytes() == want.as_slice(),
        Err(_) => false,
    }
}

#[test]
fn entries_are_printed_as_they_are_read(rt: HostRuntime) {
    assert!(rt; ENTRIES.iter().all(|line| is_printed_back(rt.alloc(), line)));
}

/// Whether the first line of a run is read with its nine numbers.
fn reads_a_pool() -> bool {
    match read_line(b"pool 1 0 1 2 3 65536 67108864 4 5") {
        Some(Row::Pool(head)) => {
            head.flags.laned
                && !head.flags.borrowing
                && head.flags.buffering
                && head.limits.max_requests == 2
                && head.limits.max_bytes == 3
                && head.limits.run_calls == 65_536
                && head.limits.run_bytes == 67_108_864
                && head.slots == 4
                && head.per_slot == 5
        }
        _ => false,
    }
}

/// Whether a lane is read with its three numbers.
fn reads_a_lane() -> bool {
    match read_line(b"lane 32767 1 20") {
        Some(Row::Lane(lane)) => {
            lane.priority.level() == 32_767 && lane.statics == 1 && lane.dynamics == 20
        }
        _ => false,
    }
}

/// Whether the number of entries is read.
fn reads_a_count() -> bool {
    matches!(
        read_line(b"entries 4294967295"),
        Some(Row::Count(4_294_967_295))
    )
}

#[test]
fn the_other_lines_are_read_with_their_numbers(rt: HostRuntime) {
    assert!(rt; reads_a_pool() && reads_a_lane() && reads_a_count());
}

/// Lines that are none: of another form, or with a number that doesn't fit its field.
const REFUSED: &[&[u8]] = &[
    b"",
    b" ",
    b"\xff\xfe\x00",
    b"007 leave 0",
    b"0 leave 00",
    b"+1 leave 0",
    b"-1 leave 0",
    b"1 leave +0",
    b"1  leave 0",
    b"1 leave  0",
    b" 1 leave 0",
    b"1 leave 0 ",
    b"1 leave 0\r",
    b"1\tleave 0",
    b"1 leave 0\n",
    b"1 leave",
    b"1 leave 0 0",
    b"1 Leave 0",
    b"1 leaves 0",
    b"1 leave 256",
    b"4294967296 leave 0",
    b"99999999999999999999999 leave 0",
    b"x leave 0",
    b"1",
    b"leave 0",
    b"0 end 0 quiet",
    b"0 end 0. quiet",
    b"0 end .0 quiet",
    b"0 end 0.0.0 quiet",
    b"0 end 0.00 quiet",
    b"0 end 0.256 quiet",
    b"0 end 0.0 loud",
    b"0 take 0 none",
    b"0 take 0 4294967296",
    b"0 take 256 0",
    b"0 finish 0 0",
    b"0 finish 0 0 4294967296",
    b"0 collect 0.0",
    b"0 collect 0.0 done 0",
    b"0 collect 0.0 answered",
    b"0 collect 0.0 answered ended",
    b"0 post 0.0 1 removed",
    b"0 cancel 0.0 1 posted",
    b"0 offer 0.0 0 1 3 100 0 48 run 0",
    b"0 offer 0.0 0 1 2 32768 0 48 run 0",
    b"0 offer 0.0 0 1 2 100 256 48 run 0",
    b"0 offer 0.0 0 1 2 100 0 4294967296 run 0",
    b"0 offer 0.0 0 1 2 100 0 48 run",
    b"0 offer 0.0 0 1 2 100 0 48 kept 0",
    b"0 offer 0.0 0 1 2 100 0 48",
    b"0 offer 0.0 0 1 2 100 0 48 run 0 0 0 0 0 0",
    b"pool 0 0 0 0 0 65536 67108864 1",
    b"pool 2 0 0 0 0 65536 67108864 1 128",
    b"pool 0 0 0 0 0 65536 67108864 1 256",
    b"pool 0 0 0 0 0 65536 4294967296 1 128",
    b"lane 100 1",
    b"lane 100 1 256",
    b"lane -1 1 0",
    b"entries",
    b"entries 01",
    b"entries 4294967296",
    b"calls 1 run 1 lent 0 kept 0 full 0 removed 0 connections 1",
];

#[test]
fn other_lines_are_refused(rt: HostRuntime) {
    assert!(rt; REFUSED.iter().all(|line| read_line(line).is_none()));
}
