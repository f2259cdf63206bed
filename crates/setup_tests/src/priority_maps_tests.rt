//! Maps by hand: the values are those of the formula, worked out on paper.

use orb_base::{Band, List, Priority};
use priority_maps::*;
use std::alloc::Global;
use std::test::*;

/// Priorities, and the natives that a map gives them.
type Ups = &'static [(i16, Option<i32>)];

/// Natives, and the priorities that a map gives them.
type Downs = &'static [(i32, Option<i16>)];

/// A linear map: the ends of its band, those of its natives, and what it gives.
struct LinearMap {
    band: (i16, i16),
    natives: (i32, i32),
    ups: Ups,
    downs: Downs,
}

fn band(low: i16, high: i16) -> Option<Band> {
    Band::new(Priority::new(low)?, Priority::new(high)?)
}

fn linear(row: &LinearMap) -> Option<Map> {
    let (low, high) = row.band;
    let (native_low, native_high) = row.natives;
    Map::linear(band(low, high)?, native_low, native_high)
}

/// The native of a priority, or None where there is no such priority.
fn native(map: &Map, level: i16) -> Option<Option<i32>> {
    Some(map.to_native(Priority::new(level)?))
}

fn rises(map: &Map, ups: Ups) -> bool {
    for (level, want) in ups {
        if native(map, *level) != Some(*want) {
            return false;
        }
    }
    true
}

fn corba(map: &Map, native: i32) -> Option<i16> {
    Some(map.to_corba(native)?.get())
}

fn falls(map: &Map, downs: Downs) -> bool {
    for (native, level) in downs {
        if corba(map, *native) != *level {
            return false;
        }
    }
    true
}

fn agrees(map: Option<Map>, ups: Ups, downs: Downs) -> bool {
    match map {
        Some(map) => rises(&map, ups) && falls(&map, downs),
        None => false,
    }
}

/// Whether a linear map gives what its row says.
fn holds(row: &LinearMap) -> bool {
    agrees(linear(row), row.ups, row.downs)
}

const TEN_SHARES: LinearMap = LinearMap {
    band: (0, 100),
    natives: (1, 10),
    ups: &[
        (0, Some(1)),
        (10, Some(1)),
        (11, Some(2)),
        (50, Some(5)),
        (100, Some(10)),
        (101, None),
    ],
    downs: &[
        (1, Some(0)),
        (5, Some(41)),
        (10, Some(91)),
        (0, None),
        (11, None),
    ],
};

#[test]
fn a_linear_map_has_ten_shares_of_101(rt: HostRuntime) {
    assert!(rt; holds(&TEN_SHARES));
}

const BAND_OF_ONE: LinearMap = LinearMap {
    band: (7, 7),
    natives: (-3, 3),
    ups: &[(6, None), (7, Some(-3)), (8, None)],
    downs: &[(-3, Some(7)), (-2, None), (3, None)],
};

#[test]
fn a_band_of_one_has_the_low_native(rt: HostRuntime) {
    assert!(rt; holds(&BAND_OF_ONE));
}

const BELOW_ZERO: LinearMap = LinearMap {
    band: (0, 32767),
    natives: (-20, -1),
    ups: &[(0, Some(-20)), (32767, Some(-1))],
    downs: &[(-20, Some(0)), (-1, Some(31130)), (0, None)],
};

#[test]
fn natives_lie_below_zero(rt: HostRuntime) {
    assert!(rt; holds(&BELOW_ZERO));
}

const GAPS: LinearMap = LinearMap {
    band: (10, 12),
    natives: (0, 99),
    ups: &[(10, Some(0)), (11, Some(33)), (12, Some(66))],
    downs: &[
        (0, Some(10)),
        (33, Some(11)),
        (66, Some(12)),
        (1, None),
        (34, None),
        (67, None),
        (99, None),
    ],
};

#[test]
fn more_natives_than_priorities_leave_gaps(rt: HostRuntime) {
    assert!(rt; holds(&GAPS));
}

const SHARED: LinearMap = LinearMap {
    band: (0, 9),
    natives: (0, 2),
    ups: &[
        (0, Some(0)),
        (3, Some(0)),
        (4, Some(1)),
        (6, Some(1)),
        (7, Some(2)),
        (9, Some(2)),
    ],
    downs: &[(0, Some(0)), (1, Some(4)), (2, Some(7))],
};

fn back(map: &Map, level: i16) -> Option<i16> {
    Some(there_and_back(map, Priority::new(level)?)?.get())
}

/// Whether a priority goes to a native and comes back as this one.
fn comes_back(row: &LinearMap, level: i16, want: i16) -> bool {
    match linear(row) {
        Some(map) => back(&map, level) == Some(want),
        None => false,
    }
}

fn are_shared() -> bool {
    holds(&SHARED) && comes_back(&SHARED, 9, 7)
}

#[test]
fn fewer_natives_share_their_priorities(rt: HostRuntime) {
    assert!(rt; are_shared());
}

const ALL_OF_32_BITS: LinearMap = LinearMap {
    band: (0, 32767),
    natives: (i32::MIN, i32::MAX),
    ups: &[
        (0, Some(i32::MIN)),
        (1, Some(-2_147_352_576)),
        (32767, Some(2_147_352_576)),
    ],
    downs: &[
        (i32::MIN, Some(0)),
        (-2_147_352_576, Some(1)),
        (2_147_352_576, Some(32767)),
        (i32::MAX, None),
        (i32::MIN + 1, None),
    ],
};

#[test]
fn all_of_32_bits_are_spanned(rt: HostRuntime) {
    assert!(rt; holds(&ALL_OF_32_BITS));
}

/// Whether these natives are a range for a map.
fn is_range(native_low: i32, native_high: i32) -> Option<bool> {
    Some(Map::linear(band(0, 9)?, native_low, native_high).is_some())
}

/// Natives, from the low one to the high one, and whether they are a range.
const RANGES: &[(i32, i32, bool)] = &[(5, 4, false), (5, 5, true)];

fn are_ranges() -> bool {
    for (low, high, want) in RANGES {
        if is_range(*low, *high) != Some(*want) {
            return false;
        }
    }
    true
}

#[test]
fn natives_in_wrong_order_are_no_range(rt: HostRuntime) {
    assert!(rt; are_ranges());
}

const ITSELF: Ups = &[
    (0, Some(0)),
    (1, Some(1)),
    (100, Some(100)),
    (32767, Some(32767)),
];

const BACK: Downs = &[
    (0, Some(0)),
    (1, Some(1)),
    (100, Some(100)),
    (32767, Some(32767)),
    (-1, None),
    (32768, None),
];

#[test]
fn the_identity_gives_each_priority_itself(rt: HostRuntime) {
    assert!(rt; agrees(Some(Map::identity()), ITSELF, BACK));
}

/// The rows of a table: the ends of a band and its native.
type Rows = &'static [(i16, i16, i32)];

fn list(alloc: Global, rows: Rows) -> Option<List<MapRow>> {
    let mut list = List::new(alloc);
    for (low, high, native) in rows {
        let row = MapRow {
            band: band(*low, *high)?,
            native: *native,
        };
        if list.push(row).is_err() {
            return None;
        }
    }
    Some(list)
}

/// The map of these rows, or None where they are no table.
fn table(alloc: Global, rows: Rows) -> Option<Option<Map>> {
    match Map::table(alloc, list(alloc, rows)?) {
        Ok(map) => Some(map),
        Err(_) => None,
    }
}

/// Whether these rows are a table that gives this.
fn tables(alloc: Global, rows: Rows, ups: Ups, downs: Downs) -> bool {
    match table(alloc, rows) {
        Some(map) => agrees(map, ups, downs),
        None => false,
    }
}

const WITH_GAPS: Rows = &[(10, 19, 5), (30, 30, -7), (40, 50, 5)];

const GAPS_UP: Ups = &[
    (10, Some(5)),
    (19, Some(5)),
    (30, Some(-7)),
    (40, Some(5)),
    (50, Some(5)),
    (0, None),
    (9, None),
    (20, None),
    (29, None),
    (31, None),
    (39, None),
    (51, None),
    (32767, None),
];

const GAPS_DOWN: Downs = &[(5, Some(10)), (-7, Some(30)), (6, None)];

#[test]
fn a_table_has_gaps_and_a_native_twice(rt: HostRuntime) {
    assert!(rt; tables(rt.alloc(), WITH_GAPS, GAPS_UP, GAPS_DOWN));
}

const LAST: Rows = &[(32767, 32767, 1)];

const LAST_UP: Ups = &[(32766, None), (32767, Some(1))];

const LAST_DOWN: Downs = &[(1, Some(32767))];

fn may_be_short(alloc: Global) -> bool {
    tables(alloc, &[], &[(0, None)], &[(0, None)]) && tables(alloc, LAST, LAST_UP, LAST_DOWN)
}

#[test]
fn a_table_may_be_empty_or_have_the_last_priority_alone(rt: HostRuntime) {
    assert!(rt; may_be_short(rt.alloc()));
}

/// Rows, and whether they are a table.
const TABLES: &[(Rows, bool)] = &[
    (&[(0, 10, 1), (10, 20, 2)], false),
    (&[(20, 30, 1), (0, 10, 2)], false),
    (&[(0, 10, 1), (11, 20, 2)], true),
];

/// Whether these rows are a table.
fn is_table(alloc: Global, rows: Rows) -> Option<bool> {
    Some(table(alloc, rows)?.is_some())
}

fn are_tables(alloc: Global) -> bool {
    for (rows, want) in TABLES {
        if is_table(alloc, rows) != Some(*want) {
            return false;
        }
    }
    true
}

#[test]
fn rows_that_touch_or_fall_are_no_table(rt: HostRuntime) {
    assert!(rt; are_tables(rt.alloc()));
}
