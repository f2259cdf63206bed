//! Priorities and lanes by hand.

use orb_base::{Band, LaneSpec, List, PoolSpec, Priority, PriorityModel};
use priority_models::*;
use std::alloc::Global;
use std::test::*;

/// The ends of a band, or none.
pub type Ends = Option<(i16, i16)>;

/// The band with these ends, or None where they have none.
pub fn band(ends: Ends) -> Option<Option<Band>> {
    match ends {
        Some((low, high)) => {
            let band = Band::new(Priority::new(low)?, Priority::new(high)?)?;
            Some(Some(band))
        }
        None => Some(None),
    }
}

/// A lane of one static thread.
fn lane(level: i16) -> Option<LaneSpec> {
    Some(LaneSpec {
        priority: Priority::new(level)?,
        statics: 1,
        dynamics: 0,
    })
}

fn lanes(alloc: Global, levels: &[i16]) -> Option<List<LaneSpec>> {
    let mut lanes = List::new(alloc);
    for level in levels {
        if lanes.push(lane(*level)?).is_err() {
            return None;
        }
    }
    Some(lanes)
}

/// A pool of one static thread for each priority.
pub fn pool(alloc: Global, laned: bool, levels: &[i16]) -> Option<PoolSpec> {
    Some(PoolSpec {
        laned,
        lanes: lanes(alloc, levels)?,
        borrowing: false,
        buffering: false,
        max_requests: 0,
        max_bytes: 0,
        run_calls: 100,
        run_bytes: 1000,
    })
}

/// The low end, the high end and the priority that takes their place.
type RowEnds = (i16, i16, i16);

/// The rows of these numbers, or None where they are none.
fn rows(alloc: Global, table: &[RowEnds]) -> Option<List<TransformRow>> {
    let mut rows = List::new(alloc);
    for (low, high, to) in table {
        let band = Band::new(Priority::new(*low)?, Priority::new(*high)?)?;
        let to = Priority::new(*to)?;
        if rows.push(TransformRow { band, to }).is_err() {
            return None;
        }
    }
    Some(rows)
}

/// A model, the priority that a request was sent with, and the one that counts on a server of priority 30.
type Counted = (PriorityModel, Option<i16>, Option<i16>);

/// Without a transform.
const MANDATED: &[Counted] = &[
    (PriorityModel::ClientPropagated, Some(100), Some(100)),
    (PriorityModel::ClientPropagated, None, Some(30)),
    (PriorityModel::ServerDeclared, Some(100), Some(30)),
    (PriorityModel::ServerDeclared, None, Some(30)),
];

/// 0 to 49 to 10, and 50 to 100 to 20.
const TWO_ROWS: &[RowEnds] = &[(0, 49, 10), (50, 100, 20)];

/// The same in the other order.
const TURNED: &[RowEnds] = &[(50, 100, 20), (0, 49, 10)];

/// With either of them.
const TRANSFORMED: &[Counted] = &[
    (PriorityModel::ClientPropagated, Some(0), Some(10)),
    (PriorityModel::ClientPropagated, Some(49), Some(10)),
    (PriorityModel::ClientPropagated, Some(50), Some(20)),
    (PriorityModel::ClientPropagated, Some(100), Some(20)),
    (PriorityModel::ClientPropagated, Some(101), None),
    // The server's own priority isn't mapped.
    (PriorityModel::ClientPropagated, None, Some(30)),
    (PriorityModel::ServerDeclared, Some(70), Some(30)),
    (PriorityModel::ServerDeclared, Some(101), Some(30)),
    (PriorityModel::ServerDeclared, None, Some(30)),
];

/// The number that counts, if one does.
fn counts(model: PriorityModel, transform: &Transform, sent: Option<Priority>) -> Option<i16> {
    let server = Priority::new(30)?;
    let counted = mandated(model, server, transform, sent)?;
    Some(counted.get())
}

/// The priority of a number, if there is one.
fn sent(level: Option<i16>) -> Option<Priority> {
    Priority::new(level?)
}

fn each_counts(transform: &Transform, rows: &[Counted]) -> bool {
    for (model, level, want) in rows {
        if counts(*model, transform, sent(*level)) != *want {
            return false;
        }
    }
    true
}

/// Whether these priorities count with the transform of these rows.
fn all_count(alloc: Global, table: &[RowEnds], counted: &[Counted]) -> bool {
    match rows(alloc, table) {
        Some(rows) => match Transform::new(rows) {
            Some(transform) => each_counts(&transform, counted),
            None => false,
        },
        None => false,
    }
}

fn all_count_without(alloc: Global) -> bool {
    each_counts(&Transform::none(alloc), MANDATED)
}

#[test]
fn the_model_decides_whose_priority_counts(rt: HostRuntime) {
    assert!(rt; all_count_without(rt.alloc()));
}

#[test]
fn a_transform_maps_what_a_client_sends(rt: HostRuntime) {
    transforms_map_by_bands();
    assert!(rt; all_count(rt.alloc(), TWO_ROWS, TRANSFORMED));
    assert!(rt; all_count(rt.alloc(), TURNED, TRANSFORMED));
}

#[test]
fn a_transform_of_no_rows_keeps_what_a_client_sends(rt: HostRuntime) {
    assert!(rt; all_count(rt.alloc(), &[], MANDATED));
}

/// Rows, and whether they are those of a transform.
const TABLES: &[(&[RowEnds], bool)] = &[
    (&[], true),
    (&[(0, 32767, 1)], true),
    (&[(5, 5, 1), (6, 6, 1), (4, 4, 1)], true),
    (&[(0, 49, 10), (49, 100, 20)], false),
    (&[(0, 49, 10), (0, 49, 10)], false),
    (&[(10, 20, 1), (40, 50, 1), (0, 9, 1), (15, 15, 1)], false),
    (&[(0, 32767, 1), (7, 7, 1)], false),
];

fn is_a_transform(alloc: Global, table: &[RowEnds]) -> Option<bool> {
    let rows = rows(alloc, table)?;
    Some(Transform::new(rows).is_some())
}

fn tables_are_judged(alloc: Global) -> bool {
    for (table, want) in TABLES {
        if is_a_transform(alloc, table) != Some(*want) {
            return false;
        }
    }
    true
}

/// So many rows, each of one priority.
fn single_rows(alloc: Global, count: i16) -> Option<List<TransformRow>> {
    let mut rows = List::new(alloc);
    for level in 0..count {
        let p = Priority::new(level)?;
        let band = Band::new(p, p)?;
        if rows.push(TransformRow { band, to: p }).is_err() {
            return None;
        }
    }
    Some(rows)
}

fn takes(alloc: Global, count: i16) -> Option<bool> {
    let rows = single_rows(alloc, count)?;
    Some(Transform::new(rows).is_some())
}

#[test]
fn a_transform_has_few_rows_that_share_no_priority(rt: HostRuntime) {
    assert!(rt; tables_are_judged(rt.alloc()));
    assert!(rt; takes(rt.alloc(), 32) == Some(true));
    assert!(rt; takes(rt.alloc(), 33) == Some(false));
}

/// A band that is bound, a priority, and the lane that takes it.
type Row = (Ends, i16, Result<u8, Misplaced>);

/// Where a priority is placed, or None where the row or the pool isn't one.
fn place(pool: &PoolSpec, bound: Ends, level: i16) -> Option<Result<u8, Misplaced>> {
    let priority = Priority::new(level)?;
    let bound = band(bound)?;
    if !pool.well_formed() {
        return None;
    }
    Some(placed(pool, bound, priority))
}

fn places_each(pool: &PoolSpec, rows: &[Row]) -> bool {
    for (bound, level, want) in rows {
        if place(pool, *bound, *level) != Some(*want) {
            return false;
        }
    }
    true
}

/// Whether a pool of these priorities places each row so.
fn all_are_placed(alloc: Global, laned: bool, levels: &[i16], rows: &[Row]) -> bool {
    match pool(alloc, laned, levels) {
        Some(pool) => places_each(&pool, rows),
        None => false,
    }
}

const IN_LANES: &[Row] = &[
    (None, 0, Ok(0)),
    (None, 10, Ok(1)),
    (None, 20, Ok(2)),
    (None, 32767, Ok(3)),
    (None, 11, Err(Misplaced::NoLane)),
];

#[test]
fn a_request_runs_in_the_lane_of_its_priority(rt: HostRuntime) {
    assert!(rt; all_are_placed(rt.alloc(), true, &[0, 10, 20, 32767], IN_LANES));
}

const IN_A_BAND: &[Row] = &[
    (Some((15, 25)), 20, Ok(1)),
    (Some((15, 25)), 10, Err(Misplaced::OutsideBand)),
    (Some((15, 25)), 14, Err(Misplaced::OutsideBand)),
    (Some((15, 25)), 15, Err(Misplaced::NoLane)),
    (Some((15, 25)), 25, Err(Misplaced::NoLane)),
    (Some((15, 25)), 26, Err(Misplaced::OutsideBand)),
];

#[test]
fn a_bound_band_is_asked_before_the_lanes(rt: HostRuntime) {
    assert!(rt; all_are_placed(rt.alloc(), true, &[10, 20], IN_A_BAND));
}

const WITHOUT_LANES: &[Row] = &[
    (None, 0, Ok(0)),
    (None, 100, Ok(0)),
    (None, 32767, Ok(0)),
    (Some((5, 5)), 5, Ok(0)),
    (Some((5, 5)), 6, Err(Misplaced::OutsideBand)),
];

#[test]
fn a_pool_without_lanes_takes_every_priority(rt: HostRuntime) {
    assert!(rt; all_are_placed(rt.alloc(), false, &[100], WITHOUT_LANES));
}
