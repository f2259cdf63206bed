//! Binds by hand.

use crate::priority_models_tests::{Ends, band, pool};
use banded_links::*;
use orb_base::{Band, PoolSpec};
use std::alloc::Global;
use std::test::*;

/// The band that a connection asks for which had bound the band of 10 alone; the answer, and the band that is bound then.
type Row = (Ends, BindAnswer, Ends);

fn binds(
    pool: &PoolSpec,
    first: Option<Band>,
    range: Option<Band>,
    answer: BindAnswer,
    bound: Option<Band>,
) -> bool {
    let mut server = BindServer::new();
    server.band().is_none()
        && server.bind(pool, first) == BindAnswer::Bound
        && server.bind(pool, range) == answer
        && server.band() == bound
}

fn asks(pool: &PoolSpec, row: &Row) -> Option<bool> {
    let (range, answer, bound) = row;
    let first = band(Some((10, 10)))?;
    Some(binds(pool, first, band(*range)?, *answer, band(*bound)?))
}

fn asks_each(pool: &PoolSpec, rows: &[Row]) -> bool {
    for row in rows {
        if asks(pool, row) != Some(true) {
            return false;
        }
    }
    true
}

/// Whether a pool of these priorities answers each row so.
fn all_are_answered(alloc: Global, laned: bool, levels: &[i16], rows: &[Row]) -> bool {
    match pool(alloc, laned, levels) {
        Some(pool) => asks_each(&pool, rows),
        None => false,
    }
}

const SECOND: &[Row] = &[
    (Some((11, 20)), BindAnswer::Bound, Some((11, 20))),
    (Some((30, 32767)), BindAnswer::Bound, Some((30, 32767))),
];

#[test]
fn a_second_bind_replaces_the_first(rt: HostRuntime) {
    assert!(rt; all_are_answered(rt.alloc(), true, &[10, 20, 30], SECOND));
}

const REFUSED: &[Row] = &[
    (None, BindAnswer::Malformed, Some((10, 10))),
    (Some((21, 29)), BindAnswer::NoLane, Some((10, 10))),
    (Some((31, 32767)), BindAnswer::NoLane, Some((10, 10))),
];

#[test]
fn a_refused_bind_leaves_the_band(rt: HostRuntime) {
    assert!(rt; all_are_answered(rt.alloc(), true, &[10, 20, 30], REFUSED));
}

const WITHOUT_LANES: &[Row] = &[
    (Some((0, 0)), BindAnswer::Bound, Some((0, 0))),
    (None, BindAnswer::Malformed, Some((10, 10))),
];

#[test]
fn a_pool_without_lanes_takes_every_band(rt: HostRuntime) {
    assert!(rt; all_are_answered(rt.alloc(), false, &[100], WITHOUT_LANES));
}
