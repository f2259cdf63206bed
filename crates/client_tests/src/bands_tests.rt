//! Bands, and what is still to be bound, by hand.

use banded_links::*;
use orb_base::{Band, List, Priority};
use std::alloc::Global;

/// The ends of a band.
type Span = (i16, i16);

/// The band with these ends, or None where it has none.
fn band(ends: Span) -> Option<Band> {
    Band::new(Priority::new(ends.0)?, Priority::new(ends.1)?)
}

/// The list of the bands with these ends, or None where they have none.
fn list(alloc: Global, spans: &[Span]) -> Option<List<Band>> {
    let mut list = List::new(alloc);
    for ends in spans {
        if list.push(band(*ends)?).is_err() {
            return None;
        }
    }
    Some(list)
}

/// A priority, and the place of the band that holds it.
type Choice = (i16, Option<usize>);

fn chooses_each(bands: &Bands, rows: &[Choice]) -> bool {
    for (level, want) in rows {
        match Priority::new(*level) {
            Some(priority) if bands.choose(priority) == *want => (),
            _ => return false,
        }
    }
    true
}

/// Whether the bands with these ends are taken, and hold each priority so.
fn all_are_chosen(alloc: Global, spans: &[Span], rows: &[Choice]) -> bool {
    match list(alloc, spans) {
        Some(list) => match Bands::new(list) {
            Ok(bands) => bands.as_slice().len() == spans.len() && chooses_each(&bands, rows),
            Err(_) => false,
        },
        None => false,
    }
}

const HELD: &[Choice] = &[
    (0, Some(1)),
    (99, Some(1)),
    (100, Some(0)),
    (200, Some(0)),
    (201, None),
    (300, Some(2)),
    (32767, None),
];

#[test]
fn a_priority_chooses_the_band_that_holds_it(rt: HostRuntime) {
    assert!(rt; all_are_chosen(rt.alloc(), &[(100, 200), (0, 99), (300, 300)], HELD));
}

#[test]
fn one_band_may_hold_every_priority(rt: HostRuntime) {
    assert!(rt; all_are_chosen(rt.alloc(), &[(0, 32767)], &[(0, Some(0)), (32767, Some(0))]));
}

#[test]
fn no_bands_hold_no_priority(rt: HostRuntime) {
    assert!(rt; all_are_chosen(rt.alloc(), &[], &[(0, None), (32767, None)]));
}

fn are_those(bands: &[Band], spans: &[Span]) -> bool {
    if bands.len() != spans.len() {
        return false;
    }
    for (band, (low, high)) in bands.iter().zip(spans) {
        if band.low().get() != *low || band.high().get() != *high {
            return false;
        }
    }
    true
}

/// Whether the bands with these ends are handed back.
fn is_handed_back(alloc: Global, spans: &[Span]) -> bool {
    match list(alloc, spans) {
        Some(list) => match Bands::new(list) {
            Ok(_) => false,
            Err(back) => are_those(back.as_slice(), spans),
        },
        None => false,
    }
}

const SHARED: &[&[Span]] = &[
    &[(0, 100), (100, 200)],
    &[(100, 200), (0, 100)],
    &[(5, 5), (5, 5)],
    &[(0, 10), (20, 30), (10, 12)],
    &[(10, 20), (0, 32767)],
    &[(0, 32767), (10, 20)],
];

fn all_are_handed_back(alloc: Global, rows: &[&[Span]]) -> bool {
    for spans in rows {
        if !is_handed_back(alloc, spans) {
            return false;
        }
    }
    true
}

#[test]
fn bands_that_share_a_priority_are_handed_back(rt: HostRuntime) {
    assert!(rt; all_are_handed_back(rt.alloc(), SHARED));
}

/// The status that answers the bind of the band from 10 to 20, whether the band is bound then, and the band still wanted.
type Reply = (u32, bool, Option<Span>);

fn answers(band: Band, status: u32, bound: bool, wanted: Option<Band>) -> bool {
    let mut client = BindClient::new(Some(band));
    client.wants() == Some(band) && client.answered(status) == bound && client.wants() == wanted
}

fn is_answered(row: &Reply) -> Option<bool> {
    let (status, bound, wanted) = row;
    let asked = band((10, 20))?;
    let wanted = match wanted {
        Some(ends) => Some(band(*ends)?),
        None => None,
    };
    Some(answers(asked, *status, *bound, wanted))
}

fn all_binds_are_answered(rows: &[Reply]) -> bool {
    for row in rows {
        if is_answered(row) != Some(true) {
            return false;
        }
    }
    true
}

const REPLIES: &[Reply] = &[
    (NO_EXCEPTION, true, None),
    (1, false, Some((10, 20))),
    (2, false, Some((10, 20))),
    (5, false, Some((10, 20))),
    (4294967295, false, Some((10, 20))),
];

#[test]
fn a_band_is_wanted_until_it_is_bound(rt: HostRuntime) {
    assert!(rt; all_binds_are_answered(REPLIES));
}

fn wants_none() -> bool {
    BindClient::new(None).wants().is_none()
}

#[test]
fn a_call_without_a_band_binds_none(rt: HostRuntime) {
    assert!(rt; wants_none());
}
