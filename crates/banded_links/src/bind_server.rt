//! The serving side of a connection, as to bands.
ghost use Rattle.std.specs.Prelude.{◌≡◌, ◌&&◌, nat_le, None};
ghost use Rattle.std.specs.List.{list_any};
ghost use Rattle.banded_links.specs.Binding.{answer, band_behind, serves};

use crate::bind_answer::BindAnswer;
use orb_base::{Band, LaneSpec, PoolSpec};
use std::marker::Model;

/// The band that a connection has bound on its serving side, if it has bound one.
#[derive(Clone, Copy, Debug)]
pub struct BindServer {
    band: Option<Band>,
}

impl Model for BindServer {
    ghost use Rattle.std.specs.Prelude.{Option};
    ghost use Rattle.orb_base.specs.Span.{Span};

    ghost Value = { Option Span };

    ghost view = { λ s. s.band };

    ghost inverse = { λ b. record { band = b } };
}

impl BindServer {
    /// A connection that has bound none.
    pub fn new() -> BindServer
        ensures { result ≡ None }
    {
        BindServer { band: None }
    }

    /// The bound band.
    pub fn band(&self) -> Option<Band>
        ensures { result ≡ self.now }
    {
        self.band
    }

    /// Binds the band that a request carries, in place of the one that was bound before. A refused bind leaves that one as it
    /// was. The work is one pass over the lanes, of which there are at most 16.
    pub fn bind(&mut self, pool: &PoolSpec, range: Option<Band>) -> BindAnswer
        ensures answer { result ≡ answer pool.now range }
        ensures band { self.new ≡ band_behind result range self.old }
    {
        let Some(band) = range else {
            return BindAnswer::Malformed;
        };
        if !serves(pool, band) {
            return BindAnswer::NoLane;
        }
        self.band = Some(band);
        BindAnswer::Bound
    }
}

/// Whether a lane has a priority of the band; a pool without lanes takes every priority.
fn serves(pool: &PoolSpec, band: Band) -> bool
    ensures { result ≡ serves pool.now band }
{
    if !pool.laned {
        return true;
    }
    has_lane(pool.lanes.as_slice(), band)
}

/// Whether one of the lanes has a priority of the band.
fn has_lane(lanes: &[LaneSpec], band: Band) -> bool
    ensures { result ≡ list_any (λ lane. nat_le band.low lane.priority && nat_le lane.priority band.high) lanes.now }
{
    lanes.iter().any(|lane| is_within(lane, band))
}

/// Whether the lane's priority lies in the band.
fn is_within(lane: &LaneSpec, band: Band) -> bool
    ensures { result ≡ (nat_le band.low lane.now.priority && nat_le lane.now.priority band.high) }
{
    band.low() <= lane.priority && lane.priority <= band.high()
}
