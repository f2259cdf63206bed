//! Requests, as a trace says them.
ghost use Rattle.std.specs.Prelude.{◌≡◌, ◌↔◌, IsTrue};
ghost use Rattle.trace_lines.specs.ReadBack.{job_of};
ghost use Rattle.lane_audit.specs.Sameness.{HasSameName, HasSameDemand};

use orb_base::{ConnId, Due, Priority};
use std::marker::Model;
use trace_lines::OfferedRequest;

/// A request, of which a trace says what the rules of the lane machine look at.
#[derive(Clone, Copy)]
pub struct Asked {
    request: OfferedRequest,
}

impl Model for Asked {
    ghost use Rattle.orb_base.specs.JobRecord.{JobRecord};
    ghost use Rattle.trace_lines.specs.ReadBack.{job_of};
    ghost use Rattle.trace_lines.specs.Lines.{request_of};

    ghost Value = { JobRecord };

    ghost view = { λ a. job_of a.request };

    ghost inverse = { λ job. record { request = request_of job } };
}

impl Asked {
    /// The request that a line offers.
    pub fn new(request: OfferedRequest) -> Asked
        ensures { result ≡ job_of request }
    {
        Asked { request }
    }

    /// The connection that it came by.
    pub fn conn(&self) -> ConnId
        ensures { result ≡ self.now.conn }
    {
        self.request.conn
    }

    /// Its id.
    pub fn id(&self) -> u32
        ensures { result ≡ self.now.id }
    {
        self.request.id
    }

    /// When a reply is due.
    pub fn due(&self) -> Due
        ensures { result ≡ self.now.due }
    {
        self.request.due
    }

    /// The mandated priority.
    pub fn priority(&self) -> Priority
        ensures { result ≡ self.now.priority }
    {
        self.request.priority
    }

    /// The lane that runs it, from 0.
    pub fn lane(&self) -> u8
        ensures { result ≡ self.now.lane }
    {
        self.request.lane
    }

    /// The length of the whole message in bytes.
    pub fn size(&self) -> u32
        ensures { result ≡ self.now.size }
    {
        self.request.size
    }

    /// Whether both are one request: alike in all that a trace says.
    pub fn is_same(&self, other: &Asked) -> bool
        ensures { IsTrue result ↔ (self.now ≡ other.now) }
    {
        is_same_name(&self.request, &other.request) && is_same_demand(&self.request, &other.request)
    }
}

/// Whether two requests have one connection, serial number and id.
fn is_same_name(a: &OfferedRequest, b: &OfferedRequest) -> bool
    ensures { IsTrue result ↔ HasSameName a.now b.now }
{
    a.conn == b.conn && a.serial == b.serial && a.id == b.id
}

/// Whether two requests are alike in when a reply is due, and in priority, lane and size.
fn is_same_demand(a: &OfferedRequest, b: &OfferedRequest) -> bool
    ensures { IsTrue result ↔ HasSameDemand a.now b.now }
{
    a.due == b.due && a.priority == b.priority && a.lane == b.lane && a.size == b.size
}
