//! The call of the lane machine that a request means.
ghost use Rattle.std.specs.Prelude.{◌≡◌, IfOk};
ghost use Rattle.request_judge.specs.Calls as Spec;
ghost use Rattle.request_judge.specs.Requests.{request_of};

use crate::refusal::Refusal;
use crate::request::Asked;
use crate::verdict::{Place, Verdict};
use giop_messages::due_of;
use lane_machine::LaneCall;
use orb_base::{Arc, ConnId, Due, Job, NoMemory, Notice, Octets, Order, Text, What};
use std::alloc::Global;

/// What a client is to be answered without a run, where a reply is due.
pub fn notice_of(conn: ConnId, order: Order, request: &Asked<'_>, what: What) -> Option<Notice>
    ensures { result ≡ Spec.notice_of conn order (request_of request.now) what }
{
    match due_of(request.flags) {
        Due::Nothing => None,
        _ => Some(Notice {
            conn,
            order,
            id: request.id,
            what,
        }),
    }
}

/// An answer of the reading side, where a reply is due.
#[tactic(auto, using(crate::proofs::Notices::posts_the_notice))]
fn posted(conn: ConnId, order: Order, request: &Asked<'_>, what: What) -> Option<LaneCall>
    ensures { result ≡ Spec.posted conn order (request_of request.now) what }
{
    let notice = notice_of(conn, order, request, what)?;
    Some(LaneCall::Post(notice))
}

/// The job of a request that runs here, as the call of this number of its connection; `size` is the length of its message in bytes. Copies
/// the operation and the body.
pub fn job_of(
    alloc: Global,
    conn: ConnId,
    serial: u32,
    order: Order,
    size: u32,
    request: &Asked<'_>,
    place: Place,
) -> Result<Job, NoMemory>
    ensures { IfOk result (λ job. job ≡ Spec.job_of conn serial order size (request_of request.now) place) }
{
    let operation = Text::of_plain(alloc, request.operation)?;
    let body = Octets::from_vec(Vec::from_slice(alloc, request.body)?);
    Ok(Job {
        conn,
        serial,
        id: request.id,
        order,
        due: due_of(request.flags),
        priority: place.priority,
        lane: place.lane,
        size,
        target: place.target,
        operation,
        body,
    })
}

/// The call that a request means by its verdict, as the call of this number of its connection; `size` is the length of its message
/// in bytes. A request that runs is offered; each other one is answered where a reply is due, and else means none. The operation
/// and the body of a request that runs are copied, once; of each other one nothing is copied.
pub fn call_of(
    alloc: Global,
    conn: ConnId,
    serial: u32,
    order: Order,
    size: u32,
    request: &Asked<'_>,
    verdict: Result<Verdict, Refusal>,
) -> Result<Option<LaneCall>, NoMemory>
    ensures call { IfOk result (λ call. call ≡ Spec.call_of conn serial order size (request_of request.now) verdict) }
{
    match verdict {
        Ok(Verdict::Runs(place)) => {
            let job = job_of(alloc, conn, serial, order, size, request, place)?;
            match Arc::new(alloc, job) {
                Ok(job) => Ok(Some(LaneCall::Offer(job))),
                Err(_) => Err(NoMemory),
            }
        }
        Ok(Verdict::Binds(_)) => Ok(posted(conn, order, request, What::Bound)),
        Err(refusal) => Ok(posted(conn, order, request, refusal.answer())),
    }
}
