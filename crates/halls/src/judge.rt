//! What messages mean in a hall.
ghost use Rattle.std.specs.Prelude.{◌≡◌, IfOk};
ghost use Rattle.giop_messages.specs.PartsView.{parts_target};
ghost use Rattle.request_judge.specs.Requests.{request_of};
ghost use Rattle.halls.specs.Meaning as Spec;
ghost use Rattle.halls.specs.OneWay.{means_one_thing};

use crate::call::HallCall;
use adapter_policies::Setup;
use giop_messages::{Fault, PartTarget, Parts};
use heard_messages::{Judge, Means};
use orb_base::{Arc, ConnId, NoMemory, Notice, Order, What};
use request_judge::{Asked, Place, Refusal, is_here, job_of, judge_in_hall, notice_of};
use std::alloc::Global;
use std::marker::Model;

/// Decides what the messages of a connection mean in a hall of this setup.
#[derive(Drop)]
pub struct HallJudge<'a> {
    pub setup: &'a Setup,
    pub conn: ConnId,
}

impl<'a> Model for HallJudge<'a> {
    ghost use Rattle.halls.specs.Meaning.{Hearer};

    ghost Value = { Hearer };

    ghost view = { λ j. record { setup = j.setup.now; conn = j.conn } };
}

/// The answer to a question of this id where an object is.
fn located(setup: &Setup, conn: ConnId, order: Order, id: u32, target: &PartTarget<'_>) -> HallCall
    ensures { result ≡ Spec.where_is setup.now conn order (record { id = id; target = parts_target target.now }) }
{
    HallCall::Post(Notice {
        conn,
        order,
        id,
        what: What::Located(is_here(setup, target)),
    })
}

/// The invocation of a request that runs, as the call of this number of its connection; `size` is the length of its message in bytes.
fn invocation(
    alloc: Global,
    conn: ConnId,
    serial: u32,
    order: Order,
    size: u32,
    request: &Asked<'_>,
    place: Place,
) -> Result<HallCall, NoMemory>
    ensures { IfOk result (λ call. call ≡ Spec.invocation conn serial order size (request_of request.now) place) }
{
    let job = job_of(alloc, conn, serial, order, size, request, place)?;
    match Arc::new(alloc, job) {
        Ok(job) => Ok(HallCall::Invoke(job)),
        Err(_) => Err(NoMemory),
    }
}

/// The answer to a request that is refused, where a reply is due.
fn refused(conn: ConnId, order: Order, request: &Asked<'_>, refusal: Refusal) -> Option<HallCall>
    ensures { result ≡ Spec.refused conn order (request_of request.now) refusal }
{
    let notice = notice_of(conn, order, request, refusal.answer())?;
    Some(HallCall::Post(notice))
}

/// What a request means, as the call of this number of its connection; `size` is the length of its message in bytes.
fn requested(
    alloc: Global,
    judge: &HallJudge<'_>,
    serial: u32,
    order: Order,
    size: u32,
    request: &Asked<'_>,
) -> Result<Means<(), HallCall>, NoMemory>
    ensures { IfOk result (Spec.MeansRequest judge.now.setup judge.now.conn serial order size (request_of request.now)) }
{
    match judge_in_hall(judge.setup, request) {
        Ok(place) => {
            let call = invocation(alloc, judge.conn, serial, order, size, request, place)?;
            Ok(Means::Goes {
                bound: (),
                call: Some(call),
            })
        }
        Err(refusal) => Ok(Means::Goes {
            bound: (),
            call: refused(judge.conn, order, request, refusal),
        }),
    }
}

impl<'a> Judge for HallJudge<'a> {
    type Bound = ();

    type Call = HallCall;

    ghost first = { λ judge. tt };

    ghost means = { λ judge. Spec.means judge.setup judge.conn };

    ghost one_way = { λ judge. means_one_thing judge.setup judge.conn };

    fn begin(&self) {}

    fn judge(
        &self,
        alloc: Global,
        _bound: &(),
        serial: u32,
        order: Order,
        size: u32,
        parts: Parts<'_>,
    ) -> Result<Means<(), HallCall>, NoMemory> {
        match parts {
            Parts::Request {
                id,
                flags,
                target,
                operation,
                contexts,
                body,
            } => {
                let request = Asked {
                    id,
                    flags,
                    target,
                    operation,
                    contexts,
                    body,
                };
                requested(alloc, self, serial, order, size, &request)
            }
            Parts::Cancel(_) => Ok(Means::Goes {
                bound: (),
                call: None,
            }),
            Parts::Locate { id, target } => Ok(Means::Goes {
                bound: (),
                call: Some(located(self.setup, self.conn, order, id, &target)),
            }),
            Parts::Reply { .. } => Ok(Means::Breaks(Fault::WrongWay)),
            Parts::Located { .. } => Ok(Means::Breaks(Fault::WrongWay)),
            Parts::Close => Ok(Means::Ends),
            Parts::Error => Ok(Means::Ends),
        }
    }
}
