//! What one message means.
ghost use Rattle.std.specs.Prelude.{◌≡◌, IfOk};
ghost use Rattle.giop_messages.specs.MessageReading.{IsMessage};
ghost use Rattle.giop_messages.specs.PartsView.{parts_target};
ghost use Rattle.request_judge.specs.Requests.{request_of};
ghost use Rattle.heard_calls.specs.Meaning as Spec;
ghost use Rattle.heard_calls.specs.declared.means.Means.TheVariants.{Goes};

use crate::means::Means;
use adapter_policies::Setup;
use giop_frames::Whole;
use giop_messages::{Fault, PartTarget, Parts, read_parts};
use lane_machine::LaneCall;
use orb_base::{Band, ConnId, NoMemory, Notice, Order, What};
use request_judge::{Asked, Refusal, Verdict, call_of, is_here, judge};
use std::alloc::Global;

/// The answer to a question of this id where an object is.
fn located(setup: &Setup, conn: ConnId, order: Order, id: u32, target: &PartTarget<'_>) -> LaneCall
    ensures { result ≡ Spec.where_is setup.now conn order (record { id = id; target = parts_target target.now }) }
{
    LaneCall::Post(Notice {
        conn,
        order,
        id,
        what: What::Located(is_here(setup, target)),
    })
}

/// The band that is bound after a request that isn't refused.
fn bound_by(verdict: Verdict, band: Option<Band>) -> Option<Band>
    ensures { result ≡ Spec.bound_by verdict band }
{
    match verdict {
        Verdict::Binds(bound) => Some(bound),
        Verdict::Runs(_) => band,
    }
}

/// The meaning of a request of a verdict, with its call.
fn going(verdict: Result<Verdict, Refusal>, band: Option<Band>, call: Option<LaneCall>) -> Means
    ensures { result ≡ Goes (Spec.band_behind verdict band) call }
{
    match verdict {
        Ok(verdict) => Means::Goes {
            band: bound_by(verdict, band),
            call,
        },
        Err(_) => Means::Goes { band, call },
    }
}

/// What a request means whose message has so many bytes.
fn requested(
    alloc: Global,
    setup: &Setup,
    conn: ConnId,
    band: Option<Band>,
    serial: u32,
    order: Order,
    size: u32,
    request: &Asked<'_>,
) -> Result<Means, NoMemory>
    ensures { IfOk result (Spec.MeansRequest setup.now conn band serial order size (request_of request.now)) }
{
    let bound = band;
    let verdict = judge(setup, band, request);
    let again = verdict;
    let call = call_of(alloc, conn, serial, order, size, request, verdict)?;
    Ok(going(again, bound, call))
}

/// What a message means to a server of a setup, by the band that its connection has bound and by the number of the calls before
/// it. The work per byte is constant, but for what `judge` takes for a request. Memory is taken for a request that runs alone.
pub fn meaning_of(
    alloc: Global,
    setup: &Setup,
    conn: ConnId,
    band: Option<Band>,
    serial: u32,
    whole: &Whole,
) -> Result<Means, NoMemory>
    requires { IsMessage whole.now }
    ensures { IfOk result (Spec.IsMeant setup.now conn band serial whole.now) }
{
    match read_parts(whole) {
        Ok(
            Parts::Request {
                id,
                flags,
                target,
                operation,
                contexts,
                body,
            },
        ) => {
            let size = whole.bytes.len() as u32;
            let request = Asked {
                id,
                flags,
                target,
                operation,
                contexts,
                body,
            };
            requested(
                alloc,
                setup,
                conn,
                band,
                serial,
                whole.order,
                size,
                &request,
            )
        }
        Ok(Parts::Cancel(id)) => Ok(Means::Goes {
            band,
            call: Some(LaneCall::Cancel { conn, id }),
        }),
        Ok(Parts::Locate { id, target }) => Ok(Means::Goes {
            band,
            call: Some(located(setup, conn, whole.order, id, &target)),
        }),
        Ok(Parts::Reply { .. }) => Ok(Means::Breaks(Fault::WrongWay)),
        Ok(Parts::Located { .. }) => Ok(Means::Breaks(Fault::WrongWay)),
        Ok(Parts::Close) => Ok(Means::Ends),
        Ok(Parts::Error) => Ok(Means::Ends),
        Err(fault) => match fault.cause() {
            Some(cause) => Ok(Means::Breaks(cause)),
            // Reading in parts takes no memory.
            None => Err(NoMemory),
        },
    }
}
