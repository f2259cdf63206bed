//! The judgement of a request.
ghost use Rattle.std.specs.Prelude.{◌≡◌, ◌↔◌, IsTrue};
ghost use Rattle.request_judge.specs.Judging as Spec;
ghost use Rattle.request_judge.specs.Requests.{request_of};

use crate::refusal::Refusal;
use crate::request::Asked;
use crate::served::{Served, served_at};
use crate::verdict::{Place, Verdict};
use adapter_policies::Setup;
use banded_links::{BindAnswer, BindServer};
use giop_messages::PartTarget;
use orb_base::{Band, PoolSpec, Priority};
use priority_models::{Misplaced, mandated, placed};
use service_contexts::{Contexts, contexts_at};

/// The operation by which a client binds a band (Real-time CORBA 1.2, Priority banded connections).
pub const BIND_OPERATION: &[u8] = b"_bind_priority_band";

/// The object of a request, and what its contexts tell.
pub fn asked<'a>(setup: &'a Setup, request: &Asked<'_>) -> Result<(Served<'a>, Contexts), Refusal>
    ensures { Spec.Asks setup.now (request_of request.now) result }
{
    let PartTarget::Key(key) = &request.target else {
        return Err(Refusal::NoKey);
    };
    let Ok(told) = contexts_at(request.contexts.copy()) else {
        return Err(Refusal::BadContext);
    };
    match served_at(setup, key) {
        Some(served) => Ok((served, told)),
        None => Err(Refusal::UnknownObject),
    }
}

/// What becomes of a request to bind the band that its contexts tell.
fn bind(pool: &PoolSpec, range: Option<Band>) -> Result<Band, Refusal>
    ensures { Spec.BindsTo pool.now range result }
{
    let Some(band) = range else {
        return Err(Refusal::NoBand);
    };
    match BindServer::new().bind(pool, range) {
        BindAnswer::Bound => Ok(band),
        _ => Err(Refusal::BandWithoutLane),
    }
}

/// The lane of a request that runs at this priority.
fn lane_for(setup: &Setup, band: Option<Band>, p: Priority) -> Result<u8, Refusal>
    ensures { Spec.RunsIn setup.now band p result }
{
    let lane = placed(setup.pool(), band, p);
    if matches!(lane, Err(Misplaced::OutsideBand)) {
        return Err(Refusal::OutsideBand);
    }
    if setup.map().to_native(p).is_none() {
        return Err(Refusal::NoNative);
    }
    match lane {
        Ok(lane) => Ok(lane),
        Err(_) => Err(Refusal::NoLane),
    }
}

/// Whether the request binds a band.
fn is_bind(request: &Asked<'_>) -> bool
    ensures { IsTrue result ↔ Spec.IsBind (request_of request.now) }
{
    request.operation == BIND_OPERATION
}

/// Where a request runs that binds no band.
#[tactic(auto, using(crate::proofs::Runs::runs_there, crate::proofs::Runs::refused_there, crate::proofs::Runs::without_priority))]
fn run(
    setup: &Setup,
    band: Option<Band>,
    served: &Served<'_>,
    sent: Option<Priority>,
) -> Result<Place, Refusal>
    ensures { Spec.RunsAs setup.now band served.now sent result }
{
    let Some(priority) = mandated(served.model, served.priority, served.inbound, sent) else {
        return Err(Refusal::NoTransform);
    };
    let lane = lane_for(setup, band, priority)?;
    Ok(Place {
        target: served.number,
        priority,
        lane,
    })
}

/// What a server makes of a request, by its setup and by the band that the connection has bound, if it has bound one: where it
/// runs, the band that it binds, or why it is refused. Takes no memory. The work is one pass over the contexts, over the rows of
/// the adapter's transform, of which there are at most 32, and over the lanes, of which there are at most 16, one look-up by the
/// key's hash, and that of the map.
pub fn judge(setup: &Setup, band: Option<Band>, request: &Asked<'_>) -> Result<Verdict, Refusal>
    ensures { Spec.Judges setup.now band (request_of request.now) result }
{
    let (served, told) = asked(setup, request)?;
    if is_bind(request) {
        let bound = bind(setup.pool(), told.range)?;
        return Ok(Verdict::Binds(bound));
    }
    let place = run(setup, band, &served, told.priority)?;
    Ok(Verdict::Runs(place))
}
