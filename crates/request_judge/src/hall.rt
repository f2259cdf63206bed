//! The judgement of a request where there are no lanes.
ghost use Rattle.request_judge.specs.InHall as Spec;
ghost use Rattle.request_judge.specs.Requests.{request_of};

use crate::judging::asked;
use crate::refusal::Refusal;
use crate::request::Asked;
use crate::served::Served;
use crate::verdict::Place;
use adapter_policies::Setup;
use orb_base::Priority;
use priority_models::mandated;

/// Where a request runs without lanes.
#[tactic(auto, using(crate::proofs::Halls::runs_there, crate::proofs::Halls::no_native, crate::proofs::Halls::without_priority))]
fn run(setup: &Setup, served: &Served<'_>, sent: Option<Priority>) -> Result<Place, Refusal>
    ensures { Spec.RunsAs setup.now served.now sent result }
{
    let Some(priority) = mandated(served.model, served.priority, served.inbound, sent) else {
        return Err(Refusal::NoTransform);
    };
    if setup.map().to_native(priority).is_none() {
        return Err(Refusal::NoNative);
    }
    Ok(Place {
        target: served.number,
        priority,
        lane: 0,
    })
}

/// What a server without lanes makes of a request, by its setup: where it runs, in the lane 0, or why it is refused. No request binds a
/// band: `_bind_priority_band` is an operation like others. Takes no memory; the work is one pass over the contexts and over the rows of the
/// adapter's transform, one look-up by the key's hash, and that of the map.
pub fn judge_in_hall(setup: &Setup, request: &Asked<'_>) -> Result<Place, Refusal>
    ensures { Spec.JudgesInHall setup.now (request_of request.now) result }
{
    let (served, told) = asked(setup, request)?;
    run(setup, &served, told.priority)
}
