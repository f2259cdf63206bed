//! The band that a call binds before it.
ghost use Rattle.std.specs.Prelude.{◌≡◌};
ghost use Rattle.std.specs.Result.{result_ok};
ghost use Rattle.client_stub.specs.Choosing as Spec;

use crate::remote::Remote;
use banded_links::Bands;
use orb_base::{Band, Priority, PriorityModel};
use thiserror::Error;

/// The remote object has bands, and none of them holds the priority that counts.
#[derive(Clone, Copy, Debug, PartialEq, Eq, Error)]
#[error("no band holds the priority")]
pub struct NoBand;

/// The lowest priority.
fn lowest() -> Priority
    ensures { result ≡ 0 }
{
    Priority::new(0).unwrap()
}

/// The priority that counts by a model.
fn counting_by(model: PriorityModel, server: Priority, given: Option<Priority>) -> Priority
    ensures { result ≡ Spec.counting_by model server given }
{
    match model {
        PriorityModel::ServerDeclared => server,
        PriorityModel::ClientPropagated => given.unwrap_or(server),
    }
}

/// The priority that counts: the server's where it declares it, else the given one, else the server's, else the lowest.
fn counting(model: Option<(PriorityModel, Priority)>, given: Option<Priority>) -> Priority
    ensures { result ≡ Spec.counting model given }
{
    match model {
        Some((model, server)) => counting_by(model, server, given),
        None => given.unwrap_or(lowest()),
    }
}

/// The band that holds a priority.
fn band_of(bands: &Bands, p: Priority) -> Option<Band>
    ensures { result ≡ Spec.band_of p bands.now }
{
    let at = bands.choose(p)?;
    bands.as_slice().get(at).copied()
}

/// The band that a call to the object with this priority has to bind, or no band where the object has no bands. The priority
/// that counts is the server's under SERVER_DECLARED, else the given one, else the server's, else 0. NoBand comes exactly
/// where there are bands and none holds it. Takes no memory; one pass over the bands.
pub fn band_for(remote: &Remote, priority: Option<Priority>) -> Result<Option<Band>, NoBand>
    ensures { result_ok result ≡ Spec.band_for remote.now priority }
{
    let Some(bands) = &remote.bands else {
        return Ok(None);
    };
    match band_of(bands, counting(remote.model, priority)) {
        Some(band) => Ok(Some(band)),
        None => Err(NoBand),
    }
}
