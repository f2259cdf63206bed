//! Objects as requests see them.
ghost use Rattle.std.specs.Prelude.{◌≡◌};
ghost use Rattle.giop_messages.specs.PartsView.{parts_target};
ghost use Rattle.request_judge.specs.Served as Spec;

use adapter_policies::{ObjectSpec, Setup};
use giop_messages::PartTarget;
use orb_base::{Priority, PriorityModel};
use priority_models::Transform;
use std::marker::Model;

/// An object that an adapter serves, as requests see it.
#[derive(Drop)]
pub struct Served<'a> {
    /// Its number, counted from 0.
    pub number: u16,
    /// Its adapter's priority model.
    pub model: PriorityModel,
    /// The server's priority for it.
    pub priority: Priority,
    /// What becomes of the priorities that clients send, which its adapter says.
    pub inbound: &'a Transform,
}

impl<'a> Model for Served<'a> {
    ghost use Rattle.request_judge.specs.Served.{Served};

    ghost Value = { Served };

    ghost view = { λ s. record { number = s.number; model = s.model; priority = s.priority; inbound = s.inbound.now } };
}

/// The object of a number, if its adapter is there.
fn served_as<'a>(setup: &'a Setup, number: u16, object: &ObjectSpec) -> Option<Served<'a>>
    ensures { result ≡ Spec.served_as setup.now number object.now }
{
    let adapter = setup.adapter(object.adapter)?;
    Some(Served {
        number,
        model: adapter.model,
        priority: object.priority,
        inbound: &adapter.inbound,
    })
}

/// The object of a key, where there is one and an adapter serves it. Takes no memory; the work is one look-up by the key's
/// hash.
pub fn served_at<'a>(setup: &'a Setup, key: &[u8]) -> Option<Served<'a>>
    ensures { result ≡ Spec.served_at setup.now key.now }
{
    let number = setup.find(key)?;
    let object = setup.object(number)?;
    served_as(setup, number, object)
}

/// Whether a target is the key of an object that an adapter serves. Takes no memory; the work is that of `served_at`.
pub fn is_here(setup: &Setup, target: &PartTarget<'_>) -> bool
    ensures { result ≡ Spec.is_here setup.now (parts_target target.now) }
{
    match target {
        PartTarget::Key(key) => served_at(setup, key).is_some(),
        PartTarget::Profile { .. } | PartTarget::Addressing { .. } => false,
    }
}
