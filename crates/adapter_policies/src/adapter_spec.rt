//! Adapters of a setup.

use orb_base::{Band, List, Priority, PriorityModel, Text};
use priority_models::Transform;
use std::marker::Model;

/// An adapter: its name, whose priority its objects are served at, its own priority, the bands that clients may bind, and what
/// becomes of the priorities that clients send (Real-time CORBA 1.2, Priority models, Priority banded connections and Priority
/// transforms).
#[derive(Debug, Drop)]
pub struct AdapterSpec {
    pub name: Text,
    pub model: PriorityModel,
    pub priority: Priority,
    pub bands: List<Band>,
    pub inbound: Transform,
}

impl Model for AdapterSpec {
    ghost use Rattle.adapter_policies.specs.SetupData.{AdapterData};

    ghost Value = { AdapterData };

    ghost view = { λ a. record {
      name = a.name;
      model = a.model;
      priority = a.priority;
      bands = a.bands.items;
      inbound = a.inbound;
    } };
}
