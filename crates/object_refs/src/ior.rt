//! References.

use orb_base::{List, Tagged, Text};
use std::marker::Model;

/// A reference to an object: CORBA 3.0.3, section 13.6.2.
#[derive(Debug, Drop)]
pub struct Ior {
    /// The repository id of the object's type.
    pub type_id: Text,
    /// The profiles in order, each of which tells by itself where the object is.
    pub profiles: List<Tagged>,
}

impl Model for Ior {
    ghost use Rattle.object_refs.specs.Reference as Spec;

    ghost Value = { Spec.Reference };

    ghost view = { λ r. record { type_id = r.type_id; profiles = r.profiles.items } };
}
