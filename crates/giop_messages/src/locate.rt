//! Questions where an object is.

use crate::target::Target;
use std::marker::Model;

/// A question where an object is: CORBA 3.0.3, section 15.4.5.
#[derive(Debug, Drop)]
pub struct Locate {
    /// The number that its answer carries.
    pub id: u32,
    /// The object.
    pub target: Target,
}

impl Model for Locate {
    ghost use Rattle.giop_messages.specs.Message as Spec;
    ghost use Rattle.giop_messages.specs.TargetView.{target_of};

    ghost Value = { Spec.Locate };

    ghost view = { λ l. record { id = l.id; target = target_of l.target } };
}
