//! Requests: CORBA 3.0.3, section 15.4.2.

use crate::target::Target;
use orb_base::{Context, List, Octets, Text};
use std::marker::Model;

/// A request: CORBA 3.0.3, section 15.4.2.
#[derive(Debug, Drop)]
pub struct Request {
    /// The number that its reply carries.
    pub id: u32,
    /// The response flags.
    pub flags: u8,
    /// The object.
    pub target: Target,
    /// The operation's name.
    pub operation: Text,
    /// The service contexts.
    pub contexts: List<Context>,
    /// The arguments, which begin at a multiple of 8 of the message.
    pub body: Octets,
}

impl Model for Request {
    ghost use Rattle.giop_messages.specs.Message as Spec;
    ghost use Rattle.giop_messages.specs.TargetView.{target_of};

    ghost Value = { Spec.Request };

    ghost view = { λ r. record {
      id = r.id;
      flags = r.flags;
      target = target_of r.target;
      operation = r.operation;
      contexts = r.contexts.items;
      body = r.body.items;
    } };
}
