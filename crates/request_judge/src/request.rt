//! Requests whose parts lie in their messages.
ghost use Rattle.orb_base.specs.NulFree.{HasNoNul};
ghost use Rattle.cdr_core.specs.Lists.{IsAtList, context_of};

use cdr_core::Reader;
use giop_messages::PartTarget;

/// A request whose parts lie in its message: CORBA 3.0.3, section 15.4.2.
#[derive(Drop)]
pub struct Asked<'a> {
    /// The number that its reply carries.
    pub id: u32,
    /// The response flags.
    pub flags: u8,
    /// The object.
    pub target: PartTarget<'a>,
    /// The operation's name, without its NUL.
    pub operation: &'a [u8],
    /// The service contexts: a reader at the count of their list, which has a reading.
    pub contexts: Reader<'a>,
    /// The arguments, which begin at a multiple of 8 of the message.
    pub body: &'a [u8],
    ghost plain: { HasNoNul operation.now },
    ghost listed: { IsAtList context_of contexts },
}
