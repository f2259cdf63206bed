//! Replies of the map as answers.
ghost use Rattle.std.specs.Prelude.{◌≡◌, ◌≤◌, IfOk};
ghost use Rattle.orb_base.specs.Outcomes.{body_len};
ghost use Rattle.orb_base.specs.declared.limits.TheConstants.{MAX_BODY};
ghost use Rattle.name_calls.specs.Answers.{answer};

use crate::bodies::{count, raised, text};
use name_map::NamesReply;
use orb_base::{NoMemory, Octets, Order, Outcome, SharedOctets};
use std::alloc::Global;

/// How a request is answered whose call of the map had this reply, in the request's byte order. Work and memory grow with the
/// reply's text.
pub fn answer_of(alloc: Global, order: Order, reply: &NamesReply) -> Result<Outcome, NoMemory>
    ensures value { IfOk result (λ o. o ≡ answer order reply.now) }
    ensures short { IfOk result (λ o. body_len o ≤ MAX_BODY) }
{
    match reply {
        NamesReply::Stored => Ok(Outcome::Returned(SharedOctets::new(alloc, Octets::new(alloc))?)),
        NamesReply::Target(target) => text(alloc, order, target.get()),
        NamesReply::Key(key) => text(alloc, order, key.get()),
        NamesReply::Count(n) => count(alloc, order, *n),
        NamesReply::AlreadyBound => raised(alloc, order, b"IDL:Orb/AlreadyBound:1.0".as_slice()),
        NamesReply::NoRoom => raised(alloc, order, b"IDL:Orb/NoRoom:1.0".as_slice()),
        NamesReply::NotFound => raised(alloc, order, b"IDL:Orb/NotFound:1.0".as_slice()),
    }
}
