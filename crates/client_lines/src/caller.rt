//! What messages are to a client.
ghost use Rattle.std.specs.Prelude.{◌≡◌, [], IfOk};
ghost use Rattle.std.proofs.Common.{sym, ◌∙◌};
ghost use Rattle.giop_messages.specs.Message as Messages;
ghost use Rattle.giop_messages.specs.PartsView.{parts_message};
ghost use Rattle.client_lines.specs.Awaiting as Spec;

use crate::answer::Answer;
use crate::awaited::{Awaited, BIND_ID, FIRST_ID, NEXT_ID};
use banded_links::NO_EXCEPTION;
use giop_messages::{Fault, Parts};
use heard_messages::{Judge, Means};
use orb_base::{NoMemory, Octets, Order};
use std::alloc::Global;

/// A client that makes one call over a connection: it awaits the reply to the bind, where it binds a band first, and then that to the
/// call.
#[derive(Drop)]
pub struct Caller {
    /// Whether a band is bound before the call.
    pub binds: bool,
}

/// The id of the call.
pub fn call_id(binds: bool) -> u32
    ensures { result ≡ Spec.call_id binds }
{
    if binds { NEXT_ID } else { FIRST_ID }
}

/// What is awaited after a reply of this status.
fn after(awaited: Awaited, status: u32) -> Awaited
    ensures { result ≡ Spec.after awaited status }
{
    match awaited {
        Awaited::Bind => {
            if status == NO_EXCEPTION {
                Awaited::Call
            } else {
                Awaited::Nothing
            }
        }
        Awaited::Call => Awaited::Nothing,
        Awaited::Nothing => Awaited::Nothing,
    }
}

/// What a reply of this id, status and body is where that to `awaited_id` is awaited. Copies the body of that one alone.
fn seen_reply(
    alloc: Global,
    awaited: Awaited,
    awaited_id: u32,
    order: Order,
    id: u32,
    status: u32,
    body: &[u8],
) -> Result<Means<Awaited, Answer>, NoMemory>
    ensures { IfOk result (λ m. m ≡ Spec.seen awaited awaited_id order (Messages.reply_of id status [] body.now)) }
{
    if id != awaited_id {
        return Ok(Means::Goes {
            bound: awaited,
            call: None,
        });
    }
    let body = Octets::from_vec(Vec::from_slice(alloc, body)?);
    Ok(Means::Goes {
        bound: after(awaited, status),
        call: Some(Answer {
            order,
            status,
            body,
        }),
    })
}

/// What a message is where the reply to this id is awaited.
fn seen(
    alloc: Global,
    awaited: Awaited,
    id: u32,
    order: Order,
    parts: Parts<'_>,
) -> Result<Means<Awaited, Answer>, NoMemory>
    ensures { IfOk result (λ m. m ≡ Spec.seen awaited id order (parts_message parts.entry)) }
{
    match parts {
        Parts::Reply {
            id: its,
            status,
            contexts: _,
            body,
        } => seen_reply(alloc, awaited, id, order, its, status, body),
        Parts::Located { .. } => Ok(Means::Goes {
            bound: awaited,
            call: None,
        }),
        Parts::Request { .. } => Ok(Means::Breaks(Fault::WrongWay)),
        Parts::Cancel(_) => Ok(Means::Breaks(Fault::WrongWay)),
        Parts::Locate { .. } => Ok(Means::Breaks(Fault::WrongWay)),
        Parts::Close => Ok(Means::Ends),
        Parts::Error => Ok(Means::Ends),
    }
}

impl Judge for Caller {
    type Bound = Awaited;

    type Call = Answer;

    ghost first = { λ caller. Spec.first caller.binds };

    ghost means = { λ caller. Spec.means caller.binds };

    ghost one_way = { λ caller awaited serial order size message x y p q. p ∙ sym q };

    fn begin(&self) -> Awaited {
        if self.binds {
            Awaited::Bind
        } else {
            Awaited::Call
        }
    }

    fn judge(
        &self,
        alloc: Global,
        bound: &Awaited,
        _serial: u32,
        order: Order,
        _size: u32,
        parts: Parts<'_>,
    ) -> Result<Means<Awaited, Answer>, NoMemory> {
        match *bound {
            Awaited::Bind => seen(alloc, Awaited::Bind, BIND_ID, order, parts),
            Awaited::Call => seen(alloc, Awaited::Call, call_id(self.binds), order, parts),
            Awaited::Nothing => Ok(Means::Goes {
                bound: Awaited::Nothing,
                call: None,
            }),
        }
    }
}
