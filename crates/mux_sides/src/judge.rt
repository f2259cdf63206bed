//! What messages are to a client whose callers share a link.
ghost use Rattle.std.specs.Prelude.{◌≡◌, IfOk};
ghost use Rattle.std.proofs.Common.{sym, ◌∙◌};
ghost use Rattle.cdr_core.specs.Lists.{listed, context_of};
ghost use Rattle.mux_sides.specs.Replying as Spec;

use cdr_core::{Reader, take_list};
use client_mux::HeardReply;
use giop_messages::{Fault, Parts, Reply};
use heard_messages::{Judge, Means};
use orb_base::{Arc, Context, List, NoMemory, Octets, Order};
use std::alloc::Global;

/// Decides what messages are to a client whose callers share a link.
#[derive(Drop)]
pub struct LinkJudge;

/// The service contexts that a reader is at.
#[tactic(auto, using(crate::proofs::Copies::contexts_listed))]
fn contexts(alloc: Global, list: &Reader<'_>) -> Result<List<Context>, NoMemory>
    ensures { IfOk result (λ l. l.items ≡ listed context_of list.now) }
{
    let mut reader = list.copy();
    match take_list(alloc, &mut reader) {
        Ok(contexts) => Ok(contexts),
        Err(_) => Err(NoMemory),
    }
}

/// A reply of its own with its byte order, shared.
fn copied(
    alloc: Global,
    order: Order,
    id: u32,
    status: u32,
    list: &Reader<'_>,
    body: &[u8],
) -> Result<Arc<HeardReply>, NoMemory>
    ensures { IfOk result (λ r. r ≡ record {
      order = order;
      reply = record { id = id; status = status; contexts = listed context_of list.now; body = body.now };
    }) }
{
    let contexts = contexts(alloc, list)?;
    let body = Octets::from_vec(Vec::from_slice(alloc, body)?);
    let reply = Reply {
        id,
        status,
        contexts,
        body,
    };
    match Arc::new(alloc, HeardReply { order, reply }) {
        Ok(reply) => Ok(reply),
        Err(_) => Err(NoMemory),
    }
}

impl Judge for LinkJudge {
    type Bound = ();

    type Call = Arc<HeardReply>;

    ghost first = { λ judge. Spec.first judge };

    ghost means = { λ judge. Spec.means judge };

    ghost one_way = { λ judge bound serial order size message x y p q. p ∙ sym q };

    fn begin(&self) {}

    fn judge(
        &self,
        alloc: Global,
        _bound: &(),
        _serial: u32,
        order: Order,
        _size: u32,
        parts: Parts<'_>,
    ) -> Result<Means<(), Arc<HeardReply>>, NoMemory> {
        match parts {
            Parts::Reply {
                id,
                status,
                contexts,
                body,
            } => {
                let reply = copied(alloc, order, id, status, &contexts, body)?;
                Ok(Means::Goes {
                    bound: (),
                    call: Some(reply),
                })
            }
            Parts::Located { .. } => Ok(Means::Goes {
                bound: (),
                call: None,
            }),
            Parts::Request { .. } => Ok(Means::Breaks(Fault::WrongWay)),
            Parts::Cancel(_) => Ok(Means::Breaks(Fault::WrongWay)),
            Parts::Locate { .. } => Ok(Means::Breaks(Fault::WrongWay)),
            Parts::Close => Ok(Means::Ends),
            Parts::Error => Ok(Means::Ends),
        }
    }
}
