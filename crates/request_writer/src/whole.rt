//! Whole messages of a client that are written under an id, as bytes.
ghost use Rattle.std.specs.Prelude.{◌≡◌, ◌≤◌, length, IfOk};
ghost use Rattle.orb_base.specs.declared.limits.TheConstants.{MAX_MESSAGE};
ghost use Rattle.orb_base.specs.declared.order.Order.TheVariants.{Big};
ghost use Rattle.cdr_core.specs.Spelling.{fields_bytes};
ghost use Rattle.giop_messages.specs.Message as Spec;
ghost use Rattle.giop_messages.specs.Spelling.{all_fields, framed, spelled};
ghost use Rattle.request_writer.specs.Naming.{with_id};

use crate::request::put_request;
use cdr_core::{Writer, bytes_of_u32};
use giop_frames::Kind;
use giop_messages::{Message, Request, header_start, write_message};
use orb_base::{NoMemory, Octets, Order};
use std::alloc::Global;

/// Bytes of a header.
const HEADER_LEN: usize = 12;

/// The fields of a request after its header, under this id.
#[tactic(auto, using(crate::proofs::WholeLaws::room_within, crate::proofs::WholeLaws::fields_put))]
fn inner_bytes(alloc: Global, id: u32, request: &Request) -> Result<Octets, NoMemory>
    requires short { length (spelled Big (Spec.request request.now)) ≤ MAX_MESSAGE }
    ensures { IfOk result (λ inner. inner.items ≡ fields_bytes Big 12 (all_fields (Spec.request (with_id id request.now)))) }
{
    let mut writer = Writer::new(alloc, Order::Big, HEADER_LEN);
    put_request(&mut writer, id, request)?;
    Ok(writer.finish())
}

/// A message of this kind: its header, and what is after it.
fn with_header(alloc: Global, kind: u8, inner: &[u8]) -> Result<Octets, NoMemory>
    requires short { length inner.now ≤ MAX_MESSAGE }
    ensures { IfOk result (λ whole. whole.items ≡ framed Big kind inner.now) }
{
    let mut whole = Octets::new(alloc);
    whole.reserve(HEADER_LEN + inner.len())?;
    whole.append(&header_start(Order::Big, kind))?;
    whole.append(&bytes_of_u32(Order::Big, inner.len() as u32))?;
    whole.append(inner)?;
    Ok(whole)
}

/// The bytes of a request under this id, big endian. Memory and work grow with the request's length. CORBA 3.0.3, section 15.4.2.
#[tactic(auto, using(crate::proofs::WholeLaws::inner_short))]
pub fn request_bytes(alloc: Global, id: u32, request: &Request) -> Result<Octets, NoMemory>
    requires short { length (spelled Big (Spec.request request.now)) ≤ MAX_MESSAGE }
    ensures { IfOk result (λ bytes. bytes.items ≡ spelled Big (Spec.request (with_id id request.now))) }
{
    let inner = inner_bytes(alloc, id, request)?;
    with_header(alloc, Kind::Request.number(), inner.as_slice())
}

/// The 16 bytes of the cancel of a request's id, big endian. CORBA 3.0.3, section 15.4.4.
#[tactic(auto, using(crate::proofs::WholeLaws::cancel_short))]
pub fn cancel_bytes(alloc: Global, id: u32) -> Result<Octets, NoMemory>
    ensures { IfOk result (λ bytes. bytes.items ≡ spelled Big (Spec.cancel id)) }
{
    let message = Message::Cancel(id);
    let mut writer = Writer::new(alloc, Order::Big, 0);
    write_message(Order::Big, &message, &mut writer)?;
    Ok(writer.finish())
}
