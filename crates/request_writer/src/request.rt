//! The fields of a request after its header.
ghost use Rattle.std.specs.Prelude.{◌<◌, ◌^◌, [], ◌∷◌};
ghost use Rattle.std.specs.Int.{w8, w32};
ghost use Rattle.cdr_core.specs.Field.{number, run, fields_end};
ghost use Rattle.cdr_core.specs.Writing.{Puts};
ghost use Rattle.giop_messages.specs.Message as Spec;
ghost use Rattle.giop_messages.specs.Spelling.{all_fields};
ghost use Rattle.request_writer.specs.Naming.{with_id};

use crate::part::{put_body, put_contexts, put_target};
use cdr_core::Writer;
use giop_messages::Request;
use orb_base::NoMemory;

/// Puts the id and the flags of a request, and the reserved octets.
fn put_request_head(into: &mut Writer, id: u32, flags: u8) -> Result<(), NoMemory>
    ensures { Puts result into.old into.new
        (number w32 id ∷ number w8 flags ∷ run 1 (0 ∷ 0 ∷ 0 ∷ []) ∷ []) }
{
    into.put_u32(id)?;
    into.put_u8(flags)?;
    into.put_run(1, &[0, 0, 0])
}

/// Puts a request after its header, under this id.
pub fn put_request(into: &mut Writer, id: u32, request: &Request) -> Result<(), NoMemory>
    requires { fields_end into.old.place (all_fields (Spec.request (with_id id request.now))) < 2 ^ 32 }
    ensures { Puts result into.old into.new (all_fields (Spec.request (with_id id request.now))) }
{
    put_request_head(into, id, request.flags)?;
    put_target(into, &request.target)?;
    into.put_string(&request.operation)?;
    put_contexts(into, request.contexts.as_slice())?;
    put_body(into, request.body.as_slice())
}
