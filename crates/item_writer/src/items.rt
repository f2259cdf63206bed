//! What is written for what a connection collects.
ghost use Rattle.std.specs.Prelude.{◌≡◌, ◌≤◌, length, if◌then◌else◌};
ghost use Rattle.std.specs.Int.{w16};
ghost use Rattle.cdr_core.specs.Field.{number_bytes};
ghost use Rattle.orb_base.specs.Outcomes.{body_len};
ghost use Rattle.orb_base.specs.declared.limits.TheConstants.{MAX_BODY};
ghost use Rattle.orb_base.specs.declared.item.Item.TheVariants.{Answered, Early, Transient, Noticed};
ghost use Rattle.orb_base.specs.declared.order.Order.TheVariants.{Big};
ghost use Rattle.giop_messages.specs.Exceptions.{exception_body};
ghost use Rattle.giop_messages.specs.Message.{reply, located, close, error};
ghost use Rattle.giop_messages.specs.Spelling.{spelled};
ghost use Rattle.text_streams.specs.Streams.{WritesAll};
ghost use Rattle.item_writer.specs.ItemBytes.{bare, item_bytes};
ghost use Rattle.item_writer.specs.Shortness.{IsShort};

use crate::exceptions::exception_body_of;
use crate::heads::{header_of, numbered, reply_head_of, write_message};
use cdr_core::bytes_of_u16;
use orb_base::{Answer, Completed, Item, Job, Notice, Order, Outcome, Sink, Sys, SysName, What};
use text_streams::WriteAll;

/// Writes a reply without contexts.
#[tactic(auto, using(crate::proofs::Spelling::reply_spelled))]
fn write_reply<O: Sink>(sink: &mut O, order: Order, id: u32, status: u32, body: &[u8]) -> WriteAll
    requires { length body.now ≤ MAX_BODY }
    ensures { WritesAll result (spelled order (reply (bare id status body.now))) (O.state sink.old) (O.state sink.new) }
{
    let head = reply_head_of(order, id, status, body.len() as u32);
    write_message(sink, head, body)
}

/// Writes a reply that tells a system exception: its status is 2.
fn write_refusal<O: Sink>(sink: &mut O, order: Order, id: u32, system: Sys) -> WriteAll
    ensures { WritesAll result (spelled order (reply (bare id 2 (exception_body order system)))) (O.state sink.old) (O.state sink.new) }
{
    let body = exception_body_of(order, system);
    write_reply(sink, order, id, 2, body.as_slice())
}

/// Writes the reply to a finished request.
fn write_answer<O: Sink>(sink: &mut O, answer: &Answer) -> WriteAll
    requires { body_len answer.now.outcome ≤ MAX_BODY }
    ensures { WritesAll result (item_bytes (Answered answer.now)) (O.state sink.old) (O.state sink.new) }
{
    let job = answer.job.get();
    match &answer.outcome {
        Outcome::Returned(body) => write_reply(sink, job.order, job.id, 0, body.as_slice()),
        Outcome::User(body) => write_reply(sink, job.order, job.id, 1, body.as_slice()),
        Outcome::System(system) => write_refusal(sink, job.order, job.id, *system),
    }
}

/// Writes the reply to a request that asked for one at once.
fn write_early<O: Sink>(sink: &mut O, job: &Job) -> WriteAll
    ensures { WritesAll result (item_bytes (Early job.now)) (O.state sink.old) (O.state sink.new) }
{
    write_reply(sink, job.order, job.id, 0, &[])
}

/// Writes the refusal of a request that found no thread and no room: TRANSIENT, minor 1, completed NO.
fn write_transient<O: Sink>(sink: &mut O, job: &Job) -> WriteAll
    ensures { WritesAll result (item_bytes (Transient job.now)) (O.state sink.old) (O.state sink.new) }
{
    let system = Sys {
        name: SysName::Transient,
        minor: 1,
        completed: Completed::No,
    };
    write_refusal(sink, job.order, job.id, system)
}

/// Writes the LocateReply that tells whether an object is here.
#[tactic(auto, using(crate::proofs::Spelling::located_spelled))]
fn write_located<O: Sink>(sink: &mut O, order: Order, id: u32, here: bool) -> WriteAll
    ensures { WritesAll result (spelled order (located (record { id = id; status = if here then 1 else 0 }))) (O.state sink.old) (O.state sink.new) }
{
    let status = if here { 1 } else { 0 };
    write_message(sink, numbered(order, 4, 8, id, status), &[])
}

/// Writes NEEDS_ADDRESSING_MODE, which asks for a key by the short 0.
fn write_addressing<O: Sink>(sink: &mut O, order: Order, id: u32) -> WriteAll
    ensures { WritesAll result (spelled order (reply (bare id 5 (number_bytes order w16 0)))) (O.state sink.old) (O.state sink.new) }
{
    write_reply(sink, order, id, 5, &bytes_of_u16(order, 0))
}

/// Writes what an answer of the reading side tells.
fn write_notice<O: Sink>(sink: &mut O, notice: &Notice) -> WriteAll
    ensures { WritesAll result (item_bytes (Noticed notice.now)) (O.state sink.old) (O.state sink.new) }
{
    match notice.what {
        What::Bound => write_reply(sink, notice.order, notice.id, 0, &[]),
        What::System(system) => write_refusal(sink, notice.order, notice.id, system),
        What::Addressing => write_addressing(sink, notice.order, notice.id),
        What::Located(here) => write_located(sink, notice.order, notice.id, here),
    }
}

/// Writes an item. Takes no memory: its head is in 128 bytes of its own, and a body that fits in there goes out with it. Else the first
/// write has the head and as much of the body as 4,096 bytes hold, and what is left is written from the answer.
pub fn write_item<O: Sink>(sink: &mut O, item: &Item) -> WriteAll
    requires { IsShort item.now }
    ensures { WritesAll result (item_bytes item.now) (O.state sink.old) (O.state sink.new) }
{
    match item {
        Item::Answered(answer) => write_answer(sink, answer),
        Item::Early(job) => write_early(sink, job.get()),
        Item::Transient(job) => write_transient(sink, job.get()),
        Item::Noticed(notice) => write_notice(sink, notice),
    }
}

/// Writes CloseConnection.
#[tactic(auto, using(crate::proofs::Spelling::close_spelled))]
pub fn write_close<O: Sink>(sink: &mut O) -> WriteAll
    ensures { WritesAll result (spelled Big close) (O.state sink.old) (O.state sink.new) }
{
    write_message(sink, header_of(Order::Big, 5, 0), &[])
}

/// Writes MessageError.
#[tactic(auto, using(crate::proofs::Spelling::error_spelled))]
pub fn write_error<O: Sink>(sink: &mut O) -> WriteAll
    ensures { WritesAll result (spelled Big error) (O.state sink.old) (O.state sink.new) }
{
    write_message(sink, header_of(Order::Big, 6, 0), &[])
}
