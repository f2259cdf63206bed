//! One call of a remote object.
ghost use Rattle.std.specs.Prelude.{◌≡◌, ◌==◌, true, None, Some, IsTrue};
ghost use Rattle.heard_messages.specs.declared.read_end.TheConstants.{MAX_TAKEN};
ghost use Rattle.text_streams.specs.Streams.{GaveFew};
ghost use Rattle.client_lines.specs.Lines.{IsHeard, IsNew, binds as of_line};
ghost use Rattle.client_stub.specs.Asking.{arguments_fit, asked_of};
ghost use Rattle.client_stub.specs.Sending.{IsSendable};
ghost use Rattle.client_calls.specs.Replies.{seen};
ghost use Rattle.client_calls.specs.Calls as Spec;
ghost use Rattle.client_calls.specs.Steps as Steps;

use crate::call_fault::CallFault;
use crate::meaning::meaning_of;
use crate::sending::send;
use crate::waiting::await_reply;
use banded_links::NO_EXCEPTION;
use cdr_values::IdlValue;
use client_lines::{Answer, BIND_ID, Caller, Line, call_id};
use client_stub::{Asked, bind_request, call_request};
use heard_messages::MAX_TAKEN;
use orb_base::{Band, List, Sink, Source};
use std::alloc::Global;

/// Binds the band: the reply to its request.
fn bind<I: Source, O: Sink>(
    alloc: Global,
    source: &mut I,
    sink: &mut O,
    asked: &Asked,
    band: Band,
    line: &mut Line<'_>,
) -> Result<Answer, CallFault>
    requires band { asked.now.band ≡ Some band }
    requires short { IsSendable (asked_of asked.now) }
    requires new { IsNew true line.old }
    ensures { Steps.Binds result (asked_of asked.now) line.old line.new
        (I.state source.old) (I.state source.new) (O.state sink.old) (O.state sink.new) }
{
    let request = bind_request(alloc, asked, BIND_ID, band)?;
    send(sink, &request)?;
    await_reply(alloc, line, source)
}

/// Sends the call, and reads its reply, where it has one.
fn ask<I: Source, O: Sink>(
    alloc: Global,
    source: &mut I,
    sink: &mut O,
    asked: &Asked,
    binds: bool,
    line: &mut Line<'_>,
) -> Result<List<IdlValue>, CallFault>
    requires fits { IsTrue (arguments_fit (asked_of asked.now)) }
    requires short { IsSendable (asked_of asked.now) }
    requires heard { IsHeard line.old }
    requires same { of_line line.old ≡ binds }
    ensures { Steps.Asks (seen result) (asked_of asked.now) line.old
        (I.state source.old) (I.state source.new) (O.state sink.old) (O.state sink.new) }
{
    let request = call_request(alloc, asked, call_id(binds))?;
    send(sink, &request)?;
    let oneway = asked.operation.oneway;
    if oneway {
        return Ok(List::new(alloc));
    }
    let answer = await_reply(alloc, line, source)?;
    meaning_of(alloc, asked.operation, &answer)
}

/// Whether a band is bound by this reply.
fn is_bound(answer: &Answer) -> bool
    ensures { result ≡ (answer.now.status == NO_EXCEPTION) }
{
    answer.status == NO_EXCEPTION
}

/// The exchange of a call that binds no band.
fn exchange_alone<I: Source, O: Sink>(
    alloc: Global,
    source: &mut I,
    sink: &mut O,
    asked: &Asked,
) -> Result<List<IdlValue>, CallFault>
    requires fits { IsTrue (arguments_fit (asked_of asked.now)) }
    requires short { IsSendable (asked_of asked.now) }
    requires none { asked.now.band ≡ None }
    ensures { Spec.Calls (seen result) (asked_of asked.now)
        (I.state source.old) (I.state source.new) (O.state sink.old) (O.state sink.new) }
{
    let caller = Caller { binds: false };
    let mut line = Line::new(alloc, &caller)?;
    ask(alloc, source, sink, asked, false, &mut line)
}

/// The exchange of a call that binds this band first.
fn exchange_after<I: Source, O: Sink>(
    alloc: Global,
    source: &mut I,
    sink: &mut O,
    asked: &Asked,
    band: Band,
) -> Result<List<IdlValue>, CallFault>
    requires fits { IsTrue (arguments_fit (asked_of asked.now)) }
    requires short { IsSendable (asked_of asked.now) }
    requires band { asked.now.band ≡ Some band }
    ensures { Spec.Calls (seen result) (asked_of asked.now)
        (I.state source.old) (I.state source.new) (O.state sink.old) (O.state sink.new) }
{
    let caller = Caller { binds: true };
    let mut line = Line::new(alloc, &caller)?;
    let answer = bind(alloc, source, sink, asked, band, &mut line)?;
    if is_bound(&answer) {
        return ask(alloc, source, sink, asked, true, &mut line);
    }
    meaning_of(alloc, asked.operation, &answer)
}

/// The exchange of a call.
fn exchange<I: Source, O: Sink>(
    alloc: Global,
    source: &mut I,
    sink: &mut O,
    asked: &Asked,
) -> Result<List<IdlValue>, CallFault>
    requires fits { IsTrue (arguments_fit (asked_of asked.now)) }
    requires short { IsSendable (asked_of asked.now) }
    ensures { Spec.Calls (seen result) (asked_of asked.now)
        (I.state source.old) (I.state source.new) (O.state sink.old) (O.state sink.new) }
{
    match asked.band {
        None => exchange_alone(alloc, source, sink, asked),
        Some(band) => exchange_after(alloc, source, sink, asked, band),
    }
}

/// Calls the remote object over a connection of which nothing was read or written: binds the band first, where one is given, then sends
/// the request, and reads to its reply, unless the operation is oneway. It reads at most 4,096 bytes at a time, and no more once a message
/// decides; it takes at most 67,108,864 bytes. There is no time limit, and a location forward isn't followed. What follows the reply to
/// the bind counts for the call, also what came in the same read. Source and sink stay open. Memory and work grow with the arguments and
/// with the bytes read.
pub fn call<I: Source, O: Sink>(
    alloc: Global,
    source: &mut I,
    sink: &mut O,
    asked: &Asked,
) -> Result<List<IdlValue>, CallFault>
    requires fits { IsTrue (arguments_fit (asked_of asked.now)) }
    requires short { IsSendable (asked_of asked.now) }
    // The answer is the one that the bytes and their end give, and all that is due was sent; unless a write failed or memory ran out.
    ensures exchange { Spec.IfWhole (seen result) (Spec.Exchanged (seen result) (asked_of asked.now)
        (I.state source.old) (I.state source.new) (O.state sink.old) (O.state sink.new)) }
    // Then a prefix of what is due was sent.
    ensures prefix { Spec.IfBrokenOff (seen result) (Spec.SentPrefix (asked_of asked.now)
        (I.state source.old) (I.state source.new) (O.state sink.old) (O.state sink.new)) }
    ensures read_fault { Spec.CountsReads (seen result) (I.state source.old) (I.state source.new) }
    ensures write_fault { Spec.CountsWrites (seen result) (O.state sink.old) (O.state sink.new) }
    ensures few { GaveFew MAX_TAKEN (I.state source.old) (I.state source.new) }
    // A oneway call reads nothing, unless it binds a band first.
    ensures unread { asked.now.operation.now.oneway ≡ true → asked.now.band ≡ None → I.state source.new ≡ I.state source.old }
{
    exchange(alloc, source, sink, asked)
}
