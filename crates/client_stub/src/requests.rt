//! The requests of a call, as bytes.
ghost use Rattle.std.specs.Prelude.{◌≡◌, ◌≤◌, ◌∷◌, [], map, length, Some, IsTrue, IfOk, OnOk};
ghost use Rattle.orb_base.specs.declared.limits.TheConstants.{MAX_MESSAGE};
ghost use Rattle.orb_base.specs.declared.order.Order.TheVariants.{Big};
ghost use Rattle.cdr_values.specs.Values.{values_view};
ghost use Rattle.idl_types.specs.Views.{param_of};
ghost use Rattle.giop_messages.specs.Message as Said;
ghost use Rattle.giop_messages.specs.Spelling.{spelled};
ghost use Rattle.value_json.specs.Operations.{are_of, kinds_in};
ghost use Rattle.client_stub.specs.Asking.{fields_of_all, arguments_fit, call_body, asked_of};
ghost use Rattle.client_stub.specs.Requests.{contexts_with, flags_of};
ghost use Rattle.client_stub.specs.Sending as Spec;

use crate::asked::Asked;
use crate::length::{BIND_OPERATION, goes_in, sent};
use cdr_core::Writer;
use cdr_values::{IdlValue, encode};
use giop_messages::{Message, Request, Target, write_message};
use idl_types::Param;
use orb_base::{Band, Context, List, NoMemory, Octets, Order, Priority, Text};
use service_contexts::{PRIORITY_CONTEXT, RANGE_CONTEXT, priority_context, range_context};
use std::alloc::Global;

/// Puts the arguments one after another.
fn put_arguments(
    params: &[Param],
    arguments: &[IdlValue],
    into: &mut Writer,
) -> Result<(), NoMemory>
    requires fits { IsTrue (are_of (kinds_in (map param_of params.now)) (values_view arguments.now)) }
    ensures { OnOk result (Spec.Spelled into.old into.new
        (fields_of_all (kinds_in (map param_of params.now)) (values_view arguments.now))) }
{
    let mut rest = arguments;
    for param in params {
        if !goes_in(param.way) {
            continue;
        }
        let [value, later @ ..] = rest else {
            return Ok(());
        };
        encode(&param.kind, value, into)?;
        rest = later;
    }
    Ok(())
}

/// The body of a call.
fn body(alloc: Global, asked: &Asked) -> Result<Octets, NoMemory>
    requires fits { IsTrue (arguments_fit (asked_of asked.now)) }
    ensures { IfOk result (λ bytes. call_body (asked_of asked.now) ≡ Some bytes.items) }
{
    let operation = asked.operation;
    let mut writer = Writer::new(alloc, Order::Big, 0);
    put_arguments(
        operation.params.as_slice(),
        asked.arguments.as_slice(),
        &mut writer,
    )?;
    Ok(writer.finish())
}

/// The service contexts that are this one.
fn one_context(alloc: Global, id: u32, content: &[u8]) -> Result<List<Context>, NoMemory>
    ensures { IfOk result (λ list. list.items ≡ record { id = id; bytes = content.now } ∷ []) }
{
    let mut bytes = Octets::new(alloc);
    bytes.append(content)?;
    let mut list = List::new(alloc);
    match list.push(Context { id, bytes }) {
        Ok(()) => Ok(list),
        Err(_) => Err(NoMemory),
    }
}

/// The service contexts of a call that carries this priority, or none.
fn contexts_with(alloc: Global, priority: Option<Priority>) -> Result<List<Context>, NoMemory>
    ensures { IfOk result (λ list. list.items ≡ contexts_with priority) }
{
    match priority {
        Some(p) => one_context(alloc, PRIORITY_CONTEXT, &priority_context(Order::Big, p)),
        None => Ok(List::new(alloc)),
    }
}

/// The response flags of a call.
fn flags_of(oneway: bool) -> u8
    ensures { result ≡ flags_of oneway }
{
    if oneway { 0 } else { 3 }
}

/// A request by its parts.
fn request(
    alloc: Global,
    id: u32,
    flags: u8,
    object: &[u8],
    operation: Text,
    contexts: List<Context>,
    body: Octets,
) -> Result<Request, NoMemory>
    ensures { IfOk result (λ r. Said.request r
        ≡ Said.request_of id flags (Said.key object.now) operation contexts.items body.items) }
{
    let mut copy = Octets::new(alloc);
    copy.append(object)?;
    Ok(Request {
        id,
        flags,
        target: Target::Key(copy),
        operation,
        contexts,
        body,
    })
}

/// The bytes of a request.
fn bytes_of(alloc: Global, request: Request) -> Result<Octets, NoMemory>
    requires short { length (spelled Big (Said.request request)) ≤ MAX_MESSAGE }
    ensures { IfOk result (λ bytes. bytes.items ≡ spelled Big (Said.request request)) }
{
    let message = Message::Request(request);
    let mut writer = Writer::new(alloc, Order::Big, 0);
    write_message(Order::Big, &message, &mut writer)?;
    Ok(writer.finish())
}

/// The request of a call under an id, with the priority that it carries. Memory and work grow with the arguments.
pub fn call_of(alloc: Global, asked: &Asked, id: u32) -> Result<Request, NoMemory>
    requires fits { IsTrue (arguments_fit (asked_of asked.now)) }
    ensures { IfOk result (Spec.IsCall id (asked_of asked.now)) }
{
    let remote = asked.remote;
    let operation = asked.operation;
    let body = body(alloc, asked)?;
    let contexts = contexts_with(alloc, sent(remote.model, asked.priority))?;
    let name = operation.name.copy(alloc)?;
    let flags = flags_of(operation.oneway);
    request(
        alloc,
        id,
        flags,
        remote.key.as_slice(),
        name,
        contexts,
        body,
    )
}

/// The bytes of a call under an id, big endian, with the priority that it carries. Memory and work grow with the arguments.
pub fn call_request(alloc: Global, asked: &Asked, id: u32) -> Result<Octets, NoMemory>
    requires fits { IsTrue (arguments_fit (asked_of asked.now)) }
    requires short { Spec.IsSendable (asked_of asked.now) }
    ensures { IfOk result (λ bytes. Spec.call_bytes id (asked_of asked.now) ≡ Some bytes.items) }
{
    let request = call_of(alloc, asked, id)?;
    bytes_of(alloc, request)
}

/// The bytes of the request under an id that binds the band of a call before it, big endian. Memory and work grow with the
/// object's key.
pub fn bind_request(alloc: Global, asked: &Asked, id: u32, band: Band) -> Result<Octets, NoMemory>
    requires band { asked.now.band ≡ Some band }
    requires short { Spec.IsSendable (asked_of asked.now) }
    ensures { IfOk result (λ bytes. bytes.items ≡ Spec.bind_bytes id (asked_of asked.now) band) }
{
    let remote = asked.remote;
    let contexts = one_context(alloc, RANGE_CONTEXT, &range_context(Order::Big, band))?;
    let Ok(name) = Text::new(alloc, BIND_OPERATION) else {
        return Err(NoMemory);
    };
    let request = request(
        alloc,
        id,
        3,
        remote.key.as_slice(),
        name,
        contexts,
        Octets::new(alloc),
    )?;
    bytes_of(alloc, request)
}
