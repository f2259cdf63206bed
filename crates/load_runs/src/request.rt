//! One request of a load.
ghost use Rattle.std.specs.Prelude.{◌≡◌, ◌≤◌, ◌<◌, ◌+◌, ◌*◌, ◌%◌, Some, length, IfOk, IsTrue};
ghost use Rattle.orb_base.specs.declared.limits.TheConstants.{MAX_MESSAGE};
ghost use Rattle.orb_base.specs.declared.order.Order.TheVariants.{Big};
ghost use Rattle.giop_messages.specs.Message.{Fits};
ghost use Rattle.giop_messages.specs.Spelling.{spelled};
ghost use Rattle.giop_messages.specs.Views.{message_of};
ghost use Rattle.load_runs.specs.Generated as Spec;
ghost use Rattle.load_runs.specs.Making.{AreShort};

use cdr_core::Writer;
use giop_messages::{Message, Request, Target, request_len, write_message};
use orb_base::{
    Context, LaneSpec, List, NoMemory, Octets, Order, PoolSpec, Priority, PriorityModel, Text,
};
use service_contexts::{PRIORITY_CONTEXT, priority_context};
use std::alloc::Global;

/// The operation that the requests ask for.
pub(crate) const OPERATION: &[u8] = b"_non_existent";

/// The most bytes of a request: one whose object's key has as many as a configuration allows, 64, has 128.
pub(crate) const MAX_REQUEST: usize = 160;

/// How many priorities there are.
const PRIORITIES: u64 = 32_768;

/// Whether requests to the object of a key are short.
pub(crate) fn are_short(object: &[u8]) -> bool
    ensures { IsTrue result → AreShort object.now }
{
    request_len(object, OPERATION, &[4], 0) <= MAX_REQUEST
        && request_len(object, OPERATION, &[], 0) <= MAX_REQUEST
}

/// The priority of so many, which is in their range.
pub(crate) fn priority(level: u64) -> Priority
    requires { level < 32768 }
    ensures { result ≡ level }
{
    match Priority::new(level as i16) {
        Some(priority) => priority,
        None => unreachable!(),
    }
}

/// The priority of the lane that a number falls on.
fn lane_level(lanes: &[LaneSpec], n: u64) -> Priority
    ensures { result ≡ Spec.lane_level lanes.now (n % length lanes.now) }
{
    if lanes.is_empty() {
        return priority(0);
    }
    let at = n % (lanes.len() as u64);
    lanes[at as usize].priority
}

/// The priority of the request of a number.
fn level_in(pool: &PoolSpec, seed: u32, i: u32) -> Priority
    requires few { i < 65536 }
    ensures { result ≡ Spec.level_in pool.now seed i }
{
    let n = u64::from(seed) + u64::from(i) * u64::from(i);
    if pool.laned {
        lane_level(pool.lanes.as_slice(), n)
    } else {
        priority(n % PRIORITIES)
    }
}

/// The priority that the request of a number carries.
pub(crate) fn sent_level(
    model: PriorityModel,
    pool: &PoolSpec,
    seed: u32,
    i: u32,
) -> Option<Priority>
    requires few { i < 65536 }
    ensures { result ≡ Spec.sent_level model pool.now seed i }
{
    match model {
        PriorityModel::ClientPropagated => Some(level_in(pool, seed, i)),
        PriorityModel::ServerDeclared => None,
    }
}

/// The context that carries a priority.
fn one_context(alloc: Global, level: Priority) -> Result<List<Context>, NoMemory>
    ensures { IfOk result (λ list. list.items ≡ Spec.contexts_of (Some level)) }
{
    let mut bytes = Octets::new(alloc);
    bytes.append(&priority_context(Order::Big, level))?;
    let mut list = List::new(alloc);
    let context = Context {
        id: PRIORITY_CONTEXT,
        bytes,
    };
    match list.push(context) {
        Ok(()) => Ok(list),
        Err(_) => Err(NoMemory),
    }
}

/// The contexts that carry a priority, or none.
fn contexts_of(alloc: Global, level: Option<Priority>) -> Result<List<Context>, NoMemory>
    ensures { IfOk result (λ list. list.items ≡ Spec.contexts_of level) }
{
    match level {
        Some(level) => one_context(alloc, level),
        None => Ok(List::new(alloc)),
    }
}

/// The message of a request under an id to the object of a key.
fn asking(
    alloc: Global,
    id: u32,
    object: &[u8],
    level: Option<Priority>,
) -> Result<Message, NoMemory>
    ensures { IfOk result (λ m. message_of m ≡ Spec.asking id object.now level) }
{
    let contexts = contexts_of(alloc, level)?;
    let Ok(operation) = Text::new(alloc, OPERATION) else {
        return Err(NoMemory);
    };
    let mut key = Octets::new(alloc);
    key.append(object)?;
    Ok(Message::Request(Request {
        id,
        flags: 3,
        target: Target::Key(key),
        operation,
        contexts,
        body: Octets::new(alloc),
    }))
}

/// The bytes of the same.
pub(crate) fn request(
    alloc: Global,
    id: u32,
    object: &[u8],
    level: Option<Priority>,
) -> Result<Octets, NoMemory>
    requires short { length (spelled Big (Spec.asking id object.now level)) ≤ MAX_MESSAGE }
    ensures bytes { IfOk result (λ bytes. bytes.items ≡ spelled Big (Spec.asking id object.now level)) }
    ensures fits { IfOk result (λ bytes. Fits (Spec.asking id object.now level)) }
{
    let message = asking(alloc, id, object, level)?;
    let mut writer = Writer::new(alloc, Order::Big, 0);
    write_message(Order::Big, &message, &mut writer)?;
    Ok(writer.finish())
}
