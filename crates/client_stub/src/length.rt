//! How long the requests of a call are.
ghost use Rattle.std.specs.Prelude.{◌≡◌, ℕ, List, map, length, IsTrue};
ghost use Rattle.orb_base.specs.Span.{Span};
ghost use Rattle.orb_base.specs.declared.order.Order.TheVariants.{Big};
ghost use Rattle.cdr_values.specs.Lengths.{EndsAt};
ghost use Rattle.cdr_values.specs.Values.{values_view};
ghost use Rattle.idl_types.specs.Views.{param_of};
ghost use Rattle.giop_messages.specs.Lengths.{held};
ghost use Rattle.giop_messages.specs.Spelling.{spelled};
ghost use Rattle.value_json.specs.Operations.{are_of, goes_in, kinds_in};
ghost use Rattle.client_stub.specs.Asking.{fields_of_all, arguments_fit, asked_of};
ghost use Rattle.client_stub.specs.Requests as Spec;

use crate::asked::Asked;
use cdr_values::{IdlValue, spelled_end};
use giop_messages::request_len as request_len_of;
use idl_types::{Param, Way};
use orb_base::{Priority, PriorityModel};

/// The operation that binds a band.
pub const BIND_OPERATION: &[u8] = b"_bind_priority_band";

/// Whether a parameter goes to the servant.
pub(crate) fn goes_in(way: Way) -> bool
    ensures { result ≡ goes_in way }
{
    match way {
        Way::Input => true,
        Way::Output => false,
        Way::Both => true,
    }
}

/// The length of the body that carries the arguments.
fn body_len(params: &[Param], arguments: &[IdlValue]) -> usize
    requires fits { IsTrue (are_of (kinds_in (map param_of params.now)) (values_view arguments.now)) }
    ensures { EndsAt 0 (fields_of_all (kinds_in (map param_of params.now)) (values_view arguments.now)) result }
{
    let mut place = 0;
    let mut rest = arguments;
    for param in params {
        if !goes_in(param.way) {
            continue;
        }
        let [value, later @ ..] = rest else {
            return place;
        };
        place = spelled_end(place, &param.kind, value);
        rest = later;
    }
    place
}

/// The priority that a call carries.
pub(crate) fn sent(
    model: Option<(PriorityModel, Priority)>,
    given: Option<Priority>,
) -> Option<Priority>
    ensures { result ≡ Spec.sent model given }
{
    match model {
        Some((model, _)) => sent_by(model, given),
        None => given,
    }
}

/// The same by a model.
fn sent_by(model: PriorityModel, given: Option<Priority>) -> Option<Priority>
    ensures { result ≡ Spec.sent_by model given }
{
    match model {
        PriorityModel::ServerDeclared => None,
        PriorityModel::ClientPropagated => given,
    }
}

/// The length of a call with this priority, by the object's key, the operation's name and the body's length.
fn call_len(key: &[u8], operation: &[u8], priority: Option<Priority>, body: usize) -> usize
    ensures { (id flags : ℕ) (bytes : List ℕ) → body ≡ held (length bytes)
        → result ≡ held (length (spelled Big (Spec.call_at id flags key.now operation.now priority bytes))) }
{
    match priority {
        Some(_) => request_len_of(key, operation, &[4], body),
        None => request_len_of(key, operation, &[], body),
    }
}

/// The length of a bind.
fn bind_len(key: &[u8]) -> usize
    ensures { (id : ℕ) (band : Span) → result ≡ held (length (spelled Big (Spec.bind_of id key.now band))) }
{
    request_len_of(key, BIND_OPERATION, &[6], 0)
}

/// Whether a band may be bound before the call.
fn may_bind(asked: &Asked) -> bool
    ensures { result ≡ Spec.may_bind (asked_of asked.now) }
{
    let remote = asked.remote;
    remote.bands.is_some() || asked.band.is_some()
}

/// The length of a call, or of a bind that may come before it where that is longer.
fn longer(bind: bool, call_len: usize, bind_len: usize) -> usize
    ensures { result ≡ Spec.longer bind call_len bind_len }
{
    if bind {
        call_len.max(bind_len)
    } else {
        call_len
    }
}

/// The length in bytes of the request of a call, or of the request that binds its band where that is longer and a band may be
/// bound: where the reference has bands or a band is given. u64::MAX where that is greater. Takes no memory. Work grows with
/// the arguments.
pub fn request_len(asked: &Asked) -> u64
    requires fits { IsTrue (arguments_fit (asked_of asked.now)) }
    ensures { Spec.IsRequestLen (asked_of asked.now) result }
{
    let remote = asked.remote;
    let operation = asked.operation;
    let key = remote.key.as_slice();
    let body = body_len(operation.params.as_slice(), asked.arguments.as_slice());
    let priority = sent(remote.model, asked.priority);
    let call = call_len(key, operation.name.as_slice(), priority, body);
    let bind = bind_len(key);
    longer(may_bind(asked), call, bind) as u64
}
