//! What replies mean.
ghost use Rattle.std.specs.Prelude.{◌≡◌};
ghost use Rattle.cdr_core.specs.Cursor.{cursor};
ghost use Rattle.cdr_core.specs.Reading.{string_at};
ghost use Rattle.idl_types.specs.Views.{operation_of};
ghost use Rattle.value_json.specs.Operations.{kinds_out};
ghost use Rattle.client_calls.specs.Replies as Spec;

use crate::call_fault::CallFault;
use crate::exceptions::{system_in, user_in};
use crate::results::results_in;
use banded_links::NO_EXCEPTION;
use cdr_values::{DecodeFault, IdlValue};
use client_lines::Answer;
use idl_types::Operation;
use orb_base::{List, Order};
use std::alloc::Global;

/// The status of a reply that tells an exception of an IDL file (CORBA 3.0.3, section 15.4.3).
pub const USER_EXCEPTION: u32 = 1;

/// The status of a reply that tells a system exception (CORBA 3.0.3, section 15.4.3).
pub const SYSTEM_EXCEPTION: u32 = 2;

/// The fault of a body that has no reading, or whose reading was out of memory.
fn fault_of(fault: DecodeFault) -> CallFault
    ensures { result ≡ Spec.fault_of fault }
{
    match fault {
        DecodeFault::Cdr(_) => CallFault::BadBody,
        DecodeFault::NoMemory => CallFault::NoMemory,
    }
}

/// What a body with results means.
#[tactic(auto, using(crate::proofs::Meanings::results_mean, crate::proofs::Meanings::results_fail))]
fn results(
    alloc: Global,
    operation: &Operation,
    order: Order,
    body: &[u8],
) -> Result<List<IdlValue>, CallFault>
    ensures { Spec.Means (Spec.seen result)
        (Spec.or_bad Spec.giving (Spec.values_at (kinds_out (operation_of operation.now)) (cursor order 0 body.now))) }
{
    match results_in(alloc, operation, order, body) {
        Ok(values) => Ok(values),
        Err(fault) => Err(fault_of(fault)),
    }
}

/// What a body with an exception of an IDL file means.
#[tactic(auto, using(crate::proofs::Meanings::user_means, crate::proofs::Meanings::user_fails))]
fn user(alloc: Global, order: Order, body: &[u8]) -> Result<List<IdlValue>, CallFault>
    ensures { Spec.Means (Spec.seen result) (Spec.or_bad Spec.telling_user (string_at (cursor order 0 body.now))) }
{
    match user_in(alloc, order, body) {
        Ok(id) => Err(CallFault::User(id)),
        Err(fault) => Err(fault_of(fault)),
    }
}

/// What a body with a system exception means.
#[tactic(auto, using(crate::proofs::Meanings::system_means, crate::proofs::Meanings::system_fails))]
fn system(alloc: Global, order: Order, body: &[u8]) -> Result<List<IdlValue>, CallFault>
    ensures { Spec.Means (Spec.seen result) (Spec.or_bad Spec.telling_system (Spec.system_at (cursor order 0 body.now))) }
{
    match system_in(alloc, order, body) {
        Ok(exception) => Err(CallFault::System(exception)),
        Err(fault) => Err(fault_of(fault)),
    }
}

/// What a reply of this status and byte order with this body means to a call of the operation, as `meaning_of` has it. The body is that
/// of the reply, which begins at a multiple of 8 of its message. Work and memory grow with the bytes read.
#[tactic(auto, using(crate::proofs::Meanings::elsewhere_means))]
pub fn meaning_by_status(
    alloc: Global,
    operation: &Operation,
    status: u32,
    order: Order,
    body: &[u8],
) -> Result<List<IdlValue>, CallFault>
    ensures { Spec.Means (Spec.seen result) (Spec.by_status (operation_of operation.now) status (cursor order 0 body.now)) }
{
    if status == NO_EXCEPTION {
        return results(alloc, operation, order, body);
    }
    if status == USER_EXCEPTION {
        return user(alloc, order, body);
    }
    if status == SYSTEM_EXCEPTION {
        return system(alloc, order, body);
    }
    Err(CallFault::Forward(status))
}

/// What a reply to a call of the operation means: the result, where there is one, and the values of the `out` and `inout` parameters in
/// order; or an exception, of which one of an IDL file is told by its id alone; or that the object is elsewhere. Bytes after what is read
/// are not looked at. Work and memory grow with the bytes read.
pub fn meaning_of(
    alloc: Global,
    operation: &Operation,
    answer: &Answer,
) -> Result<List<IdlValue>, CallFault>
    ensures { Spec.Means (Spec.seen result) (Spec.meaning_of (operation_of operation.now) answer.now) }
{
    meaning_by_status(
        alloc,
        operation,
        answer.status,
        answer.order,
        answer.body.as_slice(),
    )
}
