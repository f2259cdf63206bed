//! The bodies of replies.
ghost use Rattle.std.specs.Prelude.{◌≡◌, [], ◌∷◌, ◌++◌, Ok};
ghost use Rattle.std.specs.Option.{option_copied, option_map};
ghost use Rattle.orb_base.specs.declared.outcome.Outcome.TheVariants.{Returned, User};
ghost use Rattle.cdr_values.specs.Trees.{scalar, boolean, truth};
ghost use Rattle.cdr_values.specs.Values.{value_of, values_view};
ghost use Rattle.idl_types.specs.Contents.{things_of};
ghost use Rattle.idl_types.specs.Views.{exception_of, operation_of};
ghost use Rattle.script_values.specs.Ends.{end_of};
ghost use Rattle.script_values.specs.Gives.{Gives};
ghost use Rattle.dynamic_servants.specs.Ending as Spec;
ghost use Rattle.dynamic_servants.specs.Replies.{result_of, outs_from, exception_values, body_of};

use crate::spelling::{finish, items_of, put_id, put_members, put_outs, put_result, put_truth};
use cdr_core::Writer;
use cdr_values::IdlValue;
use idl_types::{Exception, Operation, Repository};
use orb_base::{Order, Outcome, SharedOctets, Text};
use script_values::{Flow, Limit, Stop, slot};
use std::alloc::Global;

/// Where the body of a reply begins, its header being 24 bytes.
pub(crate) const BODY_PLACE: usize = 24;

fn returned_body(
    operation: &Operation,
    value: Option<&IdlValue>,
    slots: &[IdlValue],
    order: Order,
    alloc: Global,
) -> Result<SharedOctets, Stop>
    ensures { Gives (λ body. body) result (body_of order
        (result_of (operation_of operation.now).result (option_map value_of (option_copied value.entry))
        ++ outs_from 0 (operation_of operation.now).params (values_view slots.now))) }
{
    let mut writer = Writer::new(alloc, order, BODY_PLACE);
    put_result(operation.result.as_ref(), value, &mut writer)?;
    put_outs(operation.params.as_slice(), slots, &mut writer)?;
    finish(writer, alloc)
}

fn raised_body(
    exception: &Exception,
    value: &IdlValue,
    order: Order,
    alloc: Global,
) -> Result<SharedOctets, Stop>
    ensures { Gives (λ body. body) result (body_of order
        (exception_values (exception_of exception.now).id (exception_of exception.now).members (value_of value.now))) }
{
    let mut writer = Writer::new(alloc, order, BODY_PLACE);
    put_id(&exception.id, &mut writer)?;
    put_members(exception.members.as_slice(), items_of(value), &mut writer)?;
    finish(writer, alloc)
}

fn truth_body(holds: bool, order: Order, alloc: Global) -> Result<SharedOctets, Stop>
    ensures { Gives (λ body. body) result (body_of order ((scalar boolean, truth holds) ∷ [])) }
{
    let mut writer = Writer::new(alloc, order, BODY_PLACE);
    put_truth(holds, &mut writer)?;
    finish(writer, alloc)
}

fn returned(
    operation: &Operation,
    value: Option<&IdlValue>,
    slots: &[IdlValue],
    order: Order,
    alloc: Global,
) -> Result<Outcome, Stop>
    ensures { Gives (λ o. o) result (Spec.returns order
        (result_of (operation_of operation.now).result (option_map value_of (option_copied value.entry))
        ++ outs_from 0 (operation_of operation.now).params (values_view slots.now))) }
{
    Ok(Outcome::Returned(returned_body(operation, value, slots, order, alloc)?))
}

fn raised(
    exception: Option<&Exception>,
    value: &IdlValue,
    order: Order,
    alloc: Global,
) -> Result<Outcome, Stop>
    ensures { Gives (λ o. o) result (Spec.raises order (option_map exception_of (option_copied exception.entry)) (value_of value.now)) }
{
    match exception {
        Some(exception) => Ok(Outcome::User(raised_body(exception, value, order, alloc)?)),
        None => Err(Stop::Limit(Limit::Misfit)),
    }
}

/// The exception at an index of those that an operation may raise.
fn exception_at<'r>(repository: &'r Repository, raises: &[Text], at: u32) -> Option<&'r Exception>
    ensures { option_map exception_of (option_copied result) ≡ Spec.exception_at (things_of repository.now) raises.now at }
{
    match raises.get(at as usize) {
        Some(id) => repository.exception(id.as_slice()),
        None => None,
    }
}

/// A truth as a result.
pub(crate) fn tell_truth(holds: bool, order: Order, alloc: Global) -> Result<Outcome, Stop>
    ensures { Gives (λ o. o) result (Spec.returns order ((scalar boolean, truth holds) ∷ [])) }
{
    Ok(Outcome::Returned(truth_body(holds, order, alloc)?))
}

/// What an operation comes to whose method ended so: it returns its result and then the parameters that come out, or it
/// raises an exception. Work and memory grow with the size of these values.
pub(crate) fn end_with(
    flow: Flow,
    operation: &Operation,
    slots: &[IdlValue],
    repository: &Repository,
    order: Order,
    alloc: Global,
) -> Result<Outcome, Stop>
    ensures { Gives (λ o. o) result (Spec.ended (things_of repository.now) (operation_of operation.now) order (end_of (values_view slots.now) flow, values_view slots.now)) }
{
    match flow {
        Flow::Returned(value) => returned(operation, Some(&value), slots, order, alloc),
        Flow::Lent(at) => {
            let value = slot(slots, at);
            returned(operation, Some(value.get()), slots, order, alloc)
        }
        Flow::Next => returned(operation, None, slots, order, alloc),
        Flow::Left => returned(operation, None, slots, order, alloc),
        Flow::Raised(at, value) => {
            let exception = exception_at(repository, operation.raises.as_slice(), at);
            raised(exception, &value, order, alloc)
        }
    }
}
