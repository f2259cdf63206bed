//! Values of types, put after one another.
ghost use Rattle.std.specs.Prelude.{◌≡◌, map, slice_get};
ghost use Rattle.std.specs.Option.{option_copied, option_map};
ghost use Rattle.cdr_values.specs.Kinds.{kind_of, members_view};
ghost use Rattle.cdr_values.specs.Spelling.{fields_of};
ghost use Rattle.cdr_values.specs.Trees.{scalar, boolean, words, text, truth};
ghost use Rattle.cdr_values.specs.Values.{value_of, values_view};
ghost use Rattle.idl_types.specs.Views.{param_of};
ghost use Rattle.script_values.specs.Operations.{member_at, as_items};
ghost use Rattle.script_values.specs.Gives.{Gives};
ghost use Rattle.dynamic_servants.specs.Replies as Spec;
ghost use Rattle.dynamic_servants.specs.Said.{Said};

use cdr_core::Writer;
use cdr_values::{IdlType, IdlValue, Member, encode, fits};
use idl_types::{Param, Way};
use orb_base::limits::MAX_BODY;
use orb_base::{SharedOctets, Text};
use script_values::{Limit, Stop};
use std::alloc::Global;

/// Puts a value of a type.
#[tactic(auto, using(crate::proofs::Spellings::put_said))]
pub(crate) fn put(kind: &IdlType, value: &IdlValue, writer: &mut Writer) -> Result<(), Stop>
    ensures { Said result writer.old writer.new (fields_of (value_of value.now) (kind_of kind.now)) }
{
    if !fits(kind, value) {
        return Err(Stop::Limit(Limit::Misfit));
    }
    encode(kind, value, writer)?;
    Ok(())
}

/// Puts a truth.
pub(crate) fn put_truth(holds: bool, writer: &mut Writer) -> Result<(), Stop>
    ensures { Said result writer.old writer.new (fields_of (truth holds) (scalar boolean)) }
{
    put(&IdlType::Boolean, &IdlValue::Boolean(holds), writer)
}

/// The value at an index.
fn value_in(values: &[IdlValue], at: usize) -> Option<&IdlValue>
    ensures { option_map value_of (option_copied result) ≡ slice_get (values_view values.now) at }
{
    values.get(at)
}

/// Puts the value at an index; where there is none, FALSE stands for it.
fn put_nth(kind: &IdlType, values: &[IdlValue], at: usize, writer: &mut Writer) -> Result<(), Stop>
    ensures { Said result writer.old writer.new (fields_of (member_at (values_view values.now) at) (kind_of kind.now)) }
{
    match value_in(values, at) {
        Some(value) => put(kind, value, writer),
        None => put(kind, &IdlValue::Boolean(false), writer),
    }
}

/// Puts a result, where one is due and came.
#[tactic(auto, using(crate::proofs::Spellings::nothing_said))]
pub(crate) fn put_result(
    kind: Option<&IdlType>,
    value: Option<&IdlValue>,
    writer: &mut Writer,
) -> Result<(), Stop>
    ensures { Said result writer.old writer.new (Spec.all_fields
        (Spec.result_of (option_map kind_of (option_copied kind.entry)) (option_map value_of (option_copied value.entry)))) }
{
    match kind {
        Some(kind) => match value {
            Some(value) => put(kind, value, writer),
            None => Ok(()),
        },
        None => Ok(()),
    }
}

/// Puts a parameter from the variable at an index, where it comes out.
#[tactic(auto, using(crate::proofs::Spellings::nothing_said))]
fn put_out(param: &Param, slots: &[IdlValue], at: usize, writer: &mut Writer) -> Result<(), Stop>
    ensures { Said result writer.old writer.new (Spec.all_fields
        (Spec.out_of (param_of param.now).way (param_of param.now).kind (member_at (values_view slots.now) at))) }
{
    match param.way {
        Way::Input => Ok(()),
        Way::Output => put_nth(&param.kind, slots, at, writer),
        Way::Both => put_nth(&param.kind, slots, at, writer),
    }
}

/// Puts the parameters that come out, in order.
pub(crate) fn put_outs(
    params: &[Param],
    slots: &[IdlValue],
    writer: &mut Writer,
) -> Result<(), Stop>
    ensures { Said result writer.old writer.new (Spec.all_fields (Spec.outs_from 0 (map param_of params.now) (values_view slots.now))) }
{
    for (at, param) in params.iter().enumerate() {
        put_out(param, slots, at, writer)?;
    }
    Ok(())
}

/// Puts the members of an exception, in order.
pub(crate) fn put_members(
    members: &[Member],
    values: &[IdlValue],
    writer: &mut Writer,
) -> Result<(), Stop>
    ensures { Said result writer.old writer.new (Spec.all_fields (Spec.members_from 0 (members_view members.now) (values_view values.now))) }
{
    for (at, member) in members.iter().enumerate() {
        put_nth(&member.kind, values, at, writer)?;
    }
    Ok(())
}

/// Puts an id as a string.
#[tactic(auto, using(crate::proofs::Spellings::id_said, crate::proofs::Spellings::no_id))]
pub(crate) fn put_id(id: &Text, writer: &mut Writer) -> Result<(), Stop>
    ensures { Said result writer.old writer.new (fields_of (text id.now) (words 0)) }
{
    if id.as_slice().len() >= 0xffff_ffff {
        return Err(Stop::Limit(Limit::Misfit));
    }
    writer.put_string(id)?;
    Ok(())
}

/// The items of a value, and none of any other value.
pub(crate) fn items_of(value: &IdlValue) -> &[IdlValue]
    ensures { values_view result.now ≡ as_items (value_of value.now) }
{
    match value {
        IdlValue::Items(values) => values.as_slice(),
        _ => &[],
    }
}

/// The bytes that were put, where a reply has room for them.
pub(crate) fn finish(writer: Writer, alloc: Global) -> Result<SharedOctets, Stop>
    ensures { Gives (λ body. body) result (Spec.within writer.bytes) }
{
    let body = writer.finish();
    if body.len() > MAX_BODY {
        return Err(Stop::Limit(Limit::TooLarge));
    }
    Ok(SharedOctets::new(alloc, body)?)
}
