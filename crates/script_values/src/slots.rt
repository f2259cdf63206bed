//! Values in slots.
ghost use Rattle.std.specs.Prelude.{◌≡◌, IfOk, replicate, slice_set};
ghost use Rattle.cdr_values.specs.Values.{value_of, values_view};
ghost use Rattle.script_values.specs.Operations.{blank, member_at};
ghost use Rattle.script_values.specs.Views.{seen_of};

use crate::Seen;
use crate::operations::value_in;
use cdr_values::IdlValue;
use orb_base::NoMemory;
use std::alloc::Global;

/// The value in a slot.
pub fn slot<'a>(slots: &'a [IdlValue], at: usize) -> Seen<'a>
    ensures { seen_of result ≡ member_at (values_view slots.now) at }
{
    match value_in(slots, at) {
        Some(value) => Seen::Here(value),
        None => Seen::Made(IdlValue::Boolean(false)),
    }
}

/// So many slots in which nothing was put.
pub fn blanks(n: usize, alloc: Global) -> Result<Vec<IdlValue>, NoMemory>
    ensures { IfOk result (λ v. values_view v.items ≡ replicate n blank) }
{
    let mut values = Vec::new(alloc);
    for _ in 0..n {
        values.push(IdlValue::Boolean(false))?;
    }
    Ok(values)
}

/// Puts a value into a slot, if there is one.
pub fn put(values: &mut Vec<IdlValue>, at: usize, value: IdlValue)
    ensures { values_view values.new.items ≡ slice_set (values_view values.old.items) at (value_of value) }
{
    if at < values.len() {
        values[at] = value;
    }
}
