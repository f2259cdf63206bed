//! The size of values.
ghost use Rattle.std.specs.Prelude.{◌≡◌};
ghost use Rattle.cdr_values.specs.Trees.{values_of};
ghost use Rattle.cdr_values.specs.Values.{value_of, values_view};
ghost use Rattle.script_values.specs.Leaves.{leaves, all_leaves, less, sized};
ghost use Rattle.script_values.specs.Gives.{Holds};

use crate::Limit;
use cdr_values::IdlValue;

/// The leaves of a built value at most.
const MAX_LEAVES: u32 = 65_536;

fn take(room: u32, leaves: usize) -> Option<u32>
    ensures { result ≡ less room leaves }
{
    if leaves > room as usize {
        return None;
    }
    Some(room - leaves as u32)
}

#[cycle(leaves)]
fn room_after_all(room: u32, values: &[IdlValue]) -> Option<u32>
    ensures { result ≡ less room (all_leaves (values_of (values_view values.now))) }
{
    let mut left = room;
    for value in values {
        left = room_after(left, value)?;
    }
    Some(left)
}

/// What is left of this room after the leaves of a value, or None where they are more. Stops at the first leaf too many.
#[cycle(leaves)]
fn room_after(room: u32, value: &IdlValue) -> Option<u32>
    ensures { result ≡ less room (leaves (value_of value.now)) }
{
    match value {
        IdlValue::Words(words) => take(take(room, words.as_slice().len())?, 1),
        IdlValue::Items(values) => room_after_all(room, values),
        IdlValue::Chosen(_, None) => take(room, 1),
        IdlValue::Chosen(_, Some(member)) => room_after(take(room, 1)?, member),
        _ => take(room, 1),
    }
}

/// The value, where it isn't too large.
#[tactic(auto, unfolding(crate::specs::Leaves::sized))]
pub fn fit_size(value: IdlValue) -> Result<IdlValue, Limit>
    ensures { Holds value_of result (sized (value_of value)) }
{
    match room_after(MAX_LEAVES, &value) {
        Some(_) => Ok(value),
        None => Err(Limit::TooLarge),
    }
}
