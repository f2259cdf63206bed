//! Operations on values.
ghost use Rattle.std.specs.Prelude.{◌≡◌, slice_get, option_map};
ghost use Rattle.std.specs.Option.{option_copied};
ghost use Rattle.cdr_values.specs.Values.{value_of, values_view};
ghost use Rattle.script_values.specs.Operations.{as_number, as_truth, as_items, len_of, applied, joined, compared, indexed, same, member_at, place_in};
ghost use Rattle.script_values.specs.Gives.{Gives};
ghost use Rattle.script_values.specs.Views.{seen_of};

use crate::numbers::{compute, negated};
use crate::{Limit, Seen, Stop};
use cdr_values::IdlValue;
use script_grammar::{Binary, Unary};

fn number_of(value: &IdlValue) -> i128
    ensures { result ≡ as_number (value_of value.now) }
{
    match value {
        IdlValue::Number(n) => *n,
        _ => 0,
    }
}

/// The truth of a value, and FALSE of one that isn't a boolean.
pub fn truth_of(value: &IdlValue) -> bool
    ensures { result ≡ as_truth (value_of value.now) }
{
    match value {
        IdlValue::Boolean(b) => *b,
        _ => false,
    }
}

#[tactic(auto, using(crate::proofs::Lists::list_of_values))]
fn items_of(value: &IdlValue) -> &[IdlValue]
    ensures { values_view result.now ≡ as_items (value_of value.now) }
{
    match value {
        IdlValue::Items(values) => values.as_slice(),
        _ => &[],
    }
}

fn are_same(a: &IdlValue, b: &IdlValue) -> bool
    ensures { result ≡ same (value_of a.now) (value_of b.now) }
{
    match (a, b) {
        (IdlValue::Number(a), IdlValue::Number(b)) => *a == *b,
        (IdlValue::Boolean(a), IdlValue::Boolean(b)) => *a == *b,
        (IdlValue::Words(a), IdlValue::Words(b)) => a.as_slice() == b.as_slice(),
        (IdlValue::Char(a), IdlValue::Char(b)) => *a == *b,
        (IdlValue::Label(a), IdlValue::Label(b)) => *a == *b,
        _ => false,
    }
}

fn len_of(value: &IdlValue) -> usize
    ensures { result ≡ len_of (value_of value.now) }
{
    match value {
        IdlValue::Words(words) => words.as_slice().len(),
        _ => items_of(value).len(),
    }
}

fn index_of(n: i128, len: usize) -> Option<usize>
    ensures { result ≡ place_in n len }
{
    if n < 0 || n >= len as i128 {
        return None;
    }
    Some(n as usize)
}

/// The value at an index.
pub fn value_in(values: &[IdlValue], at: usize) -> Option<&IdlValue>
    ensures { option_map value_of (option_copied result) ≡ slice_get (values_view values.now) at }
{
    values.get(at)
}

fn lent(value: &IdlValue, at: usize) -> Option<&IdlValue>
    ensures { option_map value_of (option_copied result) ≡ slice_get (as_items (value_of value.now)) at }
{
    value_in(items_of(value), at)
}

fn taken(value: IdlValue, at: usize) -> Option<IdlValue>
    ensures { option_map value_of result ≡ slice_get (as_items (value_of value)) at }
{
    match value {
        IdlValue::Items(mut values) => {
            if at < values.len() {
                Some(values.swap_remove(at))
            } else {
                None
            }
        }
        _ => None,
    }
}

/// The item at an index from 0, lent where the list is.
fn item<'a>(value: Seen<'a>, at: usize) -> Option<Seen<'a>>
    ensures { option_map seen_of result ≡ slice_get (as_items (seen_of value.entry)) at }
{
    match value {
        Seen::Here(value) => match lent(value, at) {
            Some(value) => Some(Seen::Here(value)),
            None => None,
        },
        Seen::Made(value) => match taken(value, at) {
            Some(value) => Some(Seen::Made(value)),
            None => None,
        },
    }
}

/// The member of a struct at an index.
pub fn member<'a>(value: Seen<'a>, at: usize) -> Seen<'a>
    ensures { seen_of result ≡ member_at (as_items (seen_of value.entry)) at }
{
    match item(value, at) {
        Some(value) => value,
        None => Seen::Made(IdlValue::Boolean(false)),
    }
}

/// What an operator of one operand makes of it.
pub fn apply<'a>(op: Unary, value: Seen<'a>) -> Result<Seen<'a>, Stop>
    ensures { Gives seen_of result (applied op (seen_of value.entry)) }
{
    match op {
        Unary::Negate => Ok(Seen::Made(IdlValue::Number(negated(number_of(value.get()))?))),
        Unary::Not => Ok(Seen::Made(IdlValue::Boolean(!truth_of(value.get())))),
        Unary::Len => Ok(Seen::Made(IdlValue::Number(len_of(value.get()) as i128))),
        Unary::Group => Ok(value),
    }
}

fn index<'a>(value: Seen<'a>, at: &IdlValue) -> Result<Seen<'a>, Stop>
    ensures { Gives seen_of result (indexed (seen_of value.entry) (value_of at.now)) }
{
    match index_of(number_of(at), items_of(value.get()).len()) {
        None => Err(Stop::Limit(Limit::Index)),
        Some(at) => match item(value, at) {
            None => Err(Stop::Limit(Limit::Index)),
            Some(value) => Ok(value),
        },
    }
}

fn compare(op: Binary, a: &IdlValue, b: &IdlValue) -> bool
    ensures { result ≡ compared op (value_of a.now) (value_of b.now) }
{
    match op {
        Binary::Same => are_same(a, b),
        Binary::Differs => !are_same(a, b),
        Binary::Less => number_of(a) < number_of(b),
        Binary::AtMost => number_of(a) <= number_of(b),
        Binary::Greater => number_of(a) > number_of(b),
        Binary::AtLeast => number_of(a) >= number_of(b),
        _ => false,
    }
}

/// What an operator of two operands makes of them.
pub fn join<'a>(op: Binary, a: Seen<'a>, b: Seen<'a>) -> Result<Seen<'a>, Stop>
    ensures { Gives seen_of result (joined op (seen_of a.entry) (seen_of b.entry)) }
{
    match op {
        Binary::Index => index(a, b.get()),
        Binary::Add | Binary::Subtract | Binary::Multiply | Binary::Divide | Binary::Remainder => {
            Ok(Seen::Made(IdlValue::Number(compute(op, number_of(a.get()), number_of(b.get()))?)))
        }
        _ => Ok(Seen::Made(IdlValue::Boolean(compare(op, a.get(), b.get())))),
    }
}
