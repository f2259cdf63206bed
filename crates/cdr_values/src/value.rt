//! Values of IDL types.
ghost use Rattle.std.specs.Prelude.{◌≡◌, IfOk};
ghost use Rattle.cdr_values.specs.Trees.{chosen, value, no_values};
ghost use Rattle.cdr_values.specs.Values.{value_of};

use orb_base::{NoMemory, Text};
use std::alloc::Global;

/// A value, of whatever type it fits.
#[derive(Drop)]
pub enum IdlValue {
    Boolean(bool),
    /// An octet or an integer.
    Number(i128),
    Char(u8),
    /// A string.
    Words(Text),
    /// The elements of a sequence or an array, or the members of a struct, in order.
    Items(Vec<IdlValue>),
    /// A union: the number of its discriminator, and the member that it chooses, where it chooses one. FALSE is 0 and
    /// TRUE is 1; a char has its code.
    Chosen(i128, Option<Box<IdlValue>>),
    /// An enumerator, by its number from 0.
    Label(u32),
}

/// A union's value with a member.
pub(crate) fn with_member(alloc: Global, tag: i128, member: IdlValue) -> Result<IdlValue, NoMemory>
    ensures { IfOk result (λ v. value_of v ≡ chosen tag (value (value_of member) no_values)) }
{
    let member = Box::new(alloc, member)?;
    Ok(IdlValue::Chosen(tag, Some(member)))
}

/// A union's value without a member.
pub(crate) fn without_member(tag: i128) -> IdlValue
    ensures { value_of result ≡ chosen tag no_values }
{
    IdlValue::Chosen(tag, None)
}
