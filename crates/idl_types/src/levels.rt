//! Counting levels against a limit.
ghost use Rattle.std.specs.Prelude.{◌≡◌, ◌+◌, nat_le};
ghost use Rattle.cdr_values.specs.Trees.{members_of, cases_of};
ghost use Rattle.cdr_values.specs.Kinds.{kind_of, members_view, cases_view};
ghost use Rattle.idl_types.specs.Counting.{levels_of, levels_of_members, levels_of_cases};

use cdr_values::{Case, IdlType, Member};

/// Whether a type has no more than so many levels. The stack grows with the limit and not with the type's depth.
#[cycle(levels)]
pub(crate) fn is_within_levels(kind: &IdlType, most: u32) -> bool
    ensures { result ≡ nat_le (levels_of (kind_of kind.now)) most }
{
    match kind {
        IdlType::Boolean => true,
        IdlType::Octet => true,
        IdlType::Char => true,
        IdlType::Short => true,
        IdlType::UShort => true,
        IdlType::Long => true,
        IdlType::ULong => true,
        IdlType::LongLong => true,
        IdlType::ULongLong => true,
        IdlType::Words(_) => true,
        IdlType::Seq(element, _) => is_below_levels(element, most),
        IdlType::Array(element, _) => is_below_levels(element, most),
        IdlType::Struct(_, members) => are_below_levels(members, most),
        IdlType::Union(_, _, cases) => cases_are_below_levels(cases, most),
        IdlType::Enum(_, _) => true,
    }
}

#[cycle(levels)]
fn is_below_levels(kind: &IdlType, most: u32) -> bool
    ensures { result ≡ nat_le (levels_of (kind_of kind.now) + 1) most }
{
    if most == 0 {
        return false;
    }
    is_within_levels(kind, most - 1)
}

#[cycle(levels)]
fn are_below_levels(members: &[Member], most: u32) -> bool
    ensures { result ≡ nat_le (levels_of_members (members_of (members_view members.now)) + 1) most }
{
    if most == 0 {
        return false;
    }
    are_within_levels(members, most - 1)
}

#[cycle(levels)]
pub(crate) fn are_within_levels(members: &[Member], most: u32) -> bool
    ensures { result ≡ nat_le (levels_of_members (members_of (members_view members.now))) most }
{
    for member in members {
        if !is_within_levels(&member.kind, most) {
            return false;
        }
    }
    true
}

#[cycle(levels)]
fn cases_are_below_levels(cases: &[Case], most: u32) -> bool
    ensures { result ≡ nat_le (levels_of_cases (cases_of (cases_view cases.now)) + 1) most }
{
    if most == 0 {
        return false;
    }
    cases_are_within_levels(cases, most - 1)
}

#[cycle(levels)]
fn cases_are_within_levels(cases: &[Case], most: u32) -> bool
    ensures { result ≡ nat_le (levels_of_cases (cases_of (cases_view cases.now))) most }
{
    for case in cases {
        if !is_within_levels(&case.member.kind, most) {
            return false;
        }
    }
    true
}
