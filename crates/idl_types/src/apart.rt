//! Names that are told apart, case aside.
ghost use Rattle.std.specs.Prelude.{◌≡◌, ◌&&◌};
ghost use Rattle.std.specs.List.{list_any};
ghost use Rattle.std.specs.Str.{str_eq_ignore_ascii_case};
ghost use Rattle.cdr_values.specs.Kinds.{kind_of, members_view, cases_view};
ghost use Rattle.cdr_values.specs.Lawful.{member_names};
ghost use Rattle.cdr_values.specs.Trees.{members_of, cases_of};
ghost use Rattle.idl_types.specs.Apart as law;

use crate::folding::is_same_name;
use cdr_values::{Case, IdlType, Member};
use orb_base::Text;

/// Whether the names in a type are told apart, case aside, in all its parts: members of a struct or a union, and labels
/// of an enum. Work grows with the size of the type, and with the square of the number of names of one of its parts; the
/// stack grows with its depth. Takes no memory.
#[cycle(apart)]
pub(crate) fn is_told_apart(kind: &IdlType) -> bool
    ensures { result ≡ law.is_told_apart (kind_of kind.now) }
{
    match kind {
        IdlType::Boolean => true,
        IdlType::Octet => true,
        IdlType::Char => true,
        IdlType::Short => true,
        IdlType::UShort => true,
        IdlType::Long => true,
        IdlType::ULong => true,
        IdlType::LongLong => true,
        IdlType::ULongLong => true,
        IdlType::Words(_) => true,
        IdlType::Seq(element, _) => is_told_apart(element),
        IdlType::Array(element, _) => is_told_apart(element),
        IdlType::Struct(_, members) => are_told_apart(members),
        IdlType::Union(_, tag, cases) => {
            if !is_told_apart(tag) {
                return false;
            }
            branches_are_told_apart(cases)
        }
        IdlType::Enum(_, labels) => labels_are_apart(labels.as_slice()),
    }
}

#[cycle(apart)]
pub(crate) fn are_told_apart(members: &[Member]) -> bool
    ensures { result ≡ law.are_told_apart (members_of (members_view members.now)) }
{
    if !members_are_apart(members) {
        return false;
    }
    parts_are_told_apart(members)
}

#[cycle(apart)]
fn parts_are_told_apart(members: &[Member]) -> bool
    ensures { result ≡ law.parts_are_told_apart (members_of (members_view members.now)) }
{
    for member in members {
        if !is_told_apart(&member.kind) {
            return false;
        }
    }
    true
}

/// Whether the names of the members of cases are told apart, and those in their types.
#[cycle(apart)]
fn branches_are_told_apart(cases: &[Case]) -> bool
    ensures { result ≡ (law.are_apart (law.case_names (cases_of (cases_view cases.now)))
        && law.cases_are_told_apart (cases_of (cases_view cases.now))) }
{
    if !cases_are_apart(cases) {
        return false;
    }
    cases_are_told_apart(cases)
}

#[cycle(apart)]
fn cases_are_told_apart(cases: &[Case]) -> bool
    ensures { result ≡ law.cases_are_told_apart (cases_of (cases_view cases.now)) }
{
    for case in cases {
        if !is_told_apart(&case.member.kind) {
            return false;
        }
    }
    true
}

fn members_are_apart(members: &[Member]) -> bool
    ensures { result ≡ law.are_apart (member_names (members_of (members_view members.now))) }
{
    let mut rest = members;
    while let [member, behind @ ..] = rest {
        if has_member(behind, &member.name) {
            return false;
        }
        rest = behind;
    }
    true
}

/// Whether a member has this name, case aside.
fn has_member(members: &[Member], name: &Text) -> bool
    ensures { result ≡ list_any (λ y. str_eq_ignore_ascii_case y name.now) (member_names (members_of (members_view members.now))) }
{
    any_member_is_like(members, name)
}

fn any_member_is_like(members: &[Member], name: &Text) -> bool
    ensures { result ≡ list_any (λ m. str_eq_ignore_ascii_case m.name name.now) members.now }
{
    members
        .iter()
        .any(|m| is_same_name(&m.name, name.as_slice()))
}

fn cases_are_apart(cases: &[Case]) -> bool
    ensures { result ≡ law.are_apart (law.case_names (cases_of (cases_view cases.now))) }
{
    let mut rest = cases;
    while let [case, behind @ ..] = rest {
        if has_case(behind, &case.member.name) {
            return false;
        }
        rest = behind;
    }
    true
}

/// Whether a case has a member of this name, case aside.
fn has_case(cases: &[Case], name: &Text) -> bool
    ensures { result ≡ list_any (λ y. str_eq_ignore_ascii_case y name.now) (law.case_names (cases_of (cases_view cases.now))) }
{
    any_case_is_like(cases, name)
}

fn any_case_is_like(cases: &[Case], name: &Text) -> bool
    ensures { result ≡ list_any (λ c. str_eq_ignore_ascii_case c.member.name name.now) cases.now }
{
    cases
        .iter()
        .any(|c| is_same_name(&c.member.name, name.as_slice()))
}

fn labels_are_apart(labels: &[Text]) -> bool
    ensures { result ≡ law.are_apart labels.now }
{
    let mut rest = labels;
    while let [label, behind @ ..] = rest {
        if has_label(behind, label) {
            return false;
        }
        rest = behind;
    }
    true
}

/// Whether a label is this one, case aside.
fn has_label(labels: &[Text], label: &Text) -> bool
    ensures { result ≡ list_any (λ y. str_eq_ignore_ascii_case y label.now) labels.now }
{
    labels.iter().any(|l| is_same_name(l, label.as_slice()))
}
