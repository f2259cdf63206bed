//! Which types are lawful.
ghost use Rattle.std.specs.Prelude.{◌≡◌, ◌&&◌, ◌++◌, count_by};
ghost use Rattle.std.specs.List.{list_any};
ghost use Rattle.std.specs.Ordering.{int_eq};
ghost use Rattle.std.specs.Str.{bytes_eq};
ghost use Rattle.cdr_values.specs.Choice.{has_label};
ghost use Rattle.cdr_values.specs.Kinds.{kind_of, members_view, cases_view};
ghost use Rattle.cdr_values.specs.Lawful as law;
ghost use Rattle.cdr_values.specs.Trees.{array, members_of, cases_of};

use crate::choice::is_among;
use crate::kind::{Case, IdlType, Member};
use orb_base::Text;

/// Whether a type is lawful, in all its parts: a struct has a member and an array an element; the names of a struct's
/// members differ, and so do an enum's labels; the discriminator of a union is an integer type other than octet, a char,
/// a boolean or an enum, no label of its cases is there twice, and at most one of them is the default.
///
/// Work grows with the size of the type, and with the square of the number of names or labels of one of its parts; the
/// stack grows with its depth. Takes no memory.
#[cycle(is_lawful)]
pub fn is_lawful(kind: &IdlType) -> bool
    ensures { result ≡ law.is_lawful (kind_of kind.now) }
{
    match kind {
        IdlType::Boolean => true,
        IdlType::Octet => true,
        IdlType::Char => true,
        IdlType::Short => true,
        IdlType::UShort => true,
        IdlType::Long => true,
        IdlType::ULong => true,
        IdlType::LongLong => true,
        IdlType::ULongLong => true,
        IdlType::Words(_) => true,
        IdlType::Seq(element, _) => is_lawful(element),
        IdlType::Array(element, len) => is_lawful_array(element, *len),
        IdlType::Struct(_, members) => is_lawful_struct(members),
        IdlType::Union(_, tag, cases) => is_lawful_union(cases, tag),
        IdlType::Enum(_, labels) => texts_differ(labels.as_slice()),
    }
}

#[cycle(is_lawful)]
fn is_lawful_array(element: &IdlType, len: u32) -> bool
    ensures { result ≡ law.is_lawful (array (kind_of element.now) len) }
{
    if len == 0 {
        return false;
    }
    is_lawful(element)
}

#[cycle(is_lawful)]
#[tactic(auto, using(crate::proofs::LawfulLoops::none_there, crate::proofs::LawfulLoops::some_there))]
fn is_lawful_struct(members: &[Member]) -> bool
    ensures { result ≡ law.is_lawful_struct (members_of (members_view members.now)) }
{
    if members.is_empty() {
        return false;
    }
    if !names_differ(members) {
        return false;
    }
    are_lawful(members)
}

/// Whether the type of each member is lawful. Work as for `is_lawful`. Takes no memory.
#[cycle(is_lawful)]
pub fn are_lawful(members: &[Member]) -> bool
    ensures { result ≡ law.are_lawful (members_of (members_view members.now)) }
{
    for member in members {
        if !is_lawful(&member.kind) {
            return false;
        }
    }
    true
}

#[cycle(is_lawful)]
fn is_lawful_union(cases: &[Case], tag: &IdlType) -> bool
    ensures { result ≡ law.is_lawful_union (kind_of tag.now) (cases_of (cases_view cases.now)) }
{
    if !is_lawful_tag(tag) {
        return false;
    }
    if !labels_differ(cases) {
        return false;
    }
    if !has_one_default(cases) {
        return false;
    }
    cases_are_lawful(cases)
}

#[cycle(is_lawful)]
fn cases_are_lawful(cases: &[Case]) -> bool
    ensures { result ≡ law.cases_are_lawful (cases_of (cases_view cases.now)) }
{
    for case in cases {
        if !is_lawful(&case.member.kind) {
            return false;
        }
    }
    true
}

/// Whether a type is lawful, and one of those that a union may have for its discriminator.
fn is_lawful_tag(kind: &IdlType) -> bool
    ensures { result ≡ (law.is_tag (kind_of kind.now) && law.is_lawful (kind_of kind.now)) }
{
    match kind {
        IdlType::Boolean => true,
        IdlType::Char => true,
        IdlType::Short => true,
        IdlType::UShort => true,
        IdlType::Long => true,
        IdlType::ULong => true,
        IdlType::LongLong => true,
        IdlType::ULongLong => true,
        IdlType::Enum(_, labels) => texts_differ(labels.as_slice()),
        _ => false,
    }
}

#[tactic(auto, using(crate::proofs::LawfulLoops::one_default))]
fn has_one_default(cases: &[Case]) -> bool
    ensures { result ≡ law.has_one_default (cases_of (cases_view cases.now)) }
{
    count_defaults(cases) <= 1
}

fn count_defaults(cases: &[Case]) -> usize
    ensures { result ≡ count_by (λ c. c.is_default) cases.now }
{
    cases.iter().filter(|case| case.is_default).count()
}

fn texts_differ(texts: &[Text]) -> bool
    ensures { result ≡ law.differ bytes_eq texts.now }
{
    let mut rest = texts;
    while let [text, behind @ ..] = rest {
        if has_text(text, behind) {
            return false;
        }
        rest = behind;
    }
    true
}

fn has_text(text: &Text, texts: &[Text]) -> bool
    ensures { result ≡ list_any (λ y. bytes_eq y text.now) texts.now }
{
    texts.iter().any(|other| other == text)
}

fn names_differ(members: &[Member]) -> bool
    ensures { result ≡ law.differ bytes_eq (law.member_names (members_of (members_view members.now))) }
{
    let mut rest = members;
    while let [member, behind @ ..] = rest {
        if has_name(&member.name, behind) {
            return false;
        }
        rest = behind;
    }
    true
}

fn has_name(name: &Text, members: &[Member]) -> bool
    ensures { result ≡ list_any (λ y. bytes_eq y name.now) (law.member_names (members_of (members_view members.now))) }
{
    is_name_of(name, members)
}

fn is_name_of(name: &Text, members: &[Member]) -> bool
    ensures { result ≡ list_any (λ m. bytes_eq m.name name.now) members.now }
{
    members.iter().any(|member| member.name == *name)
}

fn labels_differ(cases: &[Case]) -> bool
    ensures { result ≡ law.differ int_eq (law.all_labels (cases_of (cases_view cases.now))) }
{
    let mut rest = cases;
    while let [case, behind @ ..] = rest {
        if !are_fresh(case.labels.as_slice(), behind) {
            return false;
        }
        rest = behind;
    }
    true
}

/// Whether labels differ from one another, and from those of the cases after them.
fn are_fresh(labels: &[i128], behind: &[Case]) -> bool
    ensures { result ≡ law.are_new labels.now (law.all_labels (cases_of (cases_view behind.now))) }
{
    let mut rest = labels;
    while let [label, others @ ..] = rest {
        if stands_behind(*label, others, behind) {
            return false;
        }
        rest = others;
    }
    true
}

#[tactic(auto, using(crate::proofs::LawfulLoops::in_either))]
fn stands_behind(label: i128, others: &[i128], behind: &[Case]) -> bool
    ensures { result ≡ has_label label (others.now ++ law.all_labels (cases_of (cases_view behind.now))) }
{
    is_among(label, others) || has_case(label, behind)
}

fn has_case(label: i128, cases: &[Case]) -> bool
    ensures { result ≡ has_label label (law.all_labels (cases_of (cases_view cases.now))) }
{
    is_label_of(label, cases)
}

fn is_label_of(label: i128, cases: &[Case]) -> bool
    ensures { result ≡ list_any (λ c. has_label label c.labels.items) cases.now }
{
    cases
        .iter()
        .any(|case| is_among(label, case.labels.as_slice()))
}
