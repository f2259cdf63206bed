//! What is built: members of structs and exceptions, and elements of lists.
ghost use Rattle.std.specs.Prelude.{◌≡◌, List, Some};
ghost use Rattle.std.specs.Option.{option_map};
ghost use Rattle.cdr_values.specs.Kinds.{kind_of, members_view};
ghost use Rattle.cdr_values.specs.Trees.{members_of};
ghost use Rattle.idl_types.specs.Contents.{things_of};
ghost use Rattle.idl_types.specs.References.{kind_at};
ghost use Rattle.idl_types.specs.Things.{Thing};
ghost use Rattle.script_values.specs.Views.{term_of, parts_view};
ghost use Rattle.script_values.specs.Trees.{build, terms_of};
ghost use Rattle.script_checks.specs.Built as Spec;
ghost use Rattle.script_checks.specs.Gives.{Gives};
ghost use Rattle.script_checks.specs.Views.{sort_of, checked_of, list_due_of};

use crate::fault::{CheckCause, CheckError};
use crate::kinds::{element, is_len};
use crate::naming::refuse;
use crate::scene::{Checked, ListDue, Sort};
use crate::typing::{member, single};
use cdr_values::{IdlType, Member};
use idl_types::{Repository, TypeRef};
use script_values::{Element, Expr, Form};
use servant_scripts::{At, Part};
use std::alloc::Global;

/// Whether a member was given already. Costs a step for each one that was.
#[tactic(auto, using(script_values::proofs::Parts::part_is))]
fn is_given(elements: &[Element], place: usize) -> bool
    ensures { (ts : List Thing) → result ≡ Spec.is_given (parts_view ts elements.now) place }
{
    for element in elements {
        if element.place == place {
            return true;
        }
    }
    false
}

/// The index of the member that a field gives, after those that were given.
pub(crate) fn new_member(
    members: &[Member],
    elements: &[Element],
    part: &Part,
) -> Result<usize, CheckError>
    ensures { (ts : List Thing) → Gives (λ n. n) result
        (Spec.new_member (members_of (members_view members.now)) (parts_view ts elements.now) part.now) }
{
    match member(members, part.name.as_slice()) {
        Some(slot) => {
            if is_given(elements, slot.index) {
                Err(refuse(CheckCause::Members, part.at))
            } else {
                Ok(slot.index)
            }
        }
        None => Err(refuse(CheckCause::Members, part.at)),
    }
}

/// All members, or the fault that one is missing, at the closing brace.
#[tactic(auto, using(crate::proofs::Parts::members_count, crate::proofs::Parts::parts_count))]
pub(crate) fn complete(
    members: &[Member],
    close: At,
    elements: Vec<Element>,
) -> Result<Vec<Element>, CheckError>
    ensures { (ts : List Thing) → Gives (λ v. parts_view ts v.items) result
        (Spec.complete (members_of (members_view members.now)) close (parts_view ts elements.items)) }
{
    if elements.len() == members.len() {
        Ok(elements)
    } else {
        Err(refuse(CheckCause::Members, close))
    }
}

/// The expression that builds these.
pub(crate) fn built(elements: Vec<Element>, alloc: Global) -> Expr
    ensures { (ts : List Thing) → term_of ts result ≡ build (terms_of (parts_view ts elements.items)) }
{
    single(Form::Build(elements), alloc)
}

/// The kind of the type that a reference stands for.
pub(crate) fn due_sort(repository: &Repository, due: TypeRef) -> Option<Sort<'_>>
    ensures { option_map sort_of result ≡ kind_at (things_of repository.now) due }
{
    match repository.type_at(due) {
        Some(kind) => Some(Sort::Type(kind)),
        None => None,
    }
}

/// The type of lists that is due, or the fault of a list that is there.
fn list_due_at(repository: &Repository, due: TypeRef, at: At) -> Result<ListDue<'_>, CheckError>
    ensures { Gives list_due_of result (Spec.list_due (things_of repository.now) (Some due) at) }
{
    match repository.type_at(due) {
        Some(kind) => match element(kind) {
            Some(_) => Ok(ListDue { due, kind }),
            None => Err(refuse(CheckCause::Kind, at)),
        },
        None => Err(refuse(CheckCause::Kind, at)),
    }
}

/// The type of lists that is due, or the fault of a list that is there.
pub(crate) fn list_due<'r>(
    repository: &'r Repository,
    want: Option<TypeRef>,
    at: At,
) -> Result<ListDue<'r>, CheckError>
    ensures { Gives list_due_of result (Spec.list_due (things_of repository.now) want at) }
{
    match want {
        Some(due) => list_due_at(repository, due, at),
        None => Err(refuse(CheckCause::Kind, at)),
    }
}

/// A whole list, of as many as an array has.
#[tactic(auto, using(crate::proofs::Parts::parts_count))]
pub(crate) fn list_of<'r>(
    kind: &'r IdlType,
    at: At,
    elements: Vec<Element>,
    alloc: Global,
) -> Result<Checked<'r>, CheckError>
    ensures { (ts : List Thing) → Gives (checked_of ts) result (Spec.list_of (kind_of kind.now) at (parts_view ts elements.items)) }
{
    if is_len(kind, elements.len()) {
        Ok(Checked {
            expr: built(elements, alloc),
            sort: Sort::Type(kind),
        })
    } else {
        Err(refuse(CheckCause::Kind, at))
    }
}
