//! Kinds of operators, and what they make of checked operands.
ghost use Rattle.std.specs.Prelude.{◌≡◌, List, IfOk};
ghost use Rattle.std.specs.Option.{option_map};
ghost use Rattle.cdr_values.specs.Kinds.{kind_of, members_view};
ghost use Rattle.cdr_values.specs.Trees.{members_of};
ghost use Rattle.idl_types.specs.References.{members_in};
ghost use Rattle.idl_types.specs.Things.{Thing};
ghost use Rattle.script_values.specs.Trees.{joint, unary as unary_term};
ghost use Rattle.script_values.specs.Views.{term_of, first_of, joint_of};
ghost use Rattle.script_checks.specs.Operators as Spec;
ghost use Rattle.script_checks.specs.Gives.{Gives};
ghost use Rattle.script_checks.specs.Views.{sort_of, checked_of, slot_of, asked_of};

use crate::fault::{CheckCause, CheckError};
use crate::kinds::{are_alike, element_in, has_len, is_number, is_simple, is_truth, struct_in};
use crate::naming::refuse;
use crate::scene::{Asked, Checked, Slot, Sort};
use cdr_values::{IdlType, Member};
use idl_types::TypeRef;
use orb_base::NoMemory;
use script_grammar::{Binary, Unary};
use script_values::{Expr, Form, Link};
use servant_scripts::{At, Part};
use std::alloc::Global;

/// Whether an operator of one operand may be before this kind.
fn suits(op: Unary, sort: Sort<'_>) -> bool
    ensures { result ≡ Spec.suits op (sort_of sort.entry) }
{
    match op {
        Unary::Negate => is_number(sort),
        Unary::Not => is_truth(sort),
        Unary::Len => has_len(sort),
        Unary::Group => true,
    }
}

/// The kind that it gives.
fn given_by<'r>(op: Unary, sort: Sort<'r>) -> Sort<'r>
    ensures { sort_of result ≡ Spec.gives op (sort_of sort.entry) }
{
    match op {
        Unary::Negate => Sort::Number,
        Unary::Not => Sort::Truth,
        Unary::Len => Sort::Number,
        Unary::Group => sort,
    }
}

/// An expression of one part.
#[tactic(auto, using(script_values::proofs::Parts::term_is))]
pub(crate) fn single(form: Form, alloc: Global) -> Expr
    ensures { (ts : List Thing) → term_of ts result ≡ first_of ts form }
{
    Expr {
        form,
        links: Vec::new(alloc),
    }
}

/// The type that is due after it: only parentheses hand it on.
pub(crate) fn want_in(op: Unary, want: Option<TypeRef>) -> Option<TypeRef>
    ensures { result ≡ Spec.want_in op want }
{
    match op {
        Unary::Group => want,
        _ => None,
    }
}

/// An operator with its one operand.
fn unary(op: Unary, expr: Expr, alloc: Global) -> Result<Expr, NoMemory>
    ensures { (ts : List Thing) → IfOk result (λ e. term_of ts e ≡ unary_term op (term_of ts expr)) }
{
    let expr = Box::new(alloc, expr)?;
    Ok(single(Form::Unary(op, expr), alloc))
}

/// An operator with its one operand, which begins there.
pub(crate) fn with_unary<'r>(
    op: Unary,
    at: At,
    checked: Checked<'r>,
    alloc: Global,
) -> Result<Checked<'r>, CheckError>
    ensures { (ts : List Thing) → Gives (checked_of ts) result (Spec.with_unary op at (checked_of ts checked.entry)) }
{
    if !suits(op, checked.sort) {
        return Err(refuse(CheckCause::Kind, at));
    }
    let sort = given_by(op, checked.sort);
    let expr = unary(op, checked.expr, alloc)?;
    Ok(Checked { expr, sort })
}

/// An expression with one more done to it.
#[tactic(auto, using(script_values::proofs::Parts::term_is, crate::proofs::Parts::one_link))]
pub(crate) fn with_link(expr: Expr, link: Link) -> Result<Expr, NoMemory>
    ensures { (ts : List Thing) → IfOk result (λ e. term_of ts e ≡ joint (term_of ts expr) (joint_of ts link)) }
{
    let form = expr.form;
    let mut links = expr.links;
    links.push(link)?;
    Ok(Expr { form, links })
}

/// What an operator asks of its second operand, and what both give; or the fault of the first one, which begins there.
pub(crate) fn asked<'r>(op: Binary, at: At, checked: &Checked<'r>) -> Result<Asked<'r>, CheckError>
    ensures { (ts : List Thing) → Gives asked_of result (Spec.asks op at (checked_of ts checked.now)) }
{
    match op {
        Binary::Or | Binary::And => {
            if is_truth(checked.sort) {
                Ok(Asked {
                    need: Sort::Truth,
                    gives: Sort::Truth,
                })
            } else {
                Err(refuse(CheckCause::Kind, at))
            }
        }
        Binary::Same | Binary::Differs => {
            if is_simple(checked.sort) {
                Ok(Asked {
                    need: checked.sort,
                    gives: Sort::Truth,
                })
            } else {
                Err(refuse(CheckCause::Kind, at))
            }
        }
        Binary::Index => match element_in(checked.sort) {
            Some(kind) => Ok(Asked {
                need: Sort::Number,
                gives: Sort::Type(kind),
            }),
            None => Err(refuse(CheckCause::Kind, at)),
        },
        Binary::Add | Binary::Subtract | Binary::Multiply | Binary::Divide | Binary::Remainder => {
            if is_number(checked.sort) {
                Ok(Asked {
                    need: Sort::Number,
                    gives: Sort::Number,
                })
            } else {
                Err(refuse(CheckCause::Kind, at))
            }
        }
        Binary::Less | Binary::AtMost | Binary::Greater | Binary::AtLeast => {
            if is_number(checked.sort) {
                Ok(Asked {
                    need: Sort::Number,
                    gives: Sort::Truth,
                })
            } else {
                Err(refuse(CheckCause::Kind, at))
            }
        }
    }
}

/// The members of a struct.
pub(crate) fn members(kind: &IdlType) -> &[Member]
    ensures { members_of (members_view result.now) ≡ members_in (kind_of kind.now) }
{
    match kind {
        IdlType::Struct(_, members) => members.as_slice(),
        _ => &[],
    }
}

/// The member of a name.
pub(crate) fn member<'r>(members: &'r [Member], name: &[u8]) -> Option<Slot<'r>>
    ensures { option_map slot_of result ≡ Spec.find_member 0 (members_of (members_view members.now)) name.now }
{
    for (index, member) in members.iter().enumerate() {
        if member.name.as_slice() == name {
            return Some(Slot {
                index,
                kind: &member.kind,
            });
        }
    }
    None
}

/// The member of a name, of a struct that begins there.
pub(crate) fn with_member<'r>(
    at: At,
    part: &Part,
    checked: Checked<'r>,
) -> Result<Checked<'r>, CheckError>
    ensures { (ts : List Thing) → Gives (checked_of ts) result (Spec.with_member at part.now (checked_of ts checked.entry)) }
{
    match struct_in(checked.sort) {
        Some(kind) => match member(members(kind), part.name.as_slice()) {
            Some(slot) => Ok(Checked {
                expr: with_link(checked.expr, Link::Member(slot.index))?,
                sort: Sort::Type(slot.kind),
            }),
            None => Err(refuse(CheckCause::UnknownName, part.at)),
        },
        None => Err(refuse(CheckCause::Kind, at)),
    }
}

/// The expression, which begins there, where it is of the kind that is due.
pub(crate) fn need(checked: Checked<'_>, sort: Option<Sort<'_>>, at: At) -> Result<Expr, CheckError>
    ensures { (ts : List Thing) → Gives (term_of ts) result (Spec.needs (option_map sort_of sort.entry) at (checked_of ts checked.entry)) }
{
    match sort {
        Some(sort) => {
            if are_alike(sort, checked.sort) {
                Ok(checked.expr)
            } else {
                Err(refuse(CheckCause::Kind, at))
            }
        }
        None => Err(refuse(CheckCause::Kind, at)),
    }
}
