//! Values of expressions.
ghost use Rattle.std.specs.Prelude.{◌≡◌, List, IfOk, IfSome};
ghost use Rattle.cdr_values.specs.Values.{value_of, values_view};
ghost use Rattle.idl_types.specs.Things.{Thing};
ghost use Rattle.idl_types.specs.Contents.{things_of};
ghost use Rattle.idl_types.specs.References.{kind_at};
ghost use Rattle.script_values.specs.Trees.{slot as variable, literal, unary, binary, build, terms_of, spine, joint};
ghost use Rattle.script_values.specs.Evaluation.{value_at, filled, fit_in, fits_in, blanks_of, truth_from};
ghost use Rattle.script_values.specs.Gives.{Gives};
ghost use Rattle.script_values.specs.Views.{seen_of, term_of, first_of, joint_of, joints_view, parts_view};

use crate::leaves::fit_size;
use crate::operations::{apply, join, member, truth_of};
use crate::slots::{blanks, put, slot};
use crate::{Element, Expr, Form, Limit, Link, Seen, Stop};
use cdr_values::{IdlValue, fits};
use idl_types::{Repository, TypeRef};
use orb_base::{NoMemory, Priority};
use script_grammar::{Binary, Unary};
use std::alloc::Global;

#[cycle(eval)]
#[tactic(auto, unfolding(crate::specs::Evaluation::value_at))]
fn eval_unary<'a>(
    expr: &'a Expr,
    op: Unary,
    repository: &Repository,
    alloc: Global,
    priority: Priority,
    slots: &'a [IdlValue],
) -> Result<Seen<'a>, Stop>
    ensures { Gives seen_of result (value_at priority (values_view slots.now) (unary op (term_of (things_of repository.now) expr.now))) }
{
    let value = eval(expr, repository, alloc, priority, slots)?;
    apply(op, value)
}

#[cycle(eval)]
#[tactic(auto, unfolding(crate::specs::Evaluation::value_at))]
fn eval_build<'a>(
    elements: &'a [Element],
    repository: &Repository,
    alloc: Global,
    priority: Priority,
    slots: &'a [IdlValue],
) -> Result<Seen<'a>, Stop>
    ensures { Gives seen_of result (value_at priority (values_view slots.now) (build (terms_of (parts_view (things_of repository.now) elements.now)))) }
{
    let values = fill(elements, repository, alloc, priority, slots)?;
    Ok(Seen::Made(fit_size(IdlValue::Items(values))?))
}

#[cycle(eval)]
#[tactic(auto, unfolding(crate::specs::Evaluation::value_at))]
fn eval_form<'a>(
    form: &'a Form,
    repository: &Repository,
    alloc: Global,
    priority: Priority,
    slots: &'a [IdlValue],
) -> Result<Seen<'a>, Stop>
    ensures { Gives seen_of result (value_at priority (values_view slots.now) (first_of (things_of repository.now) form.now)) }
{
    match form {
        Form::Literal(value) => Ok(Seen::Here(value)),
        Form::Priority => Ok(Seen::Made(IdlValue::Number(i128::from(priority.get())))),
        Form::Slot(at) => Ok(slot(slots, *at)),
        Form::Unary(op, expr) => eval_unary(expr, *op, repository, alloc, priority, slots),
        Form::Build(elements) => eval_build(elements, repository, alloc, priority, slots),
    }
}

/// A truth that is decided by the second operand.
#[cycle(eval)]
fn eval_truth<'a>(
    expr: &'a Expr,
    repository: &Repository,
    alloc: Global,
    priority: Priority,
    slots: &'a [IdlValue],
) -> Result<Seen<'a>, Stop>
    ensures { Gives seen_of result (truth_from (value_at priority (values_view slots.now) (term_of (things_of repository.now) expr.now))) }
{
    let value = eval(expr, repository, alloc, priority, slots)?;
    Ok(Seen::Made(IdlValue::Boolean(truth_of(value.get()))))
}

#[cycle(eval)]
#[tactic(auto, unfolding(crate::specs::Evaluation::value_at))]
fn eval_binary<'a>(
    expr: &'a Expr,
    op: Binary,
    left: Seen<'a>,
    repository: &Repository,
    alloc: Global,
    priority: Priority,
    slots: &'a [IdlValue],
) -> Result<Seen<'a>, Stop>
    ensures { Gives seen_of result (value_at priority (values_view slots.now) (binary op (literal (seen_of left.entry)) (term_of (things_of repository.now) expr.now))) }
{
    match op {
        Binary::And => {
            if truth_of(left.get()) {
                eval_truth(expr, repository, alloc, priority, slots)
            } else {
                Ok(Seen::Made(IdlValue::Boolean(false)))
            }
        }
        Binary::Or => {
            if truth_of(left.get()) {
                Ok(Seen::Made(IdlValue::Boolean(true)))
            } else {
                eval_truth(expr, repository, alloc, priority, slots)
            }
        }
        _ => {
            let right = eval(expr, repository, alloc, priority, slots)?;
            join(op, left, right)
        }
    }
}

#[cycle(eval)]
#[tactic(auto, unfolding(crate::specs::Evaluation::value_at))]
fn eval_link<'a>(
    link: &'a Link,
    left: Seen<'a>,
    repository: &Repository,
    alloc: Global,
    priority: Priority,
    slots: &'a [IdlValue],
) -> Result<Seen<'a>, Stop>
    ensures { Gives seen_of result (value_at priority (values_view slots.now) (joint (literal (seen_of left.entry)) (joint_of (things_of repository.now) link.now))) }
{
    match link {
        Link::Member(at) => Ok(member(left, *at)),
        Link::Binary(op, expr) => eval_binary(expr, *op, left, repository, alloc, priority, slots),
    }
}

#[cycle(eval)]
fn eval_links<'a>(
    links: &'a [Link],
    first: Seen<'a>,
    repository: &Repository,
    alloc: Global,
    priority: Priority,
    slots: &'a [IdlValue],
) -> Result<Seen<'a>, Stop>
    ensures { Gives seen_of result (value_at priority (values_view slots.now) (spine (literal (seen_of first.entry)) (joints_view (things_of repository.now) links.now))) }
{
    let mut value = first;
    for link in links {
        value = eval_link(link, value, repository, alloc, priority, slots)?;
    }
    Ok(value)
}

/// The value of an expression, lent where it is: `slots` are the variables. What is built takes memory, and each of its
/// members and elements that is lent is copied; nothing else is. At each `new` and list the leaves of what is built are
/// counted.
#[cycle(eval)]
pub fn eval<'a>(
    expr: &'a Expr,
    repository: &Repository,
    alloc: Global,
    priority: Priority,
    slots: &'a [IdlValue],
) -> Result<Seen<'a>, Stop>
    ensures { Gives seen_of result (value_at priority (values_view slots.now) (term_of (things_of repository.now) expr.now)) }
{
    let first = eval_form(&expr.form, repository, alloc, priority, slots)?;
    eval_links(
        expr.links.as_slice(),
        first,
        repository,
        alloc,
        priority,
        slots,
    )
}

pub fn is_due(value: &IdlValue, due: TypeRef, repository: &Repository) -> bool
    ensures { result ≡ fits_in (kind_at (things_of repository.now) due) (value_of value.now) }
{
    match repository.type_at(due) {
        Some(kind) => fits(kind, value),
        None => false,
    }
}

/// The slot of an expression that is a variable.
#[tactic(auto, using(crate::proofs::Lending::no_links))]
pub fn variable_of(expr: &Expr) -> Option<usize>
    ensures { IfSome result (λ at. (ts : List Thing) → term_of ts expr.now ≡ variable at) }
{
    match &expr.form {
        Form::Slot(at) if expr.links.is_empty() => Some(*at),
        _ => None,
    }
}

/// The value of an expression for itself, where it fits the type.
#[cycle(eval)]
pub fn eval_fit(
    expr: &Expr,
    due: TypeRef,
    repository: &Repository,
    alloc: Global,
    priority: Priority,
    slots: &[IdlValue],
) -> Result<IdlValue, Stop>
    ensures { Gives value_of result (fit_in (kind_at (things_of repository.now) due) (value_at priority (values_view slots.now) (term_of (things_of repository.now) expr.now))) }
{
    let value = eval(expr, repository, alloc, priority, slots)?;
    if !is_due(value.get(), due, repository) {
        return Err(Stop::Limit(Limit::Misfit));
    }
    Ok(value.own(alloc)?)
}

/// As many slots as there are elements, in which nothing was put.
#[tactic(auto, using(crate::proofs::Parts::terms_count))]
fn places(elements: &[Element], alloc: Global) -> Result<Vec<IdlValue>, NoMemory>
    ensures { (ts : List Thing) → IfOk result (λ v. values_view v.items ≡ blanks_of (terms_of (parts_view ts elements.now))) }
{
    blanks(elements.len(), alloc)
}

/// The values of elements, each in its place: one after the other, up to the first that has none or doesn't fit.
#[cycle(eval)]
#[tactic(auto, using(crate::proofs::Parts::part_is), unfolding(crate::specs::Evaluation::filled))]
pub fn fill(
    elements: &[Element],
    repository: &Repository,
    alloc: Global,
    priority: Priority,
    slots: &[IdlValue],
) -> Result<Vec<IdlValue>, Stop>
    ensures { Gives (λ v. values_view v.items) result (filled priority (values_view slots.now) (terms_of (parts_view (things_of repository.now) elements.now)) (blanks_of (terms_of (parts_view (things_of repository.now) elements.now)))) }
{
    let mut values = places(elements, alloc)?;
    for element in elements {
        let value = eval_fit(
            &element.value,
            element.due,
            repository,
            alloc,
            priority,
            slots,
        )?;
        put(&mut values, element.place, value);
    }
    Ok(values)
}
