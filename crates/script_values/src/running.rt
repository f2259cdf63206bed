//! Blocks.
ghost use Rattle.std.specs.Prelude.{◌≡◌, Ok};
ghost use Rattle.idl_types.specs.Contents.{things_of};
ghost use Rattle.idl_types.specs.References.{kind_at};
ghost use Rattle.cdr_values.specs.Values.{values_view};
ghost use Rattle.script_values.specs.Trees.{let_be, set, give, raise, steps_of, terms_of};
ghost use Rattle.script_values.specs.Operations.{member_at};
ghost use Rattle.script_values.specs.Evaluation.{value_at, fit_in};
ghost use Rattle.script_values.specs.Running.{run, run_one};
ghost use Rattle.script_values.specs.Gives.{Tells};
ghost use Rattle.script_values.specs.Ends.{Runs, Lends};
ghost use Rattle.script_values.specs.Views.{term_of, parts_view, step_of, steps_view};

use crate::evaluation::{eval, eval_fit, fill, is_due, variable_of};
use crate::leaves::fit_size;
use crate::operations::truth_of;
use crate::slots::{put, slot};
use crate::{Element, Expr, Limit, Stmt, Stop};
use cdr_values::IdlValue;
use idl_types::{Repository, TypeRef};
use orb_base::Priority;
use std::alloc::Global;

/// How a block ends.
#[derive(Drop)]
pub enum Flow {
    /// At its end.
    Next,
    /// With a value.
    Returned(IdlValue),
    /// With the value of the variable in this slot, which isn't copied.
    Lent(usize),
    /// Without one.
    Left,
    /// With the exception at an index of the operation's, and its members.
    Raised(u32, IdlValue),
}

#[tactic(auto, unfolding(crate::specs::Running::run_one))]
fn run_let(
    at: usize,
    expr: &Expr,
    repository: &Repository,
    alloc: Global,
    priority: Priority,
    slots: &mut Vec<IdlValue>,
) -> Result<Flow, Stop>
    ensures { Runs result (values_view slots.new.items) (run_one priority (let_be at (term_of (things_of repository.now) expr.now)) (values_view slots.old.items)) }
{
    let value = eval(expr, repository, alloc, priority, slots.as_slice())?.own(alloc)?;
    put(slots, at, value);
    Ok(Flow::Next)
}

#[tactic(auto, unfolding(crate::specs::Running::run_one))]
fn run_set(
    at: usize,
    due: TypeRef,
    expr: &Expr,
    repository: &Repository,
    alloc: Global,
    priority: Priority,
    slots: &mut Vec<IdlValue>,
) -> Result<Flow, Stop>
    ensures { Runs result (values_view slots.new.items) (run_one priority (set at (kind_at (things_of repository.now) due) (term_of (things_of repository.now) expr.now)) (values_view slots.old.items)) }
{
    let value = eval_fit(expr, due, repository, alloc, priority, slots.as_slice())?;
    put(slots, at, value);
    Ok(Flow::Next)
}

/// Returns the variable in a slot, where its value fits the type.
fn run_lend(
    at: usize,
    due: TypeRef,
    repository: &Repository,
    slots: &[IdlValue],
) -> Result<Flow, Stop>
    ensures { Lends result (values_view slots.now) (fit_in (kind_at (things_of repository.now) due) (Ok (member_at (values_view slots.now) at))) }
{
    if is_due(slot(slots, at).get(), due, repository) {
        Ok(Flow::Lent(at))
    } else {
        Err(Stop::Limit(Limit::Misfit))
    }
}

#[tactic(auto, unfolding(crate::specs::Running::run_one))]
fn run_return(
    due: TypeRef,
    expr: &Expr,
    repository: &Repository,
    alloc: Global,
    priority: Priority,
    slots: &mut Vec<IdlValue>,
) -> Result<Flow, Stop>
    ensures { Runs result (values_view slots.new.items) (run_one priority (give (kind_at (things_of repository.now) due) (term_of (things_of repository.now) expr.now)) (values_view slots.old.items)) }
{
    match variable_of(expr) {
        Some(at) => run_lend(at, due, repository, slots.as_slice()),
        None => Ok(Flow::Returned(eval_fit(
            expr,
            due,
            repository,
            alloc,
            priority,
            slots.as_slice(),
        )?)),
    }
}

#[tactic(auto, unfolding(crate::specs::Running::run_one))]
fn run_raise(
    at: u32,
    elements: &[Element],
    repository: &Repository,
    alloc: Global,
    priority: Priority,
    slots: &mut Vec<IdlValue>,
) -> Result<Flow, Stop>
    ensures { Runs result (values_view slots.new.items) (run_one priority (raise at (terms_of (parts_view (things_of repository.now) elements.now))) (values_view slots.old.items)) }
{
    let values = fill(elements, repository, alloc, priority, slots.as_slice())?;
    Ok(Flow::Raised(at, fit_size(IdlValue::Items(values))?))
}

fn is_true(
    expr: &Expr,
    repository: &Repository,
    alloc: Global,
    priority: Priority,
    slots: &[IdlValue],
) -> Result<bool, Stop>
    ensures { Tells result (value_at priority (values_view slots.now) (term_of (things_of repository.now) expr.now)) }
{
    let value = eval(expr, repository, alloc, priority, slots)?;
    Ok(truth_of(value.get()))
}

#[cycle(run)]
#[tactic(auto, unfolding(crate::specs::Running::run_one))]
fn run_stmt(
    stmt: &Stmt,
    repository: &Repository,
    alloc: Global,
    priority: Priority,
    slots: &mut Vec<IdlValue>,
) -> Result<Flow, Stop>
    ensures { Runs result (values_view slots.new.items) (run_one priority (step_of (things_of repository.now) stmt.now) (values_view slots.old.items)) }
{
    match stmt {
        Stmt::Let(at, expr) => run_let(*at, expr, repository, alloc, priority, slots),
        Stmt::Set(at, due, expr) => run_set(*at, *due, expr, repository, alloc, priority, slots),
        Stmt::If(expr, taken, other) => {
            if is_true(expr, repository, alloc, priority, slots.as_slice())? {
                run(taken, repository, alloc, priority, slots)
            } else {
                run(other, repository, alloc, priority, slots)
            }
        }
        Stmt::Leave => Ok(Flow::Left),
        Stmt::Return(due, expr) => run_return(*due, expr, repository, alloc, priority, slots),
        Stmt::Raise(at, elements) => run_raise(*at, elements, repository, alloc, priority, slots),
    }
}

/// Runs a block on the variables up to its first `return`, `raise` or limit. At a limit or out of memory nothing is said of
/// what `slots` hold. A `let` or `set` of a value that is in another variable copies it, and a
/// `return` of a variable copies nothing.
#[cycle(run)]
#[tactic(auto, unfolding(crate::specs::Running::run))]
pub fn run(
    block: &[Stmt],
    repository: &Repository,
    alloc: Global,
    priority: Priority,
    slots: &mut Vec<IdlValue>,
) -> Result<Flow, Stop>
    ensures { Runs result (values_view slots.new.items) (run priority (steps_of (steps_view (things_of repository.now) block.now)) (values_view slots.old.items)) }
{
    for stmt in block {
        match run_stmt(stmt, repository, alloc, priority, slots)? {
            Flow::Next => {}
            end => return Ok(end),
        }
    }
    Ok(Flow::Next)
}
