//! The servant of the built-in interface.
ghost use Rattle.std.specs.Prelude.{◌≡◌, ◌++◌, List, IfOk, map};
ghost use Rattle.idl_types.specs.Contents.{things_of};
ghost use Rattle.idl_types.specs.Finding.{place_named};
ghost use Rattle.idl_types.specs.Sound.{ping_id};
ghost use Rattle.idl_types.specs.Things.{Thing};
ghost use Rattle.idl_types.specs.References.{kind_at};
ghost use Rattle.script_values.specs.Trees.{priority, slot, no_steps, step, give, steps_of};
ghost use Rattle.script_values.specs.Views.{first_of, term_of, steps_view};
ghost use Rattle.script_checks.specs.Done.{method_view, servant_view};
ghost use Rattle.script_checks.specs.Dues as due;
ghost use Rattle.dynamic_servants.specs.BuiltInServant as Spec;

use idl_types::{Part, Repository, TypeRef};
use orb_base::NoMemory;
use script_checks::{CheckedMethod, CheckedServant};
use script_values::{Expr, Form, Stmt};
use std::alloc::Global;

/// The id of the built-in interface.
const PING_ID: &[u8] = b"IDL:Orb/Ping:1.0";

/// The greatest count of a reference.
const GREATEST: usize = 4_294_967_295;

/// A count as references have it.
fn short(n: usize) -> u32
    ensures { result ≡ due.short n }
{
    n.min(GREATEST) as u32
}

/// The type of the result of an operation of the interface at a place.
fn result_due(place: usize, operation: usize) -> TypeRef
    ensures { result ≡ due.result_due place operation }
{
    TypeRef {
        place: short(place),
        part: Part::Outcome(short(operation)),
        steps: 0,
    }
}

fn bare(form: Form, alloc: Global) -> Expr
    ensures { (ts : List Thing) → term_of ts result ≡ first_of ts form }
{
    Expr {
        form,
        links: Vec::new(alloc),
    }
}

fn returning(due: TypeRef, value: Expr, alloc: Global) -> Result<Vec<Stmt>, NoMemory>
    ensures { (ts : List Thing) → IfOk result (λ body. steps_of (steps_view ts body.items) ≡ step (give (kind_at ts due) (term_of ts value)) no_steps) }
{
    let mut body = Vec::new(alloc);
    body.push(Stmt::Return(due, value))?;
    Ok(body)
}

/// The method of an operation that returns a value.
fn returns_at_once(
    place: usize,
    operation: usize,
    form: Form,
    alloc: Global,
) -> Result<CheckedMethod, NoMemory>
    ensures { (ts : List Thing) → IfOk result (λ m. method_view ts m ≡ Spec.returns_at_once ts place operation (first_of ts form)) }
{
    let body = returning(result_due(place, operation), bare(form, alloc), alloc)?;
    Ok(CheckedMethod {
        operation,
        lets: 0,
        body,
    })
}

fn current(place: usize, alloc: Global) -> Result<CheckedMethod, NoMemory>
    ensures { (ts : List Thing) → IfOk result (λ m. method_view ts m ≡ Spec.returns_at_once ts place 0 priority) }
{
    returns_at_once(place, 0, Form::Priority, alloc)
}

fn echo(place: usize, alloc: Global) -> Result<CheckedMethod, NoMemory>
    ensures { (ts : List Thing) → IfOk result (λ m. method_view ts m ≡ Spec.returns_at_once ts place 1 (slot 0)) }
{
    returns_at_once(place, 1, Form::Slot(0), alloc)
}

/// The method of an operation that does nothing.
fn does_nothing(operation: usize, alloc: Global) -> CheckedMethod
    ensures { (ts : List Thing) → method_view ts result ≡ Spec.does_nothing operation }
{
    CheckedMethod {
        operation,
        lets: 0,
        body: Vec::new(alloc),
    }
}

/// The servant, whose interface is at a place.
fn ping_servant(place: usize, alloc: Global) -> Result<CheckedServant, NoMemory>
    ensures { (ts : List Thing) → IfOk result (λ v. servant_view ts v ≡ Spec.ping_servant ts place) }
{
    let mut methods = Vec::new(alloc);
    methods.push(current(place, alloc)?)?;
    methods.push(echo(place, alloc)?)?;
    methods.push(does_nothing(2, alloc))?;
    Ok(CheckedServant {
        interface: place,
        methods,
    })
}

/// The servant of the built-in interface, and after it the others.
pub(crate) fn with_built_in(
    mut servants: Vec<CheckedServant>,
    repository: &Repository,
    alloc: Global,
) -> Result<Vec<CheckedServant>, NoMemory>
    ensures { IfOk result (λ v. map (servant_view (things_of repository.now)) v.items
        ≡ Spec.built_in (things_of repository.now) (place_named (things_of repository.now) ping_id)
        ++ map (servant_view (things_of repository.now)) servants.items) }
{
    if let Some(place) = repository.place_of(PING_ID) {
        servants.insert(0, ping_servant(place, alloc)?)?;
    }
    Ok(servants)
}
