//! What names in expressions stand for.
ghost use Rattle.std.specs.Prelude.{◌≡◌, slice_get, IfOk};
ghost use Rattle.script_names.specs.declared.meaning.Meaning.TheVariants as means;
ghost use Rattle.std.specs.Option.{option_map};
ghost use Rattle.cdr_values.specs.Trees.{Kind};
ghost use Rattle.idl_types.specs.Things.{Thing};
ghost use Rattle.idl_types.specs.Contents.{things_of};
ghost use Rattle.servant_scripts.specs.Views.{scoped_of};
ghost use Rattle.script_checks.specs.declared.fault.CheckError.TheVariants as error;
ghost use Rattle.script_checks.specs.Scene.{find_var};
ghost use Rattle.script_checks.specs.Naming as Spec;
ghost use Rattle.script_checks.specs.Gives.{Gives};
ghost use Rattle.script_checks.specs.Views.{ground_of, things_in, vars_view, checked_of, named_of, place_of, thrown_of};

use crate::dues::short;
use crate::fault::{CheckCause, CheckError, CheckFault};
use crate::ground::Ground;
use crate::kinds::struct_type;
use crate::scene::{Checked, Named, Place, Sort, Thrown, Variable};
use crate::typing::single;
use cdr_values::{IdlValue, copy_value};
use idl_types::{Declaration, Repository};
use orb_base::NoMemory;
use script_names::{FindError, Meaning};
use script_values::Form;
use servant_scripts::{At, Part, ScopedName};
use std::alloc::Global;

/// A cause at a place.
pub(crate) fn refuse(cause: CheckCause, at: At) -> CheckError
    ensures { result ≡ error.Refused (record { cause = cause; line = at.line; column = at.column }) }
{
    CheckError::Refused(CheckFault {
        cause,
        line: at.line,
        column: at.column,
    })
}

/// Where the last part of a name is.
pub(crate) fn last_part(name: &ScopedName) -> At
    ensures { result ≡ Spec.last_part (scoped_of name.now) }
{
    let mut at = name.at;
    for part in name.parts.as_slice() {
        at = part.at;
    }
    at
}

/// The slot of a variable, its kind, and the type that is due.
pub(crate) fn place<'r>(variables: &[Variable<'r>], name: &[u8]) -> Option<Place<'r>>
    ensures { option_map place_of result ≡ find_var 0 (vars_view variables.now) name.now }
{
    for (slot, variable) in variables.iter().enumerate() {
        if variable.name == name {
            return Some(Place {
                slot,
                sort: variable.sort,
                due: variable.due,
            });
        }
    }
    None
}

/// What a name means where it is.
pub(crate) fn meaning(name: &ScopedName, ground: &Ground<'_>) -> Result<Meaning, CheckError>
    ensures { Gives (λ m. m) result (Spec.meaning_at (ground_of ground.now) (scoped_of name.now)) }
{
    match ground.names.find(ground.interface, name) {
        Ok(meaning) => Ok(meaning),
        Err(FindError::Unknown(at)) => Err(refuse(CheckCause::UnknownName, at)),
        Err(FindError::NoMemory) => Err(CheckError::NoMemory),
    }
}

/// The type of a struct, where the thing at a place is one.
fn struct_at(repository: &Repository, place: usize) -> Option<Named<'_>>
    ensures { option_map named_of result ≡ Spec.struct_in place (slice_get (things_of repository.now) place) }
{
    match repository.nth(place) {
        Some(Declaration::Named(named)) => match struct_type(&named.kind) {
            Some(kind) => Some(Named { place, kind }),
            None => None,
        },
        _ => None,
    }
}

/// The struct that a meaning is.
fn struct_of(repository: &Repository, meaning: Meaning) -> Option<Named<'_>>
    ensures { option_map named_of result ≡ Spec.struct_of (things_of repository.now) meaning }
{
    match meaning {
        Meaning::Thing(place) => struct_at(repository, place),
        _ => None,
    }
}

/// The struct of a name, with its place.
pub(crate) fn struct_named<'r>(
    name: &ScopedName,
    ground: &Ground<'r>,
) -> Result<Named<'r>, CheckError>
    ensures { Gives named_of result (Spec.struct_named (ground_of ground.now) (scoped_of name.now)) }
{
    let meaning = meaning(name, ground)?;
    match struct_of(ground.repository, meaning) {
        Some(named) => Ok(named),
        None => Err(refuse(CheckCause::Kind, last_part(name))),
    }
}

/// The exception at a place, where there is one.
fn exception_at(repository: &Repository, place: usize) -> Option<Thrown<'_>>
    ensures { option_map thrown_of result ≡ Spec.exception_in place (slice_get (things_of repository.now) place) }
{
    match repository.nth(place) {
        Some(Declaration::Exception(exception)) => Some(Thrown { place, exception }),
        _ => None,
    }
}

/// The exception that a meaning is.
fn exception_of(repository: &Repository, meaning: Meaning) -> Option<Thrown<'_>>
    ensures { option_map thrown_of result ≡ Spec.exception_of (things_of repository.now) meaning }
{
    match meaning {
        Meaning::Thing(place) => exception_at(repository, place),
        _ => None,
    }
}

/// The exception of a name, with its place.
pub(crate) fn exception_named<'r>(
    name: &ScopedName,
    ground: &Ground<'r>,
) -> Result<Thrown<'r>, CheckError>
    ensures { Gives thrown_of result (Spec.exception_named (ground_of ground.now) (scoped_of name.now)) }
{
    let meaning = meaning(name, ground)?;
    match exception_of(ground.repository, meaning) {
        Some(thrown) => Ok(thrown),
        None => Err(refuse(CheckCause::Kind, last_part(name))),
    }
}

/// The constant at a place, where there is one.
fn constant_at(
    repository: &Repository,
    place: usize,
    alloc: Global,
) -> Result<Option<Checked<'_>>, NoMemory>
    ensures { IfOk result (λ c. option_map (checked_of (things_of repository.now)) c
        ≡ Spec.constant_in (slice_get (things_of repository.now) place)) }
{
    match repository.nth(place) {
        Some(Declaration::Constant(constant)) => {
            let value = copy_value(alloc, &constant.value)?;
            Ok(Some(Checked {
                expr: single(Form::Literal(value), alloc),
                sort: Sort::Type(&constant.kind),
            }))
        }
        _ => Ok(None),
    }
}

/// The enumerator with a number, where a type is at a place.
fn enumerator_at(
    repository: &Repository,
    place: usize,
    number: usize,
    alloc: Global,
) -> Option<Checked<'_>>
    ensures { option_map (checked_of (things_of repository.now)) result
        ≡ Spec.value_of (things_of repository.now) (means.Enumerator place number) }
{
    match repository.nth(place) {
        Some(Declaration::Named(named)) => Some(Checked {
            expr: single(Form::Literal(IdlValue::Label(short(number))), alloc),
            sort: Sort::Type(&named.kind),
        }),
        _ => None,
    }
}

/// The value of a meaning.
fn value_of(
    repository: &Repository,
    meaning: Meaning,
    alloc: Global,
) -> Result<Option<Checked<'_>>, NoMemory>
    ensures { IfOk result (λ c. option_map (checked_of (things_of repository.now)) c ≡ Spec.value_of (things_of repository.now) meaning) }
{
    match meaning {
        Meaning::Thing(place) => constant_at(repository, place, alloc),
        Meaning::Enumerator(place, number) => Ok(enumerator_at(repository, place, number, alloc)),
        Meaning::Other => Ok(None),
    }
}

/// The value of a name.
fn value_named<'r>(name: &ScopedName, ground: &Ground<'r>) -> Result<Checked<'r>, CheckError>
    ensures { Gives (checked_of (things_in ground.now)) result
        (Spec.value_named (ground_of ground.now) (scoped_of name.now)) }
{
    let meaning = meaning(name, ground)?;
    match value_of(ground.repository, meaning, ground.alloc)? {
        Some(checked) => Ok(checked),
        None => Err(refuse(CheckCause::Kind, last_part(name))),
    }
}

/// The place of the variable of a name.
fn variable<'r>(variables: &[Variable<'r>], rooted: bool, parts: &[Part]) -> Option<Place<'r>>
    ensures { option_map place_of result ≡ Spec.variable_of (vars_view variables.now) rooted parts.now }
{
    if rooted {
        return None;
    }
    match parts {
        [part] => place(variables, part.name.as_slice()),
        _ => None,
    }
}

/// What a name stands for: a variable, else a value. Costs a comparison for each variable that is alive, and a look-up.
pub(crate) fn named<'r>(
    name: &ScopedName,
    ground: &Ground<'r>,
    variables: &[Variable<'r>],
) -> Result<Checked<'r>, CheckError>
    ensures { Gives (checked_of (things_in ground.now)) result
        (Spec.name_typed (ground_of ground.now) (vars_view variables.now) (scoped_of name.now)) }
{
    match variable(variables, name.rooted, name.parts.as_slice()) {
        Some(place) => Ok(Checked {
            expr: single(Form::Slot(place.slot), ground.alloc),
            sort: place.sort,
        }),
        None => value_named(name, ground),
    }
}
