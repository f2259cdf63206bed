//! The check of servants, and of whole scripts.
ghost use Rattle.std.specs.Prelude.{◌≡◌, [], List, map, slice_get};
ghost use Rattle.std.specs.Option.{option_map};
ghost use Rattle.idl_types.specs.Contents.{things_of};
ghost use Rattle.idl_types.specs.Things.{Thing};
ghost use Rattle.idl_types.specs.Views.{operation_of};
ghost use Rattle.servant_scripts.specs.Views.{scoped_of, servant_of, script_of};
ghost use Rattle.script_names.specs.Contents.{known_of};
ghost use Rattle.script_names.specs.Finding.{meant};
ghost use Rattle.script_checks.specs.declared.fault.CheckCause.TheVariants as cause;
ghost use Rattle.script_checks.specs.Naming.{known_or};
ghost use Rattle.script_checks.specs.Servants as Spec;
ghost use Rattle.script_checks.specs.Gives.{Gives};
ghost use Rattle.script_checks.specs.Done.{method_view, servant_view, servants_in, served_of};

use crate::checked::{CheckedMethod, CheckedScript, CheckedServant};
use crate::done::Served;
use crate::fault::{CheckCause, CheckError};
use crate::ground::Ground;
use crate::methods::{check_methods, has_method};
use crate::naming::{last_part, refuse};
use idl_types::{Declaration, Operation, Repository};
use script_names::{FindError, Meaning, Names};
use servant_scripts::{ScopedName, Script, Servant};
use std::alloc::Global;

/// The id of the built-in interface, which has its servant already.
const PING_ID: &[u8] = b"IDL:Orb/Ping:1.0";

/// The interface at a place, where there is one.
fn interface_at(repository: &Repository, place: usize) -> Option<Served<'_>>
    ensures { option_map served_of result ≡ Spec.interface_in place (slice_get (things_of repository.now) place) }
{
    match repository.nth(place) {
        Some(Declaration::Interface(interface)) => Some(Served { place, interface }),
        _ => None,
    }
}

/// The interface that a meaning is.
fn interface_meant(repository: &Repository, meaning: Meaning) -> Option<Served<'_>>
    ensures { option_map served_of result ≡ Spec.interface_of (things_of repository.now) meaning }
{
    match meaning {
        Meaning::Thing(place) => interface_at(repository, place),
        _ => None,
    }
}

/// What a servant's name means, looked up in the file's scope.
fn meaning(name: &ScopedName, names: &Names) -> Result<Meaning, CheckError>
    ensures { Gives (λ m. m) result (known_or cause.UnknownInterface (meant (known_of names.now) [] (scoped_of name.now))) }
{
    match names.find(&[], name) {
        Ok(meaning) => Ok(meaning),
        Err(FindError::Unknown(at)) => Err(refuse(CheckCause::UnknownInterface, at)),
        Err(FindError::NoMemory) => Err(CheckError::NoMemory),
    }
}

/// The interface of a name, looked up in the file's scope.
fn interface_named<'r>(
    name: &ScopedName,
    repository: &'r Repository,
    names: &Names,
) -> Result<Served<'r>, CheckError>
    ensures { Gives served_of result (Spec.interface_named (things_of repository.now) (known_of names.now) (scoped_of name.now)) }
{
    let meaning = meaning(name, names)?;
    match interface_meant(repository, meaning) {
        Some(served) => Ok(served),
        None => Err(refuse(CheckCause::UnknownInterface, last_part(name))),
    }
}

/// Whether the interface at a place has a servant.
fn is_served(servants: &[CheckedServant], place: usize) -> bool
    ensures { (ts : List Thing) → result ≡ Spec.is_served (map (servant_view ts) servants.now) place }
{
    for servant in servants {
        if servant.interface == place {
            return true;
        }
    }
    false
}

/// The interface, where it has no servant yet.
fn new_servant<'r>(
    served: Served<'r>,
    done: &[CheckedServant],
    name: &ScopedName,
) -> Result<Served<'r>, CheckError>
    ensures { (ts : List Thing) → Gives served_of result
        (Spec.new_servant (map (servant_view ts) done.now) (scoped_of name.now) (served_of served.entry)) }
{
    if served.interface.id.as_slice() == PING_ID || is_served(done, served.place) {
        return Err(refuse(CheckCause::Twice, last_part(name)));
    }
    Ok(served)
}

/// Whether every operation has a method.
fn are_there(operations: &[Operation], methods: &[CheckedMethod]) -> bool
    ensures { (ts : List Thing) → result ≡ Spec.all_there 0 (map operation_of operations.now) (map (method_view ts) methods.now) }
{
    for (at, _) in operations.iter().enumerate() {
        if !has_method(methods, at) {
            return false;
        }
    }
    true
}

/// The check of a servant after those before it.
fn check_servant<'r>(
    servant: &'r Servant,
    done: &[CheckedServant],
    repository: &'r Repository,
    names: &'r Names,
    alloc: Global,
) -> Result<CheckedServant, CheckError>
    ensures { Gives (servant_view (things_of repository.now)) result
        (Spec.servant (things_of repository.now) (known_of names.now) (map (servant_view (things_of repository.now)) done.now)
        (servant_of servant.now)) }
{
    let served = interface_named(&servant.name, repository, names)?;
    let served = new_servant(served, done, &servant.name)?;
    let ground = Ground {
        repository,
        names,
        interface: served.interface.id.as_slice(),
        alloc,
    };
    let methods = check_methods(
        servant.methods.as_slice(),
        served.interface,
        served.place,
        &ground,
    )?;
    if !are_there(served.interface.operations.as_slice(), methods.as_slice()) {
        return Err(refuse(CheckCause::Missing, servant.at));
    }
    Ok(CheckedServant {
        interface: served.place,
        methods,
    })
}

/// The check of all servants.
fn check_servants<'r>(
    servants: &'r [Servant],
    repository: &'r Repository,
    names: &'r Names,
    alloc: Global,
) -> Result<Vec<CheckedServant>, CheckError>
    ensures { Gives (λ v. map (servant_view (things_of repository.now)) v.items) result
        (Spec.servants (things_of repository.now) (known_of names.now) [] (map servant_of servants.now)) }
{
    let mut done = Vec::new(alloc);
    for servant in servants {
        let checked = check_servant(servant, done.as_slice(), repository, names, alloc)?;
        done.push(checked)?;
    }
    Ok(done)
}

/// Checks a script over a repository, which the built-in module is put into beforehand: what is run in its place, or its
/// first fault in the order of the text. That an operation has no method is given after all other faults of its servant.
///
/// A place in what is checked is one of this repository. Indexes all names of the repository first; then each name of the
/// script costs a look-up, and each single one a comparison for each variable that is alive. A member costs a comparison
/// for each that its struct has and a step for each that was given before it, a method one for each operation.
pub fn check(
    alloc: Global,
    repository: &Repository,
    script: &Script,
) -> Result<CheckedScript, CheckError>
    ensures checked { Gives (servants_in (things_of repository.now)) result
        (Spec.checked (things_of repository.now) (script_of script.now)) }
{
    let names = Names::new(alloc, repository)?;
    let servants = check_servants(script.servants.as_slice(), repository, &names, alloc)?;
    Ok(CheckedScript { servants })
}
