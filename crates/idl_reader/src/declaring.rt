//! What names declare.
ghost use Rattle.std.specs.Prelude.{◌≡◌, ◌++◌, ◌∷◌, [], IfOk, OnOk, map};
ghost use Rattle.std.specs.Option.{option_map};
ghost use Rattle.idl_scopes.specs.Views.{table_of};
ghost use Rattle.idl_types.specs.Contents.{things_of};
ghost use Rattle.idl_types.specs.Views as types;
ghost use Rattle.idl_names.specs.Views.{built_of, thing_of};
ghost use Rattle.idl_reader.specs.Accepted.{Each, MayDeclare, Takes};
ghost use Rattle.idl_reader.specs.Declared.{declared, declared_at, declared_from, listed};

use crate::copies::constant_value;
use crate::interfaces::{id_text, ids_of, operations_in};
use cdr_values::{IdlType, Member, copy_members, copy_type};
use idl_constants::ConstValue;
use idl_names::{Names, Thing};
use idl_scopes::Scopes;
use idl_types::{Constant, Declaration, Exception, Interface, NamedType, Repository};
use orb_base::{List, NoMemory};
use std::alloc::Global;

/// What the name at a place declares, if anything.
fn declared_at(
    alloc: Global,
    scopes: &Scopes,
    things: &[Thing],
    at: usize,
    thing: &Thing,
) -> Result<Option<Declaration>, NoMemory>
    ensures { IfOk result (λ d. option_map types.thing_of d ≡ declared_at (table_of scopes.now) (map thing_of things.now) at (thing_of thing.now)) }
{
    match thing {
        Thing::Type(kind) => Ok(Some(Declaration::Named(NamedType {
            id: id_text(scopes, at)?,
            kind: copy_type(alloc, &kind.kind)?,
        }))),
        Thing::Exception(members) => Ok(Some(Declaration::Exception(Exception {
            id: id_text(scopes, at)?,
            members: List::from_vec(copy_members(alloc, members)?),
        }))),
        Thing::Constant(kind, value) => Ok(Some(Declaration::Constant(Constant {
            id: id_text(scopes, at)?,
            kind: copy_type(alloc, kind)?,
            value: constant_value(alloc, value)?,
        }))),
        Thing::Interface(bases, operations) => Ok(Some(Declaration::Interface(Interface {
            id: id_text(scopes, at)?,
            bases: ids_of(alloc, scopes, bases)?,
            operations: operations_in(alloc, things, operations)?,
        }))),
        _ => Ok(None),
    }
}

/// Declares what the name at a place declares, if anything.
fn declare_at(
    alloc: Global,
    repository: &mut Repository,
    scopes: &Scopes,
    things: &[Thing],
    at: usize,
    thing: &Thing,
) -> Result<(), NoMemory>
    requires { Takes (things_of repository.old) (declared_at (table_of scopes.now) (map thing_of things.now) at (thing_of thing.now)) }
    ensures { OnOk result (things_of repository.new
        ≡ things_of repository.old ++ listed (declared_at (table_of scopes.now) (map thing_of things.now) at (thing_of thing.now))) }
{
    match declared_at(alloc, scopes, things, at, thing)? {
        Some(declaration) => repository.declare(declaration),
        None => Ok(()),
    }
}

/// The repository of what things declare that stand by these places in scopes.
fn repository_in(alloc: Global, scopes: &Scopes, things: &[Thing]) -> Result<Repository, NoMemory>
    requires { Each MayDeclare [] (declared_from (table_of scopes.now) (map thing_of things.now) 0 (map thing_of things.now)) }
    ensures { IfOk result (λ r. things_of r ≡ declared_from (table_of scopes.now) (map thing_of things.now) 0 (map thing_of things.now)) }
{
    let mut repository = Repository::new(alloc);
    for (at, thing) in things.iter().enumerate() {
        declare_at(alloc, &mut repository, scopes, things, at, thing)?;
    }
    Ok(repository)
}

/// The repository of what names declare. Work and memory grow with what is declared, inherited operations counted for each
/// interface that has them.
pub(crate) fn repository_of(alloc: Global, names: Names) -> Result<Repository, NoMemory>
    requires { Each MayDeclare [] (declared (built_of names)) }
    ensures { IfOk result (λ r. things_of r ≡ declared (built_of names)) }
{
    let (scopes, things) = names.into_parts();
    repository_in(alloc, &scopes, &things)
}
