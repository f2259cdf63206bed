//! The built-in module: `module Orb { interface Ping { short current(); string echo(in string text); oneway void note(); }; };`
ghost use Rattle.std.specs.Prelude.{◌≡◌, ◌∷◌, [], map, IfOk};
ghost use Rattle.idl_types.specs.BuiltIn as built_in;
ghost use Rattle.idl_types.specs.Views.{thing_of, operation_of, param_of};

use crate::declaration::Declaration;
use crate::interface::Interface;
use crate::operation::Operation;
use crate::param::Param;
use crate::way::Way;
use cdr_values::IdlType;
use orb_base::{List, NoMemory, Text};
use std::alloc::Global;

/// The id of the built-in interface.
pub(crate) const PING_ID: &[u8] = b"IDL:Orb/Ping:1.0";

/// The built-in interface.
pub(crate) fn ping(alloc: Global) -> Result<Declaration, NoMemory>
    ensures { IfOk result (λ d. thing_of d ≡ built_in.ping) }
{
    Ok(Declaration::Interface(Interface {
        id: named(alloc, PING_ID)?,
        bases: List::new(alloc),
        operations: operations(alloc)?,
    }))
}

fn operations(alloc: Global) -> Result<List<Operation>, NoMemory>
    ensures { IfOk result (λ l. map operation_of l.items ≡ built_in.operations) }
{
    let mut operations = Vec::new(alloc);
    operations.push(current(alloc)?)?;
    operations.push(echo(alloc)?)?;
    operations.push(note(alloc)?)?;
    Ok(List::from_vec(operations))
}

fn current(alloc: Global) -> Result<Operation, NoMemory>
    ensures { IfOk result (λ o. operation_of o ≡ built_in.current) }
{
    Ok(Operation {
        name: named(alloc, b"current")?,
        oneway: false,
        result: Some(IdlType::Short),
        params: List::new(alloc),
        raises: List::new(alloc),
    })
}

fn echo(alloc: Global) -> Result<Operation, NoMemory>
    ensures { IfOk result (λ o. operation_of o ≡ built_in.echo) }
{
    Ok(Operation {
        name: named(alloc, b"echo")?,
        oneway: false,
        result: Some(IdlType::Words(0)),
        params: text_params(alloc)?,
        raises: List::new(alloc),
    })
}

fn text_params(alloc: Global) -> Result<List<Param>, NoMemory>
    ensures { IfOk result (λ l. map param_of l.items ≡ built_in.text_param ∷ []) }
{
    let mut params = Vec::new(alloc);
    params.push(text_param(alloc)?)?;
    Ok(List::from_vec(params))
}

fn text_param(alloc: Global) -> Result<Param, NoMemory>
    ensures { IfOk result (λ p. param_of p ≡ built_in.text_param) }
{
    Ok(Param {
        way: Way::Input,
        name: named(alloc, b"text")?,
        kind: IdlType::Words(0),
    })
}

fn note(alloc: Global) -> Result<Operation, NoMemory>
    ensures { IfOk result (λ o. operation_of o ≡ built_in.note) }
{
    Ok(Operation {
        name: named(alloc, b"note")?,
        oneway: true,
        result: None,
        params: List::new(alloc),
        raises: List::new(alloc),
    })
}

/// A text without a NUL.
pub(crate) fn named(alloc: Global, bytes: &[u8]) -> Result<Text, NoMemory>
    ensures { IfOk result (λ t. t ≡ bytes.now) }
{
    match Text::new(alloc, bytes) {
        Ok(text) => Ok(text),
        Err(_) => Err(NoMemory),
    }
}
