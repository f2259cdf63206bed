//! System exceptions as bodies of replies: CORBA 3.0.3, sections 4.12 and 15.4.3.2.
ghost use Rattle.std.specs.Prelude.{◌≡◌, ◌≤◌, length, IfOk};
ghost use Rattle.cdr_core.specs.Spelling.{fields_bytes};
ghost use Rattle.giop_messages.specs.Exceptions.{exception_id, completion, parts_fields, exception_body};

use cdr_core::Writer;
use orb_base::{Completed, NoMemory, Octets, Order, Sys, SysName, Text};
use std::alloc::Global;

/// The repository id of an exception.
fn repository_id(name: SysName) -> &'static [u8]
    ensures value { result.now ≡ exception_id name }
    ensures short { length result.now ≤ 64 }
{
    match name {
        SysName::Marshal => b"IDL:omg.org/CORBA/MARSHAL:1.0".as_slice(),
        SysName::BadOperation => b"IDL:omg.org/CORBA/BAD_OPERATION:1.0".as_slice(),
        SysName::ObjectNotExist => b"IDL:omg.org/CORBA/OBJECT_NOT_EXIST:1.0".as_slice(),
        SysName::InvPolicy => b"IDL:omg.org/CORBA/INV_POLICY:1.0".as_slice(),
        SysName::Transient => b"IDL:omg.org/CORBA/TRANSIENT:1.0".as_slice(),
        SysName::DataConversion => b"IDL:omg.org/CORBA/DATA_CONVERSION:1.0".as_slice(),
        SysName::ImpLimit => b"IDL:omg.org/CORBA/IMP_LIMIT:1.0".as_slice(),
        SysName::NoMemory => b"IDL:omg.org/CORBA/NO_MEMORY:1.0".as_slice(),
    }
}

/// The number of a completion status (CORBA 3.0.3, section 4.12.1). Takes no memory.
pub fn completion_status(completed: Completed) -> u32
    ensures { result ≡ completion completed }
{
    match completed {
        Completed::Yes => 0,
        Completed::No => 1,
        Completed::Maybe => 2,
    }
}

/// Spells a repository id, a minor code and a completion status from place 24 on.
fn spell(alloc: Global, order: Order, id: &Text, minor: u32, code: u32) -> Result<Octets, NoMemory>
    requires { length id.now ≤ 64 }
    ensures { IfOk result (λ o. o.items ≡ fields_bytes order 24 (parts_fields id.now minor code)) }
{
    let mut body = Writer::new(alloc, order, 24);
    body.put_string(id)?;
    body.put_u32(minor)?;
    body.put_u32(code)?;
    Ok(body.finish())
}

/// Writes the body of a reply without contexts whose status is SYSTEM_EXCEPTION, in the byte order of the reply: the
/// repository id, the minor code and the completion status. It begins at place 24 of the reply. Constant work.
pub fn system_exception_body(alloc: Global, order: Order, system: Sys) -> Result<Octets, NoMemory>
    ensures spelled { IfOk result (λ o. o.items ≡ exception_body order system) }
    ensures short { IfOk result (λ o. length o.items ≤ 1024) }
{
    let id = match Text::new(alloc, repository_id(system.name)) {
        Ok(id) => id,
        Err(_) => return Err(NoMemory),
    };
    let code = completion_status(system.completed);
    spell(alloc, order, &id, system.minor, code)
}
