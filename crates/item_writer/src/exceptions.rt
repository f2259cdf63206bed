//! The bodies of replies that tell system exceptions: CORBA 3.0.3, sections 4.12 and 15.4.3.2. Takes no memory.
ghost use Rattle.std.specs.Prelude.{◌≡◌, ◌≤◌, ◌+◌, length};
ghost use Rattle.giop_messages.specs.Exceptions.{exception_id, exception_body};
ghost use Rattle.item_writer.specs.Heads.{padded};

use crate::heads::{Head, put, put_u32};
use arrayvec::ArrayVec;
use giop_messages::completion_status;
use orb_base::{Order, Sys, SysName};

/// The repository id of an exception, with its NUL and the pad after it.
fn padded_id(name: SysName) -> &'static [u8]
    ensures value { result.now ≡ padded (exception_id name) }
    ensures short { length result.now ≤ 64 }
{
    match name {
        SysName::Marshal => b"IDL:omg.org/CORBA/MARSHAL:1.0\0\0\0".as_slice(),
        SysName::BadOperation => b"IDL:omg.org/CORBA/BAD_OPERATION:1.0\0".as_slice(),
        SysName::ObjectNotExist => b"IDL:omg.org/CORBA/OBJECT_NOT_EXIST:1.0\0\0".as_slice(),
        SysName::InvPolicy => b"IDL:omg.org/CORBA/INV_POLICY:1.0\0\0\0\0".as_slice(),
        SysName::Transient => b"IDL:omg.org/CORBA/TRANSIENT:1.0\0".as_slice(),
        SysName::DataConversion => b"IDL:omg.org/CORBA/DATA_CONVERSION:1.0\0\0\0".as_slice(),
        SysName::ImpLimit => b"IDL:omg.org/CORBA/IMP_LIMIT:1.0\0".as_slice(),
        SysName::NoMemory => b"IDL:omg.org/CORBA/NO_MEMORY:1.0\0".as_slice(),
    }
}

/// The length of the repository id with its NUL.
fn id_len(name: SysName) -> u32
    ensures { result ≡ length (exception_id name) + 1 }
{
    match name {
        SysName::Marshal => 30,
        SysName::BadOperation => 36,
        SysName::ObjectNotExist => 39,
        SysName::InvPolicy => 33,
        SysName::Transient => 32,
        SysName::DataConversion => 38,
        SysName::ImpLimit => 32,
        SysName::NoMemory => 32,
    }
}

/// The body of a reply without contexts whose status is SYSTEM_EXCEPTION.
#[tactic(auto, using(crate::proofs::Spelling::exception_spelled))]
pub fn exception_body_of(order: Order, system: Sys) -> Head
    ensures { result.items ≡ exception_body order system }
{
    let mut body = ArrayVec::new();
    put_u32(&mut body, order, id_len(system.name));
    put(&mut body, padded_id(system.name));
    put_u32(&mut body, order, system.minor);
    put_u32(&mut body, order, completion_status(system.completed));
    body
}
