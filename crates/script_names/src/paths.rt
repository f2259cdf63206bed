//! Paths and ids: CORBA 3.0.3, section 10.7.1.
ghost use Rattle.std.specs.Prelude.{◌≡◌, ◌++◌, IfOk, OnOk};
ghost use Rattle.script_names.specs.Paths.{path_of, front_of, id_in};
ghost use Rattle.script_names.specs.Meanings.{declared_name};

use orb_base::NoMemory;
use std::alloc::Global;

/// The path of an id. Takes no memory.
pub(crate) fn path_of(id: &[u8]) -> &[u8]
    ensures { result.now ≡ path_of id.now }
{
    if id.len() < 8 {
        return b"".as_slice();
    }
    &id[4..id.len() - 4]
}

/// Appends the path of a scope, with a `/` after it; of the file's scope nothing.
fn put_front(scope: &[u8], out: &mut Vec<u8>) -> Result<(), NoMemory>
    ensures { OnOk result (out.new.items ≡ out.old.items ++ front_of scope.now) }
{
    if scope.is_empty() {
        return Ok(());
    }
    out.extend_from_slice(scope)?;
    out.push(b'/')?;
    Ok(())
}

/// The id of a name in the scope of a path. One copy of both.
pub(crate) fn id_in(alloc: Global, scope: &[u8], name: &[u8]) -> Result<Vec<u8>, NoMemory>
    ensures { IfOk result (λ v. v.items ≡ id_in scope.now name.now) }
{
    let mut id = Vec::from_slice(alloc, b"IDL:")?;
    put_front(scope, &mut id)?;
    id.extend_from_slice(name)?;
    id.extend_from_slice(b":1.0")?;
    Ok(id)
}

/// The name that an operation's name declares. Takes no memory.
pub(crate) fn declared_name(name: &[u8]) -> &[u8]
    ensures { result.now ≡ declared_name name.now }
{
    if name.starts_with(b"_get_") {
        return &name[5..];
    }
    if name.starts_with(b"_set_") {
        return &name[5..];
    }
    name
}
