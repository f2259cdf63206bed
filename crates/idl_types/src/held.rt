//! A declaration as a repository holds it.
ghost use Rattle.std.specs.Prelude.{◌≡◌, ◌++◌, ◌∷◌, [], IfOk, OnOk, IsTrue, map, slice_get, false};
ghost use Rattle.std.specs.List.{list_any};
ghost use Rattle.std.specs.Option.{option_copied, option_map};
ghost use Rattle.cdr_values.specs.Lawful.{differ};
ghost use Rattle.std.specs.Str.{bytes_eq};
ghost use Rattle.idl_types.specs.Things.{operations_of};
ghost use Rattle.idl_types.specs.Views.{thing_of, operation_of};
ghost use Rattle.idl_types.specs.Finding.{operation_in};
ghost use Rattle.idl_types.specs.Names.{names_in, operation_names};

use crate::declaration::Declaration;
use crate::operation::Operation;
use indexmap::IndexSet;
use orb_base::NoMemory;
use std::alloc::Global;

/// A declaration, and an index of the names of its operations, where it has any.
#[derive(Drop)]
pub struct Held {
    pub declaration: Declaration,
    names: IndexSet<Vec<u8>>,
    ghost indexed: { names_in names.keys ≡ operation_names (operations_of (thing_of declaration)) },
}

impl Held {
    /// Holds a declaration. Work and memory grow with the number of its operations.
    pub(crate) fn new(alloc: Global, declaration: Declaration) -> Result<Held, NoMemory>
        requires { IsTrue (differ bytes_eq (operation_names (operations_of (thing_of declaration)))) }
        ensures { IfOk result (λ h. h.declaration ≡ declaration) }
    {
        let names = names_of(alloc, declaration.operations())?;
        Ok(Held { declaration, names })
    }

    /// The operation of a name. Costs a hash. Takes no memory.
    pub(crate) fn operation(&self, name: &[u8]) -> Option<&Operation>
        ensures { option_map operation_of (option_copied result) ≡ operation_in name.now (thing_of self.now.declaration) }
    {
        match self.names.get_index_of(name) {
            Some(at) => operation_at(self.declaration.operations(), at),
            None => None,
        }
    }
}

fn operation_at(operations: &[Operation], at: usize) -> Option<&Operation>
    ensures { option_map operation_of (option_copied result) ≡ slice_get (map operation_of operations.now) at }
{
    operations.get(at)
}

/// The names of operations, which differ.
fn names_of(alloc: Global, operations: &[Operation]) -> Result<IndexSet<Vec<u8>>, NoMemory>
    requires { IsTrue (differ bytes_eq (operation_names (map operation_of operations.now))) }
    ensures { IfOk result (λ names. names_in names.keys ≡ operation_names (map operation_of operations.now)) }
{
    let mut names = IndexSet::new(alloc);
    for operation in operations {
        put_name(alloc, &mut names, operation.name.as_slice())?;
    }
    Ok(names)
}

/// Puts a name that isn't there after the others.
fn put_name(alloc: Global, names: &mut IndexSet<Vec<u8>>, name: &[u8]) -> Result<(), NoMemory>
    requires { list_any (bytes_eq name.now) (names_in names.old.keys) ≡ false }
    ensures { OnOk result (names_in names.new.keys ≡ names_in names.old.keys ++ name.now ∷ []) }
{
    let name = Vec::from_slice(alloc, name)?;
    names.insert(name)?;
    Ok(())
}
