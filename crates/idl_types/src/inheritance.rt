//! What an interface has from its bases.
ghost use Rattle.std.specs.Prelude.{◌≡◌, IfOk, OnOk, map};
ghost use Rattle.std.specs.List.{list_all, starts_with};
ghost use Rattle.std.specs.Str.{bytes_eq};
ghost use Rattle.idl_types.specs.Finding.{is_interface};
ghost use Rattle.idl_types.specs.Views.{thing_of, operation_of};
ghost use Rattle.idl_types.specs.Names.{names_in, operation_names, once, with_name, with_names};
ghost use Rattle.idl_types.specs.Inherited as given;
ghost use Rattle.idl_types.specs.Declaring.{is_derived_in};
ghost use Rattle.idl_types.specs.Contents.{things_of};

use crate::declaration::Declaration;
use crate::operation::Operation;
use crate::repository::Repository;
use indexmap::IndexSet;
use orb_base::{NoMemory, Text};
use std::alloc::Global;

impl Repository {
    /// Whether a declaration's bases are interfaces, and its operations begin with what they give. Costs a hash for each
    /// operation of each base.
    pub(crate) fn is_derived(
        &self,
        alloc: Global,
        declaration: &Declaration,
    ) -> Result<bool, NoMemory>
        ensures { IfOk result (λ b. b ≡ is_derived_in (things_of self.now) (thing_of declaration.now)) }
    {
        if !self.has_bases(declaration.bases()) {
            return Ok(false);
        }
        self.inherits(alloc, declaration)
    }

    /// Whether ids are those of interfaces.
    fn has_bases(&self, bases: &[Text]) -> bool
        ensures { result ≡ list_all (is_interface (things_of self.now)) bases.now }
    {
        for base in bases {
            if !self.has_interface(base.as_slice()) {
                return false;
            }
        }
        true
    }

    /// Whether a declaration's operations begin with what its bases give.
    fn inherits(&self, alloc: Global, declaration: &Declaration) -> Result<bool, NoMemory>
        ensures { IfOk result (λ b. b ≡ given.inherits_in (things_of self.now) (thing_of declaration.now)) }
    {
        let bases = each_once(alloc, declaration.bases())?;
        let names = self.names_given(alloc, bases.as_slice())?;
        Ok(begin_with(declaration.operations(), names.as_slice()))
    }

    /// The names of the operations that interfaces have, one interface after the other, and each name once.
    #[tactic(auto, using(crate::proofs::EachOnce::with_both))]
    fn names_given(&self, alloc: Global, ids: &[Vec<u8>]) -> Result<IndexSet<Vec<u8>>, NoMemory>
        ensures { IfOk result (λ s. names_in s.keys ≡ once (given.given_names (things_of self.now) (names_in ids.now))) }
    {
        let mut names = IndexSet::new(alloc);
        for id in ids {
            put_names(alloc, &mut names, self.operations_of(id.as_slice()))?;
        }
        Ok(names)
    }

    /// The operations of the interface of an id; none where there is no such interface.
    fn operations_of(&self, id: &[u8]) -> &[Operation]
        ensures { map operation_of result.now ≡ given.operations_named (things_of self.now) id.now }
    {
        match self.interface(id) {
            Some(interface) => interface.operations.as_slice(),
            None => &[],
        }
    }
}

/// Ids, each once.
fn each_once(alloc: Global, ids: &[Text]) -> Result<IndexSet<Vec<u8>>, NoMemory>
    ensures { IfOk result (λ s. names_in s.keys ≡ once ids.now) }
{
    let mut known = IndexSet::new(alloc);
    for id in ids {
        put_once(alloc, &mut known, id.as_slice())?;
    }
    Ok(known)
}

/// Puts the names of operations after the others, each where it isn't there.
fn put_names(
    alloc: Global,
    names: &mut IndexSet<Vec<u8>>,
    operations: &[Operation],
) -> Result<(), NoMemory>
    ensures { OnOk result (names_in names.new.keys ≡ with_names (names_in names.old.keys) (operation_names (map operation_of operations.now))) }
{
    for operation in operations {
        put_once(alloc, names, operation.name.as_slice())?;
    }
    Ok(())
}

/// Puts a name after the others where it isn't there.
fn put_once(alloc: Global, names: &mut IndexSet<Vec<u8>>, name: &[u8]) -> Result<(), NoMemory>
    ensures { OnOk result (names_in names.new.keys ≡ with_name (names_in names.old.keys) name.now) }
{
    let name = Vec::from_slice(alloc, name)?;
    names.insert(name)?;
    Ok(())
}

/// Whether operations begin with those of these names, in this order.
fn begin_with(operations: &[Operation], names: &[Vec<u8>]) -> bool
    ensures { result ≡ starts_with bytes_eq (operation_names (map operation_of operations.now)) (names_in names.now) }
{
    let mut rest = operations;
    let mut left = names;
    while let [name, after @ ..] = left {
        match rest {
            [first, behind @ ..] => {
                if !has_name(first, name.as_slice()) {
                    return false;
                }
                rest = behind;
            }
            [] => return false,
        }
        left = after;
    }
    true
}

fn has_name(operation: &Operation, name: &[u8]) -> bool
    ensures { result ≡ bytes_eq name.now operation.now.name }
{
    name == operation.name.as_slice()
}
