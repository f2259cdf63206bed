//! The bases of interfaces, and their bases: CORBA 3.0.3, section 3.8.5.
ghost use Rattle.std.specs.Prelude.{◌≡◌, ◌∷◌, [], IfOk, OnOk};
ghost use Rattle.std.specs.List.{flat_map};
ghost use Rattle.cdr_values.specs.Trees.{Name};
ghost use Rattle.idl_types.specs.Names.{names_in, once, with_name, with_names};
ghost use Rattle.idl_types.specs.Things as thing;
ghost use Rattle.idl_types.specs.Views.{thing_of, interface_of};
ghost use Rattle.script_names.specs.Views.{listed, with_thing};

use crate::bases::Bases;
use idl_types::{Declaration, Interface};
use indexmap::{IndexMap, IndexSet};
use orb_base::{NoMemory, Text};
use std::alloc::Global;

/// The ids that are listed for an id; none where no interface of it was put in. One hash. Takes no memory.
pub(crate) fn listed<'a>(index: &'a IndexMap<Vec<u8>, Bases>, id: &[u8]) -> &'a [Vec<u8>]
    ensures { names_in result.now ≡ listed index.now.entries id.now }
{
    match index.get(id) {
        Some(bases) => bases.ids.as_slice(),
        None => &[],
    }
}

/// Puts an id after the others where it isn't there.
fn put_id(alloc: Global, ids: &mut IndexSet<Vec<u8>>, id: &[u8]) -> Result<(), NoMemory>
    ensures { OnOk result (names_in ids.new.keys ≡ with_name (names_in ids.old.keys) id.now) }
{
    let id = Vec::from_slice(alloc, id)?;
    ids.insert(id)?;
    Ok(())
}

/// Puts ids after the others, each where it isn't there.
fn put_ids(alloc: Global, ids: &mut IndexSet<Vec<u8>>, more: &[Vec<u8>]) -> Result<(), NoMemory>
    ensures { OnOk result (names_in ids.new.keys ≡ with_names (names_in ids.old.keys) (names_in more.now)) }
{
    for id in more {
        put_id(alloc, ids, id.as_slice())?;
    }
    Ok(())
}

/// Puts a base after the others, and after it what that one has.
fn put_base(
    alloc: Global,
    ids: &mut IndexSet<Vec<u8>>,
    index: &IndexMap<Vec<u8>, Bases>,
    base: &[u8],
) -> Result<(), NoMemory>
    ensures { OnOk result (names_in ids.new.keys ≡ with_names (names_in ids.old.keys) (base.now ∷ listed index.now.entries base.now)) }
{
    put_id(alloc, ids, base)?;
    put_ids(alloc, ids, listed(index, base))
}

/// All bases of an interface that names these, by what is listed for them. A hash for each base of each base.
fn bases_from(
    alloc: Global,
    index: &IndexMap<Vec<u8>, Bases>,
    bases: &[Text],
) -> Result<IndexSet<Vec<u8>>, NoMemory>
    ensures { IfOk result (λ s. names_in s.keys ≡ once (flat_map (λ b. b ∷ listed index.now.entries b) bases.now)) }
{
    let mut ids = IndexSet::new(alloc);
    for base in bases {
        put_base(alloc, &mut ids, index, base.as_slice())?;
    }
    Ok(ids)
}

/// Lists the bases of an interface.
fn put_interface(
    alloc: Global,
    index: &mut IndexMap<Vec<u8>, Bases>,
    interface: &Interface,
) -> Result<(), NoMemory>
    ensures { OnOk result ((id : Name) → listed index.new.entries id
        ≡ with_thing (listed index.old.entries) (thing.interface (interface_of interface.now)) id) }
{
    let ids = bases_from(alloc, index, interface.bases.as_slice())?;
    let id = Vec::from_slice(alloc, interface.id.as_slice())?;
    index.insert(id, Bases { ids })?;
    Ok(())
}

/// Lists the bases of a thing that is an interface.
pub(crate) fn put_bases(
    alloc: Global,
    index: &mut IndexMap<Vec<u8>, Bases>,
    declaration: &Declaration,
) -> Result<(), NoMemory>
    ensures { OnOk result ((id : Name) → listed index.new.entries id ≡ with_thing (listed index.old.entries) (thing_of declaration.now) id) }
{
    match declaration {
        Declaration::Interface(interface) => put_interface(alloc, index, interface),
        Declaration::Constant(_) => Ok(()),
        Declaration::Named(_) => Ok(()),
        Declaration::Exception(_) => Ok(()),
    }
}
