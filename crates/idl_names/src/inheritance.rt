//! What interfaces inherit.
ghost use Rattle.std.specs.Prelude.{◌≡◌, [], IfOk, OnOk, map, slice_get};
ghost use Rattle.grammar.specs.Gives.{Acts};
ghost use Rattle.idl_names.specs.Changes as changes;
ghost use Rattle.idl_names.specs.Each.{and_each};
ghost use Rattle.idl_names.specs.Interfaces as Spec;
ghost use Rattle.idl_names.specs.ScopedNames.{meaning};
ghost use Rattle.idl_names.specs.Views.{built_of, thing_of};

use crate::changes::{Done, fault, with_memory};
use crate::operations::{add_operations, is_interface, operation_leaves};
use crate::sizes::plus;
use crate::state::{Names, Parts, Search, Thing};
use grammar::ReadError;
use idl_grammar::IdlCause;
use idl_scopes::{Inherited, Sort};
use indexmap::IndexSet;
use orb_base::NoMemory;
use std::alloc::Global;
use std::mem;

/// The operations that the declaration at a place gives, after others.
fn add_operations_at(found: &mut IndexSet<u32>, things: &[Thing], at: u32) -> Result<(), NoMemory>
    ensures { OnOk result (found.new.keys ≡ and_each found.old.keys (Spec.operations_in (changes.thing_in (slice_get (map thing_of things.now) at)))) }
{
    match things.get(at as usize) {
        Some(thing) => add_operations(found, thing),
        None => Ok(()),
    }
}

/// The operations that these bases give, each once. One look-up by an index for each that a base gives.
fn operations_from(alloc: Global, things: &[Thing], bases: &[u32]) -> Result<Vec<u32>, NoMemory>
    ensures { IfOk result (λ v. v.items ≡ Spec.operations_from (map thing_of things.now) [] bases.now) }
{
    let mut found = IndexSet::new(alloc);
    for base in bases {
        add_operations_at(&mut found, things, *base)?;
    }
    Ok(Vec::from_slice(alloc, found.as_slice())?)
}

/// The leaves of the operation at a place.
pub(crate) fn leaves_at(things: &[Thing], at: usize) -> u32
    ensures { result ≡ Spec.operation_leaves (changes.thing_in (slice_get (map thing_of things.now) at)) }
{
    match things.get(at) {
        Some(thing) => operation_leaves(thing),
        None => 0,
    }
}

/// The leaves of several.
fn leaves_in(things: &[Thing], places: &[u32]) -> u32
    ensures { result ≡ Spec.leaves_from (map thing_of things.now) 0 places.now }
{
    let mut total = 0;
    for place in places {
        total = plus(total, leaves_at(things, *place as usize));
    }
    total
}

impl Names {
    /// Whether the name means an interface.
    fn means_interface(&self) -> bool
        ensures { result ≡ Spec.is_interface (meaning (built_of self.now)) }
    {
        match self.things.get(self.meant() as usize) {
            Some(thing) => is_interface(thing),
            None => false,
        }
    }

    /// Whether the name gives another thing of a name than the bases before it.
    fn base_clashes(&self) -> Result<bool, NoMemory>
        ensures { IfOk result (λ b. b ≡ Spec.base_clashes (built_of self.now)) }
    {
        self.scopes.base_clashes(self.meant(), &self.parts.given)
    }

    /// The name is one more base.
    fn with_base(&mut self) -> Done
        ensures { Acts result (built_of self.new) (Spec.with_base (built_of self.old)) }
    {
        let base = self.meant();
        self.search = Search::Fresh;
        with_memory(self.scopes.inherit(base, &mut self.parts.given))?;
        match self.parts.bases.push(base) {
            Ok(()) => Ok(()),
            Err(_) => Err(ReadError::NoMemory),
        }
    }

    /// The name is to be a base.
    pub(crate) fn base_named(&mut self) -> Done
        ensures { Acts result (built_of self.new) (Spec.base_named (meaning (built_of self.old)) (built_of self.old)) }
    {
        if !self.means_interface() {
            return Err(ReadError::Refused(fault(IdlCause::WrongKind, self.last)));
        }
        if with_memory(self.base_clashes())? {
            return Err(ReadError::Refused(fault(IdlCause::Clash, self.last)));
        }
        self.with_base()
    }

    /// The operations that all bases so far give.
    fn inherited(&self) -> Result<Vec<u32>, NoMemory>
        ensures { IfOk result (λ v. v.items ≡ Spec.inherited (built_of self.now)) }
    {
        operations_from(self.alloc, &self.things, &self.parts.bases)
    }

    /// Inherited operations are counted.
    pub(crate) fn inherit(&mut self) -> Done
        ensures { Acts result (built_of self.new) (Spec.inherit (built_of self.old)) }
    {
        let operations = with_memory(self.inherited())?;
        let leaves = leaves_in(&self.things, &operations);
        self.count(leaves, self.newest_place())
    }

    /// The interface is known with its bases, and its body opens.
    pub(crate) fn open_interface(&mut self) -> Done
        ensures { Acts result (built_of self.new) (Spec.open_interface (built_of self.old)) }
    {
        let operations = with_memory(self.inherited())?;
        let scopes = mem::replace(&mut self.parts.given, Inherited::new(self.alloc));
        let bases = mem::replace(&mut self.parts.bases, Vec::new(self.alloc));
        let thing = Thing::Interface(bases, operations);
        self.finish(self.newest(), Sort::Interface(scopes), thing);
        self.parts = Parts::new(self.alloc);
        self.enter();
        Ok(())
    }
}
