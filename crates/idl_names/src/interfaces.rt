//! Operations and attributes of interfaces.
ghost use Rattle.std.specs.Prelude.{◌≡◌, IfOk, Ok, OnOk, map, set, slice_get};
ghost use Rattle.grammar.specs.Gives.{Acts};
ghost use Rattle.idl_tokens.specs.Placed.{seen};
ghost use Rattle.idl_names.specs.Interfaces as Spec;
ghost use Rattle.idl_names.specs.Changes as changes;
ghost use Rattle.idl_names.specs.ScopedNames.{meaning};
ghost use Rattle.idl_names.specs.State.{no_parts};
ghost use Rattle.idl_names.specs.Views.{built_of, thing_of};

use crate::changes::{Done, fault, place_of, with_memory};
use crate::inheritance::leaves_at;
use crate::operations::{and_operation, attribute_of, is_exception, is_input, operation_of};
use crate::sizes::plus;
use crate::state::{Names, Parts, Search, Thing};
use crate::texts::text_of;
use cdr_values::copy_type;
use grammar::ReadError;
use idl_grammar::IdlCause;
use idl_lookup::Head;
use idl_scopes::{DeclareFault, Sort};
use idl_tokens::Token;
use idl_types::{Param, Way};
use orb_base::NoMemory;
use std::mem;

/// The interface at a place has one operation more.
#[tactic(auto, using(crate::proofs::ChangedThings::stays))]
fn add_operation_at(things: &mut [Thing], owner: usize, at: u32) -> Result<(), NoMemory>
    ensures { OnOk result (map thing_of things.new ≡ set (map thing_of things.old) owner (Spec.and_operation at (changes.thing_in (slice_get (map thing_of things.old) owner)))) }
{
    if owner < things.len() {
        and_operation(&mut things[owner], at)?;
    }
    Ok(())
}

impl Names {
    /// Whether the name means an exception.
    fn means_exception(&self) -> bool
        ensures { result ≡ Spec.is_exception (meaning (built_of self.now)) }
    {
        match self.things.get(self.meant() as usize) {
            Some(thing) => is_exception(thing),
            None => false,
        }
    }

    /// The interface of this scope has one operation more.
    fn with_operation(&mut self, scope: usize, at: usize) -> Done
        ensures { Acts result (built_of self.new) (Ok (Spec.with_operation scope at (built_of self.old))) }
    {
        let Ok(at) = u32::try_from(at) else {
            return Err(ReadError::NoMemory);
        };
        with_memory(add_operation_at(&mut self.things, scope.saturating_sub(1), at))
    }

    /// The newest type is the operation's result.
    pub(crate) fn result(&mut self) -> Done
        ensures { Acts result (built_of self.new) (Spec.result (built_of self.old)) }
    {
        let kind = with_memory(copy_type(self.alloc, &self.newest.kind))?;
        self.parts.result = Some(kind);
        self.parts.add_part(&self.newest);
        Ok(())
    }

    /// The way of the next parameter.
    pub(crate) fn goes(&mut self, way: Way, token: Token<'_>) -> Done
        ensures { Acts result (built_of self.new) (Spec.goes way (seen token.entry) (built_of self.old)) }
    {
        if self.parts.oneway && !is_input(way) {
            return Err(ReadError::Refused(fault(IdlCause::BadOneway, place_of(token))));
        }
        self.parts.way = way;
        self.parts.head = Head::Parameters;
        Ok(())
    }

    /// The operation is to raise something.
    pub(crate) fn raises(&mut self, token: Token<'_>) -> Done
        ensures { Acts result (built_of self.new) (Spec.raises (seen token.entry) (built_of self.old)) }
    {
        if self.parts.oneway {
            return Err(ReadError::Refused(fault(IdlCause::BadOneway, place_of(token))));
        }
        self.parts.head = Head::Raises;
        Ok(())
    }

    /// A parameter's name is declared.
    fn declare_param(&mut self, token: Token<'_>) -> Done
        ensures { Acts result (built_of self.new) (Spec.declare_param (seen token.entry) (built_of self.old)) }
    {
        match self
            .scopes
            .declare_parameter(token.text, self.here, place_of(token))
        {
            Ok(()) => self.add_thing(Thing::Nothing),
            Err(DeclareFault::Clash) => Err(ReadError::Refused(fault(
                IdlCause::Clash,
                place_of(token),
            ))),
            Err(DeclareFault::NoMemory) => Err(ReadError::NoMemory),
        }
    }

    /// This name and the newest type are one more parameter.
    fn param_named(&mut self, token: Token<'_>) -> Done
        ensures { Acts result (built_of self.new) (Spec.param_named (seen token.entry) (built_of self.old)) }
    {
        let name = with_memory(text_of(self.alloc, token.text))?;
        let kind = with_memory(copy_type(self.alloc, &self.newest.kind))?;
        let way = self.parts.way;
        self.parts.add_part(&self.newest);
        match self.parts.params.push(Param { way, name, kind }) {
            Ok(()) => Ok(()),
            Err(_) => Err(ReadError::NoMemory),
        }
    }

    /// A parameter of this name.
    pub(crate) fn param(&mut self, token: Token<'_>) -> Done
        ensures { Acts result (built_of self.new) (Spec.param (seen token.entry) (built_of self.old)) }
    {
        self.declare_param(token)?;
        self.param_named(token)
    }

    /// The name is one more exception that the operation raises.
    fn with_raised(&mut self) -> Done
        ensures { Acts result (built_of self.new) (Spec.with_raised (built_of self.old)) }
    {
        let id = with_memory(self.id_of(self.meant() as usize))?;
        self.search = Search::Fresh;
        match self.parts.raises.push(id) {
            Ok(()) => Ok(()),
            Err(_) => Err(ReadError::NoMemory),
        }
    }

    /// The name is to be an exception.
    pub(crate) fn raised(&mut self) -> Done
        ensures { Acts result (built_of self.new) (Spec.raised (meaning (built_of self.old)) (built_of self.old)) }
    {
        if !self.means_exception() {
            return Err(ReadError::Refused(fault(IdlCause::WrongKind, self.last)));
        }
        self.with_raised()
    }

    /// The operation that was read; its parts are used up.
    fn operation_read(&mut self) -> Result<Thing, NoMemory>
        ensures thing { IfOk result (λ t. thing_of t ≡ Spec.operation_read (built_of self.old)) }
        ensures rest { OnOk result (built_of self.new ≡ record (built_of self.old) { parts = no_parts }) }
    {
        let name = self.name_at(self.opened())?;
        let leaves = plus(self.parts.leaves, 1);
        let parts = mem::replace(&mut self.parts, Parts::new(self.alloc));
        let mut operations = Vec::new(self.alloc);
        operations.push(operation_of(name, parts))?;
        Ok(Thing::Operations(operations, leaves))
    }

    /// Its interface has it, and its scope ends.
    fn operation_ended(&mut self) -> Done
        ensures { Acts result (built_of self.new) (Spec.operation_ended (built_of self.old)) }
    {
        let thing = with_memory(self.operation_read())?;
        let scope = self.scopes.outer(self.here);
        let at = self.opened();
        self.with_operation(scope, at)?;
        self.end(Sort::Operation, thing);
        Ok(())
    }

    /// An operation has ended.
    pub(crate) fn end_operation(&mut self) -> Done
        ensures { Acts result (built_of self.new) (Spec.end_operation (built_of self.old)) }
    {
        let leaves = plus(self.parts.leaves, 1);
        self.count(leaves, self.opened_place())?;
        self.operation_ended()
    }

    /// The newest name is an attribute, whose leaves are counted.
    fn attribute_counted(&mut self, token: Token<'_>) -> Done
        ensures { Acts result (built_of self.new) (Spec.attribute_counted (seen token.entry) (built_of self.old)) }
    {
        let leaves = leaves_at(&self.things, self.newest());
        self.count(leaves, place_of(token))
    }

    /// Its interface has it.
    fn attribute_held(&mut self) -> Done
        ensures { Acts result (built_of self.new) (Spec.attribute_held (built_of self.old)) }
    {
        self.with_operation(self.here, self.newest())
    }

    /// An attribute of this name.
    pub(crate) fn attribute(&mut self, token: Token<'_>) -> Done
        ensures { Acts result (built_of self.new) (Spec.attribute (seen token.entry) (built_of self.old)) }
    {
        let readonly = self.parts.readonly;
        let thing = with_memory(attribute_of(self.alloc, readonly, token.text, &self.newest))?;
        self.declare_in(self.here, Sort::Operation, thing, token)?;
        self.attribute_counted(token)?;
        self.attribute_held()
    }
}
