//! Scoped names, and what they are used for.
ghost use Rattle.std.specs.Prelude.{◌≡◌, IfOk};
ghost use Rattle.grammar.specs.Gives.{Acts};
ghost use Rattle.idl_tokens.specs.Placed.{seen};
ghost use Rattle.idl_constants.specs.Views.{value_of};
ghost use Rattle.idl_names.specs.Changes as changes;
ghost use Rattle.idl_names.specs.Memory.{Yields};
ghost use Rattle.idl_names.specs.ScopedNames as Spec;
ghost use Rattle.idl_names.specs.Views.{built_of, search_of, sized_of, thing_of};

use crate::changes::{Done, fault, place_of, with_memory};
use crate::sizes::{SizedType, copy_sized};
use crate::state::{Names, Search, Thing, Valued};
use grammar::ReadError;
use idl_constants::ConstValue;
use idl_grammar::{IdlCause, IdlFault};
use idl_lookup::Seat;
use idl_scopes::{Place, Sort};
use idl_tokens::Token;
use orb_base::{NoMemory, Text};
use std::alloc::Global;

/// A thing as a type.
fn type_in(alloc: Global, thing: &Thing, last: Place) -> Result<SizedType, ReadError<IdlFault>>
    ensures { Yields sized_of result (Spec.type_in (thing_of thing.now) last) }
{
    match thing {
        Thing::Type(kind) => with_memory(copy_sized(alloc, kind)),
        Thing::Interface(_, _) => Err(ReadError::Refused(fault(IdlCause::NotInProfile, last))),
        _ => Err(ReadError::Refused(fault(IdlCause::WrongKind, last))),
    }
}

/// An enumerator as a value.
fn choice(alloc: Global, id: &Text, n: u32) -> Result<ConstValue, NoMemory>
    ensures { IfOk result (λ v. value_of v ≡ Spec.choice_of id.now n) }
{
    Ok(ConstValue::Choice(id.copy(alloc)?, n))
}

/// A thing as a value.
fn value_in(alloc: Global, thing: &Thing, last: Place) -> Result<ConstValue, ReadError<IdlFault>>
    ensures { Yields value_of result (Spec.value_in (thing_of thing.now) last) }
{
    match thing {
        Thing::Constant(_, value) => with_memory(value.copy(alloc)),
        Thing::Enumerator(id, n) => with_memory(choice(alloc, id, *n)),
        _ => Err(ReadError::Refused(fault(IdlCause::WrongKind, last))),
    }
}

impl Names {
    /// From where names are looked up.
    fn seat(&self) -> Seat
        ensures { result ≡ Spec.seat_of (built_of self.now) }
    {
        Seat {
            head: self.parts.head,
            here: self.here,
        }
    }

    /// The place of a part of a name.
    fn find_part(&self, name: &[u8]) -> Result<Option<usize>, NoMemory>
        ensures { IfOk result (λ o. o ≡ Spec.find_part name.now (built_of self.now) (search_of self.now.search)) }
    {
        match self.search {
            Search::Fresh => self.seat().find_first(&self.scopes, name),
            Search::Rooted => self.scopes.own(name, 0),
            Search::Found(at) => self.seat().find_further(&self.scopes, name, at),
        }
    }

    /// A part of a name was found, or not.
    fn part_found(&mut self, token: Token<'_>, found: Option<usize>) -> Done
        ensures { Acts result (built_of self.new) (Spec.part_found (seen token.entry) (built_of self.old) found) }
    {
        match found {
            Some(at) => {
                let Ok(at) = u32::try_from(at) else {
                    return Err(ReadError::NoMemory);
                };
                self.search = Search::Found(at);
                self.last = place_of(token);
                Ok(())
            }
            None => Err(ReadError::Refused(fault(IdlCause::Unknown, place_of(token)))),
        }
    }

    /// A part of a name.
    pub(crate) fn name_part(&mut self, token: Token<'_>) -> Done
        ensures { Acts result (built_of self.new) (Spec.name_part (seen token.entry) (built_of self.old)) }
    {
        let found = with_memory(self.find_part(token.text))?;
        self.part_found(token, found)
    }

    /// The place of what the name means.
    pub(crate) fn meant(&self) -> u32
        ensures { result ≡ Spec.meant (built_of self.now) }
    {
        match self.search {
            Search::Found(at) => at,
            _ => 0,
        }
    }

    /// What the name means, as a type.
    fn type_meant(&self) -> Result<SizedType, ReadError<IdlFault>>
        ensures { Yields sized_of result (Spec.type_in (Spec.meaning (built_of self.now)) self.now.last) }
    {
        match self.things.get(self.meant() as usize) {
            Some(thing) => type_in(self.alloc, thing, self.last),
            None => Err(ReadError::Refused(fault(IdlCause::WrongKind, self.last))),
        }
    }

    /// The name is to be a type.
    pub(crate) fn use_type(&mut self) -> Done
        ensures { Acts result (built_of self.new) (Spec.use_type (Spec.meaning (built_of self.old)) (built_of self.old)) }
    {
        let kind = self.type_meant()?;
        self.newest = kind;
        self.search = Search::Fresh;
        Ok(())
    }

    /// What the name means, as a value.
    fn value_meant(&self) -> Result<ConstValue, ReadError<IdlFault>>
        ensures { Yields value_of result (Spec.value_in (Spec.meaning (built_of self.now)) self.now.last) }
    {
        match self.things.get(self.meant() as usize) {
            Some(thing) => value_in(self.alloc, thing, self.last),
            None => Err(ReadError::Refused(fault(IdlCause::WrongKind, self.last))),
        }
    }

    /// The name is to be a value.
    pub(crate) fn use_const(&mut self) -> Done
        ensures { Acts result (built_of self.new) (Spec.use_const (Spec.meaning (built_of self.old)) (built_of self.old)) }
    {
        let value = self.value_meant()?;
        self.value = Valued {
            value,
            at: self.last,
            literal: self.last,
        };
        self.search = Search::Fresh;
        Ok(())
    }

    /// A module of this name opens, anew or, where there is one, again.
    fn open_found(&mut self, token: Token<'_>, found: Option<usize>) -> Done
        ensures { Acts result (built_of self.new) (Spec.open_module (seen token.entry) (built_of self.old) found) }
    {
        match found {
            Some(at) => {
                let Ok(at) = u32::try_from(at) else {
                    return Err(ReadError::NoMemory);
                };
                self.here = at as usize + 1;
                Ok(())
            }
            None => {
                self.declare_in(self.here, Sort::Module, Thing::Nothing, token)?;
                self.enter();
                Ok(())
            }
        }
    }

    /// A module of this name opens.
    pub(crate) fn open_module(&mut self, token: Token<'_>) -> Done
        ensures { Acts result (built_of self.new) (Spec.module_opened (seen token.entry) (built_of self.old)) }
    {
        let found = with_memory(self.scopes.module_in(token.text, self.here))?;
        self.open_found(token, found)
    }

    /// The name of a oneway's result goes on after its first part.
    pub(crate) fn long_result_name(&self) -> Done
        ensures { Acts result (built_of self.now) (Spec.long_result_name (built_of self.now)) }
    {
        Err(ReadError::Refused(fault(IdlCause::BadOneway, self.last)))
    }

    /// The name of a oneway's result has one part.
    pub(crate) fn result_name(&mut self) -> Done
        ensures { Acts result (built_of self.new) (Spec.result_name (built_of self.old)) }
    {
        let last = self.last;
        self.use_type()?;
        Err(ReadError::Refused(fault(IdlCause::BadOneway, last)))
    }
}
