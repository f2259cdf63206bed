//! Declarators, and types with a body.
ghost use Rattle.std.specs.Prelude.{◌≡◌, IfOk};
ghost use Rattle.grammar.specs.Gives.{Acts};
ghost use Rattle.idl_tokens.specs.Placed.{seen};
ghost use Rattle.cdr_values.specs.Kinds.{cases_view, kind_of};
ghost use Rattle.cdr_values.specs.Trees.{cases_of, union};
ghost use Rattle.idl_names.specs.Bodies as Spec;
ghost use Rattle.idl_names.specs.Sizes.{is_large};
ghost use Rattle.idl_names.specs.Views.{built_of, sized_of, thing_of};

use crate::changes::{Done, fault, place_of, with_memory};
use crate::sizes::{SizedType, arrays_of, copy_sized, is_large_array, leaf, plus};
use crate::state::{Names, Thing};
use crate::texts::text_of;
use cdr_values::{Case, IdlType, copy_type};
use grammar::ReadError;
use idl_constants::{fit, may_switch};
use idl_grammar::IdlCause;
use idl_scopes::Sort;
use idl_tokens::Token;
use orb_base::{List, NoMemory, Text};
use std::alloc::Global;
use std::mem;

/// A type's leaves, at most.
const MAX_LEAVES: u32 = 65_536;

/// A union of these cases.
fn union_of(alloc: Global, id: Text, tag: IdlType, cases: Vec<Case>) -> Result<IdlType, NoMemory>
    ensures { IfOk result (λ k. kind_of k ≡ union id (kind_of tag) (cases_of (cases_view cases.items))) }
{
    Ok(IdlType::Union(id, Box::new(alloc, tag)?, cases))
}

impl Names {
    /// The lengths of the newest array, the innermost first.
    fn inner_lengths(&self) -> Result<Vec<u32>, NoMemory>
        ensures { IfOk result (λ v. v.items ≡ Spec.inner_lengths (built_of self.now)) }
    {
        let mut lengths = Vec::from_slice(self.alloc, &self.lengths)?;
        lengths.reverse();
        Ok(lengths)
    }

    /// The type of a declarator.
    fn declared_type(&self) -> Result<SizedType, NoMemory>
        ensures { IfOk result (λ k. sized_of k ≡ Spec.declared_type (built_of self.now)) }
    {
        let lengths = self.inner_lengths()?;
        let kind = copy_sized(self.alloc, &self.newest)?;
        arrays_of(self.alloc, &lengths, kind)
    }

    /// Whether it is too large, by its sizes alone.
    fn is_declared_large(&self) -> Result<bool, NoMemory>
        ensures { IfOk result (λ b. b ≡ is_large (Spec.declared_type (built_of self.now))) }
    {
        let lengths = self.inner_lengths()?;
        Ok(is_large_array(&lengths, &self.newest))
    }

    /// The newest name stands for this.
    fn named(&mut self, thing: Thing)
        ensures { built_of self.new ≡ Spec.named (thing_of thing) (built_of self.old) }
    {
        self.finish(self.newest(), Sort::Other, thing);
        self.lengths = Vec::new(self.alloc);
    }

    /// The type of the newest name isn't too large.
    fn measure_name(&self) -> Done
        ensures { Acts result (built_of self.now) (Spec.measured_name (built_of self.now)) }
    {
        if with_memory(self.is_declared_large())? {
            return Err(ReadError::Refused(fault(IdlCause::TooLarge, self.newest_place())));
        }
        Ok(())
    }

    /// The newest name stands for its type.
    pub(crate) fn typedef(&mut self) -> Done
        ensures { Acts result (built_of self.new) (Spec.typedef (built_of self.old)) }
    {
        self.measure_name()?;
        let kind = with_memory(self.declared_type())?;
        self.count(kind.leaves, self.newest_place())?;
        self.named(Thing::Type(kind));
        Ok(())
    }

    /// The newest name is a member of this type.
    fn member_named(&mut self) -> Done
        ensures { Acts result (built_of self.new) (Spec.member_named (built_of self.old)) }
    {
        let name = with_memory(self.name_at(self.newest()))?;
        let kind = with_memory(self.declared_type())?;
        with_memory(self.parts.add_member(name, kind))?;
        self.named(Thing::Nothing);
        Ok(())
    }

    /// The newest name is a member.
    pub(crate) fn member(&mut self) -> Done
        ensures { Acts result (built_of self.new) (Spec.member (built_of self.old)) }
    {
        self.measure_name()?;
        self.member_named()
    }

    /// The newest name is a case of this type.
    fn case_named(&mut self) -> Done
        ensures { Acts result (built_of self.new) (Spec.case_named (built_of self.old)) }
    {
        let name = with_memory(self.name_at(self.newest()))?;
        let kind = with_memory(self.declared_type())?;
        with_memory(self.parts.add_case(self.alloc, name, kind))?;
        self.named(Thing::Nothing);
        Ok(())
    }

    /// The newest name is a case.
    pub(crate) fn case_member(&mut self) -> Done
        ensures { Acts result (built_of self.new) (Spec.case_member (built_of self.old)) }
    {
        self.measure_name()?;
        self.case_named()
    }

    /// A type with a body ends.
    fn end_type(&mut self, kind: SizedType) -> Done
        ensures { Acts result (built_of self.new) (Spec.ends_type (sized_of kind) (built_of self.old)) }
    {
        let place = self.opened_place();
        self.measure(&kind, place)?;
        self.count(kind.leaves, place)?;
        self.end(Sort::Other, Thing::Type(kind));
        Ok(())
    }

    /// The repository id of the declaration whose body is open.
    fn open_id(&self) -> Result<Text, NoMemory>
        ensures { IfOk result (λ t. t ≡ Spec.open_id (built_of self.now)) }
    {
        self.id_of(self.opened())
    }

    /// A struct ends.
    pub(crate) fn end_struct(&mut self) -> Done
        ensures { Acts result (built_of self.new) (Spec.end_struct (built_of self.old)) }
    {
        let id = with_memory(self.open_id())?;
        let members = mem::replace(&mut self.parts.members, Vec::new(self.alloc));
        self.end_type(SizedType {
            kind: IdlType::Struct(id, members),
            leaves: self.parts.leaves,
            levels: plus(self.parts.levels, 1),
        })
    }

    /// An exception ends.
    pub(crate) fn end_exception(&mut self) -> Done
        ensures { Acts result (built_of self.new) (Spec.end_exception (built_of self.old)) }
    {
        let place = self.opened_place();
        if MAX_LEAVES < self.parts.leaves {
            return Err(ReadError::Refused(fault(IdlCause::TooLarge, place)));
        }
        let members = mem::replace(&mut self.parts.members, Vec::new(self.alloc));
        self.count(self.parts.leaves, place)?;
        self.end(Sort::Other, Thing::Exception(members));
        Ok(())
    }

    /// A union ends.
    pub(crate) fn end_union(&mut self) -> Done
        ensures { Acts result (built_of self.new) (Spec.end_union (built_of self.old)) }
    {
        let id = with_memory(self.open_id())?;
        let tag = mem::replace(&mut self.parts.discriminator, IdlType::Octet);
        let cases = mem::replace(&mut self.parts.cases, Vec::new(self.alloc));
        let kind = with_memory(union_of(self.alloc, id, tag, cases))?;
        self.end_type(SizedType {
            kind,
            leaves: plus(self.parts.leaves, 1),
            levels: plus(self.parts.levels, 1),
        })
    }

    /// An enum ends.
    pub(crate) fn end_enum(&mut self) -> Done
        ensures { Acts result (built_of self.new) (Spec.end_enum (built_of self.old)) }
    {
        let id = with_memory(self.open_id())?;
        let labels = mem::replace(&mut self.parts.enumerators, Vec::new(self.alloc));
        self.end_type(leaf(IdlType::Enum(id, List::from_vec(labels))))
    }

    /// A token's text is one more label of the enum.
    fn label_named(&mut self, token: Token<'_>) -> Done
        ensures { Acts result (built_of self.new) (Spec.label_named (seen token.entry) (built_of self.old)) }
    {
        let name = with_memory(text_of(self.alloc, token.text))?;
        match self.parts.enumerators.push(name) {
            Ok(()) => Ok(()),
            Err(_) => Err(ReadError::NoMemory),
        }
    }

    /// An enumerator is declared around its enum, with the next number.
    pub(crate) fn enumerate(&mut self, token: Token<'_>) -> Done
        ensures { Acts result (built_of self.new) (Spec.enumerate (seen token.entry) (built_of self.old)) }
    {
        let Ok(number) = u32::try_from(self.parts.enumerators.len()) else {
            return Err(ReadError::NoMemory);
        };
        let id = with_memory(self.open_id())?;
        let scope = self.scopes.outer(self.here);
        self.declare_in(scope, Sort::Other, Thing::Enumerator(id, number), token)?;
        self.label_named(token)
    }

    /// The newest type is a union's discriminator.
    pub(crate) fn switch(&mut self) -> Done
        ensures { Acts result (built_of self.new) (Spec.switch (built_of self.old)) }
    {
        if !may_switch(&self.newest.kind) {
            return Err(ReadError::Refused(fault(IdlCause::WrongKind, self.last)));
        }
        let kind = with_memory(copy_type(self.alloc, &self.newest.kind))?;
        self.parts.discriminator = kind;
        Ok(())
    }

    /// The newest value is one more label, if it is the first of its number.
    fn labelled(&mut self) -> Done
        ensures { Acts result (built_of self.new) (Spec.labelled (built_of self.old)) }
    {
        let z = self.value.value.label();
        if !with_memory(self.parts.add_label(z))? {
            return Err(ReadError::Refused(fault(IdlCause::TwiceCase, self.value.at)));
        }
        Ok(())
    }

    /// The newest value is a label of a case.
    pub(crate) fn case_label(&mut self) -> Done
        ensures { Acts result (built_of self.new) (Spec.case_label (built_of self.old)) }
    {
        self.fitting(fit(&self.parts.discriminator, &self.value.value))?;
        self.labelled()
    }

    /// A default label of a case.
    pub(crate) fn default_label(&mut self, token: Token<'_>) -> Done
        ensures { Acts result (built_of self.new) (Spec.default_label (seen token.entry) (built_of self.old)) }
    {
        if self.parts.has_default() {
            return Err(ReadError::Refused(fault(IdlCause::TwiceCase, place_of(token))));
        }
        self.parts.is_default = true;
        Ok(())
    }
}
