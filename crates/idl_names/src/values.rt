//! Literals, bounds and lengths, and constants.
ghost use Rattle.std.specs.Prelude.{◌≡◌, neg_ℤ};
ghost use Rattle.grammar.specs.Gives.{Acts};
ghost use Rattle.idl_tokens.specs.Placed.{seen};
ghost use Rattle.idl_constants.specs.Views.{value_of};
ghost use Rattle.idl_names.specs.Memory.{Yields};
ghost use Rattle.idl_names.specs.Values as Spec;
ghost use Rattle.idl_names.specs.Views.{built_of, valued_of};

use crate::changes::{Done, fault, place_of, with_memory};
use crate::sizes::{leaf, sequence_of};
use crate::state::{Names, Thing, Valued};
use crate::texts::text_of;
use cdr_values::{IdlType, copy_type};
use grammar::ReadError;
use idl_constants::{ConstValue, Misfit, bound_of, fit, integer_of, may_be_constant};
use idl_grammar::{IdlCause, IdlFault};
use idl_scopes::Sort;
use idl_tokens::{Token, unquoted};
use std::mem;

/// The number of a literal.
pub(crate) fn number_of(token: Token<'_>) -> i128
    ensures { result ≡ Spec.number_of (seen token.entry) }
{
    integer_of(token.text) as i128
}

/// The same after a minus.
pub(crate) fn minus_of(token: Token<'_>) -> i128
    ensures { result ≡ neg_ℤ (Spec.number_of (seen token.entry)) }
{
    -(integer_of(token.text) as i128)
}

/// A misfit of a value, where it is.
fn misfit_at(misfit: Misfit, value: &Valued) -> IdlFault
    ensures { result ≡ Spec.misfit_at misfit (valued_of value.now) }
{
    match misfit {
        Misfit::WrongKind => fault(IdlCause::WrongKind, value.at),
        Misfit::OutOfRange => fault(IdlCause::OutOfRange, value.literal),
    }
}

/// A value as a bound or a length.
#[tactic(auto, using(crate::proofs::BoundSizes::size_is, crate::proofs::BoundSizes::misfit_is))]
fn size_in(value: &Valued) -> Result<u32, ReadError<IdlFault>>
    ensures { Yields (λ n. n) result (Spec.size_in (valued_of value.now)) }
{
    match bound_of(&value.value) {
        Ok(n) => Ok(n),
        Err(misfit) => Err(ReadError::Refused(misfit_at(misfit, value))),
    }
}

impl Names {
    /// A literal is the value.
    pub(crate) fn literal(&mut self, value: ConstValue, token: Token<'_>) -> Done
        ensures { Acts result (built_of self.new) (Spec.literal (value_of value) (seen token.entry) (built_of self.old)) }
    {
        let place = place_of(token);
        self.value = Valued {
            value,
            at: place,
            literal: place,
        };
        Ok(())
    }

    /// A text is the value.
    pub(crate) fn text_literal(&mut self, token: Token<'_>) -> Done
        ensures { Acts result (built_of self.new) (Spec.literal (Spec.text_of (seen token.entry)) (seen token.entry) (built_of self.old)) }
    {
        let text = with_memory(text_of(self.alloc, unquoted(token.text)))?;
        self.literal(ConstValue::Text(text), token)
    }

    /// A number after a sign is the value.
    pub(crate) fn behind_sign(&mut self, z: i128, token: Token<'_>) -> Done
        ensures { Acts result (built_of self.new) (Spec.behind_sign z (seen token.entry) (built_of self.old)) }
    {
        self.value = Valued {
            value: ConstValue::Number(z),
            at: self.value.at,
            literal: place_of(token),
        };
        Ok(())
    }

    /// The newest value fits, or is at fault.
    pub(crate) fn fitting(&self, fit: Result<(), Misfit>) -> Done
        ensures { Acts result (built_of self.now) (Spec.fitting fit (built_of self.now)) }
    {
        match fit {
            Ok(()) => Ok(()),
            Err(misfit) => Err(ReadError::Refused(misfit_at(misfit, &self.value))),
        }
    }

    /// The newest value is a bound.
    pub(crate) fn bound(&mut self) -> Done
        ensures { Acts result (built_of self.new) (Spec.bound (built_of self.old)) }
    {
        let size = size_in(&self.value)?;
        self.bound = size;
        Ok(())
    }

    /// The newest value is one more length of an array.
    pub(crate) fn array_length(&mut self) -> Done
        ensures { Acts result (built_of self.new) (Spec.array_length (built_of self.old)) }
    {
        let size = size_in(&self.value)?;
        match self.lengths.push(size) {
            Ok(()) => Ok(()),
            Err(_) => Err(ReadError::NoMemory),
        }
    }

    /// The bound is a string's.
    pub(crate) fn bounded_text(&mut self) -> Done
        ensures { Acts result (built_of self.new) (Spec.bounded_text (built_of self.old)) }
    {
        self.newest = leaf(IdlType::Words(self.bound));
        self.bound = 0;
        Ok(())
    }

    /// The newest type is a sequence of what it was.
    pub(crate) fn sequenced(&mut self) -> Done
        ensures { Acts result (built_of self.new) (Spec.sequenced (built_of self.old)) }
    {
        let element = mem::replace(&mut self.newest, leaf(IdlType::Octet));
        self.newest = with_memory(sequence_of(self.alloc, self.bound, element))?;
        self.bound = 0;
        Ok(())
    }

    /// The newest type is a constant's.
    pub(crate) fn const_type(&self) -> Done
        ensures { Acts result (built_of self.now) (Spec.const_type (built_of self.now)) }
    {
        if !may_be_constant(&self.newest.kind) {
            return Err(ReadError::Refused(fault(IdlCause::WrongKind, self.last)));
        }
        Ok(())
    }

    /// The newest name stands for a constant.
    fn constant_named(&mut self) -> Done
        ensures { Acts result (built_of self.new) (Spec.constant_named (built_of self.old)) }
    {
        let kind = with_memory(copy_type(self.alloc, &self.newest.kind))?;
        let value = with_memory(self.value.value.copy(self.alloc))?;
        self.finish(self.newest(), Sort::Other, Thing::Constant(kind, value));
        Ok(())
    }

    /// A constant has ended.
    pub(crate) fn end_const(&mut self) -> Done
        ensures { Acts result (built_of self.new) (Spec.end_const (built_of self.old)) }
    {
        self.fitting(fit(&self.newest.kind, &self.value.value))?;
        self.count(1, self.newest_place())?;
        self.constant_named()
    }
}
