//! What is done at each token of IDL, and without one.
ghost use Rattle.std.specs.Prelude.{Ok, true};
ghost use Rattle.cdr_values.specs.Kinds.{kind_of};
ghost use Rattle.grammar.specs.Gives.{Acts};
ghost use Rattle.idl_tokens.specs.Placed.{seen};
ghost use Rattle.idl_grammar.specs.IdlRules as rules;
ghost use Rattle.idl_grammar.specs.Stopping as stopping;
ghost use Rattle.idl_grammar.specs.declared.fault.IdlCause.TheVariants as cause;
ghost use Rattle.idl_names.specs.Changes as changes;
ghost use Rattle.idl_names.specs.Labels as Spec;
ghost use Rattle.idl_names.specs.ScopedNames as names;
ghost use Rattle.idl_names.specs.Sizes.{leaf};
ghost use Rattle.idl_names.specs.State.{Built, rooted};
ghost use Rattle.idl_names.specs.Views.{built_of};

use crate::changes::{Done, fault, place_of};
use crate::sizes::{basic_type, leaf};
use crate::state::{Names, Search};
use crate::values::{minus_of, number_of};
use cdr_values::IdlType;
use grammar::{Builder, ReadError};
use idl_constants::{ConstValue, character_of};
use idl_grammar::{IdlCause, IdlFault, IdlLabel, IdlRule, Inner, inside, stop_at};
use idl_tokens::Token;
use idl_types::Way;

impl Names {
    /// A token is refused with this cause.
    fn refuse(&self, cause: IdlCause, token: Token<'_>) -> Done
        ensures { Acts result (built_of self.now) (changes.refused cause (changes.place_of (seen token.entry))) }
    {
        Err(ReadError::Refused(fault(cause, place_of(token))))
    }

    /// A body ends that leaves nothing but its names.
    fn leave_body(&mut self) -> Done
        ensures { Acts result (built_of self.new) (Ok (changes.leave (built_of self.old))) }
    {
        self.leave();
        Ok(())
    }

    /// A scoped name begins at the file's scope.
    fn root(&mut self) -> Done
        ensures { Acts result (built_of self.new) (Ok (record (built_of self.old) { search = rooted })) }
    {
        self.search = Search::Rooted;
        Ok(())
    }

    /// A type of words.
    fn words(&mut self, kind: IdlType) -> Done
        ensures { Acts result (built_of self.new) (names.typed (leaf (kind_of kind)) (built_of self.old)) }
    {
        self.newest = leaf(kind);
        Ok(())
    }

    /// The next attributes may be set, or not.
    fn set_readonly(&mut self, readonly: bool) -> Done
        ensures { Acts result (built_of self.new) (Ok (record (built_of self.old) { parts = record (built_of self.old).parts { readonly = readonly } })) }
    {
        self.parts.readonly = readonly;
        Ok(())
    }

    /// The operation is a oneway.
    fn set_oneway(&mut self) -> Done
        ensures { Acts result (built_of self.new) (Ok (record (built_of self.old) { parts = record (built_of self.old).parts { oneway = true } })) }
    {
        self.parts.oneway = true;
        Ok(())
    }

    /// What is done at a token of a type with a body, or of an operation.
    fn act_in_body(&mut self, label: IdlLabel, token: Token<'_>) -> Done
        ensures { Acts result (built_of self.new) (Spec.act_in_body label (seen token.entry) (built_of self.old)) }
    {
        match label {
            IdlLabel::EndStruct => self.end_struct(),
            IdlLabel::EndException => self.end_exception(),
            IdlLabel::DefaultLabel => self.default_label(token),
            IdlLabel::EndUnion => self.end_union(),
            IdlLabel::Enumerator => self.enumerate(token),
            IdlLabel::EndEnum => self.end_enum(),
            IdlLabel::ReadOnly => self.set_readonly(true),
            IdlLabel::Attribute => self.attribute(token),
            IdlLabel::OneWay => self.set_oneway(),
            IdlLabel::LongResultName => self.long_result_name(),
            IdlLabel::In => self.goes(Way::Input, token),
            IdlLabel::Out => self.goes(Way::Output, token),
            IdlLabel::InOut => self.goes(Way::Both, token),
            IdlLabel::Param => self.param(token),
            IdlLabel::Raises => self.raises(token),
            _ => Ok(()),
        }
    }

    /// What is done at a token of a value.
    fn act_on_value(&mut self, label: IdlLabel, token: Token<'_>) -> Done
        ensures { Acts result (built_of self.new) (Spec.act_on_value label (seen token.entry) (built_of self.old)) }
    {
        match label {
            IdlLabel::Sign => self.literal(ConstValue::Number(0), token),
            IdlLabel::Number => self.literal(ConstValue::Number(number_of(token)), token),
            IdlLabel::Plus => self.behind_sign(number_of(token), token),
            IdlLabel::Minus => self.behind_sign(minus_of(token), token),
            IdlLabel::Character => {
                self.literal(ConstValue::Character(character_of(token.text)), token)
            }
            IdlLabel::Text => self.text_literal(token),
            IdlLabel::Truth(b) => self.literal(ConstValue::Truth(b), token),
            label => self.act_in_body(label, token),
        }
    }
}

impl Builder for Names {
    type Label = IdlLabel;

    type Inner = Inner;

    type Fault = IdlFault;

    ghost Built = { Built };

    ghost built = { built_of };

    ghost inside = { rules.inside };

    ghost act = { Spec.act };

    ghost judge = { Spec.judge };

    ghost stop = { stopping.stop };

    #[tactic(auto, using(idl_grammar::proofs::PlainRules::small))]
    fn inside(inner: Inner) -> &'static IdlRule {
        inside(inner)
    }

    fn act(&mut self, label: IdlLabel, token: Token<'_>) -> Done {
        match label {
            IdlLabel::Refuse(cause) => self.refuse(cause, token),
            IdlLabel::Module => self.open_module(token),
            IdlLabel::EndModule => self.leave_body(),
            IdlLabel::Interface => self.declare(token),
            IdlLabel::OpenInterface => self.open_interface(),
            IdlLabel::EndInterface => self.leave_body(),
            IdlLabel::Rooted => self.root(),
            IdlLabel::NamePart => self.name_part(token),
            IdlLabel::Basic(basic) => self.words(basic_type(basic)),
            IdlLabel::AnyText => self.words(IdlType::Words(0)),
            IdlLabel::BoundedText => self.bounded_text(),
            IdlLabel::Sequence => self.sequenced(),
            IdlLabel::Declare => self.declare(token),
            IdlLabel::Open => self.open(token),
            label => self.act_on_value(label, token),
        }
    }

    fn judge(&mut self, label: IdlLabel) -> Done {
        match label {
            IdlLabel::Base => self.base_named(),
            IdlLabel::Inherit => self.inherit(),
            IdlLabel::UseType => self.use_type(),
            IdlLabel::UseConst => self.use_const(),
            IdlLabel::Bound => self.bound(),
            IdlLabel::Length => self.array_length(),
            IdlLabel::Typedef => self.typedef(),
            IdlLabel::Member => self.member(),
            IdlLabel::CaseMember => self.case_member(),
            IdlLabel::Switch => self.switch(),
            IdlLabel::CaseLabel => self.case_label(),
            IdlLabel::ConstType => self.const_type(),
            IdlLabel::EndConst => self.end_const(),
            IdlLabel::EndAttribute => self.set_readonly(false),
            IdlLabel::ResultName => self.result_name(),
            IdlLabel::Result => self.result(),
            IdlLabel::Raised => self.raised(),
            IdlLabel::EndOperation => self.end_operation(),
            _ => Ok(()),
        }
    }

    fn stop(token: Token<'_>) -> IdlFault {
        stop_at(token)
    }
}
