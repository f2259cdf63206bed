//! Builds a script along the labels of its grammar.
ghost use Rattle.std.specs.Prelude.{◌≡◌, OnOk};
ghost use Rattle.grammar.specs.Gives.{Acts};
ghost use Rattle.idl_tokens.specs.Placed.{seen};
ghost use Rattle.servant_scripts.specs.Answers.{Does, Same};
ghost use Rattle.servant_scripts.specs.DraftView.{draft_of};
ghost use Rattle.servant_scripts.specs.Labels as Spec;
ghost use Rattle.idl_tokens.specs.Quotes as Quotes;
ghost use Rattle.servant_scripts.specs.Literals as Literal;
ghost use Rattle.orb_base.specs.NulFree.{nul_at};
ghost use Rattle.script_grammar.specs.Stopping.{stop};

use crate::draft::Draft;
use crate::literal::literal_of;
use crate::{Form, ScriptError};
use grammar::{Builder, ReadError};
use idl_tokens::{Token, unquoted};
use orb_base::{NoMemory, Text, TextFault};
use script_grammar::{Inner, ScriptFault, ScriptLabel as Label, ScriptRule, stop_at};

/// The refusal of a token.
fn refused(token: Token<'_>) -> ScriptError
    ensures { result ≡ ScriptError.Refused (stop (seen token.entry)) }
{
    ScriptError::Refused(stop_at(token))
}

/// The answer as the reader of grammars knows it.
fn answered(done: Result<(), ScriptError>) -> Result<(), ReadError<ScriptFault>>
    ensures { Same done result }
{
    match done {
        Ok(()) => Ok(()),
        Err(ScriptError::Refused(fault)) => Err(ReadError::Refused(fault)),
        Err(ScriptError::NoMemory) => Err(ReadError::NoMemory),
    }
}

impl Draft {
    /// A number, which is decimal and below 2^127.
    fn number(&mut self, token: Token<'_>) -> Result<(), ScriptError>
        ensures { Does result (draft_of self.new) (Spec.with_number (Literal.literal_of (seen token.entry).text) (seen token.entry) (draft_of self.old)) }
    {
        match literal_of(token.text) {
            Some(z) => Ok(self.push(Form::Number(z), token)?),
            None => Err(refused(token)),
        }
    }

    /// A text, which holds no NUL.
    fn text(&mut self, token: Token<'_>) -> Result<(), ScriptError>
        ensures { Does result (draft_of self.new) (Spec.with_text (nul_at (Quotes.unquoted (seen token.entry).text)) (seen token.entry) (draft_of self.old)) }
    {
        match Text::new(self.alloc, unquoted(token.text)) {
            Ok(text) => Ok(self.push(Form::Text(text), token)?),
            Err(TextFault::Nul(_)) => Err(refused(token)),
            Err(TextFault::NoMemory) => Err(ScriptError::NoMemory),
        }
    }

    /// Does what a label says without a token.
    fn settle(&mut self, label: Label) -> Result<(), NoMemory>
        ensures { OnOk result (draft_of self.new ≡ Spec.settle label (draft_of self.old)) }
    {
        match label {
            Label::Wrap => self.wrap(),
            Label::Join => self.join(),
            Label::UseName => self.use_name(),
            Label::Item => self.item(),
            Label::EndList => self.end_list(),
            Label::OpenFields => self.open_fields(),
            Label::Field => self.end_field(),
            Label::OpenBlock => self.open_block(),
            Label::Let => self.end_let(),
            Label::Set => self.end_set(),
            Label::If => self.end_if(),
            Label::Leave => self.leave(),
            Label::Return => self.give(),
            Label::Servant => self.end_servant(),
            _ => Ok(()),
        }
    }

    /// Does what a label says at a token.
    fn take(&mut self, label: Label, token: Token<'_>) -> Result<(), ScriptError>
        ensures { Does result (draft_of self.new) (Spec.act label (seen token.entry) (draft_of self.old)) }
    {
        match label {
            Label::Number => self.number(token),
            Label::Text => self.text(token),
            Label::Truth(truth) => Ok(self.push(Form::Truth(truth), token)?),
            Label::Priority => Ok(self.push(Form::Priority, token)?),
            Label::Place => Ok(self.keep(token)?),
            Label::Unary(operator) => Ok(self.begin_unary(operator, token)?),
            Label::Binary(operator) => Ok(self.begin_binary(operator)?),
            Label::Rooted => Ok(self.rooted(token)?),
            Label::FirstPart => Ok(self.first_part(token)?),
            Label::NamePart => Ok(self.next_part(token)?),
            Label::Member => Ok(self.with_member(token)?),
            Label::OpenList => Ok(self.open_list(token)?),
            Label::Named => Ok(self.wait(token)?),
            Label::New => Ok(self.make(token)?),
            Label::Raise => Ok(self.end_raise(token)?),
            Label::OpenNames => Ok(self.open_names(token)?),
            Label::Method => Ok(self.end_method(token)?),
            _ => Ok(self.settle(label)?),
        }
    }
}

impl Builder for Draft {
    ghost use Rattle.script_grammar.specs.ScriptRules as Rules;
    ghost use Rattle.script_grammar.specs.Stopping as stopping;
    ghost use Rattle.servant_scripts.specs.Drafts as plain;
    ghost use Rattle.servant_scripts.specs.DraftView.{draft_of};
    ghost use Rattle.servant_scripts.specs.Labels as Spec;

    type Label = Label;

    type Inner = Inner;

    type Fault = ScriptFault;

    ghost Built = { plain.Draft };

    ghost built = { draft_of };

    ghost inside = { Rules.inside };

    ghost act = { Spec.act };

    ghost judge = { Spec.judge };

    ghost stop = { stopping.stop };

    #[tactic(auto, using(script_grammar::proofs::PlainRules::small))]
    fn inside(inner: Inner) -> &'static ScriptRule {
        script_grammar::inside(inner)
    }

    fn act(&mut self, label: Label, token: Token<'_>) -> Result<(), ReadError<ScriptFault>> {
        answered(self.take(label, token))
    }

    fn judge(&mut self, label: Label) -> Result<(), ReadError<ScriptFault>> {
        match self.settle(label) {
            Ok(()) => Ok(()),
            Err(NoMemory) => Err(ReadError::NoMemory),
        }
    }

    fn stop(token: Token<'_>) -> ScriptFault {
        stop_at(token)
    }
}
