//! What is built along a grammar.
ghost use Rattle.std.specs.Prelude.{◌≡◌, ◌≤◌, Result};
ghost use Rattle.grammar.specs.Rules.{Rule as RuleData};
ghost use Rattle.idl_tokens.specs.Placed.{Placed};
ghost use Rattle.idl_tokens.specs.declared.kind.Kind.{Kind as KindData};
ghost use Rattle.grammar.specs.Views.{rule_of, size};
ghost use Rattle.grammar.specs.Gives.{Acts};
ghost use Rattle.idl_tokens.specs.Placed.{seen};

use crate::Rule;
use crate::reader::MAX_RULE;
use idl_tokens::Token;

/// Why a text has no reading.
#[derive(Debug, Drop)]
pub enum ReadError<F> {
    /// The fault of the first token at fault.
    Refused(F),
    /// Memory was wanting.
    NoMemory,
}

/// Builds along the labels of a grammar: it has the rules in brackets, and does what each label says. Contracts see what
/// was built so far as a value of their own.
pub trait Builder {
    /// What is done at a token, or between two.
    type Label: Copy + 'static;

    /// The name of a rule that is in brackets.
    type Inner: Copy + 'static;

    /// What a token at fault is given as.
    type Fault: Drop;

    /// What is built.
    ghost Built: { Type 0 };

    /// What was built so far.
    ghost built: { Self → Built };

    /// The rules in brackets, what is done at a token and without one, and the fault of a token at fault.
    ghost inside: { Self.Inner → RuleData KindData Self.Label Self.Inner };

    ghost act: { Self.Label → Placed KindData → Built → Result Built Self.Fault };

    ghost judge: { Self.Label → Built → Result Built Self.Fault };

    ghost stop: { Placed KindData → Self.Fault };

    /// The rule of this name. It has at most 100,000 parts, so that reading by it ends.
    fn inside(inner: Self::Inner) -> &'static Rule<'static, Self::Label, Self::Inner>
        ensures rule { rule_of result.now ≡ inside inner }
        ensures small { size (inside inner) ≤ MAX_RULE };

    /// What is done at a token.
    fn act(&mut self, label: Self::Label, token: Token<'_>) -> Result<(), ReadError<Self::Fault>>
        ensures { Acts result (built self.new) (act label (seen token.entry) (built self.old)) };

    /// What is done without a token.
    fn judge(&mut self, label: Self::Label) -> Result<(), ReadError<Self::Fault>>
        ensures { Acts result (built self.new) (judge label (built self.old)) };

    /// The fault of a token that the grammar doesn't have there.
    fn stop(token: Token<'_>) -> Self::Fault
        ensures { result ≡ stop (seen token.entry) };
}
