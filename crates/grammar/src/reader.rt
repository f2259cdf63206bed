//! Reads by a grammar.
ghost use Rattle.std.specs.Prelude.{◌≡◌, length};
ghost use Rattle.grammar.specs.Rules.{one, does, ◌then◌, ◌or◌, maybe, many, chained, nested};
ghost use Rattle.grammar.specs.Reading.{begins, may_be_empty, front, behind, take_one, acted, stop, ended, read_rule, read_whole};
ghost use Rattle.grammar.specs.Views.{rule_of, language};
ghost use Rattle.grammar.specs.Gives.{Gives};
ghost use Rattle.idl_tokens.specs.Placed.{seen};

use crate::Rule;
use crate::builder::{Builder, ReadError};
use idl_tokens::{Kind, Tokens, same_kind};

/// The parts of a rule in brackets, at most.
pub const MAX_RULE: u32 = 100_000;

/// The front token stops the rule.
fn stop<B: Builder>(tokens: &Tokens<'_>, builder: &B) -> Result<(), ReadError<B::Fault>>
    ensures { Gives result (B.built builder.now) tokens.now (stop (language B.inside B.act B.judge B.stop) ((B.built builder.now), tokens.now)) }
{
    Err(ReadError::Refused(B::stop(tokens.front())))
}

/// Does what a label says at the next token, and goes after it.
fn acted<B: Builder>(
    tokens: &mut Tokens<'_>,
    builder: &mut B,
    label: B::Label,
) -> Result<(), ReadError<B::Fault>>
    ensures { Gives result (B.built builder.new) tokens.new (acted (language B.inside B.act B.judge B.stop) (B.act label (front tokens.old) (B.built builder.old)) (behind tokens.old)) }
{
    let token = tokens.front();
    builder.act(label, token)?;
    tokens.advance();
    Ok(())
}

/// Does what a label says without a token.
fn judged<B: Builder>(
    tokens: &mut Tokens<'_>,
    builder: &mut B,
    label: B::Label,
) -> Result<(), ReadError<B::Fault>>
    ensures { Gives result (B.built builder.new) tokens.new (acted (language B.inside B.act B.judge B.stop) (B.judge label (B.built builder.old)) tokens.old) }
{
    builder.judge(label)
}

/// One token of this kind, which the end never is.
#[tactic(auto, unfolding(crate::specs::Reading::take_one))]
fn take_one<B: Builder>(
    tokens: &mut Tokens<'_>,
    builder: &mut B,
    kind: Kind,
    label: B::Label,
) -> Result<(), ReadError<B::Fault>>
    ensures { Gives result (B.built builder.new) tokens.new (take_one (language B.inside B.act B.judge B.stop) kind label ((B.built builder.old), tokens.old)) }
{
    if tokens.is_over() {
        return stop(tokens, builder);
    }
    if same_kind(tokens.front().kind, kind) {
        acted(tokens, builder, label)
    } else {
        stop(tokens, builder)
    }
}

/// Whether a rule may spell no token.
#[tactic(auto, using(crate::proofs::Chained::empty_chain))]
fn may_be_empty<B: Builder>(rule: &Rule<'_, B::Label, B::Inner>) -> bool
    ensures { result ≡ may_be_empty (language B.inside B.act B.judge B.stop) (rule_of rule.now) }
{
    match rule {
        Rule::One(_, _) => false,
        Rule::Does(_) => true,
        Rule::Then(a, b) => may_be_empty::<B>(a) && may_be_empty::<B>(b),
        Rule::Or(a, b) => may_be_empty::<B>(a) || may_be_empty::<B>(b),
        Rule::Maybe(_) => true,
        Rule::Many(_) => true,
        Rule::Chained(a, _, _) => may_be_empty::<B>(a),
        Rule::Nested(_, _, _, _, _) => false,
    }
}

/// Whether a rule may begin with a token of this kind.
#[tactic(auto, using(crate::proofs::Chained::begins_chain))]
fn begins<B: Builder>(rule: &Rule<'_, B::Label, B::Inner>, kind: Kind) -> bool
    ensures { result ≡ begins (language B.inside B.act B.judge B.stop) (rule_of rule.now) kind }
{
    match rule {
        Rule::One(k, _) => same_kind(kind, *k),
        Rule::Does(_) => false,
        Rule::Then(a, b) => (may_be_empty::<B>(a) && begins::<B>(b, kind)) || begins::<B>(a, kind),
        Rule::Or(a, b) => begins::<B>(a, kind) || begins::<B>(b, kind),
        Rule::Maybe(a) => begins::<B>(a, kind),
        Rule::Many(a) => begins::<B>(a, kind),
        Rule::Chained(a, o, _) => (may_be_empty::<B>(a)
            && ((may_be_empty::<B>(o) && begins::<B>(a, kind)) || begins::<B>(o, kind)))
            || begins::<B>(a, kind),
        Rule::Nested(k, _, _, _, _) => same_kind(kind, *k),
    }
}

#[cycle(reading)]
#[tactic(auto, unfolding(crate::specs::Reading::read_rule))]
fn read_both<B: Builder>(
    a: &Rule<'_, B::Label, B::Inner>,
    b: &Rule<'_, B::Label, B::Inner>,
    tokens: &mut Tokens<'_>,
    builder: &mut B,
    depth: u32,
) -> Result<(), ReadError<B::Fault>>
    ensures { Gives result (B.built builder.new) tokens.new (read_rule (language B.inside B.act B.judge B.stop) depth (rule_of a.now then rule_of b.now) ((B.built builder.old), tokens.old)) }
{
    read_rule(a, tokens, builder, depth)?;
    read_rule(b, tokens, builder, depth)
}

#[cycle(reading)]
#[tactic(auto, unfolding(crate::specs::Reading::read_rule))]
fn read_either<B: Builder>(
    a: &Rule<'_, B::Label, B::Inner>,
    b: &Rule<'_, B::Label, B::Inner>,
    tokens: &mut Tokens<'_>,
    builder: &mut B,
    depth: u32,
) -> Result<(), ReadError<B::Fault>>
    ensures { Gives result (B.built builder.new) tokens.new (read_rule (language B.inside B.act B.judge B.stop) depth (rule_of a.now or rule_of b.now) ((B.built builder.old), tokens.old)) }
{
    if begins::<B>(a, tokens.front().kind) {
        read_rule(a, tokens, builder, depth)
    } else {
        read_rule(b, tokens, builder, depth)
    }
}

#[cycle(reading)]
#[tactic(auto, unfolding(crate::specs::Reading::read_rule))]
fn read_maybe<B: Builder>(
    a: &Rule<'_, B::Label, B::Inner>,
    tokens: &mut Tokens<'_>,
    builder: &mut B,
    depth: u32,
) -> Result<(), ReadError<B::Fault>>
    ensures { Gives result (B.built builder.new) tokens.new (read_rule (language B.inside B.act B.judge B.stop) depth (maybe (rule_of a.now)) ((B.built builder.old), tokens.old)) }
{
    if begins::<B>(a, tokens.front().kind) {
        read_rule(a, tokens, builder, depth)
    } else {
        Ok(())
    }
}

#[cycle(reading)]
#[tactic(auto, using(crate::proofs::Turns::many_is, crate::proofs::Turns::turn_on, crate::proofs::Turns::turn_fails, crate::proofs::Turns::turns_stop, crate::proofs::Turns::turns_done))]
fn read_many<B: Builder>(
    a: &Rule<'_, B::Label, B::Inner>,
    tokens: &mut Tokens<'_>,
    builder: &mut B,
    depth: u32,
) -> Result<(), ReadError<B::Fault>>
    ensures { Gives result (B.built builder.new) tokens.new (read_rule (language B.inside B.act B.judge B.stop) depth (many (rule_of a.now)) ((B.built builder.old), tokens.old)) }
{
    for _ in 0..tokens.left() + 1 {
        if !begins::<B>(a, tokens.front().kind) {
            return Ok(());
        }
        read_rule(a, tokens, builder, depth)?;
    }
    Ok(())
}

#[cycle(reading)]
#[tactic(auto, using(crate::proofs::Depth::nested_full, crate::proofs::Depth::nested_open))]
fn read_nested<B: Builder>(
    begin: Kind,
    first: B::Label,
    inner: B::Inner,
    close: Kind,
    last: B::Label,
    tokens: &mut Tokens<'_>,
    builder: &mut B,
    depth: u32,
) -> Result<(), ReadError<B::Fault>>
    ensures { Gives result (B.built builder.new) tokens.new (read_rule (language B.inside B.act B.judge B.stop) depth (nested begin first inner close last) ((B.built builder.old), tokens.old)) }
{
    if depth == 0 {
        return stop(tokens, builder);
    }
    take_one(tokens, builder, begin, first)?;
    read_rule(B::inside(inner), tokens, builder, depth - 1)?;
    take_one(tokens, builder, close, last)
}

#[tactic(auto, using(crate::proofs::Chained::begins_turn))]
fn begins_turn<B: Builder>(
    a: &Rule<'_, B::Label, B::Inner>,
    o: &Rule<'_, B::Label, B::Inner>,
    label: B::Label,
    kind: Kind,
) -> bool
    ensures { result ≡ begins (language B.inside B.act B.judge B.stop) (rule_of o.now then (rule_of a.now then does label)) kind }
{
    (may_be_empty::<B>(o) && begins::<B>(a, kind)) || begins::<B>(o, kind)
}

#[cycle(reading)]
#[tactic(auto, unfolding(crate::specs::Reading::read_rule))]
fn read_turn<B: Builder>(
    a: &Rule<'_, B::Label, B::Inner>,
    o: &Rule<'_, B::Label, B::Inner>,
    label: B::Label,
    tokens: &mut Tokens<'_>,
    builder: &mut B,
    depth: u32,
) -> Result<(), ReadError<B::Fault>>
    ensures { Gives result (B.built builder.new) tokens.new (read_rule (language B.inside B.act B.judge B.stop) depth (rule_of o.now then (rule_of a.now then does label)) (B.built builder.old, tokens.old)) }
{
    read_rule(o, tokens, builder, depth)?;
    read_rule(a, tokens, builder, depth)?;
    judged(tokens, builder, label)
}

#[cycle(reading)]
#[tactic(auto, using(crate::proofs::Turns::many_is, crate::proofs::Turns::turn_on, crate::proofs::Turns::turn_fails, crate::proofs::Turns::turns_stop, crate::proofs::Turns::turns_done))]
fn read_turns<B: Builder>(
    a: &Rule<'_, B::Label, B::Inner>,
    o: &Rule<'_, B::Label, B::Inner>,
    label: B::Label,
    tokens: &mut Tokens<'_>,
    builder: &mut B,
    depth: u32,
) -> Result<(), ReadError<B::Fault>>
    ensures { Gives result (B.built builder.new) tokens.new (read_rule (language B.inside B.act B.judge B.stop) depth (many (rule_of o.now then (rule_of a.now then does label))) (B.built builder.old, tokens.old)) }
{
    for _ in 0..tokens.left() + 1 {
        if !begins_turn::<B>(a, o, label, tokens.front().kind) {
            return Ok(());
        }
        read_turn(a, o, label, tokens, builder, depth)?;
    }
    Ok(())
}

#[cycle(reading)]
#[tactic(auto, unfolding(crate::specs::Reading::read_rule))]
fn read_chained<B: Builder>(
    a: &Rule<'_, B::Label, B::Inner>,
    o: &Rule<'_, B::Label, B::Inner>,
    label: B::Label,
    tokens: &mut Tokens<'_>,
    builder: &mut B,
    depth: u32,
) -> Result<(), ReadError<B::Fault>>
    ensures { Gives result (B.built builder.new) tokens.new (read_rule (language B.inside B.act B.judge B.stop) depth (chained (rule_of a.now) (rule_of o.now) label) (B.built builder.old, tokens.old)) }
{
    read_rule(a, tokens, builder, depth)?;
    read_turns(a, o, label, tokens, builder, depth)
}

/// Reads by a rule from the front of the tokens, where so many brackets may still open, and builds along it; goes after what was
/// read. Each token is looked at a constant number of times for each part of a rule that may begin there, and the calls
/// nest as deep as the rules and the open brackets do.
#[cycle(reading)]
#[tactic(auto, unfolding(crate::specs::Reading::read_rule))]
pub fn read_rule<B: Builder>(
    rule: &Rule<'_, B::Label, B::Inner>,
    tokens: &mut Tokens<'_>,
    builder: &mut B,
    depth: u32,
) -> Result<(), ReadError<B::Fault>>
    ensures { Gives result (B.built builder.new) tokens.new (read_rule (language B.inside B.act B.judge B.stop) depth (rule_of rule.now) ((B.built builder.old), tokens.old)) }
{
    match rule {
        Rule::One(kind, label) => take_one(tokens, builder, *kind, *label),
        Rule::Does(label) => judged(tokens, builder, *label),
        Rule::Then(a, b) => read_both(a, b, tokens, builder, depth),
        Rule::Or(a, b) => read_either(a, b, tokens, builder, depth),
        Rule::Maybe(a) => read_maybe(a, tokens, builder, depth),
        Rule::Many(a) => read_many(a, tokens, builder, depth),
        Rule::Chained(a, o, l) => read_chained(a, o, *l, tokens, builder, depth),
        Rule::Nested(k, o, r, c, l) => read_nested(*k, *o, *r, *c, *l, tokens, builder, depth),
    }
}

#[tactic(auto, unfolding(crate::specs::Reading::ended))]
fn ended<B: Builder>(
    tokens: &mut Tokens<'_>,
    builder: &mut B,
    end: Kind,
) -> Result<(), ReadError<B::Fault>>
    ensures { Gives result (B.built builder.new) tokens.new (ended (language B.inside B.act B.judge B.stop) end (B.built builder.old, tokens.old)) }
{
    if tokens.is_over() && same_kind(tokens.front().kind, end) {
        Ok(())
    } else {
        stop(tokens, builder)
    }
}

/// Reads a whole text by a rule: nothing may be after it but the end, which is of this kind.
#[tactic(auto, unfolding(crate::specs::Reading::read_whole))]
pub fn read_whole<B: Builder>(
    rule: &Rule<'_, B::Label, B::Inner>,
    tokens: &mut Tokens<'_>,
    builder: &mut B,
    end: Kind,
    depth: u32,
) -> Result<(), ReadError<B::Fault>>
    ensures { Gives result (B.built builder.new) tokens.new (read_whole (language B.inside B.act B.judge B.stop) depth end (rule_of rule.now) (B.built builder.old, tokens.old)) }
{
    read_rule(rule, tokens, builder, depth)?;
    ended(tokens, builder, end)
}
