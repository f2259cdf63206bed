//! What stacks of trees give and take, as the trees that contracts see.
ghost use Rattle.std.specs.Prelude.{◌≡◌, [], ◌∷◌, map, OnOk};
ghost use Rattle.idl_tokens.specs.Stream.{first_or, rest_of};
ghost use Rattle.servant_scripts.specs.Drafts as Spec;
ghost use Rattle.servant_scripts.specs.Views.{scoped_of, said_of, saids_view, entries_view, says_view};

use crate::blanks::{no_name, no_phrase};
use crate::stack::Stack;
use crate::{Field, Line, Phrase, ScopedName};
use orb_base::NoMemory;
use std::alloc::Global;

/// Takes the newest expression.
#[tactic(auto, using(crate::proofs::Stacks::first_map, crate::proofs::Stacks::rest_map))]
pub fn take_phrase(phrases: &mut Stack<Phrase>, alloc: Global) -> Phrase
    ensures value { said_of result ≡ first_or (map said_of phrases.old) Spec.no_phrase }
    ensures rest { map said_of phrases.new ≡ rest_of (map said_of phrases.old) }
{
    phrases.pop_or(no_phrase(alloc))
}

/// Takes the newest scoped name.
#[tactic(auto, using(crate::proofs::Stacks::first_map, crate::proofs::Stacks::rest_map))]
pub fn take_name(names: &mut Stack<ScopedName>, alloc: Global) -> ScopedName
    ensures value { scoped_of result ≡ first_or (map scoped_of names.old) Spec.no_name }
    ensures rest { map scoped_of names.new ≡ rest_of (map scoped_of names.old) }
{
    names.pop_or(no_name(alloc))
}

/// Takes the newest list.
#[tactic(auto, using(crate::proofs::Stacks::first_map, crate::proofs::Stacks::rest_map))]
pub fn take_list(lists: &mut Stack<Vec<Phrase>>, alloc: Global) -> Vec<Phrase>
    ensures value { saids_view result ≡ first_or (map saids_view lists.old) [] }
    ensures rest { map saids_view lists.new ≡ rest_of (map saids_view lists.old) }
{
    lists.pop_or(Vec::new(alloc))
}

/// Takes the newest members.
#[tactic(auto, using(crate::proofs::Stacks::first_map, crate::proofs::Stacks::rest_map))]
pub fn take_fields(fields: &mut Stack<Vec<Field>>, alloc: Global) -> Vec<Field>
    ensures value { entries_view result ≡ first_or (map entries_view fields.old) [] }
    ensures rest { map entries_view fields.new ≡ rest_of (map entries_view fields.old) }
{
    fields.pop_or(Vec::new(alloc))
}

/// Takes the newest block.
#[tactic(auto, using(crate::proofs::Stacks::first_map, crate::proofs::Stacks::rest_map))]
pub fn take_block(blocks: &mut Stack<Vec<Line>>, alloc: Global) -> Vec<Line>
    ensures value { says_view result ≡ first_or (map says_view blocks.old) [] }
    ensures rest { map says_view blocks.new ≡ rest_of (map says_view blocks.old) }
{
    blocks.pop_or(Vec::new(alloc))
}
