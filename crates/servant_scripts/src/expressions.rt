//! What labels do to expressions.
ghost use Rattle.std.specs.Prelude.{◌≡◌, OnOk, IfOk};
ghost use Rattle.idl_tokens.specs.Placed.{seen};
ghost use Rattle.servant_scripts.specs.Drafts as Spec;
ghost use Rattle.servant_scripts.specs.DraftView.{draft_of};
ghost use Rattle.servant_scripts.specs.Views.{said_of, shape_of, joint_of, joint};

use crate::blanks::{no_part, no_place, part_of, phrase, place_of};
use crate::draft::Draft;
use crate::takes::{take_fields, take_list, take_name, take_phrase};
use crate::{Field, Form, Link, Phrase, ScopedName};
use idl_tokens::Token;
use orb_base::NoMemory;
use script_grammar::{Binary, Unary};
use std::alloc::Global;

/// The expression with one more done to it.
#[tactic(auto, using(crate::proofs::Parts::linked))]
fn linked(phrase: Phrase, link: Link) -> Result<Phrase, NoMemory>
    ensures { IfOk result (λ p. said_of p ≡ joint (said_of phrase) (joint_of link)) }
{
    let mut links = phrase.links;
    links.push(link)?;
    Ok(Phrase {
        at: phrase.at,
        form: phrase.form,
        links,
    })
}

/// An operator between two expressions.
fn both(operator: Binary, left: Phrase, right: Phrase) -> Result<Phrase, NoMemory>
    ensures { IfOk result (λ p. said_of p ≡ Spec.both operator (said_of left) (said_of right)) }
{
    linked(left, Link::Binary(operator, right))
}

impl Draft {
    /// Keeps the place of a token.
    pub fn keep(&mut self, token: Token<'_>) -> Result<(), NoMemory>
        ensures { OnOk result (draft_of self.new ≡ Spec.keep (seen token.entry) (draft_of self.old)) }
    {
        self.places.push(place_of(token))
    }

    /// Begins an operator whose operand comes.
    pub fn begin_unary(&mut self, operator: Unary, token: Token<'_>) -> Result<(), NoMemory>
        ensures { OnOk result (draft_of self.new ≡ Spec.begin_unary operator (seen token.entry) (draft_of self.old)) }
    {
        self.places.push(place_of(token))?;
        self.unaries.push(operator)
    }

    /// Puts the newest operator around the newest expression.
    pub fn wrap(&mut self) -> Result<(), NoMemory>
        ensures { OnOk result (draft_of self.new ≡ Spec.wrap (draft_of self.old)) }
    {
        let operand = take_phrase(&mut self.phrases, self.alloc);
        let operator = self.unaries.pop_or(Unary::Group);
        let at = self.places.pop_or(no_place());
        let operand = Box::new(self.alloc, operand)?;
        self.phrases
            .push(phrase(self.alloc, at, Form::Unary(operator, operand)))
    }

    /// Begins an operator after its first operand.
    pub fn begin_binary(&mut self, operator: Binary) -> Result<(), NoMemory>
        ensures { OnOk result (draft_of self.new ≡ Spec.begin_binary operator (draft_of self.old)) }
    {
        self.binaries.push(operator)
    }

    /// Puts the newest operator between the two newest expressions.
    pub fn join(&mut self) -> Result<(), NoMemory>
        ensures { OnOk result (draft_of self.new ≡ Spec.join (draft_of self.old)) }
    {
        let right = take_phrase(&mut self.phrases, self.alloc);
        let left = take_phrase(&mut self.phrases, self.alloc);
        let operator = self.binaries.pop_or(Binary::Or);
        self.phrases.push(both(operator, left, right)?)
    }

    /// Adds an expression of one token.
    pub fn push(&mut self, form: Form, token: Token<'_>) -> Result<(), NoMemory>
        ensures { OnOk result (draft_of self.new ≡ Spec.push (shape_of form) (seen token.entry) (draft_of self.old)) }
    {
        self.phrases.push(phrase(self.alloc, place_of(token), form))
    }

    /// Begins a list of names at a token.
    fn begin_name(&mut self, rooted: bool, token: Token<'_>) -> Result<(), NoMemory>
        ensures { OnOk result (draft_of self.new ≡ Spec.begin_name rooted (seen token.entry) (draft_of self.old)) }
    {
        self.names.push(ScopedName {
            at: place_of(token),
            rooted,
            parts: Vec::new(self.alloc),
        })
    }

    /// Begins a scoped name with `::`.
    pub fn rooted(&mut self, token: Token<'_>) -> Result<(), NoMemory>
        ensures { OnOk result (draft_of self.new ≡ Spec.rooted (seen token.entry) (draft_of self.old)) }
    {
        self.begin_name(true, token)
    }

    /// Begins the parameters of a method.
    pub fn open_names(&mut self, token: Token<'_>) -> Result<(), NoMemory>
        ensures { OnOk result (draft_of self.new ≡ Spec.open_names (seen token.entry) (draft_of self.old)) }
    {
        self.begin_name(false, token)
    }

    /// Begins a scoped name with a part.
    pub fn first_part(&mut self, token: Token<'_>) -> Result<(), NoMemory>
        ensures { OnOk result (draft_of self.new ≡ Spec.first_part (seen token.entry) (draft_of self.old)) }
    {
        let mut parts = Vec::new(self.alloc);
        parts.push(part_of(self.alloc, token)?)?;
        self.names.push(ScopedName {
            at: place_of(token),
            rooted: false,
            parts,
        })
    }

    /// Adds a part to the newest name.
    pub fn next_part(&mut self, token: Token<'_>) -> Result<(), NoMemory>
        ensures { OnOk result (draft_of self.new ≡ Spec.next_part (seen token.entry) (draft_of self.old)) }
    {
        let mut name = take_name(&mut self.names, self.alloc);
        name.parts.push(part_of(self.alloc, token)?)?;
        self.names.push(name)
    }

    /// Makes the newest name an expression.
    pub fn use_name(&mut self) -> Result<(), NoMemory>
        ensures { OnOk result (draft_of self.new ≡ Spec.use_name (draft_of self.old)) }
    {
        let name = take_name(&mut self.names, self.alloc);
        self.phrases
            .push(phrase(self.alloc, name.at, Form::Name(name)))
    }

    /// Takes a member of the newest expression.
    pub fn with_member(&mut self, token: Token<'_>) -> Result<(), NoMemory>
        ensures { OnOk result (draft_of self.new ≡ Spec.with_member (seen token.entry) (draft_of self.old)) }
    {
        let phrase = take_phrase(&mut self.phrases, self.alloc);
        let part = part_of(self.alloc, token)?;
        self.phrases.push(linked(phrase, Link::Member(part))?)
    }

    /// Opens a list.
    pub fn open_list(&mut self, token: Token<'_>) -> Result<(), NoMemory>
        ensures { OnOk result (draft_of self.new ≡ Spec.open_list (seen token.entry) (draft_of self.old)) }
    {
        self.places.push(place_of(token))?;
        self.lists.push(Vec::new(self.alloc))
    }

    /// Puts the newest expression into the newest list.
    pub fn item(&mut self) -> Result<(), NoMemory>
        ensures { OnOk result (draft_of self.new ≡ Spec.item (draft_of self.old)) }
    {
        let phrase = take_phrase(&mut self.phrases, self.alloc);
        let mut list = take_list(&mut self.lists, self.alloc);
        list.push(phrase)?;
        self.lists.push(list)
    }

    /// Makes the newest list an expression.
    pub fn end_list(&mut self) -> Result<(), NoMemory>
        ensures { OnOk result (draft_of self.new ≡ Spec.end_list (draft_of self.old)) }
    {
        let at = self.places.pop_or(no_place());
        let list = take_list(&mut self.lists, self.alloc);
        self.phrases.push(phrase(self.alloc, at, Form::List(list)))
    }

    /// Opens members.
    pub fn open_fields(&mut self) -> Result<(), NoMemory>
        ensures { OnOk result (draft_of self.new ≡ Spec.open_fields (draft_of self.old)) }
    {
        self.fields.push(Vec::new(self.alloc))
    }

    /// Keeps a name whose value or body comes.
    pub fn wait(&mut self, token: Token<'_>) -> Result<(), NoMemory>
        ensures { OnOk result (draft_of self.new ≡ Spec.wait (seen token.entry) (draft_of self.old)) }
    {
        let part = part_of(self.alloc, token)?;
        self.waiting.push(part)
    }

    /// Makes the newest expression the value of the member that waits.
    #[tactic(auto, using(crate::proofs::Parts::entry_is))]
    pub fn end_field(&mut self) -> Result<(), NoMemory>
        ensures { OnOk result (draft_of self.new ≡ Spec.end_field (draft_of self.old)) }
    {
        let name = self.waiting.pop_or(no_part(self.alloc));
        let value = take_phrase(&mut self.phrases, self.alloc);
        let mut fields = take_fields(&mut self.fields, self.alloc);
        fields.push(Field { name, value })?;
        self.fields.push(fields)
    }

    /// Makes the newest members a new struct of the newest name.
    pub fn make(&mut self, token: Token<'_>) -> Result<(), NoMemory>
        ensures { OnOk result (draft_of self.new ≡ Spec.make (seen token.entry) (draft_of self.old)) }
    {
        let at = self.places.pop_or(no_place());
        let name = take_name(&mut self.names, self.alloc);
        let fields = take_fields(&mut self.fields, self.alloc);
        self.phrases.push(phrase(self.alloc, at, Form::New(name, fields, place_of(token))))
    }
}
