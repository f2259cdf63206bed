//! How declarations begin and end.
ghost use Rattle.std.specs.Prelude.{◌≡◌};
ghost use Rattle.grammar.specs.Gives.{Acts};
ghost use Rattle.idl_tokens.specs.Placed.{seen};
ghost use Rattle.idl_scopes.specs.Declarations.{sort_of};
ghost use Rattle.idl_names.specs.Changes as Spec;
ghost use Rattle.idl_names.specs.Memory.{HadMemory};
ghost use Rattle.idl_names.specs.Views.{built_of, sized_of, thing_of};

use crate::sizes::SizedType;
use crate::state::{Names, Parts, Thing};
use grammar::ReadError;
use idl_grammar::{IdlCause, IdlFault};
use idl_scopes::{DeclareFault, Place, Sort};
use idl_tokens::Token;
use orb_base::NoMemory;

/// What a step answers.
pub(crate) type Done = Result<(), ReadError<IdlFault>>;

/// Where a token begins.
pub(crate) fn place_of(token: Token<'_>) -> Place
    ensures { result ≡ Spec.place_of (seen token.entry) }
{
    Place {
        line: token.line,
        column: token.column,
    }
}

/// A cause at a place.
pub(crate) fn fault(cause: IdlCause, place: Place) -> IdlFault
    ensures { result ≡ Spec.fault cause place }
{
    IdlFault {
        cause,
        line: place.line,
        column: place.column,
    }
}

/// Out of memory as the reader's.
pub(crate) fn with_memory<T>(done: Result<T, NoMemory>) -> Result<T, ReadError<IdlFault>>
    ensures { HadMemory done result }
{
    match done {
        Ok(value) => Ok(value),
        Err(_) => Err(ReadError::NoMemory),
    }
}

impl Names {
    /// One thing more.
    pub(crate) fn add_thing(&mut self, thing: Thing) -> Done
        ensures { Acts result (built_of self.new) (Spec.with_thing (thing_of thing) (built_of self.old)) }
    {
        match self.things.push(thing) {
            Ok(()) => Ok(()),
            Err(_) => Err(ReadError::NoMemory),
        }
    }

    /// A name is declared in a scope, unless it is taken there.
    pub(crate) fn declare_in(
        &mut self,
        scope: usize,
        sort: Sort,
        thing: Thing,
        token: Token<'_>,
    ) -> Done
        ensures { Acts result (built_of self.new) (Spec.declare_in scope (sort_of sort) (thing_of thing) (seen token.entry) (built_of self.old)) }
    {
        match self
            .scopes
            .declare(token.text, scope, place_of(token), sort)
        {
            Ok(()) => self.add_thing(thing),
            Err(DeclareFault::Clash) => Err(ReadError::Refused(fault(
                IdlCause::Clash,
                place_of(token),
            ))),
            Err(DeclareFault::NoMemory) => Err(ReadError::NoMemory),
        }
    }

    /// A name is declared here, whose declaration goes on.
    pub(crate) fn declare(&mut self, token: Token<'_>) -> Done
        ensures { Acts result (built_of self.new) (Spec.declare (seen token.entry) (built_of self.old)) }
    {
        self.declare_in(self.here, Sort::Unfinished, Thing::Nothing, token)
    }

    /// The newest name's body opens.
    pub(crate) fn enter(&mut self)
        ensures { built_of self.new ≡ Spec.entered (built_of self.old) }
    {
        self.here = self.scopes.len();
    }

    /// A name is declared here, and its body opens.
    pub(crate) fn open(&mut self, token: Token<'_>) -> Done
        ensures { Acts result (built_of self.new) (Spec.open_body (seen token.entry) (built_of self.old)) }
    {
        self.declare(token)?;
        self.enter();
        Ok(())
    }

    /// What a declaration stands for, from now on.
    #[tactic(auto, using(crate::proofs::ChangedThings::becomes, crate::proofs::ChangedThings::stays))]
    pub(crate) fn set_thing(&mut self, at: usize, thing: Thing)
        ensures { built_of self.new ≡ Spec.set_thing at (thing_of thing) (built_of self.old) }
    {
        if at < self.things.len() {
            self.things[at] = thing;
        }
    }

    /// The declaration at a place becomes a thing.
    pub(crate) fn finish(&mut self, at: usize, sort: Sort, thing: Thing)
        ensures { built_of self.new ≡ Spec.become at (sort_of sort) (thing_of thing) (built_of self.old) }
    {
        self.scopes.finish(at, sort);
        self.set_thing(at, thing);
    }

    /// The body ends.
    pub(crate) fn leave(&mut self)
        ensures { built_of self.new ≡ Spec.leave (built_of self.old) }
    {
        self.here = self.scopes.outer(self.here);
        self.parts = Parts::new(self.alloc);
    }

    /// The newest declaration.
    pub(crate) fn newest(&self) -> usize
        ensures { result ≡ Spec.newest (built_of self.now) }
    {
        self.scopes.len().saturating_sub(1)
    }

    /// The declaration whose body is open.
    pub(crate) fn opened(&self) -> usize
        ensures { result ≡ Spec.opened (built_of self.now) }
    {
        self.here.saturating_sub(1)
    }

    /// Where the name of the newest declaration is.
    pub(crate) fn newest_place(&self) -> Place
        ensures { result ≡ Spec.place_at (built_of self.now) (Spec.newest (built_of self.now)) }
    {
        self.scopes.place_at(self.newest())
    }

    /// Where the name of the declaration is whose body is open.
    pub(crate) fn opened_place(&self) -> Place
        ensures { result ≡ Spec.place_at (built_of self.now) (Spec.opened (built_of self.now)) }
    {
        self.scopes.place_at(self.opened())
    }

    /// The body ends, and with it what it was the body of.
    pub(crate) fn end(&mut self, sort: Sort, thing: Thing)
        ensures { built_of self.new ≡ Spec.ended (sort_of sort) (thing_of thing) (built_of self.old) }
    {
        self.finish(self.opened(), sort, thing);
        self.leave();
    }

    /// So many leaves more, at most 1,048,576 a file.
    pub(crate) fn count(&mut self, leaves: u32, place: Place) -> Done
        ensures { Acts result (built_of self.new) (Spec.counted leaves place (built_of self.old)) }
    {
        let leaves = u64::from(self.leaves) + u64::from(leaves);
        if 1_048_576 < leaves {
            return Err(ReadError::Refused(fault(IdlCause::TooLarge, place)));
        }
        self.leaves = leaves as u32;
        Ok(())
    }

    /// A type isn't too large.
    pub(crate) fn measure(&self, kind: &SizedType, place: Place) -> Done
        ensures { Acts result (built_of self.now) (Spec.measured (sized_of kind.now) place (built_of self.now)) }
    {
        if kind.is_large() {
            return Err(ReadError::Refused(fault(IdlCause::TooLarge, place)));
        }
        Ok(())
    }
}
