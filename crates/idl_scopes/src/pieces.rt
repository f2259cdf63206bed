//! A list of scopes in pieces, of which long ones are shared.
ghost use Rattle.std.specs.Prelude.{◌≡◌, ◌++◌, ◌∷◌, [], IfOk, OnOk, length, true};
ghost use Rattle.idl_scopes.specs.Pieces.{in_parts, whole_of};

use orb_base::{Arc, NoMemory};
use std::alloc::Global;
use std::mem;

/// So many scopes at an end of a list are its own, before they become a part that it shares with others.
const MOST_OWN: usize = 128;

/// A list that begins or ends with another one shares its parts, so that many interfaces which inherit from one another
/// take little memory.
#[derive(Drop)]
pub(crate) struct Pieces {
    pub front: Vec<usize>,
    pub parts: Vec<Arc<Vec<usize>>>,
    pub back: Vec<usize>,
}

/// Puts shares of these parts after others.
fn share_parts(into: &mut Vec<Arc<Vec<usize>>>, parts: &[Arc<Vec<usize>>]) -> Result<(), NoMemory>
    ensures { OnOk result (in_parts into.new.items ≡ in_parts into.old.items ++ in_parts parts.now) }
{
    for part in parts {
        into.push(part.share()?)?;
    }
    Ok(())
}

/// Makes scopes that are a list's own a part after others.
fn seal(
    alloc: Global,
    own: &mut Vec<usize>,
    parts: &mut Vec<Arc<Vec<usize>>>,
) -> Result<(), NoMemory>
    ensures own { OnOk result (own.new.items ≡ []) }
    ensures parts { OnOk result (in_parts parts.new.items ≡ in_parts parts.old.items ++ own.old.items) }
{
    let Ok(part) = Arc::new(alloc, mem::replace(own, Vec::new(alloc))) else {
        return Err(NoMemory);
    };
    parts.push(part)?;
    Ok(())
}

impl Pieces {
    /// No scopes. Takes no memory.
    pub(crate) fn new(alloc: Global) -> Pieces
        ensures { whole_of result ≡ [] }
    {
        Pieces {
            front: Vec::new(alloc),
            parts: Vec::new(alloc),
            back: Vec::new(alloc),
        }
    }

    /// Whether there are no scopes, as far as that is seen without a look into the parts.
    pub(crate) fn is_none(&self) -> bool
        ensures { result ≡ true → whole_of self.now ≡ [] }
    {
        self.front.is_empty() && self.parts.is_empty() && self.back.is_empty()
    }

    /// The same list, which shares its parts.
    pub(crate) fn share(&self, alloc: Global) -> Result<Pieces, NoMemory>
        ensures { IfOk result (λ p. whole_of p ≡ whole_of self.now) }
    {
        let front = Vec::from_slice(alloc, &self.front)?;
        let mut parts = Vec::new(alloc);
        share_parts(&mut parts, &self.parts)?;
        let back = Vec::from_slice(alloc, &self.back)?;
        Ok(Pieces { front, parts, back })
    }

    /// Puts them after others.
    pub(crate) fn put_behind(&self, scopes: &mut Vec<usize>) -> Result<(), NoMemory>
        ensures { OnOk result (scopes.new.items ≡ scopes.old.items ++ whole_of self.now) }
    {
        scopes.extend_from_slice(&self.front)?;
        for part in &self.parts {
            scopes.extend_from_slice(part.get())?;
        }
        scopes.extend_from_slice(&self.back)?;
        Ok(())
    }

    /// A scope and those of another list, before which there is no part.
    fn join_front(&mut self, alloc: Global, scope: usize, other: &Pieces) -> Result<(), NoMemory>
        requires { length self.old.parts.items ≡ 0 }
        ensures { OnOk result (whole_of self.new ≡ whole_of self.old ++ scope ∷ whole_of other.now) }
    {
        self.front.extend_from_slice(&self.back)?;
        self.front.push(scope)?;
        self.front.extend_from_slice(&other.front)?;
        if MOST_OWN < self.front.len() {
            seal(alloc, &mut self.front, &mut self.parts)?;
        }
        share_parts(&mut self.parts, &other.parts)?;
        self.back = Vec::from_slice(alloc, &other.back)?;
        Ok(())
    }

    /// The same after parts.
    fn join_back(&mut self, alloc: Global, scope: usize, other: &Pieces) -> Result<(), NoMemory>
        ensures { OnOk result (whole_of self.new ≡ whole_of self.old ++ scope ∷ whole_of other.now) }
    {
        self.back.push(scope)?;
        self.back.extend_from_slice(&other.front)?;
        if MOST_OWN < self.back.len() || !other.parts.is_empty() {
            seal(alloc, &mut self.back, &mut self.parts)?;
        }
        share_parts(&mut self.parts, &other.parts)?;
        self.back.extend_from_slice(&other.back)?;
        Ok(())
    }

    /// A scope and those of another list, all of them after these.
    pub(crate) fn join(
        &mut self,
        alloc: Global,
        scope: usize,
        other: &Pieces,
    ) -> Result<(), NoMemory>
        ensures { OnOk result (whole_of self.new ≡ whole_of self.old ++ scope ∷ whole_of other.now) }
    {
        if self.parts.is_empty() {
            return self.join_front(alloc, scope, other);
        }
        self.join_back(alloc, scope, other)
    }

    /// These scopes after them.
    pub(crate) fn add(&mut self, alloc: Global, scopes: &[usize]) -> Result<(), NoMemory>
        ensures { OnOk result (whole_of self.new ≡ whole_of self.old ++ scopes.now) }
    {
        self.back.extend_from_slice(scopes)?;
        if MOST_OWN < self.back.len() {
            seal(alloc, &mut self.back, &mut self.parts)?;
        }
        Ok(())
    }
}
