//! Looking up scoped names.
ghost use Rattle.std.specs.Prelude.{◌≡◌, ◌∷◌, [], IfOk, Ok};
ghost use Rattle.std.specs.Option.{option_map};
ghost use Rattle.idl_types.specs.Names.{names_in};
ghost use Rattle.servant_scripts.specs.Views.{scoped_of};
ghost use Rattle.script_names.specs.Paths.{around, id_in, path_of};
ghost use Rattle.script_names.specs.Finding as Spec;
ghost use Rattle.script_names.specs.Views.{found_of};
ghost use Rattle.script_names.specs.Contents.{known_of};
ghost use Rattle.script_names.specs.Answers.{Finds, FindsPair};

use crate::error::FindError;
use crate::found::Found;
use crate::inheritance::listed;
use crate::meaning::Meaning;
use crate::names::Names;
use crate::paths::{id_in, path_of};
use orb_base::NoMemory;
use servant_scripts::{Part, ScopedName};

/// What a part has found, or its place.
fn part_found(part: &Part, found: Option<Found>) -> Result<Found, FindError>
    ensures { FindsPair result (Spec.part_found part.now (option_map found_of found)) }
{
    match found {
        Some(found) => Ok(found),
        None => Err(FindError::Unknown(part.at)),
    }
}

impl Names {
    /// What an id stands for.
    fn meaning(&self, id: &[u8]) -> Option<Meaning>
        ensures { result ≡ (known_of self.now).meaning id.now }
    {
        self.meanings.get(id).copied()
    }

    /// A name that is declared in the scope of a path. One hash of its id.
    fn own(&self, name: &[u8], scope: &[u8]) -> Result<Option<Found>, NoMemory>
        ensures { IfOk result (λ o. option_map found_of o ≡ Spec.own (known_of self.now) name.now scope.now) }
    {
        let id = id_in(self.alloc, scope, name)?;
        match self.meaning(id.as_slice()) {
            Some(meaning) => Ok(Some(Found { id, meaning })),
            None => Ok(None),
        }
    }

    /// The first of the interfaces of these ids in which the name is declared tells.
    fn among(&self, name: &[u8], ids: &[Vec<u8>]) -> Result<Option<Found>, NoMemory>
        ensures { IfOk result (λ o. option_map found_of o ≡ Spec.among (known_of self.now) name.now (names_in ids.now)) }
    {
        for id in ids {
            if let Some(found) = self.own(name, path_of(id.as_slice()))? {
                return Ok(Some(found));
            }
        }
        Ok(None)
    }

    /// The name in the bases of the interface of a path.
    fn in_bases(&self, name: &[u8], scope: &[u8]) -> Result<Option<Found>, NoMemory>
        ensures { IfOk result (λ o. option_map found_of o
            ≡ Spec.among (known_of self.now) name.now ((known_of self.now).bases (id_in [] scope.now))) }
    {
        let id = id_in(self.alloc, b"".as_slice(), scope)?;
        self.among(name, listed(&self.bases, id.as_slice()))
    }

    /// The name in a scope, then in the bases of that interface in order.
    fn inside(&self, name: &[u8], scope: &[u8]) -> Result<Option<Found>, NoMemory>
        ensures { IfOk result (λ o. option_map found_of o ≡ Spec.inside (known_of self.now) name.now scope.now) }
    {
        match self.own(name, scope)? {
            Some(found) => Ok(Some(found)),
            None => self.in_bases(name, scope),
        }
    }

    /// The name in the scopes around that of a path, without the file's.
    fn outwards(&self, name: &[u8], scope: &[u8]) -> Result<Option<Found>, NoMemory>
        ensures { IfOk result (λ o. option_map found_of o ≡ Spec.first_inside (known_of self.now) name.now (around scope.now)) }
    {
        let mut rest = scope;
        while let [front @ .., last] = rest {
            if *last == b'/' {
                if let Some(found) = self.inside(name, front)? {
                    return Ok(Some(found));
                }
            }
            rest = front;
        }
        Ok(None)
    }

    /// The name in a scope, then outwards, but not in the file's scope.
    fn within(&self, name: &[u8], scope: &[u8]) -> Result<Option<Found>, NoMemory>
        ensures { IfOk result (λ o. option_map found_of o ≡ Spec.first_inside (known_of self.now) name.now (scope.now ∷ around scope.now)) }
    {
        match self.inside(name, scope)? {
            Some(found) => Ok(Some(found)),
            None => self.outwards(name, scope),
        }
    }

    /// The name in a scope, then outwards, the file's scope last.
    fn looked_up(&self, name: &[u8], scope: &[u8]) -> Result<Option<Found>, NoMemory>
        ensures { IfOk result (λ o. option_map found_of o ≡ Spec.looked_up (known_of self.now) name.now scope.now) }
    {
        match self.within(name, scope)? {
            Some(found) => Ok(Some(found)),
            None => self.own(name, b"".as_slice()),
        }
    }

    /// The first part of a name.
    fn first(&self, rooted: bool, name: &[u8], scope: &[u8]) -> Result<Option<Found>, NoMemory>
        ensures { IfOk result (λ o. option_map found_of o ≡ Spec.first_part (known_of self.now) rooted name.now scope.now) }
    {
        if rooted {
            self.own(name, b"".as_slice())
        } else {
            self.looked_up(name, scope)
        }
    }

    /// The first part of a name, or its place.
    fn first_part(&self, rooted: bool, part: &Part, scope: &[u8]) -> Result<Found, FindError>
        ensures { FindsPair result (Spec.part_found part.now (Spec.first_part (known_of self.now) rooted part.now.name scope.now)) }
    {
        let found = self.first(rooted, part.name.as_slice(), scope)?;
        part_found(part, found)
    }

    /// A further part inside what was found, or its place.
    fn next_part(&self, found: &Found, part: &Part) -> Result<Found, FindError>
        ensures { FindsPair result (Spec.part_found part.now (Spec.inside (known_of self.now) part.now.name (path_of (found_of found.now).0))) }
    {
        let next = self.inside(part.name.as_slice(), path_of(found.id.as_slice()))?;
        part_found(part, next)
    }

    /// The further parts, each inside what those before it have found.
    fn further(&self, found: Found, parts: &[Part]) -> Result<Found, FindError>
        ensures { FindsPair result (Spec.further (known_of self.now) (Ok (found_of found)) parts.now) }
    {
        let mut found = found;
        for part in parts {
            found = self.next_part(&found, part)?;
        }
        Ok(found)
    }

    /// All parts of a name.
    fn all_parts(&self, scope: &[u8], name: &ScopedName) -> Result<Found, FindError>
        ensures { FindsPair result (Spec.all_parts (known_of self.now) scope.now (scoped_of name.now) (scoped_of name.now).parts) }
    {
        match name.parts.as_slice() {
            [] => Err(FindError::Unknown(name.at)),
            [first, rest @ ..] => {
                let found = self.first_part(name.rooted, first, scope)?;
                self.further(found, rest)
            }
        }
    }

    /// What a scoped name means where it is in the interface of an id, which is empty for the file's scope; or the place
    /// of its first part that isn't declared there. A name without parts is unknown where it begins.
    ///
    /// The first part is looked up in the interface's scope, then in its bases in order, then outwards, or after `::` in
    /// the file's scope alone; each further part inside what those before it have found, and in the bases of that. Names
    /// are compared by their spelling. One or two ids are hashed and copied for each scope that is tried.
    pub fn find(&self, interface: &[u8], name: &ScopedName) -> Result<Meaning, FindError>
        ensures { Finds result (Spec.meant (known_of self.now) interface.now (scoped_of name.now)) }
    {
        let found = self.all_parts(path_of(interface), name)?;
        Ok(found.meaning)
    }
}
