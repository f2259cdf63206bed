//! Gathering the scopes that an interface inherits.
ghost use Rattle.std.specs.Prelude.{◌≡◌, ◌++◌, ◌∷◌, ◌<◌, [], IfOk, IfErr, OnOk, true};
ghost use Rattle.idl_scopes.specs.Each.{and_each};
ghost use Rattle.idl_scopes.specs.Pieces.{whole_of};
ghost use Rattle.idl_scopes.specs.Inherited.{list_of};

use crate::Inherited;
use crate::marks::{News, news_of};
use crate::pieces::Pieces;
use orb_base::NoMemory;
use std::alloc::Global;

impl Inherited {
    /// No scopes. Takes no memory.
    pub fn new(alloc: Global) -> Inherited
        ensures { list_of result ≡ [] }
    {
        Inherited {
            pieces: Pieces::new(alloc),
            least: usize::MAX,
            most: 0,
        }
    }

    /// All of them in one list.
    pub fn to_vec(&self, alloc: Global) -> Result<Vec<usize>, NoMemory>
        ensures { IfOk result (λ scopes. scopes.items ≡ list_of self.now) }
    {
        let mut scopes = Vec::new(alloc);
        self.pieces.put_behind(&mut scopes)?;
        Ok(scopes)
    }

    /// Those of a scope and of another list that aren't among these. A few steps for each scope of both lists.
    fn news(&self, alloc: Global, scope: usize, other: &Inherited) -> Result<News, NoMemory>
        ensures items { IfOk result (λ n. and_each (list_of self.now) (scope ∷ list_of other.now) ≡ list_of self.now ++ n.items.items) }
        ensures all { IfOk result (λ n. n.all ≡ true → n.items.items ≡ scope ∷ list_of other.now) }
    {
        let before = self.to_vec(alloc)?;
        let mut several = Vec::new(alloc);
        several.push(scope)?;
        other.pieces.put_behind(&mut several)?;
        news_of(alloc, &before, &several)
    }

    /// Whether all scopes of another list are below that scope, and above all of these, and so is that scope.
    fn is_below(&self, scope: usize, other: &Inherited) -> bool
        ensures own { result ≡ true → self.now.most < scope }
        ensures other { result ≡ true → self.now.most < other.now.least }
        ensures scope { result ≡ true → other.now.most < scope }
    {
        self.most < scope && self.most < other.least && other.most < scope
    }

    /// These scopes, and after them all others, which aren't among these.
    fn with_all(&self, alloc: Global, scope: usize, other: &Inherited) -> Result<Pieces, NoMemory>
        ensures { IfOk result (λ p. whole_of p ≡ list_of self.now ++ scope ∷ list_of other.now) }
    {
        let mut pieces = self.pieces.share(alloc)?;
        pieces.join(alloc, scope, &other.pieces)?;
        Ok(pieces)
    }

    /// These scopes, and after them those news. Where they are all, the other list is shared.
    fn with_news(
        &self,
        alloc: Global,
        news: &News,
        scope: usize,
        other: &Inherited,
    ) -> Result<Pieces, NoMemory>
        requires { news.now.all ≡ true → news.now.items.items ≡ scope ∷ list_of other.now }
        ensures { IfOk result (λ p. whole_of p ≡ list_of self.now ++ news.now.items.items) }
    {
        if news.all {
            let whole = self.with_all(alloc, scope, other)?;
            return Ok(whole);
        }
        let mut pieces = self.pieces.share(alloc)?;
        pieces.add(alloc, &news.items)?;
        Ok(pieces)
    }

    /// These scopes, and after them those of a base that aren't among these.
    fn gathered(&self, alloc: Global, scope: usize, other: &Inherited) -> Result<Pieces, NoMemory>
        ensures { IfOk result (λ p. whole_of p ≡ and_each (list_of self.now) (scope ∷ list_of other.now)) }
    {
        if self.is_below(scope, other) {
            let whole = self.with_all(alloc, scope, other)?;
            return Ok(whole);
        }
        let news = self.news(alloc, scope, other)?;
        let pieces = self.with_news(alloc, &news, scope, other)?;
        Ok(pieces)
    }

    /// The scope of a base and those that it inherits, as far as they aren't among these. Where these are below all of those,
    /// and the base's own scope is above them, a step for each 128 scopes of both lists; and else a few steps for each scope
    /// of both, and memory for some of them.
    pub(crate) fn inherit(
        &mut self,
        alloc: Global,
        scope: usize,
        other: &Inherited,
    ) -> Result<(), NoMemory>
        ensures put { OnOk result (list_of self.new ≡ and_each (list_of self.old) (scope ∷ list_of other.now)) }
        ensures kept { IfErr result (λ e. list_of self.new ≡ list_of self.old) }
    {
        let pieces = self.gathered(alloc, scope, other)?;
        *self = Inherited {
            pieces,
            least: self.least.min(other.least).min(scope),
            most: self.most.max(other.most).max(scope),
        };
        Ok(())
    }
}
