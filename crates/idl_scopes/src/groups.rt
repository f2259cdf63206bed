//! Numbers that are kept by keys.
ghost use Rattle.std.specs.Prelude.{◌≡◌, ◌<◌, ◌≤◌, ℕ, [], length, OnOk, Some, true};
ghost use Rattle.indexmap.specs.IndexMap.{get};
ghost use Rattle.idl_scopes.specs.Bases.{holds};
ghost use Rattle.idl_scopes.specs.Groups.{listed, numbers_of};

use indexmap::IndexMap;
use orb_base::NoMemory;
use std::alloc::Global;
use std::hash::Hash;

const NONE: [usize; 0] = [];

/// Numbers by keys, those of one key in the order in which they came.
#[derive(Drop)]
pub(crate) struct Groups<K: Eq + Hash + Drop> {
    numbered: IndexMap<K, usize>,
    lists: Vec<Vec<usize>>,
}

/// The list at a place; after the last one none.
fn list_at(lists: &[Vec<usize>], at: usize) -> &[usize]
    ensures { result.now ≡ listed lists.now (Some at) }
{
    match lists.get(at) {
        Some(list) => list.as_slice(),
        None => NONE.as_slice(),
    }
}

impl<K: Eq + Hash + Drop> Groups<K> {
    /// No numbers. Takes no memory.
    pub(crate) fn new(alloc: Global) -> Groups<K> {
        Groups {
            numbered: IndexMap::new(alloc),
            lists: Vec::new(alloc),
        }
    }

    /// The numbers of a key. Costs a hash.
    pub(crate) fn of(&self, key: &K) -> &[usize]
        ensures { result.now ≡ numbers_of K.eq self.now key.now }
    {
        match self.numbered.get(key) {
            Some(at) => list_at(&self.lists, *at),
            None => NONE.as_slice(),
        }
    }

    /// The place of a key's list; after the last list where it has none. Costs a hash.
    fn place_of(&self, key: &K) -> usize
        ensures found { result < length self.now.lists.items → get K.eq self.now.numbered key.now ≡ Some result }
        ensures none { length self.now.lists.items ≤ result → numbers_of K.eq self.now key.now ≡ [] }
    {
        match self.numbered.get(key) {
            Some(at) => *at,
            None => self.lists.len(),
        }
    }

    /// The first number of a key that has none.
    fn begin(&mut self, alloc: Global, key: K, number: usize) -> Result<(), NoMemory>
        requires { numbers_of K.eq self.old key ≡ [] }
        ensures kept { (k : K) (n : ℕ) → holds (numbers_of K.eq self.old k) n ≡ true → holds (numbers_of K.eq self.new k) n ≡ true }
        ensures put { OnOk result (holds (numbers_of K.eq self.new key) number ≡ true) }
    {
        let at = self.lists.len();
        let mut list = Vec::new(alloc);
        list.push(number)?;
        self.lists.push(list)?;
        self.numbered.insert(key, at)?;
        Ok(())
    }

    /// One more number of a key; no number is lost, also where there is no memory. Costs a hash.
    pub(crate) fn add(&mut self, alloc: Global, key: K, number: usize) -> Result<(), NoMemory>
        ensures kept { (k : K) (n : ℕ) → holds (numbers_of K.eq self.old k) n ≡ true → holds (numbers_of K.eq self.new k) n ≡ true }
        ensures put { OnOk result (holds (numbers_of K.eq self.new key) number ≡ true) }
    {
        let at = self.place_of(&key);
        if self.lists.len() <= at {
            return self.begin(alloc, key, number);
        }
        self.lists[at].push(number)?;
        Ok(())
    }
}
