//! What bases lead to: a walk from place to lower place, in which none is followed twice.
ghost use Rattle.std.specs.Prelude.{◌≡◌, true, ℕ, ◌+◌, ◌<◌, ◌||◌, ◌↔◌, IsTrue, length};
ghost use Rattle.std.specs.List.{list_any};
ghost use Rattle.idl_types.specs.Finding.{object_id, is_interface, Descends, IsA};
ghost use Rattle.idl_types.specs.Bases.{is_place, is_base_at};
ghost use Rattle.idl_types.specs.Marked.{is_marked};
ghost use Rattle.idl_types.specs.Walk.{Reached, Walked};
ghost use Rattle.idl_types.specs.Contents.{things_of};

use crate::marks::Marks;
use crate::repository::Repository;
use orb_base::Text;

impl Repository {
    /// Whether the interface of the first id is an interface of the other: itself, one that bases lead to, or
    /// `IDL:omg.org/CORBA/Object:1.0`, which every interface is. False where the first isn't there. Follows no base
    /// twice. Takes no memory.
    pub fn is_a(&self, id: &[u8], base: &[u8]) -> bool
        ensures { IsTrue result ↔ IsA (things_of self.now) id.now base.now }
    {
        if !self.has_interface(id) {
            return false;
        }
        if is_object(base) {
            return true;
        }
        self.descends(id, base)
    }

    /// Whether there is an interface of an id.
    pub(crate) fn has_interface(&self, id: &[u8]) -> bool
        ensures { result ≡ is_interface (things_of self.now) id.now }
    {
        self.interface(id).is_some()
    }

    /// Whether bases lead from one interface to the other.
    fn descends(&self, id: &[u8], base: &[u8]) -> bool
        requires { IsTrue (is_interface (things_of self.now) id.now) }
        ensures { IsTrue result ↔ Descends (things_of self.now) id.now base.now }
    {
        match self.place_of(id) {
            Some(from) => match self.place_of(base) {
                Some(to) => self.leads(from, to),
                None => false,
            },
            None => false,
        }
    }

    /// Whether bases lead from one place to the other.
    fn leads(&self, from: usize, to: usize) -> bool
        requires within { (from < 524288) × (to < 524288) }
        ensures { (result ≡ true) ↔ Reached (is_base_at (things_of self.now)) from to }
    {
        let mut marks = Marks::none();
        marks.put(from);
        let mut at = from + 1;
        while to + 1 < at {
            at -= 1;
            self.follow(at, &mut marks);
        }
        marks.has(to)
    }

    /// Marks the bases of the thing at a place that is marked.
    fn follow(&self, at: usize, marks: &mut Marks)
        requires { at < 524288 }
        ensures { (start : ℕ) → Walked (is_base_at (things_of self.now)) start (at + 1) (is_marked marks.old.words)
            → Walked (is_base_at (things_of self.now)) start at (is_marked marks.new.words) }
    {
        if marks.has(at) {
            self.mark_bases(at, marks);
        }
    }

    /// Marks the bases of the thing at a place.
    fn mark_bases(&self, at: usize, marks: &mut Marks)
        ensures { (k : ℕ) → is_marked marks.new.words k ≡ (is_marked marks.old.words k || is_base_at (things_of self.now) at k) }
    {
        if let Some(declaration) = self.nth(at) {
            self.mark_all(declaration.bases(), marks);
        }
    }

    /// Marks the places of ids.
    fn mark_all(&self, ids: &[Text], marks: &mut Marks)
        ensures { (k : ℕ) → is_marked marks.new.words k ≡ (is_marked marks.old.words k || list_any (is_place (things_of self.now) k) ids.now) }
    {
        for id in ids {
            self.mark(id.as_slice(), marks);
        }
    }

    /// Marks the place of an id, where it has one.
    fn mark(&self, id: &[u8], marks: &mut Marks)
        ensures { (k : ℕ) → is_marked marks.new.words k ≡ (is_place (things_of self.now) k id.now || is_marked marks.old.words k) }
    {
        if let Some(place) = self.place_of(id) {
            marks.put(place);
        }
    }
}

/// Whether an id is that of every interface.
fn is_object(id: &[u8]) -> bool
    ensures { IsTrue result ↔ (id.now ≡ object_id) }
{
    id == b"IDL:omg.org/CORBA/Object:1.0".as_slice()
}
