//! Laws of flat seats and of histories, for any object. The bodies are empty: each contract is a law of the definitions.
ghost use Rattle.std.specs.Prelude.{◌≡◌, ◌≢◌, ◌<◌, ◌≤◌, ◌+◌, ◌*◌, ◌∷◌, ◌++◌, ℕ, true, List, [], length};
ghost use Rattle.flat_seats.specs.Bounded.{AreAmong, HaveAtMost};
ghost use Rattle.flat_seats.specs.Flat.{flat};
ghost use Rattle.turn_cell.specs.declared.entry.Entry.{Entry};
ghost use Rattle.turn_cell.specs.History.{of, replay, Legal};
ghost use Rattle.turn_cell.specs.Numbers.{Injects, NotFirst};

use turn_cell::Object;

/// Where only the first seat has heirs, each seat is the heir of one, and the first seat of none.
#[tactic(auto, using(crate::proofs::OneTree::flat_injects, crate::proofs::OneTree::flat_not_first))]
pub fn flat_seats_are_one_tree()
    ensures one_parent { (most : ℕ) → Injects (flat most) }
    ensures never_first { (most : ℕ) → NotFirst (flat most) }
{}

/// A caller's own entries get one more by an entry of its own, and stay as they are by another caller's.
#[tactic(auto, using(crate::proofs::Own::of_mine, crate::proofs::Own::of_other))]
pub fn own_entries_in_order<O: Object>()
    ensures mine { (n : ℕ) (h : List (Entry O O.Call O.Reply)) (e : Entry O O.Call O.Reply) → e.caller ≡ n
        → of n (h ++ e ∷ []) ≡ of n h ++ e ∷ [] }
    ensures other { (n : ℕ) (h : List (Entry O O.Call O.Reply)) (e : Entry O O.Call O.Reply) → e.caller ≢ n
        → of n (h ++ e ∷ []) ≡ of n h }
{}

/// A history of k callers with at most m entries each has no more than k * m entries, and fewer where one of them has fewer.
#[tactic(auto, using(crate::proofs::Bounds::no_more, crate::proofs::Bounds::has_room))]
pub fn bounded_callers_leave_room<O: Object>()
    ensures all { (first k m : ℕ) (h : List (Entry O O.Call O.Reply)) → AreAmong first k h → HaveAtMost m h → length h ≤ k * m }
    ensures more { (first k m n : ℕ) (h : List (Entry O O.Call O.Reply)) → AreAmong first k h → HaveAtMost m h
        → first ≤ n → n < first + k → length (of n h) < m → length h < k * m }
{}

/// What comes before a place of a legal history is legal too, and the call of that place was ready, sound and answered by its
/// step there.
#[tactic(auto, using(crate::proofs::Along::legal_prefix, crate::proofs::Along::ready_at, crate::proofs::Along::sound_at, crate::proofs::Along::answered_at))]
pub fn legal_at_each_place<O: Object>()
    ensures prefix { (x : O) (before after : List (Entry O O.Call O.Reply)) → Legal O.ready O.sound O.step x (before ++ after)
        → Legal O.ready O.sound O.step x before }
    ensures ready { (x : O) (before after : List (Entry O O.Call O.Reply)) (e : Entry O O.Call O.Reply)
        → Legal O.ready O.sound O.step x (before ++ e ∷ after) → O.ready (replay O.step x before) e.call ≡ true }
    ensures sound { (x : O) (before after : List (Entry O O.Call O.Reply)) (e : Entry O O.Call O.Reply)
        → Legal O.ready O.sound O.step x (before ++ e ∷ after) → O.sound (replay O.step x before) e.call }
    ensures answered { (x : O) (before after : List (Entry O O.Call O.Reply)) (e : Entry O O.Call O.Reply)
        → Legal O.ready O.sound O.step x (before ++ e ∷ after) → e.reply ≡ (O.step (replay O.step x before) e.call).1 }
{}
