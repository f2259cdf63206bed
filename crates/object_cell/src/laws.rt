//! Laws of the machine of one object, over whole histories from an opening on. The bodies are empty: each contract is a law of
//! the definitions.
ghost use Rattle.std.specs.Prelude.{◌≡◌, ◌<◌, ◌≤◌, ◌*◌, ◌/◌, ◌∷◌, ◌++◌, ℕ, Option, length};
ghost use Rattle.turn_cell.specs.Numbers.{Injects, NotFirst};
ghost use Rattle.object_cell.specs.declared.call.ObjectCall.{ObjectCall};
ghost use Rattle.object_cell.specs.declared.call.ObjectCall.TheVariants as call;
ghost use Rattle.object_cell.specs.declared.call.ObjectReply.TheVariants as reply;
ghost use Rattle.object_cell.specs.Machine.{Machine, One, History, IsSound, Opens};
ghost use Rattle.object_cell.specs.Callers.{heir, IsFit};
ghost use Rattle.object_cell.specs.Laws.{IsLegal, AreFit, replay, of, room_of, BeginsWith, Commits, CommitsOn, last_value, ComeInTurn};

use crate::staging::Staging;

/// A caller that keeps to what it may call meets what each call needs, whatever the others do.
pub fn fit_is_sound<S: Staging>()
    ensures { (x : Machine S S.State) (h : History S S.State) (n : ℕ) (c : ObjectCall S.State) → Opens S.zero x → IsLegal S.staged x h
        → AreFit S.staged x h → IsFit S.staged x n (of n h) c → IsSound S.staged (replay x h) c }
{}

/// Each seat of an object is the heir of one, and the first seat of none.
#[tactic(auto, using(crate::specs::Held::one_parent_of, crate::specs::Held::never_first_of))]
pub fn seats_are_one_tree()
    ensures one_parent { Injects heir }
    ensures never_first { NotFirst heir }
{}

/// A history is no longer than twice the jobs that all slots may run, and shorter where a call may still be made. Where each
/// slot may run an equal part of so many jobs, twice that number is room enough.
#[tactic(auto, using(crate::proofs::Rooms::is_long_enough, crate::proofs::Rooms::has_room_for, crate::proofs::Rooms::has_room_in))]
pub fn entries_suffice<S: Staging>()
    ensures all { (x : Machine S S.State) (h : History S S.State) → IsLegal S.staged x h → AreFit S.staged x h
        → length h ≤ room_of x }
    ensures more { (x : Machine S S.State) (h : History S S.State) (n : ℕ) (c : ObjectCall S.State) → IsLegal S.staged x h
        → AreFit S.staged x h → IsFit S.staged x n (of n h) c → length h < room_of x }
    ensures parted { (x : Machine S S.State) (h : History S S.State) (n : ℕ) (c : ObjectCall S.State) (jobs : ℕ)
        → x.share ≡ jobs / x.slots → IsLegal S.staged x h → AreFit S.staged x h → IsFit S.staged x n (of n h) c → length h < 2 * jobs }
{}

/// The first call is a Begin, which is answered the value that the object opened with. What follows a Begin is its caller's
/// Commit of what a job came to on the value that the Begin was answered, and what follows a Commit is a Begin, which is answered
/// the Commit's value.
#[tactic(auto, using(crate::proofs::Turns::first_begins))]
pub fn commits_follow_begins<S: Staging>()
    ensures first { (x : Machine S S.State) (e : One S S.State) (after : History S S.State) → Opens S.zero x
        → IsLegal S.staged x (e ∷ after) → BeginsWith (S.zero x.staging x.interface) e }
    ensures commit { (x : Machine S S.State) (before after : History S S.State) (e d : One S S.State) (by : ℕ) (was : Option S.State)
        → IsLegal S.staged x (before ++ e ∷ d ∷ after) → e.call ≡ call.Begin by → e.reply ≡ reply.Value was
        → CommitsOn S.staged x by was d }
    ensures begin { (x : Machine S S.State) (before after : History S S.State) (e d : One S S.State) (value : Option S.State)
        → IsLegal S.staged x (before ++ e ∷ d ∷ after) → Commits value e → BeginsWith value d }
{}

/// Jobs come one after another: each Commit is of what its job came to on the value of the Commit before it, and the first on the
/// value that the object opened with. The object's value is that of the last Commit.
#[tactic(auto, using(crate::proofs::Turns::come_in_turn, crate::proofs::Turns::last_is))]
pub fn jobs_come_in_turn<S: Staging>()
    ensures each { (x : Machine S S.State) (h : History S S.State) → Opens S.zero x → IsLegal S.staged x h
        → ComeInTurn S.staged x (S.zero x.staging x.interface) h }
    ensures last { (x : Machine S S.State) (h : History S S.State) → (replay x h).value ≡ last_value x.value h }
{}
