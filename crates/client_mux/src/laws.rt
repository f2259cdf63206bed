//! Laws of the link machine, over whole histories from an opening on. The bodies are empty: each contract is a law of the
//! definitions.
ghost use Rattle.std.specs.Prelude.{◌≡◌, ◌<◌, ◌≤◌, ◌∷◌, ◌++◌, ℕ, true, false, Some, None, length};
ghost use Rattle.giop_messages.specs.Message.{Request};
ghost use Rattle.client_mux.specs.declared.heard_reply.HeardReply.{HeardReply};
ghost use Rattle.turn_cell.specs.Numbers.{Injects, NotFirst};
ghost use Rattle.client_mux.specs.declared.limits.TheConstants.{MAX_CALLERS, MAX_CALLS, MAX_SENDS, MAX_ENTRIES};
ghost use Rattle.client_mux.specs.declared.why.Why.{Why};
ghost use Rattle.client_mux.specs.declared.call.MuxCall.{MuxCall};
ghost use Rattle.client_mux.specs.declared.call.MuxCall.TheVariants as call;
ghost use Rattle.client_mux.specs.declared.call.MuxReply.TheVariants as reply;
ghost use Rattle.client_mux.specs.Machine.{Mux, One, History, IsSound, Opens};
ghost use Rattle.client_mux.specs.Callers.{heir, IsFit, of, owns};
ghost use Rattle.client_mux.specs.Exchange.{IsLegal, AreFit, replay, begun, first_loss, reply_after_start};

/// A caller that keeps to what its seat may call meets what each call needs, whatever the others do.
#[tactic(auto, using(crate::specs::SeatLaws::enough))]
pub fn fit_is_sound()
    ensures { (x : Mux) (h : History) (n : ℕ) (c : MuxCall) → Opens x → IsLegal x h → AreFit x h
        → IsFit x n (of n h) c → IsSound (replay x h) c }
{}

/// Each seat of a link is the heir of one, and the first seat of none.
#[tactic(auto, using(crate::specs::SeatHeirs::one_parent_of, crate::specs::SeatHeirs::never_first_of))]
pub fn seats_are_one_tree()
    ensures one_parent { Injects heir }
    ensures never_first { NotFirst heir }
{}

/// A history is no longer than its room, and shorter where a call may still be made.
#[tactic(auto, using(crate::proofs::Length::is_long_enough, crate::proofs::Length::has_room))]
pub fn entries_suffice()
    ensures all { (x : Mux) (h : History) → Opens x → IsLegal x h → AreFit x h → length h ≤ MAX_ENTRIES }
    ensures more { (x : Mux) (h : History) (n : ℕ) (c : MuxCall) → Opens x → IsLegal x h → AreFit x h
        → IsFit x n (of n h) c → length h < MAX_ENTRIES }
{}

/// A caller that gets a reply gets the first that arrived after the Start of its id, and one that is answered that the link is
/// gone has no reply there. What arrived of an id before its Start is stray. No id is given twice, and none is two callers' own.
#[tactic(auto, using(crate::proofs::FirstReply::own_reply, crate::proofs::FirstReply::gone_has_none, crate::proofs::FirstReply::after_stays, crate::proofs::FirstReply::early_is_stray, crate::proofs::FirstReply::new_id, crate::specs::SeatLaws::one_owner))]
pub fn own_reply_is_first()
    ensures first { (x : Mux) (before after : History) (e : One) (by id : ℕ) (r : HeardReply) → Opens x → IsLegal x (before ++ e ∷ after)
        → e.call ≡ call.Await by id → e.reply ≡ reply.Reply r → reply_after_start id before ≡ Some r }
    ensures stays { (id : ℕ) (r : HeardReply) (before more : History) → reply_after_start id before ≡ Some r
        → reply_after_start id (before ++ more) ≡ Some r }
    ensures none { (x : Mux) (before after : History) (e : One) (by id : ℕ) (why : Why) → Opens x → IsLegal x (before ++ e ∷ after)
        → e.call ≡ call.Await by id → e.reply ≡ reply.Gone why → reply_after_start id before ≡ None }
    ensures stray { (x : Mux) (before after : History) (e : One) (id : ℕ) (r : HeardReply) → Opens x → IsLegal x (before ++ e ∷ after)
        → e.call ≡ call.Arrived id r → begun id before ≡ false → e.reply ≡ reply.Stray }
    ensures new { (x : Mux) (before after : History) (e : One) (by : ℕ) (q : Request) (id : ℕ) → Opens x
        → IsLegal x (before ++ e ∷ after) → e.call ≡ call.Start by q → e.reply ≡ reply.Id id → begun id before ≡ false }
    ensures own { (x : Mux) (h : History) (n k id : ℕ) → Opens x → IsLegal x h → AreFit x h
        → owns id (of n h) ≡ true → owns id (of k h) ≡ true → n ≡ k }
{}

/// The link is lost by the first loss, and who is answered that it is gone gets this cause.
#[tactic(auto, using(crate::proofs::Losses::lost_is, crate::proofs::Losses::gone_is_first))]
pub fn first_loss_counts()
    ensures kept { (x : Mux) (h : History) → Opens x → IsLegal x h → (replay x h).lost ≡ first_loss h }
    ensures gone { (x : Mux) (before after : History) (e : One) (why : Why) → Opens x → IsLegal x (before ++ e ∷ after)
        → e.reply ≡ reply.Gone why → first_loss before ≡ Some why }
{}

/// No list of the link grows beyond its room, and each call that may be made finds room.
#[tactic(auto, using(crate::proofs::Rooms::few_calls, crate::proofs::Rooms::few_sends, crate::proofs::Rooms::few_left, crate::proofs::Rooms::cancel_has_room, crate::proofs::Rooms::left_has_room))]
pub fn rooms_suffice()
    ensures calls { (x : Mux) (h : History) → Opens x → IsLegal x h → AreFit x h → length (replay x h).calls ≤ MAX_CALLS }
    ensures sends { (x : Mux) (h : History) → Opens x → IsLegal x h → AreFit x h → length (replay x h).sends ≤ MAX_SENDS }
    ensures left { (x : Mux) (h : History) → Opens x → IsLegal x h → AreFit x h → length (replay x h).left ≤ MAX_CALLERS }
    ensures call_at_start { (x : Mux) (h : History) (n by : ℕ) (r : Request) → Opens x → IsLegal x h → AreFit x h
        → IsFit x n (of n h) (call.Start by r) → length (replay x h).calls < MAX_CALLS }
    ensures send_at_start { (x : Mux) (h : History) (n by : ℕ) (r : Request) → Opens x → IsLegal x h → AreFit x h
        → IsFit x n (of n h) (call.Start by r) → length (replay x h).sends < MAX_SENDS }
    ensures send_at_cancel { (x : Mux) (h : History) (n by id : ℕ) → Opens x → IsLegal x h → AreFit x h
        → IsFit x n (of n h) (call.Cancel by id) → length (replay x h).sends < MAX_SENDS }
    ensures at_left { (x : Mux) (h : History) (n by : ℕ) → Opens x → IsLegal x h → AreFit x h
        → IsFit x n (of n h) (call.Left by) → length (replay x h).left < MAX_CALLERS }
{}
