//! Laws of the seats of a shared link. The bodies are empty: each contract is a law of the definitions.
ghost use Rattle.std.specs.Prelude.{◌≡◌, ◌<◌, ◌+◌, ℕ, [], false};
ghost use Rattle.giop_messages.specs.Message.{Request};
ghost use Rattle.client_mux.specs.declared.heard_reply.HeardReply.{HeardReply};
ghost use Rattle.turn_cell.specs.Seats.{CellView};
ghost use Rattle.client_mux.specs.declared.limits.TheConstants.{MAX_STARTS, MAX_ARRIVALS};
ghost use Rattle.client_mux.specs.declared.why.Why.{Why};
ghost use Rattle.client_mux.specs.declared.call.MuxCall.{MuxCall};
ghost use Rattle.client_mux.specs.declared.call.MuxCall.TheVariants as call;
ghost use Rattle.client_mux.specs.declared.call.MuxReply.{MuxReply};
ghost use Rattle.client_mux.specs.declared.call.MuxReply.TheVariants as reply;
ghost use Rattle.client_mux.specs.Machine.{Mux};
ghost use Rattle.client_mux.specs.Callers.{IsShort, is_lost, finishes};
ghost use Rattle.shared_link.specs.Link.{Sitting};
ghost use Rattle.shared_link.specs.Turns.{MayMake, Makes};
ghost use Rattle.shared_link.specs.Roles.{CanCall, CanAwait, CanCancel, CanSend, CanRead, CanLose};

/// What a seat can call by its role is fit.
#[tactic(auto, using(crate::proofs::RoleLaws::fit_start, crate::proofs::RoleLaws::fit_cancel, crate::proofs::RoleLaws::fit_await, crate::proofs::RoleLaws::fit_left, crate::proofs::RoleLaws::fit_next, crate::proofs::RoleLaws::fit_arrived, crate::proofs::RoleLaws::fit_lost))]
pub fn roles_are_fit()
    ensures start { (cell : CellView Mux) (k : ℕ) (q : Request) (seat : Sitting) → CanCall cell k seat → k < MAX_STARTS → IsShort q
        → MayMake cell (call.Start seat.number q) seat }
    ensures cancel { (cell : CellView Mux) (k id : ℕ) (seat : Sitting) → CanCall cell k seat → CanCancel id seat
        → MayMake cell (call.Cancel seat.number id) seat }
    ensures wait { (cell : CellView Mux) (k id : ℕ) (seat : Sitting) → CanCall cell k seat → CanAwait id seat
        → MayMake cell (call.Await seat.number id) seat }
    ensures leave { (cell : CellView Mux) (k : ℕ) (seat : Sitting) → CanCall cell k seat → MayMake cell (call.Left seat.number) seat }
    ensures next { (cell : CellView Mux) (seat : Sitting) → CanSend cell seat → MayMake cell call.Next seat }
    ensures arrived { (cell : CellView Mux) (k id : ℕ) (r : HeardReply) (seat : Sitting) → CanRead cell k seat → k < MAX_ARRIVALS
        → MayMake cell (call.Arrived id r) seat }
    ensures lost { (cell : CellView Mux) (why : Why) (seat : Sitting) → CanLose cell seat → MayMake cell (call.Lost why) seat }
{}

/// A call leads from one role of its seat to the next.
#[tactic(auto, using(crate::proofs::RoleLaws::after_start, crate::proofs::RoleLaws::after_cancel, crate::proofs::RoleLaws::after_await, crate::proofs::RoleLaws::first_call, crate::proofs::RoleLaws::late_cancel, crate::proofs::RoleLaws::after_next, crate::proofs::RoleLaws::after_arrived, crate::proofs::RoleLaws::read_on, crate::proofs::RoleLaws::lose_later))]
pub fn roles_go_on()
    ensures start { (cell : CellView Mux) (k by : ℕ) (q : Request) (r : MuxReply) (old new : Sitting) → CanCall cell k old
        → Makes cell (call.Start by q) r old new → CanCall cell (k + 1) new }
    ensures cancel { (cell : CellView Mux) (k by id : ℕ) (r : MuxReply) (old new : Sitting) → CanCall cell k old
        → Makes cell (call.Cancel by id) r old new → CanCall cell k new }
    ensures wait { (cell : CellView Mux) (k by id : ℕ) (r : MuxReply) (old new : Sitting) → CanCall cell k old
        → Makes cell (call.Await by id) r old new → CanCall cell k new }
    ensures first { (cell : CellView Mux) (by id : ℕ) (q : Request) (old new : Sitting) → old.mine ≡ []
        → Makes cell (call.Start by q) (reply.Id id) old new → CanCancel id new }
    ensures late { (cell : CellView Mux) (by id k : ℕ) (old new : Sitting) → CanAwait id old
        → Makes cell (call.Cancel by k) reply.TooLate old new → CanAwait id new }
    ensures next { (cell : CellView Mux) (r : MuxReply) (old new : Sitting) → finishes call.Next r ≡ false → CanSend cell old
        → Makes cell call.Next r old new → CanSend cell new }
    ensures arrived { (cell : CellView Mux) (k id : ℕ) (v : HeardReply) (r : MuxReply) (old new : Sitting) → CanRead cell k old
        → Makes cell (call.Arrived id v) r old new → CanRead cell (k + 1) new }
    ensures lost { (cell : CellView Mux) (k : ℕ) (why : Why) (r : MuxReply) (old new : Sitting) → CanRead cell k old
        → Makes cell (call.Lost why) r old new → CanRead cell k new }
    ensures later { (cell : CellView Mux) (c : MuxCall) (r : MuxReply) (old new : Sitting) → is_lost c ≡ false → CanLose cell old
        → Makes cell c r old new → CanLose cell new }
{}
