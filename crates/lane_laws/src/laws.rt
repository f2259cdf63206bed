//! Laws over whole histories of the lane machine, from an opening on. The bodies are empty: each contract is a law of the
//! definitions.
ghost use Rattle.std.specs.Prelude.{◌≡◌, ◌≤◌, ◌<◌, ◌+◌, ◌*◌, ℕ, length, false, Some, None};
ghost use Rattle.orb_base.specs.declared.conn_id.ConnId.{ConnId};
ghost use Rattle.lane_machine.specs.declared.call.LaneCall.{LaneCall};
ghost use Rattle.lane_machine.specs.declared.call.LaneReply.TheVariants as reply;
ghost use Rattle.lane_machine.specs.State.{State, Opens};
ghost use Rattle.lane_machine.specs.Histories.{History, replay, IsLegal};
ghost use Rattle.lane_machine.specs.Callers.{of, latest, may_collect, worker_seat, writer_seat, IsFit, AreFit};
ghost use Rattle.lane_machine.specs.Readiness.{owed};
ghost use Rattle.lane_machine.specs.Counting.{coming, marks, room};
ghost use Rattle.lane_machine.specs.Fates.{waiting_of, given_of, busy_of, admitted, taken, finished, removed};
ghost use Rattle.lane_laws.specs.Replies.{owed_replies, handed_replies, finished_awaited};

/// The law of length. A legal history and the entries that its requests still bring are no longer than what was heard and
/// the ends of its callers allow; no more calls are heard than the run has; and a legal and fit history is shorter than its
/// room wherever a caller may still add a fit call.
pub fn length_is_bounded()
    ensures length { (s : State) (h : History) → Opens s → IsLegal s h
        → length h + coming (replay s h) ≤ 4 * (replay s h).calls + marks h }
    ensures calls { (s : State) (h : History) → Opens s → IsLegal s h
        → (replay s h).calls ≤ s.pool.run_calls }
    ensures room { (s : State) (h : History) (n : ℕ) (call : LaneCall) → Opens s → IsLegal s h → AreFit s h
        → IsFit s n (of n h) call → length h < room s }
{}

/// The law of places. Each request that was admitted waits, was given to a thread, runs, was finished or was removed, and is
/// in one of these places only; it was taken exactly where it runs or was finished; and no connection and serial number is
/// admitted twice, so that none is taken, finished or removed twice.
pub fn each_in_one_place()
    ensures place { (conn : ConnId) (serial : ℕ) (s : State) (h : History) → Opens s → IsLegal s h
        → waiting_of conn serial (replay s h) + given_of conn serial (replay s h) + busy_of conn serial (replay s h)
        + finished conn serial h + removed conn serial s h ≡ admitted conn serial h }
    ensures taken { (conn : ConnId) (serial : ℕ) (s : State) (h : History) → Opens s → IsLegal s h
        → busy_of conn serial (replay s h) + finished conn serial h ≡ taken conn serial h }
    ensures once { (conn : ConnId) (serial : ℕ) (s : State) (h : History) → Opens s → IsLegal s h → AreFit s h
        → admitted conn serial h ≤ 1 }
{}

/// The end of the law of places. Where each worker's last reply is that all has ended, each admitted request was finished or
/// removed.
pub fn all_is_done()
    ensures { (s : State) (h : History) → Opens s → IsLegal s h → AreFit s h
        → ((t : ℕ) → t < length s.threads → latest None (of (worker_seat s.slots t) h) ≡ Some reply.Ended)
        → (conn : ConnId) (serial : ℕ)
        → finished conn serial h + removed conn serial s h ≡ admitted conn serial h }
{}

/// The law of replies. Of each request whose reply is due with its answer, the replies that were handed over and those that are
/// still owed are together as many as its finishes. A connection whose writing side was told that nothing comes any more is owed
/// nothing; so each such finish has had its reply handed over.
pub fn replies_are_counted()
    ensures count { (conn : ConnId) (serial : ℕ) (s : State) (h : History) → Opens s → IsLegal s h
        → owed_replies conn serial (replay s h) + handed_replies conn serial h ≡ finished_awaited conn serial h }
    ensures told { (conn : ConnId) (s : State) (h : History) → Opens s → IsLegal s h → AreFit s h → conn.nth < s.per_slot
        → may_collect (latest None (of (writer_seat conn) h)) ≡ false → owed (replay s h) conn ≡ 0 }
    ensures all { (conn : ConnId) (serial : ℕ) (s : State) (h : History) → Opens s → IsLegal s h → AreFit s h
        → conn.nth < s.per_slot → may_collect (latest None (of (writer_seat conn) h)) ≡ false
        → handed_replies conn serial h ≡ finished_awaited conn serial h }
{}
