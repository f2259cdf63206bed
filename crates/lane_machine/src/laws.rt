//! Laws of the lane machine, over whole histories from an opening on. The bodies are empty: each contract is a law of the
//! definitions.
ghost use Rattle.std.specs.Prelude.{◌≡◌, ◌≤◌, ◌+◌, ℕ, true, false, Some, None, slice_get, not, length, count_by};
ghost use Rattle.orb_base.specs.declared.conn_id.ConnId.{ConnId};
ghost use Rattle.orb_base.specs.declared.job.Job.{Job};
ghost use Rattle.orb_base.specs.declared.limits.TheConstants.{MAX_OWED, MAX_THREADS};
ghost use Rattle.orb_base.specs.declared.item.Item.TheVariants as item;
ghost use Rattle.lane_machine.specs.Refusals.{WasRefused, HasReply};
ghost use Rattle.thread_borrowing.specs.ThreadList.{Thread, is_free};
ghost use Rattle.thread_borrowing.specs.Choice.{chosen_thread};
ghost use Rattle.request_buffer.specs.Kept.{kept_bytes};
ghost use Rattle.turn_cell.specs.History.{of};
ghost use Rattle.turn_cell.specs.Numbers.{Injects, NotFirst};
ghost use Rattle.lane_machine.specs.declared.call.LaneCall.{LaneCall};
ghost use Rattle.lane_machine.specs.declared.call.LaneCall.TheVariants as call;
ghost use Rattle.lane_machine.specs.declared.call.LaneReply.TheVariants as reply;
ghost use Rattle.lane_machine.specs.State.{State, Opens};
ghost use Rattle.lane_machine.specs.Machine.{step, may_wait};
ghost use Rattle.lane_machine.specs.Readiness.{is_ready, IsSound, owed};
ghost use Rattle.lane_machine.specs.Histories.{History, replay, IsLegal};
ghost use Rattle.lane_machine.specs.Urgency.{NoneIdles, IsGiven, IsFirst};
ghost use Rattle.lane_machine.specs.Callers.{heir, IsFit, AreFit};

/// At every place of a legal history the limits hold: of what is owed to a connection, of what waits, and of the threads.
pub fn within_limits()
    ensures owed { (s : State) (h : History) → Opens s → IsLegal s h
        → (conn : ConnId) → owed (replay s h) conn ≤ MAX_OWED + 2 }
    ensures waiting { (s : State) (h : History) → Opens s → IsLegal s h
        → length (replay s h).waiting ≤ s.pool.max_requests }
    ensures bytes { (s : State) (h : History) → Opens s → IsLegal s h
        → kept_bytes (replay s h).waiting ≤ s.pool.max_bytes }
    ensures threads { (s : State) (h : History) → Opens s → IsLegal s h
        → count_by (λ (t : Thread). not (is_free t.doing)) (replay s h).threads ≤ MAX_THREADS }
{}

/// At every place of a legal history no thread is without a task while a request that it may run waits; and a request that
/// is given to a thread is the first of those that this thread may run: none of greater priority waits, and no earlier one
/// of equal priority.
pub fn no_idling()
    ensures busy { (s : State) (h : History) → Opens s → IsLegal s h → NoneIdles (replay s h) }
    ensures first { (s : State) (h : History) (c : LaneCall) → Opens s → IsLegal s h
        → is_ready (replay s h) c ≡ true → IsSound (replay s h) c
        → (t : ℕ) (thread : Thread) (job : Job)
        → IsGiven (replay s h) (step (replay s h) c).0 t thread job
        → IsFirst (replay s h) thread.lane job }
{}

/// A request is refused only where no thread is chosen and it may not wait: buffering is off, or a limit has no room.
pub fn refuses_for_want_of_room()
    ensures { (s : State) (job : Job) → (step s (call.Offer job)).1 ≡ reply.Full
        → (chosen_thread s.pool.borrowing job.lane s.threads ≡ None)
        × (may_wait s.pool s.waiting job ≡ false) }
{}

/// TRANSIENT is owed only by an Offer that was answered Full, whose reply is due.
pub fn transients_are_refusals()
    ensures { (s : State) (h : History) → Opens s → IsLegal s h → (i : ℕ) (job : Job)
        → slice_get (replay s h).out i ≡ Some (item.Transient job)
        → WasRefused h job × HasReply job }
{}

/// A caller that keeps to what its seat may call meets what each call needs, whatever the others do.
pub fn fit_is_sound()
    ensures { (s : State) (h : History) (n : ℕ) (c : LaneCall) → Opens s → IsLegal s h → AreFit s h
        → IsFit s n (of n h) c → IsSound (replay s h) c }
{}

/// Each seat of a pool is the heir of one, and the first seat of none.
pub fn seats_are_one_tree()
    ensures one_parent { Injects heir }
    ensures never_first { NotFirst heir }
{}
