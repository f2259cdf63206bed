//! Laws of the choice of a request.
ghost use Rattle.std.specs.Prelude.{◌≡◌, ◌≤◌, ℕ, Bool, true, false, List, Some, None, slice_get};
ghost use Rattle.orb_base.specs.declared.job.Job.{Job};
ghost use Rattle.thread_borrowing.specs.Choice.{may_run};
ghost use Rattle.request_buffer.specs.Next.{next_job};

/// The next request is one that the thread may run, none that it may run is of greater priority, and none of equal
/// priority is earlier. It is of no lower lane than the thread, and there is none only where the thread may run none.
/// The body is empty: the contract is a law of the definitions.
pub fn next_is_most_urgent()
    ensures first { (borrowing : Bool) (lane : ℕ) (waiting : List Job) (at : ℕ)
        → next_job borrowing lane waiting ≡ Some at
        → (job : Job) × (slice_get waiting at ≡ Some job) × (may_run borrowing lane job.lane ≡ true)
        × ((k : ℕ) (other : Job) → slice_get waiting k ≡ Some other
        → may_run borrowing lane other.lane ≡ true
        → (other.priority ≤ job.priority) × (other.priority ≡ job.priority → at ≤ k)) }
    ensures never_upward { (borrowing : Bool) (lane : ℕ) (waiting : List Job) (at : ℕ) (job : Job)
        → next_job borrowing lane waiting ≡ Some at → slice_get waiting at ≡ Some job
        → lane ≤ job.lane }
    ensures none { (borrowing : Bool) (lane : ℕ) (waiting : List Job)
        → next_job borrowing lane waiting ≡ None
        → (k : ℕ) (other : Job) → slice_get waiting k ≡ Some other
        → may_run borrowing lane other.lane ≡ false }
{}
