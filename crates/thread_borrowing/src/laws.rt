//! Laws of the choice of a thread.
ghost use Rattle.std.specs.Prelude.{◌≡◌, ◌≤◌, ℕ, Bool, true, false, List, Some, None, slice_get};
ghost use Rattle.thread_borrowing.specs.ThreadList.{Thread};
ghost use Rattle.thread_borrowing.specs.Choice.{chosen_thread, can_start};
ghost use Rattle.thread_borrowing.specs.Chain.{down_from, StandsBefore};

/// The choice goes down the lanes from the request's, and a request is never given upward. The body is empty: the
/// contract is a law of the definitions.
pub fn choice_goes_down()
    ensures down { (borrowing : Bool) (lane : ℕ) (threads : List Thread)
        → chosen_thread borrowing lane threads ≡ down_from borrowing lane threads }
    ensures never_upward { (borrowing : Bool) (lane : ℕ) (threads : List Thread) (t : ℕ) (thread : Thread)
        → chosen_thread borrowing lane threads ≡ Some t → slice_get threads t ≡ Some thread
        → thread.lane ≤ lane }
    ensures alone { (lane : ℕ) (threads : List Thread) (t : ℕ) (thread : Thread)
        → chosen_thread false lane threads ≡ Some t → slice_get threads t ≡ Some thread
        → thread.lane ≡ lane }
{}

/// The chosen thread can start and is before each other that can, and there is none only where none can. The
/// body is empty: the contract is a law of the definitions.
pub fn choice_stands_first()
    ensures some { (borrowing : Bool) (lane : ℕ) (threads : List Thread) (t : ℕ)
        → chosen_thread borrowing lane threads ≡ Some t
        → (thread : Thread) × (slice_get threads t ≡ Some thread) × (can_start borrowing lane thread ≡ true)
        × ((k : ℕ) (other : Thread) → slice_get threads k ≡ Some other
        → can_start borrowing lane other ≡ true → StandsBefore t thread k other) }
    ensures none { (borrowing : Bool) (lane : ℕ) (threads : List Thread)
        → chosen_thread borrowing lane threads ≡ None
        → (k : ℕ) (other : Thread) → slice_get threads k ≡ Some other
        → can_start borrowing lane other ≡ false }
{}
