//! Which lanes a thread serves.
ghost use Rattle.std.specs.Prelude.{◌≡◌};
ghost use Rattle.thread_borrowing.specs.Choice.{may_run};

/// Whether a thread of one lane may run a request of another: of its own lane, and with borrowing of a higher one
/// (Real-time CORBA 1.2, Threadpools).
pub fn may_run(borrowing: bool, thread_lane: u8, job_lane: u8) -> bool
    ensures { result ≡ may_run borrowing thread_lane job_lane }
{
    thread_lane == job_lane || (borrowing && thread_lane < job_lane)
}
