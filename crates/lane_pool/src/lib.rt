//! The lane machine shared by threads: each slot, reading side, writing side and worker of a run calls it by a pass of its own,
//! and the calls of all are one legal history (Real-time CORBA 1.2, Threadpools; the passes are own profile).
//!
//! A pool opens with a pass for each slot and one for each thread, and the root pass, from which they were split. A slot's
//! pass becomes the passes of both sides of its next connection, and is made of them again when that is over. At the end all
//! passes come back, and the pool gives its history.
//!
//! | Pass | Calls |
//! |---|---|
//! | `ReaderPass` | `offer`, `post`, `cancel`, and `end` once |
//! | `WriterPass` | `collect`, up to the answer that nothing comes any more |
//! | `WorkerPass` | `take` and `finish` in turn, up to the answer that all has ended |
//! | `SlotPass` | `leave` once |
//!
//! No call but `open` takes memory. A call that isn't ready waits; no clause says that it comes back.
#![tactic(auto)]

mod answers;
mod calls;
mod laws;
mod opening;
mod passes;
mod pool;
mod returning;
mod shared;

pub use answers::{Cancelling, Collected, Offered, Posting, Taken};
pub use laws::{is_at_rest, limits_are_kept};
pub use opening::{Opened, open};
pub use passes::{ReaderPass, RootPass, SlotPass, WorkerPass, WriterPass};
pub use pool::LanePool;
