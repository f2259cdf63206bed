//! The running server: each slot serves the links of its acceptor, one after another, and each link's two sides, and each worker of the
//! pool, have a thread of their own where one can be made. All call one lane machine, and what a run leaves is told of its one history.
//! Own profile, over CORBA 3.0.3, section 15.4, and Real-time CORBA 1.2, Threadpools.
//!
//! The slots are a list of jobs that run side by side, by `side_by_side::run_all`, and a slot is that of `link_slots::run_slot`. Workers
//! and writing sides are threads of a scope, which says where one can't be made: without a worker no slot serves, and the run answers out
//! of memory; without a writing side the connection is closed unread. A slot without a thread serves after the others. All memory of a run
//! but that of its reading sides and of its requests is taken before the first thread.
//!
//! | What `serve_run` promises | Clause |
//! |---|---|
//! | All calls are one legal history, in which each call was fit for its caller | `lawful` |
//! | Each connection's calls are what its bytes mean, and its output is what the history says; each slot's end has its cause | `slots` |
//! | Each worker carried out its tasks as the servants do | `workers` |
//! | Each admitted request was finished or withdrawn, once | `once` |
//! | A thread takes only what was admitted, of its lane or lent from a lower one | `lanes`, `admitted` |
#![tactic(auto)]

mod give;
mod job;
mod laws;
mod link;
mod prepare;
mod run;
mod serve;
mod slots;
mod staff;

pub use laws::{a_run_ends_at_rest, each_reply_is_handed_once};
pub use link_slots::SlotEnd;
pub use run::{ConnLog, Run};
pub use serve::serve_run;
