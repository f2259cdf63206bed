//! A run written out for an audit: a line for each entry of a history of the lane machine, which names a request by how many were
//! offered before it; and the laws by which a history is read back from its lines.
#![tactic(auto)]

mod action_text;
mod head;
mod job_name;
mod laws;
mod lines;
mod numbering;
mod summary;
mod trace_line;
mod writer;

pub use laws::{fit_offers_once, lines_are_read_back, offers_admit_once, traces_are_legal};
pub use summary::{Counted, GivenText, Summary, count, summary_of};
pub use trace_line::{
    Action, CancelReply, CollectReply, OfferReply, OfferedRequest, PostReply, TraceLine,
};
pub use writer::write_trace;
