//! The sides of a link that several callers share, each by its seat: the writer, which sends what the link gives it, the reader, which
//! hears the replies, and a caller, which makes one call: own profile.
#![tactic(auto)]

mod calling;
mod judge;
mod laws;
mod reading;
mod sharing;
mod writing;

pub use calling::{CallEnd, make_call};
pub use judge::LinkJudge;
pub use laws::sent_requests_are_short;
pub use reading::read_side;
pub use writing::{WriterEnd, write_side};
