//! The engine of a connection: its bytes are read piece by piece, and what they complete is judged and run before the next read.
//! Own profile, over CORBA 3.0.3, section 15.4.
//!
//! `specs/HeardSoFar.antt` says what the bytes mean so far, `specs/Ends.antt` how the reading comes out, and `specs/Streams.antt` what
//! the run of a stream is: that of the calls of the bytes which were taken.
#![tactic(auto)]

mod feeding;
mod hearing;
mod laws;
mod pieces;
mod read_end;
mod reading;
mod stream;
mod stream_end;

pub use hearing::{HeardPiece, Hearing};
pub use laws::{further_bytes_are_heard_behind, heard_so_far_is_one, whole_streams_are_inputs};
pub use read_end::{MAX_TAKEN, READ_LEN, ReadEnd};
pub use stream::run_stream;
pub use stream_end::StreamEnd;
