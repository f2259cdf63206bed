//! What the messages of a connection mean to whoever reads them: a server's lanes, objects with state, names, a client. Framing is CORBA
//! 3.0.3, section 15.4; that the reading goes on, ends or breaks by what a judge says of each message is own profile.
//!
//! A judge says what one message means. `specs/Hearing.antt` says what a list of messages and what bytes mean by it, `specs/Hearers.antt`
//! how a reading goes on piece by piece, and `specs/Inputs.antt` how it comes out.
#![tactic(auto)]

mod framing;
mod heard;
mod hearing;
mod input;
mod judge;
mod laws;
mod meaning;
mod means;
mod read_end;

pub use framing::{Framed, frame};
pub use heard::{Heard, hear};
pub use hearing::Hearing;
pub use input::{Input, hear_input};
pub use judge::Judge;
pub use laws::{
    bytes_end_by_what_they_say, bytes_mean_one_thing, further_bytes_add_calls,
    messages_mean_one_thing, whole_streams_are_inputs,
};
pub use meaning::meaning_of;
pub use means::Means;
pub use read_end::{MAX_TAKEN, READ_LEN, ReadEnd};
