//! Halls: what the invocations of connections are made in, one after another and in order, without lanes. Objects with state and the name
//! service are such halls.
//!
//! Each connection of a hall has one thread, which reads its requests, makes their invocations and writes the replies; a slot serves its
//! connections one after another by a hand of the hall. `specs/Meaning.antt` says what a message means in a hall, `specs/Steps.antt` what
//! a connection does, step by step, `specs/Sides.antt` how that is what its bytes mean, and `specs/Served.antt` what a slot leaves.
//! Requests are judged as in Real-time CORBA 1.2, Priority models; that there are no lanes is own profile.
#![tactic(auto)]

mod call;
mod calling;
mod ends;
mod hall;
mod host;
mod judge;
mod laws;
mod pieces;
mod run;
mod side;

pub use call::HallCall;
pub use ends::{HallRead, HallWrite};
pub use hall::Hall;
pub use host::LinkLog;
pub use judge::HallJudge;
pub use laws::{
    connections_without_fault_are_whole, messages_mean_one_thing_in_halls,
    slots_keep_what_connections_did,
};
pub use run::{HallDone, HallJob, run_hall};
pub use side::hall_side;
