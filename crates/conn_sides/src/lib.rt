//! What runs on the threads of a server: the reading side and the writing side of each connection, and the workers. All call one lane
//! machine by passes of its pool. Own profile, over CORBA 3.0.3, section 15.4, and Real-time CORBA 1.2, Threadpools.
//!
//! Each contract says which entries the pass added to the one history, and what they have to do with the bytes that were taken, with
//! the bytes that were written, or with the servants: `specs/ReadSides.antt`, `specs/WriteSides.antt`, `specs/Working.antt`.
#![tactic(auto)]

mod calling;
mod hearing;
mod read_side_end;
mod reading;
mod sharing;
mod working;
mod write_end;
mod writing;

pub use read_side_end::ReadSideEnd;
pub use reading::{read_side, refuse_side};
pub use working::work;
pub use write_end::{LastCollect, WriteEnd};
pub use writing::write_side;
