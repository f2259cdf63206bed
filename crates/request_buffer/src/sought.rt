//! What a call seeks among the requests that wait.
use orb_base::ConnId;

/// Which requests a call seeks. Of those with the greatest weight it finds the earliest.
#[derive(Clone, Copy, Debug)]
pub enum Sought {
    /// Those that a thread of this lane may run, by their priority.
    Next { lane: u8, borrowing: bool },
    /// Those of a connection and id whose reply is still due.
    Late { conn: ConnId, id: u32 },
    /// The one with this stamp.
    Stamped(usize),
    /// Those with this stamp or a greater one.
    From(usize),
}
