//! What a look at the requests asks of each.
ghost use Rattle.std.specs.Prelude.{◌≡◌};
ghost use Rattle.request_buffer.specs.Keys.{key_of, names_late};
ghost use Rattle.request_buffer.specs.Kept.{is_late};

use orb_base::{ConnId, Due, Job};

/// What a look at the requests asks of one. Keys are small and lie in one piece, so that a pass reads memory in order
/// and follows no request.
#[derive(Clone, Copy, Debug)]
pub struct Key {
    /// The connection that the request came by.
    pub conn: ConnId,
    /// The request's id.
    pub id: u32,
    /// When its reply is due.
    pub due: Due,
    /// The lane that runs it, from 0.
    pub lane: u8,
    /// Its priority, 0 to 32767.
    pub priority: u16,
}

impl Key {
    /// The key of a request.
    pub fn of(job: &Job) -> Key
        ensures { result ≡ key_of job.now }
    {
        Key {
            conn: job.conn,
            id: job.id,
            due: job.due,
            lane: job.lane,
            priority: job.priority.level(),
        }
    }

    /// Whether the request is one of the connection with this id, whose reply is due when it was carried out.
    pub fn may_cancel(self, conn: ConnId, id: u32) -> bool
        ensures { result ≡ names_late conn id self }
    {
        is_late(self.due) && self.conn.is_same(conn) && self.id == id
    }
}

/// Whether a reply is due when a request was carried out.
fn is_late(due: Due) -> bool
    ensures { result ≡ is_late due }
{
    match due {
        Due::Late => true,
        Due::Nothing => false,
        Due::Early => false,
    }
}
