//! The seats of a run: the caller of each slot, each worker and each connection's writing side.
ghost use Rattle.std.specs.Prelude.{◌≡◌, IfOk, slice_get, slice_set};
ghost use Rattle.fit_audit.specs.LastReplies.{last_reply as last_reply_lem};
ghost use Rattle.fit_audit.specs.Seats as Spec;

use crate::last_reply::{LastReply, last_reply};
use crate::reader::Reader;
use orb_base::{ConnId, NoMemory};
use std::alloc::Global;
use trace_lines::{Action, TraceLine};

/// What was called so far by each seat of a run, as far as it says what may be called next. It takes as much memory as the run has
/// slots, however long the run is.
#[derive(Drop)]
pub struct Seats {
    slots: u8,
    per_slot: u8,
    /// The callers of the slots.
    readers: Vec<Reader>,
    /// The last replies, by the numbers of the seats.
    replies: Vec<LastReply>,
    /// Whether each call was its caller's to make.
    pub fit: bool,
}

/// The number of the worker of a thread.
fn worker_seat(slots: u8, thread: u8) -> usize
    ensures { result ≡ Spec.worker_seat slots thread }
{
    slots as usize + 1 + thread as usize
}

/// The number of a connection's writing side.
fn writer_seat(conn: ConnId) -> usize
    ensures { result ≡ Spec.writer_seat conn }
{
    81 + 128 * conn.slot as usize + conn.nth as usize
}

/// The number of the seat whose call this is.
fn seat_of(slots: u8, action: &Action) -> usize
    ensures { result ≡ Spec.seat_by slots action.now }
{
    match action {
        Action::Offer { request, .. } => request.conn.slot as usize + 1,
        Action::Post { conn, .. } | Action::Cancel { conn, .. } | Action::End { conn, .. } => {
            conn.slot as usize + 1
        }
        Action::Leave { slot } => *slot as usize + 1,
        Action::Take { thread, .. } | Action::Finish { thread, .. } => worker_seat(slots, *thread),
        Action::Collect { conn, .. } => writer_seat(*conn),
    }
}

/// Notes what the caller of this slot called.
fn note_call(readers: &mut Vec<Reader>, slot: u8, action: &Action)
    ensures { readers.new.items ≡ Spec.set_reader readers.old.items slot (slice_get readers.old.items slot) action.now }
{
    let at = slot as usize;
    if at < readers.len() {
        readers[at] = readers[at].after(action);
    }
}

/// Notes a call, where it is a slot's.
fn note_action(readers: &mut Vec<Reader>, action: &Action)
    ensures { readers.new.items ≡ Spec.readers_after readers.old.items action.now }
{
    match action {
        Action::Offer { request, .. } => note_call(readers, request.conn.slot, action),
        Action::Post { conn, .. } | Action::Cancel { conn, .. } | Action::End { conn, .. } => {
            note_call(readers, conn.slot, action)
        }
        Action::Leave { slot } => note_call(readers, *slot, action),
        _ => {}
    }
}

/// Notes the reply to a seat.
fn note_reply(replies: &mut Vec<LastReply>, line: &TraceLine)
    ensures { replies.new.items ≡ slice_set replies.old.items line.now.caller (last_reply_lem line.now.action) }
{
    let at = line.caller as usize;
    if at < replies.len() {
        replies[at] = last_reply(&line.action);
    }
}

impl Seats {
    /// The seats of a run with these slots and connections per slot, before any call.
    pub fn new(alloc: Global, slots: u8, per_slot: u8) -> Result<Seats, NoMemory>
        ensures { IfOk result (Spec.Opened slots per_slot) }
    {
        let reader = Reader {
            ended: 0,
            heard: 0,
            closed: false,
            left: false,
        };
        Ok(Seats {
            slots,
            per_slot,
            readers: vec![in alloc; reader; slots as usize]?,
            replies: vec![in alloc; LastReply::Unheard; 81 + 128 * slots as usize]?,
            fit: true,
        })
    }

    /// Whether the caller of this slot may call this.
    fn slot_may(&self, slot: u8, action: &Action) -> bool
        ensures { result ≡ Spec.slot_may self.now.per_slot (slice_get self.now.readers.items slot) action.now }
    {
        match self.readers.get(slot as usize) {
            Some(reader) => reader.may_call(self.per_slot, action),
            None => false,
        }
    }

    /// Whether the worker of this thread may ask for its task.
    fn worker_may(&self, thread: u8) -> bool
        ensures { result ≡ Spec.worker_may (slice_get self.now.replies.items (Spec.worker_seat self.now.slots thread)) }
    {
        match self.replies.get(worker_seat(self.slots, thread)) {
            Some(reply) => reply.may_take(),
            None => false,
        }
    }

    /// Whether this connection's writing side may ask for what is owed.
    fn writer_may(&self, conn: ConnId) -> bool
        ensures { result ≡ Spec.writer_may (slice_get self.now.replies.items (Spec.writer_seat conn)) }
    {
        match self.replies.get(writer_seat(conn)) {
            Some(reply) => reply.may_collect(),
            None => false,
        }
    }

    /// Whether the seat whose call this is may make it now. A thread that has carried out a request of a legal run was given it.
    fn may_call(&self, action: &Action) -> bool
        ensures { result ≡ Spec.may_call self.now action.now }
    {
        match action {
            Action::Offer { request, .. } => self.slot_may(request.conn.slot, action),
            Action::Post { conn, .. } | Action::Cancel { conn, .. } | Action::End { conn, .. } => {
                self.slot_may(conn.slot, action)
            }
            Action::Leave { slot } => self.slot_may(*slot, action),
            Action::Take { thread, .. } => self.worker_may(*thread),
            Action::Finish { .. } => true,
            Action::Collect { conn, .. } => {
                conn.slot < self.slots && conn.nth < self.per_slot && self.writer_may(*conn)
            }
        }
    }

    /// Whether the call of a line is its caller's, who may make it now.
    fn allows(&self, line: &TraceLine) -> bool
        ensures { result ≡ Spec.allows self.now line.now }
    {
        line.caller as usize == seat_of(self.slots, &line.action) && self.may_call(&line.action)
    }

    /// Hears the next line of a run.
    pub fn hear(&mut self, line: &TraceLine)
        ensures { Spec.Heard line.now self.old self.new }
    {
        let allowed = self.allows(line);
        self.fit = self.fit && allowed;
        if self.fit {
            note_action(&mut self.readers, &line.action);
            note_reply(&mut self.replies, line);
        }
    }
}
