//! The link machine, as its callers see it.
ghost use Rattle.std.specs.Prelude.{◌≡◌, ◌<◌, ◌+◌, ◌==◌, nat_lt, length, slice_get, IfOk, IfSome, IfNone, None, true, []};
ghost use Rattle.client_mux.specs.declared.call.MuxCall.TheVariants.{Lost, Left};
ghost use Rattle.client_mux.specs.Machine.{step, is_ready, IsSound, Steps, started, cancelled, sending, given, arrived, gone, outcome, awaited, opening, call_at, is_waiting};

use crate::call::{MuxCall, MuxReply};
use crate::called::{Called, Doing, Sending};
use crate::heard_reply::HeardReply;
use crate::limits::{MAX_CALLERS, MAX_CALLS, MAX_SEATS, MAX_SENDS};
use crate::why::Why;
use flat_seats::flat_heir;
use giop_messages::Request;
use orb_base::{Arc, NoMemory};
use std::alloc::Global;
use std::marker::Model;
use turn_cell::Object;

/// The bell of the writer. A caller's bell is the number of its seat.
const WRITER_BELL: u32 = 0;

/// A link that callers share.
#[derive(Drop)]
pub struct MuxCell {
    callers: u32,
    sends: Vec<Sending>,
    sent: usize,
    calls: Vec<Called>,
    lost: Option<Why>,
    left: Vec<u32>,
}

impl Model for MuxCell {
    ghost use Rattle.client_mux.specs.Machine.{Mux};

    ghost Value = { Mux };

    ghost view = { λ m. record {
      callers = m.callers;
      sends = m.sends.items;
      sent = m.sent;
      calls = m.calls.items;
      lost = m.lost;
      left = m.left.items;
    } };
}

impl MuxCell {
    /// A link for so many callers, by which nothing was called. Takes the memory of its lists at once.
    pub fn new(alloc: Global, callers: u8) -> Result<MuxCell, NoMemory>
        ensures { IfOk result (λ m. m ≡ opening callers) }
    {
        Ok(MuxCell {
            callers: u32::from(callers),
            sends: with_room(alloc, MAX_SENDS)?,
            sent: 0,
            calls: with_room(alloc, MAX_CALLS)?,
            lost: None,
            left: with_room(alloc, usize::from(MAX_CALLERS))?,
        })
    }

    /// Whether the call is answered now; else it waits. Takes no memory. Constant work.
    pub fn ready(&self, call: &MuxCall) -> bool
        ensures { result ≡ is_ready self.now call.now }
    {
        match call {
            MuxCall::Start { .. } => true,
            MuxCall::Cancel { .. } => true,
            MuxCall::Next => self.has_next() || self.lost.is_some() || self.all_left(),
            MuxCall::Arrived { .. } => true,
            MuxCall::Await { id, .. } => self.lost.is_some() || !self.is_waiting(*id),
            MuxCall::Lost { .. } => true,
            MuxCall::Left { .. } => true,
        }
    }

    /// Answers a call, with the reply twice: one for the history, one for the caller. When out of memory nothing changes.
    /// Takes memory for shares of what the call or the reply holds, before the first change, and no other: a list whose room is
    /// used up counts as out of memory. Constant work.
    pub fn apply(&mut self, call: &MuxCall) -> Result<(MuxReply, MuxReply), NoMemory>
        requires ready { is_ready self.old call.now ≡ true }
        requires sound { IsSound self.old call.now }
        ensures { Steps self.old (step self.old call.now) self.new result }
    {
        match call {
            MuxCall::Start { by, request } => self.start(*by, request),
            MuxCall::Cancel { id, .. } => self.cancel(*id),
            MuxCall::Next => self.next(),
            MuxCall::Arrived { id, reply } => self.arrive(*id, reply),
            MuxCall::Await { id, .. } => self.answer(*id),
            MuxCall::Lost { why } => self.lose(*why),
            MuxCall::Left { by } => self.leave(*by),
        }
    }

    /// Whether something is to be sent that wasn't handed out yet.
    fn has_next(&self) -> bool
        ensures { result ≡ nat_lt self.now.sent (length self.now.sends) }
    {
        self.sent < self.sends.len()
    }

    /// Whether every caller left.
    fn all_left(&self) -> bool
        ensures { result ≡ (length self.now.left == self.now.callers) }
    {
        self.left.len() == self.callers as usize
    }

    /// The place of the call of an id.
    fn place_of(&self, id: u32) -> Option<usize>
        ensures some { IfSome result (λ at. (id ≡ at + 1) × (at < length self.now.calls)) }
        ensures none { IfNone result (call_at self.now.calls id ≡ None) }
    {
        let at = id.checked_sub(1)? as usize;
        if at < self.calls.len() {
            Some(at)
        } else {
            None
        }
    }

    /// Whether the call of an id has no reply yet and wasn't cancelled.
    fn is_waiting(&self, id: u32) -> bool
        ensures { result ≡ is_waiting (call_at self.now.calls id) }
    {
        match self.place_of(id) {
            Some(at) => matches!(self.calls[at].doing, Doing::Waiting),
            None => false,
        }
    }

    /// Whether it is the bell of the caller of the call of an id.
    fn is_bell_of(&self, id: u32, bell: u32) -> bool {
        match self.place_of(id) {
            Some(at) => self.calls[at].by == bell,
            None => false,
        }
    }

    /// The next id.
    fn next_id(&self) -> Result<u32, NoMemory>
        ensures { IfOk result (λ id. id ≡ length self.now.calls + 1) }
    {
        match u32::try_from(self.calls.len()) {
            Ok(count) => count.checked_add(1).ok_or(NoMemory),
            Err(_) => Err(NoMemory),
        }
    }

    /// A caller starts a call.
    fn start(&mut self, by: u32, request: &Arc<Request>) -> Result<(MuxReply, MuxReply), NoMemory>
        ensures { Steps self.old (started self.old by request.now self.old.lost) self.new result }
    {
        match self.lost {
            Some(why) => Ok((MuxReply::Gone(why), MuxReply::Gone(why))),
            None => self.begin(by, request),
        }
    }

    /// A call gets the next id, and its request is to be sent.
    fn begin(&mut self, by: u32, request: &Arc<Request>) -> Result<(MuxReply, MuxReply), NoMemory>
        ensures { Steps self.old (started self.old by request.now None) self.new result }
    {
        let request = request.share()?;
        let id = self.next_id()?;
        if self.calls.len() == self.calls.capacity() || self.sends.len() == self.sends.capacity() {
            return Err(NoMemory);
        }
        self.calls.push_reserved(Called {
            by,
            doing: Doing::Waiting,
            cancelled: false,
            awaited: false,
        });
        self.sends.push_reserved(Sending::Send { id, request });
        Ok((MuxReply::Id(id), MuxReply::Id(id)))
    }

    /// A caller doesn't want the reply of a call any more.
    fn cancel(&mut self, id: u32) -> Result<(MuxReply, MuxReply), NoMemory>
        ensures { Steps self.old (cancelled self.old id (call_at self.old.calls id)) self.new result }
    {
        match self.place_of(id) {
            Some(at) => self.stop(id, at),
            None => Ok((MuxReply::TooLate, MuxReply::TooLate)),
        }
    }

    /// The call of an id, at its place, is cancelled.
    fn stop(&mut self, id: u32, at: usize) -> Result<(MuxReply, MuxReply), NoMemory>
        requires id { id ≡ at + 1 }
        requires within { at < length self.old.calls }
        ensures { Steps self.old (cancelled self.old id (slice_get self.old.calls at)) self.new result }
    {
        if !matches!(self.calls[at].doing, Doing::Waiting) {
            self.calls[at].cancelled = true;
            return Ok((MuxReply::TooLate, MuxReply::TooLate));
        }
        if self.sends.len() == self.sends.capacity() {
            return Err(NoMemory);
        }
        let by = self.calls[at].by;
        let awaited = self.calls[at].awaited;
        self.calls[at] = Called {
            by,
            doing: Doing::Dropped,
            cancelled: true,
            awaited,
        };
        self.sends.push_reserved(Sending::Stop(id));
        Ok((MuxReply::Cancelled, MuxReply::Cancelled))
    }

    /// The writer asks what to send.
    fn next(&mut self) -> Result<(MuxReply, MuxReply), NoMemory>
        ensures { Steps self.old (given self.old self.old.lost (slice_get self.old.sends self.old.sent)) self.new result }
    {
        if self.lost.is_some() {
            return Ok((MuxReply::Finish, MuxReply::Finish));
        }
        match self.sends.get(self.sent) {
            Some(what) => {
                let replies = shares_of(what)?;
                self.sent += 1;
                Ok(replies)
            }
            None => Ok((MuxReply::Finish, MuxReply::Finish)),
        }
    }

    /// A reply was read.
    fn arrive(&mut self, id: u32, reply: &Arc<HeardReply>) -> Result<(MuxReply, MuxReply), NoMemory>
        ensures { Steps self.old (arrived self.old id reply.now (call_at self.old.calls id)) self.new result }
    {
        match self.place_of(id) {
            Some(at) => self.match_reply(id, at, reply),
            None => Ok((MuxReply::Stray, MuxReply::Stray)),
        }
    }

    /// A reply was read for the call of an id, at its place.
    fn match_reply(
        &mut self,
        id: u32,
        at: usize,
        reply: &Arc<HeardReply>,
    ) -> Result<(MuxReply, MuxReply), NoMemory>
        requires id { id ≡ at + 1 }
        requires within { at < length self.old.calls }
        ensures { Steps self.old (arrived self.old id reply.now (slice_get self.old.calls at)) self.new result }
    {
        if !matches!(self.calls[at].doing, Doing::Waiting) {
            return Ok((MuxReply::Stray, MuxReply::Stray));
        }
        self.calls[at].doing = Doing::Answered(reply.share()?);
        Ok((MuxReply::Matched, MuxReply::Matched))
    }

    /// A caller gets the reply of a call, or why the link was lost.
    fn answer(&mut self, id: u32) -> Result<(MuxReply, MuxReply), NoMemory>
        ensures { Steps self.old (awaited self.old id (call_at self.old.calls id)) self.new result }
    {
        match self.place_of(id) {
            Some(at) => self.await_call(id, at),
            None => Ok((gone(self.lost), gone(self.lost))),
        }
    }

    /// A caller gets the reply of the call of an id, at its place, or why the link was lost.
    fn await_call(&mut self, id: u32, at: usize) -> Result<(MuxReply, MuxReply), NoMemory>
        requires id { id ≡ at + 1 }
        requires within { at < length self.old.calls }
        ensures { Steps self.old (awaited self.old id (slice_get self.old.calls at)) self.new result }
    {
        let replies = outcomes_of(self.lost, &self.calls[at].doing)?;
        self.calls[at].awaited = true;
        Ok(replies)
    }

    /// The link is lost: the first cause is kept.
    fn lose(&mut self, why: Why) -> Result<(MuxReply, MuxReply), NoMemory>
        ensures { Steps self.old (step self.old (Lost why)) self.new result }
    {
        if self.lost.is_none() {
            self.lost = Some(why);
        }
        Ok((MuxReply::Noted, MuxReply::Noted))
    }

    /// A caller leaves.
    fn leave(&mut self, by: u32) -> Result<(MuxReply, MuxReply), NoMemory>
        ensures { Steps self.old (step self.old (Left by)) self.new result }
    {
        if self.left.len() == self.left.capacity() {
            return Err(NoMemory);
        }
        self.left.push_reserved(by);
        Ok((MuxReply::Noted, MuxReply::Noted))
    }
}

impl Object for MuxCell {
    ghost use Rattle.client_mux.specs.Machine.{step, is_ready, IsSound, Opens};
    ghost use Rattle.client_mux.specs.Callers.{heir, IsFit};
    ghost use Rattle.client_mux.specs.SeatHeirs.{one_parent_of, never_first_of};
    ghost use Rattle.client_mux.specs.SeatLaws.{enough};

    type Call = MuxCall;

    type Reply = MuxReply;

    ghost ready = { is_ready };

    ghost sound = { IsSound };

    ghost step = { step };

    ghost opens = { Opens };

    ghost heir = { heir };

    ghost fit = { IsFit };

    fn ready(&self, call: &MuxCall) -> bool {
        MuxCell::ready(self, call)
    }

    fn apply(&mut self, call: &MuxCall) -> Result<(MuxReply, MuxReply), NoMemory> {
        MuxCell::apply(self, call)
    }

    fn heir_of(n: u32, k: u32) -> Option<u32> {
        flat_heir(MAX_SEATS, n, k)
    }

    /// The writer sleeps at a bell of its own, and so does each caller.
    fn bell_of(call: &MuxCall) -> u32 {
        match call {
            MuxCall::Start { by, .. } => *by,
            MuxCall::Cancel { by, .. } => *by,
            MuxCall::Next => WRITER_BELL,
            MuxCall::Arrived { .. } => WRITER_BELL,
            MuxCall::Await { by, .. } => *by,
            MuxCall::Lost { .. } => WRITER_BELL,
            MuxCall::Left { by } => *by,
        }
    }

    /// What is to be sent rings the writer, and so does the last caller that leaves; a reply rings the caller that waits for
    /// it; a loss rings all.
    fn rings(&self, call: &MuxCall, reply: &MuxReply, bell: u32) -> bool {
        match call {
            MuxCall::Start { .. } => bell == WRITER_BELL && matches!(reply, MuxReply::Id(_)),
            MuxCall::Cancel { .. } => bell == WRITER_BELL && matches!(reply, MuxReply::Cancelled),
            MuxCall::Next => false,
            MuxCall::Arrived { id, .. } => {
                matches!(reply, MuxReply::Matched) && self.is_bell_of(*id, bell)
            }
            MuxCall::Await { .. } => false,
            MuxCall::Lost { .. } => true,
            MuxCall::Left { .. } => bell == WRITER_BELL && self.all_left(),
        }
    }

    ghost one_parent = { one_parent_of };

    ghost never_first = { never_first_of };

    ghost enough = { enough };
}

/// What is to be sent, twice.
fn shares_of(what: &Sending) -> Result<(MuxReply, MuxReply), NoMemory>
    ensures { IfOk result (λ r. (r.0 ≡ sending what.now) × (r.1 ≡ sending what.now)) }
{
    match what {
        Sending::Send { id, request } => Ok((
            MuxReply::Send {
                id: *id,
                request: request.share()?,
            },
            MuxReply::Send {
                id: *id,
                request: request.share()?,
            },
        )),
        Sending::Stop(id) => Ok((MuxReply::Stop(*id), MuxReply::Stop(*id))),
    }
}

/// The reply of a call, or why the link was lost, twice.
fn outcomes_of(lost: Option<Why>, doing: &Doing) -> Result<(MuxReply, MuxReply), NoMemory>
    ensures { IfOk result (λ r. (r.0 ≡ outcome lost doing.now) × (r.1 ≡ outcome lost doing.now)) }
{
    match doing {
        Doing::Answered(reply) => Ok((
            MuxReply::Reply(reply.share()?),
            MuxReply::Reply(reply.share()?),
        )),
        Doing::Waiting => Ok((gone(lost), gone(lost))),
        Doing::Dropped => Ok((gone(lost), gone(lost))),
    }
}

/// Why the link was lost.
fn gone(lost: Option<Why>) -> MuxReply
    ensures { result ≡ gone lost }
{
    match lost {
        Some(why) => MuxReply::Gone(why),
        None => MuxReply::Noted,
    }
}

/// An empty list with room for so many items.
fn with_room<T: Drop>(alloc: Global, count: usize) -> Result<Vec<T>, NoMemory>
    ensures { IfOk result (λ list. list.items ≡ []) }
{
    match Vec::with_capacity(alloc, count) {
        Ok(list) => Ok(list),
        Err(_) => Err(NoMemory),
    }
}
