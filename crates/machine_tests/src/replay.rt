//! The lane machine, run over the calls that the lines of a trace say.
ghost use Rattle.std.specs.Prelude.{◌≡◌, ◌==◌, true, length, slice_get, option_map, find, IfSome};
ghost use Rattle.std.specs.Bool.{OnTrue};
ghost use Rattle.std.specs.List.{list_any};
ghost use Rattle.orb_base.specs.Conn.{same_conn};
ghost use Rattle.orb_base.specs.Pool.{HasSlots};
ghost use Rattle.lane_machine.specs.State.{opening};
ghost use Rattle.lane_machine.specs.Machine.{step};
ghost use Rattle.lane_machine.specs.Readiness.{IsSound, HasLane};
ghost use Rattle.lane_machine.specs.declared.call.LaneReply.TheVariants as reply;
ghost use Rattle.machine_tests.specs.Knowing.{AreEmpty, is_quiet, Tried};

use lane_machine::{How, LaneCall, LaneReply, Lanes};
use orb_base::limits::{MAX_BODY, MAX_CONNECTIONS, MAX_SLOTS};
use orb_base::{
    Answer, Arc, ConnId, Item, Job, List, Notice, Order, Outcome, PoolSpec, SharedOctets, Text,
    What,
};
use std::alloc::Global;
use std::marker::Model;
use trace_lines::{
    Action, CancelReply, CollectReply, OfferReply, OfferedRequest, PostReply, TraceLine,
};
use trace_runs::Run;

/// What each thread carries out, by its number.
type Hands = List<Option<Arc<Job>>>;

/// The lane machine, with what its callers know of it: which request each thread carries out, which connections have ended and which
/// slots have left. By that no call is made that the machine can't be given: it says nothing of such a call.
#[derive(Drop)]
struct Replay {
    lanes: Lanes,
    pool: PoolSpec,
    hands: Hands,
    ended: List<(ConnId, How)>,
    left: List<u8>,
}

impl Model for Replay {
    ghost use Rattle.lane_machine.specs.State.{State};
    ghost use Rattle.machine_tests.specs.Knowing.{IsKnown};

    ghost Value = { State };

    ghost view = { λ r. r.lanes };

    ghost invariant = { λ r. IsKnown r.lanes r.pool r.hands.items r.ended.items r.left.items };
}

/// Makes a call that is answered now. None where it waits, or where memory ran out.
fn tried(lanes: &mut Lanes, call: &LaneCall) -> Option<LaneReply>
    requires { IsSound lanes.old call.now }
    ensures { Tried lanes.old (step lanes.old call.now) lanes.new result }
{
    if !lanes.ready(call) {
        return None;
    }
    match lanes.apply(call) {
        Ok((_, reply)) => Some(reply),
        Err(_) => None,
    }
}

/// Empty hands for so many threads.
#[tactic(auto, using(crate::proofs::Known::empty_none, crate::proofs::Known::empty_more))]
fn no_hands(alloc: Global, threads: usize) -> Option<Hands>
    ensures { IfSome result (λ hands. AreEmpty hands.items) }
{
    let mut hands = List::new(alloc);
    for _ in 0..threads {
        match hands.push(None) {
            Ok(()) => {}
            Err(_) => return None,
        }
    }
    Some(hands)
}

/// Whether a run may have so many slots and connections per slot.
fn are_slots(slots: u8, per_slot: u8) -> bool
    ensures { OnTrue result (HasSlots slots per_slot) }
{
    let (slots, per_slot) = (usize::from(slots), usize::from(per_slot));
    1 <= slots
        && slots <= MAX_SLOTS as usize
        && 1 <= per_slot
        && slots * per_slot <= MAX_CONNECTIONS as usize
}

/// Whether the request's lane is there, and with lanes has its priority.
fn has_lane(pool: &PoolSpec, job: &Job) -> bool
    ensures { OnTrue result (HasLane pool.now.laned job.now (slice_get pool.now.lanes job.now.lane)) }
{
    match pool.lanes.get(usize::from(job.lane)) {
        Some(lane) => !pool.laned || lane.priority == job.priority,
        None => false,
    }
}

/// How a connection ended.
fn how_ended(ended: &[(ConnId, How)], conn: ConnId) -> Option<How>
    ensures { result ≡ option_map (λ e. e.1) (find (λ e. same_conn e.0 conn) ended.now) }
{
    ended
        .iter()
        .find(|end| end.0.is_same(conn))
        .map(|end| end.1)
}

/// Whether the slot is one of these.
fn has_left(left: &[u8], slot: u8) -> bool
    ensures { result ≡ list_any (λ l. l == slot) left.now }
{
    left.iter().any(|l| *l == slot)
}

/// The request that a line says.
fn job_of(alloc: Global, asked: &OfferedRequest) -> Option<Arc<Job>> {
    let operation = Text::new(alloc, b"").ok()?;
    let job = Job {
        conn: asked.conn,
        serial: asked.serial,
        id: asked.id,
        order: Order::Big,
        due: asked.due,
        priority: asked.priority,
        lane: asked.lane,
        size: asked.size,
        target: 0,
        operation,
        body: List::new(alloc),
    };
    Arc::new(alloc, job).ok()
}

/// The answer of the reading side that a line says.
fn notice_of(conn: ConnId, id: u32) -> Notice {
    Notice {
        conn,
        order: Order::Big,
        id,
        what: What::Bound,
    }
}

/// A body of so many bytes.
fn body_of(alloc: Global, len: usize) -> Option<SharedOctets>
    ensures { IfSome result (λ body. length body ≡ len) }
{
    match vec![in alloc; 0u8; len] {
        Ok(body) => SharedOctets::new(alloc, List::from_vec(body)).ok(),
        Err(_) => None,
    }
}

/// The machine at the opening of a run.
fn opened(alloc: Global, run: &Run) -> Option<Lanes>
    ensures { IfSome result (λ lanes. lanes ≡ opening run.now.pool run.now.slots run.now.per_slot) }
{
    if !run.pool.well_formed() || !are_slots(run.slots, run.per_slot) {
        return None;
    }
    match Lanes::new(alloc, &run.pool, run.slots, run.per_slot) {
        Ok(lanes) => Some(lanes),
        Err(_) => None,
    }
}

/// An equal description of a pool.
fn copy_of(alloc: Global, pool: &PoolSpec) -> Option<PoolSpec>
    ensures { IfSome result (λ copy. copy ≡ pool.now) }
{
    match pool.copy(alloc) {
        Ok(copy) => Some(copy),
        Err(_) => None,
    }
}

/// The request that a thread is given. None where the reply has none, or where memory ran out.
fn task_of(said: &LaneReply) -> Option<Arc<Job>>
    ensures { IfSome result (λ job. said.now ≡ reply.Given job) }
{
    match said {
        LaneReply::Given(job) => match job.share() {
            Ok(job) => Some(job),
            Err(_) => None,
        },
        _ => None,
    }
}

impl Replay {
    /// The machine at the opening of a run.
    #[tactic(auto, using(crate::proofs::Known::opening_known))]
    fn new(alloc: Global, run: &Run) -> Option<Replay> {
        let lanes = opened(alloc, run)?;
        let hands = no_hands(alloc, lanes.count_threads())?;
        let pool = copy_of(alloc, &run.pool)?;
        Some(Replay {
            lanes,
            pool,
            hands,
            ended: List::new(alloc),
            left: List::new(alloc),
        })
    }

    /// Makes an Offer, a Post, a Cancel or a Collect: what the threads carry out, and what has ended, stays as it is.
    fn ask(&mut self, call: &LaneCall) -> Option<LaneReply>
        requires sound { IsSound self.old call.now }
        requires quiet { is_quiet call.now ≡ true }
    {
        tried(&mut self.lanes, call)
    }

    /// A request is offered.
    fn offer(&mut self, alloc: Global, asked: &OfferedRequest) -> Option<LaneReply> {
        let job = job_of(alloc, asked)?;
        if has_lane(&self.pool, job.get()) {
            self.ask(&LaneCall::Offer(job))
        } else {
            None
        }
    }

    /// A thread asks for its task.
    #[tactic(auto, using(crate::proofs::Known::take_known))]
    fn take(&mut self, thread: u8) -> Option<LaneReply> {
        let at = usize::from(thread);
        if at >= self.lanes.count_threads() || at >= self.hands.len() {
            return None;
        }
        let reply = tried(&mut self.lanes, &LaneCall::Take { thread })?;
        if let Some(job) = task_of(&reply) {
            self.hands.replace(at, Some(job));
        }
        Some(reply)
    }

    /// A thread has carried out a request, whose answer has a body of so many bytes. Where it carries out another one, the machine can't
    /// be given the call: the run is at its first wrong entry, and what the thread carries out isn't known any more.
    fn finish(
        &mut self,
        alloc: Global,
        thread: u8,
        asked: &OfferedRequest,
        body_len: usize,
    ) -> Option<LaneReply> {
        let at = usize::from(thread);
        if body_len > MAX_BODY || at >= self.hands.len() {
            return None;
        }
        let body = body_of(alloc, body_len)?;
        match self.hands.replace(at, None) {
            Some(job) if is_same(job.get(), asked) => {
                let outcome = Outcome::Returned(body);
                let answer = Answer { job, outcome };
                tried(&mut self.lanes, &LaneCall::Finish { thread, answer })
            }
            _ => None,
        }
    }

    /// A connection's reading side has ended.
    #[tactic(auto, using(crate::proofs::Known::end_known))]
    fn end(&mut self, conn: ConnId, how: How) -> Option<LaneReply> {
        if how_ended(self.ended.as_slice(), conn).is_some() || self.ended.reserve(1).is_err() {
            return None;
        }
        let reply = tried(&mut self.lanes, &LaneCall::End { conn, how })?;
        match self.ended.push((conn, how)) {
            Ok(()) => Some(reply),
            Err(_) => None,
        }
    }

    /// A slot will read no connection any more.
    #[tactic(auto, using(crate::proofs::Known::leave_known))]
    fn leave(&mut self, slot: u8) -> Option<LaneReply> {
        if has_left(self.left.as_slice(), slot) || self.left.reserve(1).is_err() {
            return None;
        }
        let reply = tried(&mut self.lanes, &LaneCall::Leave { slot })?;
        match self.left.push(slot) {
            Ok(()) => Some(reply),
            Err(_) => None,
        }
    }

    /// Whether a request is offered and answered so.
    fn offers(&mut self, alloc: Global, asked: &OfferedRequest, want: OfferReply) -> bool {
        match self.offer(alloc, asked) {
            Some(reply) => is_offer_reply(&reply, want),
            None => false,
        }
    }

    /// Whether a Post, a Cancel or a Collect is answered as the line at this place says.
    fn asks(&mut self, call: &LaneCall, lines: &[TraceLine], at: usize, line: &Action) -> bool
        requires sound { IsSound self.old call.now }
        requires quiet { is_quiet call.now ≡ true }
    {
        match self.ask(call) {
            Some(reply) => is_reply(lines, at, &reply, line),
            None => false,
        }
    }

    /// Whether a thread asks for its task, and is given the request of this number, or none any more.
    fn takes(&mut self, lines: &[TraceLine], thread: u8, task: Option<usize>) -> bool {
        match self.take(thread) {
            Some(reply) => is_task(lines, &reply, task),
            None => false,
        }
    }

    /// Whether a thread may finish the request of this number.
    fn finishes(
        &mut self,
        alloc: Global,
        lines: &[TraceLine],
        thread: u8,
        request: usize,
        body_len: usize,
    ) -> bool {
        match nth_offer(lines, request) {
            Some(asked) => self.finish(alloc, thread, &asked, body_len).is_some(),
            None => false,
        }
    }

    /// Whether the machine answers the call of the line at a place as that line says.
    fn follows(&mut self, alloc: Global, lines: &[TraceLine], at: usize, line: &Action) -> bool {
        match line {
            Action::Offer { request, reply } => self.offers(alloc, request, *reply),
            Action::Post { conn, id, .. } => {
                self.asks(&LaneCall::Post(notice_of(*conn, *id)), lines, at, line)
            }
            Action::Cancel { conn, id, .. } => {
                let (conn, id) = (*conn, *id);
                self.asks(&LaneCall::Cancel { conn, id }, lines, at, line)
            }
            Action::Take { thread, task } => self.takes(lines, *thread, *task),
            Action::Finish {
                thread,
                request,
                body_len,
            } => self.finishes(alloc, lines, *thread, *request, *body_len),
            Action::Collect { conn, .. } => {
                self.asks(&LaneCall::Collect { conn: *conn }, lines, at, line)
            }
            Action::End { conn, how } => self.end(*conn, *how).is_some(),
            Action::Leave { slot } => self.leave(*slot).is_some(),
        }
    }
}

/// The request that a line offers.
fn offered(line: &TraceLine) -> Option<OfferedRequest> {
    match line.action {
        Action::Offer { request, .. } => Some(request),
        _ => None,
    }
}

/// The request of a number.
fn nth_offer(lines: &[TraceLine], k: usize) -> Option<OfferedRequest> {
    lines.iter().filter_map(|line| offered(line)).nth(k)
}

/// The length of the answer that a line says of the request of a number.
fn answered(line: &TraceLine, k: usize) -> Option<usize> {
    match line.action {
        Action::Finish {
            request,
            body_len,
            ..
        } if request == k => Some(body_len),
        _ => None,
    }
}

/// The length of the last answer to the request of a number before a place, or 0.
fn last_len(lines: &[TraceLine], at: usize, k: usize) -> usize {
    let before = lines.iter().take(at);
    match before.filter_map(|line| answered(line, k)).last() {
        Some(len) => len,
        None => 0,
    }
}

/// Whether a request is the one that a line offers, by all that the line says of it.
fn is_same(job: &Job, asked: &OfferedRequest) -> bool {
    job.conn == asked.conn
        && job.serial == asked.serial
        && job.id == asked.id
        && job.due == asked.due
        && job.priority == asked.priority
        && job.lane == asked.lane
        && job.size == asked.size
}

/// Whether a request is the one of this number.
fn is_nth(lines: &[TraceLine], job: &Job, k: usize) -> bool {
    match nth_offer(lines, k) {
        Some(asked) => is_same(job, &asked),
        None => false,
    }
}

/// Whether it is the reply to an offered request.
fn is_offer_reply(reply: &LaneReply, want: OfferReply) -> bool {
    match want {
        OfferReply::Run(t) =>
            matches!(reply, LaneReply::Run { thread, lent: false } if *thread == t),
        OfferReply::Lent(t) =>
            matches!(reply, LaneReply::Run { thread, lent: true } if *thread == t),
        OfferReply::Kept => matches!(reply, LaneReply::Kept),
        OfferReply::Full => matches!(reply, LaneReply::Full),
        OfferReply::Closing => matches!(reply, LaneReply::Closing),
    }
}

/// Whether it is the reply to an answer of the reading side.
fn is_post_reply(reply: &LaneReply, want: PostReply) -> bool {
    match want {
        PostReply::Posted => matches!(reply, LaneReply::Posted),
        PostReply::Closing => matches!(reply, LaneReply::Closing),
    }
}

/// Whether it is the reply to a withdrawal.
fn is_cancel_reply(reply: &LaneReply, want: CancelReply) -> bool {
    match want {
        CancelReply::Removed => matches!(reply, LaneReply::Removed),
        CancelReply::Nothing => matches!(reply, LaneReply::Nothing),
        CancelReply::Closing => matches!(reply, LaneReply::Closing),
    }
}

/// Whether it is the reply to a thread that asks for its task.
fn is_task(lines: &[TraceLine], reply: &LaneReply, want: Option<usize>) -> bool {
    match (reply, want) {
        (LaneReply::Given(job), Some(k)) => is_nth(lines, job.get(), k),
        (LaneReply::Ended, None) => true,
        _ => false,
    }
}

/// Whether an outcome is a body of so many bytes.
fn has_len(outcome: &Outcome, len: usize) -> bool {
    match outcome {
        Outcome::Returned(body) => body.as_slice().len() == len,
        _ => false,
    }
}

/// Whether it is what is handed to a writing side at this place.
fn is_item(lines: &[TraceLine], at: usize, item: &Item, want: CollectReply) -> bool {
    match (item, want) {
        (Item::Answered(answer), CollectReply::Answered(k)) => {
            is_nth(lines, answer.job.get(), k) && has_len(&answer.outcome, last_len(lines, at, k))
        }
        (Item::Early(job), CollectReply::Early(k)) => is_nth(lines, job.get(), k),
        (Item::Transient(job), CollectReply::Transient(k)) => is_nth(lines, job.get(), k),
        (Item::Noticed(notice), CollectReply::Posted(id)) => notice.id == id,
        _ => false,
    }
}

/// Whether it is the reply to a writing side at this place.
fn is_handed(lines: &[TraceLine], at: usize, reply: &LaneReply, want: CollectReply) -> bool {
    match reply {
        LaneReply::Handed(item) => is_item(lines, at, item, want),
        LaneReply::Close => matches!(want, CollectReply::Close),
        LaneReply::Error => matches!(want, CollectReply::Error),
        LaneReply::Done => matches!(want, CollectReply::Done),
        _ => false,
    }
}

/// Whether it is the reply of the line at this place, which is a Post, a Cancel or a Collect.
fn is_reply(lines: &[TraceLine], at: usize, reply: &LaneReply, line: &Action) -> bool {
    match line {
        Action::Post { reply: want, .. } => is_post_reply(reply, *want),
        Action::Cancel { reply: want, .. } => is_cancel_reply(reply, *want),
        Action::Collect { reply: want, .. } => is_handed(lines, at, reply, *want),
        _ => false,
    }
}

/// How many entries of a run come before the first one whose call the machine can't be given, has to wait, or answers otherwise; all
/// of them where there is none. None where memory ran out at the opening, or no machine opens so.
pub fn count_followed(alloc: Global, run: &Run) -> Option<usize> {
    let mut replay = Replay::new(alloc, run)?;
    let lines = run.lines.as_slice();
    for (i, line) in lines.iter().enumerate() {
        if !replay.follows(alloc, lines, i, &line.action) {
            return Some(i);
        }
    }
    Some(lines.len())
}
