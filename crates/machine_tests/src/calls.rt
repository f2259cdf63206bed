//! Calls, replies and histories of the lane machine, made of rows of plain values.

use lane_machine::{How, LaneCall, LaneReply, Lanes};
use orb_base::{
    Answer, Arc, Completed, ConnId, Due, Item, Job, Notice, Octets, Order, Outcome, Priority,
    SharedOctets, Sys, SysName, Text, What,
};
use std::alloc::Global;
use turn_cell::Entry;

/// A request: its connection, serial number, id, when a reply is due, priority, lane and size.
#[derive(Clone, Copy)]
pub struct Asked {
    pub conn: ConnId,
    pub serial: u32,
    pub id: u32,
    pub due: Due,
    pub priority: i16,
    pub lane: u8,
    pub size: u32,
}

/// What a request came to: a body of so many bytes, or an exception.
#[derive(Clone, Copy)]
pub enum Fate {
    Returned(usize),
    User,
    System,
}

/// A call: an offer of a request, an answer of the reading side and a withdrawal by id, a thread, and what it made of a request.
#[derive(Clone, Copy)]
pub enum Call {
    Offer(Asked),
    Post(ConnId, u32),
    Cancel(ConnId, u32),
    Take(u8),
    Finish(u8, Asked, Fate),
    Collect(ConnId),
    End(ConnId, How),
    Leave(u8),
}

/// A reply: a thread and whether it is lent, a request, what it came to, an answer of the reading side by id.
#[derive(Clone, Copy)]
pub enum Reply {
    Run(u8, bool),
    Kept,
    Full,
    Closing,
    Posted,
    Removed,
    Nothing,
    Given(Asked),
    Ended,
    Finished,
    Answered(Asked, Fate),
    Early(Asked),
    Transient(Asked),
    Noticed(ConnId, u32),
    Close,
    Error,
    Done,
    Noted,
}

/// A caller with its call and the reply.
#[derive(Clone, Copy)]
pub struct Row {
    pub caller: u32,
    pub call: Call,
    pub reply: Reply,
}

fn job_of(alloc: Global, asked: Asked) -> Option<Arc<Job>> {
    let priority = Priority::new(asked.priority)?;
    let operation = Text::new(alloc, b"op").ok()?;
    let job = Job {
        conn: asked.conn,
        serial: asked.serial,
        id: asked.id,
        order: Order::Little,
        due: asked.due,
        priority,
        lane: asked.lane,
        size: asked.size,
        target: 3,
        operation,
        body: Octets::new(alloc),
    };
    match Arc::new(alloc, job) {
        Ok(job) => Some(job),
        Err(_) => None,
    }
}

fn shared(alloc: Global, len: usize) -> Option<SharedOctets> {
    match vec![in alloc; 7u8; len] {
        Ok(body) => SharedOctets::new(alloc, Octets::from_vec(body)).ok(),
        Err(_) => None,
    }
}

fn outcome_of(alloc: Global, fate: Fate) -> Option<Outcome> {
    match fate {
        Fate::Returned(len) => Some(Outcome::Returned(shared(alloc, len)?)),
        Fate::User => Some(Outcome::User(shared(alloc, 0)?)),
        Fate::System => Some(Outcome::System(Sys {
            name: SysName::BadOperation,
            minor: 1,
            completed: Completed::No,
        })),
    }
}

fn answer_of(alloc: Global, asked: Asked, fate: Fate) -> Option<Answer> {
    let outcome = outcome_of(alloc, fate)?;
    match job_of(alloc, asked) {
        Some(job) => Some(Answer { job, outcome }),
        None => None,
    }
}

fn notice_of(conn: ConnId, id: u32) -> Notice {
    Notice {
        conn,
        order: Order::Little,
        id,
        what: What::Addressing,
    }
}

fn offer(alloc: Global, asked: Asked) -> Option<LaneCall> {
    match job_of(alloc, asked) {
        Some(job) => Some(LaneCall::Offer(job)),
        None => None,
    }
}

fn finish(alloc: Global, thread: u8, asked: Asked, fate: Fate) -> Option<LaneCall> {
    match answer_of(alloc, asked, fate) {
        Some(answer) => Some(LaneCall::Finish { thread, answer }),
        None => None,
    }
}

fn call_of(alloc: Global, call: Call) -> Option<LaneCall> {
    match call {
        Call::Offer(asked) => offer(alloc, asked),
        Call::Post(conn, id) => Some(LaneCall::Post(notice_of(conn, id))),
        Call::Cancel(conn, id) => Some(LaneCall::Cancel { conn, id }),
        Call::Take(thread) => Some(LaneCall::Take { thread }),
        Call::Finish(thread, asked, fate) => finish(alloc, thread, asked, fate),
        Call::Collect(conn) => Some(LaneCall::Collect { conn }),
        Call::End(conn, how) => Some(LaneCall::End { conn, how }),
        Call::Leave(slot) => Some(LaneCall::Leave { slot }),
    }
}

fn given(alloc: Global, asked: Asked) -> Option<LaneReply> {
    match job_of(alloc, asked) {
        Some(job) => Some(LaneReply::Given(job)),
        None => None,
    }
}

fn answered(alloc: Global, asked: Asked, fate: Fate) -> Option<LaneReply> {
    match answer_of(alloc, asked, fate) {
        Some(answer) => Some(LaneReply::Handed(Item::Answered(answer))),
        None => None,
    }
}

fn early(alloc: Global, asked: Asked) -> Option<LaneReply> {
    match job_of(alloc, asked) {
        Some(job) => Some(LaneReply::Handed(Item::Early(job))),
        None => None,
    }
}

fn transient(alloc: Global, asked: Asked) -> Option<LaneReply> {
    match job_of(alloc, asked) {
        Some(job) => Some(LaneReply::Handed(Item::Transient(job))),
        None => None,
    }
}

/// A reply that holds nothing of a request.
fn plain(reply: Reply) -> LaneReply {
    match reply {
        Reply::Run(thread, lent) => LaneReply::Run { thread, lent },
        Reply::Kept => LaneReply::Kept,
        Reply::Full => LaneReply::Full,
        Reply::Closing => LaneReply::Closing,
        Reply::Posted => LaneReply::Posted,
        Reply::Removed => LaneReply::Removed,
        Reply::Nothing => LaneReply::Nothing,
        Reply::Ended => LaneReply::Ended,
        Reply::Finished => LaneReply::Finished,
        Reply::Close => LaneReply::Close,
        Reply::Error => LaneReply::Error,
        Reply::Done => LaneReply::Done,
        _ => LaneReply::Noted,
    }
}

fn reply_of(alloc: Global, reply: Reply) -> Option<LaneReply> {
    match reply {
        Reply::Given(asked) => given(alloc, asked),
        Reply::Answered(asked, fate) => answered(alloc, asked, fate),
        Reply::Early(asked) => early(alloc, asked),
        Reply::Transient(asked) => transient(alloc, asked),
        Reply::Noticed(conn, id) => { Some(LaneReply::Handed(Item::Noticed(notice_of(conn, id)))) }
        _ => Some(plain(reply)),
    }
}

/// The entry of a row.
pub fn entry_of(alloc: Global, row: Row) -> Option<Entry<Lanes>> {
    let call = call_of(alloc, row.call)?;
    match reply_of(alloc, row.reply) {
        Some(reply) => Some(Entry {
            caller: row.caller,
            call,
            reply,
        }),
        None => None,
    }
}

/// The history of these rows.
pub fn history_of(alloc: Global, rows: &[Row]) -> Option<Vec<Entry<Lanes>>> {
    let mut history = Vec::new(alloc);
    for row in rows {
        let entry = entry_of(alloc, *row)?;
        if history.push(entry).is_err() {
            return None;
        }
    }
    Some(history)
}
