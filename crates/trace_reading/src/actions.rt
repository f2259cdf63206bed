//! A call with its reply, by the words of its line.
ghost use Rattle.std.specs.Prelude.{◌≡◌, map};
ghost use Rattle.trace_reading.specs.ActionReading as Spec;
ghost use Rattle.trace_reading.specs.Choices.{option_ap, choice};

use crate::words::{count_number, long_number, number, parts_of, priority_number, small_number};
use lane_machine::How;
use orb_base::{ConnId, Due, Priority};
use trace_lines::{Action, CancelReply, CollectReply, OfferReply, OfferedRequest, PostReply};

/// What a request asks for.
#[derive(Clone, Copy)]
struct Demand {
    due: Due,
    priority: Priority,
    lane: u8,
    size: u32,
}

/// A connection by its two numbers.
fn conn_of(parts: &[&[u8]]) -> Option<ConnId>
    ensures { result ≡ Spec.conn_of (map (λ part. part.now) parts.now) }
{
    match parts {
        [slot, nth] => {
            let slot = small_number(slot)?;
            let nth = small_number(nth)?;
            Some(ConnId { slot, nth })
        }
        _ => None,
    }
}

/// A connection.
fn read_conn(word: &[u8]) -> Option<ConnId>
    ensures { result ≡ Spec.conn_in word.now }
{
    let parts = parts_of(word, b'.')?;
    conn_of(parts.as_slice())
}

/// When a reply is due.
fn read_due(word: &[u8]) -> Option<Due>
    ensures { result ≡ Spec.due_in word.now }
{
    let n = number(word, 3)?;
    Some(match n {
        0 => Due::Nothing,
        1 => Due::Early,
        _ => Due::Late,
    })
}

/// What a request asks for.
fn read_demand(due: &[u8], priority: &[u8], lane: &[u8], size: &[u8]) -> Option<Demand>
    ensures { result ≡ Spec.demand_in due.now priority.now lane.now size.now }
{
    let due = read_due(due)?;
    let priority = priority_number(priority)?;
    let lane = small_number(lane)?;
    let size = long_number(size)?;
    Some(Demand {
        due,
        priority,
        lane,
        size,
    })
}

/// A request, by its connection, serial number, id and what it asks for.
fn read_request(
    conn: &[u8],
    serial: &[u8],
    id: &[u8],
    demand: Option<Demand>,
) -> Option<OfferedRequest>
    ensures { result ≡ Spec.request_in conn.now serial.now id.now demand }
{
    let conn = read_conn(conn)?;
    let serial = long_number(serial)?;
    let id = long_number(id)?;
    let demand = demand?;
    Some(OfferedRequest {
        conn,
        serial,
        id,
        due: demand.due,
        priority: demand.priority,
        lane: demand.lane,
        size: demand.size,
    })
}

/// The reply to an offered request that names no thread.
fn read_refusal(word: &[u8]) -> Option<OfferReply>
    ensures { result ≡ choice Spec.offer_words word.now }
{
    if word == b"kept".as_slice() {
        Some(OfferReply::Kept)
    } else if word == b"full".as_slice() {
        Some(OfferReply::Full)
    } else if word == b"closing".as_slice() {
        Some(OfferReply::Closing)
    } else {
        None
    }
}

/// The reply to an offered request that names a thread.
fn read_given(word: &[u8], thread: &[u8]) -> Option<OfferReply>
    ensures { result ≡ option_ap (choice Spec.thread_words word.now) (Spec.small_in thread.now) }
{
    if word == b"run".as_slice() {
        let thread = small_number(thread)?;
        Some(OfferReply::Run(thread))
    } else if word == b"lent".as_slice() {
        let thread = small_number(thread)?;
        Some(OfferReply::Lent(thread))
    } else {
        None
    }
}

/// The reply to an offered request.
fn read_offer_reply(words: &[&[u8]]) -> Option<OfferReply>
    ensures { result ≡ Spec.offer_reply_in (map (λ word. word.now) words.now) }
{
    match words {
        [word] => read_refusal(word),
        [word, thread] => read_given(word, thread),
        _ => None,
    }
}

/// The reply to an answer of the reading side.
fn read_post_reply(word: &[u8]) -> Option<PostReply>
    ensures { result ≡ choice Spec.post_words word.now }
{
    if word == b"posted".as_slice() {
        Some(PostReply::Posted)
    } else if word == b"closing".as_slice() {
        Some(PostReply::Closing)
    } else {
        None
    }
}

/// The reply to a withdrawal.
fn read_cancel_reply(word: &[u8]) -> Option<CancelReply>
    ensures { result ≡ choice Spec.cancel_words word.now }
{
    if word == b"removed".as_slice() {
        Some(CancelReply::Removed)
    } else if word == b"nothing".as_slice() {
        Some(CancelReply::Nothing)
    } else if word == b"closing".as_slice() {
        Some(CancelReply::Closing)
    } else {
        None
    }
}

/// The task of a thread, or that none comes any more.
fn read_task(word: &[u8]) -> Option<Option<usize>>
    ensures { result ≡ Spec.task_in word.now }
{
    if word == b"ended".as_slice() {
        return Some(None);
    }
    let task = count_number(word)?;
    Some(Some(task))
}

/// That nothing comes any more.
fn read_last(word: &[u8]) -> Option<CollectReply>
    ensures { result ≡ choice Spec.last_words word.now }
{
    if word == b"close".as_slice() {
        Some(CollectReply::Close)
    } else if word == b"error".as_slice() {
        Some(CollectReply::Error)
    } else if word == b"done".as_slice() {
        Some(CollectReply::Done)
    } else {
        None
    }
}

/// What a writing side was handed.
fn read_handed(word: &[u8], request: &[u8]) -> Option<CollectReply>
    ensures { result ≡ option_ap (choice Spec.handed_words word.now) (Spec.long_in request.now) }
{
    if word == b"answered".as_slice() {
        let request = count_number(request)?;
        Some(CollectReply::Answered(request))
    } else if word == b"early".as_slice() {
        let request = count_number(request)?;
        Some(CollectReply::Early(request))
    } else if word == b"transient".as_slice() {
        let request = count_number(request)?;
        Some(CollectReply::Transient(request))
    } else if word == b"posted".as_slice() {
        let id = long_number(request)?;
        Some(CollectReply::Posted(id))
    } else {
        None
    }
}

/// The reply to a writing side.
fn read_collect_reply(words: &[&[u8]]) -> Option<CollectReply>
    ensures { result ≡ Spec.collect_reply_in (map (λ word. word.now) words.now) }
{
    match words {
        [word] => read_last(word),
        [word, request] => read_handed(word, request),
        _ => None,
    }
}

/// How the reading of a connection ended.
fn read_how(word: &[u8]) -> Option<How>
    ensures { result ≡ choice Spec.how_words word.now }
{
    if word == b"quiet".as_slice() {
        Some(How::Quiet)
    } else if word == b"bad".as_slice() {
        Some(How::Bad)
    } else if word == b"shut".as_slice() {
        Some(How::Shut)
    } else {
        None
    }
}

/// An offer.
fn read_offer(words: &[&[u8]]) -> Option<Action>
    ensures { result ≡ Spec.offer_in (map (λ word. word.now) words.now) }
{
    match words {
        [conn, serial, id, due, priority, lane, size, reply @ ..] => {
            let demand = read_demand(due, priority, lane, size);
            let request = read_request(conn, serial, id, demand)?;
            let reply = read_offer_reply(reply)?;
            Some(Action::Offer { request, reply })
        }
        _ => None,
    }
}

/// An answer of the reading side.
fn read_post(words: &[&[u8]]) -> Option<Action>
    ensures { result ≡ Spec.post_in (map (λ word. word.now) words.now) }
{
    match words {
        [conn, id, reply] => {
            let conn = read_conn(conn)?;
            let id = long_number(id)?;
            let reply = read_post_reply(reply)?;
            Some(Action::Post { conn, id, reply })
        }
        _ => None,
    }
}

/// A withdrawal.
fn read_cancel(words: &[&[u8]]) -> Option<Action>
    ensures { result ≡ Spec.cancel_in (map (λ word. word.now) words.now) }
{
    match words {
        [conn, id, reply] => {
            let conn = read_conn(conn)?;
            let id = long_number(id)?;
            let reply = read_cancel_reply(reply)?;
            Some(Action::Cancel { conn, id, reply })
        }
        _ => None,
    }
}

/// A thread that takes its task.
fn read_take(words: &[&[u8]]) -> Option<Action>
    ensures { result ≡ Spec.take_in (map (λ word. word.now) words.now) }
{
    match words {
        [thread, task] => {
            let thread = small_number(thread)?;
            let task = read_task(task)?;
            Some(Action::Take { thread, task })
        }
        _ => None,
    }
}

/// A thread that has carried out its task.
fn read_finish(words: &[&[u8]]) -> Option<Action>
    ensures { result ≡ Spec.finish_in (map (λ word. word.now) words.now) }
{
    match words {
        [thread, request, body_len] => {
            let thread = small_number(thread)?;
            let request = count_number(request)?;
            let body_len = count_number(body_len)?;
            Some(Action::Finish {
                thread,
                request,
                body_len,
            })
        }
        _ => None,
    }
}

/// A writing side that asks.
fn read_collect(words: &[&[u8]]) -> Option<Action>
    ensures { result ≡ Spec.collect_in (map (λ word. word.now) words.now) }
{
    match words {
        [conn, reply @ ..] => {
            let conn = read_conn(conn)?;
            let reply = read_collect_reply(reply)?;
            Some(Action::Collect { conn, reply })
        }
        _ => None,
    }
}

/// A reading side that has ended.
fn read_end(words: &[&[u8]]) -> Option<Action>
    ensures { result ≡ Spec.end_in (map (λ word. word.now) words.now) }
{
    match words {
        [conn, how] => {
            let conn = read_conn(conn)?;
            let how = read_how(how)?;
            Some(Action::End { conn, how })
        }
        _ => None,
    }
}

/// A slot that leaves.
fn read_leave(words: &[&[u8]]) -> Option<Action>
    ensures { result ≡ Spec.leave_in (map (λ word. word.now) words.now) }
{
    match words {
        [slot] => {
            let slot = small_number(slot)?;
            Some(Action::Leave { slot })
        }
        _ => None,
    }
}

/// A call with its reply, by its verb and the words after that. None where they are no such call. Work grows with the words.
pub fn read_action(verb: &[u8], words: &[&[u8]]) -> Option<Action>
    ensures { result ≡ Spec.action_in verb.now (map (λ word. word.now) words.now) }
{
    if verb == b"offer".as_slice() {
        read_offer(words)
    } else if verb == b"post".as_slice() {
        read_post(words)
    } else if verb == b"cancel".as_slice() {
        read_cancel(words)
    } else if verb == b"take".as_slice() {
        read_take(words)
    } else if verb == b"finish".as_slice() {
        read_finish(words)
    } else if verb == b"collect".as_slice() {
        read_collect(words)
    } else if verb == b"end".as_slice() {
        read_end(words)
    } else if verb == b"leave".as_slice() {
        read_leave(words)
    } else {
        None
    }
}
