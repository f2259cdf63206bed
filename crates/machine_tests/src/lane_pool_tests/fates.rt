//! What a history tells of its requests, and of the reading sides that made them.

use super::storm::{CALLS, SLOTS, withdraws};
use lane_machine::{LaneCall, LaneReply, Lanes};
use orb_base::{ConnId, Item, Job};
use turn_cell::Entry;

/// How often each was told of a request.
#[derive(Drop)]
struct Fate {
    offered: u32,
    refused: u32,
    removed: u32,
    finished: u32,
    /// Its answer, or that it was refused, was collected.
    handed: u32,
}

/// Whether both are requests of one name.
fn is_same(job: &Job, other: &Job) -> bool {
    job.conn.is_same(other.conn) && job.serial == other.serial
}

/// Whether the reply hands over what became of the request.
fn hands(reply: &LaneReply, job: &Job) -> bool {
    match reply {
        LaneReply::Handed(Item::Answered(answer)) => is_same(answer.job.get(), job),
        LaneReply::Handed(Item::Transient(refused)) => is_same(refused.get(), job),
        _ => false,
    }
}

/// Adds what one entry tells of the request.
fn add(fate: &mut Fate, entry: &Entry<Lanes>, job: &Job) {
    match &entry.call {
        LaneCall::Offer(other) if is_same(other.get(), job) => {
            fate.offered = fate.offered.wrapping_add(1);
            if matches!(entry.reply, LaneReply::Full) {
                fate.refused = fate.refused.wrapping_add(1);
            }
        }
        LaneCall::Cancel { conn, id } if conn.is_same(job.conn) && *id == job.id => {
            if matches!(entry.reply, LaneReply::Removed) {
                fate.removed = fate.removed.wrapping_add(1);
            }
        }
        LaneCall::Finish { answer, .. } if is_same(answer.job.get(), job) => {
            fate.finished = fate.finished.wrapping_add(1);
        }
        _ if hands(&entry.reply, job) => fate.handed = fate.handed.wrapping_add(1),
        _ => {}
    }
}

/// Whether the request was offered once, and then refused, withdrawn or carried out, once; and its client was told of it once
/// unless it was withdrawn.
fn is_settled(history: &[Entry<Lanes>], job: &Job) -> bool {
    let mut fate = Fate {
        offered: 0,
        refused: 0,
        removed: 0,
        finished: 0,
        handed: 0,
    };
    for entry in history {
        add(&mut fate, entry, job);
    }
    let ends = (fate.refused, fate.removed, fate.finished, fate.handed);
    fate.offered == 1 && matches!(ends, (1, 0, 0, 1) | (0, 1, 0, 0) | (0, 0, 1, 1))
}

/// Whether each request that was offered is settled.
pub fn all_settled(history: &[Entry<Lanes>]) -> bool {
    for entry in history {
        if let LaneCall::Offer(job) = &entry.call
            && !is_settled(history, job.get())
        {
            return false;
        }
    }
    true
}

/// How many callers were told that there will be no task any more, and how many that nothing is owed any more.
pub fn count_told(history: &[Entry<Lanes>]) -> (u32, u32) {
    let mut ended = 0u32;
    let mut done = 0u32;
    for entry in history {
        match entry.reply {
            LaneReply::Ended => ended = ended.wrapping_add(1),
            LaneReply::Done => done = done.wrapping_add(1),
            _ => {}
        }
    }
    (ended, done)
}

/// Whether this is the slot's connection of this number.
fn is_due(conn: ConnId, slot: u8, nth: u32) -> bool {
    conn.slot == slot && u32::from(conn.nth) == nth && nth < 2
}

/// Whether the reading side of the slot was to make this call after so many.
fn is_next(call: &LaneCall, slot: u8, made: u32) -> bool {
    let nth = made / (CALLS + 1);
    let i = made % (CALLS + 1);
    match call {
        LaneCall::Offer(job) => {
            is_due(job.get().conn, slot, nth) && i < CALLS && !withdraws(i) && job.get().serial == i
        }
        LaneCall::Cancel { conn, id } => {
            is_due(*conn, slot, nth) && i < CALLS && withdraws(i) && *id == i.wrapping_sub(1)
        }
        LaneCall::End { conn, .. } => is_due(*conn, slot, nth) && i == CALLS,
        LaneCall::Leave { slot: left } => *left == slot && nth == 2 && i == 0,
        _ => false,
    }
}

/// Whether the reading side of a slot made its calls in their order, and all of them.
fn read_in_order(history: &[Entry<Lanes>], slot: u8) -> bool {
    let mut made = 0u32;
    for entry in history {
        if entry.caller == u32::from(slot) + 1 {
            if !is_next(&entry.call, slot, made) {
                return false;
            }
            made = made.wrapping_add(1);
        }
    }
    made == 2 * (CALLS + 1) + 1
}

/// Whether the reading sides of all slots made their calls in their order.
pub fn all_read(history: &[Entry<Lanes>]) -> bool {
    for slot in 0..SLOTS {
        if !read_in_order(history, slot) {
            return false;
        }
    }
    true
}
