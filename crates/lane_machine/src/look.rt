//! Scans over what the lane machine holds.
ghost use Rattle.std.specs.Prelude.{◌≡◌, ◌==◌, position, find, count_by, option_map};
ghost use Rattle.std.specs.List.{list_any};
ghost use Rattle.orb_base.specs.Conn.{same_conn};
ghost use Rattle.orb_base.specs.Outcomes.{body_len};
ghost use Rattle.lane_machine.specs.Machine.{item_conn};
ghost use Rattle.lane_machine.specs.Readiness.{all_below};

use crate::call::How;
use orb_base::{ConnId, Due, Item, Job, Outcome};

/// The connection that an item is for.
pub fn conn_of(item: &Item) -> ConnId
    ensures { result ≡ item_conn item.now }
{
    match item {
        Item::Answered(answer) => answer.job.get().conn,
        Item::Early(job) => job.get().conn,
        Item::Transient(job) => job.get().conn,
        Item::Noticed(notice) => notice.conn,
    }
}

/// The connection of a request.
pub fn caller_of(job: &Job) -> ConnId
    ensures { result ≡ job.now.conn }
{
    job.conn
}

/// The size of a request.
pub fn size_of(job: &Job) -> u32
    ensures { result ≡ job.now.size }
{
    job.size
}

/// The lane of a request.
pub fn lane_of(job: &Job) -> u8
    ensures { result ≡ job.now.lane }
{
    job.lane
}

/// When the reply to a request is due.
pub fn due_of(job: &Job) -> Due
    ensures { result ≡ job.now.due }
{
    job.due
}

/// The length of an outcome's body.
pub fn body_len(outcome: &Outcome) -> usize
    ensures { result ≡ body_len outcome.now }
{
    match outcome {
        Outcome::Returned(body) => body.as_slice().len(),
        Outcome::User(body) => body.as_slice().len(),
        Outcome::System(_) => 0,
    }
}

/// The place of the first item of a connection.
pub fn first_item(items: &[Item], conn: ConnId) -> Option<usize>
    ensures { result ≡ position (λ i. same_conn (item_conn i) conn) items.now }
{
    items.iter().position(|item| conn_of(item).is_same(conn))
}

/// How a connection ended.
pub fn how_ended(ended: &[(ConnId, How)], conn: ConnId) -> Option<How>
    ensures { result ≡ option_map (λ e. e.1) (find (λ e. same_conn e.0 conn) ended.now) }
{
    ended
        .iter()
        .find(|end| end.0.is_same(conn))
        .map(|end| end.1)
}

/// Whether the connection is one of these.
pub fn is_among(conns: &[ConnId], conn: ConnId) -> bool
    ensures { result ≡ list_any (λ c. same_conn c conn) conns.now }
{
    conns.iter().any(|c| c.is_same(conn))
}

/// How many items the connection has.
pub fn count_items(items: &[Item], conn: ConnId) -> usize
    ensures { result ≡ count_by (λ i. same_conn (item_conn i) conn) items.now }
{
    items
        .iter()
        .filter(|item| conn_of(item).is_same(conn))
        .count()
}

/// Whether the slot is one of these.
pub fn has_left(left: &[u8], slot: u8) -> bool
    ensures { result ≡ list_any (λ l. l == slot) left.now }
{
    left.iter().any(|l| *l == slot)
}

/// Whether each slot below this number is one of these.
#[tactic(auto, using(crate::proofs::Slots::none_below, crate::proofs::Slots::one_more, crate::proofs::Slots::one_stays))]
pub fn all_left(left: &[u8], slots: u8) -> bool
    ensures { result ≡ all_below (λ slot. list_any (λ l. l == slot) left.now) slots }
{
    for slot in 0..slots {
        if !has_left(left, slot) {
            return false;
        }
    }
    true
}
