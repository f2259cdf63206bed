//! Scans over the lists of a run.
ghost use Rattle.std.specs.Prelude.{◌≡◌, ◌==◌, max, position, find, count_by, option_map, if◌then◌else◌};
ghost use Rattle.std.specs.List.{list_any};
ghost use Rattle.orb_base.specs.Conn.{same_conn};
ghost use Rattle.thread_borrowing.specs.ThreadList.{works_for};
ghost use Rattle.thread_borrowing.specs.Choice.{greatest, can_start, rank, chosen_thread};
ghost use Rattle.lane_machine.specs.Machine.{item_conn};
ghost use Rattle.lane_machine.specs.Readiness.{all_below};

use crate::owed_item::OwedItem;
use crate::worker::Worker;
use lane_machine::How;
use orb_base::ConnId;

/// The place of the first message of a connection.
pub fn first_item(items: &[OwedItem], conn: ConnId) -> Option<usize>
    ensures { result ≡ position (λ i. same_conn (item_conn i) conn) items.now }
{
    items.iter().position(|item| item.conn().is_same(conn))
}

/// How many messages are owed to the connection.
pub fn count_items(items: &[OwedItem], conn: ConnId) -> usize
    ensures { result ≡ count_by (λ i. same_conn (item_conn i) conn) items.now }
{
    items
        .iter()
        .filter(|item| item.conn().is_same(conn))
        .count()
}

/// How many threads have a request of the connection.
pub fn count_workers(threads: &[Worker], conn: ConnId) -> usize
    ensures { result ≡ count_by (λ t. works_for conn t.doing) threads.now }
{
    threads
        .iter()
        .filter(|thread| thread.works_for(conn))
        .count()
}

/// How a connection ended.
pub fn how_ended(ended: &[(ConnId, How)], conn: ConnId) -> Option<How>
    ensures { result ≡ option_map (λ e. e.1) (find (λ e. same_conn e.0 conn) ended.now) }
{
    ended
        .iter()
        .find(|end| end.0.is_same(conn))
        .map(|end| end.1)
}

/// Whether the connection is one of these.
pub fn is_among(conns: &[ConnId], conn: ConnId) -> bool
    ensures { result ≡ list_any (λ c. same_conn c conn) conns.now }
{
    conns.iter().any(|c| c.is_same(conn))
}

/// Whether the slot is one of these.
pub fn has_left(left: &[u8], slot: u8) -> bool
    ensures { result ≡ list_any (λ l. l == slot) left.now }
{
    left.iter().any(|l| *l == slot)
}

/// Whether each slot below this number is one of these.
#[tactic(auto, using(lane_machine::proofs::Slots::none_below, lane_machine::proofs::Slots::one_more))]
pub fn all_left(left: &[u8], slots: u8) -> bool
    ensures { result ≡ all_below (λ slot. list_any (λ l. l == slot) left.now) slots }
{
    for slot in 0..slots {
        if !has_left(left, slot) {
            return false;
        }
    }
    true
}

/// The number of the thread that is given a request of this lane: of the highest lane that may run it, and there a static one, then one
/// that was started, then another; among these the first. Two passes.
#[tactic(auto, unfolding(thread_borrowing::specs::Choice::chosen_thread))]
pub fn chosen_thread(threads: &[Worker], borrowing: bool, lane: u8) -> Option<usize>
    ensures { result ≡ chosen_thread borrowing lane threads.now }
{
    let most = greatest_rank(threads, borrowing, lane);
    threads.iter().position(|thread| thread.can_start(borrowing, lane) && thread.rank() == most)
}

/// The greatest rank of the threads that can start with a request of this lane, or 0.
fn greatest_rank(threads: &[Worker], borrowing: bool, lane: u8) -> u32
    ensures { result ≡ greatest (can_start borrowing lane) rank threads.now }
{
    let mut most = 0;
    for thread in threads {
        most = higher_rank(most, thread, borrowing, lane);
    }
    most
}

/// The greater of this rank and that of the thread, if it can start with a request of this lane.
fn higher_rank(most: u32, thread: &Worker, borrowing: bool, lane: u8) -> u32
    ensures { result ≡ (if can_start borrowing lane thread.now then max most (rank thread.now) else most) }
{
    if thread.can_start(borrowing, lane) {
        most.max(thread.rank())
    } else {
        most
    }
}
