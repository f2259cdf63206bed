//! The calls of a connection's reading side, by its pass.
ghost use Rattle.std.specs.Prelude.{◌≡◌, true, false, reverse};
ghost use Rattle.pipe_laws.specs.Legality.{IsHeardCall, AreHeardCalls};
ghost use Rattle.pipe_laws.specs.Serials.{IsNumbered, CountsFrom};
ghost use Rattle.lane_machine.specs.declared.call.LaneCall.TheVariants.{Offer, Post, Cancel};
ghost use Rattle.lane_pool.specs.Pass.{conn_of};
ghost use Rattle.lane_pool.specs.Turns.{Reads, Listens, GoesOn, heard_by};
ghost use Rattle.conn_sides.specs.Calling.{is_shut, MakesOne, CallsAll};

use lane_machine::LaneCall;
use lane_pool::{Cancelling, LanePool, Offered, Posting, ReaderPass};
use orb_base::{Arc, Job, Notice};
use std::sync::Wait;

/// Whether a limit of the run was met by a call.
#[derive(Clone, Copy, Debug, PartialEq, Eq)]
pub enum Called {
    /// It was heard.
    Heard,
    /// It was answered Closing.
    Closing,
}

/// Offers a request.
#[tactic(auto, using(crate::proofs::CallsMade::makes_one))]
fn offer<R: Wait>(rt: &R, pool: &LanePool, pass: &mut ReaderPass, job: Arc<Job>) -> Called
    requires listens { Listens pool.now.cell pass.old }
    requires heard { IsHeardCall pool.now.cell.terms.opening.pool (conn_of pass.old) (Offer job) }
    requires number { job.serial ≡ heard_by pass.old }
    ensures made { MakesOne pool.now.cell (Offer job) (is_shut result) pass.old pass.new }
    ensures next { GoesOn pool.now.cell (is_shut result) pass.old pass.new }
{
    match pool.offer(rt, pass, job) {
        Offered::Run { .. } => Called::Heard,
        Offered::Kept => Called::Heard,
        Offered::Full => Called::Heard,
        Offered::Closing => Called::Closing,
    }
}

/// Posts an answer of the reading side.
#[tactic(auto, using(crate::proofs::CallsMade::makes_one))]
fn post<R: Wait>(rt: &R, pool: &LanePool, pass: &mut ReaderPass, notice: Notice) -> Called
    requires listens { Listens pool.now.cell pass.old }
    requires conn { notice.conn ≡ conn_of pass.old }
    ensures made { MakesOne pool.now.cell (Post notice) (is_shut result) pass.old pass.new }
    ensures next { GoesOn pool.now.cell (is_shut result) pass.old pass.new }
{
    match pool.post(rt, pass, notice) {
        Posting::Posted => Called::Heard,
        Posting::Closing => Called::Closing,
    }
}

/// Withdraws a request.
#[tactic(auto, using(crate::proofs::CallsMade::makes_one))]
fn cancel<R: Wait>(rt: &R, pool: &LanePool, pass: &mut ReaderPass, id: u32) -> Called
    requires listens { Listens pool.now.cell pass.old }
    ensures made { MakesOne pool.now.cell (Cancel (conn_of pass.old) id) (is_shut result) pass.old pass.new }
    ensures next { GoesOn pool.now.cell (is_shut result) pass.old pass.new }
{
    match pool.cancel(rt, pass, id) {
        Cancelling::Removed => Called::Heard,
        Cancelling::Nothing => Called::Heard,
        Cancelling::Closing => Called::Closing,
    }
}

/// Makes a call that the bytes of the pass's connection mean.
#[tactic(auto, using(crate::proofs::CallsMade::makes_cancel))]
fn make<R: Wait>(rt: &R, pool: &LanePool, pass: &mut ReaderPass, call: LaneCall) -> Called
    requires listens { Listens pool.now.cell pass.old }
    requires heard { IsHeardCall pool.now.cell.terms.opening.pool (conn_of pass.old) call }
    requires number { IsNumbered (heard_by pass.old) call }
    ensures made { MakesOne pool.now.cell call (is_shut result) pass.old pass.new }
    ensures next { GoesOn pool.now.cell (is_shut result) pass.old pass.new }
{
    match call {
        LaneCall::Offer(job) => offer(rt, pool, pass, job),
        LaneCall::Post(notice) => post(rt, pool, pass, notice),
        LaneCall::Cancel { conn: _, id } => cancel(rt, pool, pass, id),
        LaneCall::Take { .. } => unreachable!(),
        LaneCall::Finish { .. } => unreachable!(),
        LaneCall::Collect { .. } => unreachable!(),
        LaneCall::End { .. } => unreachable!(),
        LaneCall::Leave { .. } => unreachable!(),
    }
}

/// Makes the calls that some bytes of the pass's connection mean, in order, up to one that is answered Closing. The last call is
/// first.
fn make_turned<R: Wait>(
    rt: &R,
    pool: &LanePool,
    pass: &mut ReaderPass,
    turned: Vec<LaneCall>,
) -> Called
    requires listens { Listens pool.now.cell pass.old }
    requires heard { AreHeardCalls pool.now.cell.terms.opening.pool (conn_of pass.old) (reverse turned.items) }
    requires numbers { CountsFrom (heard_by pass.old) (reverse turned.items) }
    ensures { CallsAll pool.now.cell (reverse turned.items) (is_shut result) pass.old pass.new }
{
    let mut left = turned;
    while let Some(call) = left.pop() {
        match make(rt, pool, pass, call) {
            Called::Heard => {}
            Called::Closing => return Called::Closing,
        }
    }
    Called::Heard
}

/// Makes the calls that some bytes of the pass's connection mean, in order, up to one that is answered Closing. Takes no memory.
pub fn make_all<R: Wait>(
    rt: &R,
    pool: &LanePool,
    pass: &mut ReaderPass,
    calls: Vec<LaneCall>,
) -> Called
    requires listens { Listens pool.now.cell pass.old }
    requires heard { AreHeardCalls pool.now.cell.terms.opening.pool (conn_of pass.old) calls.items }
    requires numbers { CountsFrom (heard_by pass.old) calls.items }
    ensures { CallsAll pool.now.cell calls.items (is_shut result) pass.old pass.new }
{
    let mut turned = calls;
    turned.reverse();
    make_turned(rt, pool, pass, turned)
}
