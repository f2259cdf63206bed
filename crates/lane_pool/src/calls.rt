//! The calls of a pool.
ghost use Rattle.std.specs.Prelude.{◌≡◌, ◌≤◌, true};
ghost use Rattle.orb_base.specs.Outcomes.{body_len};
ghost use Rattle.orb_base.specs.declared.limits.TheConstants.{MAX_BODY};
ghost use Rattle.turn_cell.specs.Calls.{IsOf, Calls};
ghost use Rattle.lane_machine.specs.declared.call.LaneCall.TheVariants.{Offer, Post, Cancel, Take, Finish, Collect, End, Leave};
ghost use Rattle.lane_machine.specs.declared.call.LaneReply.TheVariants as reply;
ghost use Rattle.lane_machine.specs.State.{Opens};
ghost use Rattle.lane_machine.specs.Machine.{step};
ghost use Rattle.lane_machine.specs.Readiness.{is_ready, IsSound};
ghost use Rattle.lane_machine.specs.Callers.{IsFit, is_heard, is_closing};
ghost use Rattle.lane_pool.specs.Pass.{conn_of};
ghost use Rattle.lane_pool.specs.Passes.{IsIn, MayMake, Makes};
ghost use Rattle.lane_pool.specs.Turns.{Reads, Listens, GoesOn, HasEnded, Rests, heard_by, FitsLane, CanTake, Carries, HasTaken, Writes, HasCollected};
ghost use Rattle.lane_pool.specs.Replies.{IsAnswer, offered_reply, posting_reply, cancelling_reply, taken_reply, collected_reply};

use crate::answers::{
    Cancelling, Collected, Offered, Posting, Taken, cancel_answer, collect_answer, offer_answer,
    post_answer, take_answer,
};
use crate::passes::{ReaderPass, SlotPass, WorkerPass, WriterPass};
use crate::pool::LanePool;
use lane_machine::{How, LaneCall, LaneReply, Lanes};
use orb_base::{Answer, Arc, Job, Notice};
use std::sync::Wait;
use turn_cell::Seat;

impl LanePool {
    /// Offers a request of the pass's connection to the lanes. Waits until at most 63 are owed to the connection, or the run is
    /// closing. Takes no memory; after `Closing` only `end` may be called by the pass. Work grows with the threads, with what
    /// waits and with what is owed.
    #[tactic(auto, using(crate::proofs::Answered::offer_is, crate::proofs::Answered::hears_offer, crate::proofs::Turns::fit_offer))]
    pub fn offer<R: Wait>(&self, rt: &R, pass: &mut ReaderPass, job: Arc<Job>) -> Offered
        requires listens { Listens self.now.cell pass.old }
        requires conn { job.conn ≡ conn_of pass.old }
        requires serial { job.serial ≡ heard_by pass.old }
        requires lane { FitsLane self.now.cell job }
        ensures made { Makes self.now.cell (Offer job) (offered_reply result) pass.old pass.new }
        ensures next { GoesOn self.now.cell (is_closing (offered_reply result)) pass.old pass.new }
    {
        offer_answer(self.hear(rt, pass, LaneCall::Offer(job)))
    }

    /// Owes the pass's connection an answer that its reading side gives by itself. Waits as `offer` does. Takes no memory.
    #[tactic(auto, using(crate::proofs::Answered::post_is, crate::proofs::Answered::hears_post, crate::proofs::Turns::fit_post))]
    pub fn post<R: Wait>(&self, rt: &R, pass: &mut ReaderPass, notice: Notice) -> Posting
        requires listens { Listens self.now.cell pass.old }
        requires conn { notice.conn ≡ conn_of pass.old }
        ensures made { Makes self.now.cell (Post notice) (posting_reply result) pass.old pass.new }
        ensures next { GoesOn self.now.cell (is_closing (posting_reply result)) pass.old pass.new }
    {
        post_answer(self.hear(rt, pass, LaneCall::Post(notice)))
    }

    /// Withdraws a request of the pass's connection, named by its id: the earliest that waits and whose reply is due when it
    /// was carried out. Takes no memory. Work grows with what waits.
    #[tactic(auto, using(crate::proofs::Answered::cancel_is, crate::proofs::Answered::hears_cancel, crate::proofs::Turns::fit_cancel))]
    pub fn cancel<R: Wait>(&self, rt: &R, pass: &mut ReaderPass, id: u32) -> Cancelling
        requires listens { Listens self.now.cell pass.old }
        ensures made { Makes self.now.cell (Cancel (conn_of pass.old) id) (cancelling_reply result) pass.old pass.new }
        ensures next { GoesOn self.now.cell (is_closing (cancelling_reply result)) pass.old pass.new }
    {
        let conn = pass.conn();
        cancel_answer(self.hear(rt, pass, LaneCall::Cancel { conn, id }))
    }

    /// The pass's connection will be read no further. Takes no memory.
    #[tactic(auto, using(crate::proofs::Turns::fit_end))]
    pub fn end<R: Wait>(&self, rt: &R, pass: &mut ReaderPass, how: How)
        requires reads { Reads self.now.cell pass.old }
        ensures made { Makes self.now.cell (End (conn_of pass.old) how) reply.Noted pass.old pass.new }
        ensures ended { HasEnded self.now.cell pass.new }
    {
        self.make_end(rt, pass, how);
    }

    /// A worker's next task. Waits until its thread was given one, or every slot left. Takes no memory.
    #[tactic(auto, using(crate::proofs::Answered::take_is, crate::proofs::Turns::fit_take, crate::proofs::Turns::has_taken))]
    pub fn take<R: Wait>(&self, rt: &R, pass: &mut WorkerPass) -> Taken
        requires idle { CanTake self.now.cell pass.old }
        ensures made { Makes self.now.cell (Take pass.old.who) (taken_reply result) pass.old pass.new }
        ensures next { HasTaken self.now.cell result pass.new }
    {
        let thread = pass.thread;
        take_answer(self.call(rt, &mut pass.seat, LaneCall::Take { thread }))
    }

    /// A worker has carried out the task that it took last. Takes no memory.
    #[tactic(auto, using(crate::proofs::Turns::fit_finish, crate::proofs::Turns::can_take))]
    pub fn finish<R: Wait>(&self, rt: &R, pass: &mut WorkerPass, answer: Answer)
        requires carries { Carries self.now.cell answer.job pass.old }
        requires short { body_len answer.outcome ≤ MAX_BODY }
        ensures made { Makes self.now.cell (Finish pass.old.who answer) reply.Finished pass.old pass.new }
        ensures next { CanTake self.now.cell pass.new }
    {
        self.make_finish(rt, pass, answer);
    }

    /// What is owed to the pass's connection next. Waits until something is, or nothing will be any more. Takes no memory.
    #[tactic(auto, using(crate::proofs::Answered::collect_is, crate::proofs::Turns::fit_collect, crate::proofs::Turns::has_collected))]
    pub fn collect<R: Wait>(&self, rt: &R, pass: &mut WriterPass) -> Collected
        requires writes { Writes self.now.cell pass.old }
        ensures made { Makes self.now.cell (Collect (conn_of pass.old)) (collected_reply result) pass.old pass.new }
        ensures next { HasCollected self.now.cell result pass.new }
    {
        let conn = pass.conn();
        collect_answer(self.call(rt, &mut pass.seat, LaneCall::Collect { conn }))
    }

    /// A slot will serve no connection any more. Takes no memory.
    #[tactic(auto, using(crate::proofs::Turns::fit_leave))]
    pub fn leave<R: Wait>(&self, rt: &R, pass: &mut SlotPass)
        requires rests { Rests self.now.cell pass.old }
        ensures made { Makes self.now.cell (Leave pass.old.who) reply.Noted pass.old pass.new }
    {
        let slot = pass.slot;
        self.call(rt, &mut pass.seat, LaneCall::Leave { slot });
    }
}

impl LanePool {
    /// Makes a call by a seat. The history has room for it, by the law of length.
    #[tactic(auto, using(crate::proofs::Worn::never_worn, crate::proofs::Answered::answers))]
    fn call<R: Wait>(&self, rt: &R, seat: &mut Seat<Lanes>, call: LaneCall) -> LaneReply
        requires cell { IsOf self.now.cell seat.old }
        requires fit { IsFit self.now.cell.terms.opening seat.old.number seat.old.mine call }
        ensures made { Calls is_ready IsSound step Opens IsFit self.now.cell call result seat.old seat.new }
        ensures answered { IsAnswer call result }
    {
        match self.cell.call(rt, seat, call) {
            Ok(reply) => reply,
            Err(_) => unreachable!(),
        }
    }

    /// Makes a call that is heard of the pass's connection, of which more may come unless it was answered Closing.
    fn hear<R: Wait>(&self, rt: &R, pass: &mut ReaderPass, call: LaneCall) -> LaneReply
        requires listens { Listens self.now.cell pass.old }
        requires heard { is_heard (conn_of pass.old) call ≡ true }
        requires fit { MayMake self.now.cell call pass.old }
        ensures made { Makes self.now.cell call result pass.old pass.new }
        ensures next { GoesOn self.now.cell (is_closing result) pass.old pass.new }
        ensures answered { IsAnswer call result }
    {
        self.make_heard(rt, pass, call)
    }

    /// Makes a call that is heard of the pass's connection.
    #[tactic(auto, using(crate::proofs::Closed::closed_heard))]
    fn make_heard<R: Wait>(&self, rt: &R, pass: &mut ReaderPass, call: LaneCall) -> LaneReply
        requires pass { IsIn self.now.cell pass.old }
        requires heard { is_heard (conn_of pass.old) call ≡ true }
        requires fit { MayMake self.now.cell call pass.old }
        ensures made { Makes self.now.cell call result pass.old pass.new }
        ensures answered { IsAnswer call result }
    {
        let reply = self.call(rt, &mut pass.seat, call);
        pass.closed = pass.closed || is_closing(&reply);
        reply
    }

    /// Ends the pass's connection.
    #[tactic(auto, using(crate::proofs::Closed::closed_end))]
    fn make_end<R: Wait>(&self, rt: &R, pass: &mut ReaderPass, how: How)
        requires pass { IsIn self.now.cell pass.old }
        requires fit { MayMake self.now.cell (End (conn_of pass.old) how) pass.old }
        ensures { Makes self.now.cell (End (conn_of pass.old) how) reply.Noted pass.old pass.new }
    {
        let conn = pass.conn();
        self.call(rt, &mut pass.seat, LaneCall::End { conn, how });
    }

    /// Finishes the pass's task.
    fn make_finish<R: Wait>(&self, rt: &R, pass: &mut WorkerPass, answer: Answer)
        requires pass { IsIn self.now.cell pass.old }
        requires fit { MayMake self.now.cell (Finish pass.old.who answer) pass.old }
        ensures { Makes self.now.cell (Finish pass.old.who answer) reply.Finished pass.old pass.new }
    {
        let thread = pass.thread;
        self.call(rt, &mut pass.seat, LaneCall::Finish { thread, answer });
    }
}

/// Whether a limit of the run was met.
fn is_closing(reply: &LaneReply) -> bool
    ensures { result ≡ is_closing reply.now }
{
    matches!(reply, LaneReply::Closing)
}
