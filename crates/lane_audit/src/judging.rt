//! The judgement of lines.
ghost use Rattle.std.specs.Prelude.{IfOk};
ghost use Rattle.lane_machine.specs.declared.call.LaneCall.TheVariants as call;
ghost use Rattle.trace_lines.specs.ReadBack.{call_by, given_by};
ghost use Rattle.lane_audit.specs.Resolved.{reply_with, handed_with};
ghost use Rattle.lane_audit.specs.Verdicts.{Judges};

use crate::asked::Asked;
use crate::desk::Desk;
use crate::ending::Ending;
use crate::offers::Offers;
use crate::owed_item::{Owed, OwedItem};
use orb_base::{ConnId, NoMemory};
use trace_lines::{Action, CollectReply};

impl Desk {
    /// Judges the entry of a line: whether its call is answered now, its caller keeps to its part, and its reply is that of the step.
    /// Then the state is the step's; else the desk is of no use any more. Work grows with the threads; that of a Finish and a Cancel with
    /// what waits besides, that of a message that is handed over with what is owed.
    #[tactic(auto, using(crate::proofs::Resolving::no_take))]
    pub fn judge(&mut self, offers: &Offers, action: &Action) -> Result<bool, NoMemory>
        ensures { let jobs = offers.now.asked.items in let said = reply_with jobs offers.now.lens.items action.now in
            IfOk result (λ right. Judges self.old (call_by jobs action.now) said self.new right) }
    {
        match action {
            Action::Offer { request, reply } => self.offer(Asked::new(*request), *reply),
            Action::Post { conn, id, reply } => self.post(*conn, *id, *reply),
            Action::Cancel { conn, id, reply } => Ok(self.cancel(*conn, *id, *reply)),
            Action::Take { thread, task } => Ok(self.judge_take(offers, *thread, *task)),
            Action::Finish {
                thread,
                request,
                body_len,
            } => match offers.asked.get(*request) {
                Some(asked) => self.finish(*thread, *asked, *body_len),
                None => Ok(false),
            },
            Action::Collect { conn, reply } => self.collect(offers, *conn, *reply),
            Action::End { conn, how } => self.end(*conn, *how),
            Action::Leave { slot } => self.leave(*slot),
        }
    }

    /// A thread asks for its task, and is told of the request of this number or that there will be none.
    #[tactic(auto, using(crate::proofs::Resolving::no_take))]
    fn judge_take(&mut self, offers: &Offers, thread: u8, task: Option<usize>) -> bool
        ensures { Judges self.old (call.Take thread) (given_by offers.now.asked.items task) self.new result }
    {
        match task {
            Some(request) => match offers.asked.get(request) {
                Some(asked) => self.take(thread, Some(*asked)),
                None => false,
            },
            None => self.take(thread, None),
        }
    }

    /// A writing side is handed a message, or told that nothing is owed any more.
    fn collect(
        &mut self,
        offers: &Offers,
        conn: ConnId,
        reply: CollectReply,
    ) -> Result<bool, NoMemory>
        ensures { let said = handed_with offers.now.asked.items offers.now.lens.items conn reply in
            IfOk result (λ right. Judges self.old (call.Collect conn) said self.new right) }
    {
        match reply {
            CollectReply::Answered(request) => Ok(self.hand_answer(offers, conn, request)),
            CollectReply::Early(request) => Ok(self.hand_early(offers, conn, request)),
            CollectReply::Transient(request) => Ok(self.hand_refusal(offers, conn, request)),
            CollectReply::Posted(id) => Ok(self.hand(conn, &OwedItem::new(Owed::Posted(conn, id)))),
            CollectReply::Close => self.finish_collecting(conn, Ending::Close),
            CollectReply::Error => self.finish_collecting(conn, Ending::Error),
            CollectReply::Done => self.finish_collecting(conn, Ending::Done),
        }
    }

    /// A writing side is handed the reply to a finished request.
    #[tactic(auto, using(crate::proofs::Resolving::no_collect))]
    fn hand_answer(&mut self, offers: &Offers, conn: ConnId, request: usize) -> bool
        ensures { let said = handed_with offers.now.asked.items offers.now.lens.items conn (CollectReply.Answered request) in
            Judges self.old (call.Collect conn) said self.new result }
    {
        match offers.asked.get(request) {
            Some(asked) => {
                let owed = Owed::Answered(*asked, offers.last_len(request));
                self.hand(conn, &OwedItem::new(owed))
            }
            None => false,
        }
    }

    /// A writing side is handed the reply to an admitted request that asks for one at once.
    #[tactic(auto, using(crate::proofs::Resolving::no_collect))]
    fn hand_early(&mut self, offers: &Offers, conn: ConnId, request: usize) -> bool
        ensures { let said = handed_with offers.now.asked.items offers.now.lens.items conn (CollectReply.Early request) in
            Judges self.old (call.Collect conn) said self.new result }
    {
        match offers.asked.get(request) {
            Some(asked) => self.hand(conn, &OwedItem::new(Owed::Early(*asked))),
            None => false,
        }
    }

    /// A writing side is handed the refusal of a request.
    #[tactic(auto, using(crate::proofs::Resolving::no_collect))]
    fn hand_refusal(&mut self, offers: &Offers, conn: ConnId, request: usize) -> bool
        ensures { let said = handed_with offers.now.asked.items offers.now.lens.items conn (CollectReply.Transient request) in
            Judges self.old (call.Collect conn) said self.new result }
    {
        match offers.asked.get(request) {
            Some(asked) => self.hand(conn, &OwedItem::new(Owed::Transient(*asked))),
            None => false,
        }
    }
}
