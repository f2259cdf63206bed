//! What the reading side of a connection does besides offering requests.
ghost use Rattle.std.specs.Prelude.{◌≡◌, OnOk, OnErr};
ghost use Rattle.lane_machine.specs.Machine.{step};
ghost use Rattle.lane_machine.specs.declared.call.LaneCall.TheVariants as call;
ghost use Rattle.trace_lines.specs.ReadBack.{notice_of, reply_of_post, reply_of_cancel};
ghost use Rattle.lane_audit.specs.Verdicts.{Answers, Tries};

use crate::lists::Lists;
use crate::owed_item::Owed;
use lane_machine::How;
use orb_base::{ConnId, NoMemory};
use trace_lines::{CancelReply, PostReply};

impl Lists {
    /// The reading side of a connection answers by itself.
    pub fn post(&mut self, conn: ConnId, id: u32, reply: PostReply) -> Result<bool, NoMemory>
        ensures { Tries self.old (step self.old (call.Post (notice_of conn id))) (reply_of_post reply) self.new result }
    {
        match reply {
            PostReply::Closing => Ok(self.close_if_over(0)),
            PostReply::Posted => {
                if self.is_over(0) {
                    return Ok(false);
                }
                self.owe(Owed::Posted(conn, id))?;
                self.hear(0);
                Ok(true)
            }
        }
    }

    /// The client withdraws a request.
    pub fn cancel(&mut self, conn: ConnId, id: u32, reply: CancelReply) -> bool
        ensures { Answers self.old (step self.old (call.Cancel conn id)) (reply_of_cancel reply) self.new result }
    {
        match reply {
            CancelReply::Closing => self.close_if_over(0),
            CancelReply::Removed => self.withdraw(conn, id),
            CancelReply::Nothing => self.withdraw_none(conn, id),
        }
    }

    /// Takes out the earliest waiting request of a connection and id whose reply is still due, if there is one and no limit is met.
    fn withdraw(&mut self, conn: ConnId, id: u32) -> bool
        ensures { Answers self.old (step self.old (call.Cancel conn id)) (reply_of_cancel CancelReply.Removed) self.new result }
    {
        if self.is_over(0) {
            return false;
        }
        match self.waiting.place_to_cancel(conn, id) {
            Some(at) => {
                self.waiting.remove(at);
                self.hear(0);
                true
            }
            None => false,
        }
    }

    /// Hears that a request is withdrawn which doesn't wait, if none does and no limit is met.
    fn withdraw_none(&mut self, conn: ConnId, id: u32) -> bool
        ensures { Answers self.old (step self.old (call.Cancel conn id)) (reply_of_cancel CancelReply.Nothing) self.new result }
    {
        if self.is_over(0) || self.waiting.place_to_cancel(conn, id).is_some() {
            return false;
        }
        self.hear(0);
        true
    }

    /// A connection's reading side has ended.
    pub fn end(&mut self, conn: ConnId, how: How) -> Result<(), NoMemory>
        ensures ok { OnOk result (self.new ≡ (step self.old (call.End conn how)).0) }
        ensures err { OnErr result (self.new ≡ self.old) }
    {
        match self.ended.push((conn, how)) {
            Ok(()) => Ok(()),
            Err(_) => Err(NoMemory),
        }
    }

    /// A slot will read no connection any more.
    pub fn leave(&mut self, slot: u8) -> Result<(), NoMemory>
        ensures ok { OnOk result (self.new ≡ (step self.old (call.Leave slot)).0) }
        ensures err { OnErr result (self.new ≡ self.old) }
    {
        match self.left.push(slot) {
            Ok(()) => Ok(()),
            Err(_) => Err(NoMemory),
        }
    }
}
