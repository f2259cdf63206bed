//! What the reading side of a connection does besides its requests.
ghost use Rattle.std.specs.Prelude.{◌≡◌, position};
ghost use Rattle.request_buffer.specs.Kept.{may_cancel};
ghost use Rattle.lane_machine.specs.Machine.{step, withdrawn};
ghost use Rattle.lane_machine.specs.Histories.{Steps};
ghost use Rattle.turn_cell.specs.Replies.{IsStep};

use crate::call::{How, LaneCall, LaneReply};
use crate::machine::Machine;
use orb_base::{ConnId, Item, NoMemory, Notice};

impl Machine {
    /// The reading side of a connection answers by itself.
    pub(super) fn post(&mut self, notice: Notice) -> Result<(LaneReply, LaneReply), NoMemory>
        ensures { Steps self.old (step self.old (LaneCall.Post notice)) self.new result }
    {
        if self.is_over(0) {
            self.closing = true;
            return Ok((LaneReply::Closing, LaneReply::Closing));
        }
        self.owe(Item::Noticed(notice))?;
        self.hear(0);
        Ok((LaneReply::Posted, LaneReply::Posted))
    }

    /// The client withdraws a request.
    pub(super) fn cancel(
        &mut self,
        conn: ConnId,
        id: u32,
    ) -> Result<(LaneReply, LaneReply), NoMemory>
        ensures { Steps self.old (step self.old (LaneCall.Cancel conn id)) self.new result }
    {
        if self.is_over(0) {
            self.closing = true;
            return Ok((LaneReply::Closing, LaneReply::Closing));
        }
        self.hear(0);
        Ok(self.withdraw(conn, id))
    }

    /// Takes out the earliest waiting request of a connection and id whose reply is still due.
    fn withdraw(&mut self, conn: ConnId, id: u32) -> (LaneReply, LaneReply)
        ensures { let at = position (may_cancel conn id) self.old.waiting in
            IsStep (withdrawn self.old at) self.new result }
    {
        match self.waiting.remove(conn, id) {
            Some(_) => (LaneReply::Removed, LaneReply::Removed),
            None => (LaneReply::Nothing, LaneReply::Nothing),
        }
    }

    /// A connection's reading side has ended.
    pub(super) fn end(&mut self, conn: ConnId, how: How) -> Result<(LaneReply, LaneReply), NoMemory>
        ensures { Steps self.old (step self.old (LaneCall.End conn how)) self.new result }
    {
        match self.ended.push((conn, how)) {
            Ok(()) => Ok((LaneReply::Noted, LaneReply::Noted)),
            Err(_) => Err(NoMemory),
        }
    }

    /// A slot will read no connection any more.
    pub(super) fn leave(&mut self, slot: u8) -> Result<(LaneReply, LaneReply), NoMemory>
        ensures { Steps self.old (step self.old (LaneCall.Leave slot)) self.new result }
    {
        match self.left.push(slot) {
            Ok(()) => Ok((LaneReply::Noted, LaneReply::Noted)),
            Err(_) => Err(NoMemory),
        }
    }
}
