//! What is owed to connections.
ghost use Rattle.std.specs.Prelude.{◌≡◌, slice_get};
ghost use Rattle.lane_machine.specs.Machine.{step, collected, handed, over, shut, item_place, end_of, was_told};
ghost use Rattle.lane_machine.specs.Histories.{Steps};

use crate::call::{How, LaneReply};
use crate::look;
use crate::machine::Machine;
use orb_base::{ConnId, NoMemory};

impl Machine {
    /// A connection's writing side asks for what is owed next.
    pub(super) fn collect(&mut self, conn: ConnId) -> Result<(LaneReply, LaneReply), NoMemory>
        ensures { Steps self.old (collected self.old conn (item_place self.old conn)) self.new result }
    {
        match look::first_item(self.out.as_slice(), conn) {
            Some(at) => self.hand(at),
            None => self.close(conn),
        }
    }

    /// Hands out the item at this place.
    fn hand(&mut self, at: usize) -> Result<(LaneReply, LaneReply), NoMemory>
        ensures { Steps self.old (handed self.old at (slice_get self.old.out at)) self.new result }
    {
        match self.out.get(at) {
            Some(item) => {
                let first = item.share()?;
                let second = self.out.remove(at);
                Ok((LaneReply::Handed(first), LaneReply::Handed(second)))
            }
            None => Ok((LaneReply::Done, LaneReply::Done)),
        }
    }

    /// Nothing is owed to the connection any more.
    fn close(&mut self, conn: ConnId) -> Result<(LaneReply, LaneReply), NoMemory>
        ensures { Steps self.old (over self.old conn (end_of self.old conn)) self.new result }
    {
        match look::how_ended(self.ended.as_slice(), conn) {
            Some(How::Bad) => Ok((LaneReply::Error, LaneReply::Error)),
            Some(How::Shut) => Ok((LaneReply::Close, LaneReply::Close)),
            Some(How::Quiet) => Ok((LaneReply::Done, LaneReply::Done)),
            None => self.tell(conn),
        }
    }

    /// Tells a connection to close, if it was not given yet.
    fn tell(&mut self, conn: ConnId) -> Result<(LaneReply, LaneReply), NoMemory>
        ensures { Steps self.old (shut self.old conn (was_told self.old conn)) self.new result }
    {
        if look::is_among(self.told.as_slice(), conn) {
            return Ok((LaneReply::Done, LaneReply::Done));
        }
        match self.told.push(conn) {
            Ok(()) => Ok((LaneReply::Close, LaneReply::Close)),
            Err(_) => Err(NoMemory),
        }
    }
}
