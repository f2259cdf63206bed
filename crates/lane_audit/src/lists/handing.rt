//! What a writing side of a connection is handed.
ghost use Rattle.std.specs.Prelude.{◌≡◌, None, slice_get};
ghost use Rattle.lane_machine.specs.Machine.{step, item_place, handed, over, shut, end_of, was_told};
ghost use Rattle.lane_machine.specs.declared.call.LaneCall.TheVariants as call;
ghost use Rattle.lane_machine.specs.declared.call.LaneReply.TheVariants as reply;
ghost use Rattle.lane_audit.specs.Endings.{reply_of_ending};
ghost use Rattle.lane_audit.specs.Verdicts.{Answers, Tries};

use crate::ending::Ending;
use crate::lists::Lists;
use crate::owed_item::OwedItem;
use crate::scans;
use lane_machine::How;
use orb_base::{ConnId, NoMemory};

impl Lists {
    /// A writing side is handed a message.
    pub fn hand(&mut self, conn: ConnId, item: &OwedItem) -> bool
        ensures { Answers self.old (step self.old (call.Collect conn)) (reply.Handed item.now) self.new result }
    {
        match scans::first_item(self.out.as_slice(), conn) {
            Some(at) => self.hand_at(at, item),
            None => false,
        }
    }

    /// The message of this place is handed out, if it is this one.
    fn hand_at(&mut self, at: usize, item: &OwedItem) -> bool
        ensures { Answers self.old (handed self.old at (slice_get self.old.out at)) (reply.Handed item.now) self.new result }
    {
        match self.out.get(at) {
            Some(first) => {
                if !first.is_same(item) {
                    return false;
                }
                self.out.remove(at);
                true
            }
            None => false,
        }
    }

    /// A writing side to which nothing is owed is told how that ends.
    pub fn finish_collecting(&mut self, conn: ConnId, ending: Ending) -> Result<bool, NoMemory>
        requires none { item_place self.old conn ≡ None }
        ensures { Tries self.old (step self.old (call.Collect conn)) (reply_of_ending ending) self.new result }
    {
        self.tell_end(conn, ending)
    }

    /// Tells a connection how it ended, or to close where it didn't.
    fn tell_end(&mut self, conn: ConnId, ending: Ending) -> Result<bool, NoMemory>
        ensures { Tries self.old (over self.old conn (end_of self.old conn)) (reply_of_ending ending) self.new result }
    {
        match scans::how_ended(self.ended.as_slice(), conn) {
            Some(How::Bad) => Ok(matches!(ending, Ending::Error)),
            Some(How::Shut) => Ok(matches!(ending, Ending::Close)),
            Some(How::Quiet) => Ok(matches!(ending, Ending::Done)),
            None => self.tell_to_close(conn, ending),
        }
    }

    /// Tells a connection to close, if it was not told yet.
    fn tell_to_close(&mut self, conn: ConnId, ending: Ending) -> Result<bool, NoMemory>
        ensures { Tries self.old (shut self.old conn (was_told self.old conn)) (reply_of_ending ending) self.new result }
    {
        if scans::is_among(self.told.as_slice(), conn) {
            return Ok(matches!(ending, Ending::Done));
        }
        if !matches!(ending, Ending::Close) {
            return Ok(false);
        }
        match self.told.push(conn) {
            Ok(()) => Ok(true),
            Err(_) => Err(NoMemory),
        }
    }
}
