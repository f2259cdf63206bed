//! What is in a line for the reply.
ghost use Rattle.std.specs.Prelude.{◌≡◌};
ghost use Rattle.history_lines.specs.Lines as Text;

use lane_machine::LaneReply;
use orb_base::Item;
use std::fmt;

/// The id of the request that a message answers.
fn id_of(item: &Item) -> u32
    ensures { result ≡ Text.item_id item.now }
{
    match item {
        Item::Answered(answer) => answer.job.get().id,
        Item::Early(job) => job.get().id,
        Item::Transient(job) => job.get().id,
        Item::Noticed(notice) => notice.id,
    }
}

/// A reply, with a blank before it.
#[derive(Clone, Copy)]
pub struct ReplyText<'a> {
    pub reply: &'a LaneReply,
}

impl fmt::Display for ReplyText<'_> {
    ghost use Rattle.std.specs.Prelude.{Some};

    ghost output = { λ t. Some (Text.reply_text t.reply.now) };

    fn fmt<W: fmt::Write>(&self, f: &mut fmt::Formatter<W>) -> fmt::Result {
        match self.reply {
            LaneReply::Run { thread, lent } => {
                if *lent {
                    write!(f, " lent t{thread}")
                } else {
                    write!(f, " run t{thread}")
                }
            }
            LaneReply::Kept => f.write_str(" kept"),
            LaneReply::Full => f.write_str(" full"),
            LaneReply::Closing => f.write_str(" closing"),
            LaneReply::Posted => f.write_str(" posted"),
            LaneReply::Removed => f.write_str(" removed"),
            LaneReply::Nothing => f.write_str(" nothing"),
            LaneReply::Given(job) => write!(f, " #{}", job.get().id),
            LaneReply::Ended => f.write_str(" ended"),
            LaneReply::Finished => Ok(()),
            LaneReply::Handed(item) => write!(f, " #{}", id_of(item)),
            LaneReply::Close => f.write_str(" close"),
            LaneReply::Error => f.write_str(" error"),
            LaneReply::Done => f.write_str(" done"),
            LaneReply::Noted => Ok(()),
        }
    }
}
