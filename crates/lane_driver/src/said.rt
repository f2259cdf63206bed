//! What an answer of Collect writes.
ghost use Rattle.pipe_laws.specs.Said.{handed_bytes, HandsShort};
ghost use Rattle.text_streams.specs.Streams.{WritesAll};

use item_writer::{write_close, write_error, write_item};
use lane_machine::LaneReply;
use orb_base::Sink;
use text_streams::WriteAll;

/// Writes what an answer of Collect says: an item, CloseConnection, MessageError, or nothing. Takes no memory.
#[tactic(auto, using(item_writer::proofs::Saying::says_start))]
pub fn write_said<O: Sink>(sink: &mut O, reply: &LaneReply) -> WriteAll
    requires { HandsShort reply.now }
    ensures { WritesAll result (handed_bytes reply.now) (O.state sink.old) (O.state sink.new) }
{
    match reply {
        LaneReply::Handed(item) => write_item(sink, item),
        LaneReply::Close => write_close(sink),
        LaneReply::Error => write_error(sink),
        _ => WriteAll::Whole,
    }
}
