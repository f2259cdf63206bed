//! A whole list of feeds.
ghost use Rattle.std.specs.Prelude.{◌≤◌, ◌<◌, ◌^◌, length};
ghost use Rattle.giop_frames.specs.Stream.{stream};
ghost use Rattle.giop_frames.specs.Feeds.{ReadsStream, joined_feeds};

use crate::fault::FeedFault;
use crate::framer::Framer;
use crate::whole::Whole;
use orb_base::limits::MAX_MESSAGE;
use orb_base::{List, Octets};
use std::alloc::Global;

/// Reads a stream that is cut into feeds, up to its end or its first fault, and appends its messages. Gives the offset at
/// which an unfinished message begins. The cutting doesn't matter: the contract speaks of the joined bytes alone.
pub fn read_stream(
    alloc: Global,
    limit: usize,
    feeds: &[Octets],
    whole: &mut List<Whole>,
) -> Result<Option<u64>, FeedFault>
    requires least { 16 ≤ limit }
    requires most { limit ≤ MAX_MESSAGE }
    requires short { length (joined_feeds feeds.now) < 2 ^ 64 }
    ensures { ReadsStream result (stream limit (joined_feeds feeds.now)) whole.old.items whole.new.items }
{
    let mut framer = match Framer::new(alloc, limit) {
        Ok(framer) => framer,
        Err(_) => return Err(FeedFault::NoMemory),
    };
    for piece in feeds {
        match framer.feed(piece.as_slice(), whole) {
            Ok(()) => {}
            Err(fault) => return Err(fault),
        }
    }
    Ok(framer.rest())
}
