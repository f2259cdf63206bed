//! The stream of a connection's bytes, fed in any pieces.
ghost use Rattle.std.specs.Prelude.{◌≡◌, ◌≤◌, ◌<◌, ◌+◌, ◌*◌, ◌^◌, [], ◌++◌, length, true, false, IfOk, OnOk, OnErr, None};
ghost use Rattle.giop_frames.specs.Bounds.{appended_bytes, unfinished_bytes};
ghost use Rattle.giop_frames.specs.Feeds.{said, Tells, Lasts};

use crate::fault::FeedFault;
use crate::joiner::Joiner;
use crate::whole::Whole;
use orb_base::limits::MAX_MESSAGE;
use orb_base::{List, NoMemory, Told};
use std::alloc::Global;
use std::marker::Model;

/// Takes the bytes of a connection in whatever pieces they come, and gives its whole messages, with the fragments of GIOP
/// 1.2 joined, or its first fault (CORBA 3.0.3, section 15.4).
///
/// It keeps what has come of the next piece, which is less than its limit, and at most 16 unfinished messages, each within
/// the limit. Buffers grow as bytes come: a header makes it take at most 16,384 bytes before more of its piece has come. Work for each
/// byte is constant, whatever the cutting; a byte is copied once into its piece, and once more where a Fragment is joined.
#[derive(Drop)]
pub struct Framer {
    limit: usize,
    joiner: Joiner,
    fault: Option<FeedFault>,
    left: Option<u64>,
    fed: Told<u8>,
}

impl Model for Framer {
    ghost use Rattle.giop_frames.specs.Feeds.{Feed};

    ghost Value = { Feed };

    ghost use Rattle.giop_frames.specs.Feeding.{IsFramed, IsEmptied, lacks};

    ghost invariant = { λ f. IsFramed f.limit f.fed.items f.joiner f.left f.fault × IsEmptied f.joiner f.fault };

    ghost view = { λ f. record {
      limit = f.limit;
      fed = f.fed.items;
      lacked = lacks f.fault;
      kept = f.joiner.kept;
    } };
}

impl Framer {
    /// A framer at the begin of a stream, under a limit in bytes on a piece and on a joined message. Takes memory for the
    /// list of unfinished messages.
    pub fn new(alloc: Global, limit: usize) -> Result<Framer, NoMemory>
        requires least { 16 ≤ limit }
        requires most { limit ≤ MAX_MESSAGE }
        ensures { IfOk result (λ f. f ≡ record { limit = limit; fed = []; lacked = false; kept = 0 }) }
    {
        Ok(Framer {
            limit,
            joiner: Joiner::new(alloc, limit)?,
            fault: None,
            left: None,
            fed: Told::new(),
        })
    }

    /// Takes the next bytes of the stream, and appends the messages that they complete, in the order of their last pieces.
    ///
    /// A fault of the stream is given as soon as it is there, that of a header once its 12 bytes are: the messages before it
    /// are appended, and from then on every feed answers it and appends nothing. Once out of memory, which may leave
    /// out messages, every feed answers that and appends nothing. Both give back the memory of what was kept.
    pub fn feed(&mut self, piece: &[u8], whole: &mut List<Whole>) -> Result<(), FeedFault>
        requires { length self.old.fed + length piece.now < 2 ^ 64 }
        ensures fed { (self.new.limit ≡ self.old.limit) × (self.new.fed ≡ self.old.fed ++ piece.now) }
        ensures tells { Tells result self.old self.new whole.old.items whole.new.items }
        // What was given stays given.
        ensures lasts { Lasts result self.old }
        ensures kept { self.new.kept ≤ 17 * self.new.limit }
        // What is appended and what is kept came with this piece, or was kept before it.
        ensures flows { OnOk result (appended_bytes whole.old.items whole.new.items + self.new.kept ≤ self.old.kept + length piece.now) }
        ensures emptied { OnErr result (self.new.kept ≡ 0) }
    {
        self.fed = self.fed.and(piece);
        match self.fault {
            Some(fault) => Err(fault),
            None => match self.joiner.read(piece, whole) {
                Ok(()) => Ok(()),
                Err(fault) => {
                    self.left = self.joiner.left_by(fault);
                    self.joiner.clear();
                    self.fault = Some(fault);
                    Err(fault)
                }
            },
        }
    }

    /// The smallest offset at which an unfinished message or piece begins, from the first byte of the stream. After a fault
    /// only the unfinished messages before it count, and once out of memory none does.
    pub fn rest(&self) -> Option<u64>
        ensures rest { self.now.lacked ≡ false → result ≡ (said self.now).rest }
        ensures lacked { self.now.lacked ≡ true → result ≡ None }
    {
        match self.fault {
            Some(_) => self.left,
            None => self.joiner.rest(),
        }
    }

    /// How many bytes it keeps: those that have come of the next piece, and those of the unfinished messages. None after a
    /// fault or out of memory.
    pub fn kept(&self) -> u64
        ensures value { result ≡ self.now.kept }
        ensures bound { result ≤ 17 * self.now.limit }
        // At most what has come of the unfinished messages, joined, and of the unfinished piece.
        ensures held { result ≤ unfinished_bytes self.now.fed }
    {
        self.joiner.kept() as u64
    }
}
