//! The machine after a framer: it judges a header, then a piece by its first 16 bytes, and takes the piece once it is whole.
ghost use Rattle.std.specs.Prelude.{◌≡◌, ◌≤◌, ◌<◌, ◌+◌, ◌^◌, [], ◌++◌, length, Ok, IfOk, IfSome, None};
ghost use Rattle.giop_frames.specs.Pieces.{piece_len as piece_len_of};
ghost use Rattle.giop_frames.specs.Stream.{rest_of, rest_with};
ghost use Rattle.giop_frames.specs.Feeding.{left_by as left_behind};
ghost use Rattle.giop_frames.specs.Joining.{IsResting, IsFilled, Reads, Takes, Needs, StandsWhole, with_tail};
ghost use Rattle.giop_frames.specs.Opening.{kept_of};

use crate::fault::FeedFault;
use crate::header::{HEADER, piece_len};
use crate::opened::{Coming, Filling, Here, JUDGED, Opened, advance, take_whole};
use crate::rules::MAX_PARTIALS;
use crate::unfinished::{Unfinished, bytes_of};
use crate::whole::Whole;
use orb_base::{List, NoMemory, Told};
use std::alloc::Global;
use std::marker::Model;

/// What a framer keeps between two feeds: what has come of the next piece, which begins at an offset, and the unfinished
/// messages, but for the one that the piece joins.
#[derive(Drop)]
pub(crate) struct Joiner {
    alloc: Global,
    limit: usize,
    at: u64,
    came: usize,
    coming: Coming,
    tail: Told<u8>,
    partials: Vec<Unfinished>,
}

impl Model for Joiner {
    ghost use Rattle.std.specs.Prelude.{◌≡◌, length};
    ghost use Rattle.giop_frames.specs.Running.{State};
    ghost use Rattle.giop_frames.specs.Opening.{ComesSo, kept_of, partials_of};

    ghost Value = { State };

    ghost invariant = { λ j. ComesSo j.limit j.coming j.tail.items j.partials.items × (j.came ≡ length j.tail.items) };

    ghost view = { λ j. record {
      limit = j.limit;
      at = j.at;
      tail = j.tail.items;
      partials = partials_of j.coming j.partials.items;
      kept = kept_of j.coming j.partials.items;
    } };
}

/// The length of the piece that the input begins with, if it is whole there and within the limit, and none of its bytes
/// has come before.
#[tactic(auto, using(crate::proofs::JoinParts::stands_whole))]
fn whole_len(limit: usize, has: usize, input: &[u8]) -> Option<usize>
    ensures { IfSome result (λ n. StandsWhole has input.now n) }
{
    if has > 0 {
        return None;
    }
    if input.len() < HEADER {
        return None;
    }
    let n = piece_len(input);
    if n > limit {
        return None;
    }
    if n > input.len() {
        return None;
    }
    Some(n)
}

impl Joiner {
    /// Takes memory for the list of unfinished messages.
    pub fn new(alloc: Global, limit: usize) -> Result<Joiner, NoMemory>
        ensures { IfOk result (λ j. j ≡ record { limit = limit; at = 0; tail = []; partials = []; kept = 0 }) }
    {
        let mut partials = Vec::new(alloc);
        partials.reserve(MAX_PARTIALS)?;
        Ok(Joiner {
            alloc,
            limit,
            at: 0,
            came: 0,
            coming: Coming::Head(List::new(alloc)),
            tail: Told::new(),
            partials,
        })
    }

    /// Puts bytes to the piece, as many as it has room for at most.
    fn put(&mut self, bytes: &[u8], whole: &mut List<Whole>) -> Result<(), FeedFault>
        requires resting { IsResting self.old }
        requires filled { IsFilled (with_tail self.old bytes.now) }
        requires room { self.old.at + (length self.old.tail + length bytes.now) < 2 ^ 64 }
        ensures { Reads result bytes.now self.old self.new whole.old.items whole.new.items }
    {
        let here = Here {
            alloc: self.alloc,
            limit: self.limit,
            at: self.at,
        };
        let came = self.came + bytes.len();
        let before = std::mem::replace(&mut self.tail, Told::new());
        let coming = std::mem::replace(&mut self.coming, Coming::Head(List::new(self.alloc)));
        self.came = 0;
        match advance(
            here,
            &mut self.partials,
            coming,
            &before,
            bytes,
            came,
            whole,
        )? {
            Some(coming) => {
                self.coming = coming;
                self.came = came;
                self.tail = before.and(bytes);
                Ok(())
            }
            None => {
                self.at += came as u64;
                Ok(())
            }
        }
    }

    /// Takes a piece that is whole in the input, where nothing of it has come before.
    fn take_at_once(&mut self, bytes: &[u8], whole: &mut List<Whole>) -> Result<(), FeedFault>
        requires none { self.old.tail ≡ [] }
        requires resting { IsResting self.old }
        requires long { 12 ≤ length bytes.now }
        requires full { length bytes.now ≡ piece_len_of bytes.now }
        requires room { self.old.at + length bytes.now < 2 ^ 64 }
        ensures { Reads result bytes.now self.old self.new whole.old.items whole.new.items }
    {
        let here = Here {
            alloc: self.alloc,
            limit: self.limit,
            at: self.at,
        };
        take_whole(here, &mut self.partials, bytes, whole)?;
        self.at += bytes.len() as u64;
        Ok(())
    }

    /// How many bytes are read next at most: those that the header, then what a piece is judged by, and then the piece
    /// still lacks.
    fn need(&self) -> usize
        requires { IsResting self.now }
        ensures { Needs self.now result }
    {
        match &self.coming {
            Coming::Head(head) => {
                if self.came < HEADER {
                    HEADER - self.came
                } else {
                    let len = piece_len(head.as_slice());
                    if self.came < JUDGED && JUDGED < len {
                        JUDGED - self.came
                    } else {
                        len - self.came
                    }
                }
            }
            Coming::Open(opened) => opened.header.piece_len() - self.came,
        }
    }

    /// Reads some bytes from the front of the input: the piece that the input begins with, where it is whole there and
    /// nothing of it has come before, so that its message takes memory once; or else up to what the piece lacks.
    fn take_some(&mut self, input: &[u8], whole: &mut List<Whole>) -> Result<usize, FeedFault>
        requires resting { IsResting self.old }
        requires some { 0 < length input.now }
        requires room { self.old.at + (length self.old.tail + length input.now) < 2 ^ 64 }
        ensures { Takes result input.now self.old self.new whole.old.items whole.new.items }
    {
        match whole_len(self.limit, self.came, input) {
            Some(n) => match self.take_at_once(&input[..n], whole) {
                Ok(()) => Ok(n),
                Err(fault) => Err(fault),
            },
            None => {
                let n = self.need().min(input.len());
                match self.put(&input[..n], whole) {
                    Ok(()) => Ok(n),
                    Err(fault) => Err(fault),
                }
            }
        }
    }

    /// Reads all of the input, or up to the first fault.
    pub fn read(&mut self, input: &[u8], whole: &mut List<Whole>) -> Result<(), FeedFault>
        requires resting { IsResting self.old }
        requires room { self.old.at + (length self.old.tail + length input.now) < 2 ^ 64 }
        ensures { Reads result input.now self.old self.new whole.old.items whole.new.items }
    {
        let mut taken = 0;
        while taken < input.len() {
            match self.take_some(&input[taken..], whole) {
                Ok(n) => taken += n,
                Err(fault) => return Err(fault),
            }
        }
        Ok(())
    }

    /// The offset at which the oldest unfinished message begins.
    #[tactic(auto, unfolding(crate::specs::Stream::rest_of))]
    fn oldest(&self) -> Option<u64>
        ensures { result ≡ rest_of self.now.partials }
    {
        if let Coming::Open(
            Opened {
                header: _,
                filling: Filling::Joins(joining),
            },
        ) = &self.coming
        {
            if joining.place == 0 {
                return Some(joining.message.at);
            }
        }
        match self.partials.as_slice() {
            [] => None,
            [u, ..] => Some(u.at),
        }
    }

    /// What is given as unfinished after this fault.
    pub fn left_by(&self, fault: FeedFault) -> Option<u64>
        ensures { result ≡ left_behind fault self.now.partials }
    {
        match fault {
            FeedFault::Frame(_) => self.oldest(),
            FeedFault::NoMemory => None,
        }
    }

    /// The smallest offset at which something unfinished begins.
    #[tactic(auto, unfolding(crate::specs::Stream::rest_of, crate::specs::Stream::rest_with, crate::specs::Stream::tail_rest))]
    pub fn rest(&self) -> Option<u64>
        ensures { result ≡ rest_with self.now.partials (record { at = self.now.at; bytes = self.now.tail }) }
    {
        match self.oldest() {
            Some(at) => Some(at),
            None => { if self.came == 0 { None } else { Some(self.at) } }
        }
    }

    /// Forgets the piece and the messages, and gives their memory back.
    pub fn clear(&mut self)
        ensures limit { self.new.limit ≡ self.old.limit }
        ensures at { self.new.at ≡ self.old.at }
        ensures tail { self.new.tail ≡ [] }
        ensures partials { self.new.partials ≡ [] }
        ensures kept { self.new.kept ≡ 0 }
    {
        self.came = 0;
        self.coming = Coming::Head(List::new(self.alloc));
        self.tail = Told::new();
        self.partials = Vec::new(self.alloc);
    }

    /// How many bytes are kept.
    pub fn kept(&self) -> usize
        requires { self.now.kept < 2 ^ 63 }
        ensures { result ≡ self.now.kept }
    {
        let held = bytes_of(self.partials.as_slice());
        match &self.coming {
            Coming::Head(head) => head.len() + held,
            Coming::Open(opened) => match &opened.filling {
                Filling::Own(bytes) => bytes.len() + held,
                Filling::Joins(joining) => JUDGED + (joining.message.bytes.len() + held),
                Filling::Breaks(_) => JUDGED + held,
            },
        }
    }
}
