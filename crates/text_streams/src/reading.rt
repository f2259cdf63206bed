//! Reading a whole input.
ghost use Rattle.text_streams.specs.Streams.{ReadsAll};

use orb_base::{Got, List, Octets, Source};
use std::alloc::Global;

/// What reading a whole input came to.
#[derive(Drop)]
pub enum ReadAll {
    /// The bytes, up to the end.
    Whole(Octets),
    /// More bytes came than may be read.
    TooLong,
    /// The source failed after these bytes.
    Failed(Octets),
    /// Memory was wanting.
    NoMemory,
}

/// Reads to the end of the input, or until more than `limit` bytes came. Work per byte is constant.
#[tactic(auto, using(crate::proofs::CallerLemmas::gave_start, crate::proofs::CallerLemmas::gave_step, crate::proofs::CallerLemmas::gave_same, crate::proofs::CallerLemmas::gave_few, crate::proofs::CallerLemmas::gave_more_than))]
pub fn read_all<I: Source>(alloc: Global, limit: usize, source: &mut I) -> ReadAll
    ensures { ReadsAll limit result (I.state source.old) (I.state source.new) }
{
    let mut bytes = List::new(alloc);
    while bytes.len() <= limit {
        let mut piece = [0u8; 1024];
        let room = piece.len().min((limit - bytes.len()).saturating_add(1));
        match source.read(&mut piece[..room]) {
            Got::Bytes(n) => {
                if bytes.append(&piece[..n]).is_err() {
                    return ReadAll::NoMemory;
                }
            }
            Got::End => return ReadAll::Whole(bytes),
            Got::Failed => return ReadAll::Failed(bytes),
        }
    }
    ReadAll::TooLong
}
