//! Writing whole bytes.
ghost use Rattle.text_streams.specs.Streams.{WritesAll};

use orb_base::{Put, Sink};

/// What writing whole bytes came to.
#[derive(Clone, Copy, Debug, PartialEq, Eq)]
pub enum WriteAll {
    /// All were written.
    Whole,
    /// The sink failed after a prefix of them.
    Failed,
}

/// Writes all bytes, piece by piece as the sink takes them.
#[tactic(auto, using(crate::proofs::CallerLemmas::wrote_start, crate::proofs::CallerLemmas::wrote_step, crate::proofs::CallerLemmas::wrote_same, crate::proofs::CallerLemmas::wrote_whole))]
pub fn write_all<O: Sink>(sink: &mut O, bytes: &[u8]) -> WriteAll
    ensures { WritesAll result bytes.now (O.state sink.old) (O.state sink.new) }
{
    let mut rest = bytes;
    while !rest.is_empty() {
        match sink.write(rest) {
            Put::Took(n) => {
                let (_, after) = rest.split_at(n);
                rest = after;
            }
            Put::Failed => return WriteAll::Failed,
        }
    }
    WriteAll::Whole
}
