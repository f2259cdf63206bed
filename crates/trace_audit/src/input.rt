//! An input of traces.
ghost use Rattle.trace_audit.specs.Inputs.{TakesInput};

use orb_base::{Got, List, NoMemory, Octets, Source};
use std::alloc::Global;

/// Bytes of an input of traces that are taken at most: 64 MiB. Own profile.
pub const MAX_AUDITED: usize = 67_108_864;

/// Bytes of one read at most.
const READ_LEN: usize = 4096;

/// An input of traces, as far as it was read.
#[derive(Drop)]
pub enum Input {
    /// Its bytes, up to the end: fewer than `MAX_AUDITED`.
    Whole(Octets),
    /// Its first `MAX_AUDITED` bytes. The end was not looked for.
    Full(Octets),
    /// Its bytes before a failed read: fewer than `MAX_AUDITED`.
    Failed(Octets),
}

/// Reads to the end of the input, or to a failed read, or until `MAX_AUDITED` bytes came. Out of memory the bytes that came are lost.
/// Work per byte is constant; memory grows with the input.
#[tactic(auto, using(text_streams::proofs::CallerLemmas::gave_start, text_streams::proofs::CallerLemmas::gave_step, text_streams::proofs::CallerLemmas::gave_same, text_streams::proofs::CallerLemmas::gave_few))]
pub fn take_input<I: Source>(alloc: Global, source: &mut I) -> Result<Input, NoMemory>
    ensures { TakesInput result (I.state source.old) (I.state source.new) }
{
    let mut bytes = List::new(alloc);
    while bytes.len() < MAX_AUDITED {
        let mut piece = [0u8; READ_LEN];
        let room = piece.len().min(MAX_AUDITED - bytes.len());
        match source.read(&mut piece[..room]) {
            Got::Bytes(n) => bytes.append(&piece[..n])?,
            Got::End => return Ok(Input::Whole(bytes)),
            Got::Failed => return Ok(Input::Failed(bytes)),
        }
    }
    Ok(Input::Full(bytes))
}
