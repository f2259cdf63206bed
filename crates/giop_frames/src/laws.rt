//! Laws of the definition of a stream, each the contract of a call that does nothing.
ghost use Rattle.giop_frames.specs.Laws.{CutsExactly, CutsOneWay, RestIsLeast};

/// The pieces of a stream and its tail are its bytes, each piece is as long as its header says, and the tail is no whole
/// piece.
pub fn cuts_exactly()
    ensures { CutsExactly }
{}

/// A stream has no other cut of this kind.
#[tactic(auto, using(crate::proofs::LawProofs::cuts_one_way))]
pub fn cuts_one_way()
    ensures { CutsOneWay }
{}

/// The rest is the smallest offset at which something unfinished begins.
#[tactic(auto, using(crate::proofs::LawProofs::rest_is_least))]
pub fn rest_is_least()
    ensures { RestIsLeast }
{}
