//! What a load is to be.

use crate::fragment_len::FragmentLen;
use crate::load_count::LoadCount;
use pipe_runs::Batch;

/// What a load is to be.
#[derive(Clone, Copy, Debug, PartialEq, Eq)]
pub struct LoadPlan {
    /// What the priorities of the requests begin from.
    pub seed: u32,
    /// How many requests it has.
    pub count: LoadCount,
    /// How many calls a group of the run has at most.
    pub batch: Batch,
    /// How long the pieces of a request are, where those that are longer come in pieces.
    pub fragment: Option<FragmentLen>,
}
