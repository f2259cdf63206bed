//! What a call of several callers leaves.
ghost use Rattle.std.specs.Prelude.{◌≡◌, None};

use client_runs::CallEnd;
use mux_runs::MuxRun;

/// What a call of the command line leaves that several callers make over one link.
#[derive(Drop)]
pub struct SharedCall<I, O> {
    /// How it came out: by the first caller, in order, whose call gave no results or whose line failed.
    pub end: CallEnd,
    /// The run of the callers, with the source and the sink of the link as it left them: exactly where the callers ran.
    pub run: Option<MuxRun<I, O>>,
    /// The source and the sink of the link, where the net gave one and memory was out before the callers ran.
    pub link: Option<(I, O)>,
}

impl<I, O> SharedCall<I, O> {
    /// There was no link, for this reason.
    pub(crate) fn unconnected(end: CallEnd) -> SharedCall<I, O>
        ensures end { result.end ≡ end }
        ensures run { result.run ≡ None }
        ensures link { result.link ≡ None }
    {
        SharedCall {
            end,
            run: None,
            link: None,
        }
    }
}
