//! What a call of the command line leaves.
ghost use Rattle.std.specs.Prelude.{◌≡◌, None};

use crate::call_end::CallEnd;

/// What a call of the command line leaves.
#[derive(Drop)]
pub struct Called<I, O> {
    pub end: CallEnd,
    /// The source and the sink of the connection, as the call left them: exactly where the net gave one.
    pub link: Option<(I, O)>,
}

impl<I, O> Called<I, O> {
    /// There was no connection, for this reason.
    pub(crate) fn unconnected(end: CallEnd) -> Called<I, O>
        ensures end { result.end ≡ end }
        ensures link { result.link ≡ None }
    {
        Called { end, link: None }
    }
}
