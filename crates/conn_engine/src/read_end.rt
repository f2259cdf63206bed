//! How the reading of a connection came out.
ghost use Rattle.std.specs.Prelude.{◌≡◌};
ghost use Rattle.conn_engine.specs.Ends as Spec;

use heard_calls::Ending;
use lane_machine::How;

/// Bytes of a connection that are taken at most.
pub const MAX_TAKEN: usize = 67_108_864;

/// Bytes of one read at most.
pub const READ_LEN: usize = 4096;

/// How the reading of a connection came out.
#[derive(Clone, Copy, Debug, PartialEq, Eq)]
pub enum ReadEnd {
    /// By a message, by a broken rule, or at the end of the input.
    Ended(Ending),
    /// `MAX_TAKEN` bytes were taken without such an ending; the end of the input was not looked for.
    Spent,
    /// A read failed. What was read before it counts.
    ReadFault,
}

/// How the connection is ended: by MessageError where its bytes broke a rule, by CloseConnection where too many came, and else in
/// silence.
pub fn how_of(end: ReadEnd) -> How
    ensures { result ≡ Spec.how_of end }
{
    match end {
        ReadEnd::Ended(Ending::Ended) => How::Quiet,
        ReadEnd::Ended(Ending::Cut(_)) => How::Quiet,
        ReadEnd::Ended(Ending::Broken { .. }) => How::Bad,
        ReadEnd::Spent => How::Shut,
        ReadEnd::ReadFault => How::Quiet,
    }
}
