//! Where links come from.
ghost use Rattle.orb_base.specs.Links.{AcceptorState, Accepts, GivesNew, CountsAcceptFault, CountsDone};

use crate::accepted::Accepted;
use crate::sink::Sink;
use crate::source::Source;

/// What accepts links, with a count of its faults and of its ends. Neither ever falls, and both stand still at 2^64 - 1.
pub trait Acceptor {
    /// The bytes that come by a link.
    type In: Source + Send + Drop;

    /// The bytes that go by a link.
    type Out: Sink + Send + Drop;

    /// The links still to come, where given, how many accepts failed, and how many were done.
    ghost state: { Self → AcceptorState Self.In Self.Out };

    /// The next link. May wait for a peer.
    fn accept(&mut self) -> Accepted<Self::In, Self::Out>
        ensures links { Accepts result (state self.old) (state self.new) }
        ensures fresh { GivesNew Self.In.state Self.Out.state result }
        ensures fault { CountsAcceptFault result (state self.old) (state self.new) }
        ensures end { CountsDone result (state self.old) (state self.new) };
}
