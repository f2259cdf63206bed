//! What listens and connects.
ghost use Rattle.std.specs.Prelude.{◌≡◌, Some, None, IfOk};
ghost use Rattle.orb_base.specs.Outside.{IsNewSource, IsNewSink};
ghost use Rattle.orb_nets.specs.Nets.{NetState, Asks, Listens, Connects, CountsNetFault};

use crate::net_fault::NetFault;
use orb_base::{Acceptor, List, Sink, Source, Text};

/// What listens and connects, with a count of its faults, which never falls and stands still at 2^64 - 1.
pub trait Net {
    /// The bytes that come by a link.
    type In: Source + Send + Drop;

    /// The bytes that go by a link.
    type Out: Sink + Send + Drop;

    /// What accepts the links of one slot.
    type Acc: Acceptor<In = Self::In, Out = Self::Out> + Send + Drop;

    /// What was asked, the links of each slot still to open and the links still to connect, where given, and how many calls
    /// failed.
    ghost state: { Self → NetState Self.In Self.Out };

    /// Listens at a host and a port, and gives an acceptor for each slot, for at most `each` links. What was asked is
    /// given also where the call fails.
    fn listen(
        &mut self,
        host: &Text,
        port: u16,
        slots: u8,
        each: u32,
    ) -> Result<List<Self::Acc>, NetFault>
        ensures acceptors { Listens Self.Acc.state slots each result (state self.old) (state self.new) }
        ensures asked { Asks (record { host = host.now; port = port; slots = Some (slots, each) }) (state self.old) (state self.new) }
        ensures fault { CountsNetFault result (state self.old) (state self.new) }
        ensures kept { (state self.new).peers ≡ (state self.old).peers };

    /// Connects to a host and a port. May wait for a peer. What was asked is given also where the call fails.
    fn connect(&mut self, host: &Text, port: u16) -> Result<(Self::In, Self::Out), NetFault>
        ensures link { Connects result (state self.old) (state self.new) }
        ensures fresh { IfOk result (λ link. IsNewSource (Self.In.state link.0) × IsNewSink (Self.Out.state link.1)) }
        ensures asked { Asks (record { host = host.now; port = port; slots = None }) (state self.old) (state self.new) }
        ensures fault { CountsNetFault result (state self.old) (state self.new) }
        ensures kept { (state self.new).slots ≡ (state self.old).slots };
}
