//! Laws of halls. The bodies are empty: each contract is a law of the definitions.
ghost use Rattle.halls.specs.Laws as Spec;

use crate::hall::Hall;
use orb_base::{Sink, Source};

/// A message means one thing in a hall.
pub fn messages_mean_one_thing_in_halls()
    ensures { Spec.MeansOneWay }
{}

/// The list of a slot's hand is what its connections did, one after another.
pub fn slots_keep_what_connections_did<I: Source, O: Sink, H: Hall>()
    ensures { Spec.SlotKeepsParts I.state O.state H.held }
{}

/// Where no read and no write failed, the hand had an invocation for each request, and memory did not run out, nothing of a connection was
/// left out: all that its bytes mean was made and written.
pub fn connections_without_fault_are_whole()
    ensures { Spec.NothingIsLeftOut }
{}
