//! Laws of a name service, each the contract of a call that does nothing.
ghost use Rattle.names_hall.specs.Laws.{TellsTruly};

/// What a client is answered is what the map answers after the calls before its own in the one history, or what its request has for an answer
/// without the map, or NO_MEMORY.
#[tactic(auto, using(crate::proofs::Truly::tells_truly))]
pub fn clients_are_told_what_the_map_answers()
    ensures { TellsTruly }
{}
