//! Laws of the map, each the contract of a call that does nothing.
ghost use Rattle.name_map.specs.Laws.{StaysMap, BoundIsFound, OthersStayBound, TakenIsGone, OthersAreLeft, NextIsLeast, HasRoom};

/// The keys of a map rise at any time, and there are never too many.
#[tactic(auto, using(crate::proofs::MapLaws::stays_map))]
pub fn stays_a_map()
    ensures { StaysMap }
{}

/// To bind a key changes that key alone.
#[tactic(auto, using(crate::proofs::MapLaws::bound_found, crate::proofs::MapLaws::others_bound))]
pub fn binds_one_key()
    ensures found { BoundIsFound }
    ensures others { OthersStayBound }
{}

/// To take a key out changes that key alone.
#[tactic(auto, using(crate::proofs::MapLaws::taken_gone, crate::proofs::MapLaws::others_left))]
pub fn takes_one_key_out()
    ensures gone { TakenIsGone }
    ensures others { OthersAreLeft }
{}

/// The next key is the least one above.
#[tactic(auto, using(crate::proofs::MapLaws::next_least))]
pub fn next_is_the_least_above()
    ensures { NextIsLeast }
{}

/// Callers that make no more calls than they may never wear the history.
pub fn leaves_room_for_each_call()
    ensures { HasRoom }
{}
