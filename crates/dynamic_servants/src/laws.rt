//! Laws of outcomes, each the contract of a call that does nothing.
ghost use Rattle.dynamic_servants.specs.Laws.{RefusesUnknown, RefusesUnread};
ghost use Rattle.dynamic_servants.specs.PingLaw.{CurrentTellsPriority, PingIsServed};

/// An object answers BAD_OPERATION exactly where its interface isn't served or has no such operation.
#[tactic(auto, using(crate::proofs::Refusing::unknown_refused))]
pub fn refuses_unknown_operations()
    ensures { RefusesUnknown }
{}

/// An object answers MARSHAL exactly where its interface has the operation and the body hasn't its parameters.
#[tactic(auto, using(crate::proofs::Refusing::unread_refused))]
pub fn refuses_unread_parameters()
    ensures { RefusesUnread }
{}

/// Where the built-in interface is served by its servant, `current` returns the priority of its request.
#[tactic(auto, using(crate::proofs::Current::current_told))]
pub fn current_tells_the_priority()
    ensures { CurrentTellsPriority }
{}

/// Whatever a script does over a file that declares nothing in its place, the built-in interface is served so.
#[tactic(auto, using(crate::proofs::Current::ping_served))]
pub fn ping_is_served()
    ensures { PingIsServed }
{}
