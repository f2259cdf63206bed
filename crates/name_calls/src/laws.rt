//! Laws of requests to a name service, each the contract of a call that does nothing.
ghost use Rattle.name_calls.specs.Laws.{RefusesUnknown, RefusesUnread, RefusesLong};
ghost use Rattle.name_calls.specs.Laws.{AsksWithinLimits, RepliesAreShort, ShortTextsAreAnswered};

/// Each exception of the system has its one cause.
#[tactic(auto, using(crate::proofs::Refusing::unknown_refused, crate::proofs::Refusing::unread_refused, crate::proofs::Refusing::long_refused))]
pub fn refuses_for_one_cause()
    ensures unknown { RefusesUnknown }
    ensures unread { RefusesUnread }
    ensures long { RefusesLong }
{}

/// What reaches the map keeps the limits, so no reply has a text that is too long for an answer.
pub fn texts_stay_short()
    ensures asks { AsksWithinLimits }
    ensures replies { RepliesAreShort }
    ensures answers { ShortTextsAreAnswered }
{}
