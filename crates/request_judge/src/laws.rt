//! Laws of judging.
ghost use Rattle.request_judge.specs.Laws.{JudgesOneWay, JudgesInHallOneWay};

/// No request has two verdicts, so that the causes of a refusal have an order.
#[tactic(auto, using(crate::proofs::OneVerdict::one_verdict))]
pub fn requests_are_judged_one_way()
    ensures { JudgesOneWay }
{}

/// The same without lanes.
#[tactic(auto, using(crate::proofs::Halls::one_place))]
pub fn requests_in_halls_are_judged_one_way()
    ensures { JudgesInHallOneWay }
{}
