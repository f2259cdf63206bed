//! Laws of exchanges. The bodies are empty: each contract is a law of the definitions.
ghost use Rattle.client_calls.specs.Laws as Spec;

/// What a connection gave and whether its end was met say what is sent, and give one result.
#[tactic(auto, using(crate::proofs::OneResult::one_result))]
pub fn bytes_and_end_give_one_result()
    ensures { Spec.OneResult }
{}
