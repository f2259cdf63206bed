//! The hall of a name service.
ghost use Rattle.std.specs.Prelude.{◌≡◌, ◌≤◌, [], ◌∷◌, ◌++◌};
ghost use Rattle.orb_base.specs.Outcomes as Outcomes;
ghost use Rattle.orb_base.specs.Outcomes.{body_len};
ghost use Rattle.orb_base.specs.declared.limits.TheConstants.{MAX_BODY};
ghost use Rattle.name_calls.specs.Answers.{answer};
ghost use Rattle.names_hall.specs.Entering.{ComesTo};
ghost use Rattle.names_hall.specs.Hands as Hands;
ghost use Rattle.names_hall.specs.Seats.{IsHandOf, MayCall, Invokes};

use crate::hand::NamesHand;
use crate::map::NamesMap;
use adapter_policies::Setup;
use halls::Hall;
use name_calls::{Meaning, answer_of, meaning_of};
use name_map::{NamesCell, NamesReply};
use orb_base::{Answer, Arc, Completed, Job, Order, Outcome, Sys, SysName, Told};
use std::alloc::Global;
use std::slice;
use std::sync::Wait;
use turn_cell::Seat;

/// What the slots of a name service invoke in: the map that they share, and the setup by which their requests are judged.
#[derive(Drop)]
pub struct NamesHall<'a, R> {
    pub rt: &'a R,
    pub alloc: Global,
    pub setup: &'a Setup,
    pub map: &'a NamesMap,
}

/// NO_MEMORY, minor 1, completed MAYBE: CORBA 3.0.3, section 4.12.
fn no_memory() -> Outcome
    ensures { result ≡ Outcomes.no_memory }
{
    Outcome::System(Sys {
        name: SysName::NoMemory,
        minor: 1,
        completed: Completed::Maybe,
    })
}

/// A reply of the map as an answer.
fn spelled(alloc: Global, order: Order, reply: &NamesReply) -> Outcome
    ensures comes { ComesTo (answer order reply.now) result }
    ensures short { body_len result ≤ MAX_BODY }
{
    match answer_of(alloc, order, reply) {
        Ok(outcome) => outcome,
        Err(_) => no_memory(),
    }
}

/// What a job comes to by a seat of the map. Its texts are made before the map is called, and its answer after that.
#[tactic(auto, using(crate::proofs::Invoking::lacks, crate::proofs::Invoking::tells, crate::proofs::Invoking::asks))]
fn carry_out<R: Wait>(
    rt: &R,
    alloc: Global,
    map: &NamesMap,
    seat: &mut Seat<NamesCell>,
    job: &Job,
) -> Outcome
    requires may { MayCall map.now seat.old }
    ensures invokes { Invokes job.now result seat.old seat.new }
    ensures short { body_len result ≤ MAX_BODY }
{
    match meaning_of(
        alloc,
        job.order,
        job.operation.as_slice(),
        job.body.as_slice(),
    ) {
        Ok(Meaning::Asks(call)) => {
            let reply = map.call(rt, seat, call);
            spelled(alloc, job.order, &reply)
        }
        Ok(Meaning::Tells(own)) => own,
        Err(_) => no_memory(),
    }
}

/// A share of a job, which is tried until it is had.
fn share_job<R: Wait>(rt: &R, job: &Arc<Job>) -> Arc<Job>
    ensures { result ≡ job.now }
{
    for _ in rt.forever() {
        if let Ok(share) = job.share() {
            return share;
        }
    }
    unreachable!()
}

/// What was done, and one invocation more. The outcome comes back.
fn kept(done: &Told<Answer>, job: Arc<Job>, outcome: Outcome) -> (Told<Answer>, Outcome)
    ensures done { result.0.items ≡ done.now.items ++ record { job = job; outcome = outcome } ∷ [] }
    ensures same { result.1 ≡ outcome }
{
    let last = Answer { job, outcome };
    let done = done.and(slice::from_ref(&last));
    let Answer { job: _, outcome } = last;
    (done, outcome)
}

impl<'a, R: Wait> Hall for NamesHall<'a, R> {
    type Hand = NamesHand;

    ghost judged_by = { λ h. h.setup.now };

    ghost held = { Hands.held };

    ghost is_of = { λ h hand. IsHandOf h.map.now hand };

    fn setup(&self) -> &Setup {
        self.setup
    }

    fn slot(&self, hand: &NamesHand) -> u8 {
        hand.slot
    }

    fn spare(&self, hand: &NamesHand) -> u32 {
        hand.spare
    }

    /// Takes memory for the request's texts and for its answer. Out of it the answer is NO_MEMORY; the map was called then only where
    /// the history says so.
    #[tactic(auto, using(crate::proofs::Invoking::may_call, crate::proofs::Invoking::still_of))]
    fn invoke(&self, hand: &mut NamesHand, job: &Arc<Job>) -> Outcome {
        let outcome = carry_out(self.rt, self.alloc, self.map, &mut hand.seat, job.get());
        let (done, outcome) = kept(&hand.done, share_job(self.rt, job), outcome);
        hand.spare -= 1;
        hand.done = done;
        outcome
    }
}
