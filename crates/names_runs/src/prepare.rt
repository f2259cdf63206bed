//! What a run begins with. All its memory but that of its connections is taken here.
ghost use Rattle.std.specs.Prelude.{◌≡◌, ◌*◌, ◌≤◌, [], length, IfOk};
ghost use Rattle.std.specs.Vec.{vec_capacity};
ghost use Rattle.name_map.specs.declared.limits.TheConstants.{MAX_CALLERS};
ghost use Rattle.names_hall.specs.Seats.{MainAt, AreFresh};
ghost use Rattle.names_runs.specs.Starting.{AreStarts, AreJobs, acceptors_of};

use crate::give::{Parts, no_parts};
use crate::job::{NamesDone, NamesJob, SlotStart};
use adapter_policies::Setup;
use link_slots::SlotJob;
use name_map::limits::MAX_CALLERS;
use names_hall::{NamesHand, NamesMap, RootSeat, open};
use orb_base::{Answer, NoMemory, Told};
use std::alloc::Global;

/// An open map with all that its slots begin with, and room for all that they leave.
#[derive(Drop)]
pub struct Prepared<A, I, O> {
    pub map: NamesMap,
    pub root: RootSeat,
    pub starts: Vec<SlotStart<I, O>>,
    pub jobs: Vec<NamesJob<A, I, O>>,
    pub done: Vec<NamesDone<A, I, O>>,
    pub told: Vec<Told<Answer>>,
    pub parts: Parts<A, I, O>,
}

/// Takes room for what the connections of each slot leave, and puts it beside the slot's hand.
#[tactic(auto, using(crate::proofs::Starting::fresh_front, crate::proofs::Starting::fresh_last, crate::proofs::Starting::starts_none))]
fn make_starts<I: Drop, O: Drop>(
    alloc: Global,
    setup: &Setup,
    map: &NamesMap,
    hands: Vec<NamesHand>,
    none: Vec<SlotStart<I, O>>,
) -> Result<Vec<SlotStart<I, O>>, NoMemory>
    requires hands { AreFresh map.now 0 hands.items }
    requires room { (none.items ≡ []) × (length hands.items ≤ vec_capacity none) }
    ensures starts { IfOk result (λ v. AreStarts setup.now map.now 0 v.items) }
    ensures all { IfOk result (λ v. length v.items ≡ length hands.items) }
    ensures room { IfOk result (λ v. vec_capacity v ≡ vec_capacity none) }
{
    let mut before = hands;
    match before.pop() {
        None => Ok(none),
        Some(hand) => {
            let mut starts = make_starts(alloc, setup, map, before, none)?;
            let Ok(logs) = Vec::with_capacity(alloc, usize::from(setup.per_slot())) else {
                return Err(NoMemory);
            };
            starts.push_reserved(SlotStart { hand, logs });
            Ok(starts)
        }
    }
}

/// Gives each slot its acceptor.
#[tactic(auto, using(crate::proofs::Starting::starts_front, crate::proofs::Starting::starts_last, crate::proofs::Starting::jobs_none, crate::proofs::Starting::acceptors_grow, crate::proofs::Starting::same_lengths))]
pub fn give_acceptors<A: Drop, I: Drop, O: Drop>(
    setup: &Setup,
    map: &NamesMap,
    starts: Vec<SlotStart<I, O>>,
    acceptors: Vec<A>,
    none: Vec<NamesJob<A, I, O>>,
) -> Vec<NamesJob<A, I, O>>
    requires starts { AreStarts setup.now map.now 0 starts.items }
    requires same { length starts.items ≡ length acceptors.items }
    requires room { (none.items ≡ []) × (length starts.items ≤ vec_capacity none) }
    ensures jobs { AreJobs setup.now map.now 0 result.items }
    ensures acceptors { acceptors_of result.items ≡ acceptors.items }
    ensures all { length result.items ≡ length starts.items }
    ensures room { vec_capacity result ≡ vec_capacity none }
{
    let mut starts = starts;
    let mut acceptors = acceptors;
    match starts.pop() {
        None => none,
        Some(SlotStart { hand, logs }) => match acceptors.pop() {
            None => unreachable!(),
            Some(acceptor) => {
                let mut jobs = give_acceptors(setup, map, starts, acceptors, none);
                jobs.push_reserved(SlotJob {
                    place: hand,
                    acceptor,
                    logs,
                });
                jobs
            }
        },
    }
}

/// Opens the map, and takes room for what the run leaves.
pub fn prepare<A: Drop, I: Drop, O: Drop>(
    alloc: Global,
    setup: &Setup,
) -> Result<Prepared<A, I, O>, NoMemory>
    ensures root { IfOk result (λ p. MainAt p.map MAX_CALLERS p.root) }
    ensures starts { IfOk result (λ p. AreStarts setup.now p.map 0 p.starts.items × (length p.starts.items ≡ MAX_CALLERS)) }
    ensures jobs { IfOk result (λ p. (p.jobs.items ≡ []) × (MAX_CALLERS ≤ vec_capacity p.jobs)) }
    ensures done { IfOk result (λ p. (p.done.items ≡ []) × (MAX_CALLERS ≤ vec_capacity p.done)) }
    ensures told { IfOk result (λ p. (p.told.items ≡ []) × (MAX_CALLERS ≤ vec_capacity p.told)) }
    ensures empty { IfOk result (λ p. (p.parts.hands.items ≡ []) × (p.parts.acceptors.items ≡ []) × (p.parts.conns.items ≡ [])
        × (p.parts.ends.items ≡ [])) }
    ensures room { IfOk result (λ p. (MAX_CALLERS ≤ vec_capacity p.parts.hands) × (MAX_CALLERS ≤ vec_capacity p.parts.acceptors)
        × (MAX_CALLERS * setup.now.per_slot ≤ vec_capacity p.parts.conns) × (MAX_CALLERS ≤ vec_capacity p.parts.ends)) }
{
    let opened = open(alloc)?;
    let map = opened.map;
    let root = opened.root;
    let hands = opened.hands;
    let slots = MAX_CALLERS as usize;
    let Ok(none) = Vec::with_capacity(alloc, slots) else {
        return Err(NoMemory);
    };
    let starts = make_starts(alloc, setup, &map, hands, none)?;
    let Ok(jobs) = Vec::with_capacity(alloc, slots) else {
        return Err(NoMemory);
    };
    let Ok(done) = Vec::with_capacity(alloc, slots) else {
        return Err(NoMemory);
    };
    let Ok(told) = Vec::with_capacity(alloc, slots) else {
        return Err(NoMemory);
    };
    let parts = no_parts(alloc, slots, slots * usize::from(setup.per_slot()))?;
    Ok(Prepared {
        map,
        root,
        starts,
        jobs,
        done,
        told,
        parts,
    })
}
