//! A run of a name service.
ghost use Rattle.std.specs.Prelude.{◌≡◌, ◌*◌, ◌≤◌, [], length, IfOk, OnErr};
ghost use Rattle.std.specs.Vec.{vec_capacity};
ghost use Rattle.name_map.specs.declared.limits.TheConstants.{MAX_CALLERS};
ghost use Rattle.names_hall.specs.Closing.{IsLawful};
ghost use Rattle.names_hall.specs.Seats.{MainAt};
ghost use Rattle.names_runs.specs.Giving.{conns_of};
ghost use Rattle.names_runs.specs.Runs.{keys_after, AllSlotsRan, RanOver};
ghost use Rattle.names_runs.specs.Starting.{AreStarts, AreJobs, AreDone, IsBack, acceptors_of};

use crate::give::{Parts, take_apart};
use crate::job::{NamesDone, NamesJob};
use crate::keys::count_keys;
use crate::prepare::{Prepared, give_acceptors, prepare};
use crate::run::NamesRun;
use adapter_policies::Setup;
use halls::run_hall;
use names_hall::{Closed, NamesHall, NamesMap, RootSeat, close};
use orb_base::{Acceptor, Answer, List, NoMemory, Told};
use std::alloc::Global;
use std::mem;
use std::sync::Wait;
use std::thread::Threads;

/// Serves the links of all slots.
fn serve_slots<A: Acceptor + Send + Drop, R: Wait + Threads + Sync>(
    rt: &R,
    alloc: Global,
    setup: &Setup,
    map: &NamesMap,
    jobs: Vec<NamesJob<A, A::In, A::Out>>,
    done: Vec<NamesDone<A, A::In, A::Out>>,
) -> Vec<NamesDone<A, A::In, A::Out>>
    requires jobs { AreJobs setup.now map.now 0 jobs.items }
    requires room { (done.items ≡ []) × (length jobs.items ≤ vec_capacity done) }
    ensures done { AreDone A.state A.In.state A.Out.state setup.now map.now 0 (acceptors_of jobs.items) result.items }
    ensures all { length result.items ≡ length jobs.items }
{
    let hall = NamesHall {
        rt,
        alloc,
        setup,
        map,
    };
    run_hall(rt, alloc, &hall, setup.per_slot(), jobs, done)
}

/// Gives all seats back, and closes the map.
fn close_run<A: Acceptor + Drop, R: Wait>(
    rt: &R,
    map: NamesMap,
    root: RootSeat,
    setup: &Setup,
    done: Vec<NamesDone<A, A::In, A::Out>>,
    told: Vec<Told<Answer>>,
    none: Parts<A, A::In, A::Out>,
) -> (NamesRun<A::In, A::Out>, Vec<A>)
    requires root { MainAt map MAX_CALLERS root }
    requires back { IsBack A.state A.In.state A.Out.state setup.now map done.items }
    requires told { (told.items ≡ []) × (MAX_CALLERS ≤ vec_capacity told) }
    requires empty { (none.hands.items ≡ []) × (none.acceptors.items ≡ []) × (none.conns.items ≡ []) × (none.ends.items ≡ []) }
    requires room { (MAX_CALLERS ≤ vec_capacity none.hands) × (MAX_CALLERS ≤ vec_capacity none.acceptors)
        × (MAX_CALLERS * setup.now.per_slot ≤ vec_capacity none.conns) × (MAX_CALLERS ≤ vec_capacity none.ends) }
    ensures lawful { IsLawful result.0.history.items }
    ensures keys { result.0.keys ≡ keys_after result.0.history.items }
    ensures slots { RanOver A.state A.In.state A.Out.state setup.now map done.items result.0 result.1.items }
{
    let Parts {
        hands,
        acceptors,
        conns,
        ends,
    } = take_apart(done, none);
    let Closed { map, history, done } = close(map, root, hands, told);
    let keys = count_keys(rt, map);
    let done = List::from_vec(done);
    let conns = List::from_vec(conns);
    let slots = List::from_vec(ends);
    let run = NamesRun {
        history,
        keys,
        done,
        conns,
        slots,
    };
    (run, acceptors)
}

/// Runs all slots over these acceptors, and closes the map.
fn run_prepared<A: Acceptor + Send + Drop, R: Wait + Threads + Sync>(
    rt: &R,
    alloc: Global,
    setup: &Setup,
    acceptors: Vec<A>,
    prepared: Prepared<A, A::In, A::Out>,
) -> (NamesRun<A::In, A::Out>, Vec<A>)
    requires slots { length acceptors.items ≡ MAX_CALLERS }
    requires root { MainAt prepared.map MAX_CALLERS prepared.root }
    requires starts { AreStarts setup.now prepared.map 0 prepared.starts.items × (length prepared.starts.items ≡ MAX_CALLERS) }
    requires jobs { (prepared.jobs.items ≡ []) × (MAX_CALLERS ≤ vec_capacity prepared.jobs) }
    requires done { (prepared.done.items ≡ []) × (MAX_CALLERS ≤ vec_capacity prepared.done) }
    requires told { (prepared.told.items ≡ []) × (MAX_CALLERS ≤ vec_capacity prepared.told) }
    requires empty { (prepared.parts.hands.items ≡ []) × (prepared.parts.acceptors.items ≡ []) × (prepared.parts.conns.items ≡ [])
        × (prepared.parts.ends.items ≡ []) }
    requires room { (MAX_CALLERS ≤ vec_capacity prepared.parts.hands) × (MAX_CALLERS ≤ vec_capacity prepared.parts.acceptors)
        × (MAX_CALLERS * setup.now.per_slot ≤ vec_capacity prepared.parts.conns) × (MAX_CALLERS ≤ vec_capacity prepared.parts.ends) }
    ensures lawful { IsLawful result.0.history.items }
    ensures keys { result.0.keys ≡ keys_after result.0.history.items }
    ensures slots { AllSlotsRan A.state A.In.state A.Out.state setup.now result.0 acceptors.items result.1.items }
{
    let Prepared {
        map,
        root,
        starts,
        jobs,
        done,
        told,
        parts,
    } = prepared;
    let jobs = give_acceptors(setup, &map, starts, acceptors, jobs);
    let done = serve_slots(rt, alloc, setup, &map, jobs, done);
    close_run(rt, map, root, setup, done, told, parts)
}

/// Runs a name service over four acceptors: each slot serves the links of its acceptor, one after another, over one map that all share,
/// which opens empty. It comes back once every slot has left; the acceptors are in their places then. A slot whose thread can't be
/// made serves after the others. NoMemory comes before any thread runs, and leaves the acceptors.
///
/// All memory but that of the connections and of their requests is taken at the start: the room of the map, of its 65,536 calls, and of
/// what the connections leave, `per_slot` for each slot.
pub fn names_run<A: Acceptor + Send + Drop, R: Wait + Threads + Sync>(
    rt: &R,
    alloc: Global,
    setup: &Setup,
    slots: &mut List<A>,
) -> Result<NamesRun<A::In, A::Out>, NoMemory>
    requires { length slots.old.items ≡ MAX_CALLERS }
    // All calls of the map are one legal history, in which each was fit for its caller: what each is answered is what the map answers after
    // the calls before it.
    ensures lawful { IfOk result (λ run. IsLawful run.history.items) }
    ensures keys { IfOk result (λ run. run.keys ≡ keys_after run.history.items) }
    // Each slot's entries are those of its invocations, in order and each once, and its connections are those of a hall.
    ensures slots { IfOk result (λ run. AllSlotsRan A.state A.In.state A.Out.state setup.now run slots.old.items slots.new.items) }
    ensures kept { OnErr result (slots.new.items ≡ slots.old.items) }
{
    let prepared = prepare(alloc, setup)?;
    let acceptors = mem::replace(slots, List::new(alloc)).into_vec();
    let (run, acceptors) = run_prepared(rt, alloc, setup, acceptors, prepared);
    *slots = List::from_vec(acceptors);
    Ok(run)
}
