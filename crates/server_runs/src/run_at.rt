//! A server at an address.
ghost use Rattle.std.specs.Prelude.{◌≡◌, ◌≤◌, [], length};
ghost use Rattle.server_runs.specs.Serving as Spec;

use crate::run_plan::RunPlan;
use crate::run_threads::can_make_threads;
use crate::runs::serve_runs;
use crate::serve_end::ServeEnd;
use adapter_policies::Setup;
use object_lines::Address;
use orb_base::{Acceptor, List, Serving, Sink};
use orb_nets::{Net, NetFault};
use orb_server::Run;
use std::alloc::Global;
use std::sync::Wait;
use std::thread::Threads;

/// What a server leaves.
#[derive(Drop)]
pub struct Served<A, I, O> {
    pub end: ServeEnd,
    /// What each run left, in order: all that ended.
    pub runs: List<Run<I, O>>,
    /// The acceptors that the net gave, as they are at the end.
    pub acceptors: List<A>,
}

/// Serves over these acceptors, and puts the runs into this list, which has room for them.
#[tactic(auto, using(crate::proofs::Following::all_made))]
fn serve_over<A: Acceptor + Send + Drop, S: Serving + Sync, O: Sink, R: Wait + Threads + Sync>(
    rt: &R,
    alloc: Global,
    setup: &Setup,
    servants: &S,
    plan: &RunPlan,
    acceptors: List<A>,
    none: List<Run<A::In, A::Out>>,
    out: &mut O,
) -> Served<A, A::In, A::Out>
    requires slots { length acceptors.items ≡ setup.now.slots }
    requires empty { none.items ≡ [] }
    requires room { plan.now.runs ≤ none.spare }
    ensures { Spec.RanRuns A.state A.In.state A.Out.state setup.now (S.outcome servants.now) plan.now result.end result.runs.items
        acceptors.items result.acceptors.items (O.state out.old) (O.state out.new) }
{
    let mut acceptors = acceptors;
    let mut runs = none;
    let end = serve_runs(
        rt,
        alloc,
        setup,
        servants,
        plan,
        &mut acceptors,
        &mut runs,
        out,
    );
    Served {
        end,
        runs,
        acceptors,
    }
}

/// How a server came out to which the net gave no acceptors.
fn end_of(fault: NetFault) -> ServeEnd
    ensures { result ≡ Spec.end_of fault }
{
    match fault {
        NetFault::Failed => ServeEnd::NetFault,
        NetFault::NoMemory => ServeEnd::NoMemory,
    }
}

/// Nothing was served, for this reason.
fn unserved<A, I, O>(alloc: Global, end: ServeEnd) -> Served<A, I, O>
    ensures end { result.end ≡ end }
    ensures runs { result.runs.items ≡ [] }
    ensures acceptors { result.acceptors.items ≡ [] }
{
    Served {
        end,
        runs: List::new(alloc),
        acceptors: List::new(alloc),
    }
}

/// Serves a setup at an address: listens there once, for as many slots as the setup has and as many links of each as a slot may serve in
/// all runs of the plan; and makes one run after another, each until all its slots have left. After each it writes its trace, where the
/// plan asks for it, and a line of summary. Another run follows where those lines were written, the plan has one more, and a slot served as
/// many links as it may, or closed its last one: the acceptors go on, while pool, history and the numbers of connections begin anew.
///
/// It may wait for ever for a link. Room for the list of all runs is taken before the net is asked, so that no run that ended is lost, and
/// the threads of a run are made and joined once: where one can't be made it is out of memory, and nothing listens. A run costs what its
/// connections cost, two threads a slot, one for each thread of the pool and one that waits for these; what it leaves is kept to the end.
#[tactic(auto, using(crate::proofs::Listening::served_over, crate::proofs::Listening::unserved, crate::proofs::Listening::unasked))]
pub fn serve_at<N: Net, S: Serving + Sync, O: Sink, R: Wait + Threads + Sync>(
    rt: &R,
    alloc: Global,
    net: &mut N,
    setup: &Setup,
    servants: &S,
    at: &Address,
    plan: &RunPlan,
    out: &mut O,
) -> Served<N::Acc, N::In, N::Out>
    // The net was asked once, for the address and for as many links a slot as all runs may serve. Where it gave acceptors, the runs over
    // them are legal histories, whose lines were written.
    ensures served { Spec.ServesAt N.Acc.state N.In.state N.Out.state setup.now (S.outcome servants.now) at.now plan.now result
        (N.state net.old) (N.state net.new) (O.state out.old) (O.state out.new) }
    ensures peers { (N.state net.new).peers ≡ (N.state net.old).peers }
{
    let count = plan.runs.count();
    let mut runs = List::new(alloc);
    let Ok(()) = runs.reserve(usize::from(count)) else {
        return unserved(alloc, ServeEnd::NoMemory);
    };
    if !can_make_threads(rt, alloc, setup) {
        return unserved(alloc, ServeEnd::NoMemory);
    }
    let each = u32::from(setup.per_slot()) * u32::from(count);
    match net.listen(&at.host, at.port, setup.slots(), each) {
        Ok(acceptors) => serve_over(rt, alloc, setup, servants, plan, acceptors, runs, out),
        Err(fault) => unserved(alloc, end_of(fault)),
    }
}
