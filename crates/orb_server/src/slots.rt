//! All slots, each in a thread of its own where one can be made.
ghost use Rattle.std.specs.Prelude.{◌≡◌, ◌<◌, ◌≤◌, [], length};
ghost use Rattle.std.specs.Vec.{vec_capacity};
ghost use Rattle.orb_base.specs.Outside.{IsNewSource, IsNewSink};
ghost use Rattle.orb_server.specs.Hosting.{Keeps, ServesLink};
ghost use Rattle.orb_server.specs.SlotEnds as ends;
ghost use Rattle.orb_server.specs.Threads.{IsPoolOf, IsJob, AreJobs, acceptors_of, IsDone, AreDone};

use crate::job::{PoolDone, PoolJob, PoolLink, PoolLinkDone};
use crate::link::serve_link;
use adapter_policies::Setup;
use conn_sides::{LastCollect, WriteEnd};
use lane_pool::LanePool;
use link_slots::{LinkDone, LinkHost, LinkJob, run_slot};
use orb_base::{Acceptor, Sink, Source};
use side_by_side::run_all;
use std::alloc::Global;
use std::sync::Wait;
use std::thread::Threads;

/// Whether the last collect was answered Close, also where a write had failed.
fn was_closed(end: &WriteEnd) -> bool
    ensures { result ≡ ends.was_closed end.now }
{
    matches!(
        end,
        WriteEnd::Closed | WriteEnd::WriteFault(LastCollect::Close)
    )
}

/// Serves the next connection of a slot.
#[tactic(auto, using(crate::proofs::Serving::keeps_one_more))]
fn serve_next<I: Source + Drop, O: Sink + Send + Drop, R: Wait + Threads + Sync>(
    rt: &R,
    alloc: Global,
    setup: &Setup,
    pool: &LanePool,
    link: PoolLink<I, O>,
) -> PoolLinkDone<I, O>
    requires kept { Keeps setup.now pool.now.cell link.nth link.place }
    requires few { link.nth < setup.now.per_slot }
    requires source { IsNewSource (I.state link.source) }
    requires sink { IsNewSink (O.state link.sink) }
    ensures { ServesLink I.state O.state setup.now pool.now.cell link result }
{
    let LinkJob {
        nth: _,
        place,
        source,
        sink,
    } = link;
    let (place, log) = serve_link(rt, alloc, setup, pool, place, source, sink);
    let closes = was_closed(&log.write);
    LinkDone { place, log, closes }
}

/// Serves the connections of one slot, one after another, and leaves.
fn serve_slot<A: Acceptor, R: Wait + Threads + Sync>(
    rt: &R,
    alloc: Global,
    setup: &Setup,
    pool: &LanePool,
    job: PoolJob<A, A::In, A::Out>,
) -> PoolDone<A, A::In, A::Out>
    requires job { IsJob setup.now pool.now.cell job.place.who job }
    requires opened { IsPoolOf setup.now pool.now.cell }
    ensures { IsDone A.state A.In.state A.Out.state setup.now pool.now.cell job.place.who job.acceptor result }
{
    let serve = move |link: PoolLink<A::In, A::Out>| -> PoolLinkDone<A::In, A::Out>
        requires { Keeps setup.now pool.now.cell link.nth link.place × (link.nth < setup.now.per_slot)
            × IsNewSource (A.In.state link.source) × IsNewSink (A.Out.state link.sink) }
        ensures { ServesLink A.In.state A.Out.state setup.entry.now pool.entry.now.cell link result }
    { serve_next(rt, alloc, setup, pool, link) };
    let host = LinkHost {
        most: setup.per_slot(),
        serve,
    };
    let mut done = run_slot(&host, job);
    pool.leave(rt, &mut done.place);
    done
}

/// Runs each slot in a thread of its own where one can be made, and puts what each leaves into `done`, in order.
pub fn run_slots<A: Acceptor + Send + Drop, R: Wait + Threads + Sync>(
    rt: &R,
    alloc: Global,
    setup: &Setup,
    pool: &LanePool,
    jobs: Vec<PoolJob<A, A::In, A::Out>>,
    done: Vec<PoolDone<A, A::In, A::Out>>,
) -> Vec<PoolDone<A, A::In, A::Out>>
    requires jobs { AreJobs setup.now pool.now.cell 0 jobs.items }
    requires opened { IsPoolOf setup.now pool.now.cell }
    requires room { (done.items ≡ []) × (length jobs.items ≤ vec_capacity done) }
    ensures done { AreDone A.state A.In.state A.Out.state setup.now pool.now.cell 0 (acceptors_of jobs.items) result.items }
    ensures all { length result.items ≡ length jobs.items }
{
    let serve = move |job: PoolJob<A, A::In, A::Out>| -> PoolDone<A, A::In, A::Out>
        requires { IsJob setup.now pool.now.cell job.place.who job × IsPoolOf setup.now pool.now.cell }
        ensures { IsDone A.state A.In.state A.Out.state setup.entry.now pool.entry.now.cell job.place.who job.acceptor result }
    { serve_slot(rt, alloc, setup, pool, job) };
    run_all(rt, &serve, jobs, done)
}
