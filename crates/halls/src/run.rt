//! All slots of a hall, each in a thread of its own where one can be made.
ghost use Rattle.std.specs.Prelude.{◌≡◌, ◌≤◌, [], length};
ghost use Rattle.std.specs.List.{All};
ghost use Rattle.std.specs.Vec.{vec_capacity};
ghost use Rattle.side_by_side.specs.Sides.{Pairs};
ghost use Rattle.halls.specs.Served.{IsJob, LeavesSlot, ServesLink};

use crate::hall::Hall;
use crate::host::{LinkLog, serve_next};
use link_slots::{LinkDone, LinkHost, LinkJob, SlotDone, SlotJob, run_slot};
use orb_base::Acceptor;
use side_by_side::run_all;
use std::alloc::Global;
use std::thread::Threads;

/// What a slot of a hall begins with: its hand, its acceptor, and room for what its connections leave.
pub type HallJob<A, H, I, O> = SlotJob<A, H, LinkLog<I, O>>;

/// What a slot of a hall leaves: the same, with what its connections left, and how it came out.
pub type HallDone<A, H, I, O> = SlotDone<A, H, LinkLog<I, O>>;

/// Serves the links of one slot, one after another.
fn serve_slot<A: Acceptor, H: Hall>(
    alloc: Global,
    hall: &H,
    most: u8,
    job: HallJob<A, H::Hand, A::In, A::Out>,
) -> HallDone<A, H::Hand, A::In, A::Out>
    requires job { IsJob (H.is_of hall.now) most job }
    ensures { LeavesSlot A.In.state A.Out.state (H.judged_by hall.now) H.held (H.is_of hall.now) A.state most job result }
{
    let serve = move |link: LinkJob<H::Hand, A::In, A::Out>| -> LinkDone<
        H::Hand,
        LinkLog<A::In, A::Out>,
    >
        requires { H.is_of hall.now link.place }
        ensures { H.is_of hall.entry.now result.place
            × ServesLink A.In.state A.Out.state (H.judged_by hall.entry.now) H.held link result }
    { serve_next(alloc, hall, link) };
    let host = LinkHost { most, serve };
    run_slot(&host, job)
}

/// Serves the links of acceptors in a hall, at most `most` for each slot: each slot by its hand, in a thread of its own where one can be
/// made, and its connections one after another. It comes back once all slots have come out, and puts what each leaves into `done`, in the
/// order of the slots. Takes no memory but that of the connections.
pub fn run_hall<A: Acceptor + Send + Drop, H: Hall + Sync, R: Threads + Sync>(
    rt: &R,
    alloc: Global,
    hall: &H,
    most: u8,
    jobs: Vec<HallJob<A, H::Hand, A::In, A::Out>>,
    done: Vec<HallDone<A, H::Hand, A::In, A::Out>>,
) -> Vec<HallDone<A, H::Hand, A::In, A::Out>>
where
    H::Hand: Send,
    requires jobs { All (IsJob (H.is_of hall.now) most) jobs.items }
    requires room { (done.items ≡ []) × (length jobs.items ≤ vec_capacity done) }
    ensures ran { Pairs (LeavesSlot A.In.state A.Out.state (H.judged_by hall.now) H.held (H.is_of hall.now) A.state most)
        jobs.items result.items }
    ensures all { length result.items ≡ length jobs.items }
{
    let serve = move |job: HallJob<A, H::Hand, A::In, A::Out>| -> HallDone<
        A,
        H::Hand,
        A::In,
        A::Out,
    >
        requires { IsJob (H.is_of hall.now) most job }
        ensures { LeavesSlot A.In.state A.Out.state (H.judged_by hall.entry.now) H.held (H.is_of hall.entry.now) A.state most job result }
    { serve_slot(alloc, hall, most, job) };
    run_all(rt, &serve, jobs, done)
}
