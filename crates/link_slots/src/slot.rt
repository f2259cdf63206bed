//! A slot: one link after another.
ghost use Rattle.std.specs.Prelude.{◌≡◌, ◌≤◌, []};
ghost use Rattle.std.specs.Vec.{vec_capacity};
ghost use Rattle.link_slots.specs.Slots.{MayServe, MayGoOn, HasRoom, SlotRan};

use crate::host::{LinkDone, LinkHost, LinkJob};
use crate::slot_end::SlotEnd;
use orb_base::{Accepted, Acceptor};

/// What a slot begins with.
#[derive(Drop)]
pub struct SlotJob<A, P, L> {
    pub place: P,
    pub acceptor: A,
    /// Room for what its links leave.
    pub logs: Vec<L>,
}

/// What a slot leaves.
#[derive(Drop)]
pub struct SlotDone<A, P, L> {
    pub place: P,
    pub acceptor: A,
    /// What its links left, in order.
    pub logs: Vec<L>,
    pub end: SlotEnd,
}

/// A slot that came out so.
fn left<A, P, L>(place: P, acceptor: A, logs: Vec<L>, end: SlotEnd) -> SlotDone<A, P, L>
    ensures { result ≡ record { place = place; acceptor = acceptor; logs = logs; end = end } }
{
    SlotDone {
        place,
        acceptor,
        logs,
        end,
    }
}

/// Serves the links of an acceptor, one after another, and at most as many as the host says. Takes no memory.
pub fn run_slot<A: Acceptor, P: Drop, L: Drop, F: Fn(LinkJob<P, A::In, A::Out>) -> LinkDone<P, L>>(
    host: &LinkHost<F>,
    job: SlotJob<A, P, L>,
) -> SlotDone<A, P, L>
    requires job { HasRoom host.now.most job }
    requires first { MayServe A.In.state A.Out.state (F.pre host.now.serve) host.now.most 0 job.place }
    requires next { MayGoOn A.In.state A.Out.state (F.pre host.now.serve) host.now.most (F.post host.now.serve) }
    // Its links were handed out by the acceptor, in order, and served by its place, each as the closure says; and its end has its cause.
    ensures ran { SlotRan A.state (F.post host.now.serve) host.now.most job result }
{
    let SlotJob {
        mut place,
        mut acceptor,
        mut logs,
    } = job;
    for nth in 0..host.most {
        match acceptor.accept() {
            Accepted::Link(source, sink) => {
                let served = (host.serve)(LinkJob {
                    nth,
                    place,
                    source,
                    sink,
                });
                let LinkDone {
                    place: next,
                    log,
                    closes,
                } = served;
                place = next;
                logs.push_reserved(log);
                if closes {
                    return left(place, acceptor, logs, SlotEnd::Closed);
                }
            }
            Accepted::Done => return left(place, acceptor, logs, SlotEnd::Done),
            Accepted::Failed => return left(place, acceptor, logs, SlotEnd::AcceptFault),
        }
    }
    left(place, acceptor, logs, SlotEnd::Served)
}
