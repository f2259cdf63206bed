//! A name service at an address.
ghost use Rattle.std.specs.Prelude.{◌≡◌, [], None, length};
ghost use Rattle.adapter_policies.specs.BuiltIn.{names_setup};
ghost use Rattle.name_map.specs.declared.limits.TheConstants.{MAX_CALLERS};
ghost use Rattle.names_server.specs.Serving as Spec;

use crate::names_end::NamesEnd;
use adapter_policies::{NAMES_PER_SLOT, NAMES_SLOTS, Setup};
use names_runs::{NamesRun, WroteLine, names_run, write_line};
use object_lines::Address;
use orb_base::{Acceptor, List, NoMemory, Sink};
use orb_nets::{Net, NetFault};
use std::alloc::Global;
use std::sync::Wait;
use std::thread::Threads;

/// What a name service leaves.
#[derive(Drop)]
pub struct NamesServed<A, I, O> {
    pub end: NamesEnd,
    /// What its run left, where there was one.
    pub run: Option<NamesRun<I, O>>,
    /// The acceptors that the net gave, as they are at the end.
    pub acceptors: List<A>,
}

/// How a name service came out of which the line came out so.
fn end_of_line(wrote: WroteLine) -> NamesEnd
    ensures { result ≡ Spec.end_of_line wrote }
{
    match wrote {
        WroteLine::Whole => NamesEnd::Done,
        WroteLine::Failed => NamesEnd::WriteFault,
        WroteLine::NoMemory => NamesEnd::NoMemory,
    }
}

/// How a name service came out to which the net gave no acceptors.
fn end_of(fault: NetFault) -> NamesEnd
    ensures { result ≡ Spec.end_of fault }
{
    match fault {
        NetFault::Failed => NamesEnd::NetFault,
        NetFault::NoMemory => NamesEnd::NoMemory,
    }
}

/// Makes a run over these acceptors, and writes its line.
#[tactic(auto, using(crate::proofs::Listening::made, crate::proofs::Listening::not_made))]
fn serve_over<A: Acceptor + Send + Drop, O: Sink, R: Wait + Threads + Sync>(
    rt: &R,
    alloc: Global,
    setup: &Setup,
    acceptors: List<A>,
    out: &mut O,
) -> NamesServed<A, A::In, A::Out>
    requires setup { setup.now ≡ names_setup }
    requires slots { length acceptors.items ≡ MAX_CALLERS }
    ensures { Spec.MakesRun A.state A.In.state A.Out.state result.end result.run acceptors.items result.acceptors.items (O.state out.old)
        (O.state out.new) }
{
    let mut acceptors = acceptors;
    match names_run(rt, alloc, setup, &mut acceptors) {
        Ok(run) => {
            let wrote = write_line(alloc, out, &run);
            NamesServed {
                end: end_of_line(wrote),
                run: Some(run),
                acceptors,
            }
        }
        Err(NoMemory) => NamesServed {
            end: NamesEnd::NoMemory,
            run: None,
            acceptors,
        },
    }
}

/// Nothing was served, for this reason.
fn unserved<A, I, O>(alloc: Global, end: NamesEnd) -> NamesServed<A, I, O>
    ensures end { result.end ≡ end }
    ensures run { result.run ≡ None }
    ensures acceptors { result.acceptors.items ≡ [] }
{
    NamesServed {
        end,
        run: None,
        acceptors: List::new(alloc),
    }
}

/// Serves names at an address: listens there once, for `NAMES_SLOTS` slots of `NAMES_PER_SLOT` links each, makes one run over the acceptors,
/// until all slots have left, and writes its line. It may wait for ever for a link. A run costs what its connections cost, a thread a slot,
/// and the room for 65,536 calls of the map, which is kept to the end with what each connection left.
#[tactic(auto, using(crate::proofs::Listening::served_over, crate::proofs::Listening::unserved, crate::proofs::Listening::unasked))]
pub fn names_at<N: Net, O: Sink, R: Wait + Threads + Sync>(
    rt: &R,
    alloc: Global,
    net: &mut N,
    at: &Address,
    out: &mut O,
) -> NamesServed<N::Acc, N::In, N::Out>
    // The net was asked once, for the address and as many links a slot as it may serve, or memory ran out before. Where it gave acceptors, the run over them is one
    // legal history of the map, and its line was written.
    ensures served { Spec.NamesAt N.Acc.state N.In.state N.Out.state at.now result (N.state net.old) (N.state net.new)
        (O.state out.old) (O.state out.new) }
    ensures peers { (N.state net.new).peers ≡ (N.state net.old).peers }
{
    let Ok(setup) = Setup::names(alloc) else {
        return unserved(alloc, NamesEnd::NoMemory);
    };
    match net.listen(&at.host, at.port, NAMES_SLOTS, u32::from(NAMES_PER_SLOT)) {
        Ok(acceptors) => serve_over(rt, alloc, &setup, acceptors, out),
        Err(fault) => unserved(alloc, end_of(fault)),
    }
}
