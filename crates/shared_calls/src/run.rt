//! A call of the command line that several callers make over one link.
ghost use Rattle.std.specs.Prelude.{◌≡◌, ◌⊎◌, ◌≤◌, length, None, IsTrue};
ghost use Rattle.idl_types.specs.Contents.{things_of};
ghost use Rattle.client_mux.specs.declared.limits.TheConstants.{MAX_CALLERS};
ghost use Rattle.client_stub.specs.Asking.{arguments_fit, asked_of};
ghost use Rattle.client_stub.specs.Sending.{IsSendable};
ghost use Rattle.client_runs.specs.Plans.{asked_in};
ghost use Rattle.client_runs.specs.declared.call_end.CallEnd.TheVariants as end;
ghost use Rattle.mux_runs.specs.Callers.{AreShort};
ghost use Rattle.shared_calls.specs.Asking.{AllAsk};
ghost use Rattle.shared_calls.specs.Runs as Spec;

use crate::asking::calls_of;
use crate::lines::write_lines;
use crate::shared_call::SharedCall;
use client_mux::CallerCount;
use client_runs::{CallEnd, CallWords, LocalFault, Plan, end_of, known, plan_of};
use client_stub::Asked;
use idl_types::Repository;
use mux_runs::{Asking, mux_run};
use orb_base::{Files, List, NoMemory, Sink, Source};
use orb_nets::Net;
use std::alloc::Global;
use std::sync::Wait;
use std::thread::Threads;

/// Runs the callers over a link that the net gave, and writes the lines of their results.
fn share_over<I: Source + Send + Drop, S: Sink + Send + Drop, O: Sink, R: Wait + Threads + Sync>(
    rt: &R,
    alloc: Global,
    link: (I, S),
    asked: &Asked,
    calls: List<Asking>,
    out: &mut O,
) -> SharedCall<I, S>
    requires all { AllAsk (asked_of asked.now) calls.items }
    requires some { 1 ≤ length calls.items }
    requires few { length calls.items ≤ MAX_CALLERS }
    requires short { AreShort calls.items }
    ensures { Spec.Ran I.state S.state (asked_of asked.now) (length calls.items) result link (O.state out.old) (O.state out.new)
        ⊎ Spec.RanNot I.state S.state result link (O.state out.old) (O.state out.new) }
{
    let (source, sink) = link;
    match mux_run(rt, alloc, source, sink, calls) {
        Ok(run) => {
            let end = write_lines(alloc, out, asked.operation, run.ends.as_slice());
            SharedCall {
                end,
                run: Some(run),
                link: None,
            }
        }
        Err(link) => SharedCall {
            end: CallEnd::NoMemory,
            run: None,
            link: Some(link),
        },
    }
}

/// Connects to the remote object of a call, which as many callers make as there are calls.
#[tactic(auto, using(crate::proofs::Sharing::connected, crate::proofs::Sharing::not_connected))]
fn connect_and_share<N: Net, O: Sink, R: Wait + Threads + Sync>(
    rt: &R,
    alloc: Global,
    net: &mut N,
    asked: &Asked,
    calls: List<Asking>,
    out: &mut O,
) -> SharedCall<N::In, N::Out>
    requires all { AllAsk (asked_of asked.now) calls.items }
    requires some { 1 ≤ length calls.items }
    requires few { length calls.items ≤ MAX_CALLERS }
    requires short { AreShort calls.items }
    ensures connects { Spec.ConnectsOnce N.In.state N.Out.state (asked_of asked.now) (length calls.items) result (N.state net.old)
        (N.state net.new) (O.state out.old) (O.state out.new) }
    ensures slots { (N.state net.new).slots ≡ (N.state net.old).slots }
{
    let remote = asked.remote;
    match net.connect(&remote.host, remote.port) {
        Ok(link) => share_over(rt, alloc, link, asked, calls, out),
        Err(fault) => SharedCall::unconnected(end_of(fault)),
    }
}

/// Has so many callers make a call that binds no band.
fn share_asked<N: Net, O: Sink, R: Wait + Threads + Sync>(
    rt: &R,
    alloc: Global,
    net: &mut N,
    asked: &Asked,
    callers: CallerCount,
    out: &mut O,
) -> SharedCall<N::In, N::Out>
    requires fits { IsTrue (arguments_fit (asked_of asked.now)) }
    requires short { IsSendable (asked_of asked.now) }
    ensures shares { Spec.ConnectsOnce N.In.state N.Out.state (asked_of asked.now) callers result (N.state net.old) (N.state net.new)
        (O.state out.old) (O.state out.new)
        ⊎ Spec.Unconnected N.In.state N.Out.state result end.NoMemory (N.state net.old) (N.state net.new) (O.state out.old)
        (O.state out.new) }
    ensures slots { (N.state net.new).slots ≡ (N.state net.old).slots }
{
    match calls_of(alloc, asked, callers) {
        Ok(calls) => connect_and_share(rt, alloc, net, asked, calls, out),
        Err(NoMemory) => SharedCall::unconnected(CallEnd::NoMemory),
    }
}

/// Has so many callers make the call of a plan, unless it binds a band.
#[tactic(auto, using(crate::proofs::Sharing::planned, crate::proofs::Sharing::banded))]
fn share_planned<N: Net, O: Sink, R: Wait + Threads + Sync>(
    rt: &R,
    alloc: Global,
    net: &mut N,
    plan: &Plan<'_>,
    callers: CallerCount,
    out: &mut O,
) -> SharedCall<N::In, N::Out>
    requires fits { IsTrue (arguments_fit (asked_in plan.now)) }
    requires short { IsSendable (asked_in plan.now) }
    ensures shares { Spec.SharesPlan N.In.state N.Out.state (asked_in plan.now) callers result (N.state net.old) (N.state net.new)
        (O.state out.old) (O.state out.new) }
    ensures slots { (N.state net.new).slots ≡ (N.state net.old).slots }
{
    if plan.band.is_some() {
        return SharedCall::unconnected(CallEnd::Local(LocalFault::SharedBand));
    }
    let asked = plan.asked();
    share_asked(rt, alloc, net, &asked, callers, out)
}

/// Has so many callers make the call that the words ask for, by the interfaces that are known.
#[tactic(auto, using(crate::proofs::Sharing::planned_shares, crate::proofs::Sharing::unplanned))]
fn share_known<N: Net, O: Sink, R: Wait + Threads + Sync>(
    rt: &R,
    alloc: Global,
    net: &mut N,
    repository: &Repository,
    words: &CallWords,
    callers: CallerCount,
    out: &mut O,
) -> SharedCall<N::In, N::Out>
    ensures shares { Spec.SharesBy N.In.state N.Out.state (record { words = words.now; callers = callers })
        (things_of repository.now) result (N.state net.old) (N.state net.new) (O.state out.old) (O.state out.new) }
    ensures slots { (N.state net.new).slots ≡ (N.state net.old).slots }
{
    match plan_of(alloc, repository, words) {
        Ok(plan) => share_planned(rt, alloc, net, &plan, callers, out),
        Err(end) => SharedCall::unconnected(end),
    }
}

/// Has so many callers, each in a thread of its own, make the call that the words ask for over one link, and writes the results of each
/// as one line of JSON, in order, up to the first caller whose call gave none. First the file of IDL is read, where the words name one;
/// the built-in module `Orb` is known in any case. The reference, the interface, the operation, the arguments with the length of the
/// request, and the band are judged in this order, before the net is asked; a reference whose bands would be bound comes last. The net is
/// asked once, to connect to the host and the port of the reference. There is no time limit, and a location forward isn't followed. A
/// thread that can't be made may leave the run waiting for the others. Work and memory grow with the file, the words and the bytes that
/// are sent and read; at most 67,108,864 bytes and 4,096 replies are read.
#[tactic(auto, using(crate::proofs::Sharing::known_shares, crate::proofs::Sharing::unknown))]
pub fn share_run<N: Net, F: Files, O: Sink, R: Wait + Threads + Sync>(
    rt: &R,
    alloc: Global,
    net: &mut N,
    files: &mut F,
    words: &CallWords,
    callers: CallerCount,
    out: &mut O,
) -> SharedCall<N::In, N::Out>
    // What came of the call: each end only with its cause, in the order of work.
    ensures shares { Spec.SharesWith N.In.state N.Out.state (record { words = words.now; callers = callers }) result
        (F.state files.old) (F.state files.new) (N.state net.old) (N.state net.new) (O.state out.old) (O.state out.new) }
    // The store knows the same files as before.
    ensures kept { (F.state files.new).files ≡ (F.state files.old).files }
    // Nothing is listened for.
    ensures slots { (N.state net.new).slots ≡ (N.state net.old).slots }
{
    match known(alloc, files, words.idl.as_ref()) {
        Ok(repository) => share_known(rt, alloc, net, &repository, words, callers, out),
        Err(end) => SharedCall::unconnected(end),
    }
}
