//! One call of the command line.
ghost use Rattle.std.specs.Prelude.{◌≡◌, IsTrue};
ghost use Rattle.idl_types.specs.Contents.{things_of};
ghost use Rattle.client_stub.specs.Asking.{arguments_fit, asked_of};
ghost use Rattle.client_stub.specs.Sending.{IsSendable};
ghost use Rattle.client_runs.specs.Exchanges.{CallsOnce};
ghost use Rattle.client_runs.specs.Plans.{asked_in};
ghost use Rattle.client_runs.specs.Runs as Spec;

use crate::call_end::CallEnd;
use crate::call_words::CallWords;
use crate::called::Called;
use crate::interfaces::known;
use crate::lines::write_line;
use crate::plan::{Plan, plan_of};
use client_calls::call;
use client_stub::Asked;
use idl_types::Repository;
use orb_base::{Files, Sink, Source};
use orb_nets::{Net, NetFault};
use std::alloc::Global;

/// Calls over a connection, and writes the line of the results.
#[tactic(auto, using(crate::proofs::Exchanging::called_once))]
fn exchange<I: Source, S: Sink, O: Sink>(
    alloc: Global,
    source: &mut I,
    sink: &mut S,
    asked: &Asked,
    out: &mut O,
) -> CallEnd
    requires fits { IsTrue (arguments_fit (asked_of asked.now)) }
    requires short { IsSendable (asked_of asked.now) }
    ensures { CallsOnce result (asked_of asked.now) (I.state source.old) (I.state source.new) (S.state sink.old) (S.state sink.new)
        (O.state out.old) (O.state out.new) }
{
    match call(alloc, source, sink, asked) {
        Ok(values) => write_line(alloc, out, asked.operation, values.as_slice()),
        Err(fault) => CallEnd::Called(fault),
    }
}

/// Calls over a connection that the net gave.
fn call_over<I: Source, S: Sink, O: Sink>(
    alloc: Global,
    source: I,
    sink: S,
    asked: &Asked,
    out: &mut O,
) -> Called<I, S>
    requires fits { IsTrue (arguments_fit (asked_of asked.now)) }
    requires short { IsSendable (asked_of asked.now) }
    ensures { Spec.CallsOver I.state S.state (asked_of asked.now) result (source, sink) (O.state out.old) (O.state out.new) }
{
    let mut source = source;
    let mut sink = sink;
    let end = exchange(alloc, &mut source, &mut sink, asked, out);
    Called {
        end,
        link: Some((source, sink)),
    }
}

/// How a call came out to which the net gave no connection.
pub fn end_of(fault: NetFault) -> CallEnd
    ensures { result ≡ Spec.end_of fault }
{
    match fault {
        NetFault::Failed => CallEnd::NetFault,
        NetFault::NoMemory => CallEnd::NoMemory,
    }
}

/// Connects to the remote object of a call, and calls it.
#[tactic(auto, using(crate::proofs::Connecting::connected, crate::proofs::Connecting::not_connected))]
fn connect_and_call<N: Net, O: Sink>(
    alloc: Global,
    net: &mut N,
    asked: &Asked,
    out: &mut O,
) -> Called<N::In, N::Out>
    requires fits { IsTrue (arguments_fit (asked_of asked.now)) }
    requires short { IsSendable (asked_of asked.now) }
    ensures connects { Spec.ConnectsOnce N.In.state N.Out.state (asked_of asked.now) result (N.state net.old) (N.state net.new)
        (O.state out.old) (O.state out.new) }
    ensures slots { (N.state net.new).slots ≡ (N.state net.old).slots }
{
    let remote = asked.remote;
    match net.connect(&remote.host, remote.port) {
        Ok((source, sink)) => call_over(alloc, source, sink, asked, out),
        Err(fault) => Called::unconnected(end_of(fault)),
    }
}

/// Connects to the remote object of a plan, and calls it.
fn call_planned<N: Net, O: Sink>(
    alloc: Global,
    net: &mut N,
    plan: &Plan<'_>,
    out: &mut O,
) -> Called<N::In, N::Out>
    requires fits { IsTrue (arguments_fit (asked_in plan.now)) }
    requires short { IsSendable (asked_in plan.now) }
    ensures connects { Spec.ConnectsOnce N.In.state N.Out.state (asked_in plan.now) result (N.state net.old) (N.state net.new)
        (O.state out.old) (O.state out.new) }
    ensures slots { (N.state net.new).slots ≡ (N.state net.old).slots }
{
    let asked = plan.asked();
    connect_and_call(alloc, net, &asked, out)
}

/// Does the call that the words ask for, by the interfaces that are known.
#[tactic(auto, using(crate::proofs::Connecting::unplanned))]
fn call_known<N: Net, O: Sink>(
    alloc: Global,
    net: &mut N,
    repository: &Repository,
    words: &CallWords,
    out: &mut O,
) -> Called<N::In, N::Out>
    ensures calls { Spec.CallsBy N.In.state N.Out.state words.now (things_of repository.now) result (N.state net.old) (N.state net.new)
        (O.state out.old) (O.state out.new) }
    ensures slots { (N.state net.new).slots ≡ (N.state net.old).slots }
{
    match plan_of(alloc, repository, words) {
        Ok(plan) => call_planned(alloc, net, &plan, out),
        Err(end) => Called::unconnected(end),
    }
}

/// Calls the operation that the words name, of the object of their reference, and writes the results as one line of JSON. First the file
/// of IDL is read, where the words name one; the built-in module `Orb` is known in any case. The reference, the interface, the operation,
/// the arguments with the length of the requests, and the band are judged in this order, before the net is asked. The net is asked once,
/// to connect to the host and the port of the reference. What is sent then, and what the call comes to, is as `client_calls` says: there
/// is no time limit, and a location forward isn't followed. The connection is handed back open. Work and memory grow with the file, the
/// words and the bytes that are sent and read; at most 67,108,864 bytes are read from the connection.
#[tactic(auto, using(crate::proofs::Connecting::known_calls, crate::proofs::Connecting::unknown))]
pub fn call_run<N: Net, F: Files, O: Sink>(
    alloc: Global,
    net: &mut N,
    files: &mut F,
    words: &CallWords,
    out: &mut O,
) -> Called<N::In, N::Out>
    // What came of the call: each end only with its cause, in the order of work.
    ensures calls { Spec.CallsWith N.In.state N.Out.state words.now result (F.state files.old) (F.state files.new)
        (N.state net.old) (N.state net.new) (O.state out.old) (O.state out.new) }
    // The store knows the same files as before.
    ensures kept { (F.state files.new).files ≡ (F.state files.old).files }
    // Nothing is listened for.
    ensures slots { (N.state net.new).slots ≡ (N.state net.old).slots }
{
    match known(alloc, files, words.idl.as_ref()) {
        Ok(repository) => call_known(alloc, net, &repository, words, out),
        Err(end) => Called::unconnected(end),
    }
}
