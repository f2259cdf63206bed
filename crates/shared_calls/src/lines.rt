//! The lines of several callers.
ghost use Rattle.std.specs.Prelude.{◌≡◌};
ghost use Rattle.idl_types.specs.Views.{operation_of};
ghost use Rattle.shared_calls.specs.Results.{result_of, results_of};
ghost use Rattle.shared_calls.specs.Lines as Spec;

use crate::results::result_of;
use client_calls::CallFault;
use client_runs::{CallEnd, write_line};
use idl_types::Operation;
use mux_sides::CallEnd as MuxEnd;
use orb_base::Sink;
use std::alloc::Global;

/// Whether a call failed because memory was out.
fn is_memory(fault: &CallFault) -> bool
    ensures { result ≡ Spec.is_memory fault.now }
{
    matches!(fault, CallFault::NoMemory)
}

/// Writes the line of what one caller's call came to, where it gave results.
#[tactic(auto, using(crate::proofs::LinesWritten::one_line, crate::proofs::LinesWritten::no_line))]
fn write_result<O: Sink>(alloc: Global, out: &mut O, operation: &Operation, end: &MuxEnd) -> CallEnd
    ensures { Spec.WritesOne result (operation_of operation.now) (result_of (operation_of operation.now) end.now)
        (O.state out.old) (O.state out.new) }
{
    match result_of(alloc, operation, end) {
        Ok(values) => write_line(alloc, out, operation, values.as_slice()),
        Err(fault) => {
            if is_memory(&fault) {
                CallEnd::NoMemory
            } else {
                CallEnd::Called(fault)
            }
        }
    }
}

/// Whether a line was written.
fn is_done(end: &CallEnd) -> bool
    ensures { result ≡ Spec.is_done end.now }
{
    matches!(end, CallEnd::Done)
}

/// Writes a line for each caller, in order, up to the first whose call gave no results: how the run comes out.
#[tactic(auto, using(crate::proofs::LinesWritten::lines_none))]
pub(crate) fn write_lines<O: Sink>(
    alloc: Global,
    out: &mut O,
    operation: &Operation,
    ends: &[MuxEnd],
) -> CallEnd
    ensures { Spec.WritesLines result (operation_of operation.now) (results_of (operation_of operation.now) ends.now)
        (O.state out.old) (O.state out.new) }
{
    let [end, later @ ..] = ends else {
        return CallEnd::Done;
    };
    let came = write_result(alloc, out, operation, end);
    if is_done(&came) {
        write_lines(alloc, out, operation, later)
    } else {
        came
    }
}
