//! The line of a call's results.
ghost use Rattle.std.specs.Prelude.{◌≡◌, IfOk, string_bytes};
ghost use Rattle.cdr_values.specs.Values.{values_view};
ghost use Rattle.idl_types.specs.Views.{operation_of};
ghost use Rattle.client_runs.specs.Lines as Spec;

use crate::call_end::CallEnd;
use cdr_values::IdlValue;
use idl_types::Operation;
use orb_base::{NoMemory, Sink};
use std::alloc::Global;
use text_streams::{WriteAll, write_all};
use value_json::results_json;

/// The line of the results of an operation.
fn line_of(alloc: Global, operation: &Operation, values: &[IdlValue]) -> Result<String, NoMemory>
    ensures { IfOk result (λ s. string_bytes s ≡ Spec.line_of (operation_of operation.now) (values_view values.now)) }
{
    let mut line = results_json(alloc, operation, values)?;
    line.push_str("\n")?;
    Ok(line)
}

/// Writes the line of the results of an operation. Nothing is written where memory runs out for it.
pub fn write_line<O: Sink>(
    alloc: Global,
    out: &mut O,
    operation: &Operation,
    values: &[IdlValue],
) -> CallEnd
    ensures { Spec.WritesLine result (Spec.line_of (operation_of operation.now) (values_view values.now))
        (O.state out.old) (O.state out.new) }
{
    match line_of(alloc, operation, values) {
        Ok(line) => match write_all(out, line.as_bytes()) {
            WriteAll::Whole => CallEnd::Done,
            WriteAll::Failed => CallEnd::WriteFault,
        },
        Err(NoMemory) => CallEnd::NoMemory,
    }
}
