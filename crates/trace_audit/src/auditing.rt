//! The audit.
ghost use Rattle.std.specs.Prelude.{◌≡◌, ◌≤◌, ◌<◌, ◌^◌, true, length, IfOk};
ghost use Rattle.trace_audit.specs.Audit.{Says, IsFaultInPart, Audits, Reports, AuditsRun};
ghost use Rattle.trace_audit.specs.Audit as Spec;

use crate::audit_end::{AuditEnd, AuditFault};
use crate::input::{Input, MAX_AUDITED, take_input};
use crate::judged::Judged;
use crate::lines::{audit_lines, first_wrong_entry};
use crate::traces::judge_text;
use crate::verdict::Verdict;
use orb_base::{List, NoMemory, Sink, Source};
use std::alloc::Global;
use text_streams::{WriteAll, write_all};

/// The verdicts on an input that was read to its end.
#[tactic(auto, using(crate::proofs::Faults::at_any_end))]
fn judge_whole(alloc: Global, text: &[u8]) -> Result<List<Verdict>, AuditFault>
    ensures { Says result text.now true }
{
    match judge_text(alloc, text) {
        Ok(Judged::Runs(verdicts)) => Ok(verdicts),
        Ok(Judged::Lacking(at)) | Ok(Judged::AtFault(at)) => Err(AuditFault::NotTrace(at as u64)),
        Err(NoMemory) => Err(AuditFault::NoMemory),
    }
}

/// Where the first line at fault begins, where a whole line is at fault.
fn whole_line_at_fault(judged: &Judged) -> Option<u64>
    ensures { result ≡ Spec.whole_line_at_fault judged.now }
{
    match judged {
        Judged::AtFault(at) => Some(*at as u64),
        Judged::Runs(_) | Judged::Lacking(_) => None,
    }
}

/// Where the first line at fault begins of an input that wasn't read to its end. None where no whole line is at fault.
#[tactic(auto, using(crate::proofs::Faults::found_in_part))]
fn fault_in_part(alloc: Global, text: &[u8]) -> Result<Option<u64>, NoMemory>
    ensures { IfOk result (IsFaultInPart text.now) }
{
    let judged = judge_text(alloc, text)?;
    Ok(whole_line_at_fault(&judged))
}

/// Why an input has no verdicts that wasn't read to its end: a whole line is at fault, or else for this cause.
fn why_in_part(found: Result<Option<u64>, NoMemory>, cause: AuditFault) -> AuditFault
    ensures { result ≡ Spec.why_in_part found cause }
{
    match found {
        Ok(Some(at)) => AuditFault::NotTrace(at),
        Ok(None) => cause,
        Err(NoMemory) => AuditFault::NoMemory,
    }
}

/// Reads an input of traces to its end, and judges each run. Work grows with the input, and with what waits and is owed where a
/// request ends, is withdrawn or is handed over; memory with the input, with the lines of one run and with the runs.
#[tactic(auto, using(crate::proofs::Runs::few_runs))]
pub fn audit<I: Source>(alloc: Global, source: &mut I) -> Result<List<Verdict>, AuditFault>
    ensures audits { Audits result (I.state source.old) (I.state source.new) }
    ensures few { IfOk result (λ verdicts. length verdicts.items ≤ MAX_AUDITED) }
{
    match take_input(alloc, source) {
        Ok(Input::Whole(bytes)) => judge_whole(alloc, bytes.as_slice()),
        Ok(Input::Full(bytes)) => {
            let found = fault_in_part(alloc, bytes.as_slice());
            Err(why_in_part(found, AuditFault::Spent))
        }
        Ok(Input::Failed(bytes)) => {
            let found = fault_in_part(alloc, bytes.as_slice());
            Err(why_in_part(found, AuditFault::ReadFault))
        }
        Err(NoMemory) => Err(AuditFault::NoMemory),
    }
}

/// Writes a line for each run.
fn report<O: Sink>(alloc: Global, verdicts: &[Verdict], sink: &mut O) -> Result<AuditEnd, NoMemory>
    requires { length verdicts.now < 2 ^ 32 }
    ensures { Reports result verdicts.now (O.state sink.old) (O.state sink.new) }
{
    let text = audit_lines(alloc, verdicts)?;
    match write_all(sink, text.as_bytes()) {
        WriteAll::Whole => match first_wrong_entry(verdicts) {
            Some(wrong) => Ok(AuditEnd::Wrong(wrong)),
            None => Ok(AuditEnd::Legal),
        },
        WriteAll::Failed => Ok(AuditEnd::WriteFault),
    }
}

/// Reads an input of traces to its end, judges each run, and writes a line for each. Nothing is written of an input that is no traces,
/// or that wasn't read to its end. See `audit` on work and memory.
pub fn audit_run<I: Source, O: Sink>(
    alloc: Global,
    source: &mut I,
    sink: &mut O,
) -> Result<AuditEnd, NoMemory>
    ensures { AuditsRun result (I.state source.old) (I.state source.new) (O.state sink.old) (O.state sink.new) }
{
    match audit(alloc, source) {
        Ok(verdicts) => report(alloc, verdicts.as_slice(), sink),
        Err(AuditFault::NotTrace(at)) => Ok(AuditEnd::NotTrace(at)),
        Err(AuditFault::ReadFault) => Ok(AuditEnd::ReadFault),
        Err(AuditFault::Spent) => Ok(AuditEnd::Spent),
        Err(AuditFault::NoMemory) => Err(NoMemory),
    }
}
