//! The lines of an audit.
ghost use Rattle.std.specs.Prelude.{◌≡◌, ◌<◌, ◌++◌, ◌^◌, length, IfOk, OnOk, string_bytes};
ghost use Rattle.trace_audit.specs.Lines as Spec;

use crate::audit_end::WrongEntry;
use crate::verdict::Verdict;
use orb_base::NoMemory;
use std::alloc::Global;
use std::fmt::Write;

/// Puts the line of a run after the text.
fn put_line(text: &mut String, n: usize, verdict: &Verdict) -> Result<(), NoMemory>
    ensures { OnOk result (string_bytes text.new ≡ string_bytes text.old ++ Spec.run_line n verdict.now) }
{
    write!(text, "run {n} {verdict}\n")?;
    Ok(())
}

/// A line for each run.
pub fn audit_lines(alloc: Global, verdicts: &[Verdict]) -> Result<String, NoMemory>
    ensures { IfOk result (λ text. string_bytes text ≡ Spec.audit_lines verdicts.now) }
{
    let mut text = String::new(alloc);
    for (n, verdict) in verdicts.iter().enumerate() {
        put_line(&mut text, n, verdict)?;
    }
    Ok(text)
}

/// The first run that isn't legal, and its first wrong entry.
pub fn first_wrong_entry(verdicts: &[Verdict]) -> Option<WrongEntry>
    requires { length verdicts.now < 2 ^ 32 }
    ensures { result ≡ Spec.first_wrong_entry verdicts.now }
{
    for (n, verdict) in verdicts.iter().enumerate() {
        if let Some(entry) = verdict.first_wrong {
            let run = n as u32;
            return Some(WrongEntry { run, entry });
        }
    }
    None
}
