//! The line of each object of a setup.
ghost use Rattle.std.specs.Prelude.{◌≡◌, ◌<◌, ◌+◌, ◌^◌, ◌++◌, IfOk, OnOk, length, slice_get, string_bytes, Some};
ghost use Rattle.object_refs.specs.Layout.{IsCountedReference};
ghost use Rattle.object_refs.specs.References.{stringified};
ghost use Rattle.text_streams.specs.Shown as Shown;
ghost use Rattle.object_lines.specs.Lines.{WritesLines, line_of, line_text, lines_text};

use crate::at_end::AtEnd;
use adapter_policies::{ObjectSpec, Setup};
use object_refs::{Ior, ior_text};
use orb_base::{NoMemory, Octets, Sink, Text};
use std::alloc::Global;
use text_streams::{WriteAll, shown, write_all};

/// A key as a line shows it.
fn key_text(alloc: Global, key: &Text) -> Result<String, NoMemory>
    ensures { IfOk result (λ text. string_bytes text ≡ Shown.shown key.now) }
{
    let key = shown(key.as_slice());
    Ok(format!(in alloc; "{key}")?)
}

/// Puts the line of a key and a reference after the lines.
fn put_reference(alloc: Global, lines: &mut Octets, key: &Text, ior: &Ior) -> Result<(), NoMemory>
    requires { IsCountedReference ior.now }
    ensures { OnOk result (lines.new.items ≡ lines.old.items ++ line_of key.now ior.now) }
{
    let key = key_text(alloc, key)?;
    let reference = ior_text(alloc, ior)?;
    lines.append(key.as_bytes())?;
    lines.append(b" ")?;
    lines.append(reference.as_slice())?;
    lines.append(b"\n")?;
    Ok(())
}

/// Puts the line of an object after the lines.
#[tactic(auto, using(adapter_policies::proofs::Published::reference_counted, crate::proofs::Walks::line_is))]
fn put_line(
    alloc: Global,
    lines: &mut Octets,
    setup: &Setup,
    n: u16,
    object: &ObjectSpec,
    at: (&Text, u16),
) -> Result<(), NoMemory>
    requires counted { length at.0.now + 1 < 2 ^ 32 }
    requires numbered { slice_get setup.now.objects n ≡ Some object.now }
    requires there { n < length setup.now.objects }
    ensures { OnOk result (lines.new.items ≡ lines.old.items ++ line_text setup.now at.entry.0.now at.entry.1 object.now) }
{
    let ior = setup.reference(alloc, n, at.0, at.1)?;
    put_reference(alloc, lines, &object.key, &ior)
}

/// The lines of all objects, by number.
#[tactic(auto, using(setup_servants::proofs::Walks::object_there, crate::proofs::Walks::more_lines, crate::proofs::Walks::all_lines))]
fn lines_made(alloc: Global, setup: &Setup, host: &Text, port: u16) -> Result<Octets, NoMemory>
    requires { length host.now + 1 < 2 ^ 32 }
    ensures { IfOk result (λ lines. lines.items ≡ lines_text setup.now host.now port) }
{
    let mut lines = Octets::new(alloc);
    let mut n: u16 = 0;
    while let Some(object) = setup.object(n) {
        put_line(alloc, &mut lines, setup, n, object, (host, port))?;
        n += 1;
    }
    Ok(lines)
}

/// Writes a line for each object of a setup, by number: its key, and the text of its reference at a host and a port. Nothing is
/// written where memory is wanting. Work grows with the lines.
pub fn lines_run<O: Sink>(
    alloc: Global,
    sink: &mut O,
    setup: &Setup,
    host: &Text,
    port: u16,
) -> AtEnd
    requires { length host.now + 1 < 2 ^ 32 }
    ensures { WritesLines result (lines_text setup.now host.now port) (O.state sink.old) (O.state sink.new) }
{
    match lines_made(alloc, setup, host, port) {
        Ok(lines) => match write_all(sink, lines.as_slice()) {
            WriteAll::Whole => AtEnd::Done,
            WriteAll::Failed => AtEnd::WriteFault,
        },
        Err(NoMemory) => AtEnd::NoMemory,
    }
}
