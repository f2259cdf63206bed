//! The bytes of a setup's texts.
ghost use Rattle.std.specs.Prelude.{◌≡◌, ◌≤◌, IfOk, length, Some};
ghost use Rattle.std.specs.Option.{option_copied};
ghost use Rattle.setup_servants.specs.Texts.{ReadsText};

use crate::fault::{ServingFault, TextRole};
use idl_tokens::MAX_TEXT;
use orb_base::{Filed, Files, Octets, Text};
use std::alloc::Global;

/// The bytes of the file of a name.
fn read_named<F: Files>(
    alloc: Global,
    files: &mut F,
    name: &Text,
    role: TextRole,
) -> Result<Octets, ServingFault>
    ensures reads { ReadsText result role (Some name.now) (F.state files.old) (F.state files.new) }
    ensures fits { IfOk result (λ bytes. length bytes.items ≤ MAX_TEXT) }
    ensures kept { (F.state files.new).files ≡ (F.state files.old).files }
{
    let mut bytes = Octets::new(alloc);
    match files.read(name, MAX_TEXT, &mut bytes) {
        Filed::Whole => Ok(bytes),
        Filed::Absent => Err(ServingFault::Absent(role)),
        Filed::TooLong => Err(ServingFault::TooLong(role)),
        Filed::Failed => Err(ServingFault::ReadFault),
        Filed::NoMemory => Err(ServingFault::NoMemory),
    }
}

/// The bytes of a text: those of the file of its name, and none where it has no name.
pub(crate) fn text_of<F: Files>(
    alloc: Global,
    files: &mut F,
    name: Option<&Text>,
    role: TextRole,
) -> Result<Octets, ServingFault>
    ensures reads { ReadsText result role (option_copied name.entry) (F.state files.old) (F.state files.new) }
    ensures fits { IfOk result (λ bytes. length bytes.items ≤ MAX_TEXT) }
    ensures kept { (F.state files.new).files ≡ (F.state files.old).files }
{
    match name {
        Some(name) => read_named(alloc, files, name, role),
        None => Ok(Octets::new(alloc)),
    }
}
