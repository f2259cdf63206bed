//! The notes of what has no setup with servants.
ghost use Rattle.std.specs.Prelude.{◌≡◌};
ghost use Rattle.orb_command.specs.SetupNotes as Spec;

use crate::note::{Note, Role};
use setup_files::SetupEnd;
use setup_servants::{ServingFault, TextRole};

/// What a text of a setup is for.
fn role_of(role: TextRole) -> Role
    ensures { result ≡ Spec.role_of role }
{
    match role {
        TextRole::Idl => Role::Idl,
        TextRole::Scripts => Role::Scripts,
    }
}

/// The note of a setup without servants.
fn note_serving(fault: ServingFault) -> Note
    ensures { result ≡ Spec.serving_note fault }
{
    match fault {
        ServingFault::Idl(fault) => Note::Idl(fault),
        ServingFault::Script(fault) => Note::Script(fault),
        ServingFault::Check(fault) => Note::Check(fault),
        ServingFault::Object(fault) => Note::Config(fault),
        ServingFault::Absent(role) => Note::Absent(role_of(role)),
        ServingFault::TooLong(role) => Note::TooLong(role_of(role)),
        ServingFault::ReadFault => Note::ReadFault,
        ServingFault::NoMemory => Note::Memory,
    }
}

/// The note of a configuration that gives no setup with servants.
pub fn note_setup(end: SetupEnd) -> Note
    ensures { result ≡ Spec.setup_note end }
{
    match end {
        SetupEnd::Refused(fault) => Note::Config(fault),
        SetupEnd::Absent => Note::Absent(Role::Config),
        SetupEnd::TooLong => Note::TooLong(Role::Config),
        SetupEnd::Unserved(fault) => note_serving(fault),
        SetupEnd::ReadFault => Note::ReadFault,
        SetupEnd::NoMemory => Note::Memory,
    }
}
