//! The setup of a configuration.
ghost use Rattle.std.specs.Prelude.{◌≡◌, option_map};
ghost use Rattle.setup_files.specs.Setups.{GivesSetup, ReadsConfig, ReadsBytes};

use crate::setup_end::{MAX_CONFIG, SetupEnd};
use adapter_policies::{Setup, SetupError, read_setup};
use orb_base::{Filed, Files, NoMemory, Octets, Text};
use std::alloc::Global;

/// The setup of the configuration of this name, or the built-in one where there is none.
pub fn setup_of<F: Files>(
    alloc: Global,
    files: &mut F,
    config: Option<&Text>,
) -> Result<Setup, SetupEnd>
    // The setup, or why there is none.
    ensures gives { GivesSetup result (option_map (λ name. name.now) config.entry) (F.state files.old) (F.state files.new) }
    // The store knows the same files as before.
    ensures kept { (F.state files.new).files ≡ (F.state files.old).files }
{
    match config {
        Some(name) => read_config(alloc, files, name),
        None => match Setup::built_in(alloc) {
            Ok(setup) => Ok(setup),
            Err(NoMemory) => Err(SetupEnd::NoMemory),
        },
    }
}

/// The setup of the configuration of this name.
#[tactic(auto, using(crate::proofs::Ends::config_read))]
fn read_config<F: Files>(alloc: Global, files: &mut F, name: &Text) -> Result<Setup, SetupEnd>
    ensures reads { ReadsConfig result name.now (F.state files.old) (F.state files.new) }
    ensures kept { (F.state files.new).files ≡ (F.state files.old).files }
{
    let mut bytes = Octets::new(alloc);
    match files.read(name, MAX_CONFIG, &mut bytes) {
        Filed::Whole => read_bytes(alloc, bytes.as_slice()),
        Filed::Absent => Err(SetupEnd::Absent),
        Filed::TooLong => Err(SetupEnd::TooLong),
        Filed::Failed => Err(SetupEnd::ReadFault),
        Filed::NoMemory => Err(SetupEnd::NoMemory),
    }
}

/// The setup of a configuration's bytes.
fn read_bytes(alloc: Global, bytes: &[u8]) -> Result<Setup, SetupEnd>
    ensures { ReadsBytes result bytes.now }
{
    match read_setup(alloc, bytes) {
        Ok(setup) => Ok(setup),
        Err(SetupError::Refused(fault)) => Err(SetupEnd::Refused(fault)),
        Err(SetupError::NoMemory) => Err(SetupEnd::NoMemory),
    }
}
