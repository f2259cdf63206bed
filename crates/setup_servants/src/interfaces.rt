//! The interfaces of a setup.
ghost use Rattle.std.specs.Prelude.{◌≡◌, ◌≤◌, length};
ghost use Rattle.setup_servants.specs.Interfaces.{Declares, ReadsInterfaces};

use crate::fault::{ServingFault, TextRole};
use crate::texts::text_of;
use adapter_policies::Setup;
use grammar::ReadError;
use idl_reader::read_idl;
use idl_tokens::MAX_TEXT;
use idl_types::Repository;
use orb_base::Files;
use std::alloc::Global;

/// What the bytes of a text of interfaces declare.
fn declared_by(alloc: Global, bytes: &[u8]) -> Result<Repository, ServingFault>
    requires { length bytes.now ≤ MAX_TEXT }
    ensures { Declares result bytes.now }
{
    match read_idl(alloc, bytes) {
        Ok(repository) => Ok(repository),
        Err(ReadError::Refused(fault)) => Err(ServingFault::Idl(fault)),
        Err(ReadError::NoMemory) => Err(ServingFault::NoMemory),
    }
}

/// What the setup's text of interfaces declares.
#[tactic(auto, using(crate::proofs::Readings::interfaces_read, crate::proofs::Readings::interfaces_unread))]
pub(crate) fn read_interfaces<F: Files>(
    alloc: Global,
    files: &mut F,
    setup: &Setup,
) -> Result<Repository, ServingFault>
    ensures reads { ReadsInterfaces result setup.now.idl (F.state files.old) (F.state files.new) }
    ensures kept { (F.state files.new).files ≡ (F.state files.old).files }
{
    match text_of(alloc, files, setup.idl(), TextRole::Idl) {
        Ok(bytes) => declared_by(alloc, bytes.as_slice()),
        Err(fault) => Err(fault),
    }
}
