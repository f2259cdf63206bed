//! The interfaces that a call knows.
ghost use Rattle.std.specs.Prelude.{◌≡◌, ◌≤◌, IfOk, length, option_map};
ghost use Rattle.idl_types.specs.Contents.{things_of};
ghost use Rattle.client_runs.specs.Interfaces as Spec;

use crate::call_end::{CallEnd, FileFault};
use grammar::ReadError;
use idl_reader::read_idl;
use idl_tokens::MAX_TEXT;
use idl_types::Repository;
use orb_base::{Filed, Files, NoMemory, Octets, Text};
use std::alloc::Global;

/// What the bytes of a text of IDL declare.
fn read_bytes(alloc: Global, bytes: &[u8]) -> Result<Repository, CallEnd>
    requires { length bytes.now ≤ MAX_TEXT }
    ensures { Spec.ReadsBytes result bytes.now }
{
    match read_idl(alloc, bytes) {
        Ok(repository) => Ok(repository),
        Err(ReadError::Refused(fault)) => Err(CallEnd::File(FileFault::Refused(fault))),
        Err(ReadError::NoMemory) => Err(CallEnd::NoMemory),
    }
}

/// What the file of this name declares.
#[tactic(auto, using(crate::proofs::KnownFiles::file_read))]
fn read_file<F: Files>(alloc: Global, files: &mut F, name: &Text) -> Result<Repository, CallEnd>
    ensures reads { Spec.ReadsFile result name.now (F.state files.old) (F.state files.new) }
    ensures kept { (F.state files.new).files ≡ (F.state files.old).files }
{
    let mut bytes = Octets::new(alloc);
    match files.read(name, MAX_TEXT, &mut bytes) {
        Filed::Whole => read_bytes(alloc, bytes.as_slice()),
        Filed::Absent => Err(CallEnd::File(FileFault::Absent)),
        Filed::TooLong => Err(CallEnd::File(FileFault::TooLong)),
        Filed::Failed => Err(CallEnd::File(FileFault::ReadFault)),
        Filed::NoMemory => Err(CallEnd::NoMemory),
    }
}

/// What a repository declares with the interface of `ping`, and with that of the name service and its exceptions.
fn with_both(repository: Repository) -> Result<Repository, NoMemory>
    ensures { IfOk result (λ r. things_of r ≡ Spec.with_built_in (things_of repository)) }
{
    repository.with_ping()?.with_names()
}

/// What a repository declares with the built-in module.
fn with_built_in(repository: Repository) -> Result<Repository, CallEnd>
    ensures { Spec.AddsBuiltIn result repository }
{
    match with_both(repository) {
        Ok(repository) => Ok(repository),
        Err(NoMemory) => Err(CallEnd::NoMemory),
    }
}

/// What the file of this name declares, with the built-in module.
#[tactic(auto, using(crate::proofs::KnownFiles::file_known))]
fn known_by<F: Files>(alloc: Global, files: &mut F, name: &Text) -> Result<Repository, CallEnd>
    ensures knows { Spec.KnowsBy result name.now (F.state files.old) (F.state files.new) }
    ensures kept { (F.state files.new).files ≡ (F.state files.old).files }
{
    match read_file(alloc, files, name) {
        Ok(repository) => with_built_in(repository),
        Err(end) => Err(end),
    }
}

/// What a call knows: what the file of IDL of this name declares, a text of at most 1,048,576 bytes, and the built-in module; without a
/// name that module alone. Work and memory grow with the text and what it declares.
pub fn known<F: Files>(
    alloc: Global,
    files: &mut F,
    idl: Option<&Text>,
) -> Result<Repository, CallEnd>
    ensures knows { Spec.Knows result (option_map (λ name. name.now) idl.entry) (F.state files.old) (F.state files.new) }
    ensures kept { (F.state files.new).files ≡ (F.state files.old).files }
{
    match idl {
        Some(name) => known_by(alloc, files, name),
        None => with_built_in(Repository::new(alloc)),
    }
}
